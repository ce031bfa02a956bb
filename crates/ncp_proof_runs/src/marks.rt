//! The marks and sums of a peer's notes determine the host's record of each pair of sockets.
ghost use Rattle.std.specs.Prelude.{◌≡◌, ℕ, true, false, [], ◌∷◌, ◌++◌, None, Some};
ghost use Rattle.std.specs.FinMap.{get};
ghost use Rattle.ncp_model.specs.Pairs.{sends, receives};
ghost use Rattle.ncp_model.specs.Amounts.{◌⊕◌, allowance};
ghost use Rattle.ncp_model.specs.Endpoint.{is_open};
ghost use Rattle.ncp_model.specs.Ends.{sender_on, receiver_on};
ghost use Rattle.ncp_model.specs.Rows.{inward};
ghost use Rattle.ncp_conn.specs.declared.record.Record.{Record};
ghost use Rattle.ncp_conn.specs.Records.{record_in};
ghost use Rattle.ncp_proof_runs.specs.Reconstructed.{OfEachPair, OfEachEnd};
ghost use Rattle.ncp_proof_runs.specs.Acts.{AreActs, was_cleared, acts_of};
ghost use Rattle.ncp_proof_runs.specs.Marks.{no_marks, is_marked_open, is_leaving, is_marked_dropped, end_marked, record_marked, marks_from, marks_of};
ghost use Rattle.ncp_proof_runs.specs.Examples.{asking, is_asked, taking, closes, asked_wrongly, gives_back};
ghost use Rattle.ncp_proof_runs.specs.WhereNoted.{MarkedBefore, MarkedAfter};
ghost use Rattle.ncp_proof_runs.specs.WhatIsKept.{OfPairsOn};
ghost use Rattle.ncp_proof_runs.specs.RunRows.{an_ask_to_send, an_ask_to_receive, a_close, a_reset_done, a_state, no_entry, it_opens, it_gets, it_is_closed, asked_alone, both_asked, two_granted, one_of_two_back, record_of_two_bytes};

/// In any run, the events on a pair that the notes of its peer show follow the rules: each has the
/// outcome and makes the commands that the rules define at the endpoint before it, and together
/// they lead from no endpoint to the present one.
pub fn acts_are_those_of_the_rules()
    ensures { OfEachPair (λ pair told s. AreActs pair None (acts_of pair told) (get s.peer.ends pair)) }
{}

/// After any run, the marks and sums of the notes determine whether the host has an endpoint for a
/// pair, and all of it: the local and the peer's request, the opening, leaving and both CLSs, the
/// link, the size and the room, a text without its RFNM and a GVB without its RET, the counters or
/// the outstanding allocation, the stored bits, and the interrupts.
///
/// - The stored text is the text given or got, less that sent or taken, unless it was dropped.
/// - The endpoint is open, and live, exactly when the marks show it so.
/// - Its counters, or its outstanding allocation, with the amounts returned and used, sum to the
///   amount granted.
///
/// The record returned to a user follows from the marks too, and so does a note that reads it or
/// finds none.
pub fn records_are_what_marks_and_sums_say()
    ensures end { OfEachPair (λ pair told s. get s.peer.ends pair ≡ end_marked pair (marks_of pair told)) }
    ensures record { OfEachPair (λ pair told s. record_in pair s.peer.ends ≡ record_marked pair (marks_of pair told)) }
    ensures stored { OfEachEnd (λ pair m e. is_marked_dropped pair m ≡ false → m.entered ≡ m.drawn ++ e.stored) }
    ensures open { OfEachEnd (λ pair m e. is_open e ≡ is_marked_open m) }
    ensures live { OfEachEnd (λ pair m e. e.opened ≡ m.opened) }
    ensures amounts { OfEachEnd (λ pair m e. allowance e ⊕ m.returned ⊕ m.used ≡ m.granted) }
    ensures noted { (r : Record) → MarkedBefore (a_state r) (λ pair m. record_marked pair m ≡ Some r) }
    ensures none_noted { MarkedBefore no_entry (λ pair m. record_marked pair m ≡ None) }
{}

/// A link identifies a pair whose marks have this link: a sender whose RTS named it, or a receiver
/// that asked with it.
pub fn links_lead_to_pairs_that_are_marked()
    ensures sender { OfPairsOn sender_on (λ on pair m. sends pair ≡ true) }
    ensures sender_heard { OfPairsOn sender_on (λ on pair m. m.heard ≡ true) }
    ensures sender_link { OfPairsOn sender_on (λ on pair m. m.link ≡ on) }
    ensures receiver { OfPairsOn receiver_on (λ on pair m. receives pair ≡ true) }
    ensures receiver_asked { OfPairsOn receiver_on (λ on pair m. m.asked ≡ true) }
    ensures receiver_link { OfPairsOn receiver_on (λ on pair m. m.link ≡ on) }
{}

/// A note of a call that was done sets its marks: a request sets `asked`, and for a sender the byte
/// size; after a close the pair is not open; a reset leaves no marks.
pub fn what_was_done_is_marked()
    ensures sender { (of_size room : ℕ) → MarkedAfter (an_ask_to_send of_size room) (λ m. m.asked ≡ true) }
    ensures sender_size { (of_size room : ℕ) → MarkedAfter (an_ask_to_send of_size room) (λ m. m.size ≡ of_size) }
    ensures receiver { (room : ℕ) → MarkedAfter (an_ask_to_receive room) (λ m. m.asked ≡ true) }
    ensures closed { MarkedAfter a_close (λ m. is_marked_open m ≡ false) }
    ensures cleared { MarkedAfter a_reset_done (λ m. m ≡ no_marks) }
{}

/// Worked examples. Both requests open the pair, in either order, with the link and the size that
/// they name; a refused request does not, nor does one after the local CLS. A receiver that holds
/// bits is leaving once the peer's CLS arrives; after a take makes its own CLS, no mark is left.
/// Allocation called back is subtracted, and a clearing leaves no marks.
pub fn a_connection_is_marked()
    ensures opened { marks_from it_opens no_marks ≡ record both_asked { opened = true } }
    ensures either { marks_from (is_asked ∷ asking ∷ []) no_marks ≡ marks_from it_opens no_marks }
    ensures refused { marks_from (asking ∷ asked_wrongly ∷ []) no_marks ≡ asked_alone }
    ensures left { marks_from (asking ∷ closes ∷ is_asked ∷ []) no_marks ≡ record both_asked { left = true } }
    ensures got { record_marked inward (marks_from it_gets no_marks) ≡ Some record_of_two_bytes }
    ensures leaving { is_leaving (marks_from it_is_closed no_marks) ≡ true }
    ensures not_open { is_marked_open (marks_from it_is_closed no_marks) ≡ false }
    ensures over { marks_from (it_is_closed ++ taking ∷ []) no_marks ≡ no_marks }
    ensures back { marks_from (gives_back ∷ []) two_granted ≡ one_of_two_back }
    ensures cleared { marks_from (was_cleared ∷ []) (record no_marks { asked = true; link = 2 }) ≡ no_marks }
    ensures nothing { record_marked inward no_marks ≡ None }
{}

//! Pairs of sockets: all text got since the connection opened is taken or held, and the outstanding
//! allocation was granted, and neither returned nor used.
ghost use Rattle.std.specs.Prelude.{◌≡◌, ℕ, ◌+◌, Bool, false, List, [], ◌∷◌, ◌++◌, Some};
ghost use Rattle.ncp_model.specs.Rows.{inward, outward, ones, asked_receive, counting, storing};
ghost use Rattle.ncp_model.specs.Amounts.{amount, ◌⊕◌, allowance};
ghost use Rattle.ncp_model.specs.Ends.{Ends};
ghost use Rattle.ncp_model.specs.EndpointEvents.{EndpointEvent, Outcome, Str_comes, Text_comes, Ret_comes, Takes};
ghost use Rattle.ncp_proof_endpoint.specs.Histories.{no_past, allowance_used};
ghost use Rattle.ncp_proof_runs.specs.Reconstructed.{OfOpenedReceivers, OfUnopenedEnds};
ghost use Rattle.ncp_proof_runs.specs.Histories.{past_at};
ghost use Rattle.ncp_proof_runs.specs.WhereNoted.{Across, WhenAdmitted};
ghost use Rattle.ncp_proof_runs.specs.RunRows.{a_take, a_gift, a_grant, past_inward, two_bytes_got, one_byte_taken, one_byte_returned};

/// After any run, at a receiver that has opened:
///
/// - all text got was taken or is held, in order, unless the receiver has left;
/// - the outstanding allocation is what was granted, less what was returned and used, in messages
///   and bits.
///
/// Each is since the connection opened. At an end that has not opened, of a receiver or a sender,
/// the counts of messages, bits and interrupts are zero, and nothing is stored.
pub fn what_is_got_is_taken_or_held()
    ensures held { OfOpenedReceivers (λ past e. e.left ≡ false → past.got ≡ past.taken ++ e.stored) }
    ensures amounts { OfOpenedReceivers (λ p e. allowance e ⊕ p.returned ⊕ allowance_used p ≡ p.granted) }
    ensures unopened_messages { OfUnopenedEnds (λ e. e.messages ≡ 0) }
    ensures unopened_bits { OfUnopenedEnds (λ e. e.bits ≡ 0) }
    ensures unopened_interrupts { OfUnopenedEnds (λ e. e.interrupts ≡ 0) }
    ensures unopened_stored { OfUnopenedEnds (λ e. e.stored ≡ []) }
{}

/// The text that a note of a take returns is appended to the pair's `taken`.
pub fn what_take_answers_is_taken()
    ensures { (bytes : ℕ) (text : List Bool) → Across (a_take bytes text) (λ was now. now.taken ≡ was.taken ++ text) }
{}

/// The text that a user gave, by a call that was done, is appended to the pair's `given`.
pub fn what_give_takes_is_given()
    ensures { (text : List Bool) → Across (a_gift text) (λ was now. now.given ≡ was.given ++ text) }
{}

/// The amount that a user allocated, by a call that was done, is added to the pair's `granted`, in
/// messages and bits.
pub fn what_is_allocated_is_granted()
    ensures amounts { (m b : ℕ) → Across (a_grant m b) (λ was now. now.granted ≡ was.granted ⊕ amount m b) }
{}

/// The text of an admitted message is appended to `got` of the pair that its link identifies, and
/// counts as one more message used.
pub fn what_is_admitted_is_got()
    ensures got { WhenAdmitted (λ m was now. now.got ≡ was.got ++ m.text) }
    ensures used { WhenAdmitted (λ m was now. now.used_messages ≡ was.used_messages + 1) }
{}

/// Worked examples: a connection opens with an empty history; its receiver gets a text of two
/// bytes; the user takes one; a RET returns allocation. None of this changes the history of another
/// pair.
pub fn two_bytes_come_and_one_is_taken()
    ensures opened { past_inward asked_receive (Str_comes 8 0) one_byte_taken ≡ no_past }
    ensures got { past_inward (counting 2 16) (Text_comes [] 8 (ones 16)) no_past ≡ record two_bytes_got { used_messages = 1 } }
    ensures returned { past_inward (counting 2 16) (Ret_comes 2 1 8) no_past ≡ one_byte_returned }
    ensures taken { past_inward (storing (ones 16)) (Takes 1) two_bytes_got ≡ record two_bytes_got { taken = ones 8; calls = (Takes 1, Outcome.Took_out (ones 8)) ∷ [] } }
    ensures another { (m : Ends) (what : EndpointEvent) → past_at outward (Some inward) (Some what) m no_past ≡ no_past }
{}

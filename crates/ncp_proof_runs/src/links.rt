//! The links to a peer: the notes of a link determine the host's slot for it and its output on it.
ghost use Rattle.std.specs.Prelude.{◌≡◌, ℕ, Bool, true, false, List, [], ◌∷◌, ◌++◌, Some, None};
ghost use Rattle.ncp_slot.specs.declared.slot.Slot.TheVariants.{Empty, Ready, Travelling, Held};
ghost use Rattle.ncp_slot.specs.Slots.{slot_at, is_quiet};
ghost use Rattle.ncp_host.specs.Host.{is_one_of};
ghost use Rattle.ncp_peer.specs.Readiness.{IsNext};
ghost use Rattle.ncp_peer.specs.declared.received.Received.{Received};
ghost use Rattle.ncp_wire.specs.declared.answer.Answer.TheVariants.{Dead};
ghost use Rattle.ncp_transcript.specs.declared.note.HostNote.{HostNote};
ghost use Rattle.ncp_proof_runs.specs.Reconstructed.{FromNotes, WhenOut};
ghost use Rattle.ncp_proof_runs.specs.Links.{goes_fresh, noted_on, came_on, slot_so_far, received_noted};
ghost use Rattle.ncp_proof_runs.specs.Examples.{message_on_0, message_on_2, notes_lost, notes_held, notes_stray, notes_woken, notes_taken};
ghost use Rattle.ncp_proof_runs.specs.WhereNoted.{are_quiet_noted, ready_noted, IsTheLastUnlessFresh, NoneReady, IsAddressed, WhereNoted, HostBefore, WhenAnswered};
ghost use Rattle.ncp_transcript.specs.declared.note.HostNote.TheVariants.{Out, Nothing};

use ncp_host::Received;
use ncp_transcript::HostNote;

/// After any run, the notes of a link determine the host's slot for it.
pub fn links_are_what_their_notes_say()
    ensures { FromNotes (λ told s. (on : ℕ) → slot_at s.slots on ≡ slot_so_far (noted_on on told)) }
{}

/// After any run, the data links to a peer are quiet exactly when the notes of each of them show it
/// quiet.
pub fn links_are_quiet_as_their_notes_say()
    ensures { FromNotes (λ told s. is_quiet s.slots ≡ are_quiet_noted told) }
{}

/// Each message sent:
///
/// - names a peer and one of its links;
/// - is the message ready on that link, which has no unanswered message;
/// - if it is not fresh, repeats the last fresh message of that link; after Destination Dead, only
///   if a wake was accepted since.
pub fn messages_go_out_one_by_one()
    ensures addressed { (message : List Bool) → WhereNoted (Out message) (λ ns before. IsAddressed message ns) }
    ensures ready { WhenOut (λ n on out own. ready_noted n on own ≡ Some out) }
    ensures alone { WhenOut (λ n on out own. (noted_on on own).unanswered ≡ false) }
    ensures again { WhenOut (λ n on out own. IsTheLastUnlessFresh on out own) }
    ensures woken { WhenOut (λ n on out own. (noted_on on own).answer ≡ Some Dead → (noted_on on own).woken ≡ true) }
{}

/// The host sends the message on the first ready link to the first peer that has one. When it
/// reports none to send, no link to any peer is ready.
pub fn what_goes_out_is_first()
    ensures out { (message : List Bool) → HostBefore (Out message) (λ h. IsNext (Some message) h.peers) }
    ensures nothing { HostBefore Nothing (λ h. IsNext None h.peers) }
{}

/// Each answer noted names a peer. It is stray exactly when no message on its link is unanswered.
pub fn answers_to_nothing_are_stray()
    ensures peer { WhenAnswered (λ ns n on told own. is_one_of n ns ≡ true) }
    ensures output { WhenAnswered (λ ns n on told own. told ≡ received_noted (noted_on on own)) }
{}

/// When a host reports no message to send, none is ready on any link to any of its peers.
pub fn nothing_goes_out_where_none_is_ready()
    ensures { WhereNoted Nothing NoneReady }
{}

/// Worked examples: a message is lost; then held, because its destination is dead, while an answer
/// is stray and another link continues; then woken; then acknowledged. Another message arrives.
pub fn one_message_on_its_link()
    ensures lost { slot_so_far (noted_on 0 notes_lost) ≡ Ready message_on_0 }
    ensures held { slot_so_far (noted_on 0 notes_held) ≡ Held message_on_0 }
    ensures stray { noted_on 0 (notes_held ++ notes_stray) ≡ noted_on 0 notes_held }
    ensures stray_unanswered { (noted_on 0 notes_held).unanswered ≡ false }
    ensures stray_elsewhere { slot_so_far (noted_on 2 (notes_held ++ notes_stray)) ≡ Travelling message_on_2 }
    ensures woken { slot_so_far (noted_on 0 (notes_held ++ notes_stray ++ notes_woken)) ≡ Ready message_on_0 }
    ensures woken_not_fresh { goes_fresh (noted_on 0 (notes_held ++ notes_stray ++ notes_woken)) ≡ false }
    ensures taken { slot_so_far (noted_on 0 (notes_held ++ notes_stray ++ notes_woken ++ notes_taken)) ≡ Empty }
    ensures taken_fresh { goes_fresh (noted_on 0 (notes_held ++ notes_stray ++ notes_woken ++ notes_taken)) ≡ true }
    ensures came { came_on 2 (notes_held ++ HostNote.In message_on_2 Received.NotUp ∷ notes_stray) ≡ message_on_2 ∷ [] }
{}

//! Refused arrivals, and the names of arrivals from the subnet, as notes report them: small laws
//! that a wrong definition falsifies.
ghost use Rattle.std.specs.Prelude.{◌≡◌, ◌≢◌, ℕ, Bool, true, false, List, [], ◌∷◌, Some};
ghost use Rattle.ncp_leader.specs.declared.fault.MessageFault.{MessageFault as Fault};
ghost use Rattle.ncp_wire.specs.declared.answer.Answer.{Answer};
ghost use Rattle.ncp_slot.specs.declared.slot.Slot.TheVariants as slots;
ghost use Rattle.ncp_model.specs.declared.outcomes.Took.TheVariants as took;
ghost use Rattle.ncp_proof_machine.specs.Resets.{That};
ghost use Rattle.ncp_peer.specs.declared.received.Received.{Received};
ghost use Rattle.ncp_peer.specs.declared.received.Received.TheVariants as received;
ghost use Rattle.ncp_subnet.specs.Messages.{host_in, link_in};
ghost use Rattle.ncp_transcript.specs.declared.note.HostNote.TheVariants as of_host;
ghost use Rattle.ncp_transcript_two.specs.Subnet as subnets;
ghost use Rattle.ncp_transcript_two.specs.ExampleNotes.{noted_at};
ghost use Rattle.ncp_transcript_two.specs.World.{In, Answered};
ghost use Rattle.ncp_transcript_two.specs.Naming.{IsMessageFrom, IsAnswerAbout};
ghost use Rattle.ncp_transcript_two.specs.Refused.{is_refused, any_refused};
ghost use Rattle.ncp_transcript_two.specs.Underway.{not_come};
ghost use Rattle.ncp_transcript_two.specs.TwoRows.{read_here, late_here, short_there, answered_there};

/// `is_refused` by kind of arrival:
///
/// - Refused: bits that are no message (any fault), another type, an unknown peer, a link that
///   carries nothing, a control message of the wrong byte size, and an answer to nothing.
/// - Not refused: a control message that was read, a text that was admitted, and the answer to a
///   message.
///
/// `any_refused` finds one refusal among several notes: of either side, of a message and of an
/// answer.
pub fn each_refusal_is_seen()
    ensures fault { (fault : Fault) → is_refused (received.Fault fault) ≡ true }
    ensures link { is_refused received.WrongLink ≡ true }
    ensures size { is_refused received.WrongSize ≡ true }
    ensures short { is_refused received.Short ≡ true }
    ensures other { (kind : ℕ) → is_refused (received.Other kind) ≡ true }
    ensures unknown { is_refused received.Unknown ≡ true }
    ensures stray { is_refused received.Stray ≡ true }
    ensures control { (count : ℕ) → is_refused (received.Control count) ≡ false }
    ensures admitted { is_refused (received.Text took.Admitted) ≡ false }
    ensures answered { is_refused received.Answered ≡ false }
    ensures message { (m n : List Bool) → any_refused (read_here m ∷ short_there n ∷ []) ≡ true }
    ensures answer { (how : Answer) → any_refused (noted_at That (Answered 2 how received.Stray) ∷ []) ≡ true }
    ensures none { (how : Answer) (m : List Bool) → any_refused (answered_there how ∷ late_here m ∷ []) ≡ false }
{}

/// The note of an arrival names its host and link. A message from another host or on another link,
/// an answer about another host or link, and a note of the other kind do not match.
pub fn what_came_is_named_by_its_host_and_link()
    ensures answer { (how : Answer) (r : Received) → IsAnswerAbout 2 3 (of_host.Answered 2 3 how r) }
    ensures other_link { (how : Answer) (r : Received) → IsAnswerAbout 2 3 (of_host.Answered 2 4 how r) → ⊥ }
    ensures other_host { (how : Answer) (r : Received) → IsAnswerAbout 2 3 (of_host.Answered 1 3 how r) → ⊥ }
    ensures no_answer { (m : List Bool) (r : Received) → IsAnswerAbout 2 3 (of_host.In m r) → ⊥ }
    ensures message { (m : List Bool) (r : Received) → host_in m ≡ 2 → link_in m ≡ 3 → IsMessageFrom 2 3 (of_host.In m r) }
    ensures message_link { (m : List Bool) (r : Received) → link_in m ≢ 3 → IsMessageFrom 2 3 (of_host.In m r) → ⊥ }
    ensures message_host { (m : List Bool) (r : Received) → host_in m ≢ 2 → IsMessageFrom 2 3 (of_host.In m r) → ⊥ }
    ensures no_message { (how : Answer) (r : Received) → IsMessageFrom 2 3 (of_host.Answered 2 3 how r) → ⊥ }
{}

/// A message whose destination was found dead is underway while its host does not know it, and
/// after that while the host holds it.
pub fn a_message_to_a_dead_host_is_underway()
    ensures dead { (m : List Bool) → not_come (slots.Travelling m) subnets.Dead ≡ Some m }
    ensures held { (m : List Bool) → not_come (slots.Held m) subnets.Dead ≡ Some m }
{}

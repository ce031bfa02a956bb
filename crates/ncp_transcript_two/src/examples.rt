//! Examples of an honest subnet, of messages underway, of the ledger, of refused arrivals and of
//! impossible events: small laws that a wrong definition falsifies.
ghost use Rattle.std.specs.Prelude.{◌≡◌, Bool, true, false, List, [], ◌∷◌, None, Some};
ghost use Rattle.ncp_slot.specs.declared.slot.Slot.TheVariants as slots;
ghost use Rattle.ncp_wire.specs.declared.answer.Answer.TheVariants.{Rfnm, Dead};
ghost use Rattle.ncp_model.specs.declared.outcomes.Took.TheVariants as took;
ghost use Rattle.ncp_proof_machine.specs.Resets.{This, That};
ghost use Rattle.ncp_peer.specs.declared.received.Received.{Received};
ghost use Rattle.ncp_peer.specs.declared.received.Received.TheVariants as received;
ghost use Rattle.ncp_transcript_two.specs.Subnet.{from_host};
ghost use Rattle.ncp_transcript_two.specs.Subnet as subnets;
ghost use Rattle.ncp_transcript_two.specs.ExampleNotes.{amounts, noted_at};
ghost use Rattle.ncp_transcript_two.specs.World.{Answered};
ghost use Rattle.ncp_transcript_two.specs.Honest.{Sent, Arrives, Acked, Nacked, Other, Clear, HonestFrom, sent_from, RepeatsFrom, IsPrefixWithin, message_events_in};
ghost use Rattle.ncp_transcript_two.specs.Underway.{not_come};
ghost use Rattle.ncp_model.specs.Amounts.{amount};
ghost use Rattle.ncp_transcript_two.specs.Ledgers.{IsBalanced};
ghost use Rattle.ncp_transcript_two.specs.Refused.{is_refused};
ghost use Rattle.ncp_transcript_two.specs.Impossible.{IsImpossible};
ghost use Rattle.ncp_transcript_two.specs.declared.note.Move.TheVariants as moves;
ghost use Rattle.ncp_transcript_two.specs.TwoRows.{lost_and_taken, one_taken, comes_on_2};

/// Examples of honesty.
///
/// - Not honest: to deliver a message twice or changed, to return RFNM for a message that was not
///   delivered, to return Incomplete Transmission for one that was, to accept a second message
///   before the answer to the first, to deliver a message that was not sent.
/// - Honest: to lose a message and report it, accept it again, deliver it once as from its host,
///   and report that.
pub fn dishonest_subnets_are_seen()
    ensures twice { (m n : List Bool) → HonestFrom 1 Clear (Sent m ∷ Arrives n ∷ Arrives n ∷ []) → ⊥ }
    ensures another { (m n : List Bool) → (n ≡ from_host 1 m → ⊥) → HonestFrom 1 Clear (Sent m ∷ Arrives n ∷ []) → ⊥ }
    ensures unsaid { (m : List Bool) → HonestFrom 1 Clear (Sent m ∷ Acked ∷ []) → ⊥ }
    ensures came { (m n : List Bool) → HonestFrom 1 Clear (Sent m ∷ Arrives n ∷ Nacked ∷ []) → ⊥ }
    ensures unanswered { (m : List Bool) → HonestFrom 1 Clear (Sent m ∷ Sent m ∷ []) → ⊥ }
    ensures unasked { (m : List Bool) → HonestFrom 1 Clear (Arrives m ∷ []) → ⊥ }
    ensures good { (m : List Bool) → HonestFrom 1 Clear (lost_and_taken m) }
{}

/// A message sent again after an Incomplete Transmission or a Destination Dead must be the previous
/// one, and does not count as sent a second time; after an RFNM the next one counts as sent. At
/// most one of the messages sent may be undelivered.
pub fn what_goes_out_again_is_not_sent_anew()
    ensures again { (m : List Bool) → sent_from 1 true (Sent m ∷ Nacked ∷ Sent m ∷ []) ≡ from_host 1 m ∷ [] }
    ensures from_empty { (m n : List Bool) → sent_from 1 true (one_taken m n) ≡ from_host 1 m ∷ from_host 1 n ∷ [] }
    ensures another { (m n : List Bool) → (n ≡ m → ⊥) → RepeatsFrom [] true (Sent m ∷ Nacked ∷ Sent n ∷ []) → ⊥ }
    ensures two_after { (m n : List Bool) → IsPrefixWithin 1 [] (m ∷ n ∷ []) → ⊥ }
    ensures one_after { (m n : List Bool) → IsPrefixWithin 1 (m ∷ []) (m ∷ n ∷ []) }
{}

/// A note yields message events only for its own side and its own link.
pub fn notes_are_of_one_side_and_one_link()
    ensures came { (m : List Bool) (r : Received) → message_events_in This 2 (comes_on_2 m r) ≡ Arrives m ∷ [] }
    ensures elsewhere { (m : List Bool) (r : Received) → message_events_in This 3 (comes_on_2 m r) ≡ Other ∷ [] }
    ensures of_that { (m : List Bool) (r : Received) → message_events_in That 2 (comes_on_2 m r) ≡ Other ∷ [] }
    ensures taken { (r : Received) → message_events_in That 2 (noted_at That (Answered 2 Rfnm r) ∷ []) ≡ Acked ∷ [] }
    ensures refused { (r : Received) → message_events_in That 2 (noted_at That (Answered 2 Dead r) ∷ []) ≡ Nacked ∷ [] }
{}

/// A message is underway from the moment it is ready until it is delivered: also while its host
/// holds it, and after the subnet lost it and before its host knows.
pub fn messages_are_underway_until_they_come()
    ensures ready { (m : List Bool) → not_come (slots.Ready m) subnets.Free ≡ Some m }
    ensures held { (m : List Bool) → not_come (slots.Held m) subnets.Free ≡ Some m }
    ensures out { (m : List Bool) → not_come (slots.Travelling m) (subnets.Accepted m) ≡ Some m }
    ensures lost { (m : List Bool) → not_come (slots.Travelling m) subnets.Lost ≡ Some m }
    ensures came { (m : List Bool) → not_come (slots.Travelling m) subnets.Delivered ≡ None }
{}

/// `IsBalanced` refuses a ledger whose sums differ, of messages or of bits. It holds for an example
/// in which every amount is nonzero.
pub fn wrong_ledgers_are_seen()
    ensures messages { IsBalanced (amounts (amount 2 0) (amount 1 0) (amount 0 0) (amount 0 0) (amount 0 0)) → ⊥ }
    ensures bits { IsBalanced (amounts (amount 0 9) (amount 0 8) (amount 0 0) (amount 0 0) (amount 0 0)) → ⊥ }
    ensures good { IsBalanced (amounts (amount 8 80) (amount 1 10) (amount 2 20) (amount 1 16) (amount 4 34)) }
{}

/// An accepted message can be delivered, lost, or find its destination dead; a delivered one can be
/// answered. Delivering it again, or answering it while it may still be delivered, is impossible. A
/// text beyond the allocation, of the wrong size or for a connection that is not open is refused. A
/// late text, and one for a host that is not up, are not refused.
pub fn what_can_be_and_what_is_refused_are_seen()
    ensures deliver { (m : List Bool) → IsImpossible moves.Deliver (subnets.Accepted m) → ⊥ }
    ensures lose { (m : List Bool) → IsImpossible moves.Lose (subnets.Accepted m) → ⊥ }
    ensures dead { (m : List Bool) → IsImpossible moves.Dead (subnets.Accepted m) → ⊥ }
    ensures answer { IsImpossible moves.Answer subnets.Delivered → ⊥ }
    ensures nothing { IsImpossible moves.Deliver subnets.Delivered }
    ensures no_answer { (m : List Bool) → IsImpossible moves.Answer (subnets.Accepted m) }
    ensures over { is_refused (received.Text took.Over) ≡ true }
    ensures size { is_refused (received.Text took.WrongSize) ≡ true }
    ensures not_open { is_refused (received.Text took.NotOpen) ≡ true }
    ensures late { is_refused (received.Text took.Late) ≡ false }
    ensures not_up { is_refused received.NotUp ≡ false }
{}

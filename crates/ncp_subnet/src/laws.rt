//! Theorems about the subnet, each the contract of a function with an empty body.
ghost use Rattle.std.specs.Prelude.{◌≡◌, ◌≢◌, ℕ, [], ◌∷◌, Some, None};
ghost use Rattle.ncp_numbers.specs.Bytes.{bits_of_bytes};
ghost use Rattle.ncp_subnet.specs.Messages.{from_host, answer_bits};
ghost use Rattle.ncp_subnet.specs.declared.transit.Transit.{Transit};
ghost use Rattle.ncp_subnet.specs.Transit.{accepted, delivered, lost, dead, transit_answered, answer_kind, accepted_message};
ghost use Rattle.ncp_subnet.specs.Subnet.{transit_at, OthersStayInTransit};
ghost use Rattle.ncp_subnet.specs.OfPlaces.{AfterPutting, rst_with_host};

use ncp_leader::{DESTINATION_DEAD, INCOMPLETE, RFNM};

/// A delivered message has its sender's number in place of the destination's, and an answer has the
/// destination's: RST on link 3 from host 1 to host 2, and its answer if it is lost.
#[tactic(auto, unfolding(ncp_numbers::specs::Bytes::byte_bits, ncp_numbers::specs::Numbers::bits_of))]
pub fn messages_are_addressed_so()
    ensures comes { from_host 1 (rst_with_host 2) ≡ rst_with_host 1 }
    ensures answer { answer_bits INCOMPLETE 2 3 ≡ bits_of_bytes (9 ∷ 2 ∷ 3 ∷ 0 ∷ []) }
{}

/// Putting a transit on one link changes that link, and no other.
pub fn links_are_independent()
    ensures same { AfterPutting (λ before after from to link transit. transit_at after from to link ≡ transit) }
    ensures others { AfterPutting (λ before after from to link transit. OthersStayInTransit before after from to link) }
{}

/// A message is delivered at most once, and answered once: with Ready For Next Message if it was
/// delivered, and with another type only if it will not be. Until it is answered, no other message
/// is accepted, and its result does not change.
pub fn each_message_is_answered_once<M>()
    ensures accepted { (message : M) → accepted message Transit.Free ≡ Transit.Accepted message }
    ensures full { (message : M) (transit : Transit M) → transit ≢ Transit.Free → accepted message transit ≡ transit }
    ensures once { (message : M) → accepted_message (delivered (Transit.Accepted message)) ≡ None }
    ensures unanswered { (message : M) → answer_kind (Transit.Accepted message) ≡ None }
    ensures came { (message : M) → answer_kind (delivered (Transit.Accepted message)) ≡ Some RFNM }
    ensures lost { (message : M) → answer_kind (lost (Transit.Accepted message)) ≡ Some INCOMPLETE }
    ensures dead { (message : M) → answer_kind (dead (Transit.Accepted message)) ≡ Some DESTINATION_DEAD }
    ensures never { (message : M) → accepted_message (lost (Transit.Accepted message)) ≡ None }
    ensures never_dead { (message : M) → accepted_message (dead (Transit.Accepted message)) ≡ None }
    ensures over { (transit : Transit M) → accepted_message transit ≡ None → delivered transit ≡ transit }
    ensures over_lost { (transit : Transit M) → accepted_message transit ≡ None → lost transit ≡ transit }
    ensures over_dead { (transit : Transit M) → accepted_message transit ≡ None → dead transit ≡ transit }
    ensures answered { (t : Transit M) (kind : ℕ) → answer_kind t ≡ Some kind → transit_answered t ≡ Transit.Free }
    ensures kept { (transit : Transit M) → answer_kind transit ≡ None → transit_answered transit ≡ transit }
{}

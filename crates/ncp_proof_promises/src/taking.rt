//! The subnet accepts each message that a host sends. Each theorem is the contract of a lemma.
ghost use Rattle.std.specs.Prelude.{◌≡◌, Bool, List};
ghost use Rattle.ncp_transcript_two.specs.Subnet.{none_in_transit};
ghost use Rattle.ncp_transcript_two.specs.World.{World, Out};
ghost use Rattle.ncp_transcript_two.specs.declared.note.Note.{Note};
ghost use Rattle.ncp_transcript_two.specs.Between.{Hosts};
ghost use Rattle.ncp_transcript_two.specs.Transcript.{IsTranscript};
ghost use Rattle.ncp_proof_promises.specs.Taking.{IsTaken, EveryOutputAccepted};
ghost use Rattle.ncp_proof_promises.specs.PromiseRows.{taken_from_here};

/// After the note of each message sent, the subnet has that message on its link, accepted. It
/// refuses none.
pub fn each_output_is_accepted_after_its_note()
    ensures { (notes : List Note) (w : Hosts) → IsTranscript notes w → EveryOutputAccepted notes w }
{}

/// `IsTaken` holds for a subnet that has the message on its link, and refuses one that has nothing.
pub fn a_subnet_that_takes_nothing_is_seen()
    ensures taken { (m : List Bool) (v after : World) → after.going ≡ taken_from_here m v → IsTaken (Out m) v after }
    ensures nothing { (m : List Bool) (v after : World) → after.going ≡ none_in_transit → IsTaken (Out m) v after → ⊥ }
{}

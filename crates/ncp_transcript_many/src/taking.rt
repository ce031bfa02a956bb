//! The subnet accepts each message sent by two to eight hosts. The theorem is the contract of a
//! lemma.
ghost use Rattle.std.specs.Prelude.{List};
ghost use Rattle.ncp_proof_promises.specs.Taking.{IsTaken};
ghost use Rattle.ncp_transcript_many.specs.declared.many_note.ManyNote.{ManyNote as Noted};
ghost use Rattle.ncp_transcript_many.specs.Network.{Network};
ghost use Rattle.ncp_transcript_many.specs.ManyTranscript.{IsManyTranscript};
ghost use Rattle.ncp_transcript_many.specs.NotesOfTwo.{ForEachNoteOfTwo};

use ncp_proof_promises::taking::each_output_is_accepted_after_its_note;

/// For each two of the hosts, as they are among all: after the note of each message sent from one
/// to the other, the subnet has that message on its link, accepted.
pub fn what_goes_out_of_each_of_many_is_taken()
    ensures { (notes : List Noted) (m : Network) → IsManyTranscript notes m → ForEachNoteOfTwo IsTaken notes m }
{
    each_output_is_accepted_after_its_note();
}

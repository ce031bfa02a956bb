//! A GVB is answered.
ghost use Rattle.std.specs.Prelude.{List};
ghost use Rattle.ncp_proof_machine.specs.Hosts.{NodeEvent, run};
ghost use Rattle.ncp_proof_progress.specs.Idle.{IsSettledInModel};
ghost use Rattle.ncp_transcript_two.specs.declared.note.Note.{Note};
ghost use Rattle.ncp_transcript_two.specs.Between.{Hosts};
ghost use Rattle.ncp_transcript_two.specs.Transcript.{IsTranscript};
ghost use Rattle.ncp_transcript_many.specs.declared.many_note.ManyNote.{ManyNote};
ghost use Rattle.ncp_transcript_many.specs.Network.{Network};
ghost use Rattle.ncp_transcript_many.specs.ManyTranscript.{IsManyTranscript};
ghost use Rattle.ncp_transcript_many.specs.Pairs.{ForEachTwo};
ghost use Rattle.ncp_proof_recovery.specs.CallingBack.{AllReturned, GvbsAreAnswered};

/// A GVB is answered: if two hosts are quiescent and both up, no receiver awaits a RET unless an
/// endpoint of its connection is closing. This holds after every schedule of the model's two hosts
/// (`ever`), after every transcript of two hosts (`two`), and for each two of two to eight
/// (`many`).
pub fn calls_back_are_answered()
    ensures ever { (events : List NodeEvent) → IsSettledInModel (run events) → AllReturned (run events) }
    ensures two { (notes : List Note) (w : Hosts) → IsTranscript notes w → GvbsAreAnswered notes w }
    ensures many { (notes : List ManyNote) (m : Network) → IsManyTranscript notes m → ForEachTwo GvbsAreAnswered notes m }
{}

//! An echo is answered.
ghost use Rattle.std.specs.Prelude.{◌≡◌, true, List};
ghost use Rattle.ncp_proof_machine.specs.Hosts.{NodeEvent, run};
ghost use Rattle.ncp_proof_machine.specs.HostRuns.{echo_asks};
ghost use Rattle.ncp_proof_progress.specs.Idle.{IsSettledInModel};
ghost use Rattle.ncp_transcript_two.specs.declared.note.Note.{Note};
ghost use Rattle.ncp_transcript_two.specs.Between.{Hosts};
ghost use Rattle.ncp_transcript_two.specs.Transcript.{IsTranscript};
ghost use Rattle.ncp_transcript_many.specs.declared.many_note.ManyNote.{ManyNote};
ghost use Rattle.ncp_transcript_many.specs.Network.{Network};
ghost use Rattle.ncp_transcript_many.specs.ManyTranscript.{IsManyTranscript};
ghost use Rattle.ncp_transcript_many.specs.Pairs.{ForEachTwo};
ghost use Rattle.ncp_proof_recovery.specs.Echoes.{NoneAwaits, EchoesAreAnswered};

/// An echo is answered: if two hosts are quiescent and both up, neither awaits one. This holds
/// after every schedule of the model's two hosts (`ever`), after every transcript of two hosts
/// (`two`), and for each two of two to eight (`many`). Just after a host makes an ECO, it awaits
/// its echo (`asked`).
pub fn echoes_are_answered()
    ensures ever { (events : List NodeEvent) → IsSettledInModel (run events) → NoneAwaits (run events) }
    ensures asked { NoneAwaits (run echo_asks) → ⊥ }
    ensures two { (notes : List Note) (w : Hosts) → IsTranscript notes w → EchoesAreAnswered notes w }
    // theorem: For each two of two to eight hosts: if no message between them is ready, in transit
    // or held, and both are up, neither awaits an echo from the other.
    ensures many { (notes : List ManyNote) (m : Network) → IsManyTranscript notes m → ForEachTwo EchoesAreAnswered notes m }
{}

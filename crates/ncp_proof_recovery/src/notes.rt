//! The notes of two hosts, or of two to eight, show that a reset recovers.
ghost use Rattle.std.specs.Prelude.{List};
ghost use Rattle.ncp_transcript_two.specs.declared.note.Note.{Note};
ghost use Rattle.ncp_transcript_two.specs.Between.{Hosts};
ghost use Rattle.ncp_transcript_two.specs.Transcript.{IsTranscript};
ghost use Rattle.ncp_transcript_many.specs.declared.many_note.ManyNote.{ManyNote};
ghost use Rattle.ncp_transcript_many.specs.Network.{Network};
ghost use Rattle.ncp_transcript_many.specs.ManyTranscript.{IsManyTranscript};
ghost use Rattle.ncp_transcript_many.specs.Pairs.{ForEachTwo};
ghost use Rattle.ncp_proof_recovery.specs.Notes.{ResetRecovers};

/// Consider a transcript of two hosts in which a reset was done, after which no user asked for
/// anything except what is held. If no message is ready, in transit or held, both hosts are up with
/// each other, and neither has an endpoint for the other or awaits an echo from it. This holds for
/// any notes before the reset, also if a host had gone down. Among two to eight hosts it holds for
/// each two (`many`), regardless of events at and between the others.
pub fn resets_recover()
    ensures two { (notes : List Note) (w : Hosts) → IsTranscript notes w → ResetRecovers notes w }
    // theorem: For each two of two to eight hosts: if a reset between them was accepted, since then
    // no user has asked for anything between them except to wake held messages, and no message
    // between them is ready, in transit or held, then both are up, neither has an endpoint for the
    // other, and neither awaits an echo, regardless of the notes before the reset.
    ensures many { (notes : List ManyNote) (m : Network) → IsManyTranscript notes m → ForEachTwo ResetRecovers notes m }
{}

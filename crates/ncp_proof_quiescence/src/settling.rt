//! A bound on the spontaneous events of two hosts.
ghost use Rattle.ncp_transcript_two.specs.Transcript.{IsTranscript, Noted_world};
ghost use Rattle.ncp_proof_quiescence.specs.Settling.{GoesOn, IsWithinWork};

/// After every transcript of two hosts, the number of spontaneous events is at most the work that
/// is left: each message sent, delivered or answered lowers it, and so does each wake of a held
/// message. So the spontaneous events end, in any order; and the users' past calls, the losses and
/// the dead destinations bound that work.
pub fn what_happens_by_itself_is_within_the_work()
    ensures within { (before now : Noted_world) → IsTranscript before.notes before.hosts → GoesOn before now → IsWithinWork before now }
{}

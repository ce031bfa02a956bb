//! A restart for a peer as a run of the host.
ghost use Rattle.std.specs.Prelude.{◌≡◌, ◌<◌, ◌++◌, ℕ, []};
ghost use Rattle.ncp_host.specs.Host.{Host};
ghost use Rattle.ncp_host.specs.Restarting.{after_restart};
ghost use Rattle.ncp_transcript.specs.After.{after_notes};
ghost use Rattle.ncp_transcript.specs.Runs.{IsHostRun};
ghost use Rattle.ncp_transcript_two.specs.declared.side.Side.{Side};
ghost use Rattle.ncp_transcript_two.specs.declared.side.Side.TheVariants.{A, B};
ghost use Rattle.ncp_statement.specs.Statement.{Headline};
ghost use Rattle.ncp_proof_statement.specs.Notes.{SidedNotes, as_notes, mutual_notes};
ghost use Rattle.ncp_proof_statement.specs.HonestRuns.{IsHonestRun, IsHonestRunAmong};
ghost use Rattle.ncp_proof_statement.specs.Restarts.{notes_of_restart, NoneUnanswered, NoneArrived, noted_at, with_restart};

use crate::among::two_among_others_are_two_by_themselves;
use crate::any_subnet::headline_over_any_subnet;
use ncp_proof_runs::peers::each_peer_is_by_itself;

/// The answers Incomplete Transmission on each link to a peer with an unacknowledged message are a
/// run of the host (`run`), and leave it in the state after a restart for that peer (`after`). So
/// the laws of `any_subnet` hold over a restart if it is honest: if no copy of these messages ever
/// arrives.
pub fn a_restart_is_noted_as_answers()
    ensures run { (number : ℕ) (h : Host) → number < 256 → IsHostRun (notes_of_restart number h) h }
    ensures after { (number : ℕ) (h : Host) → number < 256 → after_notes (notes_of_restart number h) h ≡ after_restart number h }
{}

/// If no message to a peer is unanswered, a restart for it has no notes (`notes`) and changes
/// nothing (`host`): the headline goes on. `when_nothing_is_unacknowledged` of `ncp_results` says
/// when a host program knows this.
pub fn a_restart_with_none_unanswered_changes_nothing()
    ensures notes { (number : ℕ) (h : Host) → NoneUnanswered number h → notes_of_restart number h ≡ [] }
    ensures host { (number : ℕ) (h : Host) → number < 256 → NoneUnanswered number h → after_restart number h ≡ h }
{
    a_restart_is_noted_as_answers();
}

/// If none of the unanswered messages of a host had arrived, the notes of two hosts over an honest
/// subnet, followed by those of a restart at that host, are again such notes (`run`). So they have
/// the headline (`headline`), which goes on as long as the subnet is honest.
pub fn a_restart_before_any_arrival_is_honest()
    ensures run { (side : Side) (a b : ℕ) (ns : SidedNotes) → IsHonestRun a b ns → NoneArrived side ns → IsHonestRun a b (with_restart side a b ns) }
    ensures headline { (side : Side) (a b : ℕ) (ns : SidedNotes) → IsHonestRun a b ns → NoneArrived side ns → Headline a b (as_notes (with_restart side a b ns)) }
{
    headline_over_any_subnet();
}

/// The same for two hosts among others, and a restart at either (`first`, `second`): their headline
/// goes on if no unanswered message from that one to the other had arrived.
pub fn a_restart_before_any_arrival_is_honest_among_others()
    ensures first { (x y : Host) (ns : SidedNotes) → IsHonestRunAmong x y ns → NoneArrived A (mutual_notes x.me y.me ns) → IsHonestRunAmong (after_restart y.me x) y (ns ++ noted_at A (notes_of_restart y.me x)) }
    ensures second { (x y : Host) (ns : SidedNotes) → IsHonestRunAmong x y ns → NoneArrived B (mutual_notes x.me y.me ns) → IsHonestRunAmong x (after_restart x.me y) (ns ++ noted_at B (notes_of_restart x.me y)) }
{
    two_among_others_are_two_by_themselves();
    each_peer_is_by_itself();
}

//! Two hosts and the links between them: a bound on the messages that move in any schedule.
ghost use Rattle.std.specs.Prelude.{◌≡◌, ℕ, ◌+◌, ◌≤◌, true, List};
ghost use Rattle.ncp_proof_machine.specs.Hosts.{TwoNodes, NodeStep, node_steps, NodeEvent, run_from, run, start};
ghost use Rattle.ncp_proof_machine.specs.Resets.{This};
ghost use Rattle.ncp_proof_machine.specs.HostRuns.{comes_up, echo_comes_back};
ghost use Rattle.ncp_proof_progress.specs.HostsWork.{work, NodeFits, BothFit, IsOnDataLink, is_of_messages, moved, Stays, StepPaid, messages_moved, messages_allowed, AllOnLinks};
ghost use Rattle.ncp_proof_progress.specs.WorkRuns.{reset_lost_once, reset_woken};

/// *Termination.* A measure, `work`, bounds the message events two hosts can still cause. Each
/// send, delivery and answer lowers it by at least one; only calls, losses and dead destinations
/// can raise it, each within its allowance. This holds for one step in any state whose slots and
/// subnet fit (`step`), for a schedule from such a state (`from`), and for every schedule from the
/// start (`ever`), if texts use links 2 to 71. A message step that counts as no move changes
/// nothing (`still`).
pub fn every_schedule_ends()
    ensures step { (step : NodeStep) (w : TwoNodes) → NodeFits w.this → NodeFits w.that → IsOnDataLink step → StepPaid step w }
    ensures still { (step : NodeStep) (w : TwoNodes) → is_of_messages step ≡ true → moved step w ≡ 0 → Stays (node_steps step w) w }
    ensures from { (events : List NodeEvent) (w : TwoNodes) → BothFit w → AllOnLinks events → work (run_from events w) + messages_moved events w ≤ work w + messages_allowed events w }
    ensures ever { (events : List NodeEvent) → AllOnLinks events → messages_moved events start + work (run events) ≤ messages_allowed events start }
{}

/// The bound is exact for these: a reset allows six moves, for its RST and RRP; a loss three more,
/// a dead destination four, and an echo six.
pub fn bounds_are_met()
    ensures reset { (messages_moved (comes_up This) start ≡ 6) × (messages_allowed (comes_up This) start ≡ 6) }
    ensures lost { (messages_moved reset_lost_once start ≡ 9) × (messages_allowed reset_lost_once start ≡ 9) }
    ensures dead { (messages_moved reset_woken start ≡ 10) × (messages_allowed reset_woken start ≡ 10) }
    ensures echo { (messages_moved echo_comes_back start ≡ 12) × (messages_allowed echo_comes_back start ≡ 12) }
{}

//! What keeps a host from being finished, and the state of two quiescent hosts.
ghost use Rattle.std.specs.Prelude.{List, [], ◌∷◌, true, Option, Some};
ghost use Rattle.std.specs.FinMap.{get};
ghost use Rattle.ncp_model.specs.declared.pair.Pair.{Pair};
ghost use Rattle.ncp_model.specs.Endpoint.{Endpoint};
ghost use Rattle.ncp_model.specs.EndpointEvents.{EndpointEvent, happens};
ghost use Rattle.ncp_proof_endpoint.specs.Sound.{SoundAt};
ghost use Rattle.ncp_model.specs.Phase.{up_phase};
ghost use Rattle.ncp_model.specs.Rows.{outward, inward, opened_end, due, shut};
ghost use Rattle.ncp_proof_machine.specs.Resets.{This, anew};
ghost use Rattle.ncp_proof_machine.specs.HostRuns.{by, comes_up};
ghost use Rattle.ncp_proof_machine.specs.Hosts.{NodeEvent, Calls_reset, new_node, run, start};
ghost use Rattle.ncp_proof_progress.specs.Idle.{LeavingAt, ResetsWait, IsSettledInModel, IsIdle};

/// A leaving sender has a text unacknowledged. A leaving receiver has received its peer's CLS and
/// holds text. Both hold after each event at a sound endpoint, and for every endpoint after every
/// schedule.
pub fn what_leaves_waits_for_something()
    ensures after { (pair : Pair) (what : EndpointEvent) (before : Option Endpoint) → SoundAt pair before → LeavingAt pair before → LeavingAt pair (happens pair what before).after }
    ensures ever { (events : List NodeEvent) (pair : Pair) → LeavingAt pair (get (run events).this.ends pair) × LeavingAt pair (get (run events).that.ends pair) }
{}

/// After every schedule: a host without an unacknowledged text wants no RST and owes no RRP.
pub fn resets_wait_only_for_data_links()
    ensures { (events : List NodeEvent) → ResetsWait (run events).this × ResetsWait (run events).that }
{}

/// After every schedule that leaves two hosts quiescent, both are idle: no link has a message, no
/// command is queued, and no text can be sent. Two hosts are quiescent at the start, and after they
/// have come up, but not while an RST is queued.
pub fn where_nothing_moves_nothing_is_left()
    ensures begins { IsSettledInModel start }
    ensures up { IsSettledInModel (run (comes_up This)) }
    ensures asked { IsSettledInModel (run (by This Calls_reset ∷ [])) → ⊥ }
    ensures ever { (events : List NodeEvent) → IsSettledInModel (run events) → IsIdle (run events).this × IsIdle (run events).that }
{}

/// States that would wait for nothing, which the definitions refuse: a leaving sender without an
/// unacknowledged text; a leaving receiver whose peer has not closed, or that holds nothing; and a
/// host that wants an RST or owes an RRP without an unacknowledged text.
pub fn what_would_wait_for_nothing()
    ensures sender { LeavingAt outward (Some (due opened_end)) → ⊥ }
    ensures receiver { LeavingAt inward (Some (due opened_end)) → ⊥ }
    ensures emptied { LeavingAt inward (Some (shut (due opened_end))) → ⊥ }
    ensures wanted { ResetsWait (record new_node { host = anew (record up_phase { want = true }) }) → ⊥ }
    ensures owed { ResetsWait (record new_node { host = anew (record up_phase { owe = true }) }) → ⊥ }
{}

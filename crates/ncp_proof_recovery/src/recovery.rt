//! A reset recovers.
ghost use Rattle.std.specs.Prelude.{◌≡◌, Bool, false, List, ◌∷◌, ◌++◌};
ghost use Rattle.ncp_model.specs.Phase.{is_resetting};
ghost use Rattle.ncp_proof_machine.specs.Resets.{Party, This, That};
ghost use Rattle.ncp_proof_machine.specs.Hosts.{NodeEvent, Calls_reset, Falls, run};
ghost use Rattle.ncp_proof_machine.specs.HostRuns.{by, comes_up};
ghost use Rattle.ncp_proof_progress.specs.Idle.{IsSettledInModel};
ghost use Rattle.ncp_proof_recovery.specs.Recovery.{IsUndisturbed, node_of_party, HaveRecovered};

/// A reset that is accepted recovers from anything before it, including hosts that went down: if
/// after it nothing is asked for and no host goes down, then two quiescent hosts are both up, and
/// neither has an endpoint or awaits an echo (`ever`). An example is a host that went down while
/// its peer was up (`fallen`).
pub fn a_reset_recovers()
    ensures ever { (asker : Party) (before quiet : List NodeEvent) → is_resetting (node_of_party asker (run before)).host.phase ≡ false → IsUndisturbed quiet → let w = run (before ++ by asker Calls_reset ∷ quiet) in IsSettledInModel w → HaveRecovered w }
    ensures fallen { let w = run (comes_up This ++ by That Falls ∷ comes_up This) in IsSettledInModel w × HaveRecovered w }
{}

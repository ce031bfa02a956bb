//! Two hosts as the machine of many connections.
ghost use Rattle.std.specs.Prelude.{List};
ghost use Rattle.ncp_proof_machine.specs.Hosts.{NodeEvent, run, nodes_swapped};
ghost use Rattle.ncp_proof_headline.specs.Tied.{IsTied};

/// After every schedule of two hosts, their connections in one direction are a run of the machine
/// of many connections, and those in the other direction are another.
pub fn hosts_are_tied_to_machines()
    ensures there { (events : List NodeEvent) → IsTied (run events) }
    ensures back { (events : List NodeEvent) → IsTied (nodes_swapped (run events)) }
{}

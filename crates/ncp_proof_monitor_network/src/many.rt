//! No rule is reported in the file of two to eight hosts.
ghost use Rattle.ncp_proof_monitor_network.specs.NothingAtAll.{NothingFoundAmongManyAtAll};

/// An audit of the file of two to eight hosts with the subnet between them reports nothing, for any
/// choice of rules: at no interface, and neither against a host nor against the subnet. This holds
/// for any calls and any events of the subnet, in any order.
pub fn nothing_is_found_among_many_by_any_rule()
    ensures { NothingFoundAmongManyAtAll }
{}

//! No host is reported by any rule at its own interface.
ghost use Rattle.std.specs.Prelude.{◌≡◌, ◌∷◌, [], true, false};
ghost use Rattle.std.specs.List.{list_all};
ghost use Rattle.ncp_monitor.specs.declared.finding.Rule.{Rule};
ghost use Rattle.ncp_monitor.specs.declared.finding.Unopened.{Unopened};
ghost use Rattle.ncp_monitor.specs.Judged.{new_monitor, by_host};
ghost use Rattle.ncp_proof_monitor.specs.Recordings.{findings_from, spares, is_of_messages_and_phase, is_of_requests_and_replies, is_of_allocation};
ghost use Rattle.ncp_proof_monitor_host.specs.AllRules.{NobodyBlamedAtAll};
ghost use Rattle.ncp_proof_monitor_host.specs.Talking.{echo_before_its_reply, text_to_nobody};

/// An audit reports no violation by a host of any rule at its own interface, in the host's whole
/// recording and for any choice of rules. This holds for any calls, any received bits and any
/// records of other interfaces, if the numbers of the host, its peers and its calls fit their
/// fields.
pub fn no_host_is_blamed_by_any_rule()
    ensures { NobodyBlamedAtAll }
{}

/// The law is not empty. An audit reports a host that sends a second ECO before the ERP, by a rule
/// of requests and replies and by none of messages and the phase; and a host that sends a text
/// without a connection, by a rule of allocation.
pub fn wrong_flow_is_blamed()
    ensures found { findings_from (new_monitor false) 1 echo_before_its_reply ≡ by_host 1 (Rule.EcoAgain 2) ∷ [] }
    ensures blamed { list_all (spares is_of_requests_and_replies 1) (findings_from (new_monitor false) 1 echo_before_its_reply) ≡ false }
    ensures spared { list_all (spares is_of_messages_and_phase 1) (findings_from (new_monitor false) 1 echo_before_its_reply) ≡ true }
    ensures unopened { findings_from (new_monitor false) 1 text_to_nobody ≡ by_host 1 (Rule.TextNotOpen 2 Unopened.NoPair) ∷ [] }
    ensures allocated { list_all (spares is_of_allocation 1) (findings_from (new_monitor false) 1 text_to_nobody) ≡ false }
{}

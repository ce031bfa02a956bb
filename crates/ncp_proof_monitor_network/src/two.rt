//! No rule is reported in the file of two hosts.
ghost use Rattle.std.specs.Prelude.{◌≡◌, [], false};
ghost use Rattle.ncp_monitor.specs.Judged.{new_monitor};
ghost use Rattle.ncp_proof_monitor.specs.Recordings.{is_of_messages_and_phase, is_of_requests_and_replies, is_of_allocation};
ghost use Rattle.ncp_proof_monitor_messages.specs.Files.{findings_in, found_by};
ghost use Rattle.ncp_proof_monitor_network.specs.NothingAtAll.{NothingFoundAtAll};
ghost use Rattle.ncp_proof_monitor_network.specs.WrongFlow.{echoes_go, echoes_come, second_echo, unopened_goes, unopened_comes, text_to_no_pair};

/// An audit of the file of two hosts with the subnet between them reports nothing, for any choice
/// of rules: at neither interface, and neither against a host nor against the subnet. This holds
/// for any calls and any events of the subnet, in any order.
pub fn nothing_is_found_by_any_rule()
    ensures { NothingFoundAtAll }
{}

/// The law is not empty. An audit reports a host that sends a second ECO before the ERP, at its own
/// interface and where its message arrives: by a rule of requests and replies, and by none of
/// messages and the phase. It also reports a host that sends a text without a connection, by a rule
/// of allocation.
pub fn wrong_flow_is_found()
    ensures goes { findings_in (new_monitor false) echoes_go ≡ second_echo 1 }
    ensures comes { findings_in (new_monitor false) echoes_come ≡ second_echo 2 }
    ensures judged { found_by is_of_requests_and_replies (findings_in (new_monitor false) echoes_come) ≡ second_echo 2 }
    ensures spared { found_by is_of_messages_and_phase (findings_in (new_monitor false) echoes_come) ≡ [] }
    ensures sent { findings_in (new_monitor false) unopened_goes ≡ text_to_no_pair 1 }
    ensures received { findings_in (new_monitor false) unopened_comes ≡ text_to_no_pair 2 }
    ensures allocated { found_by is_of_allocation (findings_in (new_monitor false) unopened_comes) ≡ text_to_no_pair 2 }
{}

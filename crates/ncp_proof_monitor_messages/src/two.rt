//! No rule of messages and the phase is reported in the file of two hosts.
ghost use Rattle.std.specs.Prelude.{◌≡◌, ◌∷◌, [], true, false};
ghost use Rattle.ncp_leader.specs.declared.fault.MessageFault.{MessageFault};
ghost use Rattle.ncp_monitor.specs.declared.finding.Rule.{Rule};
ghost use Rattle.ncp_monitor.specs.declared.finding.ItemKind.{ItemKind};
ghost use Rattle.ncp_monitor.specs.Judged.{new_monitor, by_host, by_imp};
ghost use Rattle.ncp_proof_monitor.specs.Recordings.{is_of_messages_and_phase};
ghost use Rattle.ncp_proof_monitor.specs.Examples.{both_short};
ghost use Rattle.ncp_proof_monitor_messages.specs.Files.{findings_in, found_by, NothingFound};
ghost use Rattle.ncp_proof_monitor_messages.specs.Examples.{stray_answer, message_and_answer, resets_come};

/// An audit of the file of two hosts with the subnet between them reports no broken rule of
/// messages and the phase: at neither interface, and neither against a host nor against the subnet.
/// This holds for any calls and any events of the subnet, in any order.
pub fn nothing_is_found()
    ensures { NothingFound is_of_messages_and_phase }
{}

/// The law is not empty:
/// - findings of any interface are findings of the file, in order
/// - an answer before any message is sent is a finding against the subnet; one after a message is
///   not
/// - a host's messages are judged also where they arrive
/// - a finding by a rule of messages is one by these rules
pub fn wrong_files_are_found()
    ensures everywhere { findings_in (new_monitor false) both_short ≡ by_host 2 (Rule.Short 2) ∷ by_host 1 (Rule.Short 2) ∷ [] }
    ensures stray { findings_in (new_monitor false) stray_answer ≡ by_imp (Rule.Stray 9 0) ∷ [] }
    ensures answered { findings_in (new_monitor false) message_and_answer ≡ by_host 1 (Rule.Fault MessageFault.ShortPrefix 0) ∷ [] }
    ensures judged { found_by is_of_messages_and_phase (findings_in (new_monitor false) message_and_answer) ≡ by_host 1 (Rule.Fault MessageFault.ShortPrefix 0) ∷ [] }
    ensures come { findings_in (new_monitor false) resets_come ≡ by_host 2 Rule.RstAgain ∷ by_host 2 Rule.RrpUnasked ∷ by_host 2 (Rule.Early ItemKind.Nop true true false) ∷ [] }
{}

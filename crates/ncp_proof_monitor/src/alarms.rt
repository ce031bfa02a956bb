//! Rules for which no host is reported at its own interface.
ghost use Rattle.std.specs.Prelude.{◌≡◌, ◌∷◌, [], ◌&&◌, ◌||◌, not, true, false, Some};
ghost use Rattle.std.specs.List.{list_all};
ghost use Rattle.ncp_transcript_two.specs.Between.{new_hosts};
ghost use Rattle.ncp_proof_runs.specs.Examples.{message_on_0};
ghost use Rattle.ncp_interface.specs.declared.imp_direction.ImpDirection.TheVariants.{FromImp};
ghost use Rattle.ncp_monitor.specs.declared.finding.Rule.{Rule};
ghost use Rattle.ncp_monitor.specs.declared.finding.ItemKind.{ItemKind};
ghost use Rattle.ncp_monitor.specs.Judged.{new_monitor, by_host};
ghost use Rattle.ncp_proof_monitor.specs.Recordings.{recording, findings_from, spares, at_interface, found_at, NothingComingBlames, NoFalseAlarm, NobodyBlamed, is_of_leader, is_of_link, is_of_messages_and_phase, is_of_requests_and_replies, is_of_allocation};
ghost use Rattle.ncp_proof_monitor.specs.Worlds.{comes_to, world_file, NeitherBlamed};
ghost use Rattle.ncp_proof_monitor.specs.Examples.{too_short, both_short, no_command, wrong_resets, two_at_once, lost_given, lost_noted, lost_seen, once_more, goes_of_two, noted_of_two, file_of_two};

/// No message that arrives at a host leads to a finding against that host, by any rule and after
/// any records; nor does it in a capture that begins in the middle.
pub fn nothing_that_comes_blames_the_host()
    ensures { NothingComingBlames }
{}

/// An audit of a host's own interface reports no violation by the host of a rule of leaders:
/// `short`, `own-host`, `kind` and `wrong-link`.
pub fn no_leader_is_blamed()
    ensures { NoFalseAlarm is_of_leader }
{}

/// An audit of a host's own interface reports no violation by the host of a rule of links:
/// `occupied` (a message on a link before the answer to its last one) and `changed` (another
/// message than the undelivered one).
pub fn no_link_is_blamed()
    ensures { NoFalseAlarm is_of_link }
{}

/// An audit reports no violation by a host of any rule of messages and the phase at its own
/// interface, in the host's whole recording. This holds for any calls, any received bits and any
/// records of other interfaces, if the numbers of the host, its peers and its calls fit their
/// fields.
pub fn no_host_is_blamed()
    ensures { NobodyBlamed is_of_messages_and_phase }
{}

/// For two hosts with the subnet between them, an audit of the file of both interfaces reports no
/// violation by either host of any rule of messages and the phase at its own interface. This holds
/// for any calls and any events of the subnet, in any order.
pub fn neither_of_two_is_blamed()
    ensures { NeitherBlamed is_of_messages_and_phase }
{}

/// Each rule is of exactly one of three kinds: messages and the phase (the kind of these laws);
/// requests, CLS, replies, ERR and echo; and allocation.
pub fn each_rule_is_of_one_kind()
    ensures one { (rule : Rule) → is_of_messages_and_phase rule ≡ not (is_of_requests_and_replies rule || is_of_allocation rule) }
    ensures pairwise_distinct { (rule : Rule) → (is_of_requests_and_replies rule && is_of_allocation rule) ≡ false }
{}

/// The laws are not empty. A sent message and a received one are recorded. Each of these is found:
/// - a message shorter than a leader, also after a record of another interface
/// - a byte that begins no command
/// - a second RST, an RRP that no RST asked for, and a command before the RRP
/// - a message sent before the answer to the last one on its link
///
/// A lost message that is sent again is not.
pub fn wrong_hosts_are_blamed()
    ensures recorded { recording lost_given lost_noted ≡ lost_seen }
    ensures short { list_all (spares is_of_leader 1) (findings_from (new_monitor false) 1 too_short) ≡ false }
    ensures here { at_interface 1 both_short ≡ too_short }
    ensures there { found_at (new_monitor false) 1 both_short ≡ by_host 1 (Rule.Short 2) ∷ [] }
    ensures bad { list_all (spares is_of_messages_and_phase 1) (findings_from (new_monitor false) 1 no_command) ≡ false }
    ensures resets { findings_from (new_monitor false) 1 wrong_resets ≡ by_host 1 Rule.RstAgain ∷ by_host 1 Rule.RrpUnasked ∷ by_host 1 (Rule.Early ItemKind.Nop true true false) ∷ [] }
    ensures blamed { list_all (spares is_of_messages_and_phase 1) (findings_from (new_monitor false) 1 wrong_resets) ≡ false }
    ensures twice { list_all (spares is_of_link 1) (findings_from (new_monitor false) 1 two_at_once) ≡ false }
    ensures passing { world_file goes_of_two noted_of_two (new_hosts 1 2) ≡ file_of_two }
    ensures coming { at_interface 2 (comes_to 2 (Some message_on_0)) ≡ (FromImp, message_on_0) ∷ [] }
    ensures again { list_all (spares is_of_link 1) (findings_from (new_monitor false) 1 once_more) ≡ true }
{}

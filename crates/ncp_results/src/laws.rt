//! Theorems about the results, each the contract of a function with an empty body: the
//! numbers are those of `include/ncp.h`, and each field is returned as itself.
ghost use Rattle.std.specs.Prelude.{◌≡◌, ◌↔◌, ◌<◌, ◌^◌, ◌∷◌, [], ℕ, Bool, true, false, Result, Ok, Err, Option, None, Some, List, map};
ghost use Rattle.ncp_bits.specs.declared.bits.BitsFault.{BitsFault};
ghost use Rattle.ncp_conn.specs.declared.record.Role.{Role};
ghost use Rattle.ncp_conn.specs.declared.record.Record.{Record};
ghost use Rattle.ncp_leader.specs.declared.fault.MessageFault.{MessageFault};
ghost use Rattle.ncp_leader.specs.declared.leader.Leader.{Leader};
ghost use Rattle.ncp_leader.specs.declared.leader.Short.{Short};
ghost use Rattle.ncp_model.specs.declared.call_fault.CallFault.{CallFault};
ghost use Rattle.ncp_model.specs.declared.outcomes.Took.{Took};
ghost use Rattle.ncp_model.specs.declared.pair.Pair.{Pair};
ghost use Rattle.ncp_model.specs.declared.outcomes.Error.{Error as Noticed};
ghost use Rattle.ncp_host.specs.declared.fault.HostFault.{HostFault};
ghost use Rattle.ncp_host.specs.declared.fault.LoadFault.{LoadFault};
ghost use Rattle.ncp_peer.specs.declared.counts.Counts.{Counts};
ghost use Rattle.ncp_host.specs.declared.ignored.Ignored.{Ignored};
ghost use Rattle.ncp_phase.specs.declared.flags.Flags.{Flags};
ghost use Rattle.ncp_peer.specs.declared.received.Received.{Received};
ghost use Rattle.ncp_peer.specs.PeerState.{PeerState};
ghost use Rattle.ncp_host.specs.Host.{Host, state_of};
ghost use Rattle.ncp_host.specs.Restarting.{after_restart};
ghost use Rattle.ncp_slot.specs.declared.slot.Slot.{Slot};
ghost use Rattle.ncp_subnet.specs.declared.fault.SubnetFault.{SubnetFault};
ghost use Rattle.ncp_results.specs.declared.connection.ConnectionInfo.{ConnectionInfo};
ghost use Rattle.ncp_results.specs.declared.returned.Arrived.{Arrived};
ghost use Rattle.ncp_results.specs.ArrivedRows.{ArrivesAs, TextArrivesAs, no_arrival, no_flags};
ghost use Rattle.ncp_results.specs.ChangeRows.{TellsChanges, TellsEnding, asked_here, asked_there, both_asked};
ghost use Rattle.ncp_results.specs.Changes.{no_connection, no_changes, changes_between, seen_of};
ghost use Rattle.ncp_wire.specs.declared.command.Command.TheVariants.{Nop, Eco, Err as Error, Rst, Rrp};
ghost use Rattle.ncp_results.specs.Commands.{command_tally_of, command_tally_from, no_tally};
ghost use Rattle.ncp_results.specs.declared.unacknowledged.Unacknowledged.{Unacknowledged};
ghost use Rattle.ncp_results.specs.Unacknowledged.{is_slot_unacknowledged, has_reset_among, unacknowledged_returned, number_of_unacknowledged, AllAcknowledged, NoneUnanswered, NoneToSendAgain};
ghost use Rattle.ncp_results.specs.Codes.{code_of, host_code, load_code, subnet_code, bits_code};
ghost use Rattle.ncp_results.specs.Names.{number_of_answer, all_answers, answer_among};
ghost use Rattle.ncp_results.specs.Returned.{are_flags_up, is_record_open, arrived_of, arrival, led_to, with_tally, phase_of, counted_returned, discarded_of, noted_of, connection_of};

use crate::codes::{
    BITS, DONE, LONGEST_MESSAGE, NO_HOST, NO_POINTER, NO_SUBNET, NOTHING, SHORT_BUFFER,
};

/// The result codes.
pub fn codes_are_these()
    ensures done { (DONE ≡ 0) × (code_of {A = ℕ} (Ok 5) ≡ 0) }
    ensures no_host { NO_HOST ≡ 32 }
    ensures no_pointer { NO_POINTER ≡ 33 }
    ensures short_buffer { SHORT_BUFFER ≡ 34 }
    ensures nothing { NOTHING ≡ 35 }
    ensures no_subnet { NO_SUBNET ≡ 36 }
    ensures bits { BITS ≡ 40 }
    ensures longest { LONGEST_MESSAGE ≡ 1024 }
    ensures first { code_of {A = ℕ} (Err CallFault.UnknownPeer) ≡ 1 }
    ensures last { code_of {A = ℕ} (Err CallFault.OutOfMemory) ≡ 17 }
    ensures made { (host_code HostFault.BadPeers ≡ 65) × (host_code HostFault.OutOfMemory ≡ 66) }
    ensures not_regular { subnet_code SubnetFault.NotRegular ≡ 73 }
    ensures not_of_the_subnet { subnet_code SubnetFault.NoHost ≡ 74 }
    ensures occupied { subnet_code SubnetFault.Occupied ≡ 75 }
    ensures not_a_host { load_code LoadFault.NotAHost ≡ 81 }
    ensures other_version { load_code LoadFault.OtherVersion ≡ 82 }
    ensures not_loaded { load_code LoadFault.OutOfMemory ≡ 83 }
    ensures too_long { bits_code BitsFault.TooLong ≡ 41 }
    ensures short_bytes { bits_code BitsFault.ShortBytes ≡ 42 }
    ensures spare_not_zero { bits_code BitsFault.SpareNotZero ≡ 43 }
{}

/// Each result code is found by its number, so no two have the same number.
pub fn each_answer_has_a_number_of_its_own()
    ensures { map (λ answer. answer_among all_answers (number_of_answer answer)) all_answers ≡ map Some all_answers }
{}

/// The result of receiving bits, with the host, link and type of their leader.
pub fn arrivals_are_returned_so()
    ensures short { ArrivesAs Received.Short 1 0 }
    ensures other { ArrivesAs (Received.Other 4) 2 4 }
    ensures unknown { ArrivesAs Received.Unknown 3 0 }
    ensures stray { ArrivesAs Received.Stray 4 0 }
    ensures answered { (p : Option Pair) (l : Leader) (b : List Bool)
        → arrived_of p (Ok l) b Received.Answered ≡ arrival (Ok l) 5 l.kind }
    ensures named { (l : Leader)
        → arrival (Ok l) 9 3 ≡ record no_arrival { what = 9; detail = 3; peer = l.host; link = l.link; kind = l.kind } }
    ensures none_named { arrival (Err (record {})) 1 0 ≡ record no_arrival { what = 1 } }
    ensures short_prefix { ArrivesAs (Received.Fault MessageFault.ShortPrefix) 6 1 }
    ensures m1_not_zero { ArrivesAs (Received.Fault MessageFault.M1NotZero) 6 2 }
    ensures size_zero { ArrivesAs (Received.Fault MessageFault.SizeZero) 6 3 }
    ensures m2_not_zero { ArrivesAs (Received.Fault MessageFault.M2NotZero) 6 4 }
    ensures text_missing { ArrivesAs (Received.Fault MessageFault.TextMissing) 6 5 }
    ensures wrong_link { ArrivesAs Received.WrongLink 7 0 }
    ensures wrong_size { ArrivesAs Received.WrongSize 8 0 }
    ensures control { (p : Option Pair) (l : Result Leader Short) (b : List Bool)
        → arrived_of p l b (Received.Control 3) ≡ with_tally (command_tally_of b) (arrival l 9 3) }
    ensures admitted { TextArrivesAs Took.Admitted 1 }
    ensures led_nowhere { (a : Arrived) → led_to None a ≡ a }
    ensures led { (a : Arrived)
        → led_to (Some (record { local = 2; remote = 3 })) a ≡ record a { local = 2; remote = 3 } }
    ensures late { TextArrivesAs Took.Late 2 }
    ensures size { TextArrivesAs Took.WrongSize 3 }
    ensures over { TextArrivesAs Took.Over 4 }
    ensures not_open { TextArrivesAs Took.NotOpen 5 }
    ensures not_up { ArrivesAs Received.NotUp 11 0 }
{}

/// For a message with a leader its type is returned, regardless of the result; without a leader, 0.
/// So a caller can distinguish the types that a host does not handle.
pub fn types_are_returned_so()
    ensures each { (p : Option Pair) (l : Leader) (b : List Bool) (r : Received)
        → (arrived_of p (Ok l) b r).kind ≡ l.kind }
    ensures none { (p : Option Pair) (b : List Bool) (r : Received) → (arrived_of p (Err (record {})) b r).kind ≡ 0 }
{}

/// The tally of four commands, two of them ERRs and one an RST.
pub fn tallies_are_these()
    ensures counted { (bytes : List ℕ)
        → command_tally_from no_tally (Rst ∷ Error 1 bytes ∷ Nop ∷ Error 2 bytes ∷ []) ≡ record { errors = 2; resets = 1 } }
    ensures none { command_tally_from no_tally [] ≡ record { errors = 0; resets = 0 } }
{}

/// Each count is returned as itself, and so is an ERR.
pub fn counts_are_returned_so()
    ensures stray { (n : Counts) → (counted_returned n).stray ≡ n.stray }
    ensures faults { (n : Counts) → (counted_returned n).faults ≡ n.faults }
    ensures wrong_link { (n : Counts) → (counted_returned n).wrong_link ≡ n.wrong_link }
    ensures wrong_size { (n : Counts) → (counted_returned n).wrong_size ≡ n.wrong_size }
    ensures not_up { (n : Counts) → (counted_returned n).not_up ≡ n.not_up }
    ensures late { (n : Counts) → (counted_returned n).late ≡ n.late }
    ensures over { (n : Counts) → (counted_returned n).over ≡ n.over }
    ensures short_bits { (n : Ignored) → (discarded_of n).short_bits ≡ n.short }
    ensures other { (n : Ignored) → (discarded_of n).other ≡ n.other }
    ensures unknown { (n : Ignored) → (discarded_of n).unknown ≡ n.unknown }
    ensures code { (e : Noticed) → (noted_of e).code ≡ e.code }
    ensures bytes { (e : Noticed) → (noted_of e).bytes ≡ e.bytes }
{}

/// Each of the four flags is returned as itself.
pub fn flags_are_returned_so()
    ensures down { (f : Flags) → (phase_of f).down ≡ f.down }
    ensures want { (f : Flags) → (phase_of f).want ≡ f.want }
    ensures owe { (f : Flags) → (phase_of f).owe ≡ f.owe }
    ensures wait { (f : Flags) → (phase_of f).wait ≡ f.wait }
{}

/// A host is up if no flag is set, and not if one is. An open connection has both requests, and
/// this side is not closing it.
pub fn up_and_open_mean_this()
    ensures up { are_flags_up no_flags ≡ true }
    ensures down { are_flags_up (record no_flags { down = true }) ≡ false }
    ensures want { are_flags_up (record no_flags { want = true }) ≡ false }
    ensures owe { are_flags_up (record no_flags { owe = true }) ≡ false }
    ensures wait { are_flags_up (record no_flags { wait = true }) ≡ false }
    ensures asked { (r : Record) → is_record_open r ≡ true → (r.asked ≡ true) × (r.heard ≡ true) }
    ensures stays { (r : Record) → is_record_open r ≡ true → (r.leaving ≡ false) × (r.left ≡ false) }
{}

/// A connection: its numbers, its role, and each flag are returned as themselves.
pub fn connections_are_returned_so()
    ensures bits { (r : Record) → (connection_of r).bits ≡ r.bits }
    ensures stored { (r : Record) → (connection_of r).stored ≡ r.stored }
    ensures interrupts { (r : Record) → (connection_of r).interrupts ≡ r.interrupts }
    ensures messages { (r : Record) → (connection_of r).messages ≡ r.messages }
    ensures link { (r : Record) → (connection_of r).link ≡ r.link }
    ensures size { (r : Record) → (connection_of r).size ≡ r.size }
    ensures sends { (r : Record) → r.end ≡ Role.Send → (connection_of r).sends ≡ true }
    ensures receives { (r : Record) → r.end ≡ Role.Receive → (connection_of r).sends ≡ false }
    ensures asked { (r : Record) → (connection_of r).asked ≡ r.asked }
    ensures heard { (r : Record) → (connection_of r).heard ≡ r.heard }
    ensures opened { (r : Record) → (connection_of r).opened ≡ r.opened }
    ensures leaving { (r : Record) → (connection_of r).leaving ≡ r.leaving }
    ensures left { (r : Record) → (connection_of r).left ≡ r.left }
    ensures cls { (r : Record) → (connection_of r).cls ≡ r.cls }
    ensures busy { (r : Record) → (connection_of r).busy ≡ r.busy }
    ensures recall { (r : Record) → (connection_of r).recall ≡ r.recall }
{}

/// A change is reported once: if nothing changed since the last reading, no change is reported.
pub fn changes_are_returned_once()
    ensures { (now : Option ConnectionInfo) → changes_between (seen_of now) now ≡ no_changes }
{}

/// Changes of a connection, example by example.
pub fn changes_are_returned_so()
    ensures from_empty { TellsChanges both_asked asked_there (record no_changes { ended = true; asks = true }) }
    ensures asks { TellsChanges no_connection asked_there (record no_changes { asks = true }) }
    ensures opened { TellsChanges asked_here both_asked (record no_changes { opened = true }) }
    ensures text { TellsChanges no_connection (record no_connection { stored = 8 })
        (record no_changes { text = true }) }
    ensures allowed { TellsChanges no_connection (record no_connection { sends = true; bits = 8 })
        (record no_changes { allowed = true }) }
    ensures delivered { TellsChanges (record no_connection { busy = true }) no_connection
        (record no_changes { delivered = true }) }
    ensures interrupted { TellsChanges no_connection (record no_connection { interrupts = 1 })
        (record no_changes { interrupted = true }) }
    ensures closes { TellsChanges no_connection (record no_connection { cls = true; leaving = true })
        (record no_changes { closes = true }) }
    ensures closed { TellsEnding (record no_connection { asked = true; heard = true; left = true })
        (record no_changes { closed = true }) }
    ensures refused { TellsEnding asked_here (record no_changes { refused = true }) }
    ensures ended { TellsEnding (record asked_here { heard = true; cls = true; leaving = true })
        (record no_changes { ended = true }) }
{}

/// A message is unacknowledged while it is unanswered or is to be sent again, and not while it is
/// held. An RST counts as a reset, and so does an RRP, among other commands too; no other command
/// does.
pub fn what_is_unacknowledged()
    ensures unanswered { (message : List Bool) → is_slot_unacknowledged (Slot.Travelling message) ≡ true }
    ensures again { (message : List Bool) → is_slot_unacknowledged (Slot.Ready message) ≡ true }
    ensures held { (message : List Bool) → is_slot_unacknowledged (Slot.Held message) ≡ false }
    ensures none { is_slot_unacknowledged Slot.Empty ≡ false }
    ensures rst { has_reset_among (Nop ∷ Rst ∷ []) ≡ true }
    ensures rrp { has_reset_among (Rrp ∷ Nop ∷ []) ≡ true }
    ensures echo { (byte : ℕ) → has_reset_among (Eco byte ∷ Nop ∷ []) ≡ false }
    ensures numbers { (number_of_unacknowledged Unacknowledged.Nothing ≡ 0) × (number_of_unacknowledged Unacknowledged.Message ≡ 1) × (number_of_unacknowledged Unacknowledged.Reset ≡ 2) }
{}

/// Nothing is unacknowledged if and only if on each link no message is (`nothing`). Then none is
/// unanswered, so a restart of the IMP has lost none (`unanswered`). If none is to be sent again,
/// as after all output was sent, the converse holds (`converse`).
pub fn when_nothing_is_unacknowledged()
    ensures nothing { (number : ℕ) (h : Host) (s : PeerState) → state_of h number ≡ Some s → (unacknowledged_returned number h ≡ Ok Unacknowledged.Nothing) ↔ AllAcknowledged s }
    ensures unanswered { (number : ℕ) (h : Host) → unacknowledged_returned number h ≡ Ok Unacknowledged.Nothing → NoneUnanswered number h }
    ensures converse { (number : ℕ) (h : Host) (s : PeerState) → state_of h number ≡ Some s → NoneToSendAgain s → NoneUnanswered number h → unacknowledged_returned number h ≡ Ok Unacknowledged.Nothing }
{}

/// A restart changes nothing of what is unacknowledged: it can be read before or after the call.
pub fn a_restart_leaves_what_is_unacknowledged()
    ensures { (number : ℕ) (h : Host) → number < 2 ^ 8 → unacknowledged_returned number (after_restart number h) ≡ unacknowledged_returned number h }
{}

//! The headline of the model's two hosts: properties of two hosts and all their connections after
//! every schedule, with a subnet that delivers a message whole and once and answers RFNM, or does
//! not deliver it and reports that. The statement for users is
//! `ncp_statement/specs/Statement.antt`. That commands act once and in order is
//! `hosts_act_once_in_order` of `ncp_proof_machine`.
ghost use Rattle.std.specs.Prelude.{◌≡◌, ℕ, Bool, List, [], ◌∷◌, true, false, None, Some};
ghost use Rattle.std.specs.List.{list_any};
ghost use Rattle.ncp_wire.specs.declared.command.Command.{Command};
ghost use Rattle.ncp_model.specs.Phase.{is_rst, is_other, up_phase};
ghost use Rattle.ncp_model.specs.EndpointEvents.{is_violation};
ghost use Rattle.ncp_proof_machine.specs.Delivery.{Accepted};
ghost use Rattle.ncp_proof_machine.specs.Hosts.{Node, TwoNodes, nodes_swapped, past_of, TextOut, NodeStep, node_steps, node_hears, node_hears_text, PairCall, node_calls, node_calls_echo, Calls_reset, Hears, NodeEvent, node_at, run};
ghost use Rattle.ncp_proof_headline.specs.Headline.{commands_there, commands_back, BothOpenInModel, sender_in_model, receiver_in_model, granted_underway, returned_underway, how_many_texts, text_underway, AmountsAgreeInModel, OnOneLink, WithinAllocationInModel, PartedInModel, TakenOrHeld, BeginsInModel, StaysOut, SenderOpens, ReceiverOpens, NoPairOpens, NoCommandOpens, BothWaysInModel};
ghost use Rattle.ncp_model.specs.Rows.{outward, inward, ones, zero_bits, counting};
ghost use Rattle.ncp_proof_machine.specs.HostRuns.{calls_back_under_text, sender_cleared, held_past_reset, up_after_held, opened_after_held, with_text_out, meets, meets_there};
ghost use Rattle.ncp_proof_machine.specs.Resets.{This, That};
ghost use Rattle.ncp_proof_headline.specs.OfHosts.{OfEachSender, InEachStep, WhileItAwaits, WhereAwaitingEnds, AnRrpComes, OfCommandsAtNodes, OfTextsAtNodes, of_command_at, of_text_at};
ghost use Rattle.ncp_proof_machine.specs.After.{AfterAll, sender_after, receiver_after, got_after, held_text};
ghost use Rattle.ncp_model.specs.InUse.{three_bytes, got_two};

use ncp_model::Pair;

/// From making an RST until an RRP arrives, a host acts on RST and RRP only. While its RST is
/// underway (queued or in flight) it waits, and stops waiting only in a step in which an RRP
/// arrives.
pub fn only_resets_act_in_steps_until_the_answer()
    ensures commands { (c : Command) (n : Node) → n.host.phase.wait ≡ true → is_other c ≡ true → node_hears c n ≡ n }
    ensures texts { (on : ℕ) (head : List Bool) (t : TextOut) → WhileItAwaits (λ n. node_hears_text on head t n ≡ n) }
    ensures calls { (pair : Pair) (call : PairCall) → WhileItAwaits (λ n. node_calls pair call n ≡ n) }
    ensures echoes { (byte : ℕ) → WhileItAwaits (λ n. node_calls_echo byte n ≡ n) }
    ensures waits { AfterAll (λ w. list_any is_rst (commands_there w) ≡ true → w.this.host.phase.wait ≡ true) }
    ensures waits_too { AfterAll (λ w. list_any is_rst (commands_back w) ≡ true → w.that.host.phase.wait ≡ true) }
    ensures each { (step : NodeStep) (w : TwoNodes) → (node_steps step w).that.host ≡ w.that.host }
    ensures until { WhereAwaitingEnds AnRrpComes }
{}

/// A host that is up records a protocol violation in its history variable `violated`: an ERR as the
/// answer to a command, or a text answered as not connected, of the wrong size or beyond the
/// allocation.
pub fn what_is_against_the_protocol_is_noted()
    ensures commands { OfCommandsAtNodes (λ c n now. is_violation (of_command_at c n) ≡ true → now.violated ≡ true) }
    ensures texts { OfTextsAtNodes (λ on t n now. is_violation (of_text_at on t n) ≡ true → now.violated ≡ true) }
{}

/// Neither host ever makes an ERR for a command of the other, or answers its text as not connected,
/// of the wrong size or beyond the allocation. For each pair, in each direction:
///
/// - While both its ends are open they are on one link. The receiver's outstanding allocation is
///   the sum of the sender's counters and the amounts of ALL, RET and the text underway (queued or
///   in flight) on that link, in messages and bits. All text given was got, is underway, or is
///   stored at the sender.
/// - While the receiver is live, its outstanding allocation is what was granted, less what was
///   returned and used; all text it got was taken or is held, until it leaves; and that text is a
///   prefix of the text given since the sender last opened, regardless of what the sender has done
///   since.
pub fn hosts_lose_and_make_nothing()
    ensures safe { AfterAll (λ w. w.this.violated ≡ false) }
    ensures safe_there { AfterAll (λ w. w.that.violated ≡ false) }
    ensures amounts { OfEachSender AmountsAgreeInModel }
    ensures link { OfEachSender OnOneLink }
    ensures allocation { OfEachSender WithinAllocationInModel }
    ensures parted { OfEachSender PartedInModel }
    ensures held { OfEachSender TakenOrHeld }
    ensures beginning { OfEachSender BeginsInModel }
{}

/// From sending a text on a link to its RFNM, no pair whose texts that host sends on that link
/// opens, at either host, in any step of either host. A control message is heard in one step: in
/// that step no command of it opens such a pair, even if a later command of the same message would
/// end it.
pub fn none_opens_in_a_step_while_its_link_has_a_text()
    ensures steps { InEachStep NoPairOpens }
    ensures steps_back { InEachStep (λ w after. NoPairOpens (nodes_swapped w) (nodes_swapped after)) }
    ensures commands { (events : List NodeEvent) → BothWaysInModel NoCommandOpens (run events) }
{}

/// Worked examples: both ends are open while an ALL, a text and a RET are underway; and a receiver
/// keeps the text it got after its sender was cleared.
pub fn all_terms_are_underway()
    ensures open { BothOpenInModel outward (run calls_back_under_text) }
    ensures messages { (receiver_in_model outward (run calls_back_under_text)).messages ≡ 5 }
    ensures messages_at_sender { (sender_in_model outward (run calls_back_under_text)).messages ≡ 0 }
    ensures messages_granted { (granted_underway outward (run calls_back_under_text)).messages ≡ 3 }
    ensures messages_in_texts { how_many_texts (text_underway outward (run calls_back_under_text)) ≡ 1 }
    ensures messages_returned { (returned_underway outward (run calls_back_under_text)).messages ≡ 1 }
    ensures alone { sender_after sender_cleared ≡ None }
    ensures alone_there { receiver_after sender_cleared ≡ Some got_two }
    ensures alone_got { got_after sender_cleared ≡ ones 16 }
    ensures alone_given { (past_of (run sender_cleared).this.pasts outward).given ≡ three_bytes }
{}

/// Worked example: a text is held until after a reset of its destination. That host's RST is
/// answered only after the text, which is dropped when it arrives. A connection that opens again on
/// its link gets only the text given since.
pub fn a_text_is_held_back_past_a_reset()
    ensures owed { (run held_past_reset).this.host.phase ≡ record up_phase { owe = true } }
    ensures owed_and_awaited { (run held_past_reset).that.host.phase ≡ record up_phase { wait = true } }
    ensures owed_after_the_text { (run held_past_reset).this.texts 2 ≡ held_text }
    ensures dropped { (run up_after_held).this.host.phase ≡ up_phase }
    ensures dropped_there { (run up_after_held).that.host.phase ≡ up_phase }
    ensures dropped_text { got_after up_after_held ≡ [] }
    ensures from_empty { sender_after opened_after_held ≡ Some (counting 1 0) }
    ensures anew_there { receiver_after opened_after_held ≡ Some (record (counting 1 0) { stored = zero_bits 16 }) }
    ensures anew_got { got_after opened_after_held ≡ zero_bits 16 }
{}

/// The premises of the theorems on openings are satisfiable: a text stays unacknowledged in a step;
/// a step of the sender's host opens a pair with a link, and a step of the receiver's host does,
/// each on hearing one command.
pub fn openings_and_texts_out_happen()
    ensures stays_out { StaysOut 2 (run with_text_out) (node_at That Calls_reset (run with_text_out)) }
    ensures sender { SenderOpens 2 outward (run meets) (node_at This Hears (run meets)) }
    ensures receiver { ReceiverOpens 2 inward (run meets_there) (node_at That Hears (run meets_there)) }
    ensures by_one_command { (run meets).that.control.subnet ≡ Accepted (Command.Rts 2 3 2 ∷ []) }
    ensures by_one_there { (run meets_there).this.control.subnet ≡ Accepted (Command.Str 3 2 8 ∷ []) }
{}

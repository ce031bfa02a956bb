//! The rules of resets: what may be sent before the RRP, and when an RST or an RRP may be sent.
ghost use Rattle.std.specs.Prelude.{◌≡◌, ◌<◌, ◌≤◌, ◌+◌, ◌++◌, length, Ok, Err};
ghost use Rattle.std.specs.Option.{option_to_list};
ghost use Rattle.ncp_monitor.specs.Acts.{act_of};
ghost use Rattle.ncp_monitor.specs.Phases.{broken_by, sender, is_early, early_rule, early_finding, is_before_reply, is_acted_on, after_thing, again_finding, unquiet_finding, first_finding, hears_reset, after_reset_of_host, after_reset_of_peer, after_own_reply, reset_findings, view_after_reset, unasked_finding, after_reply_of_host, after_reply_of_peer, reply_findings, after_untold_reply, view_after_reply, bad_finding, act_findings, after_act, item_findings, after_item, missing_finding};
ghost use Rattle.ncp_monitor.specs.declared.findings.TheConstants.{MAX_FINDINGS};

use crate::act::{Act, act_of};
use crate::finding::{Finding, ItemKind, Rule, Who};
use crate::findings::Findings;
use crate::view::{ObservedPhase, View, Wait, one_less};
use ncp_wire::{Command, CommandFault};

/// The context of a message whose items are judged: who sent it, and the state of the links then.
#[derive(Clone, Copy, Drop)]
pub struct MessageContext {
    /// The number of its source.
    pub by: u8,
    /// Whether the source is the host at whose interface it is observed.
    pub sent: bool,
    /// A busy data link of that host, if there is one.
    pub busy: Option<u8>,
    /// Whether the state of that host's link 0 is known.
    pub zero: bool,
}

impl MessageContext {
    /// A finding against the message's source.
    pub(crate) fn finding(&self, rule: Rule) -> Finding
        ensures { result ≡ broken_by self.now rule }
    {
        Finding {
            who: Who::Host(self.by),
            rule,
        }
    }

    // The source's side of the view.
    fn sender(&self, view: View) -> ObservedPhase
        ensures { result ≡ sender self.now view }
    {
        if self.sent { view.host } else { view.peer }
    }
}

// ---- items other than RST and RRP

/// Whether a command, a fault or a text is early: sent before the reset is over.
pub(crate) fn is_early(context: &MessageContext, thing: ItemKind, view: &View) -> bool
    ensures { result ≡ is_early context.now thing view.now }
{
    let side = context.sender(*view);
    if context.sent && view.suspended && thing == ItemKind::Text {
        return side.wait.is_waiting();
    }
    !side.began || side.wait.is_waiting() || (context.sent && view.owes)
}

// The rule that an early item breaks.
fn early_rule(context: &MessageContext, thing: ItemKind, view: &View) -> Rule
    ensures { result ≡ early_rule context.now thing view.now }
{
    let side = context.sender(*view);
    Rule::Early {
        thing,
        began: side.began,
        waits: side.wait.is_waiting(),
        owes: context.sent && view.owes,
    }
}

// Whether the host owes the source an RRP, awaits none, and is not suspended, so that it is known
// whether it acts on an early item.
fn is_before_reply(context: &MessageContext, view: &View) -> bool
    ensures { result ≡ is_before_reply context.now view.now }
{
    !context.sent && view.owes && !view.suspended && !view.host.wait.is_waiting()
}

/// Whether the host acts on an early item: none of its data links is busy, so its RRP is made.
pub(crate) fn is_acted_on(context: &MessageContext, view: &View) -> bool
    ensures { result ≡ is_acted_on context.now view.now }
{
    is_before_reply(context, view) && context.busy.is_none()
}

/// Judges a command, a fault or a text other than RST and RRP.
pub(crate) fn judge_thing(
    context: &MessageContext,
    thing: ItemKind,
    view: &mut View,
    found: &mut Findings,
)
    requires { length found.old < MAX_FINDINGS }
    ensures view { view.new ≡ after_thing context.now thing view.old }
    ensures found { found.new ≡ found.old ++ option_to_list (early_finding context.now thing view.old) }
    ensures len { length found.new ≤ length found.old + 1 }
{
    if !view.told || !is_early(context, thing, view) {
        return;
    }
    found.push(context.finding(early_rule(context, thing, view)));
    let before_reply = is_before_reply(context, view);
    view.acted = view.acted || is_acted_on(context, view);
    view.suspended = view.suspended || (!view.host.wait.is_waiting() && !before_reply);
    view.desynced = view.desynced || context.sent;
}

// ---- RST

/// Whether the phase is known from this RST on.
pub(crate) fn hears_reset(context: &MessageContext, view: &View) -> bool
    ensures { result ≡ hears_reset context.now view.now }
{
    view.told || (context.zero && !view.host.wait.is_answered())
}

// A second RST before the RRP.
fn again_finding(context: &MessageContext, view: View) -> Option<Finding>
    ensures { result ≡ again_finding context.now view }
{
    if !context.sender(view).wait.is_waiting() {
        return None;
    }
    Some(context.finding(Rule::RstAgain))
}

// An RST, or an RRP, of the host itself while a data link is busy.
fn unquiet_finding(reply: bool, context: &MessageContext, view: View) -> Option<Finding>
    ensures { result ≡ unquiet_finding reply context.now view }
{
    if !context.sent || view.suspended {
        return None;
    }
    match context.busy {
        Some(link) => Some(context.finding(Rule::Unquiet { reply, link })),
        None => None,
    }
}

// An RST of the host itself before its owed RRP, if a busy data link delayed that.
fn first_finding(context: &MessageContext, view: View) -> Option<Finding>
    ensures { result ≡ first_finding context.now view }
{
    if context.sent && view.owes && view.first && !view.suspended {
        Some(context.finding(Rule::RrpFirst))
    } else {
        None
    }
}

// The view after an RST of the host itself.
fn after_reset_of_host(context: &MessageContext, view: View) -> View
    ensures { result ≡ after_reset_of_host context.now view }
{
    let broke = view.host.wait.is_waiting() || unquiet_finding(false, context, view).is_some();
    let answered = view.host.wait.is_answered();
    View {
        host: ObservedPhase {
            began: true,
            wait: view.host.wait.more(),
            ..view.host
        },
        peer: ObservedPhase {
            asked: view.peer.asked.saturating_add(1),
            ..view.peer
        },
        desynced: broke || answered,
        suspended: answered,
        acted: false,
        told: true,
        known: true,
        ..view
    }
}

// The view after an RST of the peer.
fn after_reset_of_peer(context: &MessageContext, view: View) -> View
    ensures { result ≡ after_reset_of_peer context.now view }
{
    let wait = view.peer.wait.more();
    View {
        host: ObservedPhase {
            asked: view.host.asked.saturating_add(1),
            ..view.host
        },
        peer: ObservedPhase {
            began: true,
            wait,
            ..view.peer
        },
        owes: true,
        first: context.busy.is_some(),
        suspended: !wait.is_waiting()
            || (view.suspended && (view.host.wait.is_answered() || view.host.asked > 0)),
        acted: false,
        told: true,
        ..view
    }
}

// Judges an RST, and returns the view after it.
fn judge_reset(context: &MessageContext, view: View, found: &mut Findings) -> View
    requires { length found.old + 3 ≤ MAX_FINDINGS }
    ensures view { result ≡ view_after_reset context.now view }
    ensures found { found.new ≡ found.old ++ reset_findings context.now view }
    ensures len { length found.new ≤ length found.old + 3 }
{
    if !hears_reset(context, &view) {
        return view;
    }
    found.push_some(again_finding(context, view));
    found.push_some(unquiet_finding(false, context, view));
    found.push_some(first_finding(context, view));
    if context.sent {
        after_reset_of_host(context, view)
    } else {
        after_reset_of_peer(context, view)
    }
}

// ---- RRP

// An RRP for which no RST asked.
fn unasked_finding(context: &MessageContext, view: View) -> Option<Finding>
    ensures { result ≡ unasked_finding context.now view }
{
    let side = context.sender(view);
    if side.asked > 0 || side.admits {
        return None;
    }
    Some(context.finding(Rule::RrpUnasked))
}

// The source's side after its RRP.
fn after_own_reply(side: ObservedPhase) -> ObservedPhase
    ensures { result ≡ after_own_reply side }
{
    ObservedPhase {
        began: true,
        asked: one_less(side.asked),
        admits: side.admits && side.asked > 0,
        ..side
    }
}

// The view after an RRP of the host itself.
fn after_reply_of_host(context: &MessageContext, view: View) -> View
    ensures { result ≡ after_reply_of_host context.now view }
{
    View {
        host: after_own_reply(view.host),
        peer: ObservedPhase {
            wait: view.peer.wait.less(),
            ..view.peer
        },
        owes: false,
        suspended: view.suspended
            || unquiet_finding(true, context, view).is_some()
            || !view.peer.wait.is_waiting(),
        acted: false,
        known: true,
        ..view
    }
}

// The view after an RRP of the peer.
fn after_reply_of_peer(view: View) -> View
    ensures { result ≡ after_reply_of_peer view }
{
    View {
        host: ObservedPhase {
            wait: view.host.wait.less(),
            ..view.host
        },
        peer: after_own_reply(view.peer),
        suspended: view.desynced
            || (view.owes && !view.peer.wait.is_waiting())
            || (view.suspended && !view.host.wait.is_waiting()),
        ..view
    }
}

// The view after an RRP while the phase is not known.
fn after_untold_reply(context: &MessageContext, view: View) -> View
    ensures { result ≡ after_untold_reply context.now view }
{
    if context.sent {
        return view;
    }
    View {
        host: ObservedPhase {
            wait: Wait::Answered,
            ..view.host
        },
        ..view
    }
}

// Judges an RRP, and returns the view after it.
fn judge_reply(context: &MessageContext, view: View, found: &mut Findings) -> View
    requires { length found.old + 3 ≤ MAX_FINDINGS }
    ensures view { result ≡ view_after_reply context.now view }
    ensures found { found.new ≡ found.old ++ reply_findings context.now view }
    ensures len { length found.new ≤ length found.old + 3 }
{
    if !view.told {
        return after_untold_reply(context, view);
    }
    found.push_some(unasked_finding(context, view));
    found.push_some(unquiet_finding(true, context, view));
    if context.sent {
        after_reply_of_host(context, view)
    } else {
        after_reply_of_peer(view)
    }
}

// ---- items

// A fault of a control text.
fn bad_finding(context: &MessageContext, item: &Result<Command, CommandFault>) -> Option<Finding>
    ensures { result ≡ bad_finding context.now item.now }
{
    match item {
        Ok(_) => None,
        Err(fault) => Some(context.finding(Rule::Bad { fault: *fault })),
    }
}

// Judges an item by how it affects the phase.
fn judge_act(context: &MessageContext, act: Act, view: &mut View, found: &mut Findings)
    requires { length found.old + 3 ≤ MAX_FINDINGS }
    ensures view { view.new ≡ after_act context.now act view.old }
    ensures found { found.new ≡ found.old ++ act_findings context.now act view.old }
    ensures len { length found.new ≤ length found.old + 3 }
{
    match act {
        Act::Reset => *view = judge_reset(context, *view, found),
        Act::Reply => *view = judge_reply(context, *view, found),
        Act::Other(thing) => judge_thing(context, thing, view, found),
    }
}

/// Judges an item of a control text.
pub(crate) fn judge_item(
    context: &MessageContext,
    item: &Result<Command, CommandFault>,
    view: &mut View,
    found: &mut Findings,
)
    requires { length found.old + 4 ≤ MAX_FINDINGS }
    ensures view { view.new ≡ after_item context.now item.now view.old }
    ensures found { found.new ≡ found.old ++ item_findings context.now item.now view.old }
    ensures len { length found.new ≤ length found.old + 4 }
{
    found.push_some(bad_finding(context, item));
    judge_act(context, act_of(item), view, found);
}

/// A finding that the host left out an owed RRP: it sent a control message with room for one more
/// command while no data link was busy.
pub(crate) fn missing_finding(context: &MessageContext, room: bool, view: View) -> Option<Finding>
    ensures { result ≡ missing_finding context.now room view }
{
    if context.sent && room && view.told && view.owes && !view.suspended && context.busy.is_none() {
        Some(context.finding(Rule::MissingRrp))
    } else {
        None
    }
}

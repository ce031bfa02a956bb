//! `Monitor`: judges the records of a capture.
ghost use Rattle.std.specs.Prelude.{◌≡◌, ◌<◌, ◌≤◌, ◌+◌, ◌%◌, ◌++◌, ◌&&◌, not, nat_le, [], false, length, replicate, IfOk, IfSome};
ghost use Rattle.ncp_monitor.specs.declared.findings.TheConstants.{MAX_FINDINGS};
ghost use Rattle.ncp_interface.specs.Slots.{kept_slot, same_at, same_but_host_at, gone_out};
ghost use Rattle.ncp_monitor.specs.Phases.{after_item, after_items};
ghost use Rattle.ncp_monitor.specs.Talked.{after_flow};
ghost use Rattle.ncp_monitor.specs.declared.views.TheConstants.{HOSTS};
ghost use Rattle.ncp_monitor.specs.Reporting.{found_alone, after_seeing_out, tables_after_items};
ghost use Rattle.ncp_bits.specs.declared.bits.TheConstants.{MAX_BITS};
ghost use Rattle.ncp_interface.specs.Contents.{message_class, items_said};
ghost use Rattle.ncp_monitor.specs.JudgeContexts.{found_of_item, found_of_items, view_after_control, found_of_control, found_of_reading, tables_after_scene, found_going_out, found_coming, found_of_regular, after_regular_heard, found_of_message, after_message_heard};
ghost use Rattle.ncp_monitor.specs.Judged.{new_monitor, has_seen, knows_zero, blamed_for, out_rule, is_fresh, changes_slot, by_host, by_imp, fresh_out, slot_of_link, may_pass_reset, view_after_out, monitor_after_out, false_rule, stray_rule, sees_both, is_crowded, judges_coming, answer_findings, monitor_after_answer, unsent_why, with_coming, after_in, turn_at, after_control, after_read, event_findings, after_event, record_findings, after_record};
ghost use Rattle.ncp_interface.specs.Events.{event_of};
ghost use Rattle.ncp_monitor.specs.Resets.{doubt_on, doubting, before_out, before_event, next_doubt, with_next_doubt, becomes_unclear, with_unclear, trust_of, after_reset, after_notice, judged_findings, after_judged};
ghost use Rattle.ncp_monitor.specs.Coverage.{is_session_suspended, has_suspended, is_restarted, unjudged};

use crate::act::act_of;
use crate::conn_tables::ConnTables;
use crate::coverage::{PairCoverage, Unjudged};
use crate::finding::{Finding, Rule, Unsent, Who};
use crate::findings::Findings;
use crate::host_pairs::HostPairs;
use crate::message::{judged_bits, rule_of_message};
use crate::phase::{MessageContext, judge_item};
use crate::resets::Trust;
use crate::speaking::judge_spoken;
use crate::talked::{
    JudgeContext, act_reaches, clears, judge_left_out, judge_talked_text, observed_flow_of,
};
use crate::view::View;
use crate::views::{HOSTS, Views};
use ncp_bits::{Bits, Part};
use ncp_control::Commands;
use ncp_interface::{
    Doubt, ImpDirection, ImpNotice, InterfaceEvent, LinkState, MessageClass, ObservedLink,
    SentMessages, class_of, event_of, notice_of,
};
use ncp_leader::{INCOMPLETE, MessageFault, RFNM, Regular, read_regular};
use ncp_wire::{Command, CommandFault};
use std::alloc::{AllocError, Global};

// The most bits of a control text with room for one more command (NIC 8246: 120 bytes, and the
// longest command has 12).
const ROOMY_BITS: usize = 864;

/// What the records of a capture have shown so far.
#[derive(Drop)]
pub struct Monitor {
    /// Whether the capture may begin in the middle.
    part: bool,
    /// Whether more messages were outstanding than fit. From then on, messages are judged only by
    /// themselves.
    full: bool,
    /// The hosts with a record at their interface.
    seen: [bool; HOSTS],
    /// The hosts that are no longer judged: after a reset of its interface such a host got the
    /// answer to a message that it may have been about to send again.
    unclear: [bool; HOSTS],
    /// The pairs of hosts in doubt: the interface of one was reset after they had begun. What the
    /// peer says may then answer a message that it got twice, or not at all.
    in_doubt: HostPairs,
    /// The phase of each host with each other host.
    views: Views,
    /// The messages that are outstanding or to be sent again.
    kept: SentMessages,
    /// The connections, the facts and the pending replies.
    conn_tables: ConnTables,
}

/// How a message passes a host's interface.
#[derive(Clone, Copy, Drop)]
struct Passing {
    /// The direction.
    way: ImpDirection,
    /// The host.
    at: u8,
}

/// A message whose contents are judged.
#[derive(Clone, Copy, Drop)]
struct Heard {
    /// Its link.
    line: ObservedLink,
    /// Who sent it, and the state of the links then.
    context: MessageContext,
    /// Whether its contents are new: it arrives, or is sent for the first time.
    fresh: bool,
}

// Whom a finding about a message is against: the host that sends it, or the IMP that delivers it.
fn sender_of(way: ImpDirection, at: u8) -> Who
    ensures { result ≡ blamed_for way at }
{
    match way {
        ImpDirection::ToImp => Who::Host(at),
        ImpDirection::FromImp => Who::Imp,
    }
}

// The rule that sending a message breaks on a link in this state.
fn out_rule(slot: LinkState, same: bool, link: u8) -> Option<Rule>
    ensures { result ≡ out_rule slot same link }
{
    match slot {
        LinkState::Unknown | LinkState::Empty => None,
        LinkState::Out | LinkState::Came => Some(Rule::Occupied { link }),
        LinkState::Again => {
            if same {
                None
            } else {
                Some(Rule::Changed { link })
            }
        }
    }
}

// Whether it is sent for the first time.
fn is_fresh(slot: LinkState, same: bool) -> bool
    ensures { result ≡ is_fresh slot same }
{
    match slot {
        LinkState::Unknown => false,
        LinkState::Empty | LinkState::Out | LinkState::Came => true,
        LinkState::Again => !same,
    }
}

// The rule that an answer breaks by contradicting what is known of the message.
fn false_rule(slot: LinkState, kind: u8, host: u8, link: u8) -> Option<Rule>
    ensures { result ≡ false_rule slot kind host link }
{
    match slot {
        LinkState::Out if kind == RFNM => Some(Rule::FalseAnswer {
            kind,
            host,
            link,
            came: false,
        }),
        LinkState::Came if kind != RFNM => Some(Rule::FalseAnswer {
            kind,
            host,
            link,
            came: true,
        }),
        _ => None,
    }
}

// The rule that an answer breaks if no message is outstanding on the link.
fn stray_rule(slot: LinkState, kind: u8, link: u8) -> Option<Rule>
    ensures { result ≡ stray_rule slot kind link }
{
    match slot {
        LinkState::Empty | LinkState::Again => Some(Rule::Stray { kind, link }),
        LinkState::Unknown | LinkState::Out | LinkState::Came => None,
    }
}

// Why an arriving message was not sent in this form, by the state of its link.
fn unsent_why(slot: LinkState, same: bool) -> Option<Unsent>
    ensures { result ≡ unsent_why slot same }
{
    match slot {
        LinkState::Unknown | LinkState::Empty | LinkState::Again => Some(Unsent::NotOut),
        LinkState::Came => Some(Unsent::Twice),
        LinkState::Out => { if same { None } else { Some(Unsent::Altered) } }
    }
}

// A rule broken by the subnet.
fn by_imp(rule: Rule) -> Finding
    ensures { result ≡ by_imp rule }
{
    Finding {
        who: Who::Imp,
        rule,
    }
}

// A rule broken by a host.
fn by_host(at: u8, rule: Rule) -> Finding
    ensures { result ≡ by_host at rule }
{
    Finding {
        who: Who::Host(at),
        rule,
    }
}

// Whether another message is sent instead of the undelivered one.
fn changes(slot: LinkState, same: bool) -> bool
    ensures { result ≡ changes_slot slot same }
{
    match slot {
        LinkState::Unknown | LinkState::Empty | LinkState::Out | LinkState::Came => false,
        LinkState::Again => !same,
    }
}

// Whether a message may be a text that passes a queued command: one of the session that an RST began,
// or one that is sent before the RRP that is owed.
fn may_pass_reset(view: View, link: u8) -> bool
    ensures { result ≡ may_pass_reset view link }
{
    view.told && (view.host.wait.is_answered() || view.acted) && link != 0
}

// The host's view after it sends a message on a link in this state.
fn view_after_out(view: View, link: u8, slot: LinkState, same: bool) -> View
    ensures { result ≡ view_after_out view link slot same }
{
    View {
        suspended: view.suspended || changes(slot, same) || may_pass_reset(view, link),
        overlapped: view.overlapped || slot.is_out(),
        ..view
    }
}

// Judges an item of a control text by the rules of phases and by those of connections and replies.
fn judge_said(
    judge_context: JudgeContext<'_>,
    item: &Result<Command, CommandFault>,
    view: &mut View,
    conn_tables: &mut ConnTables,
    found: &mut Findings,
)
    requires { length found.old + 5 ≤ MAX_FINDINGS }
    ensures view { view.new ≡ after_item judge_context.entry.context item.now view.old }
    ensures conn_tables { conn_tables.new ≡ after_flow judge_context.entry.context judge_context.entry.flow judge_context.entry.kept.now item.now view.old conn_tables.old }
    ensures found { found.new ≡ found.old ++ found_of_item judge_context.entry item.now view.old conn_tables.old }
    ensures len { length found.new ≤ length found.old + 5 }
{
    let act = act_of(item);
    if act_reaches(&judge_context.context, act, view) {
        judge_item(&judge_context.context, item, view, found);
        judge_spoken(judge_context, item, conn_tables, found);
        return;
    }
    if clears(&judge_context.context, act, view) {
        conn_tables.clear(judge_context.flow.at, judge_context.flow.peer);
    }
    judge_item(&judge_context.context, item, view, found);
}

// Judges the items of a control text.
fn judge_items(
    judge_context: JudgeContext<'_>,
    text: Part<'_>,
    view: &mut View,
    conn_tables: &mut ConnTables,
    found: &mut Findings,
)
    requires whole { length text % 8 ≡ 0 }
    requires few { length found.old ≤ 8 }
    ensures view { view.new ≡ after_items judge_context.entry.context (items_said text.entry) view.old }
    ensures conn_tables { conn_tables.new ≡ tables_after_items judge_context.entry text.entry view.old conn_tables.old }
    ensures found { found.new ≡ found.old ++ found_of_items judge_context.entry text.entry view.old conn_tables.old }
    ensures len { length found.new + 4 ≤ MAX_FINDINGS }
{
    let _bits = text.len();
    for item in Commands::new(text) {
        judge_said(judge_context, &item, view, conn_tables, found);
    }
}

// Whether no command of the host is queued after a control text of `len` bits: it has room for one
// more. But before an RRP that it owes, the host may have gone down after it acted on something.
fn shows_all(len: usize, view: View) -> bool
    ensures { result ≡ (nat_le len 864 && not view.acted) }
{
    len <= ROOMY_BITS && !view.acted
}

// Judges a control text.
fn judge_control(
    judge_context: JudgeContext<'_>,
    text: Part<'_>,
    view: &mut View,
    conn_tables: &mut ConnTables,
    found: &mut Findings,
)
    requires whole { length text % 8 ≡ 0 }
    requires few { length found.old ≤ 8 }
    ensures view { view.new ≡ view_after_control judge_context.entry text.entry view.old }
    ensures conn_tables { conn_tables.new ≡ after_control judge_context.entry.context judge_context.entry.flow judge_context.entry.kept.now text.entry view.old conn_tables.old }
    ensures found { found.new ≡ found.old ++ found_of_control judge_context.entry text.entry view.old conn_tables.old }
{
    let room = shows_all(text.len(), *view);
    judge_items(judge_context, text, view, conn_tables, found);
    judge_left_out(judge_context, room, view, conn_tables, found);
}

// Judges the contents of a message, as it was read.
fn judge_read(
    judge_context: JudgeContext<'_>,
    regular: &Regular<'_>,
    view: &mut View,
    conn_tables: &mut ConnTables,
    found: &mut Findings,
)
    requires few { length found.old ≤ 8 }
    ensures view { view.new ≡ after_read (message_class regular.now) judge_context.entry.context regular.now.text view.old }
    ensures conn_tables { conn_tables.new ≡ tables_after_scene judge_context.entry regular.now view.old conn_tables.old }
    ensures found { found.new ≡ found.old ++ found_of_reading judge_context.entry regular.now view.old conn_tables.old }
{
    match class_of(regular) {
        MessageClass::Stop => {}
        MessageClass::Text => judge_talked_text(judge_context, regular, view, conn_tables, found),
        MessageClass::Control => judge_control(
            judge_context,
            regular.text(),
            view,
            conn_tables,
            found,
        ),
    }
}

// Judges a message of `len` bits by itself.
fn judge_alone(
    context: &MessageContext,
    read: &Result<Regular<'_>, MessageFault>,
    link: u8,
    len: usize,
    found: &mut Findings,
)
    requires bits { len ≤ MAX_BITS }
    requires room { length found.old < MAX_FINDINGS }
    ensures found { found.new ≡ found.old ++ found_alone context.now read.now link len }
    ensures len { length found.new ≤ length found.old + 1 }
{
    if let Some(rule) = rule_of_message(read, link, len) {
        found.push(context.finding(rule));
    }
}

// No host observed.
fn none_seen() -> [bool; HOSTS]
    ensures { result ≡ replicate HOSTS false }
{
    [false; HOSTS]
}

impl Monitor {
    /// Nothing observed yet. In a partial capture (`part`) nothing is known of what came before.
    /// Only this function allocates.
    pub fn new(alloc: Global, part: bool) -> Result<Monitor, AllocError>
        ensures { IfOk result (λ monitor. monitor ≡ new_monitor part) }
    {
        let views = Views::new(alloc, part)?;
        let in_doubt = HostPairs::new(alloc)?;
        let kept = SentMessages::new(alloc)?;
        let conn_tables = ConnTables::new(alloc)?;
        Ok(Monitor {
            part,
            full: false,
            seen: none_seen(),
            unclear: none_seen(),
            in_doubt,
            views,
            kept,
            conn_tables,
        })
    }

    // The state of a link, by the index of its message.
    fn slot_at(&self, known: bool, place: Option<usize>) -> LinkState
        requires { IfSome place (λ p. p < length self.now.kept) }
        ensures { result ≡ kept_slot known self.now.kept place }
    {
        match place {
            Some(place) => self.kept.slot(place),
            None => {
                if known {
                    LinkState::Empty
                } else {
                    LinkState::Unknown
                }
            }
        }
    }

    // Whether the message at an index has these bits.
    fn is_same(&self, place: Option<usize>, message: &Bits) -> bool
        requires { IfSome place (λ p. p < length self.now.kept) }
        ensures { result ≡ same_at self.now.kept place message.now }
    {
        match place {
            Some(place) => self.kept.is_same(place, message),
            None => false,
        }
    }

    // Whether the message at an index has these bits, apart from the host in its leader.
    fn is_same_but_host(&self, place: Option<usize>, message: &Bits) -> bool
        requires { IfSome place (λ p. p < length self.now.kept) }
        ensures { result ≡ same_but_host_at self.now.kept place message.now }
    {
        match place {
            Some(place) => self.kept.is_same_but_host(place, message),
            None => false,
        }
    }

    // Whether the state of link 0 is known.
    fn knows_zero(&self, at: u8, peer: u8) -> bool
        ensures { result ≡ knows_zero self.now at peer }
    {
        let place = self.kept.position_of(at, peer, 0);
        !self.full && self.slot_at(self.views.of(at, peer).known, place) != LinkState::Unknown
    }

    // The context of a message between a host and a peer, observed at the host.
    #[inline(always)]
    fn turn_at(&self, at: u8, peer: u8, by: u8, sent: bool) -> MessageContext
        ensures { result ≡ turn_at self.now at peer by sent }
    {
        MessageContext {
            by,
            sent,
            busy: self.kept.busy_link(at, peer),
            zero: self.knows_zero(at, peer),
        }
    }

    // Whether both interfaces are in the capture, and it does not begin in the middle.
    fn sees_both(&self, peer: u8) -> bool
        ensures { result ≡ sees_both self.now peer }
    {
        !self.part && self.seen[usize::from(peer)]
    }

    // Whether two messages of one host to another were outstanding at once on one link.
    fn is_crowded(&self, from: u8, to: u8) -> bool
        ensures { result ≡ is_crowded self.now from to }
    {
        self.views.of(from, to).overlapped
    }

    // Whether an arriving message is compared with the records at its sender's interface.
    fn judges_coming(&self, at: u8, peer: u8) -> bool
        ensures { result ≡ judges_coming self.now at peer }
    {
        !self.full && self.sees_both(peer) && !self.is_crowded(peer, at)
    }

    // Updates the view for a message sent on a link in this state. Usually nothing changes.
    fn see_out(&mut self, line: ObservedLink, slot: LinkState, same: bool)
        ensures { self.new ≡ after_seeing_out self.old line slot same }
    {
        let view = self.views.of(line.at, line.peer);
        if changes(slot, same) || slot.is_out() || may_pass_reset(view, line.link) {
            let after = view_after_out(view, line.link, slot, same);
            self.views.set(line.at, line.peer, after);
        }
    }

    // Judges the link of a message that is sent. Returns whether the message is sent for the first
    // time.
    fn judge_out(&mut self, line: ObservedLink, message: &Bits, found: &mut Findings) -> bool
        requires { length found.old ≤ 4 }
        ensures fresh { result ≡ fresh_out self.old line.at line.peer line.link message.now }
        ensures after { self.new ≡ monitor_after_out self.old line.at line.peer line.link message.now }
        ensures found { found.new ≡ found.old ++ found_going_out self.old line message.now }
        ensures len { length found.new ≤ length found.old + 1 }
    {
        if self.full {
            return true;
        }
        let ObservedLink { at, peer, link } = line;
        let known = self.views.of(at, peer).known;
        let place = self.kept.position_of(at, peer, link);
        let slot = self.slot_at(known, place);
        let same = self.is_same(place, message);
        if let Some(rule) = out_rule(slot, same, link) {
            found.push(by_host(at, rule));
        }
        self.see_out(line, slot, same);
        self.full = !self.kept.put(place, line, message);
        is_fresh(slot, same)
    }

    // Judges an answer.
    fn judge_answer(&mut self, kind: u8, line: ObservedLink, found: &mut Findings)
        requires { length found.old ≤ 4 }
        ensures after { self.new ≡ monitor_after_answer self.old kind line.at line.peer line.link }
        ensures found { found.new ≡ found.old ++ answer_findings self.old kind line.at line.peer line.link }
    {
        if self.full {
            return;
        }
        let ObservedLink { at, peer, link } = line;
        let known = self.views.of(at, peer).known;
        let place = self.kept.position_of(at, peer, link);
        let slot = self.slot_at(known, place);
        if self.sees_both(peer) && !self.is_crowded(at, peer) {
            if let Some(rule) = false_rule(slot, kind, peer, link) {
                found.push(by_imp(rule));
            }
        }
        if let Some(rule) = stray_rule(slot, kind, link) {
            found.push(by_imp(rule));
        }
        self.kept.answer(known, kind, place);
    }

    // Judges whether an arriving message was sent in this form.
    fn judge_in(&mut self, line: ObservedLink, message: &Bits, found: &mut Findings)
        requires { length found.old ≤ 4 }
        ensures after { self.new ≡ after_in self.old line.at line.peer line.link }
        ensures found { found.new ≡ found.old ++ found_coming self.old line message.now }
        ensures len { length found.new ≤ length found.old + 1 }
    {
        let ObservedLink { at, peer, link } = line;
        if !self.judges_coming(at, peer) {
            return;
        }
        let place = self.kept.position_of(peer, at, link);
        let slot = self.slot_at(true, place);
        let same = self.is_same_but_host(place, message);
        if let Some(why) = unsent_why(slot, same) {
            found.push(by_imp(Rule::Unsent {
                host: peer,
                link,
                why,
            }));
        }
        self.come(place);
    }

    // Marks the message at an index as delivered, if it is outstanding.
    fn come(&mut self, place: Option<usize>)
        requires { IfSome place (λ p. p < length self.old.kept) }
        ensures { self.new ≡ record self.old { kept = with_coming self.old.kept place } }
    {
        let Some(place) = place else {
            return;
        };
        if self.kept.slot(place).is_out() {
            self.kept.set(place, LinkState::Came);
        }
    }

    // Judges the contents of a regular message.
    fn judge_regular(&mut self, heard: Heard, regular: &Regular<'_>, found: &mut Findings)
        requires { length found.old ≤ 8 }
        ensures after { self.new ≡ after_regular_heard self.old heard regular.now }
        ensures found { found.new ≡ found.old ++ found_of_regular self.old heard regular.now }
    {
        if !heard.fresh {
            return;
        }
        let ObservedLink { at, peer, .. } = heard.line;
        let view = self.views.at(at, peer);
        view.told = view.told && !self.full;
        let judge_context = JudgeContext {
            context: heard.context,
            flow: observed_flow_of(at, peer, &heard.context),
            kept: &self.kept,
        };
        judge_read(judge_context, regular, view, &mut self.conn_tables, found);
    }

    // Judges a message by itself, then its contents.
    fn judge_message(&mut self, heard: Heard, message: &Bits, found: &mut Findings)
        requires { length found.old ≤ 5 }
        ensures after { self.new ≡ after_message_heard self.old heard message.now }
        ensures found { found.new ≡ found.old ++ found_of_message self.old heard message.now }
    {
        let read = read_regular(message);
        let len = judged_bits(&read, message);
        judge_alone(&heard.context, &read, heard.line.link, len, found);
        if let Ok(regular) = &read {
            self.judge_regular(heard, regular, found);
        }
    }

    // Judges the event of a record.
    fn judge_event(
        &mut self,
        passing: Passing,
        event: InterfaceEvent,
        message: &Bits,
        found: &mut Findings,
    )
        requires { found.old ≡ [] }
        ensures after { self.new ≡ after_event self.old passing.at message.now event }
        ensures found { found.new ≡ event_findings self.old passing.way passing.at message.now event }
    {
        let Passing { way, at } = passing;
        match event {
            InterfaceEvent::Short => found.push(Finding {
                who: sender_of(way, at),
                rule: Rule::Short {
                    bits: message.len() as u32,
                },
            }),
            InterfaceEvent::Nothing => {}
            InterfaceEvent::Own { kind, link } => found.push(Finding {
                who: sender_of(way, at),
                rule: Rule::OwnHost { kind, link },
            }),
            InterfaceEvent::Other { kind } => found.push(by_host(at, Rule::Kind { kind })),
            InterfaceEvent::Out { peer, link } => {
                let line = ObservedLink { at, peer, link };
                let fresh = self.judge_out(line, message, found);
                let context = self.turn_at(at, peer, at, true);
                self.judge_message(
                    Heard {
                        line,
                        context,
                        fresh,
                    },
                    message,
                    found,
                );
            }
            InterfaceEvent::Answer { kind, peer, link } => {
                self.judge_answer(kind, ObservedLink { at, peer, link }, found);
            }
            InterfaceEvent::In { peer, link } => {
                let line = ObservedLink { at, peer, link };
                self.judge_in(line, message, found);
                let context = self.turn_at(at, peer, peer, false);
                let fresh = true;
                self.judge_message(
                    Heard {
                        line,
                        context,
                        fresh,
                    },
                    message,
                    found,
                );
            }
        }
    }

    // Judges the event of a record, without what a reset left in doubt.
    fn judge_record(
        &mut self,
        passing: Passing,
        event: InterfaceEvent,
        message: &Bits,
        found: &mut Findings,
    )
        requires { event ≡ event_of passing.way passing.at message.now }
        ensures after { self.new ≡ after_record self.old passing.way passing.at message.now }
        ensures found { found.new ≡ record_findings self.old passing.way passing.at message.now }
    {
        found.clear();
        self.seen[usize::from(passing.at)] = true;
        self.conn_tables.count_record();
        self.judge_event(passing, event, message, found);
    }

    // What is in doubt about the last message on a link.
    fn doubt_on(&self, from: u8, to: u8, link: u8) -> Doubt
        ensures { result ≡ doubt_on self.now from to link }
    {
        self.kept.doubt(self.kept.position_of(from, to, link))
    }

    // The state of a link.
    fn slot_on(&self, from: u8, to: u8, link: u8) -> LinkState
        ensures { result ≡ slot_of_link self.now from to link }
    {
        let known = self.views.of(from, to).known;
        self.slot_at(known, self.kept.position_of(from, to, link))
    }

    // Sets what is in doubt about the last message on a link.
    fn set_doubt(&mut self, from: u8, to: u8, link: u8, doubt: Doubt)
        ensures { self.new ≡ doubting self.old from to link doubt }
    {
        if let Some(place) = self.kept.position_of(from, to, link) {
            self.kept.set_doubt(place, doubt);
        }
    }

    // A host that sends where a repeat is awaited: as if the message had just been reported as not
    // delivered.
    fn before_out(&mut self, at: u8, peer: u8, link: u8)
        ensures { self.new ≡ before_out self.old at peer link }
    {
        if self.full || !self.doubt_on(at, peer, link).awaits_repeat() {
            return;
        }
        let known = self.views.of(at, peer).known;
        let place = self.kept.position_of(at, peer, link);
        self.kept.answer(known, INCOMPLETE, place);
    }

    // The same before an event.
    fn before_event(&mut self, at: u8, event: InterfaceEvent)
        ensures { self.new ≡ before_event self.old at event }
    {
        if let InterfaceEvent::Out { peer, link } = event {
            self.before_out(at, peer, link);
        }
    }

    // The doubt about a message that the host sends, if there was one about the last message on its
    // link.
    fn next_doubt(&self, at: u8, event: InterfaceEvent) -> Option<Doubt>
        ensures { result ≡ next_doubt self.now at event }
    {
        match event {
            InterfaceEvent::Out { peer, link } if !self.full => {
                self.doubt_on(at, peer, link).left_by_out()
            }
            _ => None,
        }
    }

    // Notes it.
    fn note_doubt(&mut self, at: u8, event: InterfaceEvent, doubt: Option<Doubt>)
        ensures { self.new ≡ with_next_doubt self.old at event doubt }
    {
        if let (InterfaceEvent::Out { peer, link }, Some(doubt)) = (event, doubt) {
            self.set_doubt(at, peer, link, doubt);
        }
    }

    // Whether a host that may have been about to send a message again gets the answer to it.
    fn becomes_unclear(&self, at: u8, event: InterfaceEvent) -> bool
        ensures { result ≡ becomes_unclear self.now at event }
    {
        match event {
            InterfaceEvent::Answer { kind, peer, link } => {
                kind == RFNM
                    && self.doubt_on(at, peer, link).awaits_repeat()
                    && self.slot_on(at, peer, link).is_out()
            }
            _ => false,
        }
    }

    // Notes it.
    fn note_unclear(&mut self, at: u8, unclear: bool)
        ensures { self.new ≡ with_unclear self.old at unclear }
    {
        if unclear {
            self.unclear[usize::from(at)] = true;
        }
    }

    // Whose violations a record shows for certain.
    fn trust_of(&self, at: u8, event: InterfaceEvent) -> Trust
        ensures { result ≡ trust_of self.now at event }
    {
        let host = !self.unclear[usize::from(at)];
        match event {
            InterfaceEvent::Out { peer, .. } => Trust {
                host,
                peer: !self.in_doubt.has(at, peer),
                imp: true,
            },
            InterfaceEvent::Answer { peer, link, .. } => Trust {
                host,
                peer: !self.in_doubt.has(at, peer),
                imp: !self.doubt_on(at, peer, link).may_arrive_again(),
            },
            InterfaceEvent::In { peer, link } => Trust {
                host,
                peer: !self.in_doubt.has(at, peer),
                imp: !self.doubt_on(peer, at, link).may_arrive_again(),
            },
            _ => Trust {
                host,
                peer: true,
                imp: true,
            },
        }
    }

    // What a reset of the interface of host `at` leaves in doubt.
    fn reset(&mut self, at: u8)
        ensures { self.new ≡ after_reset self.old at }
    {
        self.in_doubt.add_senders(at, self.kept.as_slice());
        self.in_doubt.add_peers(at, &self.views);
        self.kept.reset_at(at);
    }

    // What a notice of an IMP leaves in doubt.
    fn heed(&mut self, at: u8, notice: Option<ImpNotice>)
        ensures { self.new ≡ after_notice self.old at notice }
    {
        match notice {
            Some(ImpNotice::InterfaceReset) => self.reset(at),
            Some(ImpNotice::MessageRefused { peer, link }) => {
                let place = self.kept.position_of(at, peer, link);
                self.kept.refuse(place);
            }
            None => {}
        }
    }

    /// Judges a record: a message that passed the interface of host `at` in this direction. Stores
    /// the findings in `found`, in order: of its leader, of the two interfaces, of its link, of the
    /// message by itself, of its commands in order, and of omitted ones.
    ///
    /// After an interface reset those are left out that the wire no longer shows for certain:
    /// against a peer of the host, except of the form of a message; and against the IMP, about a
    /// message that may arrive twice.
    pub fn judge(&mut self, way: ImpDirection, at: u8, message: &Bits, found: &mut Findings)
        ensures after { self.new ≡ after_judged self.old way at message.now }
        ensures found { found.new ≡ judged_findings self.old way at message.now }
    {
        let event = event_of(way, at, message);
        let trust = self.trust_of(at, event);
        let doubt = self.next_doubt(at, event);
        let unclear = self.becomes_unclear(at, event);
        self.before_event(at, event);
        self.judge_record(Passing { way, at }, event, message, found);
        self.note_doubt(at, event, doubt);
        self.note_unclear(at, unclear);
        self.heed(at, notice_of(way, message));
        found.leave_reported(trust, at);
    }

    /// The number of records that were judged. Saturates.
    pub fn judged(&self) -> u32
        ensures { result ≡ self.now.conn_tables.number }
    {
        self.conn_tables.number()
    }

    /// Whether a record was made at a host's interface.
    pub(crate) fn has_seen(&self, host: u8) -> bool
        ensures { result ≡ has_seen self.now host }
    {
        self.seen[usize::from(host)]
    }

    /// Whether the session of two hosts is suspended, as observed at the interface of the first.
    pub(crate) fn is_session_suspended(&self, at: u8, peer: u8) -> bool
        ensures { result ≡ is_session_suspended self.now at peer }
    {
        self.views.of(at, peer).suspended
    }

    /// Whether a connection between two hosts, a link or the echoes are suspended, as observed at
    /// the interface of the first.
    pub(crate) fn has_suspended(&self, at: u8, peer: u8) -> bool
        ensures { result ≡ has_suspended at peer self.now.conn_tables }
    {
        self.conn_tables.has_suspended(at, peer)
    }

    // Whether an interface reset left in doubt what the host or the peer acted on.
    fn is_restarted(&self, at: u8, peer: u8) -> bool
        ensures { result ≡ is_restarted self.now at peer }
    {
        self.unclear[usize::from(at)] || self.in_doubt.has(at, peer)
    }

    /// Why some of what passed between two hosts at the interface of the first was not judged, with
    /// what was noted of them. `None` if all was.
    pub fn unjudged(&self, pair: PairCoverage, at: u8, peer: u8) -> Option<Unjudged>
        ensures { result ≡ unjudged self.now pair at peer }
    {
        if self.full {
            Some(Unjudged::Messages)
        } else if self.conn_tables.is_full() {
            Some(Unjudged::Connections)
        } else if pair.late && self.has_seen(peer) {
            Some(Unjudged::Late)
        } else if self.is_crowded(at, peer) || self.is_crowded(peer, at) {
            Some(Unjudged::Crowded)
        } else if pair.suspended {
            Some(Unjudged::Suspended)
        } else if self.is_restarted(at, peer) {
            Some(Unjudged::Restarted)
        } else if pair.connection {
            Some(Unjudged::Connection)
        } else if self.part {
            Some(Unjudged::Part)
        } else if !self.has_seen(peer) {
            Some(Unjudged::Alone)
        } else {
            None
        }
    }
}

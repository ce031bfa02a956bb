//! The rules of the commands that name a link: ALL, GVB, RET, INR and INS.
ghost use Rattle.std.specs.Prelude.{◌≡◌, ◌<◌, ◌≤◌, ◌+◌, ◌++◌, false, None, Some, [], length, IfSome, if◌then◌else◌};
ghost use Rattle.std.specs.Option.{option_to_list};
ghost use Rattle.ncp_monitor.specs.Allocation.{part_returned, kept_sum, target_by, target_at, is_receive_link_at_rest, index_on_receive_link, target_on, from_receiver, from_sender, speaks_receiver, limit_rule, open_rule, demuxed_rule, link_rule, numbers_due, other_rule, over_rule, returned_rules, led_numbers, number_rules, other_code, owes_error, owes_error_if, granted_here, granted_there, with_grant, after_allocation, asked_back, recalled, owes_return, after_gvb, with_return, suspended_if, is_any, after_wanted_ret, suspended_conn, after_ret, after_open, demuxed_after, after_link, speaks_sender, ends_returns};
ghost use Rattle.ncp_monitor.specs.Replies.{is_own};
ghost use Rattle.ncp_monitor.specs.Reporting.{index_of_target, both_rules, judged_rules, found_link, found_ret, tables_after_gvb, tables_after_link};
ghost use Rattle.ncp_monitor.specs.declared.findings.TheConstants.{MAX_FINDINGS};

use crate::conn_state::{ConnState, FactKind};
use crate::conn_tables::ConnTables;
use crate::finding::{Rule, Unopened};
use crate::findings::Findings;
use crate::link_target::{LinkTarget, ReceiveLink};
use crate::observed_flow::ObservedFlow;
use crate::pending_reply::{ExpectedReply, PendingReply};
use crate::reply::{after_reply, answers, error_wanted, owes, reply_rule};
use crate::reporting::{report_numbers, report_some};
use crate::request::is_link_busy;
use crate::talked::JudgeContext;
use ncp_interface::{SentMessages, is_senders};
use ncp_wire::{Command, ERRONEOUS_PARAMETERS, SOCKET_NOT_CONNECTED};

// The most messages, and the most bits, that a sender may be allowed at once (this profile).
const MOST_MESSAGES: u32 = 65_535;

const MOST_BITS: u32 = 65_536;

// The denominator of a GVB's fractions (this profile).
const PARTS: u64 = 128;

/// Up to two rules broken by the numbers of a RET or a text.
#[derive(Clone, Copy, Drop)]
pub(crate) struct Numbers {
    /// The first, if any.
    pub first: Option<Rule>,
    /// The second, if any.
    pub second: Option<Rule>,
}

impl Numbers {
    /// No broken rule.
    pub(crate) fn none() -> Numbers
        ensures first { result.first ≡ None }
        ensures second { result.second ≡ None }
    {
        Numbers {
            first: None,
            second: None,
        }
    }

    /// One broken rule.
    pub(crate) fn one(rule: Rule) -> Numbers
        ensures first { result.first ≡ Some rule }
        ensures second { result.second ≡ None }
    {
        Numbers {
            first: Some(rule),
            second: None,
        }
    }

    /// Whether any rule is broken.
    pub(crate) fn is_any(&self) -> bool
        ensures { result ≡ is_any (both_rules self.now) }
    {
        self.first.is_some() || self.second.is_some()
    }
}

// `fraction` 128ths of `number`, rounded up, and at most `number`.
fn part_returned(number: u32, fraction: u8) -> u32
    ensures part { result ≡ part_returned number fraction }
    ensures most { result ≤ number }
{
    let parts = u64::from(number) * u64::from(fraction);
    u64::from(number).min(parts.div_ceil(PARTS)) as u32
}

// ---- the target of a command that names a link

/// Returns `Closed` if `closed`, `Open(place)` if both sides have asked for the connection, else
/// `Unasked(place)`.
pub(crate) fn target_by(closed: bool, conn: &ConnState, place: usize) -> LinkTarget
    ensures target { result ≡ target_by closed conn.now place }
    ensures index { IfSome (index_of_target result) (λ p. p ≡ place) }
{
    if closed {
        LinkTarget::Closed
    } else if conn.link.is_some() && conn.size.is_some() {
        LinkTarget::Open(place)
    } else {
        LinkTarget::Unasked(place)
    }
}

/// Whether the link is suspended: nothing is judged of it.
pub(crate) fn is_at_rest(
    flow: ObservedFlow,
    receive_link: ReceiveLink,
    conn_tables: &ConnTables,
) -> bool
    ensures { result ≡ is_receive_link_at_rest flow receive_link conn_tables.now }
{
    let ReceiveLink { host, link } = receive_link;
    conn_tables.is_marked(flow.at, flow.peer, FactKind::LinkSuspended { host, link })
}

/// The index of the connection with a link.
pub(crate) fn index_on(
    flow: ObservedFlow,
    receive_link: ReceiveLink,
    conn_tables: &ConnTables,
) -> Option<usize>
    ensures index { result ≡ index_on_receive_link flow receive_link conn_tables.now.conns }
    ensures inside { IfSome result (λ place. place < length conn_tables.now.conns) }
{
    conn_tables.index_of_link(flow.at, flow.peer, receive_link.host, receive_link.link)
}

// The target of a command on a link.
fn target_on(flow: ObservedFlow, receive_link: ReceiveLink, conn_tables: &ConnTables) -> LinkTarget
    ensures target { result ≡ target_on flow receive_link conn_tables.now }
    ensures inside { IfSome (index_of_target result) (λ p. p < length conn_tables.now.conns) }
{
    if is_at_rest(flow, receive_link, conn_tables) {
        return LinkTarget::Rests;
    }
    match index_on(flow, receive_link, conn_tables) {
        Some(place) => {
            let conn = conn_tables.conn_at(place);
            target_by(conn.has_left(flow.sent), &conn, place)
        }
        None => LinkTarget::Nobody,
    }
}

/// The link of an ALL, GVB or INR, which its receiver sends.
pub(crate) fn from_receiver(flow: ObservedFlow, link: u8) -> ReceiveLink
    ensures { result ≡ from_receiver flow link }
{
    ReceiveLink {
        host: flow.sent,
        link,
    }
}

/// The link of a RET, an INS or a text, which its sender sends.
pub(crate) fn from_sender(flow: ObservedFlow, link: u8) -> ReceiveLink
    ensures { result ≡ from_sender flow link }
{
    ReceiveLink {
        host: !flow.sent,
        link,
    }
}

// Whether the receiver on the link sent the command.
fn speaks_receiver(flow: ObservedFlow, receive_link: ReceiveLink) -> bool
    ensures { result ≡ speaks_receiver flow receive_link }
{
    receive_link.host == flow.sent
}

// ---- rules

// `OverLimit`, if the sender would be allowed more than 65,535 messages or 65,536 bits.
fn limit_rule(command: Command, messages: u32, bits: u32) -> Option<Rule>
    ensures { result ≡ limit_rule command messages bits }
{
    if messages > MOST_MESSAGES || bits > MOST_BITS {
        Some(Rule::OverLimit {
            command,
            messages,
            bits,
        })
    } else {
        None
    }
}

// The sender's messages and bits after an ALL, saturating at the largest number of 32 bits.
fn allowed_after(conn: &ConnState, messages: u16, bits: u32) -> (u32, u32)
    ensures messages { result.0 ≡ kept_sum conn.now.messages messages }
    ensures bits { result.1 ≡ kept_sum conn.now.bits bits }
{
    (
        conn.messages.saturating_add(u32::from(messages)),
        conn.bits.saturating_add(bits),
    )
}

// The rule that a command on an open connection breaks, if any.
fn open_rule(
    flow: ObservedFlow,
    command: &Command,
    conn: &ConnState,
    conn_tables: &ConnTables,
) -> Option<Rule>
    ensures { result ≡ open_rule flow command.now conn.now conn_tables.now }
{
    let command = *command;
    match command {
        Command::All { messages, bits, .. } => {
            let (messages, bits) = allowed_after(conn, messages, bits);
            limit_rule(command, messages, bits)
        }
        Command::Gvb { .. } if conn.recall => Some(Rule::GvbAgain { command }),
        Command::Ret { .. } => reply_rule(
            flow,
            &command,
            Rule::RetUnasked { command },
            conn_tables,
        ),
        _ => None,
    }
}

// The rule that a command on a link breaks, by its target.
fn demuxed_rule(
    flow: ObservedFlow,
    command: &Command,
    target: LinkTarget,
    conn_tables: &ConnTables,
) -> Option<Rule>
    requires { IfSome (index_of_target target) (λ p. p < length conn_tables.now.conns) }
    ensures { result ≡ demuxed_rule flow command.now conn_tables.now target }
{
    let why = match target {
        LinkTarget::Rests => return None,
        LinkTarget::Open(place) => return open_rule(
            flow,
            command,
            &conn_tables.conn_at(place),
            conn_tables,
        ),
        LinkTarget::Nobody => Unopened::NoPair,
        LinkTarget::Closed => Unopened::Closed,
        LinkTarget::Unasked(_) => Unopened::NotAsked,
    };
    Some(Rule::NotOpen {
        command: *command,
        why,
    })
}

// The numbers expected of a RET: those of the first pending reply that it fits.
fn numbers_due(
    flow: ObservedFlow,
    reply: &Command,
    pending_replies: &[PendingReply],
) -> Option<ExpectedReply>
    ensures { result ≡ numbers_due (is_own flow) reply.now pending_replies.now }
{
    for due in pending_replies {
        if answers(flow, reply, due) {
            return Some(due.wanted);
        }
    }
    None
}

// `RetOther`: a RET of the host with other numbers than expected, or of the peer with greater ones.
fn other_rule(
    flow: ObservedFlow,
    command: Command,
    given: (u32, u32),
    wanted: Option<ExpectedReply>,
) -> Option<Rule>
    ensures { result ≡ other_rule flow command given.0 given.1 wanted }
{
    let Some(ExpectedReply::Return { messages, bits, .. }) = wanted else {
        return None;
    };
    let (of_messages, of_bits) = given;
    let wrong = if flow.sent {
        of_messages != messages || of_bits != bits
    } else {
        of_messages > messages || of_bits > bits
    };
    if wrong {
        Some(Rule::RetOther {
            command,
            messages,
            bits,
        })
    } else {
        None
    }
}

// `RetOver`: a RET of the peer that returns more than its largest possible allocation.
fn over_rule(
    flow: ObservedFlow,
    command: Command,
    given: (u32, u32),
    conn: &ConnState,
) -> Option<Rule>
    ensures { result ≡ over_rule flow command given.0 given.1 conn.now }
{
    let (messages, bits) = given;
    if !flow.sent && (messages > conn.messages || bits > conn.bits) {
        Some(Rule::RetOver {
            command,
            messages: conn.messages,
            bits: conn.bits,
        })
    } else {
        None
    }
}

// The rules that a RET's numbers break on an open connection.
fn returned_rules(
    flow: ObservedFlow,
    command: &Command,
    given: (u32, u32),
    conn: &ConnState,
    conn_tables: &ConnTables,
) -> Numbers
    ensures { both_rules result ≡ returned_rules flow command.now given.0 given.1 conn.now conn_tables.now.pending_replies }
{
    if !conn_tables.is_wanted(flow, command) {
        return Numbers::none();
    }
    let wanted = numbers_due(flow, command, conn_tables.pending_replies());
    Numbers {
        first: other_rule(flow, *command, given, wanted),
        second: over_rule(flow, *command, given, conn),
    }
}

// The rules that a RET's numbers break. No rule if the tables are marked as full.
fn number_rules(flow: ObservedFlow, command: &Command, conn_tables: &ConnTables) -> Numbers
    ensures { both_rules result ≡ judged_rules conn_tables.now (number_rules flow command.now conn_tables.now) }
{
    let Command::Ret {
        link,
        messages,
        bits,
    } = *command
    else {
        return Numbers::none();
    };
    if conn_tables.is_full() {
        return Numbers::none();
    }
    match target_on(flow, from_sender(flow, link), conn_tables) {
        LinkTarget::Open(place) => {
            let given = (u32::from(messages), bits);
            returned_rules(
                flow,
                command,
                given,
                &conn_tables.conn_at(place),
                conn_tables,
            )
        }
        _ => Numbers::none(),
    }
}

// ---- ERR

// The second code that an ERR about a command may have: erroneous parameters for ALL and RET.
fn other_code(command: &Command) -> u8
    ensures { result ≡ other_code command.now }
{
    match *command {
        Command::All { .. } | Command::Ret { .. } => ERRONEOUS_PARAMETERS,
        _ => SOCKET_NOT_CONNECTED,
    }
}

// Admits an ERR about a command.
fn admits_error(flow: ObservedFlow, command: &Command, conn_tables: &mut ConnTables)
    ensures { conn_tables.new ≡ owes_error flow command.now false conn_tables.old }
{
    let wanted = error_wanted(SOCKET_NOT_CONNECTED, other_code(command), command);
    owes(flow, wanted, false, conn_tables);
}

// Admits an ERR about a command if it is wrong.
fn admits_error_if(wrong: bool, flow: ObservedFlow, command: &Command, conn_tables: &mut ConnTables)
    ensures { conn_tables.new ≡ owes_error_if wrong flow command.now conn_tables.old }
{
    if wrong {
        admits_error(flow, command, conn_tables);
    }
}

// ---- ALL

// The host's allocation after an ALL. Unchanged if either number would exceed its maximum.
fn granted_here(messages: u16, bits: u32, conn: ConnState) -> ConnState
    ensures { result ≡ granted_here messages bits conn }
{
    let all_messages = u64::from(conn.messages) + u64::from(messages);
    let all_bits = u64::from(conn.bits) + u64::from(bits);
    if all_messages > u64::from(MOST_MESSAGES) || all_bits > u64::from(u32::MAX) {
        return conn;
    }
    ConnState {
        messages: conn.messages + u32::from(messages),
        bits: conn.bits + bits,
        ..conn
    }
}

// The peer's largest possible allocation after an ALL.
fn granted_there(messages: u16, bits: u32, conn: ConnState) -> ConnState
    ensures { result ≡ granted_there messages bits conn }
{
    let (messages, bits) = allowed_after(&conn, messages, bits);
    ConnState {
        messages,
        bits,
        ..conn
    }
}

// Applies an ALL to an open connection.
fn after_all(
    flow: ObservedFlow,
    command: &Command,
    given: (u16, u32),
    place: usize,
    conn_tables: &mut ConnTables,
)
    requires { place < length conn_tables.old.conns }
    ensures { conn_tables.new ≡ after_allocation flow command.now given.0 given.1 place conn_tables.old }
{
    let conn = conn_tables.conn_at(place);
    let now = if flow.sent {
        granted_there(given.0, given.1, conn)
    } else {
        granted_here(given.0, given.1, conn)
    };
    conn_tables.put_conn(Some(place), now);
    let (messages, bits) = allowed_after(&conn, given.0, given.1);
    let over = limit_rule(*command, messages, bits).is_some();
    admits_error_if(over, flow, command, conn_tables);
}

// ---- GVB

// The RET that a GVB asks for, computed from the connection's allocation.
fn asked_back(asked: (u8, u8, u8), conn: &ConnState) -> ExpectedReply
    ensures { result ≡ asked_back asked.0 asked.1 asked.2 conn.now }
{
    ExpectedReply::Return {
        link: asked.0,
        messages: part_returned(conn.messages, asked.1),
        bits: part_returned(conn.bits, asked.2),
    }
}

// The connection after a GVB. If the host is the sender, the amount asked back is deducted now.
fn recalled(flow: ObservedFlow, asked: (u8, u8, u8), conn: ConnState) -> ConnState
    ensures { result ≡ recalled flow asked.1 asked.2 conn }
{
    if flow.sent {
        return ConnState {
            recall: true,
            ..conn
        };
    }
    ConnState {
        recall: true,
        messages: conn.messages - part_returned(conn.messages, asked.1),
        bits: conn.bits - part_returned(conn.bits, asked.2),
        ..conn
    }
}

// Expects a RET, unless the sender has closed.
fn owes_return(
    flow: ObservedFlow,
    kept: &SentMessages,
    asked: (u8, u8, u8),
    conn: &ConnState,
    conn_tables: &mut ConnTables,
)
    ensures { conn_tables.new ≡ owes_return flow kept.now asked.0 asked.1 asked.2 conn.now conn_tables.old }
{
    if conn.has_left(!flow.sent) {
        return;
    }
    let mandatory = !flow.sent && !is_link_busy(flow.at, flow.peer, Some(asked.0), kept);
    owes(flow, asked_back(asked, conn), mandatory, conn_tables);
}

fn after_gvb(
    judge_context: JudgeContext<'_>,
    command: &Command,
    asked: (u8, u8, u8),
    place: usize,
    conn_tables: &mut ConnTables,
)
    requires { place < length conn_tables.old.conns }
    ensures { conn_tables.new ≡ tables_after_gvb judge_context.entry command.now asked.0 asked.1 asked.2 place conn_tables.old }
{
    let conn = conn_tables.conn_at(place);
    admits_error_if(conn.recall, judge_context.flow, command, conn_tables);
    conn_tables.put_conn(Some(place), recalled(judge_context.flow, asked, conn));
    owes_return(
        judge_context.flow,
        judge_context.kept,
        asked,
        &conn,
        conn_tables,
    );
}

// ---- RET

// The connection after a RET. If the peer is the sender, the amount is deducted now; the host's was
// deducted at the GVB.
fn returned(flow: ObservedFlow, given: (u32, u32), conn: ConnState) -> ConnState
    ensures { result ≡ with_return flow given.0 given.1 conn }
{
    if flow.sent {
        return ConnState {
            recall: false,
            ..conn
        };
    }
    ConnState {
        recall: false,
        messages: conn.messages.saturating_sub(given.0),
        bits: conn.bits.saturating_sub(given.1),
        ..conn
    }
}

// Suspends the link if `over`: the peer returned more than it can have, so an ALL of the host may
// be queued.
fn suspended_if(
    over: bool,
    flow: ObservedFlow,
    receive_link: ReceiveLink,
    conn_tables: &mut ConnTables,
)
    ensures { conn_tables.new ≡ suspended_if over flow receive_link conn_tables.old }
{
    if over {
        conn_tables.rest_receive_link(flow.at, flow.peer, receive_link);
    }
}

// Suspends a connection.
fn rest_conn(flow: ObservedFlow, place: usize, conn_tables: &mut ConnTables)
    requires { place < length conn_tables.old.conns }
    ensures { conn_tables.new ≡ suspended_conn flow place conn_tables.old }
{
    let conn = conn_tables.conn_at(place);
    conn_tables.rest_pair(flow.at, flow.peer, conn.local, conn.remote);
}

// Applies an expected RET.
fn after_wanted_ret(
    flow: ObservedFlow,
    command: &Command,
    given: (u32, u32),
    target: (ReceiveLink, usize),
    conn_tables: &mut ConnTables,
)
    requires { target.1 < length conn_tables.old.conns }
    ensures { conn_tables.new ≡ after_wanted_ret flow command.now target.0 given.0 given.1 target.1 conn_tables.old }
{
    let (receive_link, place) = target;
    let conn = conn_tables.conn_at(place);
    let wrong = returned_rules(flow, command, given, &conn, conn_tables).is_any();
    let over = over_rule(flow, *command, given, &conn).is_some();
    after_reply(flow, command, conn_tables);
    conn_tables.put_conn(Some(place), returned(flow, given, conn));
    suspended_if(over, flow, receive_link, conn_tables);
    admits_error_if(wrong, flow, command, conn_tables);
}

// Applies a RET.
fn after_ret(
    flow: ObservedFlow,
    command: &Command,
    given: (u32, u32),
    target: (ReceiveLink, usize),
    conn_tables: &mut ConnTables,
)
    requires { target.1 < length conn_tables.old.conns }
    ensures { conn_tables.new ≡ after_ret flow command.now target.0 given.0 given.1 target.1 conn_tables.old }
{
    if conn_tables.is_wanted(flow, command) {
        after_wanted_ret(flow, command, given, target, conn_tables);
    } else {
        rest_conn(flow, target.1, conn_tables);
        admits_error(flow, command, conn_tables);
    }
}

// ---- the effect of a command that names a link

fn after_open(
    judge_context: JudgeContext<'_>,
    command: &Command,
    receive_link: ReceiveLink,
    place: usize,
    conn_tables: &mut ConnTables,
)
    requires { place < length conn_tables.old.conns }
    ensures { conn_tables.new ≡ after_open judge_context.entry.flow judge_context.entry.kept.now command.now receive_link place conn_tables.old }
{
    let flow = judge_context.flow;
    match *command {
        Command::All { messages, bits, .. } => {
            after_all(flow, command, (messages, bits), place, conn_tables);
        }
        Command::Gvb { link, fm, fb } => {
            after_gvb(judge_context, command, (link, fm, fb), place, conn_tables);
        }
        Command::Ret { messages, bits, .. } => {
            let given = (u32::from(messages), bits);
            after_ret(flow, command, given, (receive_link, place), conn_tables);
        }
        _ => {}
    }
}

// Applies a command that names a link, by its target.
fn after_led(
    judge_context: JudgeContext<'_>,
    command: &Command,
    receive_link: ReceiveLink,
    target: LinkTarget,
    conn_tables: &mut ConnTables,
)
    requires { IfSome (index_of_target target) (λ p. p < length conn_tables.old.conns) }
    ensures { conn_tables.new ≡ demuxed_after judge_context.entry.flow judge_context.entry.kept.now command.now receive_link conn_tables.old target }
{
    let flow = judge_context.flow;
    let receives = speaks_receiver(flow, receive_link);
    match target {
        LinkTarget::Open(place) => {
            after_open(judge_context, command, receive_link, place, conn_tables);
            return;
        }
        LinkTarget::Nobody => {
            if receives {
                owes(
                    flow,
                    error_wanted(SOCKET_NOT_CONNECTED, SOCKET_NOT_CONNECTED, command),
                    true,
                    conn_tables,
                );
                return;
            }
            conn_tables.rest_receive_link(flow.at, flow.peer, receive_link);
        }
        LinkTarget::Closed => {
            if !receives {
                conn_tables.rest_receive_link(flow.at, flow.peer, receive_link);
            }
        }
        LinkTarget::Unasked(place) => {
            if receives {
                rest_conn(flow, place, conn_tables);
            }
        }
        LinkTarget::Rests => {}
    }
    admits_error(flow, command, conn_tables);
}

/// Judges a command that names a link: reports the rule that it breaks, then applies it.
pub(crate) fn judge_link(
    judge_context: JudgeContext<'_>,
    command: &Command,
    receive_link: ReceiveLink,
    conn_tables: &mut ConnTables,
    found: &mut Findings,
)
    requires { length found.old < MAX_FINDINGS }
    ensures conn_tables { conn_tables.new ≡ tables_after_link judge_context.entry command.now receive_link conn_tables.old }
    ensures found { found.new ≡ found.old ++ found_link judge_context.entry command.now receive_link conn_tables.old }
    ensures len { length found.new ≤ length found.old + 1 }
{
    let target = target_on(judge_context.flow, receive_link, conn_tables);
    report_some(
        judge_context,
        demuxed_rule(judge_context.flow, command, target, conn_tables),
        conn_tables,
        found,
    );
    after_led(judge_context, command, receive_link, target, conn_tables);
}

/// Judges a RET on a link: reports the rules that it breaks, then applies it.
pub(crate) fn judge_ret(
    judge_context: JudgeContext<'_>,
    command: &Command,
    link: u8,
    conn_tables: &mut ConnTables,
    found: &mut Findings,
)
    requires { length found.old + 3 ≤ MAX_FINDINGS }
    ensures conn_tables { conn_tables.new ≡ tables_after_link judge_context.entry command.now (from_sender judge_context.entry.flow link) conn_tables.old }
    ensures found { found.new ≡ found.old ++ found_ret judge_context.entry command.now link conn_tables.old }
    ensures len { length found.new ≤ length found.old + 3 }
{
    let wrong = number_rules(judge_context.flow, command, conn_tables);
    let receive_link = from_sender(judge_context.flow, link);
    judge_link(judge_context, command, receive_link, conn_tables, found);
    report_numbers(&judge_context.context, wrong, found);
}

/// Drops the pending RETs of a sender that sends its CLS.
pub(crate) fn ends_returns(flow: ObservedFlow, conn: ConnState, conn_tables: &mut ConnTables)
    ensures { conn_tables.new ≡ ends_returns flow (Some conn) conn_tables.old }
{
    if is_senders(conn.local) == flow.sent {
        if let Some(link) = conn.link {
            conn_tables.drop_returns(flow.at, flow.peer, flow.sent, link);
        }
    }
}

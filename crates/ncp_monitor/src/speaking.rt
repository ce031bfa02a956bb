//! The rules of commands between two hosts that are up with each other, and the effect of these
//! commands.
ghost use Rattle.std.specs.Prelude.{◌≡◌, ◌<◌, ◌≤◌, ◌+◌, ◌++◌, Some, length, IfSome};
ghost use Rattle.std.specs.List.{position};
ghost use Rattle.ncp_monitor.specs.declared.findings.TheConstants.{MAX_FINDINGS};
ghost use Rattle.ncp_monitor.specs.JudgeContexts.{after_cls_about};
ghost use Rattle.ncp_monitor.specs.Speaking.{is_asking, after_eco, answers_echo, after_reply, after_right_cls, tables_after_command, after_spoken, lacks_cls, is_owed, reply_left_out, cls_left_out};
ghost use Rattle.ncp_monitor.specs.Reporting.{found_asking, tables_asked, found_cls, found_eco, found_reply, found_command, found_spoken};

use crate::allocation::{ends_returns, from_receiver, from_sender, judge_link, judge_ret};
use crate::conn_state::{ConnState, FactKind};
use crate::conn_tables::ConnTables;
use crate::finding::Rule;
use crate::findings::Findings;
use crate::observed_flow::{About, Acceptance, ObservedFlow};
use crate::pending_reply::{ExpectedReply, PendingReply};
use crate::reply::{fault_wanted, owes};
use crate::reporting::{report_acceptance, tell};
use crate::request::{
    Asking, after_cls, after_request, cls_acceptance, is_link_busy, out_rule, request_acceptance,
};
use crate::talked::JudgeContext;
use crate::texts::{is_admitted, text_left_out};
use ncp_interface::{Request, SentMessages, is_of_sexes, is_senders};
use ncp_wire::{Command, CommandFault};

// ---- requests and CLS

// Judges a request: reports the rule that it breaks, then applies it.
fn judge_request(
    judge_context: JudgeContext<'_>,
    asking: Asking,
    conn_tables: &mut ConnTables,
    found: &mut Findings,
)
    requires { length found.old < MAX_FINDINGS }
    ensures conn_tables { conn_tables.new ≡ tables_asked judge_context.entry asking conn_tables.old }
    ensures found { found.new ≡ found.old ++ found_asking judge_context.entry asking conn_tables.old }
    ensures len { length found.new ≤ length found.old + 1 }
{
    let flow = judge_context.flow;
    let About { local, remote, .. } = asking.about;
    let place = conn_tables.index_of_pair(flow.at, flow.peer, local, remote);
    let acceptance = request_acceptance(flow, asking, conn_tables.conn_found(place), conn_tables);
    report_acceptance(judge_context, acceptance, conn_tables, found);
    after_request(flow, asking, place, acceptance, conn_tables);
}

// The effect of an accepted CLS besides closing its side: a sender no longer owes a RET, and the
// host's outstanding text may find no connection.
fn closes(
    flow: ObservedFlow,
    kept: &SentMessages,
    conn: Option<ConnState>,
    acceptance: Acceptance,
    conn_tables: &mut ConnTables,
)
    ensures { conn_tables.new ≡ after_right_cls flow kept.now conn acceptance conn_tables.old }
{
    if let (Acceptance::Right, Some(conn)) = (acceptance, conn) {
        text_left_out(flow, kept, conn, conn_tables);
        ends_returns(flow, conn, conn_tables);
    }
}

// Judges a CLS: reports the rule that it breaks, then applies it.
fn judge_cls(
    judge_context: JudgeContext<'_>,
    about: About,
    conn_tables: &mut ConnTables,
    found: &mut Findings,
)
    requires { length found.old < MAX_FINDINGS }
    ensures conn_tables { conn_tables.new ≡ after_cls_about judge_context.entry.flow judge_context.entry.kept.now about conn_tables.old }
    ensures found { found.new ≡ found.old ++ found_cls judge_context.entry about conn_tables.old }
    ensures len { length found.new ≤ length found.old + 1 }
{
    let flow = judge_context.flow;
    let place = conn_tables.index_of_pair(flow.at, flow.peer, about.local, about.remote);
    let conn = conn_tables.conn_found(place);
    let acceptance = cls_acceptance(flow, about, conn);
    match acceptance {
        Acceptance::Right => {
            if let Some(rule) = out_rule(
                flow,
                about.command,
                judge_context.kept,
                conn_tables,
                conn,
            ) {
                tell(judge_context, rule, conn_tables, found);
            }
        }
        Acceptance::Refused(_) | Acceptance::Unclear(_) => report_acceptance(
            judge_context,
            acceptance,
            conn_tables,
            found,
        ),
    }
    after_cls(flow, about, place, acceptance, conn_tables);
    closes(flow, judge_context.kept, conn, acceptance, conn_tables);
}

// ---- echoes

// Whether an ECO of the source has no ERP yet.
fn is_asking(flow: ObservedFlow, conn_tables: &ConnTables) -> bool
    ensures { result ≡ is_asking flow conn_tables.now }
{
    conn_tables.is_marked(flow.at, flow.peer, FactKind::Asks { host: flow.sent })
        && !conn_tables.is_marked(flow.at, flow.peer, FactKind::EchoesRest { host: flow.sent })
}

// Judges an ECO: reports the rule that it breaks, then applies it.
fn judge_eco(
    judge_context: JudgeContext<'_>,
    byte: u8,
    conn_tables: &mut ConnTables,
    found: &mut Findings,
)
    requires { length found.old < MAX_FINDINGS }
    ensures conn_tables { conn_tables.new ≡ after_eco judge_context.entry.flow byte conn_tables.old }
    ensures found { found.new ≡ found.old ++ found_eco judge_context.entry byte conn_tables.old }
    ensures len { length found.new ≤ length found.old + 1 }
{
    let flow = judge_context.flow;
    if is_asking(flow, conn_tables) {
        tell(judge_context, Rule::EcoAgain { byte }, conn_tables, found);
    }
    conn_tables.known_fact(flow.at, flow.peer, FactKind::Asks { host: flow.sent });
    owes(flow, ExpectedReply::Echo(byte), true, conn_tables);
}

/// An ERP answers the other side's ECO, regardless of its byte.
pub(crate) fn answers_echo(flow: ObservedFlow, conn_tables: &mut ConnTables)
    ensures { conn_tables.new ≡ answers_echo flow conn_tables.old }
{
    let host = !flow.sent;
    if conn_tables.is_marked(flow.at, flow.peer, FactKind::Asks { host }) {
        conn_tables.unmark(flow.at, flow.peer, FactKind::Asks { host });
    } else {
        conn_tables.known_fact(flow.at, flow.peer, FactKind::EchoesRest { host });
    }
}

// ---- replies

// Judges a reply: reports that it skips a mandatory one, or that nothing asked for it, then applies
// it.
fn judge_answer(
    judge_context: JudgeContext<'_>,
    reply: &Command,
    unasked: Rule,
    conn_tables: &mut ConnTables,
    found: &mut Findings,
)
    requires { length found.old < MAX_FINDINGS }
    ensures conn_tables { conn_tables.new ≡ after_reply judge_context.entry.flow reply.now conn_tables.old }
    ensures found { found.new ≡ found.old ++ found_reply judge_context.entry reply.now unasked conn_tables.old }
    ensures len { length found.new ≤ length found.old + 1 }
{
    let flow = judge_context.flow;
    if !conn_tables.is_wanted(flow, reply) {
        tell(judge_context, unasked, conn_tables, found);
        return;
    }
    if let Some(command) = conn_tables.skipped(flow, reply) {
        tell(judge_context, Rule::Skipped { command }, conn_tables, found);
    }
    conn_tables.strike(flow, reply);
}

// ---- commands, and faults of a control text

// Judges a command: reports the rules that it breaks, then applies it.
fn judge_command(
    judge_context: JudgeContext<'_>,
    command: &Command,
    conn_tables: &mut ConnTables,
    found: &mut Findings,
)
    requires { length found.old + 3 ≤ MAX_FINDINGS }
    ensures conn_tables { conn_tables.new ≡ tables_after_command judge_context.entry.flow judge_context.entry.kept.now command.now conn_tables.old }
    ensures found { found.new ≡ found.old ++ found_command judge_context.entry command.now conn_tables.old }
    ensures len { length found.new ≤ length found.old + 3 }
{
    let flow = judge_context.flow;
    match *command {
        Command::Rts {
            receive,
            send,
            link,
        } => judge_request(
            judge_context,
            Asking {
                about: flow.about(command, receive, send),
                right: is_of_sexes(receive, send),
                request: Request::Link(link),
            },
            conn_tables,
            found,
        ),
        Command::Str {
            send,
            receive,
            size,
        } => judge_request(
            judge_context,
            Asking {
                about: flow.about(command, send, receive),
                right: is_of_sexes(receive, send),
                request: Request::Size(size),
            },
            conn_tables,
            found,
        ),
        Command::Cls { my, your } => judge_cls(
            judge_context,
            flow.about(command, my, your),
            conn_tables,
            found,
        ),
        Command::Eco { byte } => judge_eco(judge_context, byte, conn_tables, found),
        Command::Erp { byte } => {
            judge_answer(
                judge_context,
                command,
                Rule::ErpUnasked { byte },
                conn_tables,
                found,
            );
            answers_echo(flow, conn_tables);
        }
        Command::Err { code, bytes } => {
            if !is_admitted(flow, code, bytes, conn_tables) {
                let unjust = Rule::ErrUnjust { code, bytes };
                judge_answer(judge_context, command, unjust, conn_tables, found);
            }
        }
        Command::All { link, .. } => {
            judge_link(
                judge_context,
                command,
                from_receiver(flow, link),
                conn_tables,
                found,
            );
        }
        Command::Gvb { link, .. } => {
            judge_link(
                judge_context,
                command,
                from_receiver(flow, link),
                conn_tables,
                found,
            );
        }
        Command::Ret { link, .. } => judge_ret(judge_context, command, link, conn_tables, found),
        Command::Inr { link } => {
            judge_link(
                judge_context,
                command,
                from_receiver(flow, link),
                conn_tables,
                found,
            );
        }
        Command::Ins { link } => {
            judge_link(
                judge_context,
                command,
                from_sender(flow, link),
                conn_tables,
                found,
            );
        }
        Command::Nop | Command::Rst | Command::Rrp => {}
    }
}

/// Judges an item of a control text: reports the rules that a command breaks, then applies the
/// item. A fault is answered by an ERR with its code and bytes.
pub(crate) fn judge_spoken(
    judge_context: JudgeContext<'_>,
    item: &Result<Command, CommandFault>,
    conn_tables: &mut ConnTables,
    found: &mut Findings,
)
    requires { length found.old + 3 ≤ MAX_FINDINGS }
    ensures conn_tables { conn_tables.new ≡ after_spoken judge_context.entry.flow judge_context.entry.kept.now item.now conn_tables.old }
    ensures found { found.new ≡ found.old ++ found_spoken judge_context.entry item.now conn_tables.old }
    ensures len { length found.new ≤ length found.old + 3 }
{
    match item {
        Ok(command) => judge_command(judge_context, command, conn_tables, found),
        Err(fault) => owes(judge_context.flow, fault_wanted(fault), true, conn_tables),
    }
}

// ---- commands that a host left out

// Whether the host has to send a CLS: the peer has closed, and no text of the host is outstanding
// (as a sender) or none has arrived (as a receiver).
fn lacks_cls(at: u8, peer: u8, kept: &SentMessages, conn: &ConnState) -> bool
    ensures { result ≡ lacks_cls at peer kept.now conn.now }
{
    if !conn.peer_left {
        return false;
    }
    conn.at == at
        && conn.peer == peer
        && !conn.suspended
        && !conn.host_left
        && if is_senders(conn.local) {
            !is_link_busy(at, peer, conn.link, kept)
        } else {
            !conn.came
        }
}

// Whether the host owes this reply.
fn is_owed(at: u8, peer: u8, due: &PendingReply) -> bool
    ensures { result ≡ is_owed at peer due.now }
{
    due.is_of(at, peer, true) && due.mandatory
}

// The index of the first reply in a list that the host owes.
fn owed_in(at: u8, peer: u8, pending_replies: &[PendingReply]) -> Option<usize>
    ensures index { result ≡ position (is_owed at peer) pending_replies.now }
    ensures inside { IfSome result (λ place. place < length pending_replies.now) }
{
    pending_replies
        .iter()
        .position(|due| is_owed(at, peer, due))
}

// The index of the first connection in a list for which the host has to send a CLS.
fn lacking_in(at: u8, peer: u8, kept: &SentMessages, conns: &[ConnState]) -> Option<usize>
    ensures index { result ≡ position (lacks_cls at peer kept.now) conns.now }
    ensures inside { IfSome result (λ place. place < length conns.now) }
{
    conns
        .iter()
        .position(|conn| lacks_cls(at, peer, kept, conn))
}

/// The first reply that the host owes.
pub(crate) fn reply_left_out(at: u8, peer: u8, conn_tables: &ConnTables) -> Option<Command>
    ensures { result ≡ reply_left_out at peer conn_tables.now }
{
    match owed_in(at, peer, conn_tables.pending_replies()) {
        Some(place) => Some(conn_tables.pending_replies()[place].wanted.reply()),
        None => None,
    }
}

/// The first CLS that the host has to send.
pub(crate) fn cls_left_out(
    at: u8,
    peer: u8,
    kept: &SentMessages,
    conn_tables: &ConnTables,
) -> Option<Command>
    ensures { result ≡ cls_left_out at peer kept.now conn_tables.now }
{
    match lacking_in(at, peer, kept, conn_tables.conns()) {
        Some(place) => {
            let conn = conn_tables.conns()[place];
            Some(Command::Cls {
                my: conn.local,
                your: conn.remote,
            })
        }
        None => None,
    }
}

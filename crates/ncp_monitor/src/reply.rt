//! Replies: which are owed or admitted, and the effect of a given reply.
ghost use Rattle.std.specs.Prelude.{◌≡◌, map};
ghost use Rattle.ncp_monitor.specs.Replies.{owes, error_wanted, fault_wanted, is_own, answers, is_wanted, skipped, fits_sure, optional, reply_rule, after_reply};

use crate::conn_tables::ConnTables;
use crate::finding::Rule;
use crate::observed_flow::ObservedFlow;
use crate::pending_reply::{ExpectedReply, PendingReply};
use ncp_wire::{Command, CommandFault, ERROR_DATA, error_for};

/// Records that the destination of `flow` owes a reply (`mandatory`) or may give one.
pub(crate) fn owes(
    flow: ObservedFlow,
    wanted: ExpectedReply,
    mandatory: bool,
    conn_tables: &mut ConnTables,
)
    ensures { conn_tables.new ≡ owes flow wanted mandatory conn_tables.old }
{
    conn_tables.push_due(PendingReply {
        at: flow.at,
        peer: flow.peer,
        host: !flow.sent,
        wanted,
        mandatory,
    });
}

/// The ERR expected about a command, with one of two codes.
pub(crate) fn error_wanted(code: u8, or: u8, command: &Command) -> ExpectedReply
    ensures { result ≡ error_wanted code or command.now }
{
    match error_for(code, command) {
        Command::Err { bytes, .. } => ExpectedReply::Error { code, or, bytes },
        _ => ExpectedReply::Error {
            code,
            or,
            bytes: [0; ERROR_DATA],
        },
    }
}

/// The ERR expected about a fault of a control text.
pub(crate) fn fault_wanted(fault: &CommandFault) -> ExpectedReply
    ensures { result ≡ fault_wanted fault.now }
{
    ExpectedReply::Error {
        code: fault.code,
        or: fault.code,
        bytes: fault.bytes,
    }
}

/// Whether `due` is a pending reply of the source that `reply` fits.
pub(crate) fn answers(flow: ObservedFlow, reply: &Command, due: &PendingReply) -> bool
    ensures { result ≡ answers (is_own flow) reply.now due.now }
{
    due.is_own(flow) && due.wanted.fits(reply)
}

/// Whether a reply fits one that is owed or admitted.
pub(crate) fn is_wanted(
    flow: ObservedFlow,
    reply: &Command,
    pending_replies: &[PendingReply],
) -> bool
    ensures { result ≡ is_wanted (is_own flow) reply.now pending_replies.now }
{
    pending_replies.iter().any(|due| answers(flow, reply, due))
}

/// The first mandatory reply that this one skips.
pub(crate) fn skipped(
    flow: ObservedFlow,
    reply: &Command,
    pending_replies: &[PendingReply],
) -> Option<Command>
    ensures { result ≡ skipped (is_own flow) reply.now pending_replies.now }
{
    for due in pending_replies {
        if answers(flow, reply, due) {
            return None;
        }
        if due.is_own(flow) && due.mandatory {
            return Some(due.wanted.reply());
        }
    }
    None
}

/// Whether the first pending reply that this one fits is mandatory; true if it fits none.
pub(crate) fn fits_sure(
    flow: ObservedFlow,
    reply: &Command,
    pending_replies: &[PendingReply],
) -> bool
    ensures { result ≡ fits_sure (is_own flow) reply.now pending_replies.now }
{
    for due in pending_replies {
        if answers(flow, reply, due) {
            return due.mandatory;
        }
    }
    true
}

impl PendingReply {
    // Makes this reply optional if `reply` fits it: the same contents may have been meant for a
    // later one.
    fn doubt(&mut self, flow: ObservedFlow, reply: &Command)
        ensures { self.new ≡ optional (is_own flow) reply.now self.old }
    {
        if answers(flow, reply, self) {
            self.mandatory = false;
        }
    }
}

/// Makes each pending reply that `reply` fits optional.
pub(crate) fn make_unsure(flow: ObservedFlow, reply: &Command, pending_replies: &mut [PendingReply])
    ensures { pending_replies.new ≡ map (optional (is_own flow) reply.now) pending_replies.old }
{
    for due in pending_replies.iter_mut() {
        due.doubt(flow, reply);
    }
}

/// The rule that a reply breaks: `Skipped`, if it passes over a mandatory one, or `unasked`, if
/// nothing asked for it.
pub(crate) fn reply_rule(
    flow: ObservedFlow,
    reply: &Command,
    unasked: Rule,
    conn_tables: &ConnTables,
) -> Option<Rule>
    ensures { result ≡ reply_rule flow reply.now unasked conn_tables.now }
{
    if !conn_tables.is_wanted(flow, reply) {
        return Some(unasked);
    }
    match conn_tables.skipped(flow, reply) {
        Some(command) => Some(Rule::Skipped { command }),
        None => None,
    }
}

/// Applies a reply.
pub(crate) fn after_reply(flow: ObservedFlow, reply: &Command, conn_tables: &mut ConnTables)
    ensures { conn_tables.new ≡ after_reply flow reply.now conn_tables.old }
{
    if conn_tables.is_wanted(flow, reply) {
        conn_tables.strike(flow, reply);
    }
}

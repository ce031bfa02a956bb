//! The items of a control text by the rules of commands between hosts that are up: which items are
//! judged, and their effect.
ghost use Rattle.std.specs.Prelude.{◌≡◌, ◌<◌, ◌≤◌, ◌+◌, ◌++◌, length};
ghost use Rattle.ncp_monitor.specs.declared.finding.ItemKind.TheVariants.{Text};
ghost use Rattle.ncp_monitor.specs.declared.findings.TheConstants.{MAX_FINDINGS};
ghost use Rattle.ncp_monitor.specs.Phases.{after_thing, after_room};
ghost use Rattle.ncp_monitor.specs.Speaking.{after_all_said};
ghost use Rattle.ncp_monitor.specs.Talked.{observed_flow_of, reaches, act_reaches, clears, missing, after_left_out, after_talked_text};
ghost use Rattle.ncp_monitor.specs.Reporting.{found_missing, found_left_out, found_text, tables_after_talked_text};

use crate::act::Act;
use crate::conn_tables::ConnTables;
use crate::finding::{Finding, ItemKind, Rule};
use crate::findings::Findings;
use crate::observed_flow::ObservedFlow;
use crate::phase::{
    MessageContext, hears_reset, is_acted_on, is_early, judge_thing, missing_finding,
};
use crate::speaking::{cls_left_out, reply_left_out};
use crate::texts::judge_text;
use crate::view::{View, Wait};
use ncp_interface::SentMessages;
use ncp_leader::Regular;
use ncp_wire::Command;

/// The context in which items are judged: their message, its flow, and the outstanding messages of
/// all hosts.
#[derive(Clone, Copy, Drop)]
pub(crate) struct JudgeContext<'a> {
    /// The context of the message.
    pub context: MessageContext,
    /// The flow of its items.
    pub flow: ObservedFlow,
    /// The messages that are outstanding or to be sent again.
    pub kept: &'a SentMessages,
}

/// The flow of a message.
pub(crate) fn observed_flow_of(at: u8, peer: u8, context: &MessageContext) -> ObservedFlow
    ensures { result ≡ observed_flow_of at peer context.now }
{
    ObservedFlow {
        at,
        peer,
        sent: context.sent,
    }
}

// Whether an item is judged: it is not early, or the host acts on it before its RRP; the session is
// not suspended; and the host does not drop it while it awaits an RRP.
fn reaches(context: &MessageContext, thing: ItemKind, view: &View) -> bool
    ensures { result ≡ reaches context.now thing view.now }
{
    view.told
        && (!is_early(context, thing, view) || is_acted_on(context, view))
        && !view.suspended
        && (context.sent || !view.host.wait.is_waiting())
}

/// Whether an item, by how it affects the phase, is judged.
pub(crate) fn act_reaches(context: &MessageContext, act: Act, view: &View) -> bool
    ensures { result ≡ act_reaches context.now act view.now }
{
    match act {
        Act::Reset | Act::Reply => false,
        Act::Other(thing) => reaches(context, thing, view),
    }
}

/// Whether an item makes the monitor forget the tables of the two hosts.
pub(crate) fn clears(context: &MessageContext, act: Act, view: &View) -> bool
    ensures { result ≡ clears context.now act view.now }
{
    match act {
        Act::Reset => hears_reset(context, view)
            && (!context.sent || view.host.wait.more().is_waiting()),
        Act::Reply | Act::Other(_) => false,
    }
}

/// Judges a text of a connection.
pub(crate) fn judge_talked_text(
    judge_context: JudgeContext<'_>,
    regular: &Regular<'_>,
    view: &mut View,
    conn_tables: &mut ConnTables,
    found: &mut Findings,
)
    requires { length found.old + 3 ≤ MAX_FINDINGS }
    ensures view { view.new ≡ after_thing judge_context.entry.context Text view.old }
    ensures conn_tables { conn_tables.new ≡ tables_after_talked_text judge_context.entry regular.now view.old conn_tables.old }
    ensures found { found.new ≡ found.old ++ found_text judge_context.entry regular.now view.old conn_tables.old }
{
    let reached = reaches(&judge_context.context, ItemKind::Text, view);
    judge_thing(&judge_context.context, ItemKind::Text, view, found);
    if reached {
        judge_text(judge_context, regular, conn_tables, found);
    }
}

// A finding that the host left out a command.
fn missing(context: &MessageContext, command: Option<Command>) -> Option<Finding>
    ensures { result ≡ missing context.now command }
{
    match command {
        Some(command) => Some(context.finding(Rule::Missing { command })),
        None => None,
    }
}

// Reports the reply and the CLS that the host left out. After that no reply of the host is queued.
fn report_omitted(
    judge_context: JudgeContext<'_>,
    conn_tables: &mut ConnTables,
    found: &mut Findings,
)
    requires { length found.old + 2 ≤ MAX_FINDINGS }
    ensures conn_tables { conn_tables.new ≡ after_all_said judge_context.entry.flow.at judge_context.entry.flow.peer conn_tables.old }
    ensures found { found.new ≡ found.old ++ found_missing judge_context.entry conn_tables.old }
{
    let ObservedFlow { at, peer, .. } = judge_context.flow;
    found.push_some(missing(
        &judge_context.context,
        reply_left_out(at, peer, conn_tables),
    ));
    found.push_some(missing(
        &judge_context.context,
        cls_left_out(at, peer, judge_context.kept, conn_tables),
    ));
    conn_tables.all_said(at, peer);
}

/// Judges what a host left out of a control text, if that has `room` for one more command, and
/// updates the view and the tables.
pub(crate) fn judge_left_out(
    judge_context: JudgeContext<'_>,
    room: bool,
    view: &mut View,
    conn_tables: &mut ConnTables,
    found: &mut Findings,
)
    requires { length found.old + 3 ≤ MAX_FINDINGS }
    ensures view { view.new ≡ after_room judge_context.entry.context room view.old }
    ensures conn_tables { conn_tables.new ≡ after_left_out judge_context.entry.context judge_context.entry.flow room view.old conn_tables.old }
    ensures found { found.new ≡ found.old ++ found_left_out judge_context.entry room view.old conn_tables.old }
{
    if !judge_context.context.sent || !room {
        return;
    }
    if view.told {
        found.push_some(missing_finding(&judge_context.context, room, *view));
        if !view.suspended && !conn_tables.is_full() {
            report_omitted(judge_context, conn_tables, found);
        }
    }
    if !view.told || view.host.wait.is_answered() {
        view.host.wait = Wait::Even;
    }
}

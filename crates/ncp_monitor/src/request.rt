//! The rules of requests and of CLS.
ghost use Rattle.std.specs.Prelude.{◌≡◌, ◌<◌, length, IfSome};
ghost use Rattle.ncp_monitor.specs.ConnStates.{SeenTables};
ghost use Rattle.ncp_monitor.specs.Reporting.{conn_about, after_asked};
ghost use Rattle.ncp_monitor.specs.Requests.{range_rule, link_suspended, used_acceptance, link_acceptance, conn_acceptance, suspended_asked, asks, left_acceptance, is_link_busy, link_out_rule, text_out_rule, closes_side, after_cls};
ghost use Rattle.ncp_monitor.specs.JudgeContexts.{index_of_flow, acceptance_about, cls_acceptance_about};

use crate::conn_state::{ConnState, FactKind};
use crate::conn_tables::ConnTables;
use crate::finding::Rule;
use crate::link_target::ReceiveLink;
use crate::observed_flow::{About, Acceptance, ObservedFlow};
use crate::reply::{error_wanted, owes};
use ncp_interface::{Request, SentMessages, is_of_sexes, is_senders};
use ncp_wire::{Command, ERRONEOUS_PARAMETERS, FIRST_LINK, LAST_LINK, NONEXISTENT_SOCKET};

/// A request for a connection.
#[derive(Clone, Copy, Drop)]
pub(crate) struct Asking {
    /// The command, and both sockets.
    pub about: About,
    /// Whether the sockets have the sexes that the request requires.
    pub right: bool,
    /// What it requests.
    pub request: Request,
}

// The rule that a request breaks by its value: a link outside 2 to 71, or byte size 0.
fn range_rule(command: Command, request: Request) -> Option<Rule>
    ensures { result ≡ range_rule command request }
{
    match request {
        Request::Link(link) if FIRST_LINK <= link && link <= LAST_LINK => None,
        Request::Link(_) => Some(Rule::LinkRange { command }),
        Request::Size(0) => Some(Rule::SizeZero { command }),
        Request::Size(_) => None,
    }
}

// Whether the requested link is suspended.
fn link_suspended(flow: ObservedFlow, request: Request, conn_tables: &ConnTables) -> bool
    ensures { result ≡ link_suspended flow request conn_tables.now }
{
    match request {
        Request::Link(link) => conn_tables.is_marked(
            flow.at,
            flow.peer,
            FactKind::LinkSuspended {
                host: flow.sent,
                link,
            },
        ),
        Request::Size(_) => false,
    }
}

// The acceptance of a request for a link, by the connection that already has the link.
fn used_acceptance(flow: ObservedFlow, command: Command, user: Option<ConnState>) -> Acceptance
    ensures { result ≡ used_acceptance flow command user }
{
    let Some(user) = user else {
        return Acceptance::Right;
    };
    let used = Rule::LinkUsed {
        command,
        local: user.local,
        remote: user.remote,
    };
    if user.has_left(flow.sent) {
        Acceptance::Unclear(Some(used))
    } else {
        Acceptance::Refused(used)
    }
}

fn link_acceptance(
    flow: ObservedFlow,
    command: Command,
    request: Request,
    conn_tables: &ConnTables,
) -> Acceptance
    ensures { result ≡ link_acceptance flow command request conn_tables.now }
{
    match request {
        Request::Link(link) => used_acceptance(
            flow,
            command,
            conn_tables.user_of(flow.at, flow.peer, flow.sent, link),
        ),
        Request::Size(_) => Acceptance::Right,
    }
}

// The acceptance of a request with valid sockets and numbers, by its connection: whether that is
// suspended, and whether its side has sent a CLS or has already asked.
fn conn_acceptance(
    flow: ObservedFlow,
    command: Command,
    request: Request,
    conn_tables: &ConnTables,
    conn: Option<ConnState>,
) -> Acceptance
    ensures { result ≡ conn_acceptance flow command request conn_tables.now conn }
{
    let Some(conn) = conn else {
        return link_acceptance(flow, command, request, conn_tables);
    };
    if conn.suspended {
        Acceptance::Unclear(None)
    } else if conn.has_left(flow.sent) {
        Acceptance::Unclear(Some(Rule::Unended {
            command,
            since: conn.since,
        }))
    } else if conn.has_asked(request) {
        Acceptance::Refused(Rule::AskedAgain {
            command,
            since: conn.since,
        })
    } else {
        link_acceptance(flow, command, request, conn_tables)
    }
}

/// The acceptance of a request, by the connection of its two sockets.
pub(crate) fn request_acceptance(
    flow: ObservedFlow,
    asking: Asking,
    conn: Option<ConnState>,
    conn_tables: &ConnTables,
) -> Acceptance
    requires { conn ≡ conn_about flow asking.about conn_tables.now }
    ensures { result ≡ acceptance_about flow asking.about asking.right asking.request conn_tables.now }
{
    let command = asking.about.command;
    if !asking.right {
        return Acceptance::Refused(Rule::Sex { command });
    }
    if let Some(wrong) = range_rule(command, asking.request) {
        return Acceptance::Refused(wrong);
    }
    if link_suspended(flow, asking.request, conn_tables) {
        return Acceptance::Unclear(None);
    }
    conn_acceptance(flow, command, asking.request, conn_tables, conn)
}

// Suspends the requested link.
fn suspended_asked(flow: ObservedFlow, request: Request, conn_tables: &mut ConnTables)
    ensures { conn_tables.new ≡ suspended_asked flow request conn_tables.old }
{
    if let Request::Link(link) = request {
        conn_tables.rest_receive_link(
            flow.at,
            flow.peer,
            ReceiveLink {
                host: flow.sent,
                link,
            },
        );
    }
}

// Records that the side has asked.
fn asks(flow: ObservedFlow, asking: Asking, place: Option<usize>, conn_tables: &mut ConnTables)
    requires { IfSome place (λ p. p < length conn_tables.old.conns) }
    ensures { conn_tables.new ≡ asks flow asking.about.local asking.about.remote asking.request conn_tables.old place }
{
    let conn = match place {
        Some(place) => conn_tables.conn_at(place),
        None => ConnState {
            since: conn_tables.number(),
            ..ConnState::new(flow.at, flow.peer, asking.about.local, asking.about.remote)
        },
    };
    conn_tables.put_conn(place, conn.with_request(asking.request));
}

/// Applies a request, by its acceptance and the index of the connection of its two sockets.
pub(crate) fn after_request(
    flow: ObservedFlow,
    asking: Asking,
    place: Option<usize>,
    acceptance: Acceptance,
    conn_tables: &mut ConnTables,
)
    requires index { place ≡ index_of_flow flow asking.about.local asking.about.remote conn_tables.old }
    requires inside { IfSome place (λ p. p < length conn_tables.old.conns) }
    ensures { conn_tables.new ≡ after_asked flow asking acceptance conn_tables.old }
{
    let About {
        command,
        local,
        remote,
    } = asking.about;
    match acceptance {
        Acceptance::Right => asks(flow, asking, place, conn_tables),
        Acceptance::Refused(_) => owes(
            flow,
            error_wanted(ERRONEOUS_PARAMETERS, ERRONEOUS_PARAMETERS, &command),
            true,
            conn_tables,
        ),
        Acceptance::Unclear(_) => {
            conn_tables.rest_pair(flow.at, flow.peer, local, remote);
            suspended_asked(flow, asking.request, conn_tables);
            owes(
                flow,
                error_wanted(ERRONEOUS_PARAMETERS, ERRONEOUS_PARAMETERS, &command),
                false,
                conn_tables,
            );
        }
    }
}

// The acceptance of a CLS by its connection: unclear if nobody asked, the connection is suspended,
// or its side already sent one.
fn left_acceptance(flow: ObservedFlow, command: Command, conn: Option<ConnState>) -> Acceptance
    ensures { result ≡ left_acceptance flow command conn }
{
    let Some(conn) = conn else {
        return Acceptance::Unclear(Some(Rule::ClsUnknown { command }));
    };
    if conn.suspended {
        Acceptance::Unclear(None)
    } else if conn.has_left(flow.sent) {
        Acceptance::Unclear(Some(Rule::ClsAgain {
            command,
            since: conn.since,
        }))
    } else {
        Acceptance::Right
    }
}

/// The acceptance of a CLS, by the connection of its two sockets.
pub(crate) fn cls_acceptance(
    flow: ObservedFlow,
    about: About,
    conn: Option<ConnState>,
) -> Acceptance
    ensures { (conn_tables : SeenTables) → conn ≡ conn_about flow about conn_tables → result ≡ cls_acceptance_about flow about conn_tables }
{
    let command = about.command;
    if !is_of_sexes(about.local, about.remote) && !is_of_sexes(about.remote, about.local) {
        return Acceptance::Refused(Rule::Sex { command });
    }
    left_acceptance(flow, command, conn)
}

/// Whether a message of the host on a link is outstanding or to be sent again.
pub(crate) fn is_link_busy(at: u8, peer: u8, link: Option<u8>, kept: &SentMessages) -> bool
    ensures { result ≡ is_link_busy at peer link kept.now }
{
    match link {
        Some(link) => kept.is_link_busy(at, peer, link),
        None => false,
    }
}

// `TextOut`: the host closes as a sender while a text of it is outstanding.
fn link_out_rule(
    flow: ObservedFlow,
    command: Command,
    kept: &SentMessages,
    conn_tables: &ConnTables,
    link: Option<u8>,
) -> Option<Rule>
    ensures { result ≡ link_out_rule flow command kept.now conn_tables.now link }
{
    let link = link?;
    let suspended = FactKind::LinkSuspended { host: false, link };
    if kept.is_link_busy(flow.at, flow.peer, link)
        && !conn_tables.is_marked(flow.at, flow.peer, suspended)
    {
        Some(Rule::TextOut { command, link })
    } else {
        None
    }
}

/// The rule broken by a CLS that takes effect.
pub(crate) fn out_rule(
    flow: ObservedFlow,
    command: Command,
    kept: &SentMessages,
    conn_tables: &ConnTables,
    conn: Option<ConnState>,
) -> Option<Rule>
    ensures { result ≡ text_out_rule flow command kept.now conn_tables.now conn }
{
    let conn = conn?;
    if flow.sent && is_senders(conn.local) {
        link_out_rule(flow, command, kept, conn_tables, conn.link)
    } else {
        None
    }
}

// Records a side's CLS. The second one removes the connection.
fn leaves(flow: ObservedFlow, place: Option<usize>, conn_tables: &mut ConnTables)
    requires { IfSome place (λ p. p < length conn_tables.old.conns) }
    ensures { conn_tables.new ≡ closes_side flow conn_tables.old place }
{
    let Some(place) = place else {
        return;
    };
    let conn = conn_tables.conn_at(place).with_left(flow.sent);
    if conn.host_left && conn.peer_left {
        conn_tables.end_life(place);
    } else {
        conn_tables.put_conn(Some(place), conn);
    }
}

/// Applies a CLS, by its acceptance and the index of the connection of its two sockets.
pub(crate) fn after_cls(
    flow: ObservedFlow,
    about: About,
    place: Option<usize>,
    acceptance: Acceptance,
    conn_tables: &mut ConnTables,
)
    requires index { place ≡ index_of_flow flow about.local about.remote conn_tables.old }
    requires inside { IfSome place (λ p. p < length conn_tables.old.conns) }
    ensures { conn_tables.new ≡ after_cls flow about.command about.local about.remote acceptance conn_tables.old }
{
    match acceptance {
        Acceptance::Right => leaves(flow, place, conn_tables),
        Acceptance::Refused(_) => owes(
            flow,
            error_wanted(ERRONEOUS_PARAMETERS, ERRONEOUS_PARAMETERS, &about.command),
            true,
            conn_tables,
        ),
        Acceptance::Unclear(_) => {
            conn_tables.rest_pair(flow.at, flow.peer, about.local, about.remote);
            owes(
                flow,
                error_wanted(NONEXISTENT_SOCKET, ERRONEOUS_PARAMETERS, &about.command),
                false,
                conn_tables,
            );
        }
    }
}

//! Changes of a connection since it was last read.
ghost use Rattle.std.specs.Prelude.{◌≡◌};
ghost use Rattle.ncp_results.specs.Changes.{no_connection, no_changes, is_closed_here, peer_asks, is_more_held, is_more_allowed, became, changes_of, ending_of, is_another, changes_anew, changes_since, changes_between, seen_of, connection_read};

use crate::connection::{ConnectionInfo, connection_of};
use ncp_host::Record;
use ncp_model::CallFault;

/// Changes of a connection since it was last read.
#[repr(C)]
#[derive(Clone, Copy, Drop)]
pub struct Changes {
    /// It no longer exists, and this side had closed it first.
    pub closed: bool,
    /// It no longer exists, this side had not closed it first, and the peer had not asked.
    pub refused: bool,
    /// It no longer exists, this side had not closed it first, and the peer had asked.
    pub ended: bool,
    /// The peer asks, and there is no local request.
    pub asks: bool,
    /// It opened: both requests met.
    pub opened: bool,
    /// More text is held than before.
    pub text: bool,
    /// More messages, or more bits, may be sent than before.
    pub allowed: bool,
    /// The text that was unacknowledged was delivered.
    pub delivered: bool,
    /// Interrupts were received.
    pub interrupted: bool,
    /// The peer's CLS was received.
    pub closes: bool,
}

/// The reading before the first: all 0 and false.
pub fn no_connection() -> ConnectionInfo
    ensures { result ≡ no_connection }
{
    ConnectionInfo {
        bits: 0,
        stored: 0,
        interrupts: 0,
        messages: 0,
        link: 0,
        size: 0,
        sends: false,
        asked: false,
        heard: false,
        opened: false,
        leaving: false,
        left: false,
        cls: false,
        busy: false,
        recall: false,
    }
}

fn no_changes() -> Changes
    ensures { result ≡ no_changes }
{
    Changes {
        closed: false,
        refused: false,
        ended: false,
        asks: false,
        opened: false,
        text: false,
        allowed: false,
        delivered: false,
        interrupted: false,
        closes: false,
    }
}

// Whether the peer asks, and there is no local request.
fn asks(seen: ConnectionInfo, now: ConnectionInfo) -> bool
    ensures { result ≡ peer_asks seen now }
{
    now.heard && !(seen.heard || now.asked)
}

fn is_more_held(seen: ConnectionInfo, now: ConnectionInfo) -> bool
    ensures { result ≡ is_more_held seen now }
{
    seen.stored < now.stored && !now.sends
}

fn is_more_allowed(seen: ConnectionInfo, now: ConnectionInfo) -> bool
    ensures { result ≡ is_more_allowed seen now }
{
    now.sends && (seen.messages < now.messages || seen.bits < now.bits)
}

// Whether a flag was set.
fn became(seen: bool, now: bool) -> bool
    ensures { result ≡ became seen now }
{
    now && !seen
}

// The changes of a connection that still exists.
fn changes_of(seen: ConnectionInfo, now: ConnectionInfo) -> Changes
    ensures { result ≡ changes_of seen now }
{
    Changes {
        asks: asks(seen, now),
        opened: became(seen.opened, now.opened),
        text: is_more_held(seen, now),
        allowed: is_more_allowed(seen, now),
        delivered: became(now.busy, seen.busy),
        interrupted: seen.interrupts < now.interrupts,
        closes: became(seen.cls, now.cls),
        ..no_changes()
    }
}

// Whether this side closed the connection first.
fn is_closed_here(seen: ConnectionInfo) -> bool
    ensures { result ≡ is_closed_here seen }
{
    (seen.leaving || seen.left) && !seen.cls
}

// The changes of a connection that no longer exists.
fn ending_of(seen: ConnectionInfo) -> Changes
    ensures { result ≡ ending_of seen }
{
    let closed = is_closed_here(seen);
    Changes {
        closed,
        refused: seen.asked && !seen.heard && !closed,
        ended: seen.heard && !closed,
        ..no_changes()
    }
}

// Whether the connection seen before ended, and another between the same sockets began since.
fn is_another(seen: ConnectionInfo, now: ConnectionInfo) -> bool
    ensures { result ≡ is_another seen now }
{
    became(now.asked, seen.asked)
        || became(now.heard, seen.heard)
        || became(now.opened, seen.opened)
        || became(now.left, seen.left)
        || became(now.cls, seen.cls)
}

// How the connection seen before ended, and the changes of the one that began.
fn changes_anew(seen: ConnectionInfo, now: ConnectionInfo) -> Changes
    ensures { result ≡ changes_anew seen now }
{
    let Changes {
        closed,
        refused,
        ended,
        ..
    } = ending_of(seen);
    Changes {
        closed,
        refused,
        ended,
        ..changes_of(no_connection(), now)
    }
}

fn changes_since(seen: ConnectionInfo, now: ConnectionInfo) -> Changes
    ensures { result ≡ changes_since seen now }
{
    if is_another(seen, now) {
        changes_anew(seen, now)
    } else {
        changes_of(seen, now)
    }
}

/// The changes between two readings: the one seen last, and the present one, if the connection
/// exists.
pub fn changes_between(seen: ConnectionInfo, now: Option<ConnectionInfo>) -> Changes
    ensures { result ≡ changes_between seen now }
{
    match now {
        Some(now) => changes_since(seen, now),
        None => ending_of(seen),
    }
}

/// The reading to keep for the next comparison: the present one, or all 0 and false.
pub fn seen_of(now: Option<ConnectionInfo>) -> ConnectionInfo
    ensures { result ≡ seen_of now }
{
    match now {
        Some(now) => now,
        None => no_connection(),
    }
}

/// The reading of a connection by `Host::state`, or `None` if it does not exist.
pub fn reading_of(answer: Result<Record, CallFault>) -> Result<Option<ConnectionInfo>, CallFault>
    ensures { result ≡ connection_read answer }
{
    match answer {
        Ok(known) => Ok(Some(connection_of(known))),
        Err(CallFault::NoEntry) => Ok(None),
        Err(fault) => Err(fault),
    }
}

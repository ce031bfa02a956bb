//! `Coverage`: what a monitor did not judge between each two hosts, and why.
ghost use Rattle.std.specs.Prelude.{◌≡◌, ◌&&◌, ◌||◌, not, replicate, map, IfOk};
ghost use Rattle.std.specs.List.{list_all, range_with_len};
ghost use Rattle.ncp_monitor.specs.Judged.{has_seen};
ghost use Rattle.ncp_interface.specs.Events.{event_of};
ghost use Rattle.ncp_monitor.specs.Coverage.{is_of_suspension, nothing_passed, new_coverage, pair_in, pair_noted, with_pair_noted, after_noted, unjudged_in, is_excused};

use crate::conn_state::FactKind;
use crate::monitor::Monitor;
use crate::views::{VIEWS, index_of};
use ncp_bits::Bits;
use ncp_interface::{ImpDirection, InterfaceEvent, event_of};
use ncp_leader::RFNM;
use std::alloc::{AllocError, Global};
use std::boxed::BoxedSlice;
use std::marker::Model;

/// Why some of what passed between two hosts at the interface of the first was not judged. If there
/// are several reasons, the first of this list is given.
#[derive(Clone, Copy, Debug, Drop, PartialEq, Eq)]
pub enum Unjudged {
    /// More messages were outstanding at once than a monitor keeps. From then on no link and no
    /// phase is judged.
    Messages,
    /// There were more connections, pending replies or facts than a monitor keeps. From then on no
    /// command and no text is judged by them.
    Connections,
    /// A message of the peer arrived, or one to it was acknowledged, before the first record at the
    /// peer's interface: it could not be compared.
    Late,
    /// Two messages of one of the two were outstanding at once on one link. From then on what the
    /// subnet did with its messages is not judged.
    Crowded,
    /// The session was suspended: a host acted on something the other had not shown.
    Suspended,
    /// After an interface reset a host may have acted on what the wire does not show.
    Restarted,
    /// A connection, a link or the echoes were suspended.
    Connection,
    /// The capture may begin in the middle: before the first reset no phase is judged, and what the
    /// subnet did is not.
    Part,
    /// No record was made at the peer's interface: what the subnet did is not judged.
    Alone,
}

/// What was noted of two hosts at the interface of the first.
#[derive(Clone, Copy, Debug, Drop, PartialEq, Eq)]
pub struct PairCoverage {
    /// Whether a message between the two passed there.
    pub passed: bool,
    /// Whether, before the first record at the peer's interface, a message of the peer arrived, or
    /// one to it was acknowledged.
    pub late: bool,
    /// Whether their session was suspended after one of those messages.
    pub suspended: bool,
    /// Whether a connection, a link or the echoes were.
    pub connection: bool,
}

// No message passed.
fn nothing_passed() -> PairCoverage
    ensures { result ≡ nothing_passed }
{
    PairCoverage {
        passed: false,
        late: false,
        suspended: false,
        connection: false,
    }
}

impl PairCoverage {
    // With a message between the two, after which the monitor is this. It may depend on what passed
    // the peer's interface before.
    fn with_message(self, monitor: &Monitor, at: u8, peer: u8, depends: bool) -> PairCoverage
        ensures { result ≡ pair_noted monitor.now at peer depends self }
    {
        PairCoverage {
            passed: true,
            late: self.late || (depends && !monitor.has_seen(peer)),
            suspended: self.suspended || monitor.is_session_suspended(at, peer),
            connection: self.connection || monitor.has_suspended(at, peer),
        }
    }
}

/// What a monitor did not judge between each two hosts. It notes each record that the monitor has
/// judged. Creation allocates all its room.
#[derive(Drop)]
pub struct Coverage {
    all: BoxedSlice<PairCoverage, Global>,
}

impl Model for Coverage {
    ghost use Rattle.std.specs.Prelude.{◌≡◌, List, length};
    ghost use Rattle.std.specs.Box.{boxed_slice_items};
    ghost use Rattle.ncp_monitor.specs.declared.coverage.PairCoverage.{PairCoverage};
    ghost use Rattle.ncp_monitor.specs.declared.views.TheConstants.{VIEWS};

    ghost Value = { List PairCoverage };

    ghost view = { λ coverage. boxed_slice_items coverage.all };

    ghost invariant = { λ coverage. length (boxed_slice_items coverage.all) ≡ VIEWS };
}

impl Coverage {
    /// No message passed. Only this function allocates, once.
    pub fn new(alloc: Global) -> Result<Coverage, AllocError>
        ensures { IfOk result (λ coverage. coverage ≡ new_coverage) }
    {
        let mut all = Vec::with_capacity(alloc, VIEWS)?;
        for _place in 0..VIEWS {
            all.push_reserved(nothing_passed());
        }
        Ok(Coverage {
            all: all.into_boxed_slice(),
        })
    }

    /// What was noted of two hosts at the interface of the first.
    pub fn of(&self, at: u8, peer: u8) -> PairCoverage
        ensures { result ≡ pair_in self.now at peer }
    {
        self.all[index_of(at, peer)]
    }

    // Notes a message between two hosts at the interface of the first.
    fn note_pair(&mut self, monitor: &Monitor, at: u8, peer: u8, depends: bool)
        ensures { self.new ≡ with_pair_noted monitor.now at peer depends self.old }
    {
        let noted = self.of(at, peer).with_message(monitor, at, peer, depends);
        self.all[index_of(at, peer)] = noted;
    }

    /// Notes a record that the monitor has just judged: a message that passed the interface of host
    /// `at` in this direction.
    pub fn note(&mut self, monitor: &Monitor, way: ImpDirection, at: u8, message: &Bits)
        ensures { self.new ≡ after_noted monitor.now at (event_of way at message.now) self.old }
    {
        match event_of(way, at, message) {
            InterfaceEvent::Out { peer, .. } => self.note_pair(monitor, at, peer, false),
            InterfaceEvent::In { peer, .. } => self.note_pair(monitor, at, peer, true),
            InterfaceEvent::Answer { kind, peer, .. } => {
                self.note_pair(monitor, at, peer, kind == RFNM);
            }
            InterfaceEvent::Short
            | InterfaceEvent::Nothing
            | InterfaceEvent::Own { .. }
            | InterfaceEvent::Other { .. } => {}
        }
    }

    /// Why some of what passed between two hosts at the interface of the first was not judged, as of
    /// the last record. `None` if all was, or nothing passed.
    pub fn unjudged(&self, monitor: &Monitor, at: u8, peer: u8) -> Option<Unjudged>
        ensures { result ≡ unjudged_in monitor.now self.now at peer }
    {
        let pair = self.of(at, peer);
        if pair.passed {
            monitor.unjudged(pair, at, peer)
        } else {
            None
        }
    }
}

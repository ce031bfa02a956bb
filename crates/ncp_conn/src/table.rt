//! The connections with one peer.
ghost use Rattle.std.specs.Prelude.{◌≡◌, ℕ, ◌≤◌, OnErr, IfOk};
ghost use Rattle.std.specs.FinMap.{get, insert};
ghost use Rattle.ncp_model.specs.Effect.{answer};
ghost use Rattle.ncp_model.specs.Calls.{close};
ghost use Rattle.ncp_model.specs.Ends.{count, has_asked, is_by_peer, hears_link, uses_link, map_after, no_ends};
ghost use Rattle.ncp_conn.specs.Asking.{Enters};
ghost use Rattle.ncp_conn.specs.Records.{record_in};
ghost use Rattle.ncp_conn.specs.Walking.{AreItsPairs};

mod asking;
mod hearing;
mod readers;
mod restoring;
mod texts;

use crate::entries::Entries;
use crate::entry::Entry;
use crate::pairs::Pairs;
use crate::record::Record;
use asking::Stores;
use ncp_bits::BitStore;
use ncp_model::{CallFault, MAX_BY_PEER, MAX_OWN, Pair};
use ncp_wire::Command;
pub use restoring::Unfit;
use std::alloc::{AllocError, Global};
use std::marker::Model;

/// The connections with one peer.
///
/// The argument `full` of a call says that the queue has no room for a call's command: the call
/// then returns `QueueFull`, unless it is refused for an earlier reason. A connection is over once
/// its CLS was made and the peer's was received; it is then removed from the table, with its stored
/// bits.
#[derive(Drop)]
pub struct Table<S: BitStore> {
    stores: Stores,
    entries: Entries<S>,
}

impl<S: BitStore> Model for Table<S> {
    ghost use Rattle.std.specs.FinMap.{code, from_entries};
    ghost use Rattle.ncp_model.specs.Codings.{coded_pair, coded_end};
    ghost use Rattle.ncp_model.specs.Ends.{Ends};
    ghost use Rattle.slab.specs.Slab.{values};
    ghost use Rattle.ncp_conn.specs.Entries.{IsKept};

    ghost Value = { Ends };

    ghost coded = { code coded_pair coded_end };

    ghost view = { λ t. from_entries (values t.entries.slab) };

    ghost invariant = { λ t. IsKept t.entries };
}

impl<S: BitStore> Table<S> {
    /// No connections. Of the later calls only `ask_send`, `ask_receive` and `copy` allocate, the
    /// first two only the store.
    pub fn new(alloc: Global) -> Result<Self, AllocError>
        ensures { IfOk result (λ table. table ≡ no_ends) }
    {
        Ok(Table {
            stores: Stores::new(alloc),
            entries: Entries::new(alloc)?,
        })
    }

    /// A copy of the table, with copies of the stores.
    pub fn copy(&self, alloc: Global) -> Result<Self, AllocError>
        ensures { IfOk result (λ table. table ≡ self.now) }
    {
        let mut copy = Table::new(alloc)?;
        for (_, entry) in self.entries.slab.iter().rev() {
            copy.enter(entry.copy(alloc)?);
        }
        Ok(copy)
    }

    /// Removes all connections.
    pub fn purge(&mut self)
        ensures { self.new ≡ no_ends }
    {
        self.entries.clear();
    }

    /// An invariant of every table: at most [`MAX_OWN`] endpoints have a local request, at most
    /// [`MAX_BY_PEER`] have the peer's alone, and each link has at most one sending endpoint that
    /// heard it and one receiving endpoint that uses it. A lemma: its contract is the theorem.
    pub fn keeps_its_limits(&self)
        ensures own { count has_asked self.now ≤ MAX_OWN }
        ensures by_peer { count is_by_peer self.now ≤ MAX_BY_PEER }
        ensures hears { (on : ℕ) → count (hears_link on) self.now ≤ 1 }
        ensures uses { (on : ℕ) → count (uses_link on) self.now ≤ 1 }
    {
        let _entries = &self.entries;
    }

    /// The pairs of all connections, each once, in no specified order.
    pub fn pairs(&self) -> Pairs<'_, S>
        ensures { AreItsPairs result self.now }
    {
        Pairs {
            entries: self.entries.slab.iter(),
        }
    }

    // Adds the entry of a pair that has none.
    fn enter(&mut self, entry: Entry<S>)
        requires enters { Enters self.old entry }
        ensures { self.new ≡ insert self.old entry.0 entry.1 }
    {
        self.entries.insert(entry);
    }

    /// A copy of the state of a connection.
    pub fn record(&self, pair: Pair) -> Option<Record>
        ensures { result ≡ record_in pair self.now }
    {
        let Some(key) = self.entries.find(pair) else {
            return None;
        };
        Some(self.entries.slab[key].record())
    }

    /// Closes this side of a connection, and drops its stored bits. `Some` is the CLS, which the
    /// caller queues: the endpoint has then left, or is removed if the peer's CLS was received.
    /// `None` means that the CLS is deferred, since the sender's text is unacknowledged;
    /// [`Table::answered`] makes it.
    ///
    /// Refused, in this order: `NoEntry`, `Closing` (left, or leaving at a sending endpoint),
    /// `QueueFull` (`full`, even if no command would be queued).
    pub fn close(&mut self, pair: Pair, full: bool) -> Result<Option<Command>, CallFault>
        ensures answer { result ≡ answer (close pair full (get self.old pair)) }
        ensures table { self.new ≡ map_after self.old pair (close pair full (get self.old pair)) }
        ensures err { OnErr result (self.new ≡ self.old) }
    {
        let Some(key) = self.entries.find(pair) else {
            return Err(CallFault::NoEntry);
        };
        let answer = self.entries.slab[key].close(full);
        self.entries.settle(key);
        answer
    }
}

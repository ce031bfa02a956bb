//! Copying connections out, and restoring them.
ghost use Rattle.std.specs.Prelude.{◌≡◌, ◌↔◌, ◌&&◌, true, is_none, All, IfOk, OnOk, OnErr, IsOk};
ghost use Rattle.std.specs.FinMap.{entries, get, insert};
ghost use Rattle.ncp_model.specs.Endpoint.{or_new};
ghost use Rattle.ncp_model.specs.Ends.{any, hears_link, uses_link};
ghost use Rattle.ncp_conn.specs.Stores.{stored_in, room_in};
ghost use Rattle.ncp_conn.specs.Stored.{told_end};
ghost use Rattle.ncp_conn.specs.Restoring.{has_room_for, has_room_for_more, may_stand, IsPossible};

use crate::entry::Entry;
use crate::record::Record;
use crate::table::Table;
use ncp_bits::BitStore;
use ncp_model::{MAX_OWN, Pair};
use std::alloc::{AllocError, Global};

/// No connection can have this state, or the table has no room for it.
#[derive(Clone, Copy, Debug, Drop, PartialEq, Eq)]
pub struct Unfit;

impl<S: BitStore> Table<S> {
    /// A copy of a connection's store; `None` before its local request, or if there is no
    /// connection.
    pub fn stored(&self, alloc: Global, pair: Pair) -> Result<Option<S>, AllocError>
        ensures stored { IfOk result (λ store. stored_in S.held store ≡ (or_new (get self.now pair)).stored) }
        ensures room { IfOk result (λ store. room_in S.capacity store ≡ (or_new (get self.now pair)).room) }
    {
        let Some(key) = self.entries.find(pair) else {
            return Ok(None);
        };
        self.entries.slab[key].copied_store(alloc)
    }

    // Whether a receiving endpoint asked with this link.
    fn is_used(&self, link: u8) -> bool
        ensures { result ≡ any (uses_link link) self.now }
    {
        self.entries.receivers.key(link).is_some()
    }

    // Whether a pair has no connection.
    fn is_vacant(&self, pair: Pair) -> bool
        ensures { result ≡ is_none (get self.now pair) }
    {
        let Some(_key) = self.entries.find(pair) else {
            return true;
        };
        false
    }

    // Whether the table has room for one more entry of this kind: with a local request, or with the
    // peer's alone.
    fn has_room_for(&self, entry: &Entry<S>) -> bool
        ensures { result ≡ has_room_for entry.now.1 self.now }
    {
        if entry.is_asked() {
            return self.entries.own_requests() < MAX_OWN;
        }
        !self.is_full()
    }

    // Whether this entry is a sender that heard a link which another heard.
    fn is_heard_elsewhere(&self, entry: &Entry<S>) -> bool
        ensures { result ≡ (hears_link entry.now.1.link entry.now && any (hears_link entry.now.1.link) self.now) }
    {
        let link = entry.link();
        entry.hears(link) && self.is_taken(link)
    }

    // Whether this entry is a receiver that asked with a link which another uses.
    fn is_used_elsewhere(&self, entry: &Entry<S>) -> bool
        ensures { result ≡ (uses_link entry.now.1.link entry.now && any (uses_link entry.now.1.link) self.now) }
    {
        let link = entry.link();
        entry.uses(link) && self.is_used(link)
    }

    // Whether the entry can be added.
    fn has_room_for_one(&self, entry: &Entry<S>) -> bool
        ensures { result ≡ has_room_for_more entry.now.0 entry.now.1 self.now }
    {
        self.is_vacant(entry.pair())
            && self.has_room_for(entry)
            && !self.is_heard_elsewhere(entry)
            && !self.is_used_elsewhere(entry)
    }

    /// Restores a connection from its record and store. Does not allocate. Ignores the record's
    /// `end` and `stored`, which follow from the pair and the store.
    ///
    /// Refused: [`Unfit`], if no connection can have this state (it is over, it has room before its
    /// local request, or more than [`MAX_ROOM`](crate::MAX_ROOM), more is outstanding than fits, or
    /// its link is over [`LAST_LINK`](crate::LAST_LINK)), or if the table has no room for it (the
    /// pair has a connection, its kind is full, or another connection has its link).
    pub fn restore(&mut self, pair: Pair, told: &Record, store: Option<S>) -> Result<(), Unfit>
        ensures fits { IsOk result ↔ (may_stand pair (told_end S.held S.capacity told.now store) self.old ≡ true) }
        ensures ok { OnOk result (self.new ≡ insert self.old pair (told_end S.held S.capacity told.now store)) }
        ensures err { OnErr result (self.new ≡ self.old) }
    {
        let Some(entry) = Entry::restored(pair, told, store) else {
            return Err(Unfit);
        };
        if !self.has_room_for_one(&entry) {
            return Err(Unfit);
        }
        self.enter(entry);
        Ok(())
    }

    /// A lemma: each connection of every table is possible, so its record and its store can be
    /// restored. At run time it reads the connections, and it changes nothing.
    pub fn connections_are_possible(&self)
        ensures { All IsPossible (entries self.now) }
    {
        self.entries.are_possible();
    }
}

//! One connection of a table.
ghost use Rattle.std.specs.Prelude.{◌≡◌, ◌+◌, ◌/◌, ◌≤◌, [], ◌++◌, length, take, drop};
ghost use Rattle.ncp_model.specs.Pairs.{same};
ghost use Rattle.ncp_model.specs.Endpoint.{new_end, is_closing, is_ended, is_open};
ghost use Rattle.ncp_model.specs.Effect.{met};
ghost use Rattle.ncp_model.specs.Ends.{hears_link, uses_link};
ghost use Rattle.ncp_conn.specs.Changes.{with_end};
ghost use Rattle.ncp_conn.specs.Records.{record_of, end_here};
ghost use Rattle.ncp_conn.specs.Listing.{is_before};

mod allocation;
mod closing;
mod copying;
mod interrupts;
mod requests;
mod restoring;
mod texts;
mod using;

use crate::record::{Record, Role};
use ncp_bits::{BitStore, Bits, MAX_BITS};
use ncp_model::{Heard, MAX_ROOM, Pair};
use ncp_wire::{Command, LAST_LINK, error_for};
use std::marker::Model;

/// A pair of sockets with the state of its connection here.
#[derive(Drop)]
pub(crate) struct Entry<S: BitStore> {
    pair: Pair,
    asked: bool,
    heard: bool,
    opened: bool,
    leaving: bool,
    left: bool,
    cls: bool,
    link: u8,
    size: u8,
    messages: u16,
    bits: u32,
    // Allocated by the local request.
    store: Option<S>,
    busy: bool,
    recall: bool,
    interrupts: u32,
}

impl<S: BitStore> Model for Entry<S> {
    ghost use Rattle.std.specs.Coded.{coded×};
    ghost use Rattle.ncp_model.specs.declared.pair.Pair.{Pair};
    ghost use Rattle.ncp_model.specs.Endpoint.{Endpoint as Ended};
    ghost use Rattle.ncp_model.specs.Codings.{coded_pair, coded_end};
    ghost use Rattle.ncp_conn.specs.Stores.{stored_in, room_in, Fits};

    ghost Value = { Pair × Ended };

    ghost coded = { coded× coded_pair coded_end };

    ghost view = { λ e. (e.pair, record { asked = e.asked; heard = e.heard; opened = e.opened; leaving = e.leaving; left = e.left; cls = e.cls; link = e.link; size = e.size; messages = e.messages; bits = e.bits; stored = stored_in S.held e.store; room = room_in S.capacity e.store; busy = e.busy; recall = e.recall; interrupts = e.interrupts }) };

    ghost invariant = { λ e. Fits e.pair e.asked e.link e.bits (stored_in S.held e.store) (room_in S.capacity e.store) };
}

// The ERR about a received command.
pub(crate) fn refused(code: u8, command: &Command) -> Heard
    ensures { result ≡ Heard.Reply (Rattle.ncp_model.specs.Effect.error_of code command.now) }
{
    Heard::Reply(error_for(code, command))
}

// The number of whole bytes in `bits` bits; 0 if a byte has no bits.
fn whole_bytes(bits: usize, size: u8) -> usize
    ensures { result ≡ bits / size }
{
    if size == 0 {
        return 0;
    }
    bits / usize::from(size)
}

impl<S: BitStore> Entry<S> {
    /// A new entry.
    pub(crate) fn new(pair: Pair) -> Self
        ensures { result ≡ (pair, new_end) }
    {
        Entry {
            pair,
            asked: false,
            heard: false,
            opened: false,
            leaving: false,
            left: false,
            cls: false,
            link: 0,
            size: 0,
            messages: 0,
            bits: 0,
            store: None,
            busy: false,
            recall: false,
            interrupts: 0,
        }
    }

    /// Its pair.
    pub(crate) fn pair(&self) -> Pair
        ensures { result ≡ self.now.0 }
    {
        self.pair
    }

    /// Whether it is the entry of a pair.
    pub(crate) fn is_for(&self, pair: Pair) -> bool
        ensures { result ≡ same self.now.0 pair }
    {
        self.pair.local == pair.local && self.pair.remote == pair.remote
    }

    /// Whether it is ordered before a pair: by this host's socket, then by the peer's.
    pub(crate) fn is_before(&self, pair: Pair) -> bool
        ensures { result ≡ is_before pair self.now }
    {
        let here = self.pair.local.cmp(&pair.local);
        here.then(self.pair.remote.cmp(&pair.remote)).is_lt()
    }

    /// Whether the local request was made.
    pub(crate) fn is_asked(&self) -> bool
        ensures { result ≡ self.now.1.asked }
    {
        self.asked
    }

    /// Whether the peer's request was received.
    pub(crate) fn is_heard(&self) -> bool
        ensures { result ≡ self.now.1.heard }
    {
        self.heard
    }

    /// The link that it heard or asked with; 0 until then.
    pub(crate) fn link(&self) -> u8
        ensures link { result ≡ self.now.1.link }
        ensures last { result ≤ LAST_LINK }
    {
        self.link
    }

    /// Whether it sends and heard this link.
    pub(crate) fn hears(&self, link: u8) -> bool
        ensures { result ≡ hears_link link self.now }
    {
        self.pair.sends() && self.heard && self.link == link
    }

    /// Whether it receives and asked with this link.
    pub(crate) fn uses(&self, link: u8) -> bool
        ensures { result ≡ uses_link link self.now }
    {
        self.pair.receives() && self.asked && self.link == link
    }

    /// Whether its own CLS was made and the peer's received.
    pub(crate) fn is_ended(&self) -> bool
        ensures { result ≡ is_ended self.now.1 }
    {
        self.left && self.cls
    }

    // Whether its CLS is due or was made.
    fn is_closing(&self) -> bool
        ensures { result ≡ is_closing self.now.1 }
    {
        self.leaving || self.left
    }

    // Whether both requests were made, and it is not closing.
    fn is_open(&self) -> bool
        ensures { result ≡ is_open self.now.1 }
    {
        self.asked && self.heard && !self.is_closing()
    }

    // The number of stored bits.
    fn stored(&self) -> usize
        ensures len { result ≡ length self.now.1.stored }
        ensures fits { result ≤ self.now.1.room }
        ensures small { result ≤ MAX_ROOM }
    {
        match &self.store {
            Some(store) => {
                let _room = store.room();
                store.len()
            }
            None => 0,
        }
    }

    /// The capacity of its store, in bits.
    pub(crate) fn room(&self) -> usize
        ensures room { result ≡ self.now.1.room }
        ensures small { result ≤ MAX_ROOM }
    {
        match &self.store {
            Some(store) => store.room() + store.len(),
            None => 0,
        }
    }

    // Opens the connection if both requests were made and it is not closing.
    fn meet(&mut self)
        ensures { self.new ≡ with_end self.old (met self.old.1) }
    {
        self.opened = self.opened || (self.asked && self.heard && !(self.leaving || self.left));
    }

    // Drops the stored bits.
    fn drop_stored(&mut self)
        ensures { self.new ≡ with_end self.old (record self.old.1 { stored = [] }) }
    {
        if let Some(store) = &mut self.store {
            store.clear();
        }
    }

    // Removes and returns the first `count` stored bits.
    fn take_stored(&mut self, count: usize) -> Bits
        requires held { count ≤ length self.old.1.stored }
        requires fits { count ≤ MAX_BITS }
        ensures bits { result ≡ take count self.old.1.stored }
        ensures entry { self.new ≡ with_end self.old (record self.old.1 { stored = drop count self.old.1.stored }) }
    {
        match &mut self.store {
            Some(store) => store.take(count),
            None => Bits::new(),
        }
    }

    // Removes the first `count` stored bits and appends them to `bits`.
    fn move_stored(&mut self, count: usize, bits: &mut Bits)
        requires held { count ≤ length self.old.1.stored }
        requires fits { length bits.old + count ≤ MAX_BITS }
        ensures bits { bits.new ≡ bits.old ++ take count self.old.1.stored }
        ensures entry { self.new ≡ with_end self.old (record self.old.1 { stored = drop count self.old.1.stored }) }
    {
        if let Some(store) = &mut self.store {
            store.move_to(count, bits);
        }
    }

    /// A copy of its state.
    pub(crate) fn record(&self) -> Record
        ensures { result ≡ record_of self.now.0 self.now.1 }
    {
        Record {
            end: end_at(self.pair),
            asked: self.asked,
            heard: self.heard,
            opened: self.opened,
            leaving: self.leaving,
            left: self.left,
            cls: self.cls,
            link: self.link,
            size: self.size,
            messages: self.messages,
            bits: self.bits,
            stored: self.stored() as u32,
            busy: self.busy,
            recall: self.recall,
            interrupts: self.interrupts,
        }
    }
}

// Whether this host sends or receives.
fn end_at(pair: Pair) -> Role
    ensures { result ≡ end_here pair }
{
    if pair.local % 2 == 1 {
        Role::Send
    } else {
        Role::Receive
    }
}

//! The local requests.
ghost use Rattle.std.specs.Prelude.{◌≡◌, ◌≤◌, true, false, OnOk, OnErr, []};
ghost use Rattle.std.specs.FinMap.{get};
ghost use Rattle.ncp_model.specs.Pairs.{sends, receives};
ghost use Rattle.ncp_model.specs.Endpoint.{or_new};
ghost use Rattle.ncp_model.specs.Effect.{is_room};
ghost use Rattle.ncp_model.specs.Calls.{end_to_ask};
ghost use Rattle.ncp_model.specs.Ends.{any, uses_link, free_link, may_ask_in};
ghost use Rattle.ncp_conn.specs.Asking.{MayAsk};
ghost use Rattle.ncp_conn.specs.Asked.{AsksToSend, AsksToReceive, with_sender_asked, with_receiver_asked};

mod stores;

use crate::entries::free_from;
use crate::entry::Entry;
use crate::table::Table;
use ncp_bits::BitStore;
use ncp_model::{CallFault, MAX_OWN, MAX_ROOM, Pair};
use ncp_wire::{Command, FIRST_LINK, LAST_LINK};
pub(super) use stores::Stores;

// Whether a store may have `room` bits.
fn is_room(room: u32) -> bool
    ensures { result ≡ is_room room }
{
    room >= 1 && room <= MAX_ROOM
}

impl<S: BitStore> Table<S> {
    // Checks whether the endpoint of a pair, if there is one, permits a local request.
    fn end_may_ask(&self, pair: Pair) -> Result<(), CallFault>
        ensures { result ≡ end_to_ask (or_new (get self.now pair)) }
    {
        let Some(key) = self.entries.find(pair) else {
            return Ok(());
        };
        self.entries.slab[key].may_ask()
    }

    // Checks whether a local request may be made for a pair.
    fn may_ask(&self, pair: Pair, full: bool) -> Result<(), CallFault>
        ensures output { result ≡ may_ask_in pair full self.now }
        ensures ok { OnOk result (MayAsk pair self.now) }
    {
        self.end_may_ask(pair)?;
        if self.entries.own_requests() >= MAX_OWN {
            return Err(CallFault::TableFull);
        }
        if full {
            return Err(CallFault::QueueFull);
        }
        Ok(())
    }

    // Makes a permitted local request to send.
    fn ask_send_of(&mut self, pair: Pair, size: u8, store: S)
        requires sends { sends pair ≡ true }
        requires may { MayAsk pair self.old }
        requires empty { S.held store ≡ [] }
        requires small { S.capacity store ≤ MAX_ROOM }
        ensures { self.new ≡ with_sender_asked pair size (S.capacity store) self.old }
    {
        let Some(key) = self.entries.find(pair) else {
            let mut entry = Entry::new(pair);
            entry.ask_send(size, store);
            self.enter(entry);
            return;
        };
        self.entries.slab[key].ask_send(size, store);
        self.entries.lead(key);
    }

    /// Asks to send, with `size` bits per byte and room for `room` stored bits. Returns the STR,
    /// which the caller queues. `full` says that the queue has no room for a call's command.
    ///
    /// Refused, in this order: `BadSex` (a sender's socket is odd, a receiver's even), `BadSize`
    /// (0), `BadRoom` (outside 1 to `MAX_ROOM`), `AlreadyAsked`, `Closing`, `TableFull` (`MAX_OWN`
    /// connections have a local request), `QueueFull`, `OutOfMemory`.
    pub fn ask_send(
        &mut self,
        local: u32,
        remote: u32,
        size: u8,
        room: u32,
        full: bool,
    ) -> Result<Command, CallFault>
        ensures done { AsksToSend local remote size room full result self.old self.new }
        ensures err { OnErr result (self.new ≡ self.old) }
    {
        let pair = Pair { local, remote };
        if !pair.sends() {
            return Err(CallFault::BadSex);
        }
        if size == 0 {
            return Err(CallFault::BadSize);
        }
        if !is_room(room) {
            return Err(CallFault::BadRoom);
        }
        self.may_ask(pair, full)?;
        let store = self.stores.make(room)?;
        self.ask_send_of(pair, size, store);
        Ok(Command::Str {
            send: local,
            receive: remote,
            size,
        })
    }

    // The lowest link that no receiving endpoint uses.
    fn free_link(&self) -> u8
        ensures { result ≡ free_link self.now }
    {
        free_from(&self.entries.receivers, FIRST_LINK)
    }

    // Makes a permitted local request to receive.
    fn ask_receive_of(&mut self, pair: Pair, link: u8, store: S)
        requires receives { receives pair ≡ true }
        requires may { MayAsk pair self.old }
        requires last { link ≤ LAST_LINK }
        requires link { any (uses_link link) self.old ≡ false }
        requires empty { S.held store ≡ [] }
        requires small { S.capacity store ≤ MAX_ROOM }
        ensures { self.new ≡ with_receiver_asked pair link (S.capacity store) self.old }
    {
        let Some(key) = self.entries.find(pair) else {
            let mut entry = Entry::new(pair);
            entry.ask_receive(link, store);
            self.enter(entry);
            return;
        };
        self.entries.slab[key].ask_receive(link, store);
        self.entries.lead(key);
    }

    /// Asks to receive, with room for `room` held bits, on the lowest link that no receiving
    /// endpoint uses. Returns the RTS, which the caller queues. `full` says that the queue has no
    /// room for a call's command.
    ///
    /// Refused, in this order: `BadSex`, `BadRoom`, `AlreadyAsked`, `Closing`, `TableFull`,
    /// `QueueFull`, `OutOfMemory`, each as in [`Table::ask_send`].
    pub fn ask_receive(
        &mut self,
        local: u32,
        remote: u32,
        room: u32,
        full: bool,
    ) -> Result<Command, CallFault>
        ensures done { AsksToReceive local remote room full result self.old self.new }
        ensures err { OnErr result (self.new ≡ self.old) }
    {
        let pair = Pair { local, remote };
        if !pair.receives() {
            return Err(CallFault::BadSex);
        }
        if !is_room(room) {
            return Err(CallFault::BadRoom);
        }
        self.may_ask(pair, full)?;
        let store = self.stores.make(room)?;
        let link = self.free_link();
        self.ask_receive_of(pair, link, store);
        Ok(Command::Rts {
            receive: local,
            send: remote,
            link,
        })
    }
}

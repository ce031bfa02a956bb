//! The calls of a user, and the readers.
ghost use Rattle.std.specs.Prelude.{◌≡◌, slice_get, OnErr};
ghost use Rattle.std.specs.Option.{option_copied};
ghost use Rattle.ncp_slot.specs.Slot.{kept_message, is_held};
ghost use Rattle.ncp_slot.specs.Slots.{slot_at};
ghost use Rattle.ncp_conn.specs.Records.{record_in};
ghost use Rattle.ncp_model.specs.Phase.{reset_answer};
ghost use Rattle.ncp_model.specs.Peers.{comes_of, reply, reply_of_take, reply_of_echo, Close, Give, Take, Allocate, Call_back, Interrupt, Ask_to_send, Ask_to_receive};
ghost use Rattle.ncp_peer.specs.PeerState.{state_calls, state_calls_echo, state_calls_reset, state_calls_wake};
ghost use Rattle.ncp_conn.specs.Listing.{connection_in, room_of, pair_demuxed_to};
ghost use Rattle.ncp_peer.specs.PeerCalls.{StateAsksOrNoMemory};
ghost use Rattle.ncp_phase.specs.Flags.{flags_of};
ghost use Rattle.ncp_peer.specs.PeerCalls.{record_answer};
ghost use Rattle.ncp_peer.specs.PeerCalls.{room_answer};

use crate::counts::Counts;
use crate::peer::Peer;
use ncp_bits::{BitStore, Bits, Part};
use ncp_conn::{LinkSet, Record, Role};
use ncp_model::{CallFault, Pair};
use ncp_phase::{Errors, Flags};
use ncp_wire::Command;

impl<S: BitStore> Peer<S> {
    /// Resets.
    pub fn reset(&mut self) -> Result<(), CallFault>
        ensures reply { result ≡ reset_answer self.old.peer.phase }
        ensures state { self.new ≡ state_calls_reset self.old }
        ensures err { OnErr result (self.new ≡ self.old) }
    {
        let quiet = self.is_quiet();
        self.association.reset(quiet)
    }

    /// Asks to send.
    pub fn ask_send(&mut self, pair: Pair, size: u8, room: u32) -> Result<(), CallFault>
        ensures done { StateAsksOrNoMemory pair (Ask_to_send size room) result self.old self.new }
        ensures err { OnErr result (self.new ≡ self.old) }
    {
        self.association.ask_send(pair, size, room)
    }

    /// Asks to receive.
    pub fn ask_receive(&mut self, pair: Pair, room: u32) -> Result<(), CallFault>
        ensures done { StateAsksOrNoMemory pair (Ask_to_receive room) result self.old self.new }
        ensures err { OnErr result (self.new ≡ self.old) }
    {
        self.association.ask_receive(pair, room)
    }

    /// Gives text to send.
    pub fn give(&mut self, pair: Pair, text: Part<'_>) -> Result<(), CallFault>
        ensures reply { result ≡ reply (comes_of pair (Give text.entry) self.old.peer) }
        ensures state { self.new ≡ state_calls pair (Give text.entry) self.old }
        ensures err { OnErr result (self.new ≡ self.old) }
    {
        self.association.give(pair, text)
    }

    /// Takes held text from its front.
    pub fn take(&mut self, pair: Pair, bytes: u32) -> Result<Bits, CallFault>
        ensures reply { result ≡ reply_of_take (comes_of pair (Take bytes) self.old.peer) }
        ensures state { self.new ≡ state_calls pair (Take bytes) self.old }
        ensures err { OnErr result (self.new ≡ self.old) }
    {
        self.association.take(pair, bytes)
    }

    /// Allows the sender more messages and bits.
    pub fn allocate(&mut self, pair: Pair, messages: u16, bits: u32) -> Result<(), CallFault>
        ensures reply { result ≡ reply (comes_of pair (Allocate messages bits) self.old.peer) }
        ensures state { self.new ≡ state_calls pair (Allocate messages bits) self.old }
        ensures err { OnErr result (self.new ≡ self.old) }
    {
        self.association.allocate(pair, messages, bits)
    }

    /// Asks the sender to give back part of its counters.
    pub fn call_back(&mut self, pair: Pair, fm: u8, fb: u8) -> Result<(), CallFault>
        ensures reply { result ≡ reply (comes_of pair (Call_back fm fb) self.old.peer) }
        ensures state { self.new ≡ state_calls pair (Call_back fm fb) self.old }
        ensures err { OnErr result (self.new ≡ self.old) }
    {
        self.association.call_back(pair, fm, fb)
    }

    /// Interrupts the other side.
    pub fn interrupt(&mut self, pair: Pair) -> Result<(), CallFault>
        ensures reply { result ≡ reply (comes_of pair Interrupt self.old.peer) }
        ensures state { self.new ≡ state_calls pair Interrupt self.old }
        ensures err { OnErr result (self.new ≡ self.old) }
    {
        self.association.interrupt(pair)
    }

    /// Closes this side of a connection.
    pub fn close(&mut self, pair: Pair) -> Result<(), CallFault>
        ensures reply { result ≡ reply (comes_of pair Close self.old.peer) }
        ensures state { self.new ≡ state_calls pair Close self.old }
        ensures err { OnErr result (self.new ≡ self.old) }
    {
        self.association.close(pair)
    }

    /// Asks for an echo.
    pub fn echo(&mut self, byte: u8) -> Result<(), CallFault>
        ensures reply { result ≡ reply_of_echo byte self.old.peer }
        ensures state { self.new ≡ state_calls_echo byte self.old }
        ensures err { OnErr result (self.new ≡ self.old) }
    {
        self.association.echo(byte)
    }

    /// Makes the messages held for a dead destination ready to be sent again.
    pub fn wake(&mut self)
        ensures { self.new ≡ state_calls_wake self.old }
    {
        self.slots.wake();
        self.again = LinkSet::all();
    }

    /// Returns a copy of a connection's record.
    pub fn state(&self, pair: Pair) -> Result<Record, CallFault>
        ensures { result ≡ record_answer (record_in pair self.now.peer.ends) }
    {
        self.association.state(pair)
    }

    /// The connection at index `place`, with a copy of its record.
    pub fn connection_at(&self, place: usize) -> Option<(Pair, Record)>
        ensures { result ≡ connection_in place self.now.peer.ends }
    {
        self.association.connection_at(place)
    }

    /// The total room of a connection in bits.
    pub fn room(&self, pair: Pair) -> Result<u32, CallFault>
        ensures { result ≡ room_answer (room_of pair self.now.peer.ends) }
    {
        self.association.room(pair)
    }

    /// The pair that a link identifies.
    pub fn pair_on(&self, end: Role, link: u8) -> Option<Pair>
        ensures { result ≡ pair_demuxed_to end link self.now.peer.ends }
    {
        self.association.pair_on(end, link)
    }

    /// The four flags.
    pub fn flags(&self) -> Flags
        ensures { result ≡ flags_of self.now.peer.phase }
    {
        self.association.flags()
    }

    /// The byte of the last ERP that answered an echo.
    pub fn echoed(&self) -> Option<u8>
        ensures { result ≡ self.now.peer.echoes.echoed }
    {
        self.association.echoed()
    }

    /// The last received ERRs, oldest first.
    pub fn errors(&self) -> Errors<'_>
        ensures { result ≡ self.now.peer.echoes.errors }
    {
        self.association.errors()
    }

    /// The message on a link that is not taken yet.
    pub fn kept(&self, link: u8) -> Option<&Bits>
        ensures { option_copied result ≡ kept_message (slot_at self.now.slots link) }
    {
        self.slots.kept(link)
    }

    /// Whether the message on a link is held.
    pub fn is_held(&self, link: u8) -> bool
        ensures { result ≡ is_held (slot_at self.now.slots link) }
    {
        self.slots.is_held(link)
    }

    /// The counts.
    pub fn counts(&self) -> Counts
        ensures { result ≡ self.now.counts }
    {
        self.counts
    }

    /// The command at index `place` of the queue.
    pub fn waiting(&self, place: usize) -> Option<Command>
        ensures { result ≡ slice_get self.now.peer.phase.waiting place }
    {
        self.association.waiting(place)
    }
}

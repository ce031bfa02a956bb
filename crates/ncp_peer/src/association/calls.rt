//! The user's calls on connections, and the echo. While the host is not up with the peer, each is
//! refused with `NotUp` first.
ghost use Rattle.std.specs.Prelude.{◌≡◌, OnErr};
ghost use Rattle.ncp_model.specs.Peers.{calls, comes_of, reply, reply_of_take, reply_of_echo, calls_echo, Close, Give, Take, Allocate, Call_back, Interrupt, Ask_to_send, Ask_to_receive};
ghost use Rattle.ncp_peer.specs.Steps.{CalledOrNoMemory};

use crate::association::Association;
use ncp_bits::{BitStore, Bits, Part};
use ncp_model::{CallFault, Pair};
use ncp_wire::Command;

impl<S: BitStore> Association<S> {
    /// Asks to send, as defined in `Table::ask_send`.
    pub(crate) fn ask_send(&mut self, pair: Pair, size: u8, room: u32) -> Result<(), CallFault>
        ensures done { CalledOrNoMemory pair (Ask_to_send size room) result self.old self.new }
        ensures err { OnErr result (self.new ≡ self.old) }
    {
        if !self.phase.is_up() {
            return Err(CallFault::NotUp);
        }
        let full = self.phase.is_full();
        match self
            .table
            .ask_send(pair.local, pair.remote, size, room, full)
        {
            Ok(command) => {
                self.make(command);
                Ok(())
            }
            Err(fault) => Err(fault),
        }
    }

    /// Asks to receive, as defined in `Table::ask_receive`.
    pub(crate) fn ask_receive(&mut self, pair: Pair, room: u32) -> Result<(), CallFault>
        ensures done { CalledOrNoMemory pair (Ask_to_receive room) result self.old self.new }
        ensures err { OnErr result (self.new ≡ self.old) }
    {
        if !self.phase.is_up() {
            return Err(CallFault::NotUp);
        }
        let full = self.phase.is_full();
        match self.table.ask_receive(pair.local, pair.remote, room, full) {
            Ok(command) => {
                self.make(command);
                Ok(())
            }
            Err(fault) => Err(fault),
        }
    }

    /// Gives text to send, as defined in `Table::give`.
    pub(crate) fn give(&mut self, pair: Pair, text: Part<'_>) -> Result<(), CallFault>
        ensures reply { result ≡ reply (comes_of pair (Give text.entry) self.old) }
        ensures peer { self.new ≡ calls pair (Give text.entry) self.old }
        ensures err { OnErr result (self.new ≡ self.old) }
    {
        if !self.phase.is_up() {
            return Err(CallFault::NotUp);
        }
        self.table.give_part(pair, text)
    }

    /// Takes held text from its front, as defined in `Table::take`. This may make a command that
    /// the queue has no place for; the bits are returned all the same.
    pub(crate) fn take(&mut self, pair: Pair, bytes: u32) -> Result<Bits, CallFault>
        ensures reply { result ≡ reply_of_take (comes_of pair (Take bytes) self.old) }
        ensures peer { self.new ≡ calls pair (Take bytes) self.old }
        ensures err { OnErr result (self.new ≡ self.old) }
    {
        if !self.phase.is_up() {
            return Err(CallFault::NotUp);
        }
        let (bits, command) = self.table.take(pair, bytes)?;
        self.make_any(command);
        Ok(bits)
    }

    /// Allows the sender more messages and bits, as defined in `Table::allocate`.
    pub(crate) fn allocate(&mut self, pair: Pair, messages: u16, bits: u32) -> Result<(), CallFault>
        ensures reply { result ≡ reply (comes_of pair (Allocate messages bits) self.old) }
        ensures peer { self.new ≡ calls pair (Allocate messages bits) self.old }
        ensures err { OnErr result (self.new ≡ self.old) }
    {
        if !self.phase.is_up() {
            return Err(CallFault::NotUp);
        }
        let full = self.phase.is_full();
        let command = self.table.allocate(pair, messages, bits, full)?;
        self.make(command);
        Ok(())
    }

    /// Asks the sender to give back part of its counters, as defined in `Table::call_back`.
    pub(crate) fn call_back(&mut self, pair: Pair, fm: u8, fb: u8) -> Result<(), CallFault>
        ensures reply { result ≡ reply (comes_of pair (Call_back fm fb) self.old) }
        ensures peer { self.new ≡ calls pair (Call_back fm fb) self.old }
        ensures err { OnErr result (self.new ≡ self.old) }
    {
        if !self.phase.is_up() {
            return Err(CallFault::NotUp);
        }
        let full = self.phase.is_full();
        let command = self.table.call_back(pair, fm, fb, full)?;
        self.make(command);
        Ok(())
    }

    /// Interrupts the other side, as defined in `Table::interrupt`.
    pub(crate) fn interrupt(&mut self, pair: Pair) -> Result<(), CallFault>
        ensures reply { result ≡ reply (comes_of pair Interrupt self.old) }
        ensures peer { self.new ≡ calls pair Interrupt self.old }
        ensures err { OnErr result (self.new ≡ self.old) }
    {
        if !self.phase.is_up() {
            return Err(CallFault::NotUp);
        }
        let full = self.phase.is_full();
        let command = self.table.interrupt(pair, full)?;
        self.make(command);
        Ok(())
    }

    /// Closes this side of a connection, as defined in `Table::close`.
    pub(crate) fn close(&mut self, pair: Pair) -> Result<(), CallFault>
        ensures reply { result ≡ reply (comes_of pair Close self.old) }
        ensures peer { self.new ≡ calls pair Close self.old }
        ensures err { OnErr result (self.new ≡ self.old) }
    {
        if !self.phase.is_up() {
            return Err(CallFault::NotUp);
        }
        let full = self.phase.is_full();
        let command = self.table.close(pair, full)?;
        self.make_any(command);
        Ok(())
    }

    /// Asks for an echo. Refused, in this order: `NotUp`, `Busy` (the last one has had no ERP),
    /// `QueueFull`.
    pub(crate) fn echo(&mut self, byte: u8) -> Result<(), CallFault>
        ensures reply { result ≡ reply_of_echo byte self.old }
        ensures peer { self.new ≡ calls_echo byte self.old }
        ensures err { OnErr result (self.new ≡ self.old) }
    {
        if !self.phase.is_up() {
            return Err(CallFault::NotUp);
        }
        if self.echoes.is_awaited() {
            return Err(CallFault::Busy);
        }
        if self.phase.is_full() {
            return Err(CallFault::QueueFull);
        }
        self.echoes.ask();
        self.make(Command::Eco { byte });
        Ok(())
    }
}

//! The calls of a user. A refusal changes nothing; each call returns the first refusal that
//! applies, in the order that its comment states. Only `ask_send` and `ask_receive` allocate.
ghost use Rattle.std.specs.Prelude.{◌≡◌, OnErr};
ghost use Rattle.ncp_model.specs.Peers.{Close, Give, Take, Allocate, Call_back, Interrupt, Ask_to_send, Ask_to_receive};
ghost use Rattle.ncp_host.specs.Restarting.{restart_reply, after_restart};
ghost use Rattle.ncp_host.specs.Asked.{AsksOrNoMemory};
ghost use Rattle.ncp_host.specs.Calls.{sockets, call_reply, after_call_to, take_reply, reset_reply, after_reset, echo_reply, after_echo, wake_reply, after_wake};

use crate::host::{Host, find};
use ncp_bits::{BitStore, Bits, Part};
use ncp_model::{CallFault, Pair};

impl<S: BitStore> Host<S> {
    /// Resets with a peer: ends all connections with it, and queues an RST once the data links to
    /// it are quiet.
    ///
    /// Refused, in this order: `UnknownPeer`, `Busy` (a reset is under way).
    pub fn reset(&mut self, peer: u8) -> Result<(), CallFault>
        ensures reply { result ≡ reset_reply peer self.old }
        ensures host { self.new ≡ after_reset peer self.old }
        ensures err { OnErr result (self.new ≡ self.old) }
    {
        let place = find(self.numbers.as_slice(), &self.peers, peer)?;
        self.peers[place].reset()
    }

    /// Asks to send on a connection, with bytes of `size` bits and room for `room` bits of unsent
    /// text. Queues an STR.
    ///
    /// Refused, in this order: `UnknownPeer`, `NotUp`, `BadSex` (a sender's own socket is odd, the
    /// other even), `BadSize` (0), `BadRoom` (outside 1 to `MAX_ROOM` bits), `AlreadyAsked`,
    /// `Closing`, `TableFull` (`MAX_OWN` connections with the peer have a local request),
    /// `QueueFull` (`MAX_CALLED` or more commands are queued), `OutOfMemory` (for the room).
    pub fn ask_send(
        &mut self,
        peer: u8,
        local: u32,
        remote: u32,
        size: u8,
        room: u32,
    ) -> Result<(), CallFault>
        ensures done { AsksOrNoMemory peer (sockets local remote) (Ask_to_send size room) result self.old self.new }
        ensures err { OnErr result (self.new ≡ self.old) }
    {
        let place = find(self.numbers.as_slice(), &self.peers, peer)?;
        self.peers[place].ask_send(Pair { local, remote }, size, room)
    }

    /// Asks to receive on a connection, with room for `room` held bits, on the lowest link that no
    /// receiving endpoint uses. Queues an RTS.
    ///
    /// Refused, in this order: `UnknownPeer`, `NotUp`, `BadSex` (a receiver's own socket is even,
    /// the other odd), `BadRoom`, `AlreadyAsked`, `Closing`, `TableFull`, `QueueFull`,
    /// `OutOfMemory`, each as in [`Host::ask_send`].
    pub fn ask_receive(
        &mut self,
        peer: u8,
        local: u32,
        remote: u32,
        room: u32,
    ) -> Result<(), CallFault>
        ensures done { AsksOrNoMemory peer (sockets local remote) (Ask_to_receive room) result self.old self.new }
        ensures err { OnErr result (self.new ≡ self.old) }
    {
        let place = find(self.numbers.as_slice(), &self.peers, peer)?;
        self.peers[place].ask_receive(Pair { local, remote }, room)
    }

    /// Gives text to send: appends it to the stored bits.
    ///
    /// Refused, in this order: `UnknownPeer`, `NotUp`, `NoEntry`, `Closing`, `NotOpen`, `WrongEnd`
    /// (a receiver), `NotWhole` (not a multiple of the byte size), `NoRoom`.
    pub fn give(&mut self, peer: u8, pair: Pair, text: &Bits) -> Result<(), CallFault>
        ensures reply { result ≡ call_reply peer pair (Give text.now) self.old }
        ensures host { self.new ≡ after_call_to peer pair (Give text.now) self.old }
        ensures err { OnErr result (self.new ≡ self.old) }
    {
        self.give_part(peer, pair, text.whole())
    }

    /// [`Host::give`] with borrowed text.
    pub fn give_part(&mut self, peer: u8, pair: Pair, text: Part<'_>) -> Result<(), CallFault>
        ensures reply { result ≡ call_reply peer pair (Give text.entry) self.old }
        ensures host { self.new ≡ after_call_to peer pair (Give text.entry) self.old }
        ensures err { OnErr result (self.new ≡ self.old) }
    {
        let place = find(self.numbers.as_slice(), &self.peers, peer)?;
        self.peers[place].give(pair, text)
    }

    /// Takes held text from its front: as many whole bytes as are asked for, are held, and fit one
    /// message. A receiver that is closing makes its CLS when it is emptied. If that would be the
    /// 513th queued command, the host goes down with the peer; the bits are returned all the same.
    ///
    /// Refused, in this order: `UnknownPeer`, `NotUp`, `NoEntry`, `Closing` (left), `NotOpen`
    /// (never opened), `WrongEnd` (a sender).
    pub fn take(&mut self, peer: u8, pair: Pair, bytes: u32) -> Result<Bits, CallFault>
        ensures reply { result ≡ take_reply peer pair bytes self.old }
        ensures host { self.new ≡ after_call_to peer pair (Take bytes) self.old }
        ensures err { OnErr result (self.new ≡ self.old) }
    {
        let place = find(self.numbers.as_slice(), &self.peers, peer)?;
        self.peers[place].take(pair, bytes)
    }

    /// Allows the sender `messages` more messages and `bits` more bits. Queues an ALL.
    ///
    /// Refused, in this order: `UnknownPeer`, `NotUp`, `NoEntry`, `Closing`, `NotOpen`, `WrongEnd`
    /// (a sender), `TooMuch` (outstanding, held and these bits are more than the room, or
    /// outstanding and these messages more than `MAX_MESSAGES`), `QueueFull`.
    pub fn allocate(
        &mut self,
        peer: u8,
        pair: Pair,
        messages: u16,
        bits: u32,
    ) -> Result<(), CallFault>
        ensures reply { result ≡ call_reply peer pair (Allocate messages bits) self.old }
        ensures host { self.new ≡ after_call_to peer pair (Allocate messages bits) self.old }
        ensures err { OnErr result (self.new ≡ self.old) }
    {
        let place = find(self.numbers.as_slice(), &self.peers, peer)?;
        self.peers[place].allocate(pair, messages, bits)
    }

    /// Asks the sender to give back `fm` 128ths of its messages and `fb` 128ths of its bits. Queues
    /// a GVB.
    ///
    /// Refused, in this order: `UnknownPeer`, `NotUp`, `NoEntry`, `Closing`, `NotOpen`, `WrongEnd`
    /// (a sender), `Busy` (the last one has had no RET), `QueueFull`.
    pub fn call_back(&mut self, peer: u8, pair: Pair, fm: u8, fb: u8) -> Result<(), CallFault>
        ensures reply { result ≡ call_reply peer pair (Call_back fm fb) self.old }
        ensures host { self.new ≡ after_call_to peer pair (Call_back fm fb) self.old }
        ensures err { OnErr result (self.new ≡ self.old) }
    {
        let place = find(self.numbers.as_slice(), &self.peers, peer)?;
        self.peers[place].call_back(pair, fm, fb)
    }

    /// Interrupts the other side. Queues an INS if this side sends, else an INR.
    ///
    /// Refused, in this order: `UnknownPeer`, `NotUp`, `NoEntry`, `Closing`, `NotOpen`,
    /// `QueueFull`.
    pub fn interrupt(&mut self, peer: u8, pair: Pair) -> Result<(), CallFault>
        ensures reply { result ≡ call_reply peer pair Interrupt self.old }
        ensures host { self.new ≡ after_call_to peer pair Interrupt self.old }
        ensures err { OnErr result (self.new ≡ self.old) }
    {
        let place = find(self.numbers.as_slice(), &self.peers, peer)?;
        self.peers[place].interrupt(pair)
    }

    /// Closes this side of a connection: drops the stored text and queues a CLS. While a text is
    /// unacknowledged, the CLS is owed instead.
    ///
    /// Refused, in this order: `UnknownPeer`, `NotUp`, `NoEntry`, `Closing` (left, or leaving at a
    /// sending endpoint), `QueueFull` (also when no command would be queued).
    pub fn close(&mut self, peer: u8, pair: Pair) -> Result<(), CallFault>
        ensures reply { result ≡ call_reply peer pair Close self.old }
        ensures host { self.new ≡ after_call_to peer pair Close self.old }
        ensures err { OnErr result (self.new ≡ self.old) }
    {
        let place = find(self.numbers.as_slice(), &self.peers, peer)?;
        self.peers[place].close(pair)
    }

    /// Asks for an echo of a byte. Queues an ECO.
    ///
    /// Refused, in this order: `UnknownPeer`, `NotUp`, `Busy` (the last one has had no ERP),
    /// `QueueFull`.
    pub fn echo(&mut self, peer: u8, byte: u8) -> Result<(), CallFault>
        ensures reply { result ≡ echo_reply peer byte self.old }
        ensures host { self.new ≡ after_echo peer byte self.old }
        ensures err { OnErr result (self.new ≡ self.old) }
    {
        let place = find(self.numbers.as_slice(), &self.peers, peer)?;
        self.peers[place].echo(byte)
    }

    /// Makes the held messages to a peer, whose destination was dead, ready to be sent again. Works
    /// in any phase. If none is held, nothing changes.
    ///
    /// Refused: `UnknownPeer`.
    pub fn wake(&mut self, peer: u8) -> Result<(), CallFault>
        ensures reply { result ≡ wake_reply peer self.old }
        ensures host { self.new ≡ after_wake peer self.old }
        ensures err { OnErr result (self.new ≡ self.old) }
    {
        let place = find(self.numbers.as_slice(), &self.peers, peer)?;
        self.peers[place].wake();
        Ok(())
    }

    /// Treats each unanswered message to a peer as not delivered, as when the IMP was restarted and
    /// answers none of them. The effect is that of [`Host::receive`] with an Incomplete
    /// Transmission (BBN 1822, section 3) on each link with an unanswered message, in the order of
    /// the links. Each becomes ready to be sent again, and nothing else changes
    /// (`laws::a_restart_changes_slots_alone`). A message that had been delivered arrives twice
    /// then.
    ///
    /// Refused: `UnknownPeer`.
    pub fn restart(&mut self, peer: u8) -> Result<(), CallFault>
        ensures reply { result ≡ restart_reply peer self.old }
        ensures host { self.new ≡ after_restart peer self.old }
        ensures err { OnErr result (self.new ≡ self.old) }
    {
        let place = find(self.numbers.as_slice(), &self.peers, peer)?;
        self.peers[place].restart();
        Ok(())
    }
}

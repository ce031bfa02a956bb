//! Two hosts that exchange texts.
ghost use Rattle.std.specs.Prelude.{◌<◌};

use crate::calls::Asked;
use crate::play::{A, B, Play};
use crate::reading::{Followed, is_up};
use crate::table::{Table, Tried};

// The room of each endpoint, in bits.
const ROOM: u32 = 32_768;

// A connection between the two hosts, as its receiver and as its sender has it.
#[derive(Clone, Copy, Drop)]
struct Talk {
    receiver: u8,
    sender: u8,
    received: Tried,
    sent: Tried,
}

impl Talk {
    // The receiver's socket is an even one, and the sender's is the next.
    fn new(receiver: u8, socket: u32) -> Self {
        let sender = if receiver == A { B } else { A };
        Talk {
            receiver,
            sender,
            received: Tried::new(sender, socket, socket ^ 1),
            sent: Tried::new(receiver, socket ^ 1, socket),
        }
    }
}

impl Table {
    // A byte size, mostly 8.
    fn byte_size(&mut self) -> u8 {
        if self.dice.one_in(4) {
            1 + self.dice.small(36)
        } else {
            8
        }
    }

    // A number of bits, occasionally none.
    fn allowed(&mut self) -> u32 {
        if self.dice.one_in(4) {
            0
        } else {
            self.dice.pick(16_384) as u32
        }
    }
}

// Where what is followed at a host is.
fn place_of(me: u8) -> usize
    ensures { result < 2 }
{
    if me == A { 0 } else { 1 }
}

impl Play {
    fn make(&mut self, me: u8, tried: Tried, asked: Asked) {
        self.table.make(self.hosts.host(me), tried, asked);
    }

    fn follow(&mut self, me: u8, tried: Tried) {
        self.followed[place_of(me)] = Followed::on(tried);
    }

    fn read_at(&mut self, me: u8) {
        let host = self.hosts.host(me);
        self.table
            .read_followed(host, &mut self.followed[place_of(me)]);
    }

    fn read_both(&mut self, it: Talk) {
        self.read_at(it.receiver);
        self.read_at(it.sender);
    }

    fn open(&mut self, it: Talk) {
        let size = self.table.byte_size();
        if !is_up(self.hosts.host(it.receiver), it.sender) {
            self.make(it.receiver, it.received, Asked::Reset);
        }
        self.exchange();
        self.make(it.receiver, it.received, Asked::Receive { room: ROOM });
        self.make(it.sender, it.sent, Asked::Send { size, room: ROOM });
        self.exchange();
        self.follow(it.receiver, it.received);
        self.follow(it.sender, it.sent);
        self.read_both(it);
    }

    // Gives text of whole bytes of most sizes.
    fn give_some(&mut self, it: Talk) {
        let buffer = self.table.filled();
        let bits = 360 * self.table.dice.size(23);
        self.table
            .give_bits(self.hosts.host(it.sender), it.sent, &buffer, bits);
    }

    // The receiver allows text, occasionally no bits of it; the sender gives some; and the receiver
    // takes some.
    fn pass_text(&mut self, it: Talk) {
        let messages = u16::from(self.table.dice.small(6));
        let bits = self.table.allowed();
        self.make(it.receiver, it.received, Asked::Allocate { messages, bits });
        self.exchange();
        self.read_both(it);
        for _ in 0..1 + self.table.dice.pick(3) {
            self.give_some(it);
        }
        self.exchange();
        self.read_both(it);
        for _ in 0..1 + self.table.dice.pick(2) {
            self.table.take(self.hosts.host(it.receiver), it.received);
        }
        self.read_both(it);
    }

    /// The two hosts exchange texts on one of some connections.
    pub fn talk(&mut self, receiver: u8) {
        let low = 2 + 2 * self.table.dice.pick(3) as u32;
        let socket = low + 65_536 * self.table.dice.pick(3) as u32;
        let it = Talk::new(receiver, socket);
        self.open(it);
        for _ in 0..1 + self.table.dice.pick(2) {
            self.pass_text(it);
        }
    }
}

//! Messages that a host receives.
use crate::table::{LONGEST, Seat, Table};
use ncp_bits::Part;
use ncp_results::{
    Arrived, DONE, NO_HOST, NOTHING, SHORT_BUFFER, bits_code, command_in, receive as receive_bits,
};
use ncp_wire::{LONGEST_COMMAND, put_command};

// The types of messages that are fed.
const TYPES: [u8; 8] = [0, 5, 7, 9, 0, 0, 4, 10];

// Where each control message has a 0, before its commands.
const ZEROS: [usize; 4] = [0, 2, 4, 8];

// The lengths of commands, by their codes.
const LENGTHS: [usize; 14] = [1, 10, 10, 9, 8, 4, 8, 2, 2, 2, 2, 12, 1, 1];

// The buffer of a control message.
type Control = [u8; 48];

impl Table {
    fn mix_arrived(&mut self, it: &Arrived) {
        let numbers = [
            it.what, it.detail, it.local, it.remote, it.errors, it.resets,
        ];
        self.digest.mix_code(DONE);
        self.digest.mix_numbers(&numbers);
        self.digest.mix_bytes(&[it.peer, it.link, it.kind]);
    }

    // Reads one command of a message.
    fn read_command(&mut self, bytes: &[u8], bits: usize) {
        let place = self.dice.pick(3) as u32;
        let room = self.dice.room(12);
        let came = match Part::from_bytes(bytes, bits) {
            Ok(came) => came,
            Err(fault) => return self.digest.mix_code(bits_code(fault)),
        };
        if room < LONGEST_COMMAND {
            return self.digest.mix_code(SHORT_BUFFER);
        }
        match command_in(&came, place) {
            Some(command) => {
                let spelled = put_command(&command);
                self.digest.mix_text(spelled.as_slice());
            }
            None => self.digest.mix_code(NOTHING),
        }
    }

    // Delivers bits to a host.
    fn hear(&mut self, host: &mut Seat, bytes: &[u8], bits: usize) {
        let Some(host) = host else {
            return self.digest.mix_code(NO_HOST);
        };
        match Part::from_bytes(bytes, bits) {
            Ok(came) => {
                let arrived = receive_bits(host, &came);
                self.mix_arrived(&arrived);
            }
            Err(fault) => self.digest.mix_code(bits_code(fault)),
        }
    }

    /// Delivers bits to a host, and half the time reads a command of them.
    pub fn receive(&mut self, host: &mut Seat, bytes: &[u8], bits: usize) {
        self.hear(host, bytes, bits);
        if self.dice.one_in(2) {
            self.read_command(bytes, bits);
        }
    }

    /// The network answers a message of a host.
    pub fn answer(&mut self, host: &mut Seat, kind: u8, peer: u8, link: u8) {
        self.receive(host, &[kind, peer, link, 0], 32);
    }

    // Any bits, often of a type with a meaning.
    fn feed_any(&mut self, host: &mut Seat, peer: u8) {
        let mut buffer = self.filled();
        buffer[0] = TYPES[self.dice.size(8)];
        buffer[1] = peer;
        buffer[2] = self.dice.small(5);
        if self.dice.one_in(2) {
            buffer[4] = 0;
            buffer[5] = if self.dice.one_in(8) {
                self.dice.byte()
            } else {
                8
            };
            buffer[6] = 0;
            buffer[7] = self.dice.small(24);
            buffer[8] = 0;
            buffer[9] = self.dice.small(15);
        }
        let len = self.dice.size(49);
        let bits = if self.dice.one_in(4) {
            self.dice.size(400)
        } else {
            8 * len
        };
        self.receive(host, &buffer[..len], bits);
    }

    // The data of a command with two sockets.
    fn put_sockets(&mut self, code: u8, data: &mut [u8; 12]) {
        let sockets = 2 + 2 * self.dice.small(3);
        data[1] = self.dice.rarely();
        data[4] = sockets + self.dice.small(2);
        data[7] = self.dice.rarely();
        data[8] = sockets + self.dice.small(2);
        if code != 3 {
            data[9] = if self.dice.one_in(2) {
                8
            } else {
                self.dice.small(80)
            };
        }
    }

    // The data of a command with a link.
    fn put_link(&mut self, code: u8, data: &mut [u8; 12]) {
        data[1] = self.link();
        if code == 4 || code == 6 {
            data[2] = self.dice.rarely();
            data[3] = self.dice.small(4);
            data[5] = self.dice.rarely();
            data[6] = self.dice.small(4);
            data[7] = self.dice.byte();
        } else if code == 5 {
            data[2] = self.dice.byte();
            data[3] = self.dice.byte();
        }
    }

    // Appends a command with small numbers in it, and returns the length with it. Few are resets.
    fn put_any(&mut self, bytes: &mut Control, from: usize) -> usize {
        let mut code = self.dice.small(14);
        if code == 12 && !self.dice.one_in(16) {
            code = 13;
        }
        let mut data = [0; 12];
        data[0] = code;
        match code {
            1..=3 => self.put_sockets(code, &mut data),
            4..=11 => self.put_link(code, &mut data),
            _ => {}
        }
        let mut len = from;
        for place in 0..LENGTHS[usize::from(code)] {
            if len < 48 && place < 12 {
                bytes[len] = data[place];
                len += 1;
            }
        }
        len
    }

    // A control message of one to three commands. A byte that is 0 in all of them occasionally is
    // not.
    fn feed_commands(&mut self, host: &mut Seat, peer: u8) {
        let mut bytes = [0; 48];
        let mut len = 9;
        bytes[1] = peer;
        bytes[5] = 8;
        for _ in 0..1 + self.dice.pick(3) {
            len = self.put_any(&mut bytes, len);
        }
        if 9 <= len && len <= 48 {
            bytes[7] = (len - 9) as u8;
            if self.dice.one_in(8) {
                let place = ZEROS[self.dice.size(4)];
                bytes[place] = 1 << self.dice.small(8);
            }
            self.receive(host, &bytes, 8 * len);
        }
    }

    // A text on a link.
    fn feed_text(&mut self, host: &mut Seat, peer: u8) {
        let len = self.dice.size(24);
        let mut buffer = self.filled();
        let link = 2 + self.dice.small(4);
        let size = if self.dice.one_in(8) {
            self.dice.small(37)
        } else {
            8
        };
        let head = [0, peer, link, 0, 0, size, 0, len as u8, 0];
        for place in 0..9 {
            buffer[place] = head[place];
        }
        let bits = 72 + usize::from(size) * len;
        if bits % 8 != 0 && bits / 8 < LONGEST {
            buffer[bits / 8] = 0;
        }
        self.receive(host, &buffer, bits);
    }

    /// Delivers a random message.
    pub fn feed(&mut self, host: &mut Seat, peer: u8) {
        match self.dice.pick(4) {
            0 => self.feed_any(host, peer),
            1 => self.feed_text(host, peer),
            _ => self.feed_commands(host, peer),
        }
    }
}

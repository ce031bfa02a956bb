//! Calls of a user.
use crate::reading::is_up;
use crate::table::{LONGEST, Seat, Table, Tried};
use ncp_bits::{Bits, PackedStore};
use ncp_host::Host;
use ncp_model::CallFault;
use ncp_results::{NO_HOST, SHORT_BUFFER, bits_code, fault_code};

/// A call without bits.
#[derive(Clone, Copy, Drop)]
pub enum Asked {
    Reset,
    Wake,
    Restart,
    Send { size: u8, room: u32 },
    Receive { room: u32 },
    Allocate { messages: u16, bits: u32 },
    CallBack { messages: u8, bits: u8 },
    Interrupt,
    Close,
    Echo { byte: u8 },
}

fn call(host: &mut Host<PackedStore>, tried: Tried, asked: Asked) -> Result<(), CallFault> {
    let Tried { peer, pair } = tried;
    match asked {
        Asked::Reset => host.reset(peer),
        Asked::Wake => host.wake(peer),
        Asked::Restart => host.restart(peer),
        Asked::Send { size, room } => host.ask_send(peer, pair.local, pair.remote, size, room),
        Asked::Receive { room } => host.ask_receive(peer, pair.local, pair.remote, room),
        Asked::Allocate { messages, bits } => host.allocate(peer, pair, messages, bits),
        Asked::CallBack { messages, bits } => host.call_back(peer, pair, messages, bits),
        Asked::Interrupt => host.interrupt(peer, pair),
        Asked::Close => host.close(peer, pair),
        Asked::Echo { byte } => host.echo(peer, byte),
    }
}

impl Table {
    // The room of a request, at a limit occasionally.
    fn asked_room(&mut self) -> u32 {
        if self.dice.one_in(8) {
            self.dice.edge()
        } else {
            self.dice.mostly(16_384, 8)
        }
    }

    // A number of messages, at a limit occasionally.
    fn messages(&mut self) -> u16 {
        if self.dice.one_in(8) {
            (self.dice.edge() & 65_535) as u16
        } else {
            u16::from(self.dice.small(4))
        }
    }

    // A number of bits, occasionally none.
    fn bits(&mut self) -> u32 {
        if self.dice.one_in(4) {
            0
        } else {
            self.dice.mostly(2_000, 16)
        }
    }

    fn reset_or_wake(&mut self, is_up: bool) -> Asked {
        match self.dice.pick(128) {
            0 => Asked::Reset,
            1..=7 => Asked::Restart,
            _ if is_up => Asked::Wake,
            _ => Asked::Reset,
        }
    }

    fn ask_send(&mut self) -> Asked {
        let size = if self.dice.one_in(4) {
            self.dice.small(37)
        } else {
            8
        };
        let room = self.asked_room();
        Asked::Send { size, room }
    }

    fn close_or_echo(&mut self) -> Asked {
        if self.dice.one_in(16) {
            return Asked::Close;
        }
        let byte = self.dice.byte();
        Asked::Echo { byte }
    }

    fn asked(&mut self, which: u64, is_up: bool) -> Asked {
        match which {
            0 => self.reset_or_wake(is_up),
            1 => self.ask_send(),
            2 => {
                let room = self.asked_room();
                Asked::Receive { room }
            }
            3 => {
                let messages = self.messages();
                let bits = self.bits();
                Asked::Allocate { messages, bits }
            }
            4 => {
                let messages = self.dice.byte();
                let bits = self.dice.byte();
                Asked::CallBack { messages, bits }
            }
            5 => Asked::Interrupt,
            _ => self.close_or_echo(),
        }
    }

    /// Makes this call without bits.
    pub fn make(&mut self, host: &mut Seat, tried: Tried, asked: Asked) {
        let answer = match host {
            Some(host) => Some(call(host, tried, asked)),
            None => None,
        };
        let _done = self.digest.mix_answer(answer);
    }

    /// Makes a call without bits.
    pub fn ask(&mut self, host: &mut Seat, tried: Tried, which: u64) {
        let asked = self.asked(which, is_up(host, tried.peer));
        self.make(host, tried, asked);
    }

    /// Makes many requests to one peer: until its table, its links or its queue is full.
    pub fn ask_often(&mut self, host: &mut Seat, peer: u8) {
        let sockets = 100 + 200 * self.dice.pick(2) as u32;
        let count = self.dice.pick(80) as u32;
        let sends = self.dice.one_in(2);
        for each in 0..count {
            let even = sockets + 2 * each;
            let (tried, asked) = if sends {
                (
                    Tried::new(peer, even + 1, even),
                    Asked::Send { size: 8, room: 64 },
                )
            } else {
                (
                    Tried::new(peer, even, even + 1),
                    Asked::Receive { room: 64 },
                )
            };
            self.make(host, tried, asked);
        }
    }

    /// Gives these bits as text.
    pub fn give_bits(&mut self, host: &mut Seat, tried: Tried, bytes: &[u8], bits: usize) {
        let Some(host) = host else {
            return self.digest.mix_code(NO_HOST);
        };
        match Bits::from_bytes(bytes, bits) {
            Ok(text) => {
                let answer = host.give(tried.peer, tried.pair, &text);
                let _done = self.digest.mix_answer(Some(answer));
            }
            Err(fault) => self.digest.mix_code(bits_code(fault)),
        }
    }

    /// Gives text.
    pub fn give(&mut self, host: &mut Seat, tried: Tried) {
        let len = if self.dice.one_in(8) {
            self.dice.size(1_025)
        } else {
            LONGEST
        };
        let mut buffer = self.filled();
        let bits = if self.dice.one_in(4) {
            self.dice.size(9_000)
        } else {
            8 * self.dice.size(40)
        };
        if bits % 8 != 0 && bits / 8 < LONGEST && !self.dice.one_in(8) {
            buffer[bits / 8] = 0;
        }
        self.give_bits(host, tried, &buffer[..len], bits);
    }

    /// Takes text.
    pub fn take(&mut self, host: &mut Seat, tried: Tried) {
        let room = self.dice.room(1024);
        let bytes = self.dice.mostly(200, 8);
        let Some(host) = host else {
            return self.digest.mix_code(NO_HOST);
        };
        if room < LONGEST {
            return self.digest.mix_code(SHORT_BUFFER);
        }
        match host.take(tried.peer, tried.pair, bytes) {
            Ok(text) => self.digest.mix_bits(&text),
            Err(fault) => self.digest.mix_code(fault_code(fault)),
        }
    }
}

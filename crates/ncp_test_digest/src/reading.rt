//! The readings of a host.
use crate::table::{LONGEST, Seat, Table, Tried};
use ncp_bits::Bits;
use ncp_host::{Host, Role};
use ncp_model::{CallFault, Pair};
use ncp_results::{
    Changes, ConnectionInfo, DONE, NO_HOST, NOTHING, ResultCode, SHORT_BUFFER, changes_between,
    connection_of, counted_of, discarded_of, error_in, fault_code, no_connection, noted_of,
    phase_of, reading_of, seen_of, unacknowledged_to,
};
use ncp_wire::{LONGEST_COMMAND, put_command};

/// A connection whose changes are followed.
#[derive(Clone, Copy, Drop)]
pub struct Followed {
    tried: Tried,
    seen: ConnectionInfo,
}

impl Followed {
    /// No connection of any host.
    pub fn new() -> Self {
        Followed::on(Tried::new(0, 0, 0))
    }

    /// A connection before anything of it was seen.
    pub fn on(tried: Tried) -> Self {
        Followed {
            tried,
            seen: no_connection(),
        }
    }
}

/// Whether a host is up with a peer.
pub fn is_up(host: &Seat, peer: u8) -> bool {
    let Some(host) = host else {
        return false;
    };
    match host.phase(peer) {
        Ok(it) => !(it.down || it.want || it.owe || it.wait),
        Err(_) => false,
    }
}

fn is_open(host: &Seat, tried: Tried) -> bool {
    let Some(host) = host else {
        return false;
    };
    match host.state(tried.peer, tried.pair) {
        Ok(it) => it.asked && it.heard && !(it.leaving || it.left),
        Err(_) => false,
    }
}

fn is_held(host: &Seat, peer: u8, link: u8) -> bool {
    let Some(host) = host else {
        return false;
    };
    match host.is_held(peer, link) {
        Ok(is_held) => is_held,
        Err(_) => false,
    }
}

impl Table {
    fn mix_connection(&mut self, it: &ConnectionInfo) {
        self.digest.mix_numbers(&[it.bits, it.stored, it.interrupts, u32::from(it.messages)]);
        self.digest.mix_bytes(&[it.link, it.size]);
        let flags = [
            it.sends, it.asked, it.heard, it.opened, it.leaving, it.left, it.cls, it.busy,
            it.recall,
        ];
        self.digest.mix_flags(&flags);
    }

    fn mix_pair(&mut self, pair: Pair) {
        self.digest.mix_numbers(&[pair.local, pair.remote]);
    }

    fn mix_changes(&mut self, it: &Changes) {
        let flags = [
            it.closed,
            it.refused,
            it.ended,
            it.asks,
            it.opened,
            it.text,
            it.allowed,
            it.delivered,
            it.interrupted,
            it.closes,
        ];
        self.digest.mix_flags(&flags);
    }

    // Mixes in the code of an answer that may be nothing, and returns what it has.
    fn mix_optional<T>(&mut self, answer: Option<Result<Option<T>, CallFault>>) -> Option<T> {
        match answer {
            Some(Ok(Some(it))) => {
                self.digest.mix_code(DONE);
                Some(it)
            }
            Some(Ok(None)) => {
                self.digest.mix_code(NOTHING);
                None
            }
            Some(Err(fault)) => {
                self.digest.mix_code(fault_code(fault));
                None
            }
            None => {
                self.digest.mix_code(NO_HOST);
                None
            }
        }
    }

    fn read_state(&mut self, host: &Seat, tried: Tried) {
        let Tried { peer, pair } = tried;
        let (record, room) = match host {
            Some(host) => (Some(host.state(peer, pair)), Some(host.room(peer, pair))),
            None => (None, None),
        };
        if let Some(record) = self.digest.mix_answer(record) {
            self.mix_connection(&connection_of(record));
        }
        let bits = self.digest.mix_answer(room).unwrap_or(0);
        self.digest.mix_code(bits);
        self.digest.mix_flag(is_open(host, tried));
    }

    fn read_list(&mut self, host: &Seat, peer: u8) {
        let place = if self.dice.one_in(8) {
            self.dice.pick(70) as u32
        } else {
            self.dice.pick(6) as u32
        };
        let answer = match host {
            Some(host) => Some(host.connection_at(peer, place)),
            None => None,
        };
        match self.mix_optional(answer) {
            Some((pair, record)) => {
                self.mix_pair(pair);
                self.mix_connection(&connection_of(record));
            }
            None => self.mix_pair(Pair::new(0, 0)),
        }
    }

    fn read_links(&mut self, host: &Seat, peer: u8) {
        let end = if self.dice.one_in(2) {
            Role::Send
        } else {
            Role::Receive
        };
        let link = self.link();
        let answer = match host {
            Some(host) => Some(host.pair_on(peer, end, link)),
            None => None,
        };
        let pair = self.mix_optional(answer).unwrap_or(Pair::new(0, 0));
        self.mix_pair(pair);
        self.digest.mix_flag(is_held(host, peer, link));
    }

    fn read_phase(&mut self, host: &Seat, peer: u8) {
        let (flags, echoed) = match host {
            Some(host) => (Some(host.phase(peer)), Some(host.echoed(peer))),
            None => (None, None),
        };
        if let Some(flags) = self.digest.mix_answer(flags) {
            let it = phase_of(flags);
            self.digest.mix_flags(&[it.down, it.want, it.owe, it.wait]);
        }
        self.digest.mix_flag(is_up(host, peer));
        let byte = self.mix_optional(echoed).unwrap_or(0);
        self.digest.mix_bytes(&[byte]);
    }

    fn read_counts(&mut self, host: &Seat, peer: u8) {
        let (counts, ignored) = match host {
            Some(host) => (Some(host.counts(peer)), Some(Ok(host.ignored()))),
            None => (None, None),
        };
        if let Some(counts) = self.digest.mix_answer(counts) {
            let it = counted_of(counts);
            let numbers = [
                it.stray,
                it.faults,
                it.wrong_link,
                it.wrong_size,
                it.not_up,
                it.late,
                it.over,
            ];
            self.digest.mix_numbers(&numbers);
        }
        if let Some(ignored) = self.digest.mix_answer(ignored) {
            let it = discarded_of(ignored);
            self.digest
                .mix_numbers(&[it.short_bits, it.other, it.unknown]);
        }
    }

    fn read_error(&mut self, host: &Seat, peer: u8) {
        let place = self.dice.pick(18) as u32;
        let answer = match host {
            Some(host) => Some(error_in(host, peer, place)),
            None => None,
        };
        if let Some(error) = self.mix_optional(answer) {
            let it = noted_of(error);
            self.digest.mix_bytes(&[it.code]);
            self.digest.mix_bytes(&it.bytes);
        }
    }

    fn read_waiting(&mut self, host: &Seat, peer: u8, room: usize) {
        let place = if self.dice.one_in(8) {
            self.dice.pick(300) as u32
        } else {
            self.dice.pick(4) as u32
        };
        let Some(host) = host else {
            return self.digest.mix_code(NO_HOST);
        };
        if room < LONGEST_COMMAND {
            return self.digest.mix_code(SHORT_BUFFER);
        }
        match host.waiting(peer, place) {
            Some(command) => {
                let spelled = put_command(&command);
                self.digest.mix_text(spelled.as_slice());
            }
            None => self.digest.mix_code(NOTHING),
        }
    }

    fn read_kept(&mut self, host: &Seat, peer: u8, link: u8, room: usize) {
        let Some(host) = host else {
            return self.digest.mix_code(NO_HOST);
        };
        if room < LONGEST {
            return self.digest.mix_code(SHORT_BUFFER);
        }
        match host.kept(peer, link) {
            Some(message) => self.digest.mix_bits(message),
            None => self.digest.mix_code(NOTHING),
        }
    }

    fn read_unacknowledged(&mut self, host: &Seat, peer: u8) {
        let answer = match host {
            Some(host) => Some(unacknowledged_to(host, peer)),
            None => None,
        };
        let number = match self.digest.mix_answer(answer) {
            Some(what) => what.number(),
            None => 0,
        };
        self.digest.mix_code(number);
    }

    fn read_queue(&mut self, host: &Seat, peer: u8) {
        let room = self.dice.room(12);
        self.read_waiting(host, peer, room);
        let link = self.link();
        let room = self.dice.room(1024);
        self.read_kept(host, peer, link, room);
        self.read_unacknowledged(host, peer);
    }

    fn read_name(&mut self) {
        let number = self.dice.mostly(100, 16);
        let room = self.dice.room(12);
        let Some(code) = ResultCode::of(number) else {
            return self.digest.mix_code(NOTHING);
        };
        let name = code.name().as_bytes();
        if room < name.len() {
            self.digest.mix_code(SHORT_BUFFER);
        } else {
            self.digest.mix_text(name);
        }
    }

    /// Half the time a connection that the host has with the peer, if there is one at some index.
    pub fn known_or(&mut self, host: &Seat, drawn: Tried) -> Tried {
        if !self.dice.one_in(2) {
            return drawn;
        }
        let place = self.dice.pick(4) as u32;
        let Some(host) = host else {
            return drawn;
        };
        match host.connection_at(drawn.peer, place) {
            Ok(Some((pair, _))) => Tried {
                peer: drawn.peer,
                pair,
            },
            _ => drawn,
        }
    }

    /// Reads one thing of a host.
    pub fn read_any(&mut self, host: &Seat, tried: Tried, which: u64) {
        let peer = tried.peer;
        match which {
            0 => self.read_state(host, tried),
            1 => self.read_list(host, peer),
            2 => self.read_links(host, peer),
            3 => self.read_phase(host, peer),
            4 => self.read_counts(host, peer),
            5 => self.read_error(host, peer),
            6 => self.read_queue(host, peer),
            _ => self.read_name(),
        }
    }

    /// Follows another connection at a host occasionally, and reads what changed of it.
    pub fn read_changes(&mut self, host: &Seat, tried: Tried, followed: &mut Followed) {
        if self.dice.one_in(8) {
            *followed = Followed::on(tried);
        }
        self.read_followed(host, followed);
    }

    /// Reads what changed of the connection that is followed at a host.
    pub fn read_followed(&mut self, host: &Seat, followed: &mut Followed) {
        let Tried { peer, pair } = followed.tried;
        let answer = match host {
            Some(host) => Some(reading_of(host.state(peer, pair))),
            None => None,
        };
        if let Some(now) = self.digest.mix_answer(answer) {
            let changes = changes_between(followed.seen, now);
            followed.seen = seen_of(now);
            self.mix_changes(&changes);
            self.mix_connection(&followed.seen);
        }
    }
}

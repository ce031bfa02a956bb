//! `Play`.
use crate::reading::Followed;
use crate::table::{LINKS, LONGEST, Seat, Table, Tried};
use crate::transit::{Lane, Net, PLAIN, bytes_of};
use ncp_host::{Host, HostFault};
use ncp_results::{DONE, host_code};
use ncp_subnet::Subnet;
use std::alloc::{AllocError, Global};

pub const A: u8 = 1;

pub const B: u8 = 2;

const C: u8 = 3;

const NUMBERS: [u8; 10] = [A, B, C, 4, 5, 6, 7, 8, 9, 10];

/// Two hosts, and a third that comes and goes.
#[derive(Drop)]
pub struct Hosts {
    pub first: Seat,
    pub second: Seat,
    pub third: Seat,
}

/// The hosts and the subnet, the connections that are followed, and the random numbers and the
/// digest of the run.
#[derive(Drop)]
pub struct Play {
    alloc: Global,
    pub hosts: Hosts,
    net: Net,
    pub followed: [Followed; 2],
    pub table: Table,
}

fn new_host(alloc: Global, me: u8) -> Result<Seat, HostFault> {
    if me == A {
        Ok(Some(Host::new(alloc, A, &NUMBERS[1..9])?))
    } else {
        Ok(Some(Host::new(alloc, B, &[A])?))
    }
}

impl Hosts {
    /// One of the two hosts.
    pub fn host(&mut self, me: u8) -> &mut Seat {
        if me == A {
            &mut self.first
        } else {
            &mut self.second
        }
    }
}

impl Table {
    // The third host sends, receives, is asked and read.
    fn play_third(&mut self, third: &mut Seat, tried: Tried) {
        match self.dice.pick(4) {
            0 => {
                let _message = self.next_output(third, LONGEST);
            }
            1 => self.feed(third, tried.peer),
            2 => {
                let which = 1 + self.dice.pick(6);
                self.ask(third, tried, which);
            }
            _ => {
                let which = self.dice.pick(7);
                self.read_any(third, tried, which);
            }
        }
    }

    // A peer of one of the hosts, mostly.
    fn peer_for(&mut self, me: u8) -> u8 {
        if self.dice.one_in(8) {
            return self.dice.byte();
        }
        if me == B {
            return A;
        }
        if self.dice.one_in(8) {
            return 4 + self.dice.small(6);
        }
        if self.dice.one_in(8) { C } else { B }
    }

    // A connection of one of the hosts, mostly.
    fn tried_for(&mut self, me: u8) -> Tried {
        let peer = self.peer_for(me);
        let place = if self.dice.one_in(16) {
            self.dice.pick(160) as u32
        } else {
            self.dice.pick(3) as u32
        };
        let high = if self.dice.one_in(8) {
            65_536 * self.dice.pick(65_536) as u32
        } else {
            0
        };
        let sockets = high + 2 + 2 * place;
        let local = sockets + self.dice.pick(2) as u32;
        let remote = if self.dice.one_in(8) {
            sockets.wrapping_add(self.dice.mostly(2, 64))
        } else {
            local ^ 1
        };
        Tried::new(peer, local, remote)
    }
}

impl Play {
    pub fn new(alloc: Global) -> Result<Self, HostFault> {
        let Ok(subnet) = Subnet::among(alloc, &NUMBERS[..3]) else {
            return Err(HostFault::OutOfMemory);
        };
        Ok(Play {
            alloc,
            hosts: Hosts {
                first: new_host(alloc, A)?,
                second: new_host(alloc, B)?,
                third: None,
            },
            net: Some(subnet),
            followed: [Followed::new(), Followed::new()],
            table: Table::new(),
        })
    }

    pub fn digest(&self) -> u64 {
        self.table.digest.value()
    }

    // The next message of a host goes to the subnet, if the subnet accepts it; else it is answered
    // as if its destination were dead.
    fn carry_with(&mut self, me: u8, room: usize, luck: u64) {
        let output = self.table.next_output(self.hosts.host(me), room);
        let Some(output) = output else {
            return;
        };
        let (message, bits) = bytes_of(&output);
        let lane = Lane {
            from: me,
            to: message[1],
            link: message[2],
        };
        if !self.table.accept(&mut self.net, me, &message, bits) {
            let kind = if luck < 4 { 9 } else { 7 };
            self.table
                .answer(self.hosts.host(me), kind, lane.to, lane.link);
        } else if 0 < luck {
            self.table.pass(&mut self.hosts, &mut self.net, lane, luck);
        }
    }

    fn carry(&mut self, me: u8) {
        let room = self.table.dice.room(1024);
        let luck = self.table.dice.pick(48);
        self.carry_with(me, room, luck);
    }

    /// What is in transit between the two hosts arrives, and some messages of each.
    pub fn exchange(&mut self) {
        for link in 0..LINKS {
            for (from, to) in [(A, B), (B, A)] {
                let lane = Lane {
                    from,
                    to,
                    link: link as u8,
                };
                self.table.pass(&mut self.hosts, &mut self.net, lane, PLAIN);
            }
        }
        for _ in 0..6 {
            self.carry_with(A, LONGEST, PLAIN);
            self.carry_with(B, LONGEST, PLAIN);
        }
    }

    // Any message in transit, and bits that no host sends.
    fn shift(&mut self, me: u8) {
        let table = &mut self.table;
        let from = A + table.dice.small(3);
        let to = A + table.dice.small(3);
        let link = table.dice.small(LINKS);
        if !table.dice.one_in(4) {
            let luck = table.dice.pick(16);
            return table.pass(
                &mut self.hosts,
                &mut self.net,
                Lane { from, to, link },
                luck,
            );
        }
        let mut buffer = table.filled();
        buffer[0] = table.dice.small(2);
        buffer[1] = to;
        buffer[2] = link;
        let len = table.dice.size(40);
        let _accepted = table.accept(&mut self.net, me, &buffer[..len], 8 * len);
    }

    fn mix_made(&mut self, made: Result<(), HostFault>) {
        match made {
            Ok(()) => self.table.digest.mix_code(DONE),
            Err(fault) => self.table.digest.mix_code(host_code(fault)),
        }
    }

    // Makes the third host, mostly with numbers that no host has.
    fn make_third(&mut self) {
        let me = self.table.dice.small(12);
        let from = self.table.dice.size(2);
        let count = self.table.dice.size(10 - from as u64);
        let made = match Host::new(self.alloc, me, &NUMBERS[from..from + count]) {
            Ok(host) => {
                self.hosts.third = Some(host);
                Ok(())
            }
            Err(fault) => Err(fault),
        };
        self.mix_made(made);
    }

    // One of the two hosts as it begins.
    fn begin(&mut self, me: u8) {
        self.hosts.third = None;
        let made = match new_host(self.alloc, me) {
            Ok(host) => {
                *self.hosts.host(me) = host;
                Ok(())
            }
            Err(fault) => Err(fault),
        };
        self.mix_made(made);
    }

    fn copy(&mut self, me: u8) -> Result<(), AllocError> {
        if let Some(host) = self.hosts.host(me) {
            let copy = host.copy(self.alloc)?;
            self.hosts.third = Some(copy);
            self.table.digest.mix_code(DONE);
        }
        Ok(())
    }

    // Hosts are made, copied and freed, and the subnet too.
    fn live(&mut self, me: u8) -> Result<(), AllocError> {
        match self.table.dice.pick(16) {
            0..=3 => self.copy(me)?,
            4..=7 => self.make_third(),
            8 => self.hosts.third = None,
            9..=11 => self.table.mix_saved(&self.hosts.third, self.alloc)?,
            12 => {
                if self.table.dice.one_in(16) {
                    self.begin(me);
                }
            }
            13 => {
                if self.table.dice.one_in(64) {
                    self.net = None;
                }
            }
            14 => {
                if self.table.dice.one_in(4) {
                    self.net = Some(Subnet::among(self.alloc, &NUMBERS[..3])?);
                    self.table.digest.mix_code(DONE);
                }
            }
            _ => {
                if self.table.dice.one_in(4) {
                    let peer = if self.table.dice.one_in(4) {
                        C
                    } else if me == A {
                        B
                    } else {
                        A
                    };
                    self.table.ask_often(self.hosts.host(me), peer);
                }
            }
        }
        Ok(())
    }

    // The third host is loaded from its own spoiled bytes.
    fn load_third(&mut self) -> Result<(), AllocError> {
        let from = self.hosts.third.take();
        let mut loaded = None;
        self.table.load(&from, &mut loaded, self.alloc)?;
        self.hosts.third = match loaded {
            Some(host) => Some(host),
            None => from,
        };
        Ok(())
    }

    // The third host is loaded from the spoiled bytes of one of the three.
    fn load(&mut self) -> Result<(), AllocError> {
        let Hosts {
            first,
            second,
            third,
        } = &mut self.hosts;
        match self.table.dice.pick(3) {
            0 => self.table.load(first, third, self.alloc),
            1 => self.table.load(second, third, self.alloc),
            _ => self.load_third(),
        }
    }

    // Some times so.
    fn load_some(&mut self) -> Result<(), AllocError> {
        for _ in 0..1 + self.table.dice.pick(3) {
            self.load()?;
        }
        Ok(())
    }

    // A random step.
    fn step_at(&mut self, me: u8) -> Result<(), AllocError> {
        let drawn = self.table.tried_for(me);
        let which = self.table.dice.pick(64);
        let table = &mut self.table;
        let tried = table.known_or(self.hosts.host(me), drawn);
        match which {
            0..=20 => table.ask(self.hosts.host(me), tried, which % 7),
            21..=25 => table.give(self.hosts.host(me), tried),
            26..=27 => table.take(self.hosts.host(me), tried),
            28..=35 => table.read_any(self.hosts.host(me), tried, which - 28),
            36..=37 => {
                let place = if me == A { 0 } else { 1 };
                let host = self.hosts.host(me);
                table.read_changes(host, tried, &mut self.followed[place]);
            }
            38..=40 => table.feed(self.hosts.host(me), tried.peer),
            41..=42 => self.load_some()?,
            43..=44 => table.play_third(&mut self.hosts.third, tried),
            45 => self.live(me)?,
            46..=47 => self.shift(me),
            48..=49 => self.talk(me),
            _ => self.carry(me),
        }
        Ok(())
    }

    /// Makes a step, and after each hundredth mixes in the bytes of a host. `count` is the number of
    /// steps, this one among them.
    pub fn step(&mut self, count: u64) -> Result<(), AllocError> {
        let me = if self.table.dice.pick(2) == 0 { A } else { B };
        self.step_at(me)?;
        if count % 200 == 0 {
            self.table.mix_saved(&self.hosts.first, self.alloc)?;
        } else if count % 100 == 0 {
            self.table.mix_saved(&self.hosts.second, self.alloc)?;
        }
        Ok(())
    }
}

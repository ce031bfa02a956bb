//! What goes through the subnet.
use crate::play::{A, B, Hosts};
use crate::table::{LONGEST, Seat, Table};
use ncp_bits::Bits;
use ncp_results::{DONE, NO_HOST, NO_SUBNET, NOTHING, SHORT_BUFFER, bits_code, subnet_code};
use ncp_subnet::Subnet;

/// With this luck a message is delivered and answered.
pub const PLAIN: u64 = 5;

/// The subnet, or none.
pub type Net = Option<Subnet>;

/// The link of a message, with the host that sent it and the host that receives it.
#[derive(Clone, Copy, Drop)]
pub struct Lane {
    pub from: u8,
    pub to: u8,
    pub link: u8,
}

/// A message at the front of a buffer, and its number of bits.
pub fn bytes_of(message: &Bits) -> ([u8; LONGEST], usize) {
    let mut bytes = [0; LONGEST];
    let bits = message.len();
    let _used = message.to_bytes(&mut bytes);
    (bytes, bits)
}

impl Table {
    // Whether a message is under way that is lost, or finds its destination dead.
    fn end(&mut self, net: &mut Net, lane: Lane, is_dead: bool) {
        let Some(subnet) = net else {
            return self.digest.mix_code(NO_SUBNET);
        };
        let is_ended = if is_dead {
            subnet.dead(lane.from, lane.to, lane.link)
        } else {
            subnet.lose(lane.from, lane.to, lane.link)
        };
        self.digest.mix_code(if is_ended { DONE } else { NOTHING });
    }

    // The message that the subnet delivers, or its answer.
    fn mix_message(&mut self, found: Option<Option<Bits>>) -> Option<Bits> {
        match found {
            Some(Some(message)) => {
                self.digest.mix_bits(&message);
                Some(message)
            }
            Some(None) => {
                self.digest.mix_code(NOTHING);
                None
            }
            None => {
                self.digest.mix_code(NO_SUBNET);
                None
            }
        }
    }

    fn deliver(&mut self, net: &mut Net, lane: Lane, room: usize) -> Option<Bits> {
        let found = match net {
            Some(_) if room < LONGEST => {
                self.digest.mix_code(SHORT_BUFFER);
                return None;
            }
            Some(subnet) => Some(subnet.deliver(lane.from, lane.to, lane.link)),
            None => None,
        };
        self.mix_message(found)
    }

    fn answer_of(&mut self, net: &mut Net, lane: Lane, room: usize) -> Option<Bits> {
        let found = match net {
            Some(_) if room < LONGEST => {
                self.digest.mix_code(SHORT_BUFFER);
                return None;
            }
            Some(subnet) => Some(subnet.answer(lane.from, lane.to, lane.link)),
            None => None,
        };
        self.mix_message(found)
    }

    fn receive_delivered(
        &mut self,
        hosts: &mut Hosts,
        to: u8,
        message: &[u8; LONGEST],
        bits: usize,
    ) {
        if to == A {
            self.receive(&mut hosts.first, message, bits);
        } else if to == B {
            self.receive(&mut hosts.second, message, bits);
        }
    }

    // A message is delivered, and spoiled occasionally.
    fn pass_on(
        &mut self,
        hosts: &mut Hosts,
        net: &mut Net,
        lane: Lane,
        luck: u64,
        room: usize,
        spoiled: usize,
    ) {
        let delivered = self.deliver(net, lane, room);
        let flip = if luck == 3 {
            1 << self.dice.small(8)
        } else {
            0
        };
        if let Some(message) = delivered {
            let (mut bytes, bits) = bytes_of(&message);
            if spoiled < LONGEST {
                bytes[spoiled] ^= flip;
            }
            self.receive_delivered(hosts, lane.to, &bytes, bits);
        }
    }

    fn receive_answer(&mut self, hosts: &mut Hosts, from: u8, answer: &Bits) {
        let (bytes, bits) = bytes_of(answer);
        if from == A {
            self.receive(&mut hosts.first, &bytes[..4], bits);
        } else if from == B {
            self.receive(&mut hosts.second, &bytes[..4], bits);
        }
    }

    /// The message on a link is lost, or finds its destination dead, or is delivered; mostly it is
    /// answered.
    pub fn pass(&mut self, hosts: &mut Hosts, net: &mut Net, lane: Lane, luck: u64) {
        let room = self.dice.room(1024);
        let spoiled = self.dice.size(128);
        match luck {
            1 => self.end(net, lane, false),
            2 => self.end(net, lane, true),
            _ => self.pass_on(hosts, net, lane, luck, room, spoiled),
        }
        if luck == 4 {
            return;
        }
        if let Some(answer) = self.answer_of(net, lane, room) {
            self.receive_answer(hosts, lane.from, &answer);
        }
    }

    /// Gives bits to the subnet, and returns whether it accepts them.
    pub fn accept(&mut self, net: &mut Net, from: u8, bytes: &[u8], bits: usize) -> bool {
        let Some(subnet) = net else {
            self.digest.mix_code(NO_SUBNET);
            return false;
        };
        let message = match Bits::from_bytes(bytes, bits) {
            Ok(message) => message,
            Err(fault) => {
                self.digest.mix_code(bits_code(fault));
                return false;
            }
        };
        match subnet.accept(from, &message) {
            Ok(()) => {
                self.digest.mix_code(DONE);
                true
            }
            Err(fault) => {
                self.digest.mix_code(subnet_code(fault));
                false
            }
        }
    }

    /// The next message of a host.
    pub fn next_output(&mut self, host: &mut Seat, room: usize) -> Option<Bits> {
        let Some(host) = host else {
            self.digest.mix_code(NO_HOST);
            return None;
        };
        if room < LONGEST {
            self.digest.mix_code(SHORT_BUFFER);
            return None;
        }
        match host.next_output() {
            Some(message) => {
                self.digest.mix_bits(&message);
                Some(message)
            }
            None => {
                self.digest.mix_code(NOTHING);
                None
            }
        }
    }
}

//! `Table`.
use crate::dice::Dice;
use crate::digest::Digest;
use ncp_bits::PackedStore;
use ncp_host::Host;
use ncp_model::Pair;

/// A host, or none.
pub type Seat = Option<Host<PackedStore>>;

/// The size of a message buffer, in bytes.
pub const LONGEST: usize = 1024;

/// The links that are used mostly.
pub const LINKS: u64 = 6;

/// The random numbers, and the digest of the results.
#[derive(Drop)]
pub struct Table {
    pub dice: Dice,
    pub digest: Digest,
}

/// The connection of a call: a peer and two sockets.
#[derive(Clone, Copy, Drop)]
pub struct Tried {
    pub peer: u8,
    pub pair: Pair,
}

impl Tried {
    pub fn new(peer: u8, local: u32, remote: u32) -> Self {
        Tried {
            peer,
            pair: Pair::new(local, remote),
        }
    }
}

impl Table {
    pub fn new() -> Self {
        Table {
            dice: Dice::new(),
            digest: Digest::new(),
        }
    }

    /// A buffer of random bytes.
    pub fn filled(&mut self) -> [u8; LONGEST] {
        let mut buffer = [0; LONGEST];
        for place in 0..48 {
            buffer[place] = self.dice.byte();
        }
        for place in 48..LONGEST {
            buffer[place] = buffer[place - 48].wrapping_add(1);
        }
        buffer
    }

    /// A link, mostly a small one.
    pub fn link(&mut self) -> u8 {
        if self.dice.one_in(8) {
            self.dice.byte()
        } else {
            self.dice.small(LINKS)
        }
    }
}

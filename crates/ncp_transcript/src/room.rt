//! `Room`.
ghost use Rattle.std.specs.Prelude.{◌≤◌, vec_capacity};

use ncp_bits::MAX_BITS;
use std::alloc::{AllocError, Global};
use std::marker::Model;

/// The size of the longest message in bytes.
pub(crate) const MAX_BYTES: usize = MAX_BITS / 8;

/// Memory for the bits of any message, allocated before the message is known.
#[derive(Drop)]
pub struct Room {
    bytes: Vec<u8>,
}

impl Model for Room {
    ghost use Rattle.std.specs.Prelude.{◌≤◌, vec_capacity};
    ghost use Rattle.ncp_transcript.specs.declared.room.TheConstants.{MAX_BYTES};

    ghost Value = { Unit {0} };

    ghost view = { λ room. tt };

    ghost invariant = { λ room. MAX_BYTES ≤ vec_capacity room.bytes };
}

impl Room {
    /// Allocates the memory: as many bytes as the longest message needs.
    pub fn new(alloc: Global) -> Result<Room, AllocError> {
        Ok(Room {
            bytes: Vec::with_capacity(alloc, MAX_BYTES)?,
        })
    }

    /// The memory.
    pub(crate) fn into_bytes(self) -> Vec<u8>
        ensures { MAX_BYTES ≤ vec_capacity result }
    {
        self.bytes
    }
}

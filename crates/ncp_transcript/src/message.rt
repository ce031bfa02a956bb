//! `Message`.
ghost use Rattle.std.specs.Prelude.{◌≡◌, ◌≤◌, ◌↔◌, IsTrue, [], length, take, Ok, Err, IfOk, IfErr, OnOk, vec_capacity};
ghost use Rattle.ncp_numbers.specs.Bytes.{bytes_for};
ghost use Rattle.ncp_bits.specs.Bits.{read_bytes};
ghost use Rattle.ncp_transcript.specs.Packed.{bits_in, IsExact};

use crate::room::Room;
use ncp_bits::{Bits, BitsFault, MAX_BITS, Part};
use std::alloc::{AllocError, Global};
use std::marker::Model;

/// The bits of a message, in as many bytes as they need: on the heap, eight bits a byte, spare bits
/// zero.
#[derive(Debug, Drop)]
pub struct Message {
    bytes: Vec<u8>,
    len: usize,
}

impl Model for Message {
    ghost use Rattle.std.specs.Prelude.{List, Bool};
    ghost use Rattle.ncp_transcript.specs.Packed.{bits_in, IsExact};

    ghost Value = { List Bool };

    ghost view = { λ m. bits_in m.bytes.items m.len };

    ghost invariant = { λ m. IsExact m.bytes.items m.len };
}

// Stores bits in existing memory, and frees the excess.
fn pack(room: Vec<u8>, bits: &Bits) -> Message
    requires { bytes_for (length bits.now) ≤ vec_capacity room }
    ensures { result ≡ bits.now }
{
    let mut bytes = room;
    bytes.clear();
    bytes.resize(bits.len().div_ceil(8), 0).unwrap();
    bits.to_bytes(bytes.as_mut_slice());
    bytes.shrink_to_fit();
    Message {
        bytes,
        len: bits.len(),
    }
}

/// Stores bits in room for any message, and frees the excess.
pub(crate) fn pack_in_room(room: Room, bits: &Bits) -> Message
    ensures { result ≡ bits.now }
{
    // For the prover: at most MAX_BITS.
    let _bits = bits.len();
    pack(room.into_bytes(), bits)
}

// Checks whether the first `len` bits of bytes can be read.
fn judge(bytes: &[u8], len: usize) -> Result<(), BitsFault>
    ensures exact { OnOk result (IsExact (take (bytes_for len) bytes.now) len) }
    ensures read { OnOk result (read_bytes bytes.now len ≡ Ok (bits_in (take (bytes_for len) bytes.now) len)) }
    ensures err { IfErr result (λ fault. read_bytes bytes.now len ≡ Err fault) }
{
    Part::from_bytes(bytes, len)?;
    Ok(())
}

impl Message {
    /// A copy of bits. Allocates as many bytes as they need.
    pub fn from_bits(alloc: Global, bits: &Bits) -> Result<Message, AllocError>
        ensures { IfOk result (λ message. message ≡ bits.now) }
    {
        let room = Vec::with_capacity(alloc, bits.len().div_ceil(8))?;
        Ok(pack(room, bits))
    }

    /// Makes a message of the first `len` bits, in the memory of `bytes`; excess memory is freed.
    ///
    /// Refused, in the order of [`Bits::from_bytes`]: `TooLong` (over [`MAX_BITS`]), `ShortBytes`,
    /// `SpareNotZero` (a bit after `len` in the last byte used).
    pub fn from_bytes(bytes: Vec<u8>, len: usize) -> Result<Message, BitsFault>
        ensures { result ≡ read_bytes bytes.items len }
    {
        judge(&bytes, len)?;
        let mut kept = bytes;
        kept.truncate(len.div_ceil(8));
        kept.shrink_to_fit();
        Ok(Message { bytes: kept, len })
    }

    /// A copy of the message. Allocates as many bytes as its bits need.
    pub fn copy(&self, alloc: Global) -> Result<Message, AllocError>
        ensures { IfOk result (λ message. message ≡ self.now) }
    {
        let mut bytes = Vec::with_capacity(alloc, self.bytes.len())?;
        bytes.extend_from_slice(&self.bytes).unwrap();
        Ok(Message {
            bytes,
            len: self.len,
        })
    }

    /// The bits, borrowed without a copy.
    pub fn whole(&self) -> Part<'_>
        ensures { result ≡ self.now }
    {
        Part::from_bytes(&self.bytes, self.len).unwrap()
    }

    /// A copy of the bits.
    pub fn to_bits(&self) -> Bits
        ensures { result ≡ self.now }
    {
        Bits::from_bytes(&self.bytes, self.len).unwrap()
    }

    /// The number of bits.
    pub fn len(&self) -> usize
        ensures len { result ≡ length self.now }
        ensures fits { result ≤ MAX_BITS }
    {
        self.len
    }

    /// Whether the message has no bits.
    pub fn is_empty(&self) -> bool
        ensures { IsTrue result ↔ (length self.now ≡ 0) }
    {
        0 == self.len()
    }
}

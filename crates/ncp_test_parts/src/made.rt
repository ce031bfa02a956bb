//! Bits made from bytes.
use ncp_bits::{Bits, Part};
use std::process::Abort;

/// The bits of these bytes.
pub(crate) fn bits_of(rt: &impl Abort, bytes: &[u8]) -> Bits {
    first_bits(rt, bytes, bytes.len().saturating_mul(8))
}

/// The first bits of bytes.
pub(crate) fn first_bits(rt: &impl Abort, bytes: &[u8], len: usize) -> Bits {
    Bits::from_bytes(bytes, len).expect(rt, "bits")
}

/// The first `len` bits of 1,024 equal bytes.
pub(crate) fn bits_of_one(rt: &impl Abort, byte: u8, len: usize) -> Bits {
    first_bits(rt, &[byte; 1024], len)
}

/// The first bits of bytes, as a part.
pub(crate) fn part_of<'a>(rt: &impl Abort, bytes: &'a [u8], len: usize) -> Part<'a> {
    Part::from_bytes(bytes, len).expect(rt, "bits")
}

/// A run of bits.
pub(crate) fn run<'a>(rt: &impl Abort, bits: &'a Bits, at: usize, len: usize) -> Part<'a> {
    assert!(rt; at <= bits.len() && len <= bits.len() - at);
    bits.slice(at, len)
}

/// Whether a part has `len` bits, written as these bytes, with the byte after them unchanged.
pub(crate) fn is_written(part: &Part<'_>, len: usize, bytes: &[u8]) -> bool {
    if part.len() != len {
        return false;
    }
    let mut out = [0xffu8; 1025];
    let used = part.to_bytes(&mut out);
    out[..used] == bytes[..] && out[used] == 0xff
}

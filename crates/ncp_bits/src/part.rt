//! `Part`.
ghost use Rattle.std.specs.Prelude.{◌≡◌, ◌+◌, ◌*◌, ◌<◌, ◌≤◌, ◌^◌, ◌++◌, ◌↔◌, IsTrue, [], length, drop, slice_range, slice_get, Some, IfSome, IfOk};
ghost use Rattle.ncp_numbers.specs.Numbers.{number_of};
ghost use Rattle.ncp_numbers.specs.Bytes.{bytes_for, bytes_of};
ghost use Rattle.ncp_bits.specs.Bits.{read_bytes};
ghost use Rattle.ncp_bits.specs.Packed.{bit_run};

use crate::bits::{Bits, BitsFault, MAX_BITS};
use crate::reading::{bit_in, bytes_in, bytes_taken, number_in};
use crate::writing::write_run;
use std::fmt;
use std::marker::Model;

/// A run of bits, borrowed without a copy from a [`Bits`] or from bytes. It may start at any bit.
#[derive(Drop)]
pub struct Part<'a> {
    bytes: &'a [u8],
    skip: usize,
    len: usize,
}

impl<'a> Model for Part<'a> {
    ghost use Rattle.std.specs.Prelude.{List, Bool};
    ghost use Rattle.ncp_bits.specs.Packed.{bit_run, IsPart};

    ghost Value = { List Bool };

    ghost view = { λ part. bit_run part.bytes.now part.skip part.len };

    ghost invariant = { λ part. IsPart part.bytes.now part.skip part.len };
}

impl<'a> Part<'a> {
    /// The first `len` bits of bytes, borrowed. Bytes after the last one used are ignored.
    ///
    /// Refused as by [`Bits::from_bytes`], in this order: `TooLong` (over [`MAX_BITS`]),
    /// `ShortBytes`, `SpareNotZero` (a bit after `len` in the last byte used).
    #[inline(always)]
    pub fn from_bytes(bytes: &'a [u8], len: usize) -> Result<Part<'a>, BitsFault>
        ensures read { result ≡ read_bytes bytes.now len }
        ensures len { IfOk result (λ part. length part ≡ len) }
    {
        let taken = bytes_taken(bytes, len)?;
        Ok(Part::of_bytes(taken, 0, len))
    }

    /// The `len` bits of bytes from `from` on.
    pub(crate) fn of_bytes(bytes: &'a [u8], from: usize, len: usize) -> Part<'a>
        requires fits { len ≤ MAX_BITS }
        requires inside { from + len ≤ 8 * length bytes.now }
        ensures bits { result ≡ bit_run bytes.now from len }
        ensures len { length result ≡ len }
    {
        Part {
            bytes: &bytes[from / 8..],
            skip: from % 8,
            len,
        }
    }

    /// The number of bits.
    pub fn len(&self) -> usize
        ensures len { result ≡ length self.now }
        ensures fits { result ≤ MAX_BITS }
    {
        self.len
    }

    /// Whether there are none.
    pub fn is_empty(&self) -> bool
        ensures { IsTrue result ↔ (length self.now ≡ 0) }
    {
        self.len == 0
    }

    /// The bit at index `place`, from 0. Reads one byte.
    pub fn bit(&self, place: usize) -> bool
        requires { place < length self.now }
        ensures { slice_get self.now place ≡ Some result }
    {
        bit_in(self.bytes, self.skip + place)
    }

    /// The number in the `width` bits from `at` on, most significant first. Reads each byte of them
    /// once, nine at most.
    // Compiles to no loop for a part that is known to start at a byte boundary.
    #[inline(always)]
    #[tactic(auto, using(ncp_numbers::proofs::Numbers::number_of_range))]
    pub fn number(&self, at: usize, width: usize) -> u64
        requires width { width ≤ 64 }
        requires inside { at + width ≤ length self.now }
        ensures number { result ≡ number_of (slice_range self.now at (at + width)) }
        ensures fits { result < 2 ^ width }
    {
        number_in(self.bytes, self.skip + at, width)
    }

    /// The `len` bits from `at` on, borrowed.
    pub fn slice(&self, at: usize, len: usize) -> Part<'a>
        requires { at + len ≤ length self.now }
        ensures bits { result ≡ slice_range self.now at (at + len) }
        ensures len { length result ≡ len }
    {
        Part::of_bytes(self.bytes, self.skip + at, len)
    }

    /// A copy of the bits. Costs a new [`Bits`] and a `to_bytes`.
    pub fn to_bits(&self) -> Bits
        ensures { result ≡ self.now }
    {
        let mut bits = Bits::new();
        bits.append(self.slice(0, self.len())).unwrap();
        bits
    }

    /// The part's own bytes, borrowed, if it starts at a byte boundary and has no spare bit;
    /// otherwise `None`.
    ///
    /// The contracts do not say where a part starts, so they do not say when the result is `Some`.
    pub fn whole_bytes(&self) -> Option<&'a [u8]>
        ensures bytes { IfSome result (λ bytes. bytes_of self.now ≡ bytes.now) }
        ensures len { IfSome result (λ bytes. 8 * length bytes.now ≡ length self.now) }
        ensures fits { IfSome result (λ bytes. 8 * length bytes.now ≤ MAX_BITS) }
    {
        bytes_in(self.bytes, self.skip, self.len)
    }

    /// Writes the bits into bytes, spare bits zero, and returns the number of bytes. Later bytes
    /// are unchanged.
    ///
    /// Copies the bytes if the part starts at a byte boundary; otherwise each takes two shifts.
    pub fn to_bytes(&self, out: &mut [u8]) -> usize
        requires { bytes_for (length self.now) ≤ length out.old }
        ensures used { result ≡ bytes_for (length self.now) }
        ensures bytes { out.new ≡ bytes_of self.now ++ drop result out.old }
    {
        write_run(out, self.bytes, self.skip, self.len)
    }
}

// Whether two parts of the same length are equal, compared 64 bits at a time.
fn are_same(one: &Part<'_>, other: &Part<'_>) -> bool
    requires { length one.now ≡ length other.now }
    ensures { IsTrue result ↔ (one.now ≡ other.now) }
{
    let len = one.len();
    let mut at = 0;
    while at < len {
        let width = (len - at).min(64);
        if one.number(at, width) != other.number(at, width) {
            return false;
        }
        at += width;
    }
    true
}

impl<'a> PartialEq for Part<'a> {
    ghost use Rattle.std.proofs.Math.Bool.{beq};
    ghost use Rattle.std.specs.Cmp.{bool_eq_equiv, partial_equiv_from_equiv};
    ghost use Rattle.std.specs.Cmp.Lexicographic.{pointwise, lists_equiv};

    ghost eq = { pointwise beq };

    ghost laws = { partial_equiv_from_equiv (lists_equiv bool_eq_equiv) };

    fn eq(&self, other: &Part<'a>) -> bool {
        self.len() == other.len() && are_same(self, other)
    }
}

impl<'a> Eq for Part<'a> {
    ghost use Rattle.std.specs.Cmp.{bool_eq_equiv};
    ghost use Rattle.std.specs.Cmp.Lexicographic.{lists_equiv};

    ghost laws = { lists_equiv bool_eq_equiv };
}

// Prints the number of bits, and their bytes in hexadecimal, spare bits zero.
impl<'a> fmt::Debug for Part<'a> {
    fn fmt<W: fmt::Write>(&self, f: &mut fmt::Formatter<W>) -> fmt::Result {
        let len = self.len();
        write!(f, "bits={len} ")?;
        for place in 0..len.div_ceil(8) {
            let width = (len - 8 * place).min(8);
            let byte = self.number(8 * place, width) << (8 - width);
            write!(f, "{byte:02x}")?;
        }
        Ok(())
    }
}

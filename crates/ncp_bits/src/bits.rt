//! `Bits`.
ghost use Rattle.std.specs.Prelude.{◌≡◌, ◌+◌, ◌<◌, ◌≤◌, ◌^◌, ◌++◌, ◌↔◌, IsTrue, [], length, take, drop, slice_range, slice_get, Some, Ok, Err, IfOk, IfErr, OnOk, OnErr, IsOk};
ghost use Rattle.ncp_numbers.specs.Numbers.{number_of, bits_of};
ghost use Rattle.ncp_numbers.specs.Bytes.{bytes_for, bytes_of};
ghost use Rattle.ncp_bits.specs.Bits.{read_bytes};

use crate::append::write_after;
use crate::part::Part;
use crate::reading::{bit_in, bytes_taken};
use arrayvec::ArrayVec;
use std::fmt;
use std::marker::Model;
use thiserror::Error;

/// The most bits of a [`Bits`]: the length of the longest message that is read.
pub const MAX_BITS: usize = 8192;

// The bytes that these need.
const MAX_BYTES: usize = MAX_BITS / 8;

// The most bits of a number.
const NUMBER_BITS: usize = u64::BITS as usize;

// The initial bytes.
static ZEROS: [u8; MAX_BYTES] = [0; MAX_BYTES];

/// The reasons why bits are refused, in the order in which they are checked.
#[derive(Clone, Copy, Debug, Drop, PartialEq, Eq, Error)]
pub enum BitsFault {
    #[error("more than {MAX_BITS} bits")]
    TooLong = 1,
    #[error("fewer bytes than the bits take")]
    ShortBytes = 2,
    #[error("a spare bit of the last byte is set")]
    SpareNotZero = 3,
}

/// A bit string of at most [`MAX_BITS`] bits, packed eight to a byte. Never allocates: a new one
/// writes its [`MAX_BITS`] / 8 bytes once, and a move copies them.
#[derive(Drop)]
pub struct Bits {
    // At least the bytes that the bits need. They are never truncated, since that would write zeros
    // over the removed ones. Bytes after the bits are never read.
    bytes: ArrayVec<u8, MAX_BYTES>,
    len: usize,
}

impl Model for Bits {
    ghost use Rattle.std.specs.Prelude.{List, Bool};
    ghost use Rattle.ncp_bits.specs.Packed.{bit_run, HoldsBits};

    ghost Value = { List Bool };

    ghost view = { λ bits. bit_run bits.bytes.items 0 bits.len };

    ghost invariant = { λ bits. HoldsBits bits.bytes.items bits.len };
}

// Extends bytes with zeros to at least `len`.
fn lengthen(bytes: &mut ArrayVec<u8, MAX_BYTES>, len: usize)
    requires { len ≤ MAX_BYTES }
    ensures front { take (length bytes.old.items) bytes.new.items ≡ bytes.old.items }
    ensures kept { length bytes.old.items ≤ length bytes.new.items }
    ensures len { len ≤ length bytes.new.items }
{
    let held = bytes.len();
    if held < len {
        bytes.try_extend_from_slice(&ZEROS[..len - held]).unwrap();
    }
}

// Copies bytes over the start of others.
fn overwrite(out: &mut [u8], bytes: &[u8])
    requires { length bytes.now ≤ length out.old }
    ensures { out.new ≡ bytes.now ++ drop (length bytes.now) out.old }
{
    out[..bytes.len()].copy_from_slice(bytes);
}

impl Bits {
    /// No bits.
    pub fn new() -> Self
        ensures { result ≡ [] }
    {
        Bits {
            bytes: ArrayVec::new(),
            len: 0,
        }
    }

    /// The first `len` bits of bytes. Bytes after the last one used are ignored.
    ///
    /// Refused, in this order: `TooLong` (over [`MAX_BITS`]), `ShortBytes`, `SpareNotZero` (a bit
    /// after `len` in the last byte used).
    ///
    /// Costs a new [`Bits`] and a copy of the bytes.
    pub fn from_bytes(bytes: &[u8], len: usize) -> Result<Bits, BitsFault>
        ensures read { result ≡ read_bytes bytes.now len }
        ensures len { IfOk result (λ bits. length bits ≡ len) }
    {
        let mut bits = Bits::new();
        bits.copy_from_bytes(bytes, len)?;
        Ok(bits)
    }

    /// Becomes the first `len` bits of bytes. Refused as by `from_bytes`; a refusal changes
    /// nothing.
    ///
    /// Overwrites only the bytes that it needs, while a new [`Bits`] writes all of its bytes. So
    /// one [`Bits`] can be reused for a series of messages.
    // Inlined into the loop that reads messages, which has already checked that there are enough
    // bytes.
    #[inline(always)]
    pub fn copy_from_bytes(&mut self, bytes: &[u8], len: usize) -> Result<(), BitsFault>
        ensures ok { OnOk result (read_bytes bytes.now len ≡ Ok self.new) }
        ensures len { OnOk result (length self.new ≡ len) }
        ensures err { IfErr result (λ fault. read_bytes bytes.now len ≡ Err fault) }
        ensures stays { OnErr result (self.new ≡ self.old) }
    {
        let taken = bytes_taken(bytes, len)?;
        lengthen(&mut self.bytes, taken.len());
        overwrite(self.bytes.as_mut_slice(), taken);
        self.len = len;
        Ok(())
    }

    /// Becomes a copy of the bits of a part.
    pub fn copy_from_part(&mut self, part: Part<'_>)
        ensures { self.new ≡ part.entry }
    {
        // A part is short enough.
        let _len = part.len();
        self.copy_from_bytes(&[], 0).unwrap();
        self.append(part).unwrap();
    }

    /// The number of bits.
    pub fn len(&self) -> usize
        ensures len { result ≡ length self.now }
        ensures fits { result ≤ MAX_BITS }
    {
        self.len
    }

    /// Whether there are none.
    pub fn is_empty(&self) -> bool
        ensures { IsTrue result ↔ (length self.now ≡ 0) }
    {
        self.len == 0
    }

    /// The bit at index `place`, from 0. Reads one byte.
    pub fn bit(&self, place: usize) -> bool
        requires { place < length self.now }
        ensures { slice_get self.now place ≡ Some result }
    {
        bit_in(self.bytes.as_slice(), place)
    }

    /// The number in the `width` bits from `at` on, at most 64, most significant first. Reads each
    /// byte of them once, nine at most.
    pub fn number(&self, at: usize, width: usize) -> u64
        requires width { width ≤ 64 }
        requires inside { at + width ≤ length self.now }
        ensures number { result ≡ number_of (slice_range self.now at (at + width)) }
        ensures fits { result < 2 ^ width }
    {
        self.whole().number(at, width)
    }

    /// All bits, borrowed.
    pub fn whole(&self) -> Part<'_>
        ensures { result ≡ self.now }
    {
        Part::of_bytes(self.bytes.as_slice(), 0, self.len)
    }

    /// The `len` bits from `at` on, borrowed.
    pub fn slice(&self, at: usize, len: usize) -> Part<'_>
        requires { at + len ≤ length self.now }
        ensures bits { result ≡ slice_range self.now at (at + len) }
        ensures len { length result ≡ len }
    {
        self.whole().slice(at, len)
    }

    /// Copies the bits into bytes, spare bits zero, and returns the number of bytes. Later bytes
    /// are unchanged.
    pub fn to_bytes(&self, out: &mut [u8]) -> usize
        requires { bytes_for (length self.now) ≤ length out.old }
        ensures used { result ≡ bytes_for (length self.now) }
        ensures bytes { out.new ≡ bytes_of self.now ++ drop result out.old }
    {
        self.whole().to_bytes(out)
    }

    /// Appends a number in `width` bits, most significant first. A width over 64 adds leading
    /// zeros. `TooLong` if they do not fit.
    ///
    /// Costs as much as an `append` of `width` bits.
    pub fn push_number(&mut self, value: u64, width: usize) -> Result<(), BitsFault>
        requires value { value < 2 ^ width }
        ensures variant { IsOk result ↔ (length self.old + width ≤ MAX_BITS) }
        ensures ok { OnOk result (self.new ≡ self.old ++ bits_of width value) }
        ensures len { OnOk result (length self.new ≡ length self.old + width) }
        ensures err { OnErr result ((result ≡ Err BitsFault.TooLong) × (self.new ≡ self.old)) }
    {
        if width > MAX_BITS - self.len {
            return Err(BitsFault::TooLong);
        }
        let spelled = width.min(NUMBER_BITS);
        self.append(Part::of_bytes(&ZEROS, 0, width - spelled))
            .unwrap();
        let bytes = value.to_be_bytes();
        self.append(Part::of_bytes(&bytes, NUMBER_BITS - spelled, spelled))
    }

    /// Appends a part. `TooLong` if it does not fit.
    ///
    /// Fills the last byte first. If the rest of the part then starts at a byte boundary, it is
    /// copied; otherwise each byte takes two shifts. New bytes are first set to zero.
    pub fn append(&mut self, part: Part<'_>) -> Result<(), BitsFault>
        ensures variant { IsOk result ↔ (length self.old + length part.entry ≤ MAX_BITS) }
        ensures ok { OnOk result (self.new ≡ self.old ++ part.entry) }
        ensures len { OnOk result (length self.new ≡ length self.old + length part.entry) }
        ensures err { OnErr result ((result ≡ Err BitsFault.TooLong) × (self.new ≡ self.old)) }
    {
        if part.len() > MAX_BITS - self.len {
            return Err(BitsFault::TooLong);
        }
        let total = self.len + part.len();
        lengthen(&mut self.bytes, total.div_ceil(8));
        write_after(self.bytes.as_mut_slice(), self.len, &part);
        self.len = total;
        Ok(())
    }
}

impl Default for Bits {
    ghost use Rattle.std.specs.Prelude.{◌≡◌, []};

    ghost is_default = { λ bits. bits ≡ [] };

    fn default() -> Self {
        Bits::new()
    }
}

impl PartialEq for Bits {
    ghost use Rattle.std.proofs.Math.Bool.{beq};
    ghost use Rattle.std.specs.Cmp.{bool_eq_equiv, partial_equiv_from_equiv};
    ghost use Rattle.std.specs.Cmp.Lexicographic.{pointwise, lists_equiv};

    ghost eq = { pointwise beq };

    ghost laws = { partial_equiv_from_equiv (lists_equiv bool_eq_equiv) };

    fn eq(&self, other: &Bits) -> bool {
        self.whole() == other.whole()
    }
}

impl Eq for Bits {
    ghost use Rattle.std.specs.Cmp.{bool_eq_equiv};
    ghost use Rattle.std.specs.Cmp.Lexicographic.{lists_equiv};

    ghost laws = { lists_equiv bool_eq_equiv };
}

impl fmt::Debug for Bits {
    fn fmt<W: fmt::Write>(&self, f: &mut fmt::Formatter<W>) -> fmt::Result {
        self.whole().fmt(f)
    }
}

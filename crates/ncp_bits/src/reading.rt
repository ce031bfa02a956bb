//! Reading packed bits, eight to a byte.
ghost use Rattle.std.specs.Prelude.{◌≡◌, ◌+◌, ◌*◌, ◌<◌, ◌≤◌, ◌^◌, length, take, drop, false, slice_index_or, IfSome, IfOk, IfErr, Ok, Err};
ghost use Rattle.std.specs.List.{list_any};
ghost use Rattle.ncp_numbers.specs.Numbers.{number_of};
ghost use Rattle.ncp_numbers.specs.Bytes.{byte_bits, bits_of_bytes, bytes_for, bytes_of};
ghost use Rattle.ncp_bits.specs.Bits.{read_bytes};
ghost use Rattle.ncp_bits.specs.Packed.{bit_run};
ghost use Rattle.ncp_bits.specs.declared.bits.TheConstants.{MAX_BITS};

use crate::bits::{BitsFault, MAX_BITS};

/// The bit at index `place` of bytes.
pub(crate) fn bit_in(bytes: &[u8], place: usize) -> bool
    requires { place < 8 * length bytes.now }
    ensures { result ≡ slice_index_or (bits_of_bytes bytes.now) place false }
{
    (bytes[place / 8] >> (7 - place % 8)) & 1 == 1
}

// The number in the `count` bits of a byte from the bit `skip` on.
fn bits_in(byte: u8, skip: usize, count: usize) -> u8
    requires some { 0 < count }
    requires inside { skip + count ≤ 8 }
    ensures { result ≡ number_of (take count (drop skip (byte_bits byte))) }
{
    (byte << skip) >> (8 - count)
}

// The number in whole bytes.
fn number_of_bytes(bytes: &[u8]) -> u64
    requires { length bytes.now ≤ 8 }
    ensures { result ≡ number_of (bits_of_bytes bytes.now) }
{
    let mut number = 0;
    for byte in bytes {
        number = (number << 8) | u64::from(*byte);
    }
    number
}

// The number in a run that starts at any bit.
fn number_across(bytes: &[u8], from: usize, width: usize) -> u64
    requires width { width ≤ 64 }
    requires inside { from + width ≤ 8 * length bytes.now }
    requires counted { from + width < 2 ^ 64 }
    ensures { result ≡ number_of (bit_run bytes.now from width) }
{
    let mut number = 0;
    let mut done = 0;
    while done < width {
        let place = from + done;
        let skip = place % 8;
        let count = (8 - skip).min(width - done);
        number = (number << count) | u64::from(bits_in(bytes[place / 8], skip, count));
        done += count;
    }
    number
}

/// The number in a run. Reads each byte of the run once; a run of whole bytes is cheapest.
// Inlined, since most callers' width is a constant.
#[inline(always)]
pub(crate) fn number_in(bytes: &[u8], from: usize, width: usize) -> u64
    requires width { width ≤ 64 }
    requires inside { from + width ≤ 8 * length bytes.now }
    requires counted { from + width < 2 ^ 64 }
    ensures { result ≡ number_of (bit_run bytes.now from width) }
{
    if from % 8 == 0 && width % 8 == 0 {
        // If the width is a constant, the number of these bytes is one too, and the loop
        // disappears.
        let first = from / 8;
        return number_of_bytes(&bytes[first..first + width / 8]);
    }
    number_across(bytes, from, width)
}

/// The bytes of a run that starts at a byte boundary and has no spare bit.
pub(crate) fn bytes_in(bytes: &[u8], from: usize, len: usize) -> Option<&[u8]>
    requires inside { from + len ≤ 8 * length bytes.now }
    requires counted { from + len < 2 ^ 64 }
    ensures bytes { IfSome result (λ found. bytes_of (bit_run bytes.now from len) ≡ found.now) }
    ensures len { IfSome result (λ found. 8 * length found.now ≡ len) }
{
    if from % 8 != 0 || len % 8 != 0 {
        return None;
    }
    let first = from / 8;
    Some(&bytes[first..first + len / 8])
}

// Whether a bit after the first `len` is set, in exactly the bytes that `len` bits need.
fn is_spare_set(bytes: &[u8], len: usize) -> bool
    requires used { length bytes.now ≡ bytes_for len }
    requires counted { 8 * length bytes.now < 2 ^ 64 }
    ensures { result ≡ list_any (λ bit. bit) (drop len (bits_of_bytes bytes.now)) }
{
    let spare = 8 * bytes.len() - len;
    if spare == 0 {
        return false;
    }
    bits_in(bytes[len / 8], len % 8, spare) != 0
}

/// The bytes that the first `len` bits need, or the fault if these bits cannot be read.
// Inlined into the loops that read messages, which have already checked that there are enough
// bytes.
#[inline(always)]
pub(crate) fn bytes_taken(bytes: &[u8], len: usize) -> Result<&[u8], BitsFault>
    ensures read { IfOk result (λ taken. read_bytes bytes.now len ≡ Ok (bit_run taken.now 0 len)) }
    ensures fits { IfOk result (λ taken. len ≤ MAX_BITS) }
    ensures used { IfOk result (λ taken. length taken.now ≡ bytes_for len) }
    ensures err { IfErr result (λ fault. read_bytes bytes.now len ≡ Err fault) }
{
    if len > MAX_BITS {
        return Err(BitsFault::TooLong);
    }
    let used = len.div_ceil(8);
    if bytes.len() < used {
        return Err(BitsFault::ShortBytes);
    }
    let taken = &bytes[..used];
    if is_spare_set(taken, len) {
        return Err(BitsFault::SpareNotZero);
    }
    Ok(taken)
}

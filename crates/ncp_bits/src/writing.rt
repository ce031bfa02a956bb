//! Writing runs of bits as bytes.
ghost use Rattle.std.specs.Prelude.{◌≡◌, ℕ, ◌+◌, ◌*◌, ◌<◌, ◌≤◌, ◌^◌, ◌++◌, length, take, drop, slice_index};
ghost use Rattle.ncp_numbers.specs.Numbers.{number_of};
ghost use Rattle.ncp_numbers.specs.Bytes.{byte_bits, bytes_for, bytes_of};
ghost use Rattle.ncp_bits.specs.Packed.{bit_run};

use crate::reading::number_in;

// The byte that starts at bit `skip` of the first byte and ends in the second.
fn byte_across(first: u8, second: u8, skip: usize) -> u8
    requires some { 0 < skip }
    requires inside { skip < 8 }
    ensures { result ≡ number_of (drop skip (byte_bits first) ++ take skip (byte_bits second)) }
{
    (first << skip) | (second >> (8 - skip))
}

// Fills bytes from a run that starts inside a byte, with two shifts for each byte.
fn fill_shifted(out: &mut [u8], bytes: &[u8], skip: usize)
    requires some { 0 < skip }
    requires inside { skip < 8 }
    requires long { length out.old < length bytes.now }
    ensures { (k : ℕ) → k < length out.new → slice_index out.new k ≡ number_of (bit_run bytes.now (8 * k + skip) 8) }
{
    for place in 0..out.len() {
        out[place] = byte_across(bytes[place], bytes[place + 1], skip);
    }
}

// Fills bytes from a run: by a copy if it starts at a byte boundary.
fn fill(out: &mut [u8], bytes: &[u8], skip: usize)
    requires inside { skip < 8 }
    requires long { 8 * length out.old + skip ≤ 8 * length bytes.now }
    ensures { (k : ℕ) → k < length out.new → slice_index out.new k ≡ number_of (bit_run bytes.now (8 * k + skip) 8) }
{
    if skip > 0 {
        fill_shifted(out, bytes, skip);
        return;
    }
    out.copy_from_slice(&bytes[..out.len()]);
}

/// Writes a run into bytes, spare bits zero, and returns the number of bytes. Later bytes are
/// unchanged.
///
/// A run that starts at a byte boundary is copied; otherwise each byte takes two shifts.
pub(crate) fn write_run(out: &mut [u8], bytes: &[u8], skip: usize, len: usize) -> usize
    requires skip { skip < 8 }
    requires inside { skip + len ≤ 8 * length bytes.now }
    requires counted { skip + len < 2 ^ 64 }
    requires room { bytes_for len ≤ length out.old }
    ensures used { result ≡ bytes_for len }
    ensures bytes { out.new ≡ bytes_of (bit_run bytes.now skip len) ++ drop result out.old }
{
    let whole = len / 8;
    let rest = len % 8;
    fill(&mut out[..whole], bytes, skip);
    if rest == 0 {
        return whole;
    }
    out[whole] = (number_in(bytes, 8 * whole + skip, rest) << (8 - rest)) as u8;
    whole + 1
}

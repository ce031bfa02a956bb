//! Appending a part to packed bits.
ghost use Rattle.std.specs.Prelude.{◌≡◌, ◌+◌, ◌*◌, ◌-◌, ◌<◌, ◌≤◌, ◌^◌, ◌++◌, length, take};
ghost use Rattle.ncp_numbers.specs.Numbers.{number_of};
ghost use Rattle.ncp_numbers.specs.Bytes.{byte_bits};
ghost use Rattle.ncp_bits.specs.Packed.{bit_run};

use crate::part::Part;

// A byte's first `kept` bits, then the `count` bits of a number, then zeros.
fn joined_byte(byte: u8, kept: usize, number: u8, count: usize) -> u8
    requires some { 0 < kept }
    requires inside { kept + count ≤ 8 }
    requires number { number < 2 ^ count }
    ensures { result ≡ number_of (take kept (byte_bits byte)) * 2 ^ (8 - kept) + number * 2 ^ (8 - kept - count) }
{
    ((byte >> (8 - kept)) << (8 - kept)) | (number << (8 - kept - count))
}

/// Writes a part after the first `at` bits of bytes. Later bits of its last byte are lost.
///
/// Copies whole bytes if the part starts at a byte boundary once the current byte is filled;
/// otherwise each byte takes two shifts.
pub(crate) fn write_after(out: &mut [u8], at: usize, part: &Part<'_>)
    requires { at + length part.now ≤ 8 * length out.old }
    ensures { bit_run out.new 0 (at + length part.now) ≡ bit_run out.old 0 at ++ part.now }
{
    let first = at / 8;
    let kept = at % 8;
    if kept == 0 {
        part.to_bytes(&mut out[first..]);
        return;
    }
    let count = part.len().min(8 - kept);
    out[first] = joined_byte(out[first], kept, part.number(0, count) as u8, count);
    part.slice(count, part.len() - count)
        .to_bytes(&mut out[first + 1..]);
}

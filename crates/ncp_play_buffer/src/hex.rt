//! Bytes in hexadecimal.
ghost use Rattle.std.specs.Prelude.{◌≡◌, ◌*◌, ◌/◌, ◌%◌, ◌+◌, ◌<◌, ◌≤◌, length, take, map};
ghost use Rattle.ncp_play_buffer.specs.Lines.{hex_digit, hex_of};

use std::simd::prelude::*;

// The size of a block: the number of bytes converted at once.
const BLOCK: usize = 16;

// The size of two blocks, in bytes.
const PAIR: usize = 2 * BLOCK;

// The digits, indexed by their value.
const DIGITS: [u8; 16] = *b"0123456789abcdef";

// The first digit of each byte.
#[inline(always)]
fn first_digits(bytes: u8x16) -> u8x16
    ensures { result ≡ map (λ byte. hex_digit (byte / 16)) bytes }
{
    u8x16::from_array(DIGITS).swizzle_dyn(bytes >> u8x16::splat(4))
}

// The second digit of each byte.
#[inline(always)]
fn second_digits(bytes: u8x16) -> u8x16
    ensures { result ≡ map (λ byte. hex_digit (byte % 16)) bytes }
{
    u8x16::from_array(DIGITS).swizzle_dyn(bytes & u8x16::splat(15))
}

// The hexadecimal form of a block: the two digits of a byte are adjacent.
#[inline(always)]
fn block_digits(bytes: u8x16) -> u8x32
    ensures { result ≡ hex_of bytes }
{
    first_digits(bytes).shuffle(
        second_digits(bytes),
        [
            0, 16, 1, 17, 2, 18, 3, 19, 4, 20, 5, 21, 6, 22, 7, 23, 8, 24, 9, 25, 10, 26, 11, 27,
            12, 28, 13, 29, 14, 30, 15, 31,
        ],
    )
}

// The hexadecimal digit of a number.
fn digit_of(number: u8) -> u8
    requires { number < 16 }
    ensures { result ≡ hex_digit number }
{
    DIGITS[usize::from(number)]
}

// Writes the digits of the block at `at`. The digits before it must have been written.
#[inline(always)]
fn write_block(out: &mut [u8], bytes: &[u8], at: usize)
    requires room { length out.old ≡ 2 * length bytes.now }
    requires inside { at + BLOCK ≤ length bytes.now }
    requires front { take (2 * at) out.old ≡ hex_of (take at bytes.now) }
    ensures room { length out.new ≡ length out.old }
    ensures digits { take (2 * (at + BLOCK)) out.new ≡ hex_of (take (at + BLOCK) bytes.now) }
{
    let digits = block_digits(u8x16::from_slice(&bytes[at..]));
    digits.copy_to_slice(&mut out[2 * at..]);
}

// Writes bytes in hexadecimal, byte by byte.
fn write_each(out: &mut [u8], bytes: &[u8])
    requires { length out.old ≡ 2 * length bytes.now }
    ensures { out.new ≡ hex_of bytes.now }
{
    for place in 0..bytes.len() {
        out[2 * place] = digit_of(bytes[place] / 16);
        out[2 * place + 1] = digit_of(bytes[place] % 16);
    }
}

// Writes the digits of the two blocks at `at`. The digits before them must have been written.
#[inline(always)]
fn write_pair(out: &mut [u8], bytes: &[u8], at: usize)
    requires room { length out.old ≡ 2 * length bytes.now }
    requires inside { at + PAIR ≤ length bytes.now }
    requires front { take (2 * at) out.old ≡ hex_of (take at bytes.now) }
    ensures room { length out.new ≡ length out.old }
    ensures digits { take (2 * (at + PAIR)) out.new ≡ hex_of (take (at + PAIR) bytes.now) }
{
    write_block(out, bytes, at);
    write_block(out, bytes, at + BLOCK);
}

/// Writes bytes in hexadecimal, two blocks at a time. The last block is aligned to the end of the
/// bytes, so it may overlap the one before. Fewer bytes than a block are written byte by byte.
pub(crate) fn write_hex(out: &mut [u8], bytes: &[u8])
    requires { length out.old ≡ 2 * length bytes.now }
    ensures { out.new ≡ hex_of bytes.now }
{
    if bytes.len() < BLOCK {
        return write_each(out, bytes);
    }
    let pairs = bytes.len() / PAIR;
    for pair in 0..pairs {
        write_pair(out, bytes, PAIR * pair);
    }
    if bytes.len() % PAIR > BLOCK {
        write_block(out, bytes, PAIR * pairs);
    }
    write_block(out, bytes, bytes.len() - BLOCK);
}

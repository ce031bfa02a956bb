//! `OutBuffer`: bytes that are collected for a sink.
ghost use Rattle.std.specs.Prelude.{◌≡◌, ℕ, ◌+◌, ◌*◌, ◌<◌, ◌≤◌, ◌^◌, ◌||◌, true, false, [], ◌∷◌, ◌++◌, min, length, take, decimal, is_err, OnOk, OnErr};
ghost use Rattle.std.specs.Io.KnownBytes.{Appends};
ghost use Rattle.ncp_play_buffer.specs.Lines.{hex_of};
ghost use Rattle.ncp_play_stream.specs.Pieces.{bytes_and_writes, lost_pieces, unpaid};
ghost use Rattle.ncp_play_stream.specs.Streams.{WritesText, WritesPrefixOf};

use crate::counter::Counter;
use crate::hex::write_hex;
use itoa::write_digits;
use ncp_play_stream::{Failed, LEAST_PIECE, Sink};
use std::marker::Model;
use std::simd::prelude::*;

/// The capacity of an out buffer, in bytes.
pub const PAGE_SIZE: usize = 16384;

/// The number of digits of the longest 32-bit number.
pub const MAX_NUMBER_LEN: usize = 10;

/// The number of digits of the longest 64-bit number.
pub const MAX_LONG_LEN: usize = 20;

/// The size in bytes of a block for [`OutBuffer::push_front`], which appends a prefix of it.
pub const BLOCK: usize = 32;

/// The bytes not yet written. Every append requires room, which [`OutBuffer::make_room`] makes.
#[derive(Drop)]
pub struct OutBuffer {
    bytes: [u8; PAGE_SIZE],
    len: usize,
}

impl Model for OutBuffer {
    ghost use Rattle.std.specs.Prelude.{ℕ, List, ◌≤◌, take};
    ghost use Rattle.ncp_play_buffer.specs.declared.out_buffer.TheConstants.{PAGE_SIZE};

    ghost Value = { List ℕ };

    ghost view = { λ page. take page.len page.bytes };

    ghost invariant = { λ page. page.len ≤ PAGE_SIZE };
}

// Writes all bytes of a piece. If a write fails, a prefix of them is written.
fn put_all<W: Sink>(sink: &mut W, piece: &[u8]) -> Result<(), Failed>
    ensures ok { OnOk result (Appends (W.written sink.old) (W.written sink.new) piece.now) }
    ensures err { OnErr result ((count : ℕ) × Appends (W.written sink.old) (W.written sink.new) (take count piece.now)) }
    ensures some { OnErr result (0 < length piece.now) }
    ensures once { W.takes_all ≡ true → OnOk result (W.writes sink.old ≤ W.writes sink.new + min 1 (length piece.now)) }
    ensures twice { W.takes_all ≡ true → W.writes sink.old ≤ W.writes sink.new + 2 }
    ensures mark { W.has_failed sink.new ≡ (W.has_failed sink.old || is_err result) }
{
    let mut done = 0;
    while done < piece.len() {
        done += sink.write(&piece[done..])?;
    }
    Ok(())
}

// The number of values of a byte.
const BYTES: usize = 256;

// The size in bytes of a table entry: the digits, padded with spaces.
const BYTE_DIGITS: usize = 4;

// The digits of each byte value, padded with spaces.
const BYTE_NUMBERS: [u8; BYTES * BYTE_DIGITS] =
    *b"0   1   2   3   4   5   6   7   8   9   10  11  12  13  14  15  \
    16  17  18  19  20  21  22  23  24  25  26  27  28  29  30  31  \
    32  33  34  35  36  37  38  39  40  41  42  43  44  45  46  47  \
    48  49  50  51  52  53  54  55  56  57  58  59  60  61  62  63  \
    64  65  66  67  68  69  70  71  72  73  74  75  76  77  78  79  \
    80  81  82  83  84  85  86  87  88  89  90  91  92  93  94  95  \
    96  97  98  99  100 101 102 103 104 105 106 107 108 109 110 111 \
    112 113 114 115 116 117 118 119 120 121 122 123 124 125 126 127 \
    128 129 130 131 132 133 134 135 136 137 138 139 140 141 142 143 \
    144 145 146 147 148 149 150 151 152 153 154 155 156 157 158 159 \
    160 161 162 163 164 165 166 167 168 169 170 171 172 173 174 175 \
    176 177 178 179 180 181 182 183 184 185 186 187 188 189 190 191 \
    192 193 194 195 196 197 198 199 200 201 202 203 204 205 206 207 \
    208 209 210 211 212 213 214 215 216 217 218 219 220 221 222 223 \
    224 225 226 227 228 229 230 231 232 233 234 235 236 237 238 239 \
    240 241 242 243 244 245 246 247 248 249 250 251 252 253 254 255 ";

// The digits of a byte value, padded with spaces.
#[inline(always)]
fn byte_digits(number: u8) -> u8x4
    ensures digits { take (length (decimal number)) result ≡ decimal number }
    ensures whole { length result ≡ BYTE_DIGITS }
{
    let at = BYTE_DIGITS * usize::from(number);
    u8x4::from_array([
        BYTE_NUMBERS[at],
        BYTE_NUMBERS[at + 1],
        BYTE_NUMBERS[at + 2],
        BYTE_NUMBERS[at + 3],
    ])
}

// The number of digits of a byte value, computed without a branch.
#[inline(always)]
fn count_byte_digits(number: u8) -> usize
    ensures digits { result ≡ length (decimal number) }
    ensures few { result < BYTE_DIGITS }
{
    1 + usize::from(number > 9) + usize::from(number > 99)
}

/// The number of decimal digits.
pub(crate) fn count_digits(number: u64) -> usize
    ensures { result ≡ length (decimal number) }
{
    if number < 10 {
        1
    } else if number < 100 {
        2
    } else if number < 1000 {
        3
    } else if number < 10_000 {
        4
    } else if number < 100_000_000 {
        4 + count_digits(number / 10_000)
    } else {
        8 + count_digits(number / 100_000_000)
    }
}

impl OutBuffer {
    /// An empty buffer.
    pub fn new() -> Self
        ensures { result ≡ [] }
    {
        OutBuffer {
            bytes: [0; PAGE_SIZE],
            len: 0,
        }
    }

    /// Writes the buffer and empties it.
    pub fn flush<W: Sink>(&mut self, sink: &mut W) -> Result<(), Failed>
        ensures ok { OnOk result ((self.new ≡ []) × WritesText self.old (W.written sink.old) [] self.new (W.written sink.new)) }
        ensures err { OnErr result (WritesPrefixOf self.old (W.written sink.old) [] (W.written sink.new)) }
        ensures whole { LEAST_PIECE ≤ length self.old → bytes_and_writes W.takes_all (W.writes sink.old) (W.written sink.old) ≤ bytes_and_writes W.takes_all (W.writes sink.new) (W.written sink.new) + lost_pieces (is_err result) }
        ensures one { OnOk result (bytes_and_writes W.takes_all (W.writes sink.old) (W.written sink.old) + unpaid false self.old ≤ bytes_and_writes W.takes_all (W.writes sink.new) (W.written sink.new) + LEAST_PIECE) }
        ensures writes { bytes_and_writes W.takes_all (W.writes sink.old) (W.written sink.old) + unpaid false self.old ≤ bytes_and_writes W.takes_all (W.writes sink.new) (W.written sink.new) + lost_pieces true }
        ensures twice { W.takes_all ≡ true → W.writes sink.old ≤ W.writes sink.new + 2 }
        ensures mark { W.has_failed sink.new ≡ (W.has_failed sink.old || is_err result) }
    {
        put_all(sink, &self.bytes[..self.len])?;
        self.len = 0;
        Ok(())
    }

    /// Makes room for `count` bytes: writes the buffer if they do not fit. `count` is at most
    /// [`PAGE_SIZE`] less [`LEAST_PIECE`].
    pub fn make_room<W: Sink>(&mut self, sink: &mut W, count: usize) -> Result<(), Failed>
        requires { count + LEAST_PIECE ≤ PAGE_SIZE }
        ensures room { OnOk result (length self.new + count ≤ PAGE_SIZE) }
        ensures ok { OnOk result (WritesText self.old (W.written sink.old) [] self.new (W.written sink.new)) }
        ensures err { OnErr result (WritesPrefixOf self.old (W.written sink.old) [] (W.written sink.new)) }
        ensures writes { bytes_and_writes W.takes_all (W.writes sink.old) (W.written sink.old) ≤ bytes_and_writes W.takes_all (W.writes sink.new) (W.written sink.new) + lost_pieces (is_err result) }
        ensures mark { W.has_failed sink.new ≡ (W.has_failed sink.old || is_err result) }
    {
        if count > PAGE_SIZE - self.len {
            self.flush(sink)?;
        }
        Ok(())
    }

    /// Appends a byte. Requires room for it.
    pub fn push(&mut self, byte: u8)
        requires { length self.old + 1 ≤ PAGE_SIZE }
        ensures bytes { self.new ≡ self.old ++ byte ∷ [] }
        ensures len { length self.new ≡ length self.old + 1 }
    {
        self.bytes[self.len] = byte;
        self.len += 1;
    }

    /// Appends the first `count` bytes of a block. Requires room for the whole block, which is
    /// copied in two moves.
    #[inline(always)]
    pub fn push_front(&mut self, block: &[u8; BLOCK], count: usize)
        requires count { count ≤ BLOCK }
        requires room { length self.old + BLOCK ≤ PAGE_SIZE }
        ensures bytes { self.new ≡ self.old ++ take count block.now }
        ensures len { length self.new ≡ length self.old + count }
    {
        let at = self.len;
        u8x32::from_array(*block).copy_to_slice(&mut self.bytes[at..]);
        self.len = at + count;
    }

    // Appends the decimal digits of a number that has `count` digits.
    #[inline(always)]
    fn push_counted(&mut self, number: u64, count: usize)
        requires counted { count ≡ length (decimal number) }
        requires room { length self.old + count ≤ PAGE_SIZE }
        ensures { self.new ≡ self.old ++ decimal number }
    {
        let end = self.len + count;
        write_digits(number, &mut self.bytes, end);
        self.len = end;
    }

    // Appends the digits of a byte value: copies four bytes, and keeps the digits.
    #[inline(always)]
    fn push_byte(&mut self, number: u8)
        requires { length self.old + BYTE_DIGITS ≤ PAGE_SIZE }
        ensures { self.new ≡ self.old ++ decimal number }
    {
        let at = self.len;
        byte_digits(number).copy_to_slice(&mut self.bytes[at..]);
        self.len = at + count_byte_digits(number);
    }

    // Appends the digits of a number that may be long. Not inlined, as lines have many numbers.
    #[inline(never)]
    fn push_long_digits(&mut self, number: u64)
        requires { length self.old + length (decimal number) ≤ PAGE_SIZE }
        ensures { self.new ≡ self.old ++ decimal number }
    {
        self.push_counted(number, count_digits(number));
    }

    // Appends a number in decimal. Most numbers fit a byte; their path is inlined, and has no
    // branch where the compiler knows that they fit.
    #[inline(always)]
    fn push_digits(&mut self, number: u64)
        requires short { length self.old + BYTE_DIGITS ≤ PAGE_SIZE }
        requires room { length self.old + length (decimal number) ≤ PAGE_SIZE }
        ensures { self.new ≡ self.old ++ decimal number }
    {
        if number < BYTES as u64 {
            self.push_byte(number as u8);
        } else {
            self.push_long_digits(number);
        }
    }

    /// Appends a 32-bit number in decimal. Requires room for the longest.
    #[inline(always)]
    pub fn push_decimal(&mut self, number: u32)
        requires { length self.old + MAX_NUMBER_LEN ≤ PAGE_SIZE }
        ensures bytes { self.new ≡ self.old ++ decimal number }
        ensures len { length self.new ≤ length self.old + MAX_NUMBER_LEN }
    {
        self.push_digits(u64::from(number));
    }

    /// Appends a counter's digits. Requires room for the longest number.
    pub fn push_counter(&mut self, number: &Counter)
        requires { length self.old + MAX_NUMBER_LEN ≤ PAGE_SIZE }
        ensures bytes { self.new ≡ self.old ++ decimal number.now }
        ensures len { length self.new ≤ length self.old + MAX_NUMBER_LEN }
    {
        self.bytes[self.len..self.len + MAX_NUMBER_LEN].copy_from_slice(number.digits());
        self.len += number.count();
    }

    /// Appends a 64-bit number in decimal. Requires room for the longest.
    pub fn push_long(&mut self, number: u64)
        requires { length self.old + MAX_LONG_LEN ≤ PAGE_SIZE }
        ensures bytes { self.new ≡ self.old ++ decimal number }
        ensures len { length self.new ≤ length self.old + MAX_LONG_LEN }
    {
        self.push_digits(number);
    }

    /// Appends bytes in hexadecimal. Requires room for two digits a byte.
    pub fn push_hex(&mut self, bytes: &[u8])
        requires { length self.old + 2 * length bytes.now ≤ PAGE_SIZE }
        ensures bytes { self.new ≡ self.old ++ hex_of bytes.now }
        ensures len { length self.new ≡ length self.old + 2 * length bytes.now }
    {
        let end = self.len + 2 * bytes.len();
        write_hex(&mut self.bytes[self.len..end], bytes);
        self.len = end;
    }

    /// Appends a text. Requires room for it.
    pub fn push_text(&mut self, text: &[u8])
        requires { length self.old + length text.now ≤ PAGE_SIZE }
        ensures bytes { self.new ≡ self.old ++ text.now }
        ensures len { length self.new ≡ length self.old + length text.now }
    {
        let end = self.len + text.len();
        self.bytes[self.len..end].copy_from_slice(text);
        self.len = end;
    }
}

//! Bits in words.
ghost use Rattle.std.specs.Prelude.{◌≡◌, ◌≢◌, ◌*◌, ◌≤◌, [], length, None, option_map, vec_capacity, IfOk, OnErr};
ghost use Rattle.ncp_numbers.specs.Bytes.{bytes_for};
ghost use Rattle.ncp_play_script.specs.BitStrings.{hex_value, hex_bytes, bits_in_hex, bits_first};

use crate::line_words::Words;
use arrayvec::ArrayVec;
use ncp_bits::{Bits, MAX_BITS};
use ncp_transcript::Message;
use std::alloc::{AllocError, Global};

// The number of bytes of the bits of the longest message.
const MAX_BYTES: usize = MAX_BITS / 8;

// The base of hexadecimal numbers.
const SIXTEEN: u32 = 16;

// The value of a hexadecimal digit of either case.
fn value_of(digit: u8) -> Option<u8>
    ensures { result ≡ hex_value digit }
{
    let value = char::from(digit).to_digit(SIXTEEN)?;
    Some(value as u8)
}

// The bytes that hexadecimal digits spell.
fn bytes_of(digits: &[u8]) -> Option<ArrayVec<u8, MAX_BYTES>>
    requires { length digits.now ≤ 2 * MAX_BYTES }
    ensures { option_map (λ bytes. bytes.items) result ≡ hex_bytes digits.now }
{
    let mut bytes = ArrayVec::new();
    let mut rest = digits;
    while let [high, low, behind @ ..] = rest {
        let high = value_of(*high)?;
        let low = value_of(*low)?;
        bytes.push(16 * high + low);
        rest = behind;
    }
    if rest.is_empty() { Some(bytes) } else { None }
}

// `len` bits in hexadecimal.
fn bits_of(word: &[u8], len: usize) -> Option<Bits>
    requires { len ≤ MAX_BITS }
    ensures { result ≡ bits_in_hex len (hex_bytes word.now) }
{
    if word.len() != 2 * len.div_ceil(8) {
        return None;
    }
    let bytes = bytes_of(word)?;
    Bits::from_bytes(bytes.as_slice(), len).ok()
}

// The bytes that hexadecimal digits spell, stored in `room`.
fn bytes_in(room: Vec<u8>, digits: &[u8]) -> Option<Vec<u8>>
    requires empty { room.items ≡ [] }
    requires room { length digits.now ≤ 2 * vec_capacity room }
    ensures { option_map (λ bytes. bytes.items) result ≡ hex_bytes digits.now }
{
    let mut bytes = room;
    let mut rest = digits;
    while let [high, low, behind @ ..] = rest {
        let high = value_of(*high)?;
        let low = value_of(*low)?;
        bytes.push_reserved(16 * high + low);
        rest = behind;
    }
    if rest.is_empty() { Some(bytes) } else { None }
}

// `len` bits in hexadecimal, with their bytes stored in `room`.
fn message_in(room: Vec<u8>, word: &[u8], len: usize) -> Option<Message>
    requires empty { room.items ≡ [] }
    requires room { length word.now ≤ 2 * vec_capacity room }
    requires digits { length word.now ≡ 2 * bytes_for len }
    ensures { result ≡ bits_in_hex len (hex_bytes word.now) }
{
    let bytes = bytes_in(room, word)?;
    Message::from_bytes(bytes, len).ok()
}

// `len` bits in hexadecimal. Allocation fails only for digits that are such bits.
fn message_of(alloc: Global, word: &[u8], len: usize) -> Result<Option<Message>, AllocError>
    requires { len ≤ MAX_BITS }
    ensures bits { IfOk result (λ message. message ≡ bits_in_hex len (hex_bytes word.now)) }
    ensures memory { OnErr result (bits_in_hex len (hex_bytes word.now) ≢ None) }
{
    let used = len.div_ceil(8);
    if word.len() != 2 * used {
        return Ok(None);
    }
    match Vec::with_capacity(alloc, used) {
        Ok(room) => Ok(message_in(room, word, len)),
        Err(refused) => match bits_of(word, len) {
            Some(_) => Err(refused),
            None => Ok(None),
        },
    }
}

impl<'a> Words<'a> {
    /// The bits in the next words: their number, at most [`MAX_BITS`], and their bytes in
    /// hexadecimal of either case, with spare bits zero. For 0 bits no second word is read. On
    /// `None` the remaining words are unspecified.
    pub fn next_bits(&mut self) -> Option<Bits>
        ensures { option_map (λ bits. (bits, self.new)) result ≡ bits_first self.old }
    {
        let len = self.next_number(MAX_BITS as u32)? as usize;
        if len == 0 {
            return Some(Bits::new());
        }
        let word = self.next_word()?;
        bits_of(word, len)
    }

    /// As [`Words::next_bits`], in as many bytes of memory as the bits need. Returns `AllocError`
    /// only if the words are bits.
    pub fn next_message(&mut self, alloc: Global) -> Result<Option<Message>, AllocError>
        ensures message { IfOk result (λ message. option_map (λ message. (message, self.new)) message ≡ bits_first self.old) }
        ensures memory { OnErr result (bits_first self.old ≢ None) }
    {
        let Some(len) = self.next_number(MAX_BITS as u32) else {
            return Ok(None);
        };
        let len = len as usize;
        if len == 0 {
            return Ok(Some(Message::from_bits(alloc, &Bits::new())?));
        }
        let Some(word) = self.next_word() else {
            return Ok(None);
        };
        message_of(alloc, word, len)
    }
}

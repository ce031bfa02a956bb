//! The line of a text as letters.
ghost use Rattle.std.specs.Prelude.{◌≡◌, ◌+◌, ◌*◌, ◌≤◌, ◌++◌, length};
ghost use Rattle.std.specs.List.{flat_map};
ghost use Rattle.ncp_numbers.specs.Bytes.{bytes_of};
ghost use Rattle.ncp_play_explain.specs.Spelling.{spelled};
ghost use Rattle.ncp_play_follow.specs.Letters.{letters_word, letters_words, letters_line};

use ncp_bits::{MAX_BITS, Part};
use ncp_follow::Connection;
use ncp_play_buffer::{OutBuffer, PAGE_SIZE, push_field};
use ncp_play_explain::{MAX_SPELLED_LEN, in_signs};

// The number of bits of a byte of letters.
const BYTE: usize = 8;

// The maximum number of bytes of a text that are shown.
const MOST_BYTES: usize = MAX_BITS / BYTE;

// An upper bound on the number of bytes of its letters, with the space before them.
const MAX_WORD_LEN: usize = 1 + MAX_SPELLED_LEN * MOST_BYTES;

/// An upper bound on the number of bytes of the line.
pub(crate) const MAX_LETTERS_LEN: usize = 10 + MAX_WORD_LEN;

// Appends bytes, each spelled.
fn push_spelled(page: &mut OutBuffer, bytes: &[u8])
    requires { length page.old + MAX_SPELLED_LEN * length bytes.now ≤ PAGE_SIZE }
    ensures bytes { page.new ≡ page.old ++ flat_map spelled bytes.now }
    ensures len { length page.new ≤ length page.old + MAX_SPELLED_LEN * length bytes.now }
{
    for byte in bytes {
        page.push_text(in_signs(*byte).as_bytes());
    }
}

// Appends the bytes of a text, each spelled.
fn push_bytes(page: &mut OutBuffer, text: &Part<'_>)
    requires { length page.old + MAX_SPELLED_LEN * MOST_BYTES ≤ PAGE_SIZE }
    ensures bytes { page.new ≡ page.old ++ flat_map spelled (bytes_of text.now) }
    ensures len { length page.new ≤ length page.old + MAX_SPELLED_LEN * MOST_BYTES }
{
    let mut bytes = [0u8; MOST_BYTES];
    let used = &mut bytes[..text.len().div_ceil(BYTE)];
    text.to_bytes(used);
    push_spelled(page, used);
}

// Appends a space and the letters of a text, if it has a bit.
fn push_word(page: &mut OutBuffer, text: &Part<'_>)
    requires { length page.old + MAX_WORD_LEN ≤ PAGE_SIZE }
    ensures bytes { page.new ≡ page.old ++ letters_word text.now }
    ensures len { length page.new ≤ length page.old + MAX_WORD_LEN }
{
    if text.is_empty() {
        return;
    }
    page.push(b' ');
    push_bytes(page, text);
}

// Appends the letters of bytes of eight bits, or the size of others.
fn push_words(page: &mut OutBuffer, size: u8, text: &Part<'_>)
    requires { length page.old + MAX_WORD_LEN ≤ PAGE_SIZE }
    ensures bytes { page.new ≡ page.old ++ letters_words size text.now }
    ensures len { length page.new ≤ length page.old + MAX_WORD_LEN }
{
    if usize::from(size) == BYTE {
        push_word(page, text);
    } else {
        push_field(page, b" size=", u32::from(size));
    }
}

/// Appends the line of letters.
#[tactic(auto, unfolding(crate::specs::Letters::letters_line))]
pub(crate) fn push_letters(page: &mut OutBuffer, connection: &Connection)
    requires { length page.old + MAX_LETTERS_LEN ≤ PAGE_SIZE }
    ensures { page.new ≡ page.old ++ letters_line connection.now }
{
    page.push_text(b"  letters");
    push_words(page, connection.size, &connection.text.whole());
    page.push(b'\n');
}

//! The spelling of a line: characters and spaces that no line has.
ghost use Rattle.std.specs.Prelude.{◌≡◌, ◌↔◌, None, IfOk, IfSome, IsNone, IsSomeAnd, IsTrue, MatchOption};
ghost use Rattle.std.specs.Str.Iter.{HasSubslice};
ghost use Rattle.std.specs.String.{string_bytes};
ghost use Rattle.ncp_play_explain.specs.Spelling.{is_sign, strange_byte, byte_printed, HasGap, IsWellSpaced, IsWellSpelled, PrintsSpaces};

use crate::header::in_hexadecimal;
use std::alloc::{AllocError, Global};

// The printable ASCII characters begin with the space.
const SPACE: u8 = b' ';

// Characters that appear in place of a space, or at the end of a line.
const TAB: u8 = b'\t';

const RETURN: u8 = b'\r';

/// Whether a byte is a character of a line.
pub(crate) fn is_sign(byte: u8) -> bool
    ensures { result ≡ is_sign byte }
{
    byte.is_ascii_graphic() || byte == SPACE
}

// The first byte that is no character of a line, and its position, counted from 1.
fn strange_byte(text: &[u8]) -> Option<(usize, u8)>
    ensures { result ≡ strange_byte text.now }
{
    for (place, byte) in text.iter().enumerate() {
        if !is_sign(*byte) {
            return Some((place + 1, *byte));
        }
    }
    None
}

// What is wrong with such a byte.
fn wrong_byte(alloc: Global, place: usize, byte: u8) -> Result<String, AllocError>
    ensures { IfOk result (λ text. string_bytes text ≡ byte_printed place byte) }
{
    if byte == TAB {
        return format!(in alloc; "a tab, at byte {place}; words stand one space apart");
    }
    if byte == RETURN {
        return format!(in alloc; "a carriage return, at byte {place}, with no line feed after it");
    }
    let byte = in_hexadecimal(alloc, byte)?;
    format!(in alloc; "byte {place} is {byte}, which is no letter, digit or sign of ASCII")
}

// Whether a text has this part.
fn has_part(text: &str, part: &str) -> bool
    ensures { IsTrue result ↔ HasSubslice text.now part.now }
{
    text.contains(part)
}

// Whether two spaces follow one another, or one is at the end.
fn has_wide_gap(text: &str) -> bool
    ensures { IsTrue result ↔ HasGap text.now }
{
    has_part(text, "  ") || text.ends_with(" ")
}

// What is wrong with the spaces of a line, if anything.
fn wrong_spaces(alloc: Global, line: &str) -> Result<Option<String>, AllocError>
    ensures well { IsWellSpaced line.now → IfOk result (λ wrong. IsNone wrong) }
    ensures printed { IfOk result (λ wrong.
        MatchOption wrong (IsWellSpaced line.now) (λ text. PrintsSpaces line.now (string_bytes text))) }
{
    if line.starts_with(" ") {
        return Ok(Some(format!(in alloc;
            "a space in front; a line begins with its first word, and a remark with #"
        )?));
    }
    if has_part(line, " #") {
        return Ok(Some(format!(in alloc;
            "a remark after a line; a remark has a line of its own"
        )?));
    }
    if has_wide_gap(line) {
        return Ok(Some(format!(in alloc;
            "two spaces in a row, or one at the end; words stand one space apart"
        )?));
    }
    Ok(None)
}

/// What is wrong with the characters and the spaces of a line, if anything.
#[tactic(auto, using(crate::proofs::Spelled::signs_are_text))]
pub(crate) fn misspelled(alloc: Global, text: &[u8]) -> Result<Option<String>, AllocError>
    ensures byte { IfSome (strange_byte text.now) (λ at.
        IfOk result (λ wrong. IsSomeAnd wrong (λ printed. string_bytes printed ≡ byte_printed at.0 at.1))) }
    ensures spaces { strange_byte text.now ≡ None
        → IfOk result (λ wrong. MatchOption wrong (IsWellSpaced text.now) (λ printed. PrintsSpaces text.now (string_bytes printed))) }
    ensures well { IsWellSpelled text.now → IfOk result (λ wrong. IsNone wrong) }
{
    if let Some((place, byte)) = strange_byte(text) {
        return Ok(Some(wrong_byte(alloc, place, byte)?));
    }
    let Ok(line) = str::from_utf8(text) else {
        return Ok(None);
    };
    wrong_spaces(alloc, line)
}

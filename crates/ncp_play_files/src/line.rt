//! The first line of a record.
ghost use Rattle.std.specs.Prelude.{◌≡◌, ◌+◌, ◌≤◌, ◌++◌, length, take, Some, None, IfSome, decimal};
ghost use Rattle.ncp_play_files.specs.declared.file.Direction.TheVariants.{ToImp, FromImp};
ghost use Rattle.ncp_play_files.specs.Lines.{nameless, kind_name, extras, summary, way_words, capture_point_words};
ghost use Rattle.ncp_play_files.specs.TypeWords.{type_words};

use crate::file::Direction;
use crate::version::CapturePoint;
use ncp_leader::{DESTINATION_DEAD, INCOMPLETE, Leader, REGULAR, RFNM, Short};
use ncp_play_buffer::{BLOCK, Counter, MAX_NUMBER_LEN, OutBuffer, PAGE_SIZE, push_field};

/// An upper bound on the number of bytes of a line, except for a text in hexadecimal.
pub const MAX_LINE_LEN: usize = 128;

/// The type of an IMP's message that it is going down (BBN 1822, section 3).
pub(crate) const GOING_DOWN: u8 = 2;

/// The type of a NOP, which has no effect (BBN 1822, section 3).
pub(crate) const NOP: u8 = 4;

// An upper bound on the number of bytes of a capture point.
const MAX_CAPTURE_POINT_LEN: usize = 24;

// An upper bound on the number of bytes of the rest of a line after the number and the capture
// point of a record.
const MAX_SUMMARY_LEN: usize = MAX_LINE_LEN - MAX_NUMBER_LEN - MAX_CAPTURE_POINT_LEN;

// An upper bound on the number of bytes of the name of a type with the words before and after it:
// the block that it is copied as.
const MAX_TYPE_LEN: usize = BLOCK;

// An upper bound on the number of bytes of flags and low field.
const MAX_EXTRAS_LEN: usize = 32;

// The name of a type that a host's message can have, with the words before and after it, and their
// number of bytes. Spaces fill the block. The match compiles to a table, so that there is no branch
// by the type.
fn words_to_imp(kind: u8) -> Option<(&'static [u8; BLOCK], usize)>
    ensures some { IfSome result (λ words. take words.1 words.0.now ≡ type_words ToImp kind) }
    ensures none { result ≡ None → kind_name ToImp kind ≡ nameless kind }
    ensures count { IfSome result (λ words. words.1 ≤ BLOCK) }
{
    match kind {
        REGULAR => Some((b" regular host=                  ", 14)),
        NOP => Some((b" nop host=                      ", 10)),
        _ => None,
    }
}

// As `words_to_imp`, for an IMP's message.
fn words_from_imp(kind: u8) -> Option<(&'static [u8; BLOCK], usize)>
    ensures some { IfSome result (λ words. take words.1 words.0.now ≡ type_words FromImp kind) }
    ensures none { result ≡ None → kind_name FromImp kind ≡ nameless kind }
    ensures count { IfSome result (λ words. words.1 ≤ BLOCK) }
{
    match kind {
        REGULAR => Some((b" regular host=                  ", 14)),
        GOING_DOWN => Some((b" going-down host=               ", 17)),
        NOP => Some((b" nop host=                      ", 10)),
        RFNM => Some((b" rfnm host=                     ", 11)),
        DESTINATION_DEAD => Some((b" dead host=                     ", 11)),
        INCOMPLETE => Some((b" incomplete host=               ", 17)),
        _ => None,
    }
}

// The words of a type that has a name.
#[inline(always)]
fn words_of(direction: Direction, kind: u8) -> Option<(&'static [u8; BLOCK], usize)>
    ensures some { IfSome result (λ words. take words.1 words.0.now ≡ type_words direction kind) }
    ensures none { result ≡ None → kind_name direction kind ≡ nameless kind }
    ensures count { IfSome result (λ words. words.1 ≤ BLOCK) }
{
    match direction {
        Direction::ToImp => words_to_imp(kind),
        Direction::FromImp => words_from_imp(kind),
    }
}

// Appends the name of a type, with the words before and after it.
#[inline(always)]
fn push_type(page: &mut OutBuffer, direction: Direction, kind: u8)
    requires { length page.old + MAX_TYPE_LEN ≤ PAGE_SIZE }
    ensures bytes { page.new ≡ page.old ++ type_words direction kind }
    ensures len { length page.new ≤ length page.old + MAX_TYPE_LEN }
{
    match words_of(direction, kind) {
        Some((words, count)) => page.push_front(words, count),
        None => {
            push_field(page, b" type-", u32::from(kind));
            page.push_text(b" host=");
        }
    }
}

// Appends flags and low field, if one of them is not zero.
fn push_extras(page: &mut OutBuffer, leader: &Leader)
    requires { length page.old + MAX_EXTRAS_LEN ≤ PAGE_SIZE }
    ensures bytes { page.new ≡ page.old ++ extras leader.now }
    ensures len { length page.new ≤ length page.old + MAX_EXTRAS_LEN }
{
    if leader.flags == 0 && leader.low == 0 {
        return;
    }
    push_field(page, b" flags=", u32::from(leader.flags));
    push_field(page, b" low=", u32::from(leader.low));
}

// Appends the rest of the line after the number of a record.
fn push_leader(page: &mut OutBuffer, direction: Direction, leader: &Leader)
    requires { length page.old + MAX_SUMMARY_LEN ≤ PAGE_SIZE }
    ensures { page.new ≡ page.old ++ summary direction (Ok leader.now) }
{
    push_type(page, direction, leader.kind);
    page.push_decimal(u32::from(leader.host));
    push_field(page, b" link=", u32::from(leader.link));
    push_extras(page, leader);
    page.push(b'\n');
}

// Appends the direction of a message and its host.
fn push_way(page: &mut OutBuffer, direction: Direction, host: u8)
    requires { length page.old + MAX_CAPTURE_POINT_LEN ≤ PAGE_SIZE }
    ensures bytes { page.new ≡ page.old ++ way_words direction (Some host) }
    ensures len { length page.new ≤ length page.old + MAX_CAPTURE_POINT_LEN }
{
    match direction {
        Direction::ToImp => push_field(page, b" to-imp at=", u32::from(host)),
        Direction::FromImp => push_field(page, b" from-imp at=", u32::from(host)),
    }
}

// Appends the direction of a message and its host, if the file names the host.
fn push_capture_point(page: &mut OutBuffer, capture_point: CapturePoint)
    requires { length page.old + MAX_CAPTURE_POINT_LEN ≤ PAGE_SIZE }
    ensures bytes { page.new ≡ page.old ++ capture_point_words capture_point }
    ensures len { length page.new ≤ length page.old + MAX_CAPTURE_POINT_LEN }
{
    if let Some(host) = capture_point.at {
        push_way(page, capture_point.direction, host);
    }
}

/// Appends the first line of a record.
pub(crate) fn push_first_line(
    page: &mut OutBuffer,
    capture_point: CapturePoint,
    number: &Counter,
    leader: &Result<Leader, Short>,
)
    requires { length page.old + MAX_LINE_LEN ≤ PAGE_SIZE }
    ensures { page.new ≡ page.old ++ (decimal number.now ++ capture_point_words capture_point ++ summary capture_point.direction leader.now) }
{
    page.push_counter(number);
    push_capture_point(page, capture_point);
    match leader {
        Ok(leader) => push_leader(page, capture_point.direction, leader),
        Err(_) => page.push_text(b" short\n"),
    }
}

//! Writing headers and records of message files.
ghost use Rattle.std.specs.Prelude.{◌≡◌, ◌+◌, ◌≤◌, ◌||◌, ◌++◌, length, is_err};
ghost use Rattle.ncp_play_buffer.specs.BufferedSinks.{SameOutlet, write_failed, write_budget, RendersOrBreaks};
ghost use Rattle.ncp_numbers.specs.Bytes.{bytes_of};
ghost use Rattle.ncp_play_stream.specs.Pieces.{lost_pieces};
ghost use Rattle.ncp_play_files.specs.File.{record_bytes};
ghost use Rattle.ncp_play_files.specs.Versions.{byte_of_direction, header_of, capture_point_bytes, bytes_with_capture_point};

use crate::file::Direction;
use crate::version::{CapturePoint, HEADER, Version};
use byteorder::{BigEndian, ByteOrder};
use ncp_bits::{MAX_BITS, Part};
use ncp_play_buffer::{BufferedSink, OutBuffer, PAGE_SIZE};
use ncp_play_stream::{Failed, Sink};

// An upper bound on the number of bytes that hold the bits of a message.
const LONGEST_MESSAGE: usize = MAX_BITS / 8;

// An upper bound on the number of bytes of a message with its length.
const MAX_RECORD_LEN: usize = 2 + LONGEST_MESSAGE;

// An upper bound on the number of bytes of a record with its capture point.
const MAX_PLACED_LEN: usize = 2 + MAX_RECORD_LEN;

/// Appends the header of a file of this version. There has to be room for its [`HEADER`] bytes.
pub fn push_header(page: &mut OutBuffer, version: Version)
    requires { length page.old + HEADER ≤ PAGE_SIZE }
    ensures bytes { page.new ≡ page.old ++ header_of version }
    ensures len { length page.new ≡ length page.old + HEADER }
{
    match version {
        Version::One(Direction::ToImp) => page.push_text(b"NCPH"),
        Version::One(Direction::FromImp) => page.push_text(b"NCPI"),
        Version::Two => page.push_text(b"NCPJ"),
    }
}

// The byte of a direction.
fn byte_of(direction: Direction) -> u8
    ensures { result ≡ byte_of_direction direction }
{
    match direction {
        Direction::ToImp => b'H',
        Direction::FromImp => b'I',
    }
}

// Appends the bytes of a message that have to be copied first. A function of its own, so that a
// message whose bytes need no copy does not pay for the space of one.
#[inline(never)]
fn push_copied(page: &mut OutBuffer, message: &Part<'_>)
    requires { length page.old + LONGEST_MESSAGE ≤ PAGE_SIZE }
    ensures { page.new ≡ page.old ++ bytes_of message.now }
{
    let mut bytes = [0u8; LONGEST_MESSAGE];
    let used = &mut bytes[..message.len().div_ceil(8)];
    message.to_bytes(used);
    page.push_text(used);
}

// Appends the bytes of a message.
fn push_bits(page: &mut OutBuffer, message: &Part<'_>)
    requires { length page.old + LONGEST_MESSAGE ≤ PAGE_SIZE }
    ensures { page.new ≡ page.old ++ bytes_of message.now }
{
    match message.whole_bytes() {
        Some(bytes) => page.push_text(bytes),
        None => push_copied(page, message),
    }
}

// Appends the number of bits of a message, and its bytes.
fn push_record(page: &mut OutBuffer, message: &Part<'_>)
    requires { length page.old + MAX_RECORD_LEN ≤ PAGE_SIZE }
    ensures { page.new ≡ page.old ++ record_bytes message.now }
{
    let mut length = [0; 2];
    BigEndian::write_u16(&mut length, message.len() as u16);
    page.push_text(&length);
    push_bits(page, message);
}

// Appends a capture point, if it names a host.
fn push_capture_point(page: &mut OutBuffer, capture_point: CapturePoint)
    requires { length page.old + 2 ≤ PAGE_SIZE }
    ensures bytes { page.new ≡ page.old ++ capture_point_bytes capture_point.direction capture_point.at }
    ensures len { length page.new ≤ length page.old + 2 }
{
    if let Some(host) = capture_point.at {
        page.push(byte_of(capture_point.direction));
        page.push(host);
    }
}

// Appends the record of a message: of version 2 if its capture point names a host, else of version
// 1.
fn push_message(page: &mut OutBuffer, capture_point: CapturePoint, message: &Part<'_>)
    requires { length page.old + MAX_PLACED_LEN ≤ PAGE_SIZE }
    ensures { page.new ≡ page.old ++ bytes_with_capture_point capture_point message.now }
{
    push_capture_point(page, capture_point);
    push_record(page, message);
}

/// Renders the record of a message, of version 2 if its capture point names a host, else of version
/// 1: appends it to the out buffer, and writes the buffer when it is full.
///
/// After a failed write a prefix of the rendered text is written. Does not allocate.
pub fn render_message<W: Sink>(
    out: &mut BufferedSink<'_, W>,
    capture_point: CapturePoint,
    message: &Part<'_>,
) -> Result<(), Failed>
    ensures output { RendersOrBreaks W.Sink out.old (bytes_with_capture_point capture_point message.now) result out.new }
    ensures writes { write_budget W.Sink out.old ≤ write_budget W.Sink out.new + lost_pieces (is_err result) }
    ensures mark { write_failed W.Sink out.new ≡ (write_failed W.Sink out.old || is_err result) }
    ensures same_outlet { SameOutlet out.old out.new }
{
    out.make_room(MAX_PLACED_LEN)?;
    push_message(out.page, capture_point, message);
    Ok(())
}

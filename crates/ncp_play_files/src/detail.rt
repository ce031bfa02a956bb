//! The detail lines of a regular message.
ghost use Rattle.std.specs.Prelude.{◌≡◌, ◌+◌, ◌≤◌, ◌||◌, ◌++◌, ◌/◌, ◌%◌, length, codes, is_err};
ghost use Rattle.ncp_play_buffer.specs.BufferedSinks.{SameOutlet, write_failed, write_budget, RendersOrBreaks};
ghost use Rattle.ncp_numbers.specs.Bytes.{bytes_of};
ghost use Rattle.ncp_leader.specs.Message.{message_in};
ghost use Rattle.ncp_play_buffer.specs.Lines.{field, hex_of};
ghost use Rattle.ncp_play_files.specs.Lines.{item_line, control_lines, text_word, text_line, size_line, message_fault_line, text_lines, message_lines};
ghost use Rattle.ncp_play_stream.specs.Pieces.{lost_pieces};

use crate::command_words::{push_command, push_error};
use crate::control::is_of_control;
use crate::line::MAX_LINE_LEN;
use ncp_bits::{MAX_BITS, Part};
use ncp_control::Commands;
use ncp_leader::{MessageFault, Regular, read_regular_in};
use ncp_play_buffer::{BufferedSink, OutBuffer, PAGE_SIZE, push_field};
use ncp_play_stream::{Failed, Sink};
use ncp_wire::{Command, CommandFault};

// An upper bound on the number of bytes of the line of a text.
const MAX_TEXT_LINE_LEN: usize = MAX_LINE_LEN + MAX_BITS / 4;

/// Appends the line of a command, or of the fault after the last one. There has to be room for
/// [`MAX_LINE_LEN`].
// Inlined in the loop over commands, which then needs no call for each of them.
#[inline(always)]
pub fn push_item(page: &mut OutBuffer, item: &Result<Command, CommandFault>)
    requires { length page.old + MAX_LINE_LEN ≤ PAGE_SIZE }
    ensures { page.new ≡ page.old ++ item_line item.now }
{
    page.push_text(b"  ");
    match item {
        Ok(command) => push_command(page, command),
        Err(fault) => push_error(page, b"bad code=", fault.code, &fault.bytes),
    }
    page.push(b'\n');
}

// Renders a line for each command of a control text, and one for its fault.
//
// Room for the next line is made after each line, so that a command is rendered directly after it
// is read.
fn render_commands<W: Sink>(out: &mut BufferedSink<'_, W>, text: Part<'_>) -> Result<(), Failed>
    requires { length text % 8 ≡ 0 }
    ensures output { RendersOrBreaks W.Sink out.old (control_lines (bytes_of text.entry)) result out.new }
    ensures writes { write_budget W.Sink out.old ≤ write_budget W.Sink out.new + lost_pieces (is_err result) }
    ensures mark { write_failed W.Sink out.new ≡ (write_failed W.Sink out.old || is_err result) }
    ensures same_outlet { SameOutlet out.old out.new }
{
    out.make_room(MAX_LINE_LEN)?;
    for item in Commands::new(text) {
        push_item(out.page, &item);
        out.make_room(MAX_LINE_LEN)?;
    }
    Ok(())
}

// Appends the bytes of a text that have to be copied first. A function of its own, so that a text
// whose bytes need no copy does not pay for the space of one.
#[inline(never)]
fn push_copied(page: &mut OutBuffer, text: &Part<'_>)
    requires { length page.old + MAX_BITS / 4 ≤ PAGE_SIZE }
    ensures bytes { page.new ≡ page.old ++ hex_of (bytes_of text.now) }
    ensures len { length page.new ≤ length page.old + MAX_BITS / 4 }
{
    let mut bytes = [0u8; MAX_BITS / 8];
    let used = &mut bytes[..text.len().div_ceil(8)];
    text.to_bytes(used);
    page.push_hex(used);
}

/// Appends a space and a text in hexadecimal, if it has a bit. There has to be room for the longest
/// text: a space, and a digit for each four of [`MAX_BITS`].
pub fn push_text_word(page: &mut OutBuffer, text: &Part<'_>)
    requires { length page.old + 1 + MAX_BITS / 4 ≤ PAGE_SIZE }
    ensures bytes { page.new ≡ page.old ++ text_word text.now }
    ensures len { length page.new ≤ length page.old + 1 + MAX_BITS / 4 }
{
    if text.is_empty() {
        return;
    }
    page.push(b' ');
    match text.whole_bytes() {
        Some(bytes) => page.push_hex(bytes),
        None => push_copied(page, text),
    }
}

// Appends the line of a text.
fn push_text_line(page: &mut OutBuffer, text: &Part<'_>)
    requires { length page.old + MAX_TEXT_LINE_LEN ≤ PAGE_SIZE }
    ensures { page.new ≡ page.old ++ text_line text.now }
{
    push_field(page, b"  text bits=", text.len() as u32);
    push_text_word(page, text);
    page.push(b'\n');
}

// Appends the line of a message's size and count.
fn push_size(page: &mut OutBuffer, message: &Regular<'_>)
    requires { length page.old + MAX_LINE_LEN ≤ PAGE_SIZE }
    ensures { page.new ≡ page.old ++ size_line message.now }
{
    push_field(page, b"  size=", u32::from(message.size()));
    push_field(page, b" count=", u32::from(message.count()));
    page.push(b'\n');
}

// Appends the line of a message's fault.
fn push_fault(page: &mut OutBuffer, fault: MessageFault)
    requires { length page.old + MAX_LINE_LEN ≤ PAGE_SIZE }
    ensures { page.new ≡ page.old ++ message_fault_line fault }
{
    page.push_text(b"  fault ");
    page.push_text(fault.name().as_bytes());
    page.push(b'\n');
}

// Renders the line of a text.
fn render_text<W: Sink>(out: &mut BufferedSink<'_, W>, text: &Part<'_>) -> Result<(), Failed>
    ensures output { RendersOrBreaks W.Sink out.old (text_line text.now) result out.new }
    ensures writes { write_budget W.Sink out.old ≤ write_budget W.Sink out.new + lost_pieces (is_err result) }
    ensures mark { write_failed W.Sink out.new ≡ (write_failed W.Sink out.old || is_err result) }
    ensures same_outlet { SameOutlet out.old out.new }
{
    out.make_room(MAX_TEXT_LINE_LEN)?;
    push_text_line(out.page, text);
    Ok(())
}

// Renders the line of a message's size and count.
fn render_size<W: Sink>(out: &mut BufferedSink<'_, W>, message: &Regular<'_>) -> Result<(), Failed>
    ensures output { RendersOrBreaks W.Sink out.old (size_line message.now) result out.new }
    ensures writes { write_budget W.Sink out.old ≤ write_budget W.Sink out.new + lost_pieces (is_err result) }
    ensures mark { write_failed W.Sink out.new ≡ (write_failed W.Sink out.old || is_err result) }
    ensures same_outlet { SameOutlet out.old out.new }
{
    out.make_room(MAX_LINE_LEN)?;
    push_size(out.page, message);
    Ok(())
}

// Renders the line of a message's fault.
fn render_fault<W: Sink>(out: &mut BufferedSink<'_, W>, fault: MessageFault) -> Result<(), Failed>
    ensures output { RendersOrBreaks W.Sink out.old (message_fault_line fault) result out.new }
    ensures writes { write_budget W.Sink out.old ≤ write_budget W.Sink out.new + lost_pieces (is_err result) }
    ensures mark { write_failed W.Sink out.new ≡ (write_failed W.Sink out.old || is_err result) }
    ensures same_outlet { SameOutlet out.old out.new }
{
    out.make_room(MAX_LINE_LEN)?;
    push_fault(out.page, fault);
    Ok(())
}

// Renders the lines of a message that has no fault.
fn render_message<W: Sink>(
    out: &mut BufferedSink<'_, W>,
    message: &Regular<'_>,
) -> Result<(), Failed>
    ensures output { RendersOrBreaks W.Sink out.old (size_line message.now ++ text_lines message.now) result out.new }
    ensures writes { write_budget W.Sink out.old ≤ write_budget W.Sink out.new + lost_pieces (is_err result) }
    ensures mark { write_failed W.Sink out.new ≡ (write_failed W.Sink out.old || is_err result) }
    ensures same_outlet { SameOutlet out.old out.new }
{
    render_size(out, message)?;
    if is_of_control(message) {
        render_commands(out, message.text())
    } else {
        render_text(out, &message.text())
    }
}

/// Renders the detail lines of a regular message: appends them to the out buffer, and writes it
/// when they do not fit.
#[inline(always)]
pub fn render_details<W: Sink>(
    out: &mut BufferedSink<'_, W>,
    message: &Part<'_>,
) -> Result<(), Failed>
    ensures output { RendersOrBreaks W.Sink out.old (message_lines (message_in message.now)) result out.new }
    ensures writes { write_budget W.Sink out.old ≤ write_budget W.Sink out.new + lost_pieces (is_err result) }
    ensures mark { write_failed W.Sink out.new ≡ (write_failed W.Sink out.old || is_err result) }
    ensures same_outlet { SameOutlet out.old out.new }
{
    match read_regular_in(message) {
        Ok(message) => render_message(out, &message),
        Err(fault) => render_fault(out, fault),
    }
}

//! The lines of a note.
ghost use Rattle.std.specs.Prelude.{◌≡◌, ◌+◌, ◌≤◌, ◌||◌, ◌++◌, length, is_err};
ghost use Rattle.ncp_play_buffer.specs.BufferedSinks.{SameOutlet, write_failed, write_budget, RendersOrBreaks};
ghost use Rattle.ncp_play_stream.specs.Pieces.{lost_pieces};
ghost use Rattle.ncp_play_notes.specs.NoteLines.{toward, call_line, in_line, out_line, nothing_line, first_line, lines_after, note_lines};
ghost use Rattle.ncp_play_notes.specs.Results.{error_line, error_lines};

use crate::arrived::push_received;
use crate::heading::{LinePrefix, MAX_NAMED_LEN, push_front, push_named};
use crate::naming::name_of_note;
use crate::results::{MAX_RESULT_LEN, push_result};
use ncp_bits::Part;
use ncp_host::{Error, Received};
use ncp_leader::{Leader, Short, read_leader_in};
use ncp_play_buffer::{BufferedSink, OutBuffer, PAGE_SIZE, push_field};
use ncp_play_files::{MAX_LINE_LEN, push_item, render_details};
use ncp_play_stream::{Failed, Sink};
use ncp_transcript::HostNote;
use ncp_wire::Command;

// The maximum length of a note's first line, in bytes.
const MAX_FIRST_LEN: usize = MAX_NAMED_LEN + MAX_RESULT_LEN + 1;

// Appends the line of a call, if the call has a name.
fn push_call_line(page: &mut OutBuffer, heading: LinePrefix, note: &HostNote)
    requires { length page.old + MAX_FIRST_LEN ≤ PAGE_SIZE }
    ensures { page.new ≡ page.old ++ call_line heading note.now }
{
    let Some((verb, peer)) = name_of_note(note) else {
        return;
    };
    push_named(page, heading, verb, peer);
    push_result(page, note);
    page.push(b'\n');
}

// Appends the line of received bits.
fn push_in_line(page: &mut OutBuffer, heading: LinePrefix, received: Received)
    requires { length page.old + MAX_FIRST_LEN ≤ PAGE_SIZE }
    ensures { page.new ≡ page.old ++ in_line heading received }
{
    push_front(page, heading);
    page.push_text(b" in ");
    push_received(page, received);
    page.push(b'\n');
}

// Appends the destination of a message.
fn push_toward(page: &mut OutBuffer, leader: &Result<Leader, Short>)
    requires { length page.old + MAX_LINE_LEN ≤ PAGE_SIZE }
    ensures bytes { page.new ≡ page.old ++ toward leader.now }
    ensures len { length page.new ≤ length page.old + MAX_LINE_LEN }
{
    match leader {
        Ok(leader) => {
            push_field(page, b" host=", u32::from(leader.host));
            push_field(page, b" link=", u32::from(leader.link));
        }
        Err(_) => page.push_text(b" short"),
    }
}

// Appends the line of a message that is sent.
fn push_out_line(page: &mut OutBuffer, heading: LinePrefix, message: &Part<'_>)
    requires { length page.old + MAX_FIRST_LEN ≤ PAGE_SIZE }
    ensures { page.new ≡ page.old ++ out_line heading message.now }
{
    push_front(page, heading);
    page.push_text(b" out");
    push_toward(page, &read_leader_in(message));
    push_field(page, b" bits=", message.len() as u32);
    page.push(b'\n');
}

// Appends the line of an `out` with nothing to send.
fn push_nothing_line(page: &mut OutBuffer, heading: LinePrefix)
    requires { length page.old + MAX_FIRST_LEN ≤ PAGE_SIZE }
    ensures { page.new ≡ page.old ++ nothing_line heading }
{
    push_front(page, heading);
    page.push_text(b" out nothing\n");
}

// Appends the first line of a note.
fn push_first_line(page: &mut OutBuffer, heading: LinePrefix, note: &HostNote)
    requires { length page.old + MAX_FIRST_LEN ≤ PAGE_SIZE }
    ensures { page.new ≡ page.old ++ first_line heading note.now }
{
    match note {
        HostNote::Out { message } => push_out_line(page, heading, &message.whole()),
        HostNote::Nothing => push_nothing_line(page, heading),
        HostNote::In { received, .. } => push_in_line(page, heading, *received),
        HostNote::Answered { received, .. } => push_in_line(page, heading, *received),
        _ => push_call_line(page, heading, note),
    }
}

// Renders the first line of a note.
fn render_first_line<W: Sink>(
    out: &mut BufferedSink<'_, W>,
    heading: LinePrefix,
    note: &HostNote,
) -> Result<(), Failed>
    ensures output { RendersOrBreaks W.Sink out.old (first_line heading note.now) result out.new }
    ensures writes { write_budget W.Sink out.old ≤ write_budget W.Sink out.new + lost_pieces (is_err result) }
    ensures mark { write_failed W.Sink out.new ≡ (write_failed W.Sink out.old || is_err result) }
    ensures same_outlet { SameOutlet out.old out.new }
{
    out.make_room(MAX_FIRST_LEN)?;
    push_first_line(out.page, heading, note);
    Ok(())
}

// Appends the line of an ERR.
fn push_error_line(page: &mut OutBuffer, error: &Error)
    requires { length page.old + MAX_LINE_LEN ≤ PAGE_SIZE }
    ensures { page.new ≡ page.old ++ error_line error.now }
{
    push_item(
        page,
        &Ok(Command::Err {
            code: error.code,
            bytes: error.bytes,
        }),
    );
}

// Renders a line for each ERR.
fn render_errors<W: Sink>(out: &mut BufferedSink<'_, W>, errors: &[Error]) -> Result<(), Failed>
    ensures output { RendersOrBreaks W.Sink out.old (error_lines errors.now) result out.new }
    ensures writes { write_budget W.Sink out.old ≤ write_budget W.Sink out.new + lost_pieces (is_err result) }
    ensures mark { write_failed W.Sink out.new ≡ (write_failed W.Sink out.old || is_err result) }
    ensures same_outlet { SameOutlet out.old out.new }
{
    for error in errors {
        out.make_room(MAX_LINE_LEN)?;
        push_error_line(out.page, error);
    }
    Ok(())
}

// Renders the lines after the first.
fn render_after<W: Sink>(out: &mut BufferedSink<'_, W>, note: &HostNote) -> Result<(), Failed>
    ensures output { RendersOrBreaks W.Sink out.old (lines_after note.now) result out.new }
    ensures writes { write_budget W.Sink out.old ≤ write_budget W.Sink out.new + lost_pieces (is_err result) }
    ensures mark { write_failed W.Sink out.new ≡ (write_failed W.Sink out.old || is_err result) }
    ensures same_outlet { SameOutlet out.old out.new }
{
    match note {
        HostNote::Out { message } => render_details(out, &message.whole()),
        HostNote::Errors { errors, .. } => render_errors(out, errors.as_slice()),
        _ => Ok(()),
    }
}

/// Renders the lines of a note into the out buffer, which is written when it is full.
///
/// Allocates nothing. After a failed write, a prefix of the rendered bytes is written.
pub fn render_note<W: Sink>(
    out: &mut BufferedSink<'_, W>,
    heading: LinePrefix,
    note: &HostNote,
) -> Result<(), Failed>
    ensures output { RendersOrBreaks W.Sink out.old (note_lines heading note.now) result out.new }
    ensures writes { write_budget W.Sink out.old ≤ write_budget W.Sink out.new + lost_pieces (is_err result) }
    ensures mark { write_failed W.Sink out.new ≡ (write_failed W.Sink out.old || is_err result) }
    ensures same_outlet { SameOutlet out.old out.new }
{
    render_first_line(out, heading, note)?;
    render_after(out, note)
}

//! The lines of a note of two hosts.
ghost use Rattle.std.specs.Prelude.{◌≡◌, ◌+◌, ◌≤◌, ◌||◌, ◌++◌, length, is_err};
ghost use Rattle.ncp_play_buffer.specs.BufferedSinks.{SameOutlet, write_failed, write_budget, RendersOrBreaks};
ghost use Rattle.ncp_play_stream.specs.Pieces.{lost_pieces};
ghost use Rattle.ncp_play_world_lines.specs.WorldNotes.{line_prefix_of, moved_by, subnet_line, world_note_lines};

use crate::move_line::{MAX_LINE_LEN, Moved, push_answered_line, push_came_line, push_move_line};
use crate::moves::letter_of;
use ncp_play_buffer::{BufferedSink, OutBuffer, PAGE_SIZE};
use ncp_play_notes::{LineHost, LinePrefix, render_note};
use ncp_play_stream::{Failed, Sink};
use ncp_transcript_two::{Move, Note, Side};

// The prefix of a line of a side.
fn line_prefix_of(number: u32, side: Side) -> LinePrefix
    ensures { result ≡ line_prefix_of number side }
{
    LinePrefix {
        number,
        speaker: LineHost::Side(letter_of(side)),
    }
}

// A move of a side's message on a link.
fn moved_by(number: u32, side: Side, wanted: Move, link: u8) -> Moved
    ensures { result ≡ moved_by number side wanted link }
{
    Moved {
        heading: line_prefix_of(number, side),
        to: None,
        wanted,
        link,
    }
}

// Appends the line of a note about the subnet.
fn push_subnet_line(page: &mut OutBuffer, number: u32, note: &Note)
    requires { length page.old + MAX_LINE_LEN ≤ PAGE_SIZE }
    ensures { page.new ≡ page.old ++ subnet_line number note.now }
{
    match *note {
        Note::Came {
            side,
            link,
            ref note,
        } => { push_came_line(page, moved_by(number, side, Move::Deliver, link), note) }
        Note::Lost { side, link } => {
            push_move_line(page, moved_by(number, side, Move::Lose, link), b"ok")
        }
        Note::FoundDead { side, link } => {
            push_move_line(page, moved_by(number, side, Move::Dead, link), b"ok")
        }
        Note::Answered {
            side,
            link,
            ref note,
        } => { push_answered_line(page, moved_by(number, side, Move::Answer, link), note) }
        Note::Nothing { side, link, wanted } => {
            push_move_line(page, moved_by(number, side, wanted, link), b"nothing")
        }
        _ => {}
    }
}

// Renders the line of a note about the subnet.
fn render_subnet_line<W: Sink>(
    out: &mut BufferedSink<'_, W>,
    number: u32,
    note: &Note,
) -> Result<(), Failed>
    ensures output { RendersOrBreaks W.Sink out.old (subnet_line number note.now) result out.new }
    ensures writes { write_budget W.Sink out.old ≤ write_budget W.Sink out.new + lost_pieces (is_err result) }
    ensures mark { write_failed W.Sink out.new ≡ (write_failed W.Sink out.old || is_err result) }
    ensures same_outlet { SameOutlet out.old out.new }
{
    out.make_room(MAX_LINE_LEN)?;
    push_subnet_line(out.page, number, note);
    Ok(())
}

/// Renders the lines of a note of two hosts: appends them to the out buffer, and writes the buffer
/// when it is full.
///
/// After a failed write a prefix of the rendered text is written. Does not allocate.
pub fn render_world_note<W: Sink>(
    out: &mut BufferedSink<'_, W>,
    number: u32,
    note: &Note,
) -> Result<(), Failed>
    ensures output { RendersOrBreaks W.Sink out.old (world_note_lines number note.now) result out.new }
    ensures writes { write_budget W.Sink out.old ≤ write_budget W.Sink out.new + lost_pieces (is_err result) }
    ensures mark { write_failed W.Sink out.new ≡ (write_failed W.Sink out.old || is_err result) }
    ensures same_outlet { SameOutlet out.old out.new }
{
    match note {
        Note::Called { side, note } => render_note(out, line_prefix_of(number, *side), note),
        Note::Out { side, note } => render_note(out, line_prefix_of(number, *side), note),
        _ => render_subnet_line(out, number, note),
    }
}

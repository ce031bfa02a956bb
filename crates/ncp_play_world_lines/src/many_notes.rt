//! The lines of a note of two to eight hosts.
ghost use Rattle.std.specs.Prelude.{◌≡◌, ◌+◌, ◌≤◌, ◌||◌, ◌++◌, length, is_err};
ghost use Rattle.ncp_play_buffer.specs.BufferedSinks.{SameOutlet, write_failed, write_budget, RendersOrBreaks};
ghost use Rattle.ncp_play_stream.specs.Pieces.{lost_pieces};
ghost use Rattle.ncp_play_world_lines.specs.ManyNotes.{line_prefix_at, moved_among, impossible_line, many_subnet_line, many_note_lines};

use crate::move_line::{MAX_LINE_LEN, Moved, push_answered_line, push_came_line, push_move_line};
use ncp_play_buffer::{BufferedSink, OutBuffer, PAGE_SIZE};
use ncp_play_notes::{LineHost, LinePrefix, render_note};
use ncp_play_stream::{Failed, Sink};
use ncp_transcript_many::{ManyEvent, ManyNote};
use ncp_transcript_two::Move;

// The prefix of a line of a host.
fn line_prefix_at(number: u32, host: u8) -> LinePrefix
    ensures { result ≡ line_prefix_at number host }
{
    LinePrefix {
        number,
        speaker: LineHost::Number(host),
    }
}

// A move of a message on a link from one host to another.
fn moved_among(number: u32, from: u8, to: u8, wanted: Move, link: u8) -> Moved
    ensures { result ≡ moved_among number from to wanted link }
{
    Moved {
        heading: line_prefix_at(number, from),
        to: Some(to),
        wanted,
        link,
    }
}

// Appends the line of an impossible event, if it has one.
fn push_impossible(page: &mut OutBuffer, number: u32, event: &ManyEvent)
    requires { length page.old + MAX_LINE_LEN ≤ PAGE_SIZE }
    ensures { page.new ≡ page.old ++ impossible_line number event.now }
{
    match *event {
        ManyEvent::Deliver { from, to, link } => {
            push_move_line(
                page,
                moved_among(number, from, to, Move::Deliver, link),
                b"nothing",
            )
        }
        ManyEvent::Lose { from, to, link } => {
            push_move_line(
                page,
                moved_among(number, from, to, Move::Lose, link),
                b"nothing",
            )
        }
        ManyEvent::Dead { from, to, link } => {
            push_move_line(
                page,
                moved_among(number, from, to, Move::Dead, link),
                b"nothing",
            )
        }
        ManyEvent::Answer { from, to, link } => {
            push_move_line(
                page,
                moved_among(number, from, to, Move::Answer, link),
                b"nothing",
            )
        }
        _ => {}
    }
}

// Appends the line of a note about the subnet.
fn push_subnet_line(page: &mut OutBuffer, number: u32, note: &ManyNote)
    requires { length page.old + MAX_LINE_LEN ≤ PAGE_SIZE }
    ensures { page.new ≡ page.old ++ many_subnet_line number note.now }
{
    match *note {
        ManyNote::Came {
            from,
            to,
            link,
            ref note,
        } => push_came_line(
            page,
            moved_among(number, from, to, Move::Deliver, link),
            note,
        ),
        ManyNote::Lost { from, to, link } => {
            push_move_line(page, moved_among(number, from, to, Move::Lose, link), b"ok")
        }
        ManyNote::FoundDead { from, to, link } => {
            push_move_line(page, moved_among(number, from, to, Move::Dead, link), b"ok")
        }
        ManyNote::Answered {
            from,
            to,
            link,
            ref note,
        } => push_answered_line(
            page,
            moved_among(number, from, to, Move::Answer, link),
            note,
        ),
        ManyNote::Nothing { ref event } => push_impossible(page, number, event),
        _ => {}
    }
}

// Renders the line of a note about the subnet.
fn render_subnet_line<W: Sink>(
    out: &mut BufferedSink<'_, W>,
    number: u32,
    note: &ManyNote,
) -> Result<(), Failed>
    ensures output { RendersOrBreaks W.Sink out.old (many_subnet_line number note.now) result out.new }
    ensures writes { write_budget W.Sink out.old ≤ write_budget W.Sink out.new + lost_pieces (is_err result) }
    ensures mark { write_failed W.Sink out.new ≡ (write_failed W.Sink out.old || is_err result) }
    ensures same_outlet { SameOutlet out.old out.new }
{
    out.make_room(MAX_LINE_LEN)?;
    push_subnet_line(out.page, number, note);
    Ok(())
}

/// Renders the lines of a note of two to eight hosts: appends them to the out buffer, and writes
/// the buffer when it is full.
///
/// After a failed write a prefix of the rendered text is written. Does not allocate.
pub fn render_many_note<W: Sink>(
    out: &mut BufferedSink<'_, W>,
    number: u32,
    note: &ManyNote,
) -> Result<(), Failed>
    ensures output { RendersOrBreaks W.Sink out.old (many_note_lines number note.now) result out.new }
    ensures writes { write_budget W.Sink out.old ≤ write_budget W.Sink out.new + lost_pieces (is_err result) }
    ensures mark { write_failed W.Sink out.new ≡ (write_failed W.Sink out.old || is_err result) }
    ensures same_outlet { SameOutlet out.old out.new }
{
    match note {
        ManyNote::Called { host, note } => render_note(out, line_prefix_at(number, *host), note),
        ManyNote::Out { host, note } => render_note(out, line_prefix_at(number, *host), note),
        _ => render_subnet_line(out, number, note),
    }
}

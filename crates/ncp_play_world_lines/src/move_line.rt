//! The line of a move of a message in the subnet.
ghost use Rattle.std.specs.Prelude.{◌≡◌, ◌+◌, ◌≤◌, ◌++◌, codes, length};
ghost use Rattle.ncp_play_world_lines.specs.Moves.{word_of_move};
ghost use Rattle.ncp_play_world_lines.specs.MoveLines.{came_words, answer_word, answer_words, destination, move_front, move_line};

use crate::moves::word_of;
use ncp_play_buffer::{MAX_NUMBER_LEN, OutBuffer, PAGE_SIZE, push_field};
use ncp_play_notes::{LinePrefix, MAX_FRONT_LEN, MAX_RECEIVED_LEN, push_front, push_received};
use ncp_transcript::HostNote;
use ncp_transcript_two::Move;
use ncp_wire::Answer;

/// A move of a message.
#[derive(Clone, Copy, Debug, Drop)]
pub(crate) struct Moved {
    /// The prefix of its line: the sender's.
    pub(crate) heading: LinePrefix,
    /// The destination, if lines name it.
    pub(crate) to: Option<u8>,
    pub(crate) wanted: Move,
    pub(crate) link: u8,
}

// The length of the longest word that names a move.
const MAX_WORD_LEN: usize = 7;

// An upper bound on the number of bytes of a destination.
const MAX_DESTINATION_LEN: usize = 1 + MAX_NUMBER_LEN;

// An upper bound on the number of bytes of a line up to the outcome of a move.
const MAX_MOVE_LEN: usize = MAX_FRONT_LEN
    + 1
    + MAX_WORD_LEN
    + MAX_DESTINATION_LEN
    + 1
    + MAX_NUMBER_LEN
    + 1;

/// An upper bound on the number of bytes of the line of a move.
pub(crate) const MAX_LINE_LEN: usize = MAX_MOVE_LEN + MAX_RECEIVED_LEN + 1;

// Appends the word of a move.
fn push_word(page: &mut OutBuffer, wanted: Move)
    requires { length page.old + MAX_WORD_LEN ≤ PAGE_SIZE }
    ensures bytes { page.new ≡ page.old ++ word_of_move wanted }
    ensures len { length page.new ≤ length page.old + MAX_WORD_LEN }
{
    page.push_text(word_of(wanted).as_bytes());
}

// Appends the destination, if lines name it.
fn push_destination(page: &mut OutBuffer, to: Option<u8>)
    requires { length page.old + MAX_DESTINATION_LEN ≤ PAGE_SIZE }
    ensures bytes { page.new ≡ page.old ++ destination to }
    ensures len { length page.new ≤ length page.old + MAX_DESTINATION_LEN }
{
    if let Some(to) = to {
        push_field(page, b" ", u32::from(to));
    }
}

// Appends the line of a move up to its outcome.
fn push_move(page: &mut OutBuffer, moved: Moved)
    requires { length page.old + MAX_MOVE_LEN ≤ PAGE_SIZE }
    ensures bytes { page.new ≡ page.old ++ move_front moved }
    ensures len { length page.new ≤ length page.old + MAX_MOVE_LEN }
{
    push_front(page, moved.heading);
    page.push(b' ');
    push_word(page, moved.wanted);
    push_destination(page, moved.to);
    push_field(page, b" ", u32::from(moved.link));
    page.push(b' ');
}

// Appends the outcome of a message, as its receiver noted it.
fn push_came(page: &mut OutBuffer, note: &HostNote)
    requires { length page.old + MAX_RECEIVED_LEN ≤ PAGE_SIZE }
    ensures bytes { page.new ≡ page.old ++ came_words note.now }
    ensures len { length page.new ≤ length page.old + MAX_RECEIVED_LEN }
{
    match note {
        HostNote::In { received, .. } => push_received(page, *received),
        HostNote::Answered { received, .. } => push_received(page, *received),
        _ => {}
    }
}

// Appends the word of an answer.
fn push_answer(page: &mut OutBuffer, answer: Answer)
    requires { length page.old + MAX_RECEIVED_LEN ≤ PAGE_SIZE }
    ensures bytes { page.new ≡ page.old ++ answer_word answer }
    ensures len { length page.new ≤ length page.old + MAX_RECEIVED_LEN }
{
    match answer {
        Answer::Rfnm => page.push_text(b"rfnm"),
        Answer::Incomplete => page.push_text(b"incomplete"),
        Answer::Dead => page.push_text(b"dead"),
    }
}

// Appends the answer, as the sender noted it.
fn push_answered(page: &mut OutBuffer, note: &HostNote)
    requires { length page.old + MAX_RECEIVED_LEN ≤ PAGE_SIZE }
    ensures bytes { page.new ≡ page.old ++ answer_words note.now }
    ensures len { length page.new ≤ length page.old + MAX_RECEIVED_LEN }
{
    if let HostNote::Answered { answer, .. } = note {
        push_answer(page, *answer);
    }
}

/// Appends the line of a move with this outcome.
pub(crate) fn push_move_line(page: &mut OutBuffer, moved: Moved, outcome: &[u8])
    requires room { length page.old + MAX_LINE_LEN ≤ PAGE_SIZE }
    requires short { length outcome.now ≤ MAX_RECEIVED_LEN }
    ensures { page.new ≡ page.old ++ move_line moved outcome.now }
{
    push_move(page, moved);
    page.push_text(outcome);
    page.push(b'\n');
}

/// Appends the line of a message that arrived, with its outcome.
pub(crate) fn push_came_line(page: &mut OutBuffer, moved: Moved, note: &HostNote)
    requires { length page.old + MAX_LINE_LEN ≤ PAGE_SIZE }
    ensures { page.new ≡ page.old ++ move_line moved (came_words note.now) }
{
    push_move(page, moved);
    push_came(page, note);
    page.push(b'\n');
}

/// Appends the line of an answer that arrived.
pub(crate) fn push_answered_line(page: &mut OutBuffer, moved: Moved, note: &HostNote)
    requires { length page.old + MAX_LINE_LEN ≤ PAGE_SIZE }
    ensures { page.new ≡ page.old ++ move_line moved (answer_words note.now) }
{
    push_move(page, moved);
    push_answered(page, note);
    page.push(b'\n');
}

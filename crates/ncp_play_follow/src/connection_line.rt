//! The lines of connections.
ghost use Rattle.std.specs.Prelude.{◌≡◌, ◌+◌, ◌*◌, ◌≤◌, ◌||◌, ◌++◌, length, is_err};
ghost use Rattle.std.specs.List.{flat_map};
ghost use Rattle.ncp_play_follow.specs.ConnectionLines.{way_word, end_word, ended_word, which_words, socket_words, end_words, said_words, conn_words, allocation_words, connection_line, of_words, shown_words, said_text, said_line, letters_if, connection_lines};
ghost use Rattle.ncp_play_stream.specs.Pieces.{lost_pieces};
ghost use Rattle.ncp_play_buffer.specs.BufferedSinks.{SameOutlet, write_failed, write_budget, RendersOrBreaks};

use crate::letters::{MAX_LETTERS_LEN, push_letters};
use crate::words::{MAX_AMOUNT_LEN, push_amount};
use ncp_bits::{MAX_BITS, Part};
use ncp_follow::{Connection, EndReason};
use ncp_play_buffer::{BufferedSink, MAX_NUMBER_LEN, OutBuffer, PAGE_SIZE, push_field};
use ncp_play_files::push_text_word;
use ncp_play_stream::{Failed, Sink};

/// An upper bound on the number of bytes of the lines of a connection.
pub const MAX_CONNECTION_LEN: usize = MAX_FRONT_LEN + MAX_SAID_LEN + MAX_LETTERS_LEN;

// An upper bound on the number of bytes of four or five words.
const MAX_WORDS_LEN: usize = 72;

// An upper bound on the number of bytes of the first line.
const MAX_FRONT_LEN: usize = 4 * MAX_WORDS_LEN + 2 * MAX_AMOUNT_LEN + 1;

// An upper bound on the number of bytes of the numbers in the line of the text.
const MAX_SHOWN_LEN: usize = 16 + 2 * MAX_NUMBER_LEN;

// An upper bound on the number of bytes of that line.
const MAX_SAID_LEN: usize = MAX_SHOWN_LEN + 2 + MAX_BITS / 4;

// The direction of the text.
fn way_word(local: u32) -> &'static [u8]
    ensures word { result.now ≡ way_word local }
    ensures len { length result.now ≤ 8 }
{
    if local % 2 == 1 {
        b" send"
    } else {
        b" receive"
    }
}

// How a connection ended.
fn end_word(end: EndReason) -> &'static [u8]
    ensures word { result.now ≡ end_word end }
    ensures len { length result.now ≤ 8 }
{
    match end {
        EndReason::Open => b"end",
        EndReason::CloseSent => b"cls-sent",
        EndReason::CloseCame => b"cls-came",
        EndReason::Closed => b"cls",
        EndReason::ResetCame => b"rst-came",
        EndReason::ResetSent => b"rst-sent",
        EndReason::ReplyCame => b"rrp-came",
    }
}

// Appends the number of the record that ended the connection, or `-`.
fn push_ended(page: &mut OutBuffer, ended: Option<u32>)
    requires { length page.old + MAX_NUMBER_LEN ≤ PAGE_SIZE }
    ensures bytes { page.new ≡ page.old ++ ended_word ended }
    ensures len { length page.new ≤ length page.old + MAX_NUMBER_LEN }
{
    match ended {
        Some(number) => page.push_decimal(number),
        None => page.push_text(b"-"),
    }
}

// Appends the identity of a connection, and its direction.
#[tactic(auto, unfolding(crate::specs::ConnectionLines::which_words))]
fn push_which(page: &mut OutBuffer, connection: &Connection)
    requires { length page.old + MAX_WORDS_LEN ≤ PAGE_SIZE }
    ensures bytes { page.new ≡ page.old ++ which_words connection.now }
    ensures len { length page.new ≤ length page.old + MAX_WORDS_LEN }
{
    page.push_decimal(connection.number);
    push_field(page, b" at=", u32::from(connection.at));
    push_field(page, b" host=", u32::from(connection.peer));
    page.push_text(way_word(connection.local));
}

// Appends its sockets, its link and its byte size.
#[tactic(auto, unfolding(crate::specs::ConnectionLines::socket_words))]
fn push_sockets(page: &mut OutBuffer, connection: &Connection)
    requires { length page.old + MAX_WORDS_LEN ≤ PAGE_SIZE }
    ensures bytes { page.new ≡ page.old ++ socket_words connection.now }
    ensures len { length page.new ≤ length page.old + MAX_WORDS_LEN }
{
    push_field(page, b" local=", connection.local);
    push_field(page, b" remote=", connection.remote);
    push_field(page, b" link=", u32::from(connection.link));
    push_field(page, b" size=", u32::from(connection.size));
}

// Appends when it was opened, and when and how it ended.
#[tactic(auto, unfolding(crate::specs::ConnectionLines::end_words))]
fn push_end(page: &mut OutBuffer, connection: &Connection)
    requires { length page.old + MAX_WORDS_LEN ≤ PAGE_SIZE }
    ensures bytes { page.new ≡ page.old ++ end_words connection.now }
    ensures len { length page.new ≤ length page.old + MAX_WORDS_LEN }
{
    push_field(page, b" opened=", connection.opened);
    page.push_text(b" ended=");
    push_ended(page, connection.ended);
    page.push_text(b" by=");
    page.push_text(end_word(connection.end));
}

// Appends the number of messages and of bits of its text.
#[tactic(auto, unfolding(crate::specs::ConnectionLines::said_words))]
fn push_said(page: &mut OutBuffer, connection: &Connection)
    requires { length page.old + MAX_WORDS_LEN ≤ PAGE_SIZE }
    ensures bytes { page.new ≡ page.old ++ said_words connection.now }
    ensures len { length page.new ≤ length page.old + MAX_WORDS_LEN }
{
    push_field(page, b" messages=", connection.said.messages);
    push_field(page, b" bits=", connection.said.bits);
    push_field(page, b" late=", connection.late);
}

// Appends all words except those of its allocation.
#[tactic(auto, unfolding(crate::specs::ConnectionLines::conn_words))]
fn push_conn(page: &mut OutBuffer, connection: &Connection)
    requires { length page.old + 4 * MAX_WORDS_LEN ≤ PAGE_SIZE }
    ensures bytes { page.new ≡ page.old ++ conn_words connection.now }
    ensures len { length page.new ≤ length page.old + 4 * MAX_WORDS_LEN }
{
    push_which(page, connection);
    push_sockets(page, connection);
    push_end(page, connection);
    push_said(page, connection);
}

// Appends the allocated and the returned amounts.
#[tactic(auto, unfolding(crate::specs::ConnectionLines::allocation_words))]
fn push_allocation(page: &mut OutBuffer, connection: &Connection)
    requires { length page.old + 2 * MAX_AMOUNT_LEN ≤ PAGE_SIZE }
    ensures bytes { page.new ≡ page.old ++ allocation_words connection.now }
    ensures len { length page.new ≤ length page.old + 2 * MAX_AMOUNT_LEN }
{
    push_amount(page, b" granted=", connection.granted);
    push_amount(page, b" returned=", connection.returned);
}

// Appends the first line.
fn push_front(page: &mut OutBuffer, connection: &Connection)
    requires { length page.old + MAX_FRONT_LEN ≤ PAGE_SIZE }
    ensures bytes { page.new ≡ page.old ++ connection_line connection.now }
    ensures len { length page.new ≤ length page.old + MAX_FRONT_LEN }
{
    push_conn(page, connection);
    push_allocation(page, connection);
    page.push(b'\n');
}

// Appends the number of bits of the whole text, if only a prefix is shown.
fn push_of(page: &mut OutBuffer, shown: u32, said: u32)
    requires { length page.old + 4 + MAX_NUMBER_LEN ≤ PAGE_SIZE }
    ensures bytes { page.new ≡ page.old ++ of_words shown said }
    ensures len { length page.new ≤ length page.old + 4 + MAX_NUMBER_LEN }
{
    if shown != said {
        push_field(page, b" of=", said);
    }
}

// Appends the number of bits shown, and of the whole text.
fn push_shown(page: &mut OutBuffer, shown: u32, said: u32)
    requires { length page.old + MAX_SHOWN_LEN ≤ PAGE_SIZE }
    ensures bytes { page.new ≡ page.old ++ shown_words shown said }
    ensures len { length page.new ≤ length page.old + MAX_SHOWN_LEN }
{
    push_field(page, b"  text bits=", shown);
    push_of(page, shown, said);
}

// Appends the line of a text of `said` bits.
fn push_said_text(page: &mut OutBuffer, text: &Part<'_>, said: u32)
    requires { length page.old + MAX_SAID_LEN ≤ PAGE_SIZE }
    ensures bytes { page.new ≡ page.old ++ said_text text.now said }
    ensures len { length page.new ≤ length page.old + MAX_SAID_LEN }
{
    push_shown(page, text.len() as u32, said);
    push_text_word(page, text);
    page.push(b'\n');
}

// Appends the line of the text.
fn push_text(page: &mut OutBuffer, connection: &Connection)
    requires { length page.old + MAX_SAID_LEN ≤ PAGE_SIZE }
    ensures bytes { page.new ≡ page.old ++ said_line connection.now }
    ensures len { length page.new ≤ length page.old + MAX_SAID_LEN }
{
    push_said_text(page, &connection.text.whole(), connection.said.bits);
}

// Appends the line of the letters, if asked for.
fn push_letters_if(page: &mut OutBuffer, letters: bool, connection: &Connection)
    requires { length page.old + MAX_LETTERS_LEN ≤ PAGE_SIZE }
    ensures { page.new ≡ page.old ++ letters_if letters connection.now }
{
    if letters {
        push_letters(page, connection);
    }
}

// Appends the lines of a connection.
fn push_connection(page: &mut OutBuffer, letters: bool, connection: &Connection)
    requires { length page.old + MAX_CONNECTION_LEN ≤ PAGE_SIZE }
    ensures { page.new ≡ page.old ++ connection_lines letters connection.now }
{
    push_front(page, connection);
    push_text(page, connection);
    push_letters_if(page, letters, connection);
}

/// Renders the lines of connections.
pub(crate) fn render_connections<W: Sink>(
    out: &mut BufferedSink<'_, W>,
    letters: bool,
    told: &[Connection],
) -> Result<(), Failed>
    ensures output { RendersOrBreaks W.Sink out.old (flat_map (connection_lines letters) told.now) result out.new }
    ensures writes { write_budget W.Sink out.old ≤ write_budget W.Sink out.new + lost_pieces (is_err result) }
    ensures mark { write_failed W.Sink out.new ≡ (write_failed W.Sink out.old || is_err result) }
    ensures same_outlet { SameOutlet out.old out.new }
{
    for connection in told {
        out.make_room(MAX_CONNECTION_LEN)?;
        push_connection(out.page, letters, connection);
    }
    Ok(())
}

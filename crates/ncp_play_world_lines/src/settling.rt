//! The word `settle` of scripts of several hosts, and its line.
ghost use Rattle.std.specs.Prelude.{◌≡◌, ◌+◌, ◌≤◌, ◌||◌, ◌++◌, codes, length, is_err};
ghost use Rattle.ncp_play_buffer.specs.BufferedSinks.{SameOutlet, write_failed, write_budget, RendersOrBreaks};
ghost use Rattle.ncp_play_stream.specs.Pieces.{lost_pieces};
ghost use Rattle.ncp_play_script.specs.Words.{is_only};
ghost use Rattle.ncp_play_world_lines.specs.Settling.{settled_line};

use ncp_play_buffer::{BufferedSink, MAX_LONG_LEN, MAX_NUMBER_LEN, OutBuffer, PAGE_SIZE};
use ncp_play_script::Words;
use ncp_play_stream::{Failed, Sink};

// The word.
const SETTLE: &[u8] = b"settle";

// An upper bound on the number of bytes of the line.
const MAX_LINE_LEN: usize = MAX_NUMBER_LEN + 8 + MAX_LONG_LEN + 1;

/// The directive of a line of a script of several hosts.
#[derive(Drop)]
pub enum Directive<E> {
    /// An event.
    Event(E),
    /// All events that are possible without a call, one after the other.
    Settle,
}

/// The notes of a line: one of each event, and after those of the word `settle` their number.
#[derive(Drop)]
pub enum ScriptNote<N> {
    Noted(N),
    Settled(usize),
}

/// Whether a line is the word `settle`.
pub fn is_settle(words: &Words<'_>) -> bool
    ensures { result ≡ is_only (codes "settle") words.now }
{
    words.is_only(SETTLE)
}

// Appends the line with this number that reports the number of events.
fn push_settled(page: &mut OutBuffer, number: u32, many: usize)
    requires { length page.old + MAX_LINE_LEN ≤ PAGE_SIZE }
    ensures { page.new ≡ page.old ++ settled_line number many }
{
    page.push_decimal(number);
    page.push_text(b" settle ");
    page.push_long(many as u64);
    page.push(b'\n');
}

/// Renders the line with this number that reports the number of events.
///
/// After a failed write a prefix of the rendered text is written. Does not allocate.
pub fn render_settled<W: Sink>(
    out: &mut BufferedSink<'_, W>,
    number: u32,
    many: usize,
) -> Result<(), Failed>
    ensures output { RendersOrBreaks W.Sink out.old (settled_line number many) result out.new }
    ensures writes { write_budget W.Sink out.old ≤ write_budget W.Sink out.new + lost_pieces (is_err result) }
    ensures mark { write_failed W.Sink out.new ≡ (write_failed W.Sink out.old || is_err result) }
    ensures same_outlet { SameOutlet out.old out.new }
{
    out.make_room(MAX_LINE_LEN)?;
    push_settled(out.page, number, many);
    Ok(())
}

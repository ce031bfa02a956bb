//! The lines of texts that belong to no connection.
ghost use Rattle.std.specs.Prelude.{◌≡◌, ◌+◌, ◌≤◌, ◌||◌, ◌++◌, length, is_err};
ghost use Rattle.std.specs.List.{flat_map};
ghost use Rattle.ncp_play_follow.specs.ConnectionLines.{is_session_quiet, stray_words, stray_line};
ghost use Rattle.ncp_play_stream.specs.Pieces.{lost_pieces};
ghost use Rattle.ncp_play_buffer.specs.BufferedSinks.{SameOutlet, write_failed, write_budget, RendersOrBreaks};

use crate::words::push_amount;
use ncp_follow::Session;
use ncp_play_buffer::{BufferedSink, OutBuffer, PAGE_SIZE, push_field};
use ncp_play_stream::{Failed, Sink};

// An upper bound on the number of bytes of a line.
const MAX_STRAY_LEN: usize = 96;

// Whether no text was outside of connections.
fn is_quiet(session: &Session) -> bool
    ensures { result ≡ is_session_quiet session.now }
{
    session.sent.messages == 0 && session.came.messages == 0
}

// Appends the line of texts outside of connections.
fn push_words(page: &mut OutBuffer, session: &Session)
    requires { length page.old + MAX_STRAY_LEN ≤ PAGE_SIZE }
    ensures { page.new ≡ page.old ++ stray_words session.now }
{
    push_field(page, b"- at=", u32::from(session.at));
    push_field(page, b" host=", u32::from(session.peer));
    push_amount(page, b" sent=", session.sent);
    push_amount(page, b" came=", session.came);
    page.push(b'\n');
}

// Appends it, if there were such texts.
#[tactic(auto, unfolding(crate::specs::ConnectionLines::stray_line))]
fn push_stray(page: &mut OutBuffer, session: &Session)
    requires { length page.old + MAX_STRAY_LEN ≤ PAGE_SIZE }
    ensures { page.new ≡ page.old ++ stray_line session.now }
{
    if !is_quiet(session) {
        push_words(page, session);
    }
}

/// Renders the lines of texts that belong to no connection.
pub(crate) fn render_strays<W: Sink>(
    out: &mut BufferedSink<'_, W>,
    sessions: &[Session],
) -> Result<(), Failed>
    ensures output { RendersOrBreaks W.Sink out.old (flat_map stray_line sessions.now) result out.new }
    ensures writes { write_budget W.Sink out.old ≤ write_budget W.Sink out.new + lost_pieces (is_err result) }
    ensures mark { write_failed W.Sink out.new ≡ (write_failed W.Sink out.old || is_err result) }
    ensures same_outlet { SameOutlet out.old out.new }
{
    for session in sessions {
        out.make_room(MAX_STRAY_LEN)?;
        push_stray(out.page, session);
    }
    Ok(())
}

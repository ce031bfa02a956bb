//! The line of the ledger of a watched sender.
ghost use Rattle.std.specs.Prelude.{◌≡◌, ◌+◌, ◌≤◌, ◌||◌, ◌++◌, length, is_err};
ghost use Rattle.ncp_play_buffer.specs.BufferedSinks.{SameOutlet, write_failed, write_budget, RendersOrBreaks};
ghost use Rattle.ncp_play_stream.specs.Pieces.{lost_pieces};
ghost use Rattle.ncp_play_world.specs.LedgerLines.{amount_words, ledger_words, watched_line, ledger_line};

use ncp_play_buffer::{BufferedSink, MAX_LONG_LEN, OutBuffer, PAGE_SIZE};
use ncp_play_stream::{Failed, Sink};
use ncp_world::{Amount, Ledger};

// The length of the longest name of an amount.
const MAX_NAME_LEN: usize = 10;

// An upper bound on the number of bytes of an amount.
const MAX_AMOUNT_LEN: usize = MAX_NAME_LEN + MAX_LONG_LEN + 1 + MAX_LONG_LEN;

// An upper bound on the number of bytes of a ledger.
const MAX_LEDGER_LEN: usize = 5 * MAX_AMOUNT_LEN;

// An upper bound on the number of bytes of the line of a ledger.
const MAX_LINE_LEN: usize = 8 + MAX_LEDGER_LEN + 1;

// Appends an amount after its name.
fn push_amount(page: &mut OutBuffer, name: &[u8], amount: Amount)
    requires short { length name.now ≤ MAX_NAME_LEN }
    requires room { length page.old + MAX_AMOUNT_LEN ≤ PAGE_SIZE }
    ensures bytes { page.new ≡ page.old ++ amount_words name.now amount }
    ensures len { length page.new ≤ length page.old + MAX_AMOUNT_LEN }
{
    page.push_text(name);
    page.push_long(amount.messages);
    page.push(b'/');
    page.push_long(amount.bits);
}

// Appends the amounts of a ledger, or ` none`.
fn push_ledger(page: &mut OutBuffer, ledger: Option<Ledger>)
    requires { length page.old + MAX_LEDGER_LEN ≤ PAGE_SIZE }
    ensures bytes { page.new ≡ page.old ++ ledger_words ledger }
    ensures len { length page.new ≤ length page.old + MAX_LEDGER_LEN }
{
    let Some(ledger) = ledger else {
        page.push_text(b" none");
        return;
    };
    push_amount(page, b" out=", ledger.outstanding);
    push_amount(page, b" counters=", ledger.counters);
    push_amount(page, b" all=", ledger.all);
    push_amount(page, b" text=", ledger.text);
    push_amount(page, b" ret=", ledger.ret);
}

// Appends the line of the ledger of a watched sender.
fn push_watched(page: &mut OutBuffer, ledger: Option<Ledger>)
    requires { length page.old + MAX_LINE_LEN ≤ PAGE_SIZE }
    ensures { page.new ≡ page.old ++ watched_line ledger }
{
    page.push_text(b"  ledger");
    push_ledger(page, ledger);
    page.push(b'\n');
}

// Renders the line of the ledger of a watched sender.
fn render_watched<W: Sink>(
    out: &mut BufferedSink<'_, W>,
    ledger: Option<Ledger>,
) -> Result<(), Failed>
    ensures output { RendersOrBreaks W.Sink out.old (watched_line ledger) result out.new }
    ensures writes { write_budget W.Sink out.old ≤ write_budget W.Sink out.new + lost_pieces (is_err result) }
    ensures mark { write_failed W.Sink out.new ≡ (write_failed W.Sink out.old || is_err result) }
    ensures same_outlet { SameOutlet out.old out.new }
{
    out.make_room(MAX_LINE_LEN)?;
    push_watched(out.page, ledger);
    Ok(())
}

/// Renders the line of the ledger of a watched sender; nothing, if none is watched.
pub(crate) fn render_ledger<W: Sink>(
    out: &mut BufferedSink<'_, W>,
    watched: Option<Option<Ledger>>,
) -> Result<(), Failed>
    ensures output { RendersOrBreaks W.Sink out.old (ledger_line watched) result out.new }
    ensures writes { write_budget W.Sink out.old ≤ write_budget W.Sink out.new + lost_pieces (is_err result) }
    ensures mark { write_failed W.Sink out.new ≡ (write_failed W.Sink out.old || is_err result) }
    ensures same_outlet { SameOutlet out.old out.new }
{
    match watched {
        Some(ledger) => render_watched(out, ledger),
        None => Ok(()),
    }
}

//! The lines of coverage.
ghost use Rattle.std.specs.Prelude.{◌≡◌, ◌+◌, ◌<◌, ◌≤◌, ◌||◌, ◌++◌, ◌/◌, ◌%◌, length, is_err};
ghost use Rattle.ncp_monitor.specs.declared.views.TheConstants.{HOSTS, VIEWS};
ghost use Rattle.ncp_monitor.specs.Coverage.{is_excused};
ghost use Rattle.ncp_play_audit.specs.CoverageLines.{judged_line, reason_word, host_words, unjudged_words, unjudged_line, line_for, unjudged_at, line_at, pair_lines, coverage_lines, is_all_judged};
ghost use Rattle.ncp_play_stream.specs.Pieces.{lost_pieces};
ghost use Rattle.ncp_play_buffer.specs.BufferedSinks.{SameOutlet, write_failed, write_budget, RendersOrBreaks};

use ncp_monitor::{Coverage, HOSTS, Monitor, Unjudged, VIEWS};
use ncp_play_buffer::{BufferedSink, OutBuffer, PAGE_SIZE, push_field};
use ncp_play_stream::{Failed, Sink};

// The most bytes of a line of coverage.
const MAX_COVERAGE_LEN: usize = 80;

// The most bytes of the word for a reason.
const MAX_REASON_LEN: usize = 11;

// Appends the word for a reason.
fn push_reason(page: &mut OutBuffer, reason: Unjudged)
    requires { length page.old + MAX_REASON_LEN ≤ PAGE_SIZE }
    ensures bytes { page.new ≡ page.old ++ reason_word reason }
    ensures len { length page.new ≤ length page.old + MAX_REASON_LEN }
{
    match reason {
        Unjudged::Messages => page.push_text(b"messages"),
        Unjudged::Connections => page.push_text(b"connections"),
        Unjudged::Late => page.push_text(b"late"),
        Unjudged::Crowded => page.push_text(b"crowded"),
        Unjudged::Suspended => page.push_text(b"suspended"),
        Unjudged::Restarted => page.push_text(b"restarted"),
        Unjudged::Connection => page.push_text(b"connection"),
        Unjudged::Part => page.push_text(b"part"),
        Unjudged::Alone => page.push_text(b"alone"),
    }
}

// Appends the line of how many records were judged.
fn push_judged(page: &mut OutBuffer, number: u32)
    requires { length page.old + MAX_COVERAGE_LEN ≤ PAGE_SIZE }
    ensures { page.new ≡ page.old ++ judged_line number }
{
    push_field(page, b"- judged ", number);
    page.push(b'\n');
}

// The most bytes of two hosts, with their names.
const MAX_HOSTS_LEN: usize = 31;

// Appends two hosts, with their names.
fn push_hosts(page: &mut OutBuffer, at: u8, peer: u8)
    requires { length page.old + MAX_HOSTS_LEN ≤ PAGE_SIZE }
    ensures bytes { page.new ≡ page.old ++ host_words at peer }
    ensures len { length page.new ≤ length page.old + MAX_HOSTS_LEN }
{
    push_field(page, b"- at=", u32::from(at));
    push_field(page, b" host=", u32::from(peer));
}

// The most bytes of the words for a reason.
const MAX_WORDS_LEN: usize = 24;

// Appends the words for a reason, to the end of the line.
fn push_words(page: &mut OutBuffer, reason: Unjudged)
    requires { length page.old + MAX_WORDS_LEN ≤ PAGE_SIZE }
    ensures { page.new ≡ page.old ++ unjudged_words reason }
{
    page.push_text(b" not-judged ");
    push_reason(page, reason);
    page.push(b'\n');
}

// Appends the line of two hosts between which something was not judged.
fn push_unjudged(page: &mut OutBuffer, at: u8, peer: u8, reason: Unjudged)
    requires { length page.old + MAX_COVERAGE_LEN ≤ PAGE_SIZE }
    ensures { page.new ≡ page.old ++ unjudged_line at peer reason }
{
    push_hosts(page, at, peer);
    push_words(page, reason);
}

// Appends the line of two hosts, if there is a reason.
fn push_line(page: &mut OutBuffer, at: u8, peer: u8, reason: Option<Unjudged>)
    requires { length page.old + MAX_COVERAGE_LEN ≤ PAGE_SIZE }
    ensures { page.new ≡ page.old ++ line_for at peer reason }
{
    if let Some(reason) = reason {
        push_unjudged(page, at, peer, reason);
    }
}

// The host at whose interface the pair at a place is observed.
fn host_at(place: usize) -> u8
    requires { place < VIEWS }
    ensures { result ≡ place / HOSTS }
{
    (place / HOSTS) as u8
}

// Its peer.
fn peer_at(place: usize) -> u8
    requires { place < VIEWS }
    ensures { result ≡ place % HOSTS }
{
    (place % HOSTS) as u8
}

// Why something was not judged between the two hosts at a place.
fn unjudged_at(monitor: &Monitor, coverage: &Coverage, place: usize) -> Option<Unjudged>
    requires { place < VIEWS }
    ensures { result ≡ unjudged_at monitor.now coverage.now place }
{
    coverage.unjudged(monitor, host_at(place), peer_at(place))
}

// Appends the line of the two hosts at a place, if there is a reason.
fn push_pair(page: &mut OutBuffer, monitor: &Monitor, coverage: &Coverage, place: usize)
    requires place { place < VIEWS }
    requires room { length page.old + MAX_COVERAGE_LEN ≤ PAGE_SIZE }
    ensures { page.new ≡ page.old ++ line_at monitor.now coverage.now place }
{
    let reason = unjudged_at(monitor, coverage, place);
    push_line(page, host_at(place), peer_at(place), reason);
}

// Prints the lines of all pairs of hosts.
fn render_pairs<W: Sink>(
    out: &mut BufferedSink<'_, W>,
    monitor: &Monitor,
    coverage: &Coverage,
) -> Result<(), Failed>
    ensures output { RendersOrBreaks W.Sink out.old (pair_lines monitor.now coverage.now) result out.new }
    ensures writes { write_budget W.Sink out.old ≤ write_budget W.Sink out.new + lost_pieces (is_err result) }
    ensures mark { write_failed W.Sink out.new ≡ (write_failed W.Sink out.old || is_err result) }
    ensures same_outlet { SameOutlet out.old out.new }
{
    for place in 0..VIEWS {
        out.make_room(MAX_COVERAGE_LEN)?;
        push_pair(out.page, monitor, coverage, place);
    }
    Ok(())
}

// Prints the line of how many records were judged.
fn render_judged<W: Sink>(out: &mut BufferedSink<'_, W>, number: u32) -> Result<(), Failed>
    ensures output { RendersOrBreaks W.Sink out.old (judged_line number) result out.new }
    ensures writes { write_budget W.Sink out.old ≤ write_budget W.Sink out.new + lost_pieces (is_err result) }
    ensures mark { write_failed W.Sink out.new ≡ (write_failed W.Sink out.old || is_err result) }
    ensures same_outlet { SameOutlet out.old out.new }
{
    out.make_room(MAX_COVERAGE_LEN)?;
    push_judged(out.page, number);
    Ok(())
}

/// Prints the lines of coverage.
pub(crate) fn render_coverage<W: Sink>(
    out: &mut BufferedSink<'_, W>,
    monitor: &Monitor,
    coverage: &Coverage,
) -> Result<(), Failed>
    ensures output { RendersOrBreaks W.Sink out.old (coverage_lines monitor.now coverage.now) result out.new }
    ensures writes { write_budget W.Sink out.old ≤ write_budget W.Sink out.new + lost_pieces (is_err result) }
    ensures mark { write_failed W.Sink out.new ≡ (write_failed W.Sink out.old || is_err result) }
    ensures same_outlet { SameOutlet out.old out.new }
{
    render_judged(out, monitor.judged())?;
    render_pairs(out, monitor, coverage)
}

// Whether a capture of one interface alone shows no more.
fn is_excused(reason: Option<Unjudged>) -> bool
    ensures { result ≡ is_excused reason }
{
    matches!(reason, None | Some(Unjudged::Alone))
}

/// Whether all was judged, except what one interface alone cannot show.
pub(crate) fn is_all_judged(monitor: &Monitor, coverage: &Coverage) -> bool
    ensures { result ≡ is_all_judged monitor.now coverage.now }
{
    for place in 0..VIEWS {
        if !is_excused(unjudged_at(monitor, coverage, place)) {
            return false;
        }
    }
    true
}

//! The lines of findings.
ghost use Rattle.std.specs.Prelude.{◌≡◌, ◌+◌, ◌≤◌, ◌||◌, ◌++◌, not, length, is_err};
ghost use Rattle.std.specs.List.{flat_map, list_any};
ghost use Rattle.ncp_play_audit.specs.FindingLines.{who_words, finding_line, is_told, reported_line};
ghost use Rattle.ncp_play_stream.specs.Pieces.{lost_pieces};
ghost use Rattle.ncp_play_buffer.specs.BufferedSinks.{SameOutlet, write_failed, write_budget, RendersOrBreaks};

use crate::rule_words::{is_standard, push_rule};
use ncp_monitor::{Finding, Who};
use ncp_play_buffer::{BufferedSink, OutBuffer, PAGE_SIZE, push_field};
use ncp_play_stream::{Failed, Sink};

/// The most bytes of a finding's line.
pub const MAX_FINDING_LEN: usize = 190;

// The most bytes of the words for who broke a rule.
const MAX_WHO_LEN: usize = 16;

// Appends who broke a rule.
fn push_who(page: &mut OutBuffer, who: Who)
    requires { length page.old + MAX_WHO_LEN ≤ PAGE_SIZE }
    ensures bytes { page.new ≡ page.old ++ who_words who }
    ensures len { length page.new ≤ length page.old + MAX_WHO_LEN }
{
    match who {
        Who::Host(host) => push_field(page, b" host=", u32::from(host)),
        Who::Imp => page.push_text(b" imp"),
    }
}

// Appends the line of a finding.
fn push_finding(page: &mut OutBuffer, number: u32, at: u8, finding: &Finding)
    requires { length page.old + MAX_FINDING_LEN ≤ PAGE_SIZE }
    ensures { page.new ≡ page.old ++ finding_line number at finding.now }
{
    page.push_decimal(number);
    push_field(page, b" at=", u32::from(at));
    push_who(page, finding.who);
    page.push(b' ');
    push_rule(page, &finding.rule);
    page.push(b'\n');
}

// Whether a finding is reported.
#[tactic(auto, unfolding(crate::specs::FindingLines::is_told))]
fn is_told(standard: bool, finding: &Finding) -> bool
    ensures { result ≡ is_told standard finding.now }
{
    !(standard && !is_standard(&finding.rule))
}

// Appends the line of a finding, if it is reported.
#[tactic(auto, unfolding(crate::specs::FindingLines::reported_line))]
fn push_told(page: &mut OutBuffer, standard: bool, number: u32, at: u8, finding: &Finding)
    requires { length page.old + MAX_FINDING_LEN ≤ PAGE_SIZE }
    ensures { page.new ≡ page.old ++ reported_line standard number at finding.now }
{
    if is_told(standard, finding) {
        push_finding(page, number, at, finding);
    }
}

/// Prints the lines of a record's reported findings.
pub(crate) fn render_findings<W: Sink>(
    out: &mut BufferedSink<'_, W>,
    standard: bool,
    number: u32,
    at: u8,
    found: &[Finding],
) -> Result<(), Failed>
    ensures output { RendersOrBreaks W.Sink out.old (flat_map (reported_line standard number at) found.now) result out.new }
    ensures writes { write_budget W.Sink out.old ≤ write_budget W.Sink out.new + lost_pieces (is_err result) }
    ensures mark { write_failed W.Sink out.new ≡ (write_failed W.Sink out.old || is_err result) }
    ensures same_outlet { SameOutlet out.old out.new }
{
    for finding in found {
        out.make_room(MAX_FINDING_LEN)?;
        push_told(out.page, standard, number, at, finding);
    }
    Ok(())
}

// Whether a finding of a record is reported.
fn any_reported(standard: bool, found: &[Finding]) -> bool
    ensures { result ≡ list_any (is_told standard) found.now }
{
    found.iter().any(|finding| is_told(standard, finding))
}

/// Whether no finding of a record is reported.
pub(crate) fn is_clean(standard: bool, found: &[Finding]) -> bool
    ensures { result ≡ not (list_any (is_told standard) found.now) }
{
    !any_reported(standard, found)
}

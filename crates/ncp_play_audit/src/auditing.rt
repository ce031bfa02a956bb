//! `audit`: the rules that a message file breaks, and who breaks them, one line each.
ghost use Rattle.std.specs.Prelude.{◌≡◌, ℕ, ◌+◌, ◌-◌, ◌/◌, ◌≤◌, ◌&&◌, ◌||◌, not, List, Some, None, true, false, length, is_err, is_some, option_map, IfOk};
ghost use Rattle.ncp_play_stream.specs.Pieces.{reads_for, lost_pieces};
ghost use Rattle.ncp_play_buffer.specs.BufferedSinks.{SameOutlet, write_failed, write_budget, RendersOrBreaks};
ghost use Rattle.ncp_play_files.specs.Passes.{names_hosts};
ghost use Rattle.ncp_play_files.specs.Results.{is_read_failed, is_write_failed};
ghost use Rattle.ncp_play_files.specs.Writing.{Writes};
ghost use Rattle.ncp_monitor.specs.Judged.{new_monitor};
ghost use Rattle.ncp_interface.specs.Events.{event_of};
ghost use Rattle.ncp_monitor.specs.Resets.{judged_findings, after_judged};
ghost use Rattle.ncp_monitor.specs.Coverage.{new_coverage, after_noted};
ghost use Rattle.ncp_play_audit.specs.Audited.{host_of, way_of, AuditedCut, ReportedAs, HasReportVerdict, noted_lines, done_of, short_writes, audit_pass};
ghost use Rattle.ncp_play_audit.specs.CoverageLines.{is_all_judged};

use crate::coverage_line::{is_all_judged, render_coverage};
use crate::finding_line::{is_clean, render_findings};
use ncp_bits::{Bits, Part};
use ncp_monitor::{Coverage, Findings, ImpDirection, Monitor};
use ncp_play_buffer::{BufferedSink, Counter};
use ncp_play_files::{CapturePoint, Direction, FileEnd, FileFault, Pass, Version, pass_through};
use ncp_play_stream::{Failed, LEAST_PIECE, Sink, Source};
use std::alloc::{AllocError, Global};

/// A monitor, with room for a record's message and its findings. If coverage is asked for, it notes
/// what was not judged.
#[derive(Drop)]
pub struct Auditor {
    monitor: Monitor,
    noted: Option<Coverage>,
    strict: bool,
    message: Bits,
    found: Findings,
}

impl Auditor {
    // An auditor before any record, with room for what it notes.
    fn noting(
        alloc: Global,
        part: bool,
        noted: Option<Coverage>,
        strict: bool,
    ) -> Result<Auditor, AllocError>
        ensures monitor { IfOk result (λ auditor. auditor.monitor ≡ new_monitor part) }
        ensures noted { IfOk result (λ auditor. auditor.noted ≡ noted) }
        ensures strict { IfOk result (λ auditor. auditor.strict ≡ strict) }
    {
        Ok(Auditor {
            monitor: Monitor::new(alloc, part)?,
            noted,
            strict,
            message: Bits::new(),
            found: Findings::new(alloc)?,
        })
    }

    /// An auditor before any record, which reports findings alone. In a partial capture (`part`)
    /// nothing is known of what came before. Only this function and `with_coverage` allocate: some
    /// 6 MB, most of it untouched.
    pub fn new(alloc: Global, part: bool) -> Result<Auditor, AllocError>
        ensures monitor { IfOk result (λ auditor. auditor.monitor ≡ new_monitor part) }
        ensures noted { IfOk result (λ auditor. auditor.noted ≡ None) }
        ensures strict { IfOk result (λ auditor. auditor.strict ≡ false) }
    {
        Auditor::noting(alloc, part, None, false)
    }

    /// An auditor that also reports what it did not judge. With `strict` that counts like a finding,
    /// except what one interface alone does not show.
    pub fn with_coverage(alloc: Global, part: bool, strict: bool) -> Result<Auditor, AllocError>
        ensures monitor { IfOk result (λ auditor. auditor.monitor ≡ new_monitor part) }
        ensures noted { IfOk result (λ auditor. auditor.noted ≡ Some new_coverage) }
        ensures strict { IfOk result (λ auditor. auditor.strict ≡ strict) }
    {
        let coverage = Coverage::new(alloc)?;
        Auditor::noting(alloc, part, Some(coverage), strict)
    }

    // Judges the record that `message` holds, and notes what was not judged of it, if coverage is
    // asked for.
    fn judge(&mut self, way: ImpDirection, at: u8)
        ensures monitor { self.new.monitor ≡ after_judged self.old.monitor way at self.old.message }
        ensures noted { self.new.noted ≡ option_map (after_noted self.new.monitor at (event_of way at self.old.message)) self.old.noted }
        ensures found { self.new.found ≡ judged_findings self.old.monitor way at self.old.message }
        ensures strict { self.new.strict ≡ self.old.strict }
    {
        self.monitor.judge(way, at, &self.message, &mut self.found);
        if let Some(coverage) = &mut self.noted {
            coverage.note(&self.monitor, way, at, &self.message);
        }
    }
}

// The host at whose interface a record was made.
fn host_of(at: Option<u8>) -> u8
    ensures { result ≡ host_of at }
{
    at.unwrap_or(0)
}

// The direction of a record.
fn way_of(direction: Direction) -> ImpDirection
    ensures { result ≡ way_of direction }
{
    match direction {
        Direction::ToImp => ImpDirection::ToImp,
        Direction::FromImp => ImpDirection::FromImp,
    }
}

// Whether both are true.
fn both(one: bool, other: bool) -> bool
    ensures { result ≡ (one && other) }
{
    one && other
}

// Whether all was judged, if that is asked for.
fn is_judged(monitor: &Monitor, coverage: &Coverage, strict: bool) -> bool
    ensures { result ≡ (not strict || is_all_judged monitor.now coverage.now) }
{
    if strict {
        is_all_judged(monitor, coverage)
    } else {
        true
    }
}

// Renders the lines of coverage, if it is asked for.
fn render_noted<W: Sink>(
    out: &mut BufferedSink<'_, W>,
    monitor: &Monitor,
    noted: &Option<Coverage>,
) -> Result<(), Failed>
    ensures output { RendersOrBreaks W.Sink out.old (noted_lines monitor.now noted.now) result out.new }
    ensures quiet { is_some noted.now ≡ false → (is_err result ≡ false) × (out.new.page.now ≡ out.old.page.now) }
    ensures writes { write_budget W.Sink out.old ≤ write_budget W.Sink out.new + lost_pieces (is_err result) }
    ensures mark { write_failed W.Sink out.new ≡ (write_failed W.Sink out.old || is_err result) }
    ensures same_outlet { SameOutlet out.old out.new }
{
    match noted {
        Some(coverage) => render_coverage(out, monitor, coverage),
        None => Ok(()),
    }
}

/// The pass of `audit`: the lines of the findings of each record, and at the end those of coverage,
/// if it is asked for; and whether no finding was reported so far.
#[derive(Drop)]
pub(crate) struct Auditing<'a> {
    auditor: &'a mut Auditor,
    standard: bool,
    clean: bool,
}

impl Pass for Auditing<'_> {
    ghost rules = { audit_pass };

    fn reads(version: Version) -> bool
        ensures { result ≡ names_hosts version }
    {
        matches!(version, Version::Two)
    }

    fn is_prompt() -> bool
        ensures { result ≡ true }
    {
        true
    }

    fn record<W: Sink>(
        &mut self,
        out: &mut BufferedSink<'_, W>,
        capture_point: CapturePoint,
        number: &Counter,
        message: Part<'_>,
    ) -> Result<(), Failed> {
        let at = host_of(capture_point.at);
        let way = way_of(capture_point.direction);
        self.auditor.message.copy_from_part(message);
        self.auditor.judge(way, at);
        let found = self.auditor.found.as_slice();
        self.clean = both(self.clean, is_clean(self.standard, found));
        render_findings(out, self.standard, number.number(), at, found)
    }

    fn close<W: Sink>(&self, out: &mut BufferedSink<'_, W>, end: FileEnd) -> Result<(), Failed> {
        match end {
            FileEnd::Whole | FileEnd::AtFault => {
                render_noted(out, &self.auditor.monitor, &self.auditor.noted)
            }
            FileEnd::CutOff => Ok(()),
        }
    }

    fn is_good(&self) -> bool {
        match &self.auditor.noted {
            Some(coverage) => both(
                self.clean,
                is_judged(&self.auditor.monitor, coverage, self.auditor.strict),
            ),
            None => self.clean,
        }
    }
}

/// Prints a line for each finding of a message file of version 2, up to the file's first fault.
/// Returns whether there is no finding, or that fault. With `standard`, leaves out the findings of
/// this project's rules, as if there were none.
///
/// An auditor with coverage then prints how many records were judged, and for each two hosts with a
/// message between them at the interface of the first, why not all was judged there, if so. The
/// result of a strict one is `false` for that too, except for what one interface alone does not
/// show.
///
/// A file of version 1 does not name the host of its interface: its header is a `BadHeader`.
///
/// Does not allocate, and passes over the file once. Reads and writes at least 4 KiB at a time, but
/// before waiting for input writes the lines of all complete records. After a failed read the lines
/// of all complete records are written; after a failed write, a prefix of the lines is.
pub fn audit<S: Source, W: Sink>(
    auditor: &mut Auditor,
    standard: bool,
    source: &mut S,
    sink: &mut W,
) -> Result<bool, FileFault>
    requires source_clean { S.has_failed source.old ≡ false }
    requires sink_clean { W.has_failed sink.old ≡ false }

    // Given the bytes of the source, the lines of the findings in the records before the first
    // fault are written, then those of coverage if it is asked for, and nothing else.
    // theorem: If the bytes of its source and of its sink are known, and neither has failed before,
    // `audit` writes the lines of the findings in the records before the first fault of the file,
    // then those of coverage if it is asked for, and nothing else; after a failed read, the lines of
    // the findings in the records that were read whole; after a failed write, a prefix of the lines.
    ensures output { (bytes : List ℕ) (was : List ℕ)
        → S.left source.old ≡ Some bytes → W.written sink.old ≡ Some was
        → Writes (ReportedAs standard auditor.old.monitor auditor.old.noted) (AuditedCut standard auditor.old.monitor) bytes was (S.left source.new) (W.written sink.new) (done_of result) }

    // The result is whether no finding is reported, and, of a strict auditor, all was judged.
    ensures verdict { (bytes : List ℕ) (was : List ℕ)
        → S.left source.old ≡ Some bytes → W.written sink.old ≡ Some was
        → IfOk result (HasReportVerdict auditor.old.strict standard auditor.old.monitor auditor.old.noted bytes) }

    // A read failure is reported only if the source failed, a write failure exactly when the sink
    // did. If the source failed, the result is one of the two.
    ensures read_failed { is_read_failed result ≡ true → S.has_failed source.new ≡ true }
    ensures write_failed { W.has_failed sink.new ≡ is_write_failed result }
    ensures blamed { S.has_failed source.new ≡ true → (is_read_failed result || is_write_failed result) ≡ true }

    // A source that gives all it can is read at most once per 4 KiB, plus once; any source at most
    // once per byte, plus once.
    ensures reads { (bytes : List ℕ) → S.left source.old ≡ Some bytes
        → S.reads source.old ≤ S.reads source.new + reads_for S.gives_all (length bytes) + 1 }

    // A sink that takes all it can is written to at most once per 4 KiB, plus once per read, plus
    // twice, or with coverage three times.
    ensures writes { (was : List ℕ) (now : List ℕ) → W.takes_all ≡ true
        → W.written sink.old ≡ Some was → W.written sink.new ≡ Some now
        → W.writes sink.old ≤ W.writes sink.new + (length now - length was) / LEAST_PIECE + (S.reads source.old - S.reads source.new) + short_writes auditor.old.noted }
{
    let mut pass = Auditing {
        auditor,
        standard,
        clean: true,
    };
    pass_through(&mut pass, source, sink)
}

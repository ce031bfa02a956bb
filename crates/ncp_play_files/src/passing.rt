//! `pass_through`: one walk through a message file, for any `Pass`.
ghost use Rattle.std.specs.Prelude.{◌≡◌, ℕ, ◌+◌, ◌-◌, ◌/◌, ◌<◌, ◌≤◌, ◌||◌, [], List, Some, true, false, length, is_err, IfOk, OnOk};
ghost use Rattle.ncp_play_buffer.specs.BufferedSources.{SameInlet, left_in, reads_left, read_failed, slack, work, Brings, PaidBy};
ghost use Rattle.ncp_play_buffer.specs.BufferedSinks.{SameOutlet, written_by, write_failed, write_budget, HasSaid, WritesOrBreaks};
ghost use Rattle.ncp_play_stream.specs.Pieces.{reads_for, lost_pieces, unpaid};
ghost use Rattle.ncp_play_files.specs.Results.{is_read_failed, is_write_failed};
ghost use Rattle.ncp_play_files.specs.Waiting.{is_waiting};
ghost use Rattle.ncp_play_files.specs.Steps.{LetsOut, said_nothing, unpaid_after, unpaid_out};
ghost use Rattle.ncp_play_files.specs.Passes.{Passes, writes_beyond};
ghost use Rattle.ncp_play_files.specs.PassSteps.{lets_out, PassesNext, PassesOn, PassesFrom, PassesFile, end_in, result_of, unpaid_closing};

use crate::file::{FileFault, message_of, skip_record};
use crate::letting_out::flush_before_wait;
use crate::pass::{FileEnd, Pass};
use crate::version::{PlacedRecords, PlainRecords, Records, Version, read_version};
use ncp_play_buffer::{BufferedSink, BufferedSource, Counter, InBuffer, OutBuffer};
use ncp_play_stream::{Failed, LEAST_PIECE, Sink, Source, stop_at_fault};

// Renders the text of the next record from the in buffer, without a copy of its message, and
// returns whether there was one.
fn pass_next<P: Pass, S: Source, W: Sink, R: Records>(
    pass: &mut P,
    input: &mut BufferedSource<'_, S>,
    out: &mut BufferedSink<'_, W>,
    records: R,
    number: &Counter,
) -> Result<bool, FileFault>
    ensures output { (bytes : List ℕ) (was : List ℕ) (said : List ℕ)
        → Brings S.Source input.old bytes → HasSaid W.Sink was out.old said
        → PassesNext P.rules (R.version records) number.now (P.rules.state pass.old) bytes was said result (P.rules.state pass.new) input.new.window.now (left_in S.Source input.new) out.new.page.now (written_by W.Sink out.new) }
    ensures closes { P.rules.closes (P.rules.state pass.new) ≡ P.rules.closes (P.rules.state pass.old) }
    ensures source_mark { read_failed S.Source input.new ≡ (read_failed S.Source input.old || is_read_failed result) }
    ensures writes { write_budget W.Sink out.old ≤ write_budget W.Sink out.new + lost_pieces (is_write_failed result) }
    ensures sink_mark { write_failed W.Sink out.new ≡ (write_failed W.Sink out.old || is_write_failed result) }
    ensures reads { slack S.Source input.old ≤ slack S.Source input.new + 1 }
    ensures taken { IfOk result (λ more. more ≡ true → slack S.Source input.old ≤ slack S.Source input.new) }
    ensures read_measure { IfOk result (λ more. more ≡ true → work S.Source input.new < work S.Source input.old) }
    ensures lowers { reads_left S.Source input.new ≤ reads_left S.Source input.old }
    ensures waited { said_nothing result ≡ false
        → is_waiting (R.version records) input.old.window.now ≡ true → reads_left S.Source input.new < reads_left S.Source input.old }
    ensures kept { said_nothing result ≡ true → out.new.page.now ≡ out.old.page.now }
    ensures same_inlet { SameInlet input.old input.new }
    ensures same_outlet { SameOutlet out.old out.new }
{
    let Some(found) = records.find_next(input)? else {
        return Ok(false);
    };
    let passed = match message_of(input.window, found.len) {
        Ok(message) => pass.record(out, found.capture_point, number, message),
        Err(fault) => return Err(fault),
    };
    skip_record(input.window, found.len);
    match passed {
        Ok(()) => Ok(true),
        Err(_) => Err(FileFault::WriteFailed),
    }
}

// Writes all text rendered so far before waiting for input, if the pass is prompt.
fn let_out<P: Pass, W: Sink>(
    window: &InBuffer,
    version: Version,
    out: &mut BufferedSink<'_, W>,
) -> Result<(), FileFault>
    ensures output { LetsOut out.old.page.now (written_by W.Sink out.old) result out.new.page.now (written_by W.Sink out.new) }
    ensures out { OnOk result (lets_out P.rules version window.now ≡ true → out.new.page.now ≡ []) }
    ensures writes { write_budget W.Sink out.old ≤ write_budget W.Sink out.new + unpaid_out result (lets_out P.rules version window.now) }
    ensures unprompted { P.rules.is_prompt ≡ false → write_budget W.Sink out.old ≤ write_budget W.Sink out.new }
    ensures mark { write_failed W.Sink out.new ≡ (write_failed W.Sink out.old || is_write_failed result) }
    ensures same_outlet { SameOutlet out.old out.new }
{
    if !P::is_prompt() {
        return Ok(());
    }
    flush_before_wait(window, version, out)
}

// Renders the text of the next record as `pass_next` does, and reports to the source where a fault is.
fn pass_on<P: Pass, S: Source, W: Sink, R: Records>(
    pass: &mut P,
    input: &mut BufferedSource<'_, S>,
    out: &mut BufferedSink<'_, W>,
    records: R,
    number: &Counter,
) -> Result<bool, FileFault>
    ensures output { (bytes : List ℕ) (was : List ℕ) (said : List ℕ)
        → Brings S.Source input.old bytes → HasSaid W.Sink was out.old said
        → PassesOn P.rules (R.version records) number.now (P.rules.state pass.old) bytes was said result (P.rules.state pass.new) input.new.window.now (left_in S.Source input.new) out.new.page.now (written_by W.Sink out.new) }
    ensures closes { P.rules.closes (P.rules.state pass.new) ≡ P.rules.closes (P.rules.state pass.old) }
    ensures source_mark { read_failed S.Source input.new ≡ (read_failed S.Source input.old || is_read_failed result) }
    ensures writes { PaidBy S.Source W.Sink out.old input.old out.new input.new (unpaid_after result) }
    ensures unprompted { P.rules.is_prompt ≡ false
        → write_budget W.Sink out.old ≤ write_budget W.Sink out.new + lost_pieces (is_write_failed result) }
    ensures sink_mark { write_failed W.Sink out.new ≡ (write_failed W.Sink out.old || is_write_failed result) }
    ensures reads { slack S.Source input.old ≤ slack S.Source input.new + 1 }
    ensures taken { IfOk result (λ more. more ≡ true → slack S.Source input.old ≤ slack S.Source input.new) }
    ensures read_measure { IfOk result (λ more. more ≡ true → work S.Source input.new < work S.Source input.old) }
    ensures same_inlet { SameInlet input.old input.new }
    ensures same_outlet { SameOutlet out.old out.new }
{
    let_out::<P, W>(input.window, records.file(), out)?;
    let passed = pass_next(pass, input, out, records, number);
    stop_at_fault(
        input.source,
        &passed,
        number.number().saturating_sub(1),
        input.window.unread().len(),
    );
    passed
}

// Renders the text of the records after the header.
fn pass_records<P: Pass, S: Source, W: Sink, R: Records>(
    pass: &mut P,
    input: &mut BufferedSource<'_, S>,
    out: &mut BufferedSink<'_, W>,
    records: R,
) -> Result<(), FileFault>
    ensures output { (bytes : List ℕ) (was : List ℕ) (said : List ℕ)
        → Brings S.Source input.old bytes → HasSaid W.Sink was out.old said
        → PassesFrom P.rules (R.version records) 1 (P.rules.state pass.old) bytes was said result (P.rules.state pass.new) (left_in S.Source input.new) out.new.page.now (written_by W.Sink out.new) }
    ensures closes { P.rules.closes (P.rules.state pass.new) ≡ P.rules.closes (P.rules.state pass.old) }
    ensures source_mark { read_failed S.Source input.new ≡ (read_failed S.Source input.old || is_read_failed result) }
    ensures writes { PaidBy S.Source W.Sink out.old input.old out.new input.new (unpaid (is_write_failed result)) }
    ensures unprompted { P.rules.is_prompt ≡ false
        → write_budget W.Sink out.old ≤ write_budget W.Sink out.new + lost_pieces (is_write_failed result) }
    ensures sink_mark { write_failed W.Sink out.new ≡ (write_failed W.Sink out.old || is_write_failed result) }
    ensures reads { slack S.Source input.old ≤ slack S.Source input.new + 1 }
    ensures same_inlet { SameInlet input.old input.new }
    ensures same_outlet { SameOutlet out.old out.new }
{
    let mut number = Counter::first();
    while pass_on(pass, input, out, records, &number)? {
        number.advance();
    }
    Ok(())
}

// Renders the text of the records of a file. The last bytes may stay in the out buffer.
fn pass_file<P: Pass, S: Source, W: Sink>(
    pass: &mut P,
    input: &mut BufferedSource<'_, S>,
    out: &mut BufferedSink<'_, W>,
) -> Result<(), FileFault>
    requires window { input.old.window.now ≡ [] }
    requires page { out.old.page.now ≡ [] }
    ensures output { (bytes : List ℕ) (was : List ℕ)
        → left_in S.Source input.old ≡ Some bytes → written_by W.Sink out.old ≡ Some was
        → PassesFile P.rules (P.rules.state pass.old) was bytes result (P.rules.state pass.new) (left_in S.Source input.new) out.new.page.now (written_by W.Sink out.new) }
    ensures closes { P.rules.closes (P.rules.state pass.new) ≡ P.rules.closes (P.rules.state pass.old) }
    ensures source_mark { read_failed S.Source input.new ≡ (read_failed S.Source input.old || is_read_failed result) }
    ensures writes { PaidBy S.Source W.Sink out.old input.old out.new input.new (unpaid (is_write_failed result)) }
    ensures unprompted { P.rules.is_prompt ≡ false
        → write_budget W.Sink out.old ≤ write_budget W.Sink out.new + lost_pieces (is_write_failed result) }
    ensures sink_mark { write_failed W.Sink out.new ≡ (write_failed W.Sink out.old || is_write_failed result) }
    ensures reads { slack S.Source input.old ≤ slack S.Source input.new + 1 }
    ensures same_inlet { SameInlet input.old input.new }
    ensures same_outlet { SameOutlet out.old out.new }
{
    let version = read_version(input)?;
    if !P::reads(version) {
        return Err(FileFault::BadHeader);
    }
    match version {
        Version::One(direction) => pass_records(pass, input, out, PlainRecords { direction }),
        Version::Two => pass_records(pass, input, out, PlacedRecords),
    }
}

// How a file ended, by the result of reading it.
fn end_of(passed: &Result<(), FileFault>) -> FileEnd
    ensures { result ≡ end_in passed.now }
{
    match passed {
        Ok(()) => FileEnd::Whole,
        Err(FileFault::ReadFailed) => FileEnd::CutOff,
        Err(_) => FileEnd::AtFault,
    }
}

// The result of a pass after its text at the end.
fn result_of<P: Pass>(pass: &P, passed: Result<(), FileFault>) -> Result<bool, FileFault>
    ensures result { result ≡ result_of P.rules (P.rules.state pass.now) passed }
    ensures read { is_read_failed result ≡ is_read_failed passed }
    ensures write { is_write_failed result ≡ is_write_failed passed }
{
    match passed {
        Ok(()) => Ok(pass.is_good()),
        Err(fault) => Err(fault),
    }
}

// Renders the text at the end, and writes the rest of the out buffer.
fn close<P: Pass, W: Sink>(
    pass: &P,
    out: &mut BufferedSink<'_, W>,
    end: FileEnd,
) -> Result<(), Failed>
    ensures output { WritesOrBreaks W.Sink out.old (P.rules.closing (P.rules.state pass.now) end) result out.new }
    ensures writes { write_budget W.Sink out.old + unpaid_closing (P.rules.closes (P.rules.state pass.now)) out.old.page.now ≤ write_budget W.Sink out.new + lost_pieces true }
    ensures mark { write_failed W.Sink out.new ≡ (write_failed W.Sink out.old || is_err result) }
    ensures same_outlet { SameOutlet out.old out.new }
{
    pass.close(out, end)?;
    out.flush()
}

/// Reads a message file, and lets a pass print the text of each record up to the first fault, and
/// then the text at the end. Returns that fault, or the result of the pass.
///
/// Does not allocate. Reads and writes at least 4 KiB at a time, but if the pass is prompt, writes
/// the text of all complete records before waiting for input. After a failed read the text of the
/// records read whole is written; after a failed write a prefix of the text is.
pub fn pass_through<P: Pass, S: Source, W: Sink>(
    pass: &mut P,
    source: &mut S,
    sink: &mut W,
) -> Result<bool, FileFault>
    requires source_clean { S.has_failed source.old ≡ false }
    requires sink_clean { W.has_failed sink.old ≡ false }

    // Given the bytes of the source, the text of the records before the first fault and the text at
    // the end are written, and nothing else.
    ensures output { (bytes : List ℕ) (was : List ℕ)
        → S.left source.old ≡ Some bytes → W.written sink.old ≡ Some was
        → Passes P.rules (P.rules.state pass.old) bytes was (S.left source.new) (W.written sink.new) result }

    // A failed read is reported only if the source failed, and a failed write exactly if the sink
    // failed. After a failure of the source one of the two is reported.
    ensures read_failed { is_read_failed result ≡ true → S.has_failed source.new ≡ true }
    ensures write_failed { W.has_failed sink.new ≡ is_write_failed result }
    ensures blamed { S.has_failed source.new ≡ true → (is_read_failed result || is_write_failed result) ≡ true }

    // Reads a source that gives all it can at most once for each 4 KiB, and once more; any source
    // at most once for each byte, and once more.
    ensures reads { (bytes : List ℕ) → S.left source.old ≡ Some bytes
        → S.reads source.old ≤ S.reads source.new + reads_for S.gives_all (length bytes) + 1 }

    // Writes to a sink that takes all it can at most once for each 4 KiB, and as often more as
    // `writes_beyond` says.
    ensures writes { (was : List ℕ) (now : List ℕ) → W.takes_all ≡ true
        → W.written sink.old ≡ Some was → W.written sink.new ≡ Some now
        → W.writes sink.old ≤ W.writes sink.new + (length now - length was) / LEAST_PIECE + writes_beyond P.rules.is_prompt (P.rules.closes (P.rules.state pass.old)) (S.reads source.old - S.reads source.new) }
{
    let mut window = InBuffer::new();
    let mut page = OutBuffer::new();
    let mut input = BufferedSource {
        window: &mut window,
        source,
    };
    let mut out = BufferedSink {
        page: &mut page,
        sink,
    };
    let passed = pass_file(pass, &mut input, &mut out);
    if out.sink.failed() {
        return Err(FileFault::WriteFailed);
    }
    match close(pass, &mut out, end_of(&passed)) {
        Ok(()) => result_of(pass, passed),
        Err(_) => Err(FileFault::WriteFailed),
    }
}

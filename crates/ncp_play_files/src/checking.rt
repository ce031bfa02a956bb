//! `check`: whether a message file is sound.
ghost use Rattle.std.specs.Prelude.{◌≡◌, ℕ, ◌+◌, ◌<◌, ◌≤◌, ◌||◌, List, [], Option, Some, true, false, length, is_some, IfOk, OnOk};
ghost use Rattle.ncp_play_buffer.specs.BufferedSources.{SameInlet, left_in, read_failed, slack, work, Brings};
ghost use Rattle.ncp_play_stream.specs.Pieces.{reads_for};
ghost use Rattle.ncp_play_files.specs.Results.{is_read_failed, is_write_failed};
ghost use Rattle.ncp_play_stream.specs.Streams.{RemainingInput};
ghost use Rattle.ncp_play_files.specs.Steps.{StandsWhole};
ghost use Rattle.ncp_play_files.specs.Tallies.{no_messages, JudgesRecord, JudgesNext, TotalsFrom, TotalsFile};
ghost use Rattle.ncp_play_files.specs.Checked.{Checked};

use crate::file::{FileFault, message_of, skip_record};
use crate::tally::{Counts, RecordClass, Totals, judge, push_totals};
use crate::version::{PlacedRecords, PlainRecords, Records, Version, read_version};
use ncp_play_buffer::{BufferedSource, InBuffer, OutBuffer};
use ncp_play_stream::{Sink, Source, stop_at_fault};

// Classifies the message of the first record of the in buffer, without a copy, and consumes the
// record.
#[inline(always)]
fn judge_record(window: &mut InBuffer, len: usize) -> Result<RecordClass, FileFault>
    requires { StandsWhole window.old len }
    ensures output { (bytes : List ℕ) (left : Option (List ℕ)) → RemainingInput window.old left bytes → JudgesRecord bytes result window.new left }
    ensures shorter { OnOk result (length window.new < length window.old) }
    ensures read { is_read_failed result ≡ false }
    ensures write { is_write_failed result ≡ false }
{
    let record_class = match message_of(window, len) {
        Ok(message) => judge(&message),
        Err(fault) => return Err(fault),
    };
    skip_record(window, len);
    Ok(record_class)
}

// Classifies the message of the next record, if there is one.
#[inline(always)]
fn judge_next<S: Source, R: Records>(
    input: &mut BufferedSource<'_, S>,
    records: R,
) -> Result<Option<RecordClass>, FileFault>
    ensures output { (bytes : List ℕ) → Brings S.Source input.old bytes
        → JudgesNext (R.version records) bytes result input.new.window.now (left_in S.Source input.new) }
    ensures mark { read_failed S.Source input.new ≡ (read_failed S.Source input.old || is_read_failed result) }
    ensures other { is_write_failed result ≡ false }
    ensures reads { slack S.Source input.old ≤ slack S.Source input.new + 1 }
    ensures taken { IfOk result (λ found. is_some found ≡ true → slack S.Source input.old ≤ slack S.Source input.new) }
    ensures read_measure { IfOk result (λ found. is_some found ≡ true → work S.Source input.new < work S.Source input.old) }
    ensures same_inlet { SameInlet input.old input.new }
{
    let Some(found) = records.find_next(input)? else {
        return Ok(None);
    };
    let record_class = judge_record(input.window, found.len)?;
    Ok(Some(record_class))
}

// Classifies the next message as `judge_next` does, after those that were counted.
#[inline(always)]
fn judge_on<S: Source, R: Records>(
    input: &mut BufferedSource<'_, S>,
    records: R,
    counts: &Counts,
) -> Result<Option<RecordClass>, FileFault>
    ensures output { (bytes : List ℕ) → Brings S.Source input.old bytes
        → JudgesNext (R.version records) bytes result input.new.window.now (left_in S.Source input.new) }
    ensures mark { read_failed S.Source input.new ≡ (read_failed S.Source input.old || is_read_failed result) }
    ensures other { is_write_failed result ≡ false }
    ensures reads { slack S.Source input.old ≤ slack S.Source input.new + 1 }
    ensures taken { IfOk result (λ found. is_some found ≡ true → slack S.Source input.old ≤ slack S.Source input.new) }
    ensures read_measure { IfOk result (λ found. is_some found ≡ true → work S.Source input.new < work S.Source input.old) }
    ensures same_inlet { SameInlet input.old input.new }
{
    let judged = judge_next(input, records);
    stop_at_fault(
        input.source,
        &judged,
        counts.tally().messages,
        input.window.unread().len(),
    );
    judged
}

// Counts the messages after the header.
fn totals_records<S: Source, R: Records>(
    input: &mut BufferedSource<'_, S>,
    records: R,
) -> Result<Totals, FileFault>
    ensures output { (bytes : List ℕ) → Brings S.Source input.old bytes
        → TotalsFrom (R.version records) bytes no_messages result (left_in S.Source input.new) }
    ensures mark { read_failed S.Source input.new ≡ (read_failed S.Source input.old || is_read_failed result) }
    ensures other { is_write_failed result ≡ false }
    ensures reads { slack S.Source input.old ≤ slack S.Source input.new + 1 }
    ensures same_inlet { SameInlet input.old input.new }
{
    let mut counts = Counts::new();
    while let Some(record_class) = judge_on(input, records, &counts)? {
        counts.count(record_class);
    }
    Ok(counts.tally())
}

// Counts the messages of a file.
fn totals_file<S: Source>(input: &mut BufferedSource<'_, S>) -> Result<Totals, FileFault>
    requires { input.old.window.now ≡ [] }
    ensures output { (bytes : List ℕ) → left_in S.Source input.old ≡ Some bytes
        → TotalsFile bytes result (left_in S.Source input.new) }
    ensures mark { read_failed S.Source input.new ≡ (read_failed S.Source input.old || is_read_failed result) }
    ensures other { is_write_failed result ≡ false }
    ensures reads { slack S.Source input.old ≤ slack S.Source input.new + 1 }
    ensures same_inlet { SameInlet input.old input.new }
{
    match read_version(input)? {
        Version::One(direction) => totals_records(input, PlainRecords { direction }),
        Version::Two => totals_records(input, PlacedRecords),
    }
}

/// Reads a message file to its end, writes one line with the counts of its messages, and returns
/// whether none of them is short, faulty or bad. After a fault of the file, or a failed read,
/// nothing is written.
///
/// Does not allocate. Reads at least 4 KiB at a time, and writes the line as one piece.
pub fn check<S: Source, W: Sink>(source: &mut S, sink: &mut W) -> Result<bool, FileFault>
    requires source_clean { S.has_failed source.old ≡ false }
    requires sink_clean { W.has_failed sink.old ≡ false }

    // Given the bytes of the source, the line of the counts is written, and nothing else.
    ensures output { (bytes : List ℕ) (was : List ℕ)
        → S.left source.old ≡ Some bytes → W.written sink.old ≡ Some was
        → Checked bytes was (S.left source.new) (W.written sink.new) result }

    // The result is a failed read or a failed write exactly when the stream failed.
    ensures read_failed { S.has_failed source.new ≡ is_read_failed result }
    ensures write_failed { W.has_failed sink.new ≡ is_write_failed result }

    // Reads a source that gives all it can at most once for each 4 KiB, and once more; any source
    // at most once for each byte, and once more.
    ensures reads { (bytes : List ℕ) → S.left source.old ≡ Some bytes
        → S.reads source.old ≤ S.reads source.new + reads_for S.gives_all (length bytes) + 1 }

    // Writes at most twice to a sink that takes all it can.
    ensures writes { W.takes_all ≡ true → W.writes sink.old ≤ W.writes sink.new + 2 }
{
    let mut window = InBuffer::new();
    let mut input = BufferedSource {
        window: &mut window,
        source,
    };
    let tally = totals_file(&mut input)?;
    let mut page = OutBuffer::new();
    push_totals(&mut page, &tally);
    match page.flush(sink) {
        Ok(()) => Ok(tally.is_sound()),
        Err(_) => Err(FileFault::WriteFailed),
    }
}

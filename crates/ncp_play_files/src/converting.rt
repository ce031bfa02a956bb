//! `convert`: a message file of one version as one of the other.
ghost use Rattle.std.specs.Prelude.{◌≡◌, ℕ, ◌+◌, ◌-◌, ◌/◌, ◌<◌, ◌≤◌, ◌||◌, [], List, Some, true, false, length, IfOk};
ghost use Rattle.ncp_play_buffer.specs.BufferedSources.{SameInlet, left_in, reads_left, read_failed, slack, work, Brings, PaidBy};
ghost use Rattle.ncp_play_buffer.specs.BufferedSinks.{SameOutlet, written_by, write_failed, write_budget, HasSaid};
ghost use Rattle.ncp_play_stream.specs.Pieces.{reads_for, lost_pieces, unpaid};
ghost use Rattle.ncp_play_files.specs.Results.{is_read_failed, is_write_failed};
ghost use Rattle.ncp_play_files.specs.Waiting.{is_waiting};
ghost use Rattle.ncp_play_files.specs.Steps.{RendersNext, RendersOn, RendersFrom, RendersOfFile, said_nothing, unpaid_after};
ghost use Rattle.ncp_play_files.specs.Converted.{other_version, capture_point_in, next_at, ConvertedAs, ConvertedCut, Converted};
ghost use Rattle.ncp_play_files.specs.Turning.{ReadsMessage, FindsDirection, message_printed, RendersTurned};

use crate::file::{Direction, FileFault, LENGTH};
use crate::letting_out::flush_before_wait;
use crate::version::{CapturePoint, PASSAGE, Version, direction_by, read_next, read_version};
use crate::writing::{push_header, render_message};
use ncp_bits::{Bits, MAX_BITS};
use ncp_play_buffer::{BufferedSink, BufferedSource, InBuffer, OutBuffer};
use ncp_play_stream::{LEAST_PIECE, Sink, Source, stop_at_fault};

// The other version, for a file of this direction.
fn other_version(version: Version, direction: Direction) -> Version
    ensures { result ≡ other_version version direction }
{
    match version {
        Version::One(_) => Version::Two,
        Version::Two => Version::One(direction),
    }
}

// The capture point of each message in a file of this version.
fn capture_point_in(version: Version, direction: Direction, host: u8) -> CapturePoint
    ensures { result ≡ capture_point_in version direction host }
{
    match version {
        Version::One(_) => CapturePoint {
            direction,
            at: None,
        },
        Version::Two => CapturePoint {
            direction,
            at: Some(host),
        },
    }
}

// The conversion of a file to the other version.
#[derive(Clone, Copy, Drop)]
struct Turn {
    // The version that is read, and the capture point that each message must have in it.
    from: Version,
    wanted: CapturePoint,
    // The version that is written, and the capture point of each message in it.
    to: Version,
    given: CapturePoint,
}

// The conversion of a file of this version and direction.
fn turn_of(version: Version, direction: Direction, host: u8) -> Turn
    ensures from { result.from ≡ version }
    ensures wanted { result.wanted ≡ capture_point_in version direction host }
    ensures to { result.to ≡ other_version version direction }
    ensures given { result.given ≡ capture_point_in (other_version version direction) direction host }
{
    let to = other_version(version, direction);
    Turn {
        from: version,
        wanted: capture_point_in(version, direction, host),
        to,
        given: capture_point_in(to, direction, host),
    }
}

// The direction that the next byte of input names, if any; else toward the IMP.
fn peek_direction<S: Source>(input: &mut BufferedSource<'_, S>) -> Result<Direction, FileFault>
    ensures output { (bytes : List ℕ) → Brings S.Source input.old bytes
        → FindsDirection Version.Two bytes result input.new.window.now (left_in S.Source input.new) }
    ensures mark { read_failed S.Source input.new ≡ (read_failed S.Source input.old || is_read_failed result) }
    ensures other { is_write_failed result ≡ false }
    ensures reads { slack S.Source input.old ≤ slack S.Source input.new + 1 }
    ensures lowers { reads_left S.Source input.new ≤ reads_left S.Source input.old }
    ensures same_inlet { SameInlet input.old input.new }
{
    if !input.window.need(input.source, 1)? {
        return Ok(Direction::ToImp);
    }
    match direction_by(input.window.unread()[0]) {
        Some(direction) => Ok(direction),
        None => Ok(Direction::ToImp),
    }
}

// The direction of the remaining messages: in a file of version 2 that of the first record.
fn find_direction<S: Source>(
    input: &mut BufferedSource<'_, S>,
    version: Version,
) -> Result<Direction, FileFault>
    ensures output { (bytes : List ℕ) → Brings S.Source input.old bytes
        → FindsDirection version bytes result input.new.window.now (left_in S.Source input.new) }
    ensures mark { read_failed S.Source input.new ≡ (read_failed S.Source input.old || is_read_failed result) }
    ensures other { is_write_failed result ≡ false }
    ensures reads { slack S.Source input.old ≤ slack S.Source input.new + 1 }
    ensures lowers { reads_left S.Source input.new ≤ reads_left S.Source input.old }
    ensures same_inlet { SameInlet input.old input.new }
{
    match version {
        Version::One(direction) => Ok(direction),
        Version::Two => peek_direction(input),
    }
}

// Reads the next message into `message`, and returns whether there was one. A record with another
// capture point is `Mixed`.
fn take_next<S: Source>(
    input: &mut BufferedSource<'_, S>,
    turn: Turn,
    message: &mut Bits,
) -> Result<bool, FileFault>
    ensures output { (bytes : List ℕ) → Brings S.Source input.old bytes
        → ReadsMessage (next_at turn.from turn.wanted) bytes result message.new input.new.window.now (left_in S.Source input.new) }
    ensures mark { read_failed S.Source input.new ≡ (read_failed S.Source input.old || is_read_failed result) }
    ensures other { is_write_failed result ≡ false }
    ensures reads { slack S.Source input.old ≤ slack S.Source input.new + 1 }
    ensures taken { IfOk result (λ more. more ≡ true → slack S.Source input.old ≤ slack S.Source input.new) }
    ensures read_measure { IfOk result (λ more. more ≡ true → work S.Source input.new < work S.Source input.old) }
    ensures lowers { reads_left S.Source input.new ≤ reads_left S.Source input.old }
    ensures waited { IfOk result (λ more. more ≡ true
        → is_waiting turn.from input.old.window.now ≡ true → reads_left S.Source input.new < reads_left S.Source input.old) }
    ensures same_inlet { SameInlet input.old input.new }
{
    let Some(capture_point) = read_next(input, turn.from, message)? else {
        return Ok(false);
    };
    if capture_point != turn.wanted {
        return Err(FileFault::Mixed);
    }
    Ok(true)
}

// The number of bytes consumed of a record with this result: the whole record if it is `Mixed`,
// else none.
fn used_of(found: &Result<bool, FileFault>, message: &Bits) -> usize
    ensures { result ≤ MAX_BITS }
{
    match found {
        Err(FileFault::Mixed) => PASSAGE + LENGTH + message.len().div_ceil(8),
        _ => 0,
    }
}

// Takes the next message as `take_next` does, after `records` records.
fn take_on<S: Source>(
    input: &mut BufferedSource<'_, S>,
    turn: Turn,
    message: &mut Bits,
    records: u32,
) -> Result<bool, FileFault>
    ensures output { (bytes : List ℕ) → Brings S.Source input.old bytes
        → ReadsMessage (next_at turn.from turn.wanted) bytes result message.new input.new.window.now (left_in S.Source input.new) }
    ensures mark { read_failed S.Source input.new ≡ (read_failed S.Source input.old || is_read_failed result) }
    ensures other { is_write_failed result ≡ false }
    ensures reads { slack S.Source input.old ≤ slack S.Source input.new + 1 }
    ensures taken { IfOk result (λ more. more ≡ true → slack S.Source input.old ≤ slack S.Source input.new) }
    ensures read_measure { IfOk result (λ more. more ≡ true → work S.Source input.new < work S.Source input.old) }
    ensures lowers { reads_left S.Source input.new ≤ reads_left S.Source input.old }
    ensures waited { IfOk result (λ more. more ≡ true
        → is_waiting turn.from input.old.window.now ≡ true → reads_left S.Source input.new < reads_left S.Source input.old) }
    ensures same_inlet { SameInlet input.old input.new }
{
    let found = take_next(input, turn, message);
    let ahead = input.window.unread().len() + used_of(&found, message);
    stop_at_fault(input.source, &found, records, ahead);
    found
}

// Converts the next message, and returns whether there was one.
fn convert_next<S: Source, W: Sink>(
    input: &mut BufferedSource<'_, S>,
    message: &mut Bits,
    out: &mut BufferedSink<'_, W>,
    turn: Turn,
    records: u32,
) -> Result<bool, FileFault>
    ensures output { (number : ℕ) (bytes : List ℕ) (was : List ℕ) (said : List ℕ)
        → Brings S.Source input.old bytes → HasSaid W.Sink was out.old said
        → RendersNext (next_at turn.from turn.wanted) (message_printed turn.given) number bytes was said result input.new.window.now (left_in S.Source input.new) out.new.page.now (written_by W.Sink out.new) }
    ensures source_mark { read_failed S.Source input.new ≡ (read_failed S.Source input.old || is_read_failed result) }
    ensures writes { write_budget W.Sink out.old ≤ write_budget W.Sink out.new + lost_pieces (is_write_failed result) }
    ensures sink_mark { write_failed W.Sink out.new ≡ (write_failed W.Sink out.old || is_write_failed result) }
    ensures reads { slack S.Source input.old ≤ slack S.Source input.new + 1 }
    ensures taken { IfOk result (λ more. more ≡ true → slack S.Source input.old ≤ slack S.Source input.new) }
    ensures read_measure { IfOk result (λ more. more ≡ true → work S.Source input.new < work S.Source input.old) }
    ensures lowers { reads_left S.Source input.new ≤ reads_left S.Source input.old }
    ensures waited { said_nothing result ≡ false
        → is_waiting turn.from input.old.window.now ≡ true → reads_left S.Source input.new < reads_left S.Source input.old }
    ensures kept { said_nothing result ≡ true → out.new.page.now ≡ out.old.page.now }
    ensures same_inlet { SameInlet input.old input.new }
    ensures same_outlet { SameOutlet out.old out.new }
{
    if !take_on(input, turn, message, records)? {
        return Ok(false);
    }
    match render_message(out, turn.given, &message.whole()) {
        Ok(()) => Ok(true),
        Err(_) => Err(FileFault::WriteFailed),
    }
}

// Converts the next message as `convert_next` does. Writes all text rendered so far before waiting
// for input.
fn convert_on<S: Source, W: Sink>(
    input: &mut BufferedSource<'_, S>,
    message: &mut Bits,
    out: &mut BufferedSink<'_, W>,
    turn: Turn,
    records: u32,
) -> Result<bool, FileFault>
    ensures output { (number : ℕ) (bytes : List ℕ) (was : List ℕ) (said : List ℕ)
        → Brings S.Source input.old bytes → HasSaid W.Sink was out.old said
        → RendersOn (next_at turn.from turn.wanted) (message_printed turn.given) number bytes was said result input.new.window.now (left_in S.Source input.new) out.new.page.now (written_by W.Sink out.new) }
    ensures source_mark { read_failed S.Source input.new ≡ (read_failed S.Source input.old || is_read_failed result) }
    ensures writes { PaidBy S.Source W.Sink out.old input.old out.new input.new (unpaid_after result) }
    ensures sink_mark { write_failed W.Sink out.new ≡ (write_failed W.Sink out.old || is_write_failed result) }
    ensures reads { slack S.Source input.old ≤ slack S.Source input.new + 1 }
    ensures taken { IfOk result (λ more. more ≡ true → slack S.Source input.old ≤ slack S.Source input.new) }
    ensures read_measure { IfOk result (λ more. more ≡ true → work S.Source input.new < work S.Source input.old) }
    ensures same_inlet { SameInlet input.old input.new }
    ensures same_outlet { SameOutlet out.old out.new }
{
    flush_before_wait(input.window, turn.from, out)?;
    convert_next(input, message, out, turn, records)
}

// Converts all messages after the first.
fn convert_rest<S: Source, W: Sink>(
    input: &mut BufferedSource<'_, S>,
    message: &mut Bits,
    out: &mut BufferedSink<'_, W>,
    turn: Turn,
) -> Result<(), FileFault>
    ensures output { (number : ℕ) (bytes : List ℕ) (was : List ℕ) (said : List ℕ)
        → Brings S.Source input.old bytes → HasSaid W.Sink was out.old said
        → RendersFrom (next_at turn.from turn.wanted) (message_printed turn.given) number bytes was said result (left_in S.Source input.new) out.new.page.now (written_by W.Sink out.new) }
    ensures source_mark { read_failed S.Source input.new ≡ (read_failed S.Source input.old || is_read_failed result) }
    ensures writes { PaidBy S.Source W.Sink out.old input.old out.new input.new (unpaid (is_write_failed result)) }
    ensures sink_mark { write_failed W.Sink out.new ≡ (write_failed W.Sink out.old || is_write_failed result) }
    ensures reads { slack S.Source input.old ≤ slack S.Source input.new + 1 }
    ensures same_inlet { SameInlet input.old input.new }
    ensures same_outlet { SameOutlet out.old out.new }
{
    let mut records = 1u32;
    while convert_on(input, message, out, turn, records)? {
        records = records.saturating_add(1);
    }
    Ok(())
}

// Converts the messages after the header. The new header is written with the first of them, or at
// the end.
fn convert_messages<S: Source, W: Sink>(
    input: &mut BufferedSource<'_, S>,
    out: &mut BufferedSink<'_, W>,
    turn: Turn,
) -> Result<(), FileFault>
    requires { out.old.page.now ≡ [] }
    ensures output { (bytes : List ℕ) (was : List ℕ)
        → Brings S.Source input.old bytes → written_by W.Sink out.old ≡ Some was
        → RendersTurned turn.to turn.given (next_at turn.from turn.wanted) bytes was result (left_in S.Source input.new) out.new.page.now (written_by W.Sink out.new) }
    ensures source_mark { read_failed S.Source input.new ≡ (read_failed S.Source input.old || is_read_failed result) }
    ensures writes { PaidBy S.Source W.Sink out.old input.old out.new input.new (unpaid (is_write_failed result)) }
    ensures sink_mark { write_failed W.Sink out.new ≡ (write_failed W.Sink out.old || is_write_failed result) }
    ensures reads { slack S.Source input.old ≤ slack S.Source input.new + 1 }
    ensures same_inlet { SameInlet input.old input.new }
    ensures same_outlet { SameOutlet out.old out.new }
{
    let mut message = Bits::new();
    let found = take_on(input, turn, &mut message, 0)?;
    push_header(out.page, turn.to);
    if !found {
        return Ok(());
    }
    match render_message(out, turn.given, &message.whole()) {
        Ok(()) => convert_rest(input, &mut message, out, turn),
        Err(_) => Err(FileFault::WriteFailed),
    }
}

// Converts a file. The last bytes may stay in the out buffer.
fn convert_file<S: Source, W: Sink>(
    input: &mut BufferedSource<'_, S>,
    out: &mut BufferedSink<'_, W>,
    at: u8,
) -> Result<(), FileFault>
    requires window { input.old.window.now ≡ [] }
    requires page { out.old.page.now ≡ [] }
    ensures output { (bytes : List ℕ) (was : List ℕ)
        → left_in S.Source input.old ≡ Some bytes → written_by W.Sink out.old ≡ Some was
        → RendersOfFile (ConvertedAs at) (ConvertedCut at) bytes was result (left_in S.Source input.new) out.new.page.now (written_by W.Sink out.new) }
    ensures source_mark { read_failed S.Source input.new ≡ (read_failed S.Source input.old || is_read_failed result) }
    ensures writes { PaidBy S.Source W.Sink out.old input.old out.new input.new (unpaid (is_write_failed result)) }
    ensures sink_mark { write_failed W.Sink out.new ≡ (write_failed W.Sink out.old || is_write_failed result) }
    ensures reads { slack S.Source input.old ≤ slack S.Source input.new + 2 }
    ensures same_inlet { SameInlet input.old input.new }
    ensures same_outlet { SameOutlet out.old out.new }
{
    let version = read_version(input)?;
    let direction = find_direction(input, version)?;
    convert_messages(input, out, turn_of(version, direction, at))
}

/// Converts a message file of version 1 to version 2, with each message at the interface of host
/// `at`; and one of version 2 to version 1, in which each record must have the direction of the
/// first and host `at`.
///
/// Writes the messages before the first fault, and returns that fault. The first record of version
/// 2 that has no other fault, but another direction or host, is `Mixed`. The header is written with
/// the first record that is not refused. A file without records becomes a header alone: that of
/// version 2, or that of version 1 toward the IMP.
///
/// Does not allocate. Reads and writes at least 4 KiB at a time, but writes all complete messages
/// before waiting for input. After a failed read the messages read whole are written; after a
/// failed write a prefix of the file is.
pub fn convert<S: Source, W: Sink>(source: &mut S, sink: &mut W, at: u8) -> Result<(), FileFault>
    requires source_clean { S.has_failed source.old ≡ false }
    requires sink_clean { W.has_failed sink.old ≡ false }

    // Given the bytes of the source, the file of the other version with the messages before the
    // first fault is written, and nothing else.
    ensures output { (bytes : List ℕ) (was : List ℕ)
        → S.left source.old ≡ Some bytes → W.written sink.old ≡ Some was
        → Converted at bytes was (S.left source.new) (W.written sink.new) result }

    // A failed read is reported only if the source failed, and a failed write exactly if the sink
    // failed. After a failure of the source one of the two is reported.
    ensures read_failed { is_read_failed result ≡ true → S.has_failed source.new ≡ true }
    ensures write_failed { W.has_failed sink.new ≡ is_write_failed result }
    ensures blamed { S.has_failed source.new ≡ true → (is_read_failed result || is_write_failed result) ≡ true }

    // Reads a source that gives all it can at most once for each 4 KiB, and twice more; any source
    // at most once for each byte, and twice more.
    ensures reads { (bytes : List ℕ) → S.left source.old ≡ Some bytes
        → S.reads source.old ≤ S.reads source.new + reads_for S.gives_all (length bytes) + 2 }

    // Writes to a sink that takes all it can at most once for each 4 KiB, once for each read, and
    // twice more.
    ensures writes { (was : List ℕ) (now : List ℕ) → W.takes_all ≡ true
        → W.written sink.old ≡ Some was → W.written sink.new ≡ Some now
        → W.writes sink.old ≤ W.writes sink.new + (length now - length was) / LEAST_PIECE + (S.reads source.old - S.reads source.new) + 2 }
{
    let mut window = InBuffer::new();
    let mut page = OutBuffer::new();
    let mut input = BufferedSource {
        window: &mut window,
        source,
    };
    let mut out = BufferedSink {
        page: &mut page,
        sink,
    };
    let converted = convert_file(&mut input, &mut out, at);
    if out.sink.failed() {
        return converted;
    }
    match out.flush() {
        Ok(()) => converted,
        Err(_) => Err(FileFault::WriteFailed),
    }
}

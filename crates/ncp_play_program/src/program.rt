//! Carrying out a command line.
ghost use Rattle.std.specs.Prelude.{◌≡◌, map, true, false, IfOk, IsErr};
ghost use Rattle.ncp_monitor.specs.Judged.{new_monitor};
ghost use Rattle.ncp_play_audit.specs.Audited.{noted_first};
ghost use Rattle.ncp_play_notes.specs.Faults.{play_read_failed, play_write_failed};
ghost use Rattle.ncp_play_program.specs.Orders.{streams_of, covers, is_strict, DoesFollow, DoesText, DoesTrace, Does};
ghost use Rattle.ncp_play_command_line.specs.declared.orders.Order.TheVariants.{Audit};
ghost use Rattle.ncp_play_program.specs.Obeying.{telling_of, PrintsFault, status_of, status_after, Obeys};

use crate::put::put;
use crate::telling::explanation;
use ncp_bits::PackedStore;
use ncp_follow::Follower;
use ncp_play_audit::{Auditor, audit};
use ncp_play_command_line::{Order, Report, request};
use ncp_play_files::{check, convert, count, show};
use ncp_play_follow::{follow, follow_text};
use ncp_play_host::play_host;
use ncp_play_notes::PlayFault;
use ncp_play_stream::{Sink, Source};
use ncp_play_world::{play_world, record_world};
use std::alloc::{AllocError, AllocGlobal, Global};
use std::convert::AsStr;

// Prints the meaning of a name or a word of a line, and returns whether it has one.
fn explain<W: Sink>(alloc: Global, name: &str, sink: &mut W) -> Result<bool, PlayFault>
    requires sink_clean { W.has_failed sink.old ≡ false }
    ensures read { play_read_failed result ≡ false }
    ensures mark { W.has_failed sink.new ≡ play_write_failed result }
{
    let Ok((text, known)) = explanation(alloc, name) else {
        return Err(PlayFault::OutOfMemory);
    };
    match put(sink, text.as_bytes()) {
        Ok(()) => Ok(known),
        Err(_) => Err(PlayFault::WriteFailed),
    }
}

// What an audit is asked for.
#[derive(Clone, Copy, Drop)]
struct Asked {
    part: bool,
    standard: bool,
    report: Report,
}

// The auditor for it.
fn auditor_for(alloc: Global, asked: Asked) -> Result<Auditor, AllocError>
    ensures monitor { IfOk result (λ auditor. auditor.monitor ≡ new_monitor asked.part) }
    ensures noted { IfOk result (λ auditor. auditor.noted ≡ noted_first (covers asked.report)) }
    ensures strict { IfOk result (λ auditor. auditor.strict ≡ is_strict asked.report) }
{
    match asked.report {
        Report::Findings => Auditor::new(alloc, asked.part),
        Report::Coverage => Auditor::with_coverage(alloc, asked.part, false),
        Report::Strict => Auditor::with_coverage(alloc, asked.part, true),
    }
}

// Prints the findings of a message file, and what was not judged if that is asked for. Returns
// whether all is good.
fn judge<S: Source, W: Sink>(
    alloc: Global,
    asked: Asked,
    source: &mut S,
    sink: &mut W,
) -> Result<bool, PlayFault>
    requires source_clean { S.has_failed source.old ≡ false }
    requires sink_clean { W.has_failed sink.old ≡ false }
    ensures does { Does
        (streams_of (S.left source.old) (S.has_failed source.old) (W.written sink.old) (W.has_failed sink.old)) result
        (streams_of (S.left source.new) (S.has_failed source.new) (W.written sink.new) (W.has_failed sink.new)) (Audit asked.part asked.standard asked.report) }
    ensures read_failed { S.has_failed source.new ≡ true → IsErr result }
    ensures write_failed { W.has_failed sink.new ≡ true → IsErr result }
{
    let Ok(mut auditor) = auditor_for(alloc, asked) else {
        return Err(PlayFault::OutOfMemory);
    };
    match audit(&mut auditor, asked.standard, source, sink) {
        Ok(good) => Ok(good),
        Err(fault) => Err(PlayFault::Feed(fault)),
    }
}

// Prints the lines of each connection of a message file.
fn trace_lines<S: Source, W: Sink>(
    alloc: Global,
    part: bool,
    letters: bool,
    source: &mut S,
    sink: &mut W,
) -> Result<bool, PlayFault>
    requires source_clean { S.has_failed source.old ≡ false }
    requires sink_clean { W.has_failed sink.old ≡ false }
    ensures does { DoesFollow
        (streams_of (S.left source.old) (S.has_failed source.old) (W.written sink.old) (W.has_failed sink.old)) result
        (streams_of (S.left source.new) (S.has_failed source.new) (W.written sink.new) (W.has_failed sink.new)) part letters }
    ensures read_failed { S.has_failed source.new ≡ true → IsErr result }
    ensures write_failed { W.has_failed sink.new ≡ true → IsErr result }
{
    let Ok(mut follower) = Follower::new(alloc, part) else {
        return Err(PlayFault::OutOfMemory);
    };
    match follow(&mut follower, letters, source, sink) {
        Ok(()) => Ok(true),
        Err(fault) => Err(PlayFault::Feed(fault)),
    }
}

// Writes the text of one connection of a message file, by its number, and returns whether it
// exists.
fn trace_text<S: Source, W: Sink>(
    alloc: Global,
    part: bool,
    wanted: u16,
    source: &mut S,
    sink: &mut W,
) -> Result<bool, PlayFault>
    requires source_clean { S.has_failed source.old ≡ false }
    requires sink_clean { W.has_failed sink.old ≡ false }
    ensures does { DoesText
        (streams_of (S.left source.old) (S.has_failed source.old) (W.written sink.old) (W.has_failed sink.old)) result
        (streams_of (S.left source.new) (S.has_failed source.new) (W.written sink.new) (W.has_failed sink.new)) part wanted }
    ensures read_failed { S.has_failed source.new ≡ true → IsErr result }
    ensures write_failed { W.has_failed sink.new ≡ true → IsErr result }
{
    let Ok(mut follower) = Follower::new(alloc, part) else {
        return Err(PlayFault::OutOfMemory);
    };
    match follow_text(&mut follower, u32::from(wanted), source, sink) {
        Ok(there) => Ok(there),
        Err(fault) => Err(PlayFault::Feed(fault)),
    }
}

// Prints the lines of the connections of a message file, or writes the text of one.
fn trace<S: Source, W: Sink>(
    alloc: Global,
    part: bool,
    letters: bool,
    bytes: Option<u16>,
    source: &mut S,
    sink: &mut W,
) -> Result<bool, PlayFault>
    requires source_clean { S.has_failed source.old ≡ false }
    requires sink_clean { W.has_failed sink.old ≡ false }
    ensures does { DoesTrace
        (streams_of (S.left source.old) (S.has_failed source.old) (W.written sink.old) (W.has_failed sink.old)) result
        (streams_of (S.left source.new) (S.has_failed source.new) (W.written sink.new) (W.has_failed sink.new)) part letters bytes }
    ensures read_failed { S.has_failed source.new ≡ true → IsErr result }
    ensures write_failed { W.has_failed sink.new ≡ true → IsErr result }
{
    match bytes {
        Some(wanted) => trace_text(alloc, part, wanted, source, sink),
        None => trace_lines(alloc, part, letters, source, sink),
    }
}

/// Carries out an order with the word after the subcommand, and returns whether all was good. A
/// fault of a message file is reported like one of a feed.
pub(crate) fn carry_out<S: Source, W: Sink>(
    alloc: Global,
    order: Order,
    word: Option<&str>,
    source: &mut S,
    sink: &mut W,
) -> Result<bool, PlayFault>
    requires source_clean { S.has_failed source.old ≡ false }
    requires sink_clean { W.has_failed sink.old ≡ false }
    ensures does { Does
        (streams_of (S.left source.old) (S.has_failed source.old) (W.written sink.old) (W.has_failed sink.old)) result
        (streams_of (S.left source.new) (S.has_failed source.new) (W.written sink.new) (W.has_failed sink.new)) order }
    ensures read_failed { S.has_failed source.new ≡ true → IsErr result }
    ensures write_failed { W.has_failed sink.new ≡ true → IsErr result }
{
    match order {
        Order::Show => match show(source, sink) {
            Ok(()) => Ok(true),
            Err(fault) => Err(PlayFault::Feed(fault)),
        },
        Order::Check => match check(source, sink) {
            Ok(sound) => Ok(sound),
            Err(fault) => Err(PlayFault::Feed(fault)),
        },
        Order::Count => match count(source, sink) {
            Ok(()) => Ok(true),
            Err(fault) => Err(PlayFault::Feed(fault)),
        },
        Order::Convert(at) => match convert(source, sink, at) {
            Ok(()) => Ok(true),
            Err(fault) => Err(PlayFault::Feed(fault)),
        },
        Order::Audit {
            part,
            standard,
            report,
        } => {
            let asked = Asked {
                part,
                standard,
                report,
            };
            judge(alloc, asked, source, sink)
        }
        Order::Follow {
            part,
            letters,
            bytes,
            raw: _,
        } => trace(alloc, part, letters, bytes, source, sink),
        Order::Host => play_host::<PackedStore, _, _>(alloc, source, sink),
        Order::World => play_world::<PackedStore, _, _>(alloc, source, sink),
        Order::Record => record_world::<PackedStore, _, _>(alloc, source, sink),
        Order::Explain => explain(alloc, word.unwrap_or(""), sink),
    }
}

/// The exit status of the program: 0 if all is good; 1 if a check or a player returned false, or a
/// name to explain is unknown; 2 after a fault.
pub fn status(outcome: Result<bool, ()>) -> u8
    ensures { result ≡ status_of outcome }
{
    match outcome {
        Ok(true) => 0,
        Ok(false) => 1,
        Err(()) => 2,
    }
}

/// The status after an answer.
pub(crate) fn status_after(answer: &Result<bool, PlayFault>) -> u8
    ensures { result ≡ status_after answer.now }
{
    match answer {
        Ok(good) => status(Ok(*good)),
        Err(_) => status(Err(())),
    }
}

/// Prints the fault of an answer, if it has one, and returns the status after it.
pub(crate) fn conclude<E: Sink>(answer: Result<bool, PlayFault>, errors: &mut E) -> u8
    ensures output { PrintsFault answer (telling_of (E.written errors.old) (E.has_failed errors.old))
        (telling_of (E.written errors.new) (E.has_failed errors.new)) }
    ensures status { result ≡ status_after answer }
{
    match answer {
        Ok(good) => status(Ok(good)),
        Err(fault) => {
            // The status reports the fault, even if nothing can be printed on standard error.
            let _untold = fault.tell(errors);
            status(Err(()))
        }
    }
}

/// Carries out the words of a command line, the program's name first, and returns the exit status:
/// 0 if all is good; 1 if a check or a player returned false, or a name to explain is unknown; 2
/// after a fault, which is printed on `errors`. Opens no file: the input is `source`. The messages
/// of `clap` are printed by the runtime; after help the status is 0.
pub fn run_command_line<R, T, S, W, E>(
    rt: &R,
    words: &[T],
    source: &mut S,
    sink: &mut W,
    errors: &mut E,
) -> u8
where
    R: AllocGlobal + Print + Eprint,
    T: AsStr,
    S: Source,
    W: Sink,
    E: Sink,
    requires source_clean { S.has_failed source.old ≡ false }
    requires sink_clean { W.has_failed sink.old ≡ false }

    // The words are an order, which was carried out, and its fault printed; or they are none, and
    // nothing was read, written or printed.
    ensures obeyed { Obeys (map T.text words.entry.now)
        (streams_of (S.left source.old) (S.has_failed source.old) (W.written sink.old) (W.has_failed sink.old))
        (telling_of (E.written errors.old) (E.has_failed errors.old)) result
        (streams_of (S.left source.new) (S.has_failed source.new) (W.written sink.new) (W.has_failed sink.new))
        (telling_of (E.written errors.new) (E.has_failed errors.new)) }

    // After a failed read or write the status is 2.
    ensures read_failed { S.has_failed source.new ≡ true → result ≡ 2 }
    ensures write_failed { W.has_failed sink.new ≡ true → result ≡ 2 }
{
    let alloc = rt.alloc();
    let request = match request(alloc, words) {
        Ok(request) => request,
        Err(error) => {
            let _untold = error.print(rt);
            return error.exit_code() as u8;
        }
    };
    let answer = carry_out(alloc, request.order, request.word, source, sink);
    conclude(answer, errors)
}

//! `run`: the program with the streams of the system.
ghost use Rattle.std.specs.Prelude.{◌≡◌, ◌≤◌, map, false};
ghost use Rattle.std.specs.Process.{exit_status};
ghost use Rattle.ncp_play_program.specs.Orders.{streams_of};
ghost use Rattle.ncp_play_program.specs.Obeying.{Ends, status_after};

use crate::input_tail::InputTail;
use crate::origin::Origin;
use crate::output::Output;
use crate::program::{carry_out, conclude, status_after};
use crate::put::put;
use crate::tee_source::TeeSource;
use crate::telling::{Context, explained};
use crate::terminal::{Terminals, for_terminal};
use anyhow::Result;
use clap::Error;
use ncp_play_command_line::{Invocation, Order, request};
use ncp_play_notes::PlayFault;
use ncp_play_stream::{FromRead, Sink, Source, ToWrite};
use std::alloc::{AllocGlobal, Global};
use std::convert::AsStr;
use std::env::{self, Env};
use std::fs::{File, Files};
use std::io::{IsTerminal, Read, Write};
use std::process::ExitCode;

// The status if the words of the command line are unavailable, or the file cannot be opened.
const FAULT: u8 = 2;

// The word for standard input.
const STANDARD: &str = "-";

// The notice that standard input is a terminal.
const NOTICE: &[u8] =
    b"ncp: reading from the terminal; Ctrl-D ends it, and 'ncp --help' says more\n";

// The refusal to write raw bytes to a terminal.
const REFUSED: &[u8] =
    b"ncp: a terminal may act on the bytes of --bytes: write them to a file or a pipe, or add --raw\n";

// The words of the command line, which are text.
fn words_in<R: Env + AllocGlobal>(rt: &R) -> Result<Vec<String>> {
    Ok(env::args(rt)?.collect(rt.alloc())?)
}

// Whether an order plays a script.
fn plays(order: Order) -> bool {
    matches!(order, Order::Host | Order::World | Order::Record)
}

// Prints an explanation after the line of a fault, as far as memory allows.
fn print_more<E: Sink>(alloc: Global, context: &Context<'_>, fault: PlayFault, errors: &mut E) {
    if let Ok(text) = explained(alloc, context, fault) {
        let _untold = put(errors, text.as_bytes());
    }
}

// Prints that a message file has no connection with the number that was asked for.
fn print_missing<E: Sink>(alloc: Global, order: Order, errors: &mut E) {
    if let Order::Follow {
        bytes: Some(number),
        ..
    } = order
    {
        if let Ok(text) = format!(in alloc; "ncp: the file has no connection {number}\n") {
            let _untold = put(errors, text.as_bytes());
        }
    }
}

// Prints the fault of an answer, if it has one, with an explanation, and returns the status after
// it. Prints nothing if the reader of the output is gone.
fn finish<O: Write, E: Sink>(
    alloc: Global,
    context: &Context<'_>,
    answer: Result<bool, PlayFault>,
    output: &Output<O>,
    errors: &mut E,
) -> u8
    ensures { result ≡ status_after answer }
{
    if output.is_closed() {
        return status_after(&answer);
    }
    let status = conclude(answer, errors);
    match answer {
        Ok(true) => {}
        Ok(false) => print_missing(alloc, context.order, errors),
        Err(fault) => print_more(alloc, context, fault, errors),
    }
    status
}

// Prints a text that contains words of the command line. A terminal gets only printable characters.
fn tell<E: Sink>(alloc: Global, text: &str, at_terminal: bool, errors: &mut E) {
    if !at_terminal {
        let _untold = put(errors, text.as_bytes());
    } else if let Ok(text) = for_terminal(alloc, text) {
        let _untold = put(errors, text.as_bytes());
    }
}

// Prints clap's message about the words: help through the runtime, and a fault in a form that shows
// the words safely.
fn print_words<R, E>(rt: &R, error: &Error, at_terminal: bool, errors: &mut E)
where
    R: AllocGlobal + Print + Eprint,
    E: Sink,
{
    let alloc = rt.alloc();
    if !at_terminal || !error.use_stderr() {
        let _untold = error.print(rt);
    } else if let Ok(text) = format!(in alloc; "{error}") {
        tell(alloc, text.as_str(), at_terminal, errors);
    }
}

// Carries out the words of a command line, prints a fault, and returns the exit status.
fn perform<R, T, S, O, E>(
    rt: &R,
    words: &[T],
    at_terminal: bool,
    source: &mut TeeSource<S>,
    output: &mut Output<O>,
    errors: &mut E,
) -> ExitCode
where
    R: AllocGlobal + Print + Eprint,
    T: AsStr,
    S: Source,
    O: Write,
    E: Sink,
    requires source_clean { S.has_failed source.old.source ≡ false }
    requires sink_clean { output.old.failed ≡ false }

    // The status is that of the order in the words, or of their fault, as `run_command_line`
    // returns it.
    ensures ended { Ends (map T.text words.entry.now)
        (streams_of (S.left source.old.source) (S.has_failed source.old.source) (O.contents output.old.writer) output.old.failed)
        (exit_status result)
        (streams_of (S.left source.new.source) (S.has_failed source.new.source) (O.contents output.new.writer) output.new.failed) }
{
    let alloc = rt.alloc();
    let request = match request(alloc, words) {
        Ok(request) => request,
        Err(error) => {
            print_words(rt, &error, at_terminal, errors);
            return ExitCode::from(error.exit_code() as u8);
        }
    };
    let answer = carry_out(alloc, request.order, request.word, source, output);
    let context = Context {
        order: request.order,
        kept: &source.kept,
    };
    ExitCode::from(finish(alloc, &context, answer, output, errors))
}

// Whether this invocation reads input.
fn reads(asked: Option<Invocation<'_>>) -> bool {
    asked.is_some_and(|request| request.order != Order::Explain)
}

// Whether this invocation plays a script.
fn reads_script(asked: Option<Invocation<'_>>) -> bool {
    asked.is_some_and(|request| plays(request.order))
}

// Whether this invocation writes bytes that a terminal may act on.
fn writes_bytes(asked: Option<Invocation<'_>>) -> bool {
    asked.is_some_and(|request| {
        matches!(
            request.order,
            Order::Follow {
                bytes: Some(_),
                raw: false,
                ..
            }
        )
    })
}

// The file that is named, if one is to be read.
fn file_in(asked: Option<Invocation<'_>>) -> Option<&str> {
    if !reads(asked) {
        return None;
    }
    asked?.word.filter(|word| *word != STANDARD)
}

// Opens a file, or prints the reason why that fails.
fn open<R, E>(rt: &R, path: &str, at_terminal: bool, errors: &mut E) -> Option<R::File>
where
    R: AllocGlobal + Files,
    E: Sink,
{
    match File::open(rt, path) {
        Ok(file) => Some(file),
        Err(error) => {
            if let Ok(text) = format!(in rt.alloc(); "ncp: cannot open {path}: {error}\n") {
                tell(rt.alloc(), text.as_str(), at_terminal, errors);
            }
            None
        }
    }
}

// The input: the named file, if it can be opened, or standard input. If that is a terminal,
// standard error has a notice.
fn origin_of<R, I, E>(
    rt: &R,
    asked: Option<Invocation<'_>>,
    input: I,
    at_terminal: bool,
    errors: &mut E,
) -> Option<Origin<I, R::File>>
where
    R: AllocGlobal + Files,
    I: IsTerminal + Drop,
    E: Sink,
{
    if let Some(path) = file_in(asked) {
        return Some(Origin::Named(open(rt, path, at_terminal, errors)?));
    }
    if input.is_terminal() && reads(asked) {
        let _untold = put(errors, NOTICE);
    }
    Some(Origin::Standard(input))
}

// Carries out words on their input, and returns the exit status.
fn run_words<R, I, O, E>(
    rt: &R,
    words: &[String],
    terminals: Terminals,
    input: I,
    output: &mut Output<O>,
    errors: &mut E,
) -> ExitCode
where
    R: AllocGlobal + Files + Print + Eprint,
    I: Read + IsTerminal + Drop,
    O: Write,
    E: Sink,
    requires clean { output.old.failed ≡ false }
    ensures { exit_status result ≤ 2 }
{
    let alloc = rt.alloc();
    let asked = request(alloc, words).ok();
    if terminals.output && writes_bytes(asked) {
        let _untold = put(errors, REFUSED);
        return ExitCode::from(FAULT);
    }
    let Some(origin) = origin_of(rt, asked, input, terminals.errors, errors) else {
        return ExitCode::from(FAULT);
    };
    let mut source = TeeSource {
        source: FromRead::new(origin),
        kept: InputTail::new(alloc, reads_script(asked)),
    };
    perform(rt, words, terminals.errors, &mut source, output, errors)
}

/// Carries out the words of the command line on their input: the file that they name, or standard
/// input. Returns the exit status.
///
/// - A file that cannot be opened is reported, and the status is 2.
/// - If the input is a terminal, standard error has a notice.
/// - The line of a fault is followed by an explanation.
/// - If the reader of the output is gone, the program ends silently.
/// - A terminal gets only printable ASCII from the words of the command line, names of files, and
///   peers. It gets a text as bytes only if that is asked for (`--raw`), else the status is 2.
pub fn run<R, I, O, E>(rt: &R, input: I, output: O, errors: E) -> ExitCode
where
    R: Env + AllocGlobal + Files + Print + Eprint,
    I: Read + IsTerminal + Drop,
    O: Write + IsTerminal + Drop,
    E: Write + IsTerminal + Drop,
    ensures { exit_status result ≤ 2 }
{
    let terminals = Terminals {
        output: output.is_terminal(),
        errors: errors.is_terminal(),
    };
    let mut output = Output::new(output);
    let mut errors = ToWrite::new(errors);
    match words_in(rt) {
        Ok(words) => run_words(
            rt,
            words.as_slice(),
            terminals,
            input,
            &mut output,
            &mut errors,
        ),
        Err(error) => {
            let _untold = eprintln!(rt; "ncp: {error}");
            ExitCode::from(FAULT)
        }
    }
}

//! Stored runs of the program `ncp`: runs without further words, and each subcommand with a closed
//! input and a closed output, over bytes in memory. They are followed by a worked use of the
//! players and one of two hosts. Then the program itself plays the script that its command line
//! names, and exits with its status.
#![tactic(auto)]

mod letter;
mod runs;
mod worked;

use anyhow::Result;
use letter::print_letter;
use ncp_play_program::{run, run_command_line};
use ncp_player::{MemorySink, MemorySource};
use runs::{EACH, RUNS};
use std::process::ExitCode;
use worked::use_players;

/// Room for the output of a run, and for its standard error.
const ROOM: usize = 4096;

/// The status if a run could not be printed. No run has it.
const UNPRINTED: u8 = 3;

// Whether bytes are complete lines of printable text, or empty.
fn are_lines(bytes: &[u8]) -> bool {
    let is_printable = bytes.iter().all(|byte| byte.is_ascii_graphic()
        || *byte == b' '
        || *byte == b'\n');
    is_printable && (bytes.is_empty() || bytes.ends_with(b"\n"))
}

// Prints bytes: lines unchanged, other bytes as one line of hexadecimal.
fn print_bytes(rt: &HostRuntime, bytes: &[u8]) -> Result<()> {
    if are_lines(bytes) {
        print!(rt; "{}", String::from_utf8_lossy(rt.alloc(), bytes)?)?;
        return Ok(());
    }
    for byte in bytes {
        print!(rt; "{byte:02x}")?;
    }
    println!(rt)?;
    Ok(())
}

// Prints the words of a run, its output, its standard error, and its status.
fn print_end(
    rt: &HostRuntime,
    words: &[&str],
    written: &[u8],
    told: &[u8],
    status: u8,
) -> Result<()> {
    println!(rt; "{}", words.join(rt.alloc(), " ")?)?;
    print_bytes(rt, written)?;
    print_bytes(rt, told)?;
    println!(rt; "status {status}")?;
    Ok(())
}

// Performs a run whose n-th read or write may fail, and prints its end.
fn print_run(
    rt: &HostRuntime,
    words: &[&str],
    input: &[u8],
    failing_read: Option<u32>,
    failing_write: Option<u32>,
) -> Result<()> {
    let mut source = MemorySource::new(input, failing_read);
    let mut sink = MemorySink::new(rt.alloc(), ROOM, failing_write)?;
    let mut errors = MemorySink::new(rt.alloc(), ROOM, None)?;
    let status = run_command_line(rt, words, &mut source, &mut sink, &mut errors);
    print_end(rt, words, sink.bytes(), errors.bytes(), status)
}

// Prints all runs, each subcommand with a closed input and with a closed output, and the worked
// uses.
fn print_all(rt: &HostRuntime) -> Result<()> {
    for (words, input) in RUNS {
        print_run(rt, words, input, None, None)?;
    }
    println!(rt; "with a closed input")?;
    for (words, input) in EACH {
        print_run(rt, words, input, Some(1), None)?;
    }
    println!(rt; "with a closed output")?;
    for (words, input) in EACH {
        print_run(rt, words, input, None, Some(1))?;
    }
    println!(rt; "the players")?;
    use_players(rt)?;
    println!(rt; "a letter")?;
    print_letter(rt)?;
    println!(rt; "by itself")?;
    Ok(())
}

fn main(rt: HostRuntime) -> ExitCode {
    if print_all(&rt).is_err() {
        return ExitCode::from(UNPRINTED);
    }
    run(&rt, rt.stdin(), rt.stdout(), rt.stderr())
}

//! Plays files of cases with the program's library: the words of a command line, an input, and the
//! program's expected output. `examples/cases` plays the same files with a built program, and
//! describes how a case is written.
//!
//! The command line names the files, which are in `data/`. Prints a line for each file, and the
//! differences of each case that has any. The status is 1 if a case differs, and 2 if a file cannot
//! be read as cases.
#![tactic(auto)]

mod cases;
mod differences;
mod hexadecimal;
mod playing;
#[cfg(test)]
mod tests;

use anyhow::Result;
use cases::{Case, cases_in};
use differences::print_differences;
use playing::play;
use std::process::ExitCode;
use std::{env, fs};

/// The status if a case differs.
const DIFFERS: u8 = 1;

/// The status if a file cannot be read as cases, or its line cannot be printed.
const FAULT: u8 = 2;

// Plays cases, prints their differences, and returns whether there are none.
fn play_all(rt: &HostRuntime, cases: &[Case<'_>]) -> Result<bool> {
    let mut are_same = true;
    for case in cases {
        let ended = play(rt, case)?;
        are_same &= print_differences(rt, case, &ended)?;
    }
    Ok(are_same)
}

// Plays the cases of a file, and returns whether none differs.
fn play_file(rt: &HostRuntime, path: &str) -> Result<bool> {
    let text = fs::read_to_string(rt, path)?;
    let cases = cases_in(rt.alloc(), text.as_str())?;
    println!(rt; "{} cases of {path}", cases.len())?;
    play_all(rt, cases.as_slice())
}

// Plays each file that the command line names. A file that cannot be read is reported, and the
// others are played.
fn play_files(rt: &HostRuntime) -> Result<u8> {
    let paths = env::args(rt)?.collect::<Vec<String>>(rt.alloc())?;
    let mut status = 0;
    for path in paths.iter().skip(1) {
        match play_file(rt, path.as_str()) {
            Ok(true) => {}
            Ok(false) => status = status.max(DIFFERS),
            Err(error) => {
                println!(rt; "{path}: {error}")?;
                status = FAULT;
            }
        }
    }
    Ok(status)
}

fn main(rt: HostRuntime) -> ExitCode {
    ExitCode::from(play_files(&rt).unwrap_or(FAULT))
}

//! The program `ncp`, which reads message files and scripts of an ARPANET host from a named file or
//! from standard input.
//!
//! - *Use:* `./ncp show examples/first.ncp`; `ncp --help` lists the subcommands.
//! - *Proved:* everything in `ncp_play_program` (`run`); this crate is only `main`.
//! - *Tests:* `examples/compare`, and the stored runs `ncp_test_program`.
#![tactic(auto)]

use ncp_play_program::run;
use std::process::ExitCode;

fn main(rt: HostRuntime) -> ExitCode {
    run(&rt, rt.stdin(), rt.stdout(), rt.stderr())
}

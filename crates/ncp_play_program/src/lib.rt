//! The program `ncp`: it carries out its command line on message files and scripts of ARPANET
//! hosts, read from a named file or from standard input. It is a library so that more than one run
//! of the program can be stored: each is a crate with a thin `main`.
//!
//! - *Use:* `ncp` is a `main` that calls `run`; `ncp_test_program` carries out command lines with
//!   `run_command_line`, over bytes in memory.
//! - *Proved:* each subcommand satisfies the contract of its part, with its status, and no failure
//!   is hidden (`run_command_line`, clauses `obeyed`, `read_failed` and `write_failed`;
//!   `specs/Orders.antt`).
//! - *Tests:* the cases of `ncp_test_cases`, and the stored runs `ncp_test_program`.
#![tactic(auto)]

pub mod examples;
mod input_tail;
mod origin;
mod output;
mod program;
mod put;
mod running;
mod tee_source;
mod telling;
mod terminal;

pub use ncp_play_command_line::{Order, Report, order};
pub use output::Output;
pub use program::{run_command_line, status};
pub use running::run;

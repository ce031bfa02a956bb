//! The lines of a script, read from a source: each line, or the next that is not skipped, with its
//! number.
//!
//! - *Use:* `ncp_play_simulation/src/next_event.rt` reads the next line this way.
//! - *Proved:* the line, its number and the remaining input are those of the bytes (`next_line` and
//!   `next_played`, clause `output`).
//! - *Tests:* `script/reading` and `script/lines` of `ncp_test_play`.
#![tactic(auto)]

mod letting_out;
mod lines;
mod reading;
mod script;

pub use letting_out::flush_before_line;
pub use lines::{Lines, NextLine, next_played};
pub use reading::next_line;
pub use script::Script;

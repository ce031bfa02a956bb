//! Message files of both versions: printing their lines, checking whether they are sound, counting
//! their messages, and converting one version to the other.
//!
//! ```text
//! show(&mut source, &mut sink)?;                               // a line for each record, and detail lines
//! let is_sound = check(&mut source, &mut sink)?;
//! count(&mut source, &mut sink)?;                              // a line for each kind of message and command
//! convert(&mut source, &mut sink, 1)?;                         // version 1 as version 2, at host 1
//! ```
//!
//! - *Proved:* the output is a function of the input (clause `output` of each; the lines are
//!   `specs/Lines.antt`), up to the first fault, which is the first that applies. Bytes have one
//!   reading (`laws::files_have_one_reading`), and written records are read back
//!   (`written_files_are_read`).
//! - *Tests:* the cases `show_*` and `convert` of `ncp_test_cases`; `failures` and `breaks` of
//!   `ncp_test_files`; `examples/` byte for byte.
#![tactic(auto)]

mod checking;
mod command_words;
mod control;
mod converting;
mod counting;
mod detail;
pub mod examples;
mod file;
pub mod laws;
mod letting_out;
mod line;
mod pass;
mod passing;
mod record;
mod showing;
mod tally;
mod version;
mod writing;

pub use checking::check;
pub use command_words::{MAX_COMMAND_LEN, push_command, push_error};
pub use converting::convert;
pub use counting::count;
pub use detail::{push_item, push_text_word, render_details};
pub use file::{Direction, FileFault, read_header, read_record};
pub use letting_out::flush_before_wait;
pub use line::MAX_LINE_LEN;
pub use pass::{FileEnd, Pass};
pub use passing::pass_through;
pub use showing::show;
pub use version::{CapturePoint, HEADER, Version, read_next, read_version};
pub use writing::{push_header, render_message};

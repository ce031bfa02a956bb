//! `follow`: the text of each connection of a message file of version 2, line by line;
//! `follow_text`: the text of one, as bytes.
//!
//! - *Use:* `ncp follow --letters examples/capture.ncp`; for the text of the first connection as
//!   bytes, `ncp follow --bytes 1 examples/capture.ncp`.
//! - *Proved:* the lines are those of the connections in the records, up to the first fault of the
//!   file, with letters only if asked for; the bytes are those of the text, and the result is
//!   whether there is such a connection (`follow` and `follow_text`, clause `output`). A word after
//!   `by=` has the meaning in its table (`end_meaning`), and only one (`each_end_has_one_meaning`).
//! - *Tests:* the cases `follow_*` of `ncp_test_cases`; a long text in `follows` of
//!   `ncp_test_files`.
#![tactic(auto)]

mod connection_line;
mod ends;
mod following;
mod letters;
mod stray_line;
mod text;
mod words;

pub use connection_line::MAX_CONNECTION_LEN;
pub use ends::{ENDS, each_end_has_one_meaning, end_meaning};
pub use following::follow;
pub use text::follow_text;

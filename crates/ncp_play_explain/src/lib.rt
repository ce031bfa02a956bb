//! The meanings of faults, refusals and words of lines, and the mistakes in a script, in words for
//! its author. A fault itself is found elsewhere and only explained here, so nothing depends on it.
//!
//! - *Use:* `meaning("BadLine")` is what `ncp explain BadLine` prints; `wrong_line` explains what
//!   is wrong with a line.
//! - *Proved:* the suggested word is the nearest of the known ones, and none is suggested only if
//!   none is near (`nearest`, clauses `found` and `none`). A name and a word of a line have the
//!   meaning in their table (`meaning`, `word_meaning`), and only one
//!   (`laws::each_name_has_one_meaning`, `laws::each_word_has_one_meaning`). Also proved: the
//!   spelling of a byte (`in_signs`); the words of scripts (`verbs`); and each explanation of a
//!   header (`wrong_header`), of a first line (`wrong_first_line`), and of a line after a first line
//!   that is text (`wrong_line`), with the arguments that each verb has in each kind of script.
//! - *Tests:* `mistakes` of `ncp_test_play`; in `laws` words that are near, and words that are not,
//!   and first lines with `many`.
#![tactic(auto)]

mod arguments;
mod first_line;
mod header;
pub mod laws;
mod line;
mod message_words;
mod names;
mod near;
mod printed;
mod report_words;
mod script_words;
mod showing;
mod spelling;
mod usage;
mod words;

pub use first_line::wrong_first_line;
pub use header::wrong_header;
pub use line::wrong_line;
pub use message_words::MESSAGE_WORDS;
pub use names::{Meaning, NAMES, meaning, text_beside};
pub use near::nearest;
pub use printed::word_meaning;
pub use report_words::REPORT_WORDS;
pub use script_words::SCRIPT_WORDS;
pub use showing::{MAX_SPELLED_LEN, Signs, in_signs};
pub use usage::{Player, verbs};

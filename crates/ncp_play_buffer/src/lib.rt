//! `InBuffer`, which reads ahead from a source, `OutBuffer`, which collects lines for a sink, and
//! `Counter`, which numbers lines.
//!
//! `BufferedSink` and `BufferedSource` pair a buffer with its sink or source. They are borrowed by
//! the functions that render lines and read records.
//!
//! - *Use:* `ncp_play_audit/src/finding_line.rt`: `make_room` for a line, then `push_..` its words.
//! - *Proved:* an out buffer holds the pushed bytes, and is written first if more do not fit
//!   (`OutBuffer::make_room`, clauses `ok` and `room`); an in buffer holds the bytes read and not
//!   yet consumed (`InBuffer::need`, clauses `moved` and `there`).
//! - *Tests:* `said` of `ncp_test_play`, and the files of `ncp_test_files`.
#![tactic(auto)]

mod buffered_sink;
mod buffered_source;
mod counter;
mod field;
mod hex;
mod in_buffer;
mod out_buffer;

pub use buffered_sink::BufferedSink;
pub use buffered_source::BufferedSource;
pub use counter::Counter;
pub use field::push_field;
pub use in_buffer::{InBuffer, WINDOW_SIZE};
pub use out_buffer::{BLOCK, MAX_LONG_LEN, MAX_NUMBER_LEN, OutBuffer, PAGE_SIZE};

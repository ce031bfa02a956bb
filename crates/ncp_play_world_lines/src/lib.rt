//! Scripts of two hosts, or of two to eight, line by line and without a world: the event of a line,
//! the lines printed for a note, and its record.
//!
//! - *Use:* `ncp_play_world/src/two.rt` and `many.rt` read lines with `world_line` and `many_line`,
//!   and write notes with `render_world_note` and `render_many_note`; `is_settle` and
//!   `render_settled` are for the word `settle` of both.
//! - *Proved:* a line has the event of the definition, and a note has its lines or its record
//!   (clauses `event`, `output`).
//! - *Tests:* worked lines in `examples` and `laws`; whole scripts in `world` of `ncp_test_play`.
#![tactic(auto)]

pub mod examples;
mod first_line;
pub mod laws;
mod many_lines;
mod many_notes;
mod move_line;
mod moves;
mod recording;
mod settling;
mod world_lines;
mod world_notes;

pub use first_line::{FirstLine, HostAndPeer, Watch, first_line_of, watch_of_host};
pub use many_lines::many_line;
pub use many_notes::render_many_note;
pub use recording::{render_many_record, render_world_record};
pub use settling::{Directive, ScriptNote, is_settle, render_settled};
pub use world_lines::world_line;
pub use world_notes::render_world_note;

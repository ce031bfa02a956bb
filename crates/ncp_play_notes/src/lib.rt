//! The part that all players of scripts share: applying one input, rendering its note, and the
//! faults that end a script.
//!
//! `note_lines.rt` renders a note's line, `results.rt` the result of its call, and `arrived.rt` the
//! outcome of received bits. `ncp_play_world_lines` renders the lines of a subnet.
//!
//! - *Use:* `ncp_play_host` and `ncp_play_feed` play inputs by `play_input`; `ncp_play_world_lines`
//!   writes notes of hosts by `render_note`.
//! - *Proved:* the rendered lines are those that `NoteLines.antt` defines for the note
//!   (`render_note`, clause `output`); a fault's number and name are those of `Faults.antt`.
//! - *Tests:* `lines`, `said` and `faults` of `ncp_test_play`; worked lines in `laws`.
#![tactic(auto)]

mod arrived;
mod fault;
mod heading;
pub mod laws;
mod naming;
mod note_lines;
mod playing;
mod results;

pub use arrived::{MAX_RECEIVED_LEN, push_received};
pub use fault::PlayFault;
pub use heading::{LineHost, LinePrefix, MAX_FRONT_LEN, push_front};
pub use note_lines::render_note;
pub use playing::play_input;

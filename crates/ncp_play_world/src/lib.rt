//! Scripts of two hosts, or of two to eight, and a subnet. The player prints the lines of their
//! notes, or records their messages as a message file of version 2. The word `settle` performs all
//! events that are possible without a call.
//!
//! ```text
//! let is_good = play_world::<PackedStore, _, _>(alloc, &mut source, &mut sink)?;    // false if a call was refused
//! record_world::<PackedStore, _, _>(alloc, &mut source, &mut sink)?;               // its messages, as a file
//! ```
//!
//! - *Proved:* the output is the rendering of a transcript of the script's events (`play_world`,
//!   clauses `output` and `many`), so all laws of transcripts hold for the printed lines.
//! - *Tests:* `world` of `ncp_test_play`; worked lines in `laws`.
#![tactic(auto)]

pub mod examples;
pub mod laws;
mod ledger_lines;
mod log;
mod many;
mod many_hosts;
mod marks;
mod note_lines;
mod player;
pub mod recorded_laws;
mod recorder;
mod scripted;
mod two;

pub use log::{Log, ManyLog, WorldLog};
pub use many::ManyHostScript;
pub use many_hosts::ManyHosts;
pub use ncp_play_world_lines::{Directive, FirstLine, HostAndPeer, ScriptNote, Watch};
pub use note_lines::NoteLines;
pub use player::{play_script, play_world};
pub use recorder::record_world;
pub use scripted::{HostsScript, Scripted};
pub use two::TwoHostScript;

//! The player of scripts, for any number of hosts: it reads a line, performs the line's event, and
//! writes the rendering of each note that the event leaves.
//!
//! - *Use:* `ncp_play_world` has a `Simulation` of two hosts, one of many, and two `Renderer`s:
//!   lines, and a recording.
//! - *Proved:* for any `Simulation`, the events are those of the script's bytes, and exactly the
//!   `Renderer`'s rendering of the notes is written (`play_first`, clause `output`).
//! - *Tests:* `world` of `ncp_test_play`.
#![tactic(auto)]

mod first_line;
mod next_event;
mod player;
mod playing;
mod renderer;
mod simulation;

pub use first_line::find_first;
pub use player::play_first;
pub use renderer::Renderer;
pub use simulation::Simulation;

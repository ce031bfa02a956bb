//! The player of a script of one host.
//!
//! ```text
//! let is_good = play_host::<PackedStore, _, _>(alloc, &mut source, &mut sink)?;    // false if a call was refused
//! ```
//!
//! - *Proved:* the lines written are those of the notes of a host to which the script's inputs were
//!   applied (`play_host`, clause `output`), and no failed read or write is hidden.
//!   Those of a restart of the IMP are Incomplete Transmissions, and leave the host as
//!   `Host::restart` does (`laws`).
//! - *Tests:* `scripts`, `limits` and `refused` of `ncp_test_play`.
#![tactic(auto)]

mod asking;
mod beginning;
mod events;
pub mod laws;
mod lines;
mod playing;
mod restarting;

pub use playing::play_host;

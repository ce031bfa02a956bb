//! Two to eight hosts and the subnet between them: events, transcripts, and theorems about all such
//! transcripts. Each theorem is the contract of a lemma.
//!
//! - *Use:* `Many` of `ncp_world` performs a `ManyEvent` and records a `ManyNote`. This crate
//!   defines no rule of its own: a note among many is that of the two hosts its event names.
//! - *Proved:* the notes that name both hosts of a pair are a transcript of two hosts
//!   (`each_pair::each_pair_is_a_world_of_two`), so the headline holds for each pair
//!   (`the_headline_of_each_pair`).
//! - *Tests:* worked notes of three hosts in `examples`; `many` of `ncp_test_world`.
#![tactic(auto)]

pub mod each_pair;
pub mod events;
pub mod examples;
mod limits;
mod many_event;
mod many_note;
pub mod taking;
pub mod transcripts;

pub use limits::MAX_HOSTS;
pub use many_event::ManyEvent;
pub use many_note::{MANY_NOTE_BYTES, ManyNote};

//! Two hosts and the subnet between them: events, their notes, and the definition of a transcript;
//! and theorems about all transcripts. The hosts that perform the events are in `ncp_world`.
//!
//! - *Use:* `ncp_world` performs an `Event` and records a `Note`. `IsTranscript`
//!   (`specs/Transcript.antt`) defines a transcript; `specs/Honest.antt` defines an honest subnet
//!   from the notes alone.
//! - *Proved:* each transcript is a run of the model's two hosts
//!   (`transcripts::transcripts_are_of_the_model`), so it has the properties proved for them
//!   (`transcripts_keep_the_headline`); the subnet is honest (`transcripts_are_honest`). The
//!   statement for users is in `ncp_statement`.
//! - *Tests:* worked notes in `examples`, which a wrong definition falsifies; `ncp_test_world`
//!   plays worlds.
#![tactic(auto)]

pub mod arrivals;
mod event;
pub mod examples;
pub mod laws;
mod ledger;
mod note;
mod side;
pub mod transcripts;

pub use event::Event;
pub use ledger::Ledger;
pub use note::{Move, NOTE_BYTES, Note};
pub use side::Side;

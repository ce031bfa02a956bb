//! The promises of two hosts to each other, read off their transcript: theorems only, above those
//! of the world and of the model's two hosts.
//!
//! - *Use:* the statement about notes alone (`ncp_proof_statement`) is proved from it;
//!   `World::step` has `EveryOutputAccepted` as its clause `taken`.
//! - *Proved:* each phrase of the headline that concerns the hosts (`headline::the_headline`; the
//!   phrases are in `specs/Promised.antt`), and that the notes of each host determine its state
//!   (`each_host_is_what_its_notes_say`).
//! - *Tests:* `examples`: each phrase admits right cases and refuses wrong ones.
#![tactic(auto)]

pub mod examples;
pub mod headline;
pub mod promises;
pub mod taking;

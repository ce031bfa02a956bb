//! Theorems about every run of one host. Each is the contract of a lemma. They are about lists of
//! notes alone, and in `transcripts` about a host with its notes.
//!
//! - *Use:* `transcripts` states them for an `Alone`; `ncp_proof_promises` for each of two hosts.
//! - *Proved:* the notes determine the state of a host: flags, commands in order, records, echo and
//!   counts (`transcripts::a_host_is_what_its_notes_say`, `commands`, `echoes`); text got is taken
//!   or held (`histories`); peers are independent (`peers`).
//! - *Tests:* worked runs next to each theorem, as `commands::commands_are_made_struck_and_sent`.
#![tactic(auto)]

pub mod commands;
pub mod echoes;
pub mod histories;
pub mod links;
pub mod marks;
pub mod peers;
pub mod transcripts;

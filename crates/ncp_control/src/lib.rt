//! Control texts: a sequence of commands and the first fault, if there is one (NIC 8246).
//!
//! In the contracts, a control text is the list of its commands, followed by at most one fault.
//!
//! ```text
//! for item in Commands::new(text.whole()) {                    // a text of whole bytes, not copied
//!     match item {
//!         Ok(command) => ..
//!         Err(fault) => ..                                     // the last item, at most once
//!     }
//! }
//! ```
//!
//! - *Proved:* the commands are the longest list whose joined spellings are a prefix of the text,
//!   and the fault is that of the rest (`Commands::new`, clauses `items` and `reads`); each text
//!   has one reading (`laws::texts_have_one_reading`).
//! - *Tests:* `control` of `ncp_test_host`.
#![tactic(auto)]

mod commands;
mod finding;
mod front;
pub mod laws;

pub use commands::Commands;
pub use finding::find_fault;
pub use ncp_wire::{Command, CommandFault, put_command};

//! Reading and writing leaders and regular messages.
//!
//! A leader is the first 32 bits of every message (BBN Report 1822, section 3). A regular message
//! is a leader of any type, a prefix with the byte size and the byte count, and a text of that many
//! bytes (NIC 8246, message form).
//!
//! ```text
//! let leader = Leader { flags: 0, kind: REGULAR, host: 2, link: 2, low: 0 };
//! let message = put_regular(&leader, 8, text.whole())?;        // 72 bits, and the text in bytes of 8 bits
//! read_regular(&message)?.text();                              // the same text, regardless of padding
//! ```
//!
//! - *Proved:* reading returns a message exactly when the bits start with its encoding
//!   (`read_regular`, clauses `exact`, `found` and `only`); reading what was written returns the
//!   same (`laws::written_is_read`); faults are checked in the order of `MessageFault`
//!   (`laws::message_faults_are_in_order`).
//! - *Tests:* `leader` of `ncp_test_host`.
#![tactic(auto)]

pub mod equality;
mod fault;
mod kinds;
pub mod laws;
mod leader;
mod regular;

pub use fault::MessageFault;
pub use kinds::{DESTINATION_DEAD, INCOMPLETE, REGULAR, RFNM};
pub use leader::{
    LEADER_BITS, Leader, MAX_FLAGS, MAX_KIND, Short, put_leader, read_leader, read_leader_in,
};
pub use regular::{
    FRONT_BITS, MAX_MADE_BITS, MAX_TEXT_BITS, Regular, put_front, put_regular, read_regular,
    read_regular_in,
};

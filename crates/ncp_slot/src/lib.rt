//! The slots of a host's links to one peer: each keeps the message of its link until the subnet
//! acknowledges it (RFNM).
//!
//! [`Slots::put`] makes a message ready, [`Slots::hand`] hands it out to be sent, and
//! [`Slots::answer`] takes the subnet's answer: after Ready For Next Message the slot is empty;
//! after Incomplete Transmission the same message is ready again; after Destination Dead it is
//! held, until [`Slots::wake`] makes it ready.
//!
//! In the contracts, slots are a map from links to slots, and a slot is empty, ready, travelling or
//! held, with its message as a list of bits.
//!
//! ```text
//! slots.put(2, &message)?;                                     // ready on link 2
//! slots.hand(2);                                               // Some: it travels
//! slots.answer(2, Answer::Incomplete)?;                        // ready again
//! slots.hand(2);                                               // Some: the same message
//! slots.answer(2, Answer::Rfnm)?;                              // the slot is empty
//! ```
//!
//! - *Proved:* over any list of events exactly one answer is accepted between consecutive messages
//!   handed out on a link, and the message handed out after Incomplete Transmission is the same one
//!   (`laws::run_link`, clauses `between` and `again`). Only `Slots::new`, `Slots::copy` and
//!   `run_link` allocate.
//! - *Tests:* `slot` of `ncp_test_host`; allocation failure in its `refused`.
#![tactic(auto)]

pub mod laws;
mod place;
mod slot;
mod slots;

pub use ncp_wire::Answer;
pub use slot::{Busy, Slot, Stray};
pub use slots::{SLOTS, Slots, has_slot};

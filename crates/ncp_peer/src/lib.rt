//! The state of a host for one peer: the association (phase, connections, echo), the messages on
//! the links, and the counts. It handles what is received from the peer, and produces what is sent
//! to it.
//!
//! `peer` has the calls with the links and counts; `association` has the phase, the table and the
//! echoes. The rules that they cite are in `ncp_model`. A received text is admitted in `ncp_conn`,
//! by the endpoint that its link identifies.
//!
//! - *Proved:* each call does what the rules say, and a refusal changes nothing (`err`). The state
//!   of a loaded peer is sound, and is that which was saved.
//! - *Tests:* `host` of `ncp_test_host`.
#![tactic(auto)]

mod association;
mod counts;
mod peer;
mod reading;
mod received;
mod sending;

pub use counts::{Counts, one_more};
pub use peer::{Peer, answer_of};
pub use reading::read_peer;
pub use received::Received;

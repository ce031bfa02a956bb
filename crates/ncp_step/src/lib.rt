//! One event at a host, and at the subnet if a message is sent or delivered, with its note. Worlds
//! of two hosts and of many share this; they choose the host.
//!
//! - *Use:* `Sides` and `Network` of `ncp_world` look up the host, and pass it on to `calls`,
//!   `sends`, `comes` or `answers`.
//! - *Proved:* the note is correct by the rules at the state before, and the host and the subnet
//!   are in the state after it (clauses `note`, `host`, `subnet`). On allocation failure all is
//!   unchanged (`err`, `kept`).
//! - *Tests:* `states` of `ncp_test_world`: each event of a message, in each state.
#![tactic(auto)]

mod fitting;
mod steps;

pub use steps::{answers, calls, comes, new_host, sends};

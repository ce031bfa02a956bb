//! What a host and a subnet return, as numbers and structs of numbers, for callers in other
//! languages.
//!
//! - *Use:* `ncp_embed`, the functions for C, and `ncp_test_digest`.
//! - *Proved:* each number and each field (`laws`).
//! - *Tests:* `include/compare` compares the structs and the numbers with `include/ncp.h`.
#![tactic(auto)]

mod changes;
mod codes;
mod commands;
mod connection;
pub mod laws;
mod lookups;
mod names;
mod returned;
mod unacknowledged;

pub use changes::{Changes, changes_between, no_connection, reading_of, seen_of};
pub use codes::{
    BITS, DONE, LOAD, LONGEST_MESSAGE, NEW, NO_HOST, NO_POINTER, NO_SUBNET, NOTHING, SHORT_BUFFER,
    SUBNET, bits_code, code_of, fault_code, host_code, load_code, subnet_code,
};
pub use commands::command_in;
pub use connection::{ConnectionInfo, connection_of};
pub use lookups::{error_in, receive};
pub use names::ResultCode;
pub use returned::{
    Arrived, ErrCommand, IgnoredCounts, PeerCounts, PeerFlags, counted_of, discarded_of, noted_of,
    phase_of,
};
pub use unacknowledged::{Unacknowledged, unacknowledged_to};

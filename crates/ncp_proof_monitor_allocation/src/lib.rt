//! The connections, echoes and allocation between two hosts, as observed at one host's interface,
//! next to that host's own state. What the host stores of a connection is what was observed of it,
//! followed by what is queued, and its numbers are those that it counts. Commands of either side
//! preserve this. The pending replies are in `ncp_proof_monitor_replies`.
//!
//! - *Use:* that no host is reported at its own interface relies on it (`ncp_proof_monitor_host`).
//! - *Proved:* the laws of `waiting` and `errors`, and lemmas for the crates above.
//! - *Tests:* the findings about wrong hosts are in the cases `audit_*` of `ncp_test_cases`.
#![tactic(auto)]

pub mod errors;
pub mod waiting;

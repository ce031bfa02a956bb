//! The pending replies between two hosts, as observed at one host's interface, match that host's
//! queue through everything that it sends and receives: each mandatory one is queued, and each
//! queued one is pending. The numbers of its connections are those that it counts
//! (`ncp_proof_monitor_allocation`).
//!
//! - *Use:* that no host is reported at its own interface relies on it (`ncp_proof_monitor_host`).
//! - *Proved:* the law of `owing`, and lemmas for the crates above.
//! - *Tests:* the findings about wrong hosts are in the cases `audit_*` of `ncp_test_cases`.
#![tactic(auto)]

pub mod owing;

//! The tables of `follow`, record by record, next to those of the monitor: if no rule is broken,
//! `follow` has the same connections, with at least as much of each allocation left. This holds for
//! any file, regardless of hosts and subnet.
//!
//! - *Use:* what `follow` reports of the file of two hosts relies on it (`ncp_proof_follow`).
//! - *Proved:* the laws of `texts`: the text reported of a connection, and that a record adds to it
//!   only at its own interface; and lemmas for the crate above.
//! - *Tests:* the reports of recordings are in the cases `follow_*` of `ncp_test_cases`.
#![tactic(auto)]

pub mod texts;

//! No false alarm by any rule: for any calls of a host and any received bits, an audit of
//! everything that passes its interface reports no violation by the host. This covers the rules of
//! messages and the phase, those of requests, CLS, replies, ERR and echo, and those of allocation.
//! The law is the contract of a lemma.
//!
//! - *Use:* what `ncp audit` reports against a host relies on it.
//! - *Proved:* the law of `flow`, for all rules, in any file.
//! - *Tests:* the findings about wrong hosts are in the cases `audit_*` of `ncp_test_cases`.
#![tactic(auto)]

pub mod flow;

//! No false alarm by any rule in the file of two to eight hosts: an audit of the records of all
//! interfaces, with the subnet between the hosts, reports nothing. This covers the rules of
//! messages and the phase, those of requests, CLS, replies, ERR and echo, and those of allocation
//! and texts. Each law is the contract of a lemma.
//!
//! - *Use:* what `ncp audit` reports of a file that `ncp record` wrote relies on it.
//! - *Proved:* the laws of `two` and of `many`: no rule at all is reported at any interface,
//!   against a host or the subnet. That of `owing`: both hosts' views of the flow between them agree
//!   once everything in flight has arrived, in any order of sending.
//! - *Tests:* the findings about wrong hosts and a wrong subnet are in the cases `audit_*` of
//!   `ncp_test_cases`.
#![tactic(auto)]

pub mod many;
pub mod owing;
pub mod two;

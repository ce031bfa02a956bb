//! No false alarm in the file of two to eight hosts: an audit of the records of all interfaces,
//! with the subnet between the hosts, reports no broken rule of messages and the phase. Each law is
//! the contract of a lemma.
//!
//! - *Use:* what `ncp audit` reports of a file that `ncp record` wrote relies on it.
//! - *Proved:* the laws of `two` and of `many`: no rule of messages and the phase is reported at
//!   any interface, against a host or the subnet; the file of two hosts is that of a world of two;
//!   and each record fits a message file. The same for all rules: `ncp_proof_monitor_network`.
//! - *Tests:* the findings about wrong hosts and a wrong subnet are in the cases `audit_*` of
//!   `ncp_test_cases`.
#![tactic(auto)]

pub mod many;
pub mod two;

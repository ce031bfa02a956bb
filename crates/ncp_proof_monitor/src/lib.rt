//! No false alarm: for any calls of a host and any received bits, an audit of everything that
//! passes its interface reports no violation by the host. Each law is the contract of a lemma.
//!
//! - *Use:* what `ncp audit` reports against a host relies on it.
//! - *Proved:* the laws of `alarms`: for the rules of messages and the phase, in any file, and in
//!   that of two hosts with the subnet; for the rules of leaders and of links, also if the numbers
//!   of calls do not fit. For all rules: `ncp_proof_monitor_host`.
//! - *Tests:* the findings about wrong hosts are in the cases `audit_*` of `ncp_test_cases`.
#![tactic(auto)]

pub mod alarms;

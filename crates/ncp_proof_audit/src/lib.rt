//! `ncp audit` reads what `ncp record` writes of two to eight hosts to its end, and finds nothing
//! in it. Each law is the contract of a lemma.
//!
//! - *Use:* the two ends of a pipe, `ncp record | ncp audit`, as bytes.
//! - *Proved:* the laws of `recorded`.
//! - *Tests:* a recording is audited in the cases `audit_rules` of `ncp_test_cases`.
#![tactic(auto)]

pub mod recorded;

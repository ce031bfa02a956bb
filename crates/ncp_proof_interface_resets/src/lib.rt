//! Interface resets: no host is reported at its own interface when its IMP is reset, whether the
//! host takes the reset for what it is or not. Each law is the contract of a lemma.
//!
//! - *Use:* what `ncp audit` reports against a host relies on it.
//! - *Proved:* the laws of `resets`.
//! - *Tests:* resets are in the cases `audit_restarts` and `audit_restart_runs` of
//!   `ncp_test_cases`.
#![tactic(auto)]

pub mod resets;

//! In the file of two hosts with the subnet between them, the text that `ncp follow` reports of a
//! connection is what its receiver got, until that closes. The law is the contract of a lemma.
//!
//! - *Use:* what `ncp follow` reports of a file that `ncp record` wrote relies on it.
//! - *Proved:* the law of `told`, for the first 8,192 bits of each text: at the receiver's
//!   interface the text reported of a connection is what its receiver got, until the receiver
//!   closes; at the sender's, a prefix of what was given. While both are open, the first is a
//!   prefix of the second.
//! - *Tests:* the reports of recordings are in the cases `follow_*` of `ncp_test_cases`.
#![tactic(auto)]

pub mod told;

//! Numbers and bytes as bits, most significant first: the definitions that the contracts of all
//! crates above cite, and their laws. The crate has no code.
//!
//! - *Use:* contracts from `ncp_bits` up use `number_of`, `bits_of` and `bytes_of`; `read_bytes` of
//!   `ncp_bits` is built on them.
//! - *Proved:* the conversions of bits and numbers, and of bits and bytes, are inverse to each
//!   other (`laws::numbers_are_bits`, `bytes_are_bits`).
//! - *Tests:* `bits` of `ncp_test_host`.
#![tactic(auto)]

pub mod laws;

//! The `feed` of a one-host script: a message file arrives at the host, and then the host sends all
//! its output.
//!
//! - *Use:* the line `feed` of a script of one host: a message file follows it.
//! - *Proved:* each message is delivered, up to the first fault, and without a fault the host is
//!   asked for output until it has none (`feed`, clause `events`); bytes are a feed in one way
//!   (`laws::feeds_have_one_reading`).
//! - *Tests:* `feed` of `ncp_test_play`.
#![tactic(auto)]

mod feeding;
mod hearing;
pub mod laws;
mod sending;

pub use feeding::feed;

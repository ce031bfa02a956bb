//! The two endpoints of each pair of sockets are a pipe: laws alone.
#![tactic(auto)]

pub mod any_subnet;
pub mod clearings;
pub mod ends;
pub mod many;
pub mod notes;
pub mod stops;
pub mod transcripts;

//! Tests of scripts of two hosts, and of two to eight, that no file of cases can show: over either
//! store, with a failing read, write or allocation, and with thousands of lines. All others are
//! `world_*.cases` of `ncp_test_cases`.

mod limits;
mod opening;
mod played;
pub(crate) mod refused;
mod streams;

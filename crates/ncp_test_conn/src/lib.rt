//! Tests of a table of connections. They use only public items of `ncp_conn`: requests, allocation,
//! texts, closing, memory, and the readers of a table. A crate of its own, since a crate with tests
//! is proved twice.
//!
//! `table/steps.rt` has the steps of an example as values; `table/tried.rt` runs them.
#![tactic(auto)]

#[cfg(test)]
mod refused;
#[cfg(test)]
mod table;

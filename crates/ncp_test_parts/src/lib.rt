//! Tests of the crates below a host: bits, leaders, control messages, link slots, the numbers of
//! the model, and the subnet. They use only public items, and check that calls succeed, that memory
//! is allocated only when needed, that the definitions mean the same as the worked examples, and
//! the texts and numbers of the faults. A crate of its own, since a crate with tests is proved
//! twice. It uses only crates below `ncp_host`, so it is built early and delays no other crate.
//!
//! - *Use:* tests of hosts use its `known`, for the printed forms of values.
//! - *Proved:* they are safe.
#![tactic(auto)]

#[cfg(test)]
mod bits;
#[cfg(test)]
mod control;
pub mod known;
#[cfg(test)]
mod leader;
#[cfg(test)]
mod made;
#[cfg(test)]
mod model;
#[cfg(test)]
mod refused;
#[cfg(test)]
mod slot;
#[cfg(test)]
mod subnet;

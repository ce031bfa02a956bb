//! Tests of the players that no stored script can show: lines in pieces (`script`), lines of notes
//! that no host makes, faults, failing reads and writes and allocation failures, also for several
//! hosts (`world`), and the agreement of explained mistakes with the readers (`mistakes`). Scripts
//! with their lines are in `data/host_*.cases` and `data/world_*.cases` of `ncp_test_cases`. A
//! crate of its own, since a crate with tests is proved twice.
#![tactic(auto)]

#[cfg(test)]
mod faults;
#[cfg(test)]
mod feed;
#[cfg(test)]
mod limits;
#[cfg(test)]
mod lines;
#[cfg(test)]
mod memory;
#[cfg(test)]
mod mistakes;
#[cfg(test)]
mod refused;
#[cfg(test)]
mod said;
#[cfg(test)]
mod script;
#[cfg(test)]
mod scripts;
#[cfg(test)]
mod streams;
#[cfg(test)]
mod texts;
#[cfg(test)]
mod world;

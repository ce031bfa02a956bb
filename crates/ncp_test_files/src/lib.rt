//! Tests of failing streams, allocation failures, captures too large for a case (`audits`,
//! `follows`), printed texts, and the command line. They use only public items of the crates below.
//! A crate of its own, since a crate with tests is proved twice. The program's output for an input
//! is in the cases of `ncp_test_cases`.
#![tactic(auto)]

#[cfg(test)]
mod audits;
#[cfg(test)]
mod breaks;
#[cfg(test)]
mod command_line;
#[cfg(test)]
mod conversions;
#[cfg(test)]
mod failures;
#[cfg(test)]
mod faults;
#[cfg(test)]
mod files;
#[cfg(test)]
mod follows;
#[cfg(test)]
mod pieces;
#[cfg(test)]
mod refused;
#[cfg(test)]
mod shown;

//! Tests that no script can express, of two and more hosts with a subnet: over either store, event
//! by event, over thousands of events, and with failing allocations. Worked runs are the files
//! `world_*.cases` of `ncp_test_cases`. A crate of its own, since a crate with tests is proved
//! twice.
#![tactic(auto)]

#[cfg(test)]
mod copies;
#[cfg(test)]
mod events;
#[cfg(test)]
mod ledgers;
#[cfg(test)]
mod long_runs;
#[cfg(test)]
mod many;
#[cfg(test)]
mod many_faults;
#[cfg(test)]
mod many_tried;
#[cfg(test)]
mod memory;
#[cfg(test)]
mod reading;
#[cfg(test)]
mod refused;
#[cfg(test)]
mod settled;
#[cfg(test)]
mod subnet;
#[cfg(test)]
mod tried;

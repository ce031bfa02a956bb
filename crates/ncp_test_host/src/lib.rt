//! Tests of a host, and of a host with its transcript. They use only public items of the two
//! crates, and check that calls succeed, that memory is allocated only when needed, and the texts
//! and numbers of the faults. All that a script of one host can show is in `data/host_*.cases` of
//! `ncp_test_cases`; the parts below a host are tested in `ncp_test_parts`.
#![tactic(auto)]

#[cfg(test)]
mod alone;
#[cfg(test)]
mod host;
#[cfg(test)]
mod known;
#[cfg(test)]
mod limits;
#[cfg(test)]
mod refused;
#[cfg(test)]
mod saved;

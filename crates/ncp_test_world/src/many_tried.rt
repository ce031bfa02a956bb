//! Two to eight hosts whose calls have no contracts.
use crate::reading::{Reading, reading_of};
use ncp_bits::BitStore;
use ncp_host::Pair;
use ncp_world::{Many, ManyEvent, ManyFault, ManyNote};
use std::alloc::Global;

/// Hosts under test, like the world of `Tried`.
#[derive(Drop)]
pub(super) struct ManyTried<S: BitStore> {
    many: Many<S>,
}

impl<S: BitStore> ManyTried<S> {
    pub(super) fn new(alloc: Global, hosts: &[u8]) -> Result<Self, ManyFault> {
        let many = Many::new(alloc, hosts)?;
        Ok(ManyTried { many })
    }

    /// The hosts after these events, performed by one call.
    pub(super) fn run(
        alloc: Global,
        hosts: &[u8],
        events: &[ManyEvent],
    ) -> Result<Self, ManyFault> {
        let many = Many::run(alloc, hosts, events)?;
        Ok(ManyTried { many })
    }

    pub(super) fn notes(&self) -> &[ManyNote] {
        self.many.transcript()
    }

    /// Whether a host is up with another.
    pub(super) fn is_up(&self, host: u8, peer: u8) -> bool {
        let Some(host) = self.many.host(host) else {
            return false;
        };
        match host.phase(peer) {
            Ok(flags) => flags.up(),
            Err(_) => false,
        }
    }

    /// Whether a host has an open end of this pair.
    pub(super) fn is_open(&self, host: u8, peer: u8, pair: Pair) -> bool {
        let Some(host) = self.many.host(host) else {
            return false;
        };
        match host.state(peer, pair) {
            Ok(record) => record.opened && !record.leaving && !record.left,
            Err(_) => false,
        }
    }

    /// Whether a step returns Ok.
    pub(super) fn steps(&mut self, event: &ManyEvent) -> bool {
        self.many.step(event).is_ok()
    }

    /// Whether settling returns Ok.
    pub(super) fn settles(&mut self) -> bool {
        self.many.settle().is_ok()
    }

    /// Whether there was a next event; `None` if an allocation failed.
    pub(super) fn goes_on(&mut self) -> Option<bool> {
        self.many.go_on().ok()
    }

    /// The readings of a host, if it is present.
    pub(super) fn reading(&self, host: u8, peer: u8) -> Option<Reading> {
        match self.many.host(host) {
            Some(host) => Some(reading_of(host, peer)),
            None => None,
        }
    }
}

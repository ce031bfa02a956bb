//! A world whose calls have no contracts.
use crate::reading::{Reading, reading_of};
use ncp_bits::BitStore;
use ncp_host::Pair;
use ncp_world::{Event, Ledger, Note, Side, World, run};
use std::alloc::{AllocError, Global};

/// The hosts of the examples, on side A and on side B.
pub(super) const A: u8 = 1;

pub(super) const B: u8 = 2;

/// A world under test. Its calls have no contracts: their notes are found by running them, so the
/// prover need not follow a world through a long test, but only check that the test is safe and
/// terminates.
#[derive(Drop)]
pub(super) struct Tried<S: BitStore> {
    world: World<S>,
}

impl<S: BitStore> Tried<S> {
    pub(super) fn new(alloc: Global) -> Result<Self, AllocError> {
        let world = World::new(alloc, A, B)?;
        Ok(Tried { world })
    }

    /// A world after these events, performed by one call.
    pub(super) fn run(alloc: Global, events: &[Event]) -> Result<Self, AllocError> {
        let world = run(alloc, A, B, events)?;
        Ok(Tried { world })
    }

    pub(super) fn notes(&self) -> &[Note] {
        self.world.transcript()
    }

    /// Whether a step returns Ok.
    pub(super) fn steps(&mut self, event: &Event) -> bool {
        self.world.step(event).is_ok()
    }

    /// Whether settling returns Ok.
    pub(super) fn settles(&mut self) -> bool {
        self.world.settle().is_ok()
    }

    /// Whether there was a next event; `None` if an allocation failed.
    pub(super) fn goes_on(&mut self) -> Option<bool> {
        self.world.go_on().ok()
    }

    pub(super) fn ledger(&self, side: Side, pair: Pair) -> Option<Ledger> {
        self.world.ledger(side, pair)
    }

    /// The readings of a host.
    pub(super) fn reading(&self, side: Side, other: u8) -> Reading {
        reading_of(self.world.host(side), other)
    }
}

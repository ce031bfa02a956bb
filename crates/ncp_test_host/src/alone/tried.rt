//! Runs the steps of an example on a host with its transcript.
use super::INWARD;
use super::noted::{Step, Want, input_of, says};
use crate::known::{LINK, ME, OUTWARD, PEER};
use ncp_bits::BitStore;
use ncp_host::{CallFault, Counts, Flags, HostFault, Ignored, Record};
use ncp_transcript::{Alone, HostNote, Input};
use ncp_wire::Command;
use std::alloc::Global;
use std::process::Abort;

/// The results of a host's readers, for its peer and the connections of the examples.
#[derive(Clone, Copy, Drop, PartialEq)]
struct Reading {
    flags: Result<Flags, CallFault>,
    outward: Result<Record, CallFault>,
    inward: Result<Record, CallFault>,
    counts: Result<Counts, CallFault>,
    echoed: Result<Option<u8>, CallFault>,
    waiting: [Option<Command>; 2],
    keeps: [bool; 2],
    ignored: Ignored,
}

/// A host with its transcript under test. The functions here have no contracts: the results of
/// calls are found by running them, so the prover need not follow a host through an example.
#[derive(Drop)]
pub(super) struct Tried<S: BitStore> {
    alone: Alone<S>,
    refused: bool,
}

impl<S: BitStore> Tried<S> {
    /// A new host with its peer.
    pub(super) fn new(alloc: Global) -> Result<Self, HostFault> {
        let alone = match Alone::new(alloc, ME, &[PEER]) {
            Err(HostFault::OutOfMemory) => Alone::new(alloc, ME, &[PEER])?,
            first => first?,
        };
        Ok(Tried {
            alone,
            refused: false,
        })
    }

    /// Whether an allocation failed in a step.
    pub(super) fn was_refused(&self) -> bool {
        self.refused
    }

    /// Runs all steps of an example.
    pub(super) fn goes(&mut self, rt: &impl Abort, alloc: Global, name: &str, steps: &[Step<'_>]) {
        for (place, step) in steps.iter().enumerate() {
            assert!(rt; self.does(rt, alloc, step), "{name} at step {place}");
        }
    }

    fn does(&mut self, rt: &impl Abort, alloc: Global, (act, want): &Step<'_>) -> bool {
        let input = input_of(rt, alloc, act);
        self.is_done(&input) && self.has_noted(rt, want)
    }

    // Whether the last note has the expected content.
    fn has_noted(&self, rt: &impl Abort, want: &Want<'_>) -> bool {
        match self.alone.transcript().last() {
            Some(note) => says(rt, note, want),
            None => false,
        }
    }

    // Whether an input is performed and noted once, possibly after an allocation failure that left
    // everything unchanged except for the note of a refused call.
    fn is_done(&mut self, input: &Input) -> bool {
        let many = self.alone.transcript().len();
        let before = self.read();
        let noted = match self.alone.step(input) {
            Err(_) => many,
            Ok(()) if self.has_no_memory() => many.saturating_add(1),
            Ok(()) => return self.alone.transcript().len() == many.saturating_add(1),
        };
        self.refused = true;
        self.alone.transcript().len() == noted
            && self.read() == before
            && self.alone.step(input).is_ok()
    }

    // Whether the last note is a call refused with `OutOfMemory`.
    fn has_no_memory(&self) -> bool {
        matches!(
            self.alone.transcript().last(),
            Some(HostNote::Refused {
                fault: CallFault::OutOfMemory,
                ..
            })
        )
    }

    fn read(&self) -> Reading {
        let host = self.alone.host();
        Reading {
            flags: host.phase(PEER),
            outward: host.state(PEER, OUTWARD),
            inward: host.state(PEER, INWARD),
            counts: host.counts(PEER),
            echoed: host.echoed(PEER),
            waiting: [host.waiting(PEER, 0), host.waiting(PEER, 1)],
            keeps: [
                host.kept(PEER, 0).is_some(),
                host.kept(PEER, LINK).is_some(),
            ],
            ignored: host.ignored(),
        }
    }
}

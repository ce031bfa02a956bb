//! `Transcript`.
ghost use Rattle.std.specs.Prelude.{◌≡◌, [], OnOk, OnErr, IfOk};
ghost use Rattle.ncp_world.specs.Kinds.{IsStepOf, IsTriedOf};

use crate::hosts::AnyHosts;
use std::alloc::{AllocError, Global};
use std::marker::Model;

/// The notes of all events, in order.
///
/// It has the only allocator that hosts with their transcript keep, private to this file, and gives
/// access only to its notes. So the only place to allocate is where an event happens and is noted.
#[derive(Drop)]
pub(crate) struct Transcript<N: Drop> {
    alloc: Global,
    notes: Vec<N>,
}

impl<N: Drop> Model for Transcript<N> {
    ghost use Rattle.std.specs.Prelude.{List};

    ghost Value = { List N };

    ghost view = { λ transcript. transcript.notes.items };
}

impl<N: Drop> Transcript<N> {
    /// A transcript without notes. It grows with this allocator.
    pub(crate) fn new(alloc: Global) -> Transcript<N>
        ensures { result ≡ [] }
    {
        Transcript {
            alloc,
            notes: Vec::new(alloc),
        }
    }

    /// The notes, in order.
    pub(crate) fn as_slice(&self) -> &[N]
        ensures { result.now ≡ self.now }
    {
        self.notes.as_slice()
    }

    /// Performs an event, and appends its note. The notes grow first.
    pub(crate) fn note<H: AnyHosts<Note = N>>(
        &mut self,
        hosts: &mut H,
        event: &H::Event,
    ) -> Result<(), AllocError>
        ensures step { OnOk result (IsStepOf H.kind event.now (record { hosts = hosts.old; notes = self.old }) (record { hosts = hosts.new; notes = self.new })) }
        ensures err { OnErr result ((self.new ≡ self.old) × (hosts.new ≡ hosts.old)) }
    {
        self.notes.reserve(1)?;
        let note = hosts.happen(self.alloc, event)?;
        self.notes.push_reserved(note);
        Ok(())
    }

    /// Performs an event and appends its note. If the note would report nothing, nothing has
    /// happened, and the result is `false`. The notes grow first.
    pub(crate) fn attempt<H: AnyHosts<Note = N>>(
        &mut self,
        hosts: &mut H,
        event: &H::Event,
    ) -> Result<bool, AllocError>
        ensures tried { IfOk result (λ done. IsTriedOf H.kind event.now done (record { hosts = hosts.old; notes = self.old }) (record { hosts = hosts.new; notes = self.new })) }
        ensures err { OnErr result ((self.new ≡ self.old) × (hosts.new ≡ hosts.old)) }
    {
        self.notes.reserve(1)?;
        let note = hosts.happen(self.alloc, event)?;
        if H::reports_nothing(&note) {
            // An explicit drop: the implicit one at a return costs the prover six times as much.
            drop(note);
            return Ok(false);
        }
        self.notes.push_reserved(note);
        Ok(true)
    }
}

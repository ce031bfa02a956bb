//! `Recorded`.
ghost use Rattle.std.specs.Prelude.{◌≡◌, [], OnOk, OnErr};
ghost use Rattle.ncp_world.specs.Kinds.{IsStepOf};

mod settling;

use crate::hosts::AnyHosts;
use crate::transcript::Transcript;
use std::alloc::{AllocError, Global};
use std::marker::Model;

/// Hosts and the subnet between them, with their transcript: one note for each event, in order.
///
/// Only creating the hosts and performing an event allocate: the readers borrow the hosts and the
/// notes, and reach no allocator.
#[derive(Drop)]
pub struct Recorded<H: AnyHosts> {
    pub(crate) hosts: H,
    notes: Transcript<H::Note>,
}

impl<H: AnyHosts> Model for Recorded<H> {
    ghost use Rattle.ncp_transcript_two.specs.Transcript.{Noted_hosts as Seen};

    ghost Value = { Seen H H.Note };

    ghost view = { λ it. record { hosts = it.hosts; notes = it.notes } };

    ghost invariant = { λ it. H.kind.IsTranscript it.notes it.hosts };
}

impl<H: AnyHosts> Recorded<H> {
    /// New hosts, without notes.
    pub(crate) fn of(alloc: Global, hosts: H) -> Recorded<H>
        requires { H.kind.IsTranscript [] hosts }
        ensures { result ≡ record { hosts = hosts; notes = [] } }
    {
        Recorded {
            hosts,
            notes: Transcript::new(alloc),
        }
    }

    /// Performs an event, and appends its note: `step` of hosts of any kind. On `AllocError` nothing
    /// has happened.
    pub fn happen(&mut self, event: &H::Event) -> Result<(), AllocError>
        ensures step { OnOk result (IsStepOf H.kind event.now self.old self.new) }
        ensures err { OnErr result (self.new ≡ self.old) }
        ensures run { H.kind.IsTranscript self.new.notes self.new.hosts }
    {
        self.notes.note(&mut self.hosts, event)
    }

    /// The notes of all events, in order.
    pub fn transcript(&self) -> &[H::Note]
        ensures notes { result.now ≡ self.now.notes }
        ensures run { H.kind.IsTranscript self.now.notes self.now.hosts }
    {
        self.notes.as_slice()
    }
}

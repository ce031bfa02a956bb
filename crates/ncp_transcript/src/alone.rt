//! `Alone`.
ghost use Rattle.std.specs.Prelude.{◌≡◌, true, false, [], IfOk, IfErr, OnOk, OnErr, Err};
ghost use Rattle.ncp_host.specs.Host.{new_host, are_peers};
ghost use Rattle.ncp_transcript.specs.Runs.{IsHostTranscript};
ghost use Rattle.ncp_transcript.specs.Alone.{IsHostStep};

use crate::input::Input;
use crate::note::HostNote;
use crate::transcript::Transcript;
use ncp_bits::BitStore;
use ncp_host::{Host, HostFault};
use std::alloc::{AllocError, Global};
use std::marker::Model;

/// A host with its transcript: one note for each input, in order.
///
/// A note takes at most [`crate::NOTE_BYTES`] bytes, besides those of its message or of the ERRs
/// that were read. Only [`Alone::new`] and [`Alone::step`] allocate: the readers borrow the host
/// and the notes, and reach no allocator.
#[derive(Drop)]
pub struct Alone<S: BitStore> {
    host: Host<S>,
    notes: Transcript,
}

impl<S: BitStore> Model for Alone<S> {
    ghost use Rattle.std.specs.Coded.{codes};
    ghost use Rattle.ncp_slot.specs.Slots.{coded_slots};
    ghost use Rattle.ncp_peer.specs.Codes.{coded_ends};
    ghost use Rattle.ncp_transcript.specs.Runs.{IsHostTranscript};
    ghost use Rattle.ncp_transcript.specs.Alone.{Alone as Seen};

    ghost Value = { Seen };

    ghost coded = { Prim.hlevel (codes, coded_ends, coded_slots) };

    ghost view = { λ a. record { host = a.host; notes = a.notes } };

    ghost invariant = { λ a. IsHostTranscript a.notes a.host };
}

impl<S: BitStore> Alone<S> {
    /// Creates a host with the number `me` and these peers, without notes.
    ///
    /// Refused, in this order: `BadPeers`, as in [`Host::new`], and `OutOfMemory`.
    pub fn new(alloc: Global, me: u8, peers: &[u8]) -> Result<Alone<S>, HostFault>
        ensures host { IfOk result (λ alone. alone.host ≡ new_host me peers.now) }
        ensures notes { IfOk result (λ alone. alone.notes ≡ []) }
        ensures run { IfOk result (λ alone. IsHostTranscript alone.notes alone.host) }
        ensures ok { IfOk result (λ alone. are_peers me peers.now ≡ true) }
        ensures bad { are_peers me peers.now ≡ false → result ≡ Err HostFault.BadPeers }
        ensures full { are_peers me peers.now ≡ true → IfErr result (λ fault. fault ≡ HostFault.OutOfMemory) }
    {
        let host = Host::new(alloc, me, peers)?;
        Ok(Alone {
            host,
            notes: Transcript::new(alloc),
        })
    }

    /// Performs one input on the host and appends its note to the transcript.
    ///
    /// On `AllocError` nothing has happened; retry with the same input. Takes amortised constant
    /// time besides the host's own work.
    ///
    /// In both cases the notes are a transcript of the host (`run`).
    pub fn step(&mut self, input: &Input) -> Result<(), AllocError>
        ensures step { OnOk result (IsHostStep input.now self.old self.new) }
        ensures err { OnErr result (self.new ≡ self.old) }
        // theorem: The notes of one host are a run of the rules: each note is correct by the rules
        // at the state after the notes before it, and all notes together lead to the present state
        // of the host.
        ensures run { IsHostTranscript self.new.notes self.new.host }
    {
        self.notes.note(&mut self.host, input)
    }

    /// The notes of all inputs, in order.
    pub fn transcript(&self) -> &[HostNote]
        ensures notes { result.now ≡ self.now.notes }
        ensures run { IsHostTranscript self.now.notes self.now.host }
    {
        self.notes.as_slice()
    }

    /// The host.
    pub fn host(&self) -> &Host<S>
        ensures { result.now ≡ self.now.host }
    {
        &self.host
    }
}

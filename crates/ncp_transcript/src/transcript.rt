//! `Transcript`.
ghost use Rattle.std.specs.Prelude.{◌≡◌, [], IfOk, OnOk, OnErr};
ghost use Rattle.ncp_transcript.specs.After.{after_note};
ghost use Rattle.ncp_transcript.specs.Noting.{HostNoted};
ghost use Rattle.ncp_transcript.specs.Alone.{IsHostStep};

use crate::arrivals::hear;
use crate::calls::perform;
use crate::input::Input;
use crate::note::HostNote;
use crate::output::send;
use ncp_bits::BitStore;
use ncp_host::Host;
use std::alloc::{AllocError, Global};
use std::marker::Model;

/// The notes of all inputs to a host, in order.
///
/// It has the only allocator that a host with its transcript keeps, private to this file, and gives
/// access only to its notes. So the only place to allocate is where an input is performed and
/// noted.
#[derive(Drop)]
pub(crate) struct Transcript {
    alloc: Global,
    notes: Vec<HostNote>,
}

impl Model for Transcript {
    ghost use Rattle.std.specs.Prelude.{List};
    ghost use Rattle.ncp_transcript.specs.declared.note.HostNote.{HostNote};

    ghost Value = { List HostNote };

    ghost view = { λ transcript. transcript.notes.items };
}

// Performs an input on a host, and returns its note.
fn note_of<S: BitStore>(
    alloc: Global,
    host: &mut Host<S>,
    input: &Input,
) -> Result<HostNote, AllocError>
    ensures note { IfOk result (λ note. HostNoted input.now note host.old) }
    ensures host { IfOk result (λ note. host.new ≡ after_note note host.old) }
    ensures err { OnErr result (host.new ≡ host.old) }
{
    match input {
        Input::Call(call) => perform(alloc, host, call),
        Input::In(bits) => hear(alloc, host, bits),
        Input::Out => send(alloc, host),
    }
}

impl Transcript {
    /// A transcript without notes. It grows with this allocator.
    pub(crate) fn new(alloc: Global) -> Transcript
        ensures { result ≡ [] }
    {
        Transcript {
            alloc,
            notes: Vec::new(alloc),
        }
    }

    /// The notes, in order.
    pub(crate) fn as_slice(&self) -> &[HostNote]
        ensures { result.now ≡ self.now }
    {
        self.notes.as_slice()
    }

    /// Performs an input on a host, and appends its note. The notes grow first.
    pub(crate) fn note<S: BitStore>(
        &mut self,
        host: &mut Host<S>,
        input: &Input,
    ) -> Result<(), AllocError>
        ensures step { OnOk result (IsHostStep input.now (record { host = host.old; notes = self.old }) (record { host = host.new; notes = self.new })) }
        ensures err { OnErr result ((self.new ≡ self.old) × (host.new ≡ host.old)) }
    {
        self.notes.reserve(1)?;
        let note = note_of(self.alloc, host, input)?;
        self.notes.push_reserved(note);
        Ok(())
    }
}

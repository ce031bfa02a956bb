//! The next message of a host, and its note.
ghost use Rattle.std.specs.Prelude.{◌≡◌, IfOk, OnErr};
ghost use Rattle.ncp_transcript.specs.After.{after_note};
ghost use Rattle.ncp_transcript.specs.Noting.{note_of_output};

use crate::message::pack_in_room;
use crate::note::HostNote;
use crate::room::Room;
use ncp_bits::BitStore;
use ncp_host::Host;
use std::alloc::{AllocError, Global};

/// Asks a host for its next message, and returns the note of it. Allocates the memory of the note
/// first: on `AllocError` the host is unchanged.
#[tactic(auto, using(crate::proofs::Quiet::output_stays))]
pub fn send<S: BitStore>(alloc: Global, host: &mut Host<S>) -> Result<HostNote, AllocError>
    ensures note { IfOk result (λ note. note ≡ note_of_output host.old) }
    ensures host { IfOk result (λ note. host.new ≡ after_note note host.old) }
    ensures err { OnErr result (host.new ≡ host.old) }
{
    let room = Room::new(alloc)?;
    let Some(sent) = host.send_next() else {
        return Ok(HostNote::Nothing);
    };
    match host.kept(sent.peer, sent.link) {
        Some(bits) => Ok(HostNote::Out {
            message: pack_in_room(room, bits),
        }),
        None => Ok(HostNote::Nothing),
    }
}

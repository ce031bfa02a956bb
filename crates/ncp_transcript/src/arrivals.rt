//! Received bits, and their note.
ghost use Rattle.std.specs.Prelude.{◌≡◌, None, IfOk, IfSome, IfNone, OnErr};
ghost use Rattle.ncp_transcript.specs.After.{after_note};
ghost use Rattle.ncp_transcript.specs.Noting.{is_answer, answer_in, note_of_bits};

use crate::message::pack_in_room;
use crate::note::HostNote;
use crate::room::Room;
use ncp_bits::{BitStore, Bits};
use ncp_host::{Host, answer_of};
use ncp_leader::{DESTINATION_DEAD, INCOMPLETE, Leader, RFNM, read_leader};
use std::alloc::{AllocError, Global};

// Whether a type is that of an answer.
fn is_answer(kind: u8) -> bool
    ensures { result ≡ is_answer kind }
{
    kind == RFNM || kind == DESTINATION_DEAD || kind == INCOMPLETE
}

// The leader of bits that are an answer about a message to a peer.
fn answer_in<S: BitStore>(host: &Host<S>, bits: &Bits) -> Option<Leader>
    ensures { result ≡ answer_in bits.now host.now }
{
    let Ok(leader) = read_leader(bits) else {
        return None;
    };
    // `phase` refuses only a host that is no peer
    if is_answer(leader.kind) && host.phase(leader.host).is_ok() {
        Some(leader)
    } else {
        None
    }
}

// Handles an answer about a message to a peer, and returns its note. Does not allocate. Returns
// `None` if the bits are no such answer; then nothing has happened.
fn take_answer<S: BitStore>(host: &mut Host<S>, bits: &Bits) -> Option<HostNote>
    ensures note { IfSome result (λ note. note ≡ note_of_bits bits.now host.old) }
    ensures host { IfSome result (λ note. host.new ≡ after_note note host.old) }
    ensures none { IfNone result (answer_in bits.now host.old ≡ None) }
    ensures stays { IfNone result (host.new ≡ host.old) }
{
    let leader = answer_in(host, bits)?;
    let received = host.receive(bits);
    Some(HostNote::Answered {
        peer: leader.host,
        link: leader.link,
        answer: answer_of(leader.kind),
        received,
    })
}

// Handles bits that are no such answer. Their note uses the memory of the room.
fn take_other<S: BitStore>(room: Room, host: &mut Host<S>, bits: &Bits) -> HostNote
    requires { answer_in bits.now host.old ≡ None }
    ensures note { result ≡ note_of_bits bits.now host.old }
    ensures host { host.new ≡ after_note result host.old }
{
    let message = pack_in_room(room, bits);
    let received = host.receive(bits);
    HostNote::In { message, received }
}

/// Passes bits to a host, and returns their note. The note uses the memory of the room, and frees
/// what it does not need.
pub fn hear_in_room<S: BitStore>(room: Room, host: &mut Host<S>, bits: &Bits) -> HostNote
    ensures note { result ≡ note_of_bits bits.now host.old }
    ensures host { host.new ≡ after_note result host.old }
{
    match take_answer(host, bits) {
        Some(note) => note,
        None => take_other(room, host, bits),
    }
}

/// Passes bits to a host, and returns their note. Allocates the memory of the note first: on
/// `AllocError` the host is unchanged. The note of an answer about a message to a peer needs none.
pub fn hear<S: BitStore>(
    alloc: Global,
    host: &mut Host<S>,
    bits: &Bits,
) -> Result<HostNote, AllocError>
    ensures note { IfOk result (λ note. note ≡ note_of_bits bits.now host.old) }
    ensures host { IfOk result (λ note. host.new ≡ after_note note host.old) }
    ensures err { OnErr result (host.new ≡ host.old) }
{
    if let Some(note) = take_answer(host, bits) {
        return Ok(note);
    }
    let room = Room::new(alloc)?;
    Ok(take_other(room, host, bits))
}

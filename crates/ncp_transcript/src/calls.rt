//! A call on a host, and its note.
ghost use Rattle.std.specs.Prelude.{◌≡◌, IfOk, OnErr};
ghost use Rattle.ncp_transcript.specs.Answers.{answer_to};
ghost use Rattle.ncp_transcript.specs.After.{after_note};
ghost use Rattle.ncp_transcript.specs.Noting.{CallNoted};

use crate::acts::{
    allocate, ask_receive, ask_send, call_back, close, done, echo, interrupt, reset, wake,
};
use crate::call::Call;
use crate::message::{Message, pack_in_room};
use crate::note::HostNote;
use crate::readings::{counts, echoed, errors, kept, phase, state, waiting};
use crate::room::Room;
use ncp_bits::BitStore;
use ncp_host::{Host, Pair};
use std::alloc::{AllocError, Global};

// Gives a text. Allocates the note's copy of it first.
fn give<S: BitStore>(
    alloc: Global,
    host: &mut Host<S>,
    peer: u8,
    pair: Pair,
    text: &Message,
) -> Result<HostNote, AllocError>
    ensures note { IfOk result (λ note. note ≡ answer_to (Call.Give peer pair text.now) host.old) }
    ensures host { IfOk result (λ note. host.new ≡ after_note note host.old) }
    ensures err { OnErr result (host.new ≡ host.old) }
{
    let noted = text.copy(alloc)?;
    let reply = host.give_part(peer, pair, text.whole());
    Ok(done(
        Call::Give {
            peer,
            pair,
            text: noted,
        },
        reply,
    ))
}

// Takes text. Allocates room for the text of any message first.
fn take<S: BitStore>(
    alloc: Global,
    host: &mut Host<S>,
    peer: u8,
    pair: Pair,
    bytes: u32,
) -> Result<HostNote, AllocError>
    ensures note { IfOk result (λ note. note ≡ answer_to (Call.Take peer pair bytes) host.old) }
    ensures host { IfOk result (λ note. host.new ≡ after_note note host.old) }
    ensures err { OnErr result (host.new ≡ host.old) }
{
    let room = Room::new(alloc)?;
    match host.take(peer, pair, bytes) {
        Ok(text) => Ok(HostNote::Took {
            peer,
            pair,
            bytes,
            text: pack_in_room(room, &text),
        }),
        Err(fault) => Ok(HostNote::Refused {
            call: Call::Take { peer, pair, bytes },
            fault,
        }),
    }
}

/// Performs a call on a host, and returns its note. Allocates the memory of the note first: on
/// `AllocError` the host is unchanged. An allocation failure in the call itself is a refusal in the
/// note.
pub fn perform<S: BitStore>(
    alloc: Global,
    host: &mut Host<S>,
    call: &Call,
) -> Result<HostNote, AllocError>
    ensures note { IfOk result (λ note. CallNoted call.now note host.old) }
    ensures host { IfOk result (λ note. host.new ≡ after_note note host.old) }
    ensures err { OnErr result (host.new ≡ host.old) }
{
    match *call {
        Call::Give {
            peer,
            pair,
            ref text,
        } => give(alloc, host, peer, pair, text),
        Call::Take { peer, pair, bytes } => take(alloc, host, peer, pair, bytes),
        Call::State { peer, pair } => Ok(state(host, peer, pair)),
        Call::Phase { peer } => Ok(phase(host, peer)),
        Call::Echoed { peer } => Ok(echoed(host, peer)),
        Call::Errors { peer } => errors(alloc, host, peer),
        Call::Counts { peer } => Ok(counts(host, peer)),
        Call::Waiting { peer, place } => Ok(waiting(host, peer, place)),
        Call::Kept { peer, link } => kept(alloc, host, peer, link),
        Call::Ignored => Ok(HostNote::Ignored {
            ignored: host.ignored(),
        }),
        Call::Reset { peer } => Ok(reset(host, peer)),
        Call::AskSend {
            peer,
            local,
            remote,
            size,
            room,
        } => Ok(ask_send(host, peer, Pair { local, remote }, size, room)),
        Call::AskReceive {
            peer,
            local,
            remote,
            room,
        } => Ok(ask_receive(host, peer, Pair { local, remote }, room)),
        Call::Allocate {
            peer,
            pair,
            messages,
            bits,
        } => Ok(allocate(host, peer, pair, messages, bits)),
        Call::CallBack { peer, pair, fm, fb } => Ok(call_back(host, peer, pair, fm, fb)),
        Call::Interrupt { peer, pair } => Ok(interrupt(host, peer, pair)),
        Call::Echo { peer, byte } => Ok(echo(host, peer, byte)),
        Call::Close { peer, pair } => Ok(close(host, peer, pair)),
        Call::Wake { peer } => Ok(wake(host, peer)),
    }
}

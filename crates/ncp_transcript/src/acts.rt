//! Calls that return only success or a refusal, and their notes.
ghost use Rattle.std.specs.Prelude.{◌≡◌};
ghost use Rattle.ncp_transcript.specs.Notes.{done_or_refused};
ghost use Rattle.ncp_transcript.specs.Answers.{answer_to};
ghost use Rattle.ncp_transcript.specs.After.{after_note};
ghost use Rattle.ncp_transcript.specs.Noting.{CallNoted};

use crate::call::Call;
use crate::note::HostNote;
use ncp_bits::BitStore;
use ncp_host::{CallFault, Host, Pair};

/// The note of such a call.
pub(crate) fn done(call: Call, reply: Result<(), CallFault>) -> HostNote
    ensures { result ≡ done_or_refused call reply }
{
    match reply {
        Ok(()) => HostNote::Done { call },
        Err(fault) => HostNote::Refused { call, fault },
    }
}

pub(crate) fn reset<S: BitStore>(host: &mut Host<S>, peer: u8) -> HostNote
    ensures note { result ≡ answer_to (Call.Reset peer) host.old }
    ensures host { host.new ≡ after_note result host.old }
{
    let reply = host.reset(peer);
    done(Call::Reset { peer }, reply)
}

pub(crate) fn ask_send<S: BitStore>(
    host: &mut Host<S>,
    peer: u8,
    pair: Pair,
    size: u8,
    room: u32,
) -> HostNote
    ensures note { CallNoted (Call.AskSend peer pair.local pair.remote size room) result host.old }
    ensures host { host.new ≡ after_note result host.old }
{
    let reply = host.ask_send(peer, pair.local, pair.remote, size, room);
    done(
        Call::AskSend {
            peer,
            local: pair.local,
            remote: pair.remote,
            size,
            room,
        },
        reply,
    )
}

pub(crate) fn ask_receive<S: BitStore>(
    host: &mut Host<S>,
    peer: u8,
    pair: Pair,
    room: u32,
) -> HostNote
    ensures note { CallNoted (Call.AskReceive peer pair.local pair.remote room) result host.old }
    ensures host { host.new ≡ after_note result host.old }
{
    let reply = host.ask_receive(peer, pair.local, pair.remote, room);
    done(
        Call::AskReceive {
            peer,
            local: pair.local,
            remote: pair.remote,
            room,
        },
        reply,
    )
}

pub(crate) fn allocate<S: BitStore>(
    host: &mut Host<S>,
    peer: u8,
    pair: Pair,
    messages: u16,
    bits: u32,
) -> HostNote
    ensures note { result ≡ answer_to (Call.Allocate peer pair messages bits) host.old }
    ensures host { host.new ≡ after_note result host.old }
{
    let reply = host.allocate(peer, pair, messages, bits);
    done(
        Call::Allocate {
            peer,
            pair,
            messages,
            bits,
        },
        reply,
    )
}

pub(crate) fn call_back<S: BitStore>(
    host: &mut Host<S>,
    peer: u8,
    pair: Pair,
    fm: u8,
    fb: u8,
) -> HostNote
    ensures note { result ≡ answer_to (Call.CallBack peer pair fm fb) host.old }
    ensures host { host.new ≡ after_note result host.old }
{
    let reply = host.call_back(peer, pair, fm, fb);
    done(Call::CallBack { peer, pair, fm, fb }, reply)
}

pub(crate) fn interrupt<S: BitStore>(host: &mut Host<S>, peer: u8, pair: Pair) -> HostNote
    ensures note { result ≡ answer_to (Call.Interrupt peer pair) host.old }
    ensures host { host.new ≡ after_note result host.old }
{
    let reply = host.interrupt(peer, pair);
    done(Call::Interrupt { peer, pair }, reply)
}

pub(crate) fn echo<S: BitStore>(host: &mut Host<S>, peer: u8, byte: u8) -> HostNote
    ensures note { result ≡ answer_to (Call.Echo peer byte) host.old }
    ensures host { host.new ≡ after_note result host.old }
{
    let reply = host.echo(peer, byte);
    done(Call::Echo { peer, byte }, reply)
}

pub(crate) fn close<S: BitStore>(host: &mut Host<S>, peer: u8, pair: Pair) -> HostNote
    ensures note { result ≡ answer_to (Call.Close peer pair) host.old }
    ensures host { host.new ≡ after_note result host.old }
{
    let reply = host.close(peer, pair);
    done(Call::Close { peer, pair }, reply)
}

pub(crate) fn wake<S: BitStore>(host: &mut Host<S>, peer: u8) -> HostNote
    ensures note { result ≡ answer_to (Call.Wake peer) host.old }
    ensures host { host.new ≡ after_note result host.old }
{
    let reply = host.wake(peer);
    done(Call::Wake { peer }, reply)
}

//! The calls of a user that allocate. Each returns `NO_HOST` if there is no host; otherwise `DONE`
//! or the number of the refusal.
ghost use Rattle.std.specs.Prelude.{◌≡◌, ◌≢◌};
ghost use Rattle.ncp_model.specs.Peers.{Ask_to_send, Ask_to_receive};
ghost use Rattle.ncp_embed.specs.Connected.{Tries};

use crate::handle::{HostHandle, put, take};
use crate::which::ConnectionId;
use ncp_results::{DONE, NO_HOST, code_of};
use std::alloc::Global;

/// `Host::ask_send`.
#[unsafe(no_mangle)]
pub extern "C" fn ncp_embed_ask_send(
    alloc: Global,
    handle: &mut HostHandle,
    which: &ConnectionId,
    size: u8,
    room: u32,
) -> u32
    ensures done { Tries which.now (Ask_to_send size room) result handle.old.host handle.new.host }
    ensures err { result ≢ DONE → handle.new.host ≡ handle.old.host }
{
    let Some(mut held) = take(alloc, handle) else {
        return NO_HOST;
    };
    let answer = held
        .host
        .ask_send(which.peer, which.local, which.remote, size, room);
    put(handle, held);
    code_of(answer)
}

/// `Host::ask_receive`.
#[unsafe(no_mangle)]
pub extern "C" fn ncp_embed_ask_receive(
    alloc: Global,
    handle: &mut HostHandle,
    which: &ConnectionId,
    room: u32,
) -> u32
    ensures done { Tries which.now (Ask_to_receive room) result handle.old.host handle.new.host }
    ensures err { result ≢ DONE → handle.new.host ≡ handle.old.host }
{
    let Some(mut held) = take(alloc, handle) else {
        return NO_HOST;
    };
    let answer = held
        .host
        .ask_receive(which.peer, which.local, which.remote, room);
    put(handle, held);
    code_of(answer)
}

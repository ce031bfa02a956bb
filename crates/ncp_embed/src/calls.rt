//! The calls of a user that do not allocate. Each returns `NO_HOST` if there is no host; otherwise
//! `DONE` or the number of the refusal.
ghost use Rattle.std.specs.Prelude.{◌≡◌, ◌≢◌};
ghost use Rattle.ncp_model.specs.Peers.{Close, Allocate, Call_back, Interrupt};
ghost use Rattle.ncp_host.specs.Restarting.{restart_reply, after_restart};
ghost use Rattle.ncp_host.specs.Calls.{reset_reply, after_reset, echo_reply, after_echo, wake_reply, after_wake};
ghost use Rattle.ncp_embed.specs.Connected.{code_of_call, host_called};
ghost use Rattle.ncp_embed.specs.Exports.{code_in, host_changed_in};

use crate::handle::{HostHandle, put, take};
use crate::which::ConnectionId;
use ncp_results::{DONE, NO_HOST, code_of};
use std::alloc::Global;

/// `Host::reset`.
#[unsafe(no_mangle)]
pub extern "C" fn ncp_embed_reset(alloc: Global, handle: &mut HostHandle, peer: u8) -> u32
    ensures code { result ≡ code_in (reset_reply peer) handle.old.host }
    ensures host { handle.new.host ≡ host_changed_in (after_reset peer) handle.old.host }
    ensures err { result ≢ DONE → handle.new.host ≡ handle.old.host }
{
    let Some(mut held) = take(alloc, handle) else {
        return NO_HOST;
    };
    let answer = held.host.reset(peer);
    put(handle, held);
    code_of(answer)
}

/// `Host::allocate`.
#[unsafe(no_mangle)]
pub extern "C" fn ncp_embed_allocate(
    alloc: Global,
    handle: &mut HostHandle,
    which: &ConnectionId,
    messages: u16,
    bits: u32,
) -> u32
    ensures code { result ≡ code_of_call which.now (Allocate messages bits) handle.old.host }
    ensures host { handle.new.host ≡ host_called which.now (Allocate messages bits) handle.old.host }
    ensures err { result ≢ DONE → handle.new.host ≡ handle.old.host }
{
    let Some(mut held) = take(alloc, handle) else {
        return NO_HOST;
    };
    let answer = held.host.allocate(which.peer, which.pair(), messages, bits);
    put(handle, held);
    code_of(answer)
}

/// `Host::call_back`.
#[unsafe(no_mangle)]
pub extern "C" fn ncp_embed_call_back(
    alloc: Global,
    handle: &mut HostHandle,
    which: &ConnectionId,
    fm: u8,
    fb: u8,
) -> u32
    ensures code { result ≡ code_of_call which.now (Call_back fm fb) handle.old.host }
    ensures host { handle.new.host ≡ host_called which.now (Call_back fm fb) handle.old.host }
    ensures err { result ≢ DONE → handle.new.host ≡ handle.old.host }
{
    let Some(mut held) = take(alloc, handle) else {
        return NO_HOST;
    };
    let answer = held.host.call_back(which.peer, which.pair(), fm, fb);
    put(handle, held);
    code_of(answer)
}

/// `Host::interrupt`.
#[unsafe(no_mangle)]
pub extern "C" fn ncp_embed_interrupt(
    alloc: Global,
    handle: &mut HostHandle,
    which: &ConnectionId,
) -> u32
    ensures code { result ≡ code_of_call which.now Interrupt handle.old.host }
    ensures host { handle.new.host ≡ host_called which.now Interrupt handle.old.host }
    ensures err { result ≢ DONE → handle.new.host ≡ handle.old.host }
{
    let Some(mut held) = take(alloc, handle) else {
        return NO_HOST;
    };
    let answer = held.host.interrupt(which.peer, which.pair());
    put(handle, held);
    code_of(answer)
}

/// `Host::close`.
#[unsafe(no_mangle)]
pub extern "C" fn ncp_embed_close(
    alloc: Global,
    handle: &mut HostHandle,
    which: &ConnectionId,
) -> u32
    ensures code { result ≡ code_of_call which.now Close handle.old.host }
    ensures host { handle.new.host ≡ host_called which.now Close handle.old.host }
    ensures err { result ≢ DONE → handle.new.host ≡ handle.old.host }
{
    let Some(mut held) = take(alloc, handle) else {
        return NO_HOST;
    };
    let answer = held.host.close(which.peer, which.pair());
    put(handle, held);
    code_of(answer)
}

/// `Host::echo`.
#[unsafe(no_mangle)]
pub extern "C" fn ncp_embed_echo(alloc: Global, handle: &mut HostHandle, peer: u8, byte: u8) -> u32
    ensures code { result ≡ code_in (echo_reply peer byte) handle.old.host }
    ensures host { handle.new.host ≡ host_changed_in (after_echo peer byte) handle.old.host }
    ensures err { result ≢ DONE → handle.new.host ≡ handle.old.host }
{
    let Some(mut held) = take(alloc, handle) else {
        return NO_HOST;
    };
    let answer = held.host.echo(peer, byte);
    put(handle, held);
    code_of(answer)
}

/// `Host::wake`.
#[unsafe(no_mangle)]
pub extern "C" fn ncp_embed_wake(alloc: Global, handle: &mut HostHandle, peer: u8) -> u32
    ensures code { result ≡ code_in (wake_reply peer) handle.old.host }
    ensures host { handle.new.host ≡ host_changed_in (after_wake peer) handle.old.host }
    ensures err { result ≢ DONE → handle.new.host ≡ handle.old.host }
{
    let Some(mut held) = take(alloc, handle) else {
        return NO_HOST;
    };
    let answer = held.host.wake(peer);
    put(handle, held);
    code_of(answer)
}

/// `Host::restart`.
#[unsafe(no_mangle)]
pub extern "C" fn ncp_embed_restart(alloc: Global, handle: &mut HostHandle, peer: u8) -> u32
    ensures code { result ≡ code_in (restart_reply peer) handle.old.host }
    ensures host { handle.new.host ≡ host_changed_in (after_restart peer) handle.old.host }
    ensures err { result ≢ DONE → handle.new.host ≡ handle.old.host }
{
    let Some(mut held) = take(alloc, handle) else {
        return NO_HOST;
    };
    let answer = held.host.restart(peer);
    put(handle, held);
    code_of(answer)
}

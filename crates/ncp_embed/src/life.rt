//! Creating, copying and freeing a host.
ghost use Rattle.std.specs.Prelude.{◌≡◌, ◌≢◌, ◌⊎◌, true, false};
ghost use Rattle.std.specs.declared.option.Option.TheVariants.{None, Some};
ghost use Rattle.ncp_host.specs.Host.{new_host, are_peers};
ghost use Rattle.ncp_host.specs.declared.fault.HostFault.TheVariants.{BadPeers, OutOfMemory};
ghost use Rattle.ncp_results.specs.Codes.{host_code};
ghost use Rattle.ncp_embed.specs.Exports.{held, IsCopyCode};

use crate::handle::{BoxedHost, HostHandle, put, take};
use ncp_host::{Host, HostFault};
use ncp_results::{DONE, NO_HOST, host_code};
use std::alloc::Global;

/// `Host::new`: replaces the handle's host.
#[unsafe(no_mangle)]
pub extern "C" fn ncp_embed_new(alloc: Global, handle: &mut HostHandle, me: u8, peers: &[u8]) -> u32
    ensures made { result ≡ DONE → handle.new.host ≡ Some (held (new_host me peers.now)) }
    ensures kept { result ≢ DONE → handle.new.host ≡ handle.old.host }
    ensures bad { are_peers me peers.now ≡ false → result ≡ host_code BadPeers }
    ensures full { are_peers me peers.now ≡ true → (result ≡ DONE) ⊎ (result ≡ host_code OutOfMemory) }
{
    let host = match Host::new(alloc, me, peers) {
        Ok(host) => host,
        Err(fault) => return host_code(fault),
    };
    match Box::new(alloc, BoxedHost { host }) {
        Ok(held) => {
            put(handle, held);
            DONE
        }
        Err(_) => host_code(HostFault::OutOfMemory),
    }
}

/// `Host::copy`: copies a handle's host, and replaces the host of the handle `copy`.
#[unsafe(no_mangle)]
pub extern "C" fn ncp_embed_copy(
    alloc: Global,
    handle: &mut HostHandle,
    copy: &mut HostHandle,
) -> u32
    ensures host { handle.new.host ≡ handle.old.host }
    ensures made { result ≡ DONE → copy.new.host ≡ handle.old.host }
    ensures kept { result ≢ DONE → copy.new.host ≡ copy.old.host }
    ensures code { IsCopyCode handle.old.host result }
{
    let Some(held) = take(alloc, handle) else {
        return NO_HOST;
    };
    let copied = held.host.copy(alloc);
    put(handle, held);
    let Ok(host) = copied else {
        return host_code(HostFault::OutOfMemory);
    };
    match Box::new(alloc, BoxedHost { host }) {
        Ok(held) => {
            put(copy, held);
            DONE
        }
        Err(_) => host_code(HostFault::OutOfMemory),
    }
}

/// Frees the host of the handle, if it has one.
#[unsafe(no_mangle)]
pub extern "C" fn ncp_embed_free(alloc: Global, handle: &mut HostHandle)
    ensures { handle.new.host ≡ None }
{
    *handle = HostHandle::none(alloc);
}

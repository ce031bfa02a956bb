//! Saving a host as bytes, and loading it.
ghost use Rattle.std.specs.Prelude.{◌≡◌, ◌≢◌, ◌⊎◌, ◌↔◌, None, true, length, nat_lt, if◌then◌else◌};
ghost use Rattle.ncp_host.specs.Holding.{IsHost};
ghost use Rattle.ncp_host.specs.Host.{Host as HostValue};
ghost use Rattle.ncp_host.specs.Loading.{version_in, is_of_other_version};
ghost use Rattle.ncp_host.specs.Saved.{saved};
ghost use Rattle.ncp_host.specs.declared.fault.LoadFault.TheVariants.{NotAHost, OtherVersion};
ghost use Rattle.ncp_embed.specs.Buffers.{saved_over};
ghost use Rattle.ncp_results.specs.Codes.{load_code};
ghost use Rattle.ncp_embed.specs.Exports.{IsLoadCode, IsLoadedOrNoMemory, IsSaveCode, IsSavedAs, bytes_saved, over};

use crate::handle::{BoxedHost, HostHandle, put, take};
use ncp_host::{Host, LoadFault};
use ncp_model::CallFault;
use ncp_results::{DONE, NO_HOST, SHORT_BUFFER, fault_code, load_code};
use std::alloc::Global;

// Writes bytes to the front of a buffer, and their number. The number is written even if they do
// not fit.
fn write_bytes(bytes: &[u8], out: &mut [u8], size: &mut usize) -> u32
    ensures code { result ≡ (if nat_lt (length out.old) (length bytes.now) then SHORT_BUFFER else DONE) }
    ensures size { size.new ≡ length bytes.now }
    ensures written { result ≡ DONE → out.new ≡ over bytes.now (length bytes.now) out.old }
    ensures kept { result ≢ DONE → out.new ≡ out.old }
{
    *size = bytes.len();
    if out.len() < bytes.len() {
        return SHORT_BUFFER;
    }
    out[..bytes.len()].copy_from_slice(bytes);
    DONE
}

/// `Host::save`: writes the bytes to the front of a buffer, and their number; the number also if
/// the buffer is too short (`SHORT_BUFFER`).
#[unsafe(no_mangle)]
pub extern "C" fn ncp_embed_save(
    alloc: Global,
    handle: &mut HostHandle,
    out: &mut [u8],
    size: &mut usize,
) -> u32
    ensures host { handle.new.host ≡ handle.old.host }
    ensures code { IsSaveCode (length out.old) handle.old.host result }
    ensures size { (result ≡ DONE) ⊎ (result ≡ SHORT_BUFFER) → size.new ≡ length (bytes_saved handle.old.host) }
    ensures untold { result ≢ DONE → result ≢ SHORT_BUFFER → size.new ≡ size.old }
    ensures written { result ≡ DONE → out.new ≡ saved_over handle.old.host out.old }
    ensures kept { result ≢ DONE → out.new ≡ out.old }
{
    let Some(held) = take(alloc, handle) else {
        return NO_HOST;
    };
    let saved = held.host.save(alloc);
    put(handle, held);
    match saved {
        Ok(bytes) => write_bytes(&bytes, out, size),
        Err(_) => fault_code(CallFault::OutOfMemory),
    }
}

/// `Host::load`: replaces the handle's host.
#[unsafe(no_mangle)]
pub extern "C" fn ncp_embed_load(alloc: Global, handle: &mut HostHandle, bytes: &[u8]) -> u32
    ensures made { result ≡ DONE → IsSavedAs bytes.now handle.new.host }
    ensures takes { (h : HostValue) → IsHost h → bytes.now ≡ saved h → IsLoadedOrNoMemory h result handle.new.host }
    ensures kept { result ≢ DONE → handle.new.host ≡ handle.old.host }
    ensures code { IsLoadCode result }
    ensures unnamed { version_in bytes.now ≡ None → result ≡ load_code NotAHost }
    ensures other { (result ≡ load_code OtherVersion) ↔ (is_of_other_version bytes.now ≡ true) }
{
    let host = match Host::load(alloc, bytes) {
        Ok(host) => host,
        Err(fault) => return load_code(fault),
    };
    match Box::new(alloc, BoxedHost { host }) {
        Ok(held) => {
            put(handle, held);
            DONE
        }
        Err(_) => load_code(LoadFault::OutOfMemory),
    }
}

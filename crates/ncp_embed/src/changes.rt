//! Changes of a connection since it was last read.
ghost use Rattle.std.specs.Prelude.{◌≡◌};
ghost use Rattle.ncp_results.specs.Changes.{seen_of};
ghost use Rattle.ncp_embed.specs.Connected.{changes_read, reading_returned};
ghost use Rattle.ncp_embed.specs.Exports.{code_in, formed_in};

use crate::handle::{HostHandle, put, take};
use crate::which::ConnectionId;
use ncp_results::{
    Changes, ConnectionInfo, DONE, NO_HOST, changes_between, fault_code, reading_of, seen_of,
};
use std::alloc::Global;

/// Compares the present reading of a connection with `seen`, the one at the last call, writes the
/// changes, and sets `seen` to the present reading. A reading is all 0 and false if there is no
/// such connection, and so is `seen` before the first call. Each change is set exactly when the two
/// readings differ in that way.
///
/// Refused, in this order: `NO_HOST`, `UnknownPeer`.
#[unsafe(no_mangle)]
pub extern "C" fn ncp_embed_changes(
    alloc: Global,
    handle: &mut HostHandle,
    which: &ConnectionId,
    seen: &mut ConnectionInfo,
    out: &mut Changes,
) -> u32
    ensures host { handle.new.host ≡ handle.old.host }
    ensures code { result ≡ code_in (reading_returned which.now) handle.old.host }
    ensures changes { out.new ≡ changes_read which.now seen.old handle.old.host out.old }
    ensures seen { seen.new ≡ formed_in seen_of (reading_returned which.now) handle.old.host seen.old }
{
    let Some(held) = take(alloc, handle) else {
        return NO_HOST;
    };
    let answer = held.host.state(which.peer, which.pair());
    put(handle, held);
    match reading_of(answer) {
        Ok(now) => {
            *out = changes_between(*seen, now);
            *seen = seen_of(now);
            DONE
        }
        Err(fault) => fault_code(fault),
    }
}

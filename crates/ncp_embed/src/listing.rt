//! Lookups: a host's connections, their room, the connection that a link identifies, and whether a
//! message is held. The host is unchanged. Each returns `NO_HOST` if there is no host.
ghost use Rattle.std.specs.Prelude.{◌≡◌};
ghost use Rattle.ncp_host.specs.Listing.{room_returned, held_returned};
ghost use Rattle.ncp_results.specs.Returned.{end_that_sends};
ghost use Rattle.ncp_embed.specs.Which.{of_which};
ghost use Rattle.ncp_embed.specs.Connected.{returned_copied, known_connection, listed_at, which_at, pair_on, which_on};
ghost use Rattle.ncp_embed.specs.Exports.{code_in, found_code_in, found_formed_in, holds_in};

use crate::handle::{HostHandle, put, take};
use crate::which::ConnectionId;
use ncp_host::Role;
use ncp_results::{ConnectionInfo, DONE, NO_HOST, NOTHING, connection_of, fault_code};
use std::alloc::Global;

/// `Host::connection_at`, for the peer in `which`: sets the sockets of `which`, and writes the
/// record as `Host::state` returns it. `NOTHING` past the last.
#[unsafe(no_mangle)]
pub extern "C" fn ncp_embed_connection_at(
    alloc: Global,
    handle: &mut HostHandle,
    place: u32,
    which: &mut ConnectionId,
    out: &mut ConnectionInfo,
) -> u32
    ensures host { handle.new.host ≡ handle.old.host }
    ensures code { result ≡ found_code_in (listed_at place which.old) handle.old.host }
    ensures which { which.new ≡ which_at place which.old handle.old.host }
    ensures output { out.new ≡ found_formed_in known_connection (listed_at place which.old) handle.old.host out.old }
{
    let Some(held) = take(alloc, handle) else {
        return NO_HOST;
    };
    let answer = held.host.connection_at(which.peer, place);
    put(handle, held);
    match answer {
        Ok(Some((pair, record))) => {
            which.local = pair.local;
            which.remote = pair.remote;
            *out = connection_of(record);
            DONE
        }
        Ok(None) => NOTHING,
        Err(fault) => fault_code(fault),
    }
}

/// `Host::room`.
#[unsafe(no_mangle)]
pub extern "C" fn ncp_embed_room(
    alloc: Global,
    handle: &mut HostHandle,
    which: &ConnectionId,
    bits: &mut u32,
) -> u32
    ensures host { handle.new.host ≡ handle.old.host }
    ensures code { result ≡ code_in (of_which room_returned which.now) handle.old.host }
    ensures output { bits.new ≡ returned_copied (of_which room_returned which.now) handle.old.host bits.old }
{
    let Some(held) = take(alloc, handle) else {
        return NO_HOST;
    };
    let answer = held.host.room(which.peer, which.pair());
    put(handle, held);
    match answer {
        Ok(room) => {
            *bits = room;
            DONE
        }
        Err(fault) => fault_code(fault),
    }
}

fn end_of(sends: bool) -> Role
    ensures { result ≡ end_that_sends sends }
{
    if sends { Role::Send } else { Role::Receive }
}

/// `Host::pair_on`, for the peer in `which`: sets the sockets of `which`. `sends` selects the
/// endpoint that sends here, or the one that receives. `NOTHING` if the link identifies no
/// connection.
#[unsafe(no_mangle)]
pub extern "C" fn ncp_embed_pair_on(
    alloc: Global,
    handle: &mut HostHandle,
    sends: bool,
    link: u8,
    which: &mut ConnectionId,
) -> u32
    ensures host { handle.new.host ≡ handle.old.host }
    ensures code { result ≡ found_code_in (pair_on sends link which.old) handle.old.host }
    ensures which { which.new ≡ which_on sends link which.old handle.old.host }
{
    let Some(held) = take(alloc, handle) else {
        return NO_HOST;
    };
    let answer = held.host.pair_on(which.peer, end_of(sends), link);
    put(handle, held);
    match answer {
        Ok(Some(pair)) => {
            which.local = pair.local;
            which.remote = pair.remote;
            DONE
        }
        Ok(None) => NOTHING,
        Err(fault) => fault_code(fault),
    }
}

/// `Host::is_held`: whether a wake is needed. False if there is no host, or no such peer.
#[unsafe(no_mangle)]
pub extern "C" fn ncp_embed_is_held(
    alloc: Global,
    handle: &mut HostHandle,
    peer: u8,
    link: u8,
) -> bool
    ensures host { handle.new.host ≡ handle.old.host }
    ensures held { result ≡ holds_in (λ held. held) (held_returned peer link) handle.old.host }
{
    let Some(held) = take(alloc, handle) else {
        return false;
    };
    let answer = held.host.is_held(peer, link);
    put(handle, held);
    match answer {
        Ok(is_held) => is_held,
        Err(_) => false,
    }
}

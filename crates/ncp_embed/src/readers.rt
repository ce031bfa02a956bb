//! Readers for the user. The host is unchanged. Each returns `NO_HOST` if there is no host; a
//! buffer that is too short is refused before that.
ghost use Rattle.std.specs.Prelude.{◌≡◌, Ok};
ghost use Rattle.ncp_host.specs.Calls.{record_told, flags_returned, echoed_returned, counts_returned};
ghost use Rattle.ncp_embed.specs.Which.{of_which};
ghost use Rattle.ncp_results.specs.Returned.{connection_of, phase_of, is_record_open, are_flags_up, counted_returned, discarded_of, noted_of};
ghost use Rattle.ncp_embed.specs.Buffers.{message_code, command_code, found_in_host, message_put, bits_put, command_put, bytes_put, waiting_returned, kept_returned};
ghost use Rattle.ncp_embed.specs.Exports.{code_in, formed_in, any_code_in, ignored_told, found_code_in, found_formed_in, holds_in};
ghost use Rattle.ncp_results.specs.Lookups.{error_told};
ghost use Rattle.ncp_results.specs.Unacknowledged.{number_of_unacknowledged, unacknowledged_returned};

use crate::handle::{HostHandle, put, take};
use crate::which::ConnectionId;
use crate::writing::{write_command, write_message};
use ncp_results::{
    ConnectionInfo, DONE, ErrCommand, IgnoredCounts, LONGEST_MESSAGE, NO_HOST, NOTHING, PeerCounts,
    PeerFlags, SHORT_BUFFER, connection_of, counted_of, discarded_of, error_in, fault_code,
    noted_of, phase_of, unacknowledged_to,
};
use ncp_wire::LONGEST_COMMAND;
use std::alloc::Global;

/// `Host::state`.
#[unsafe(no_mangle)]
pub extern "C" fn ncp_embed_state(
    alloc: Global,
    handle: &mut HostHandle,
    which: &ConnectionId,
    out: &mut ConnectionInfo,
) -> u32
    ensures host { handle.new.host ≡ handle.old.host }
    ensures code { result ≡ code_in (of_which record_told which.now) handle.old.host }
    ensures output { out.new ≡ formed_in connection_of (of_which record_told which.now) handle.old.host out.old }
{
    let Some(held) = take(alloc, handle) else {
        return NO_HOST;
    };
    let answer = held.host.state(which.peer, which.pair());
    put(handle, held);
    match answer {
        Ok(record) => {
            *out = connection_of(record);
            DONE
        }
        Err(fault) => fault_code(fault),
    }
}

/// `Host::phase`.
#[unsafe(no_mangle)]
pub extern "C" fn ncp_embed_phase(
    alloc: Global,
    handle: &mut HostHandle,
    peer: u8,
    out: &mut PeerFlags,
) -> u32
    ensures host { handle.new.host ≡ handle.old.host }
    ensures code { result ≡ code_in (flags_returned peer) handle.old.host }
    ensures output { out.new ≡ formed_in phase_of (flags_returned peer) handle.old.host out.old }
{
    let Some(held) = take(alloc, handle) else {
        return NO_HOST;
    };
    let answer = held.host.phase(peer);
    put(handle, held);
    match answer {
        Ok(flags) => {
            *out = phase_of(flags);
            DONE
        }
        Err(fault) => fault_code(fault),
    }
}

/// Whether a connection is open: both requests were made, and this side is not closing. False if
/// there is no host, or no such connection.
#[unsafe(no_mangle)]
pub extern "C" fn ncp_embed_is_open(
    alloc: Global,
    handle: &mut HostHandle,
    which: &ConnectionId,
) -> bool
    ensures host { handle.new.host ≡ handle.old.host }
    ensures open { result ≡ holds_in is_record_open (of_which record_told which.now) handle.old.host }
{
    let Some(held) = take(alloc, handle) else {
        return false;
    };
    let answer = held.host.state(which.peer, which.pair());
    put(handle, held);
    match answer {
        Ok(it) => it.asked && it.heard && !(it.leaving || it.left),
        Err(_) => false,
    }
}

/// Whether the host is up with a peer. False if there is no host, or no such peer.
#[unsafe(no_mangle)]
pub extern "C" fn ncp_embed_is_up(alloc: Global, handle: &mut HostHandle, peer: u8) -> bool
    ensures host { handle.new.host ≡ handle.old.host }
    ensures up { result ≡ holds_in are_flags_up (flags_returned peer) handle.old.host }
{
    let Some(held) = take(alloc, handle) else {
        return false;
    };
    let answer = held.host.phase(peer);
    put(handle, held);
    match answer {
        Ok(flags) => flags.up(),
        Err(_) => false,
    }
}

/// `Host::counts`.
#[unsafe(no_mangle)]
pub extern "C" fn ncp_embed_counts(
    alloc: Global,
    handle: &mut HostHandle,
    peer: u8,
    out: &mut PeerCounts,
) -> u32
    ensures host { handle.new.host ≡ handle.old.host }
    ensures code { result ≡ code_in (counts_returned peer) handle.old.host }
    ensures output { out.new ≡ formed_in counted_returned (counts_returned peer) handle.old.host out.old }
{
    let Some(held) = take(alloc, handle) else {
        return NO_HOST;
    };
    let answer = held.host.counts(peer);
    put(handle, held);
    match answer {
        Ok(counts) => {
            *out = counted_of(counts);
            DONE
        }
        Err(fault) => fault_code(fault),
    }
}

/// `Host::ignored`.
#[unsafe(no_mangle)]
pub extern "C" fn ncp_embed_ignored(
    alloc: Global,
    handle: &mut HostHandle,
    out: &mut IgnoredCounts,
) -> u32
    ensures host { handle.new.host ≡ handle.old.host }
    ensures code { result ≡ code_in ignored_told handle.old.host }
    ensures output { out.new ≡ formed_in discarded_of ignored_told handle.old.host out.old }
{
    let Some(held) = take(alloc, handle) else {
        return NO_HOST;
    };
    let ignored = held.host.ignored();
    put(handle, held);
    *out = discarded_of(ignored);
    DONE
}

/// `Host::waiting`: writes the bytes of the command to the front of a buffer, and their number.
///
/// Refused, in this order: `SHORT_BUFFER` (fewer than `LONGEST_COMMAND` bytes), `NO_HOST`,
/// `NOTHING` (no command at that index).
#[unsafe(no_mangle)]
pub extern "C" fn ncp_embed_waiting(
    alloc: Global,
    handle: &mut HostHandle,
    peer: u8,
    place: u32,
    out: &mut [u8],
    bytes: &mut usize,
) -> u32
    ensures host { handle.new.host ≡ handle.old.host }
    ensures code { result ≡ command_code out.old (any_code_in (waiting_returned peer place) handle.old.host) }
    ensures command { out.new ≡ command_put (found_in_host (waiting_returned peer place) handle.old.host) out.old }
    ensures bytes { bytes.new ≡ bytes_put (found_in_host (waiting_returned peer place) handle.old.host) out.old bytes.old }
{
    if out.len() < LONGEST_COMMAND {
        return SHORT_BUFFER;
    }
    let Some(held) = take(alloc, handle) else {
        return NO_HOST;
    };
    let waiting = held.host.waiting(peer, place);
    put(handle, held);
    match waiting {
        Some(command) => {
            *bytes = write_command(&command, out);
            DONE
        }
        None => NOTHING,
    }
}

/// `Host::kept`: writes the message to the front of a buffer, and its length in bits.
///
/// Refused, in this order: `SHORT_BUFFER` (fewer than `LONGEST_MESSAGE` bytes), `NO_HOST`,
/// `NOTHING` (no message is kept on that link).
#[unsafe(no_mangle)]
pub extern "C" fn ncp_embed_kept(
    alloc: Global,
    handle: &mut HostHandle,
    peer: u8,
    link: u8,
    out: &mut [u8],
    bits: &mut usize,
) -> u32
    ensures host { handle.new.host ≡ handle.old.host }
    ensures code { result ≡ message_code out.old (any_code_in (kept_returned peer link) handle.old.host) }
    ensures message { out.new ≡ message_put (found_in_host (kept_returned peer link) handle.old.host) out.old }
    ensures bits { bits.new ≡ bits_put (found_in_host (kept_returned peer link) handle.old.host) out.old bits.old }
{
    if out.len() < LONGEST_MESSAGE {
        return SHORT_BUFFER;
    }
    let Some(held) = take(alloc, handle) else {
        return NO_HOST;
    };
    let code = match held.host.kept(peer, link) {
        Some(message) => {
            *bits = write_message(message, out);
            DONE
        }
        None => NOTHING,
    };
    put(handle, held);
    code
}

/// `unacknowledged_to` of `ncp_results`, as a number.
#[unsafe(no_mangle)]
pub extern "C" fn ncp_embed_unacknowledged(
    alloc: Global,
    handle: &mut HostHandle,
    peer: u8,
    what: &mut u32,
) -> u32
    ensures host { handle.new.host ≡ handle.old.host }
    ensures code { result ≡ code_in (unacknowledged_returned peer) handle.old.host }
    ensures output { what.new ≡ formed_in number_of_unacknowledged (unacknowledged_returned peer) handle.old.host what.old }
{
    let Some(held) = take(alloc, handle) else {
        return NO_HOST;
    };
    let answer = unacknowledged_to(&held.host, peer);
    put(handle, held);
    match answer {
        Ok(found) => {
            *what = found.number();
            DONE
        }
        Err(fault) => fault_code(fault),
    }
}

/// `Host::echoed`. `NOTHING` if no ERP has answered an echo.
#[unsafe(no_mangle)]
pub extern "C" fn ncp_embed_echoed(
    alloc: Global,
    handle: &mut HostHandle,
    peer: u8,
    byte: &mut u8,
) -> u32
    ensures host { handle.new.host ≡ handle.old.host }
    ensures code { result ≡ found_code_in (echoed_returned peer) handle.old.host }
    ensures output { byte.new ≡ found_formed_in (λ b. b) (echoed_returned peer) handle.old.host byte.old }
{
    let Some(held) = take(alloc, handle) else {
        return NO_HOST;
    };
    let answer = held.host.echoed(peer);
    put(handle, held);
    match answer {
        Ok(Some(echoed)) => {
            *byte = echoed;
            DONE
        }
        Ok(None) => NOTHING,
        Err(fault) => fault_code(fault),
    }
}

/// One of `Host::errors`, at index `place`; the oldest is at 0. `NOTHING` if fewer are kept.
#[unsafe(no_mangle)]
pub extern "C" fn ncp_embed_error(
    alloc: Global,
    handle: &mut HostHandle,
    peer: u8,
    place: u32,
    out: &mut ErrCommand,
) -> u32
    ensures host { handle.new.host ≡ handle.old.host }
    ensures code { result ≡ found_code_in (error_told peer place) handle.old.host }
    ensures output { out.new ≡ found_formed_in noted_of (error_told peer place) handle.old.host out.old }
{
    let Some(held) = take(alloc, handle) else {
        return NO_HOST;
    };
    let answer = error_in(&held.host, peer, place);
    put(handle, held);
    match answer {
        Ok(Some(error)) => {
            *out = noted_of(error);
            DONE
        }
        Ok(None) => NOTHING,
        Err(fault) => fault_code(fault),
    }
}

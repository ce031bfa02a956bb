//! Receiving and sending messages.
ghost use Rattle.std.specs.Prelude.{◌≡◌, ◌≢◌, ◌<◌, ◌≤◌, length};
ghost use Rattle.ncp_bits.specs.Bits.{read_bytes};
ghost use Rattle.ncp_peer.specs.Readiness.{IsNext};
ghost use Rattle.ncp_host.specs.Turns.{next_output, after_next_output};
ghost use Rattle.ncp_embed.specs.Buffers.{message_code, host_with_room, FirstIsReady, found_in_host, message_put, bits_put, code_of_take, host_after_take, taken_text};
ghost use Rattle.ncp_embed.specs.Exports.{TouchesOnePeer, any_code_in, any_of, code_if_any, message_over, size_of_message, code_of_bits, receive_code};
ghost use Rattle.ncp_embed.specs.FromBits.{host_after_bits, arrived_from_bits, code_of_give, host_after_give};

use crate::handle::{BoxedHost, HostHandle, put, take};
use crate::which::ConnectionId;
use crate::writing::write_message;
use ncp_bits::Part;
use ncp_results::{
    Arrived, DONE, LONGEST_MESSAGE, NO_HOST, NOTHING, SHORT_BUFFER, bits_code, code_of, fault_code,
    receive,
};
use std::alloc::Global;

/// `Host::receive`, with the first `bits` bits of a buffer.
///
/// Refused, in this order: `BITS` and the number of the bits fault, `NO_HOST`.
#[unsafe(no_mangle)]
pub extern "C" fn ncp_embed_receive(
    alloc: Global,
    handle: &mut HostHandle,
    bytes: &[u8],
    bits: usize,
    arrived: &mut Arrived,
) -> u32
    ensures code { result ≡ code_of_bits (read_bytes bytes.now bits) (λ came. receive_code came handle.old.host) }
    ensures host { handle.new.host ≡ host_after_bits (read_bytes bytes.now bits) handle.old.host }
    ensures err { result ≢ DONE → handle.new.host ≡ handle.old.host }
    ensures bits_touch_one_peer_alone { TouchesOnePeer (read_bytes bytes.now bits) handle.old.host handle.new.host }
    ensures arrived { arrived.new ≡ arrived_from_bits (read_bytes bytes.now bits) handle.old.host arrived.old }
{
    let came = match Part::from_bytes(bytes, bits) {
        Ok(came) => came,
        Err(fault) => return bits_code(fault),
    };
    let Some(mut held) = take(alloc, handle) else {
        return NO_HOST;
    };
    *arrived = receive(&mut held.host, &came);
    put(handle, held);
    DONE
}

// Sends the next message, and writes the kept message to the front of a buffer.
#[tactic(auto, using(crate::proofs::Quiet::output_stays))]
fn write_next(held: &mut BoxedHost, out: &mut [u8], bits: &mut usize) -> u32
    requires { LONGEST_MESSAGE ≤ length out.old }
    ensures code { result ≡ code_if_any (next_output held.old.host) }
    ensures host { held.new.host ≡ after_next_output held.old.host }
    ensures err { result ≢ DONE → held.new.host ≡ held.old.host }
    ensures first_ready { IsNext (next_output held.old.host) held.old.host.peers }
    ensures message { out.new ≡ any_of message_over (next_output held.old.host) out.old }
    ensures bits { bits.new ≡ any_of size_of_message (next_output held.old.host) bits.old }
{
    let Some(sent) = held.host.send_next() else {
        return NOTHING;
    };
    match held.host.kept(sent.peer, sent.link) {
        Some(message) => {
            *bits = write_message(message, out);
            DONE
        }
        None => NOTHING,
    }
}

/// `Host::next_output`: writes the message to the front of a buffer, and its length in bits.
///
/// Refused, in this order: `SHORT_BUFFER` (fewer than `LONGEST_MESSAGE` bytes), `NO_HOST`,
/// `NOTHING` (no message is ready).
#[unsafe(no_mangle)]
pub extern "C" fn ncp_embed_next_output(
    alloc: Global,
    handle: &mut HostHandle,
    out: &mut [u8],
    bits: &mut usize,
) -> u32
    ensures code { result ≡ message_code out.old (any_code_in next_output handle.old.host) }
    ensures host { handle.new.host ≡ host_with_room out.old after_next_output handle.old.host }
    ensures err { result ≢ DONE → handle.new.host ≡ handle.old.host }
    ensures first_ready { LONGEST_MESSAGE ≤ length out.old → FirstIsReady handle.old.host }
    ensures message { out.new ≡ message_put (found_in_host next_output handle.old.host) out.old }
    ensures bits { bits.new ≡ bits_put (found_in_host next_output handle.old.host) out.old bits.old }
{
    if out.len() < LONGEST_MESSAGE {
        return SHORT_BUFFER;
    }
    let Some(mut held) = take(alloc, handle) else {
        return NO_HOST;
    };
    let code = write_next(&mut held, out, bits);
    put(handle, held);
    code
}

/// `Host::give`, with the first `bits` bits of a buffer.
///
/// Refused, in this order: `BITS` and the number of the bits fault, `NO_HOST`, the refusals of
/// `Host::give`.
#[unsafe(no_mangle)]
pub extern "C" fn ncp_embed_give(
    alloc: Global,
    handle: &mut HostHandle,
    which: &ConnectionId,
    bytes: &[u8],
    bits: usize,
) -> u32
    ensures code { result ≡ code_of_give which.now bytes.now bits handle.old.host }
    ensures host { handle.new.host ≡ host_after_give which.now bytes.now bits handle.old.host }
    ensures err { result ≢ DONE → handle.new.host ≡ handle.old.host }
{
    let text = match Part::from_bytes(bytes, bits) {
        Ok(text) => text,
        Err(fault) => return bits_code(fault),
    };
    let Some(mut held) = take(alloc, handle) else {
        return NO_HOST;
    };
    let answer = held.host.give_part(which.peer, which.pair(), text);
    put(handle, held);
    code_of(answer)
}

/// `Host::take`: writes the text to the front of a buffer, and its length in bits.
///
/// Refused, in this order: `SHORT_BUFFER` (fewer than `LONGEST_MESSAGE` bytes), `NO_HOST`, the
/// refusals of `Host::take`.
#[unsafe(no_mangle)]
pub extern "C" fn ncp_embed_take(
    alloc: Global,
    handle: &mut HostHandle,
    which: &ConnectionId,
    bytes: u32,
    out: &mut [u8],
    bits: &mut usize,
) -> u32
    ensures code { result ≡ code_of_take which.now bytes out.old handle.old.host }
    ensures host { handle.new.host ≡ host_after_take which.now bytes out.old handle.old.host }
    ensures err { result ≢ DONE → handle.new.host ≡ handle.old.host }
    ensures text { out.new ≡ message_put (taken_text which.now bytes handle.old.host) out.old }
    ensures bits { bits.new ≡ bits_put (taken_text which.now bytes handle.old.host) out.old bits.old }
{
    if out.len() < LONGEST_MESSAGE {
        return SHORT_BUFFER;
    }
    let Some(mut held) = take(alloc, handle) else {
        return NO_HOST;
    };
    let answer = held.host.take(which.peer, which.pair(), bytes);
    put(handle, held);
    match answer {
        Ok(text) => {
            *bits = write_message(&text, out);
            DONE
        }
        Err(fault) => fault_code(fault),
    }
}

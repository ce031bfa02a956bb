//! A subnet for C: it carries the messages between hosts. Each function here calls a function of
//! `ncp_subnet`, and restates its clauses.
ghost use Rattle.std.specs.Prelude.{◌≡◌, ◌≢◌, ◌⊎◌};
ghost use Rattle.std.specs.declared.option.Option.TheVariants.{None, Some};
ghost use Rattle.ncp_bits.specs.Bits.{read_bytes};
ghost use Rattle.ncp_subnet.specs.Subnet.{new_subnet};
ghost use Rattle.ncp_host.specs.declared.fault.HostFault.TheVariants.{OutOfMemory};
ghost use Rattle.ncp_embed.specs.Buffers.{message_code, subnet_with_room, found_in_net, message_put, bits_put};
ghost use Rattle.ncp_results.specs.Codes.{host_code};
ghost use Rattle.ncp_embed.specs.SubnetExports.{subnet_carried, Accepts, coming_in, after_coming, answer_in_transit, subnet_after_answer, is_under_way, after_loss, after_death, changed_in, holds_code_in, code_in_net};

use crate::net::{BoxedSubnet, SubnetHandle, put, take};
use crate::writing::write_message;
use ncp_bits::Part;
use ncp_host::HostFault;
use ncp_results::{
    DONE, LONGEST_MESSAGE, NO_SUBNET, NOTHING, SHORT_BUFFER, bits_code, host_code, subnet_code,
};
use ncp_subnet::Subnet;
use std::alloc::Global;

/// The link of a message, with the host that sent it and the host that receives it.
#[repr(C)]
#[derive(Clone, Copy, Drop)]
pub struct LinkId {
    pub from: u8,
    pub to: u8,
    pub link: u8,
}

/// `Subnet::among`: replaces the net's subnet.
#[unsafe(no_mangle)]
pub extern "C" fn ncp_embed_subnet_new(alloc: Global, net: &mut SubnetHandle, hosts: &[u8]) -> u32
    ensures made { result ≡ DONE → net.new.subnet ≡ Some (subnet_carried (new_subnet hosts.now)) }
    ensures kept { result ≢ DONE → net.new.subnet ≡ net.old.subnet }
    ensures either { (result ≡ DONE) ⊎ (result ≡ host_code OutOfMemory) }
{
    let Ok(subnet) = Subnet::among(alloc, hosts) else {
        return host_code(HostFault::OutOfMemory);
    };
    match Box::new(alloc, BoxedSubnet { subnet }) {
        Ok(carried) => {
            put(net, carried);
            DONE
        }
        Err(_) => host_code(HostFault::OutOfMemory),
    }
}

/// Frees the subnet of the net, if it has one.
#[unsafe(no_mangle)]
pub extern "C" fn ncp_embed_subnet_free(alloc: Global, net: &mut SubnetHandle)
    ensures { net.new.subnet ≡ None }
{
    *net = SubnetHandle::none(alloc);
}

/// `Subnet::accept`, with the first `bits` bits of a buffer.
///
/// Refused, in this order: `BITS` and the number of the bits fault, `NO_SUBNET`, `SUBNET` and the
/// number of the subnet's fault.
#[unsafe(no_mangle)]
pub extern "C" fn ncp_embed_subnet_accept(
    alloc: Global,
    net: &mut SubnetHandle,
    from: u8,
    bytes: &[u8],
    bits: usize,
) -> u32
    ensures accepts { Accepts (read_bytes bytes.now bits) from net.old.subnet net.new.subnet result }
    ensures err { result ≢ DONE → net.new.subnet ≡ net.old.subnet }
{
    let came = match Part::from_bytes(bytes, bits) {
        Ok(came) => came,
        Err(fault) => return bits_code(fault),
    };
    let Some(mut carried) = take(alloc, net) else {
        return NO_SUBNET;
    };
    let answer = carried.subnet.accept_part(from, came);
    put(net, carried);
    match answer {
        Ok(()) => DONE,
        Err(fault) => subnet_code(fault),
    }
}

/// `Subnet::deliver`: writes the message to the front of a buffer, and its length in bits.
///
/// Refused, in this order: `SHORT_BUFFER` (fewer than `LONGEST_MESSAGE` bytes), `NO_SUBNET`,
/// `NOTHING` (no message is underway).
#[unsafe(no_mangle)]
pub extern "C" fn ncp_embed_subnet_deliver(
    alloc: Global,
    net: &mut SubnetHandle,
    lane: &LinkId,
    out: &mut [u8],
    bits: &mut usize,
) -> u32
    ensures code { result ≡ message_code out.old (code_in_net (coming_in lane.now) net.old.subnet) }
    ensures subnet { net.new.subnet ≡ subnet_with_room out.old (after_coming lane.now) net.old.subnet }
    ensures message { out.new ≡ message_put (found_in_net (coming_in lane.now) net.old.subnet) out.old }
    ensures bits { bits.new ≡ bits_put (found_in_net (coming_in lane.now) net.old.subnet) out.old bits.old }
    ensures err { result ≢ DONE → net.new.subnet ≡ net.old.subnet }
{
    if out.len() < LONGEST_MESSAGE {
        return SHORT_BUFFER;
    }
    let Some(mut carried) = take(alloc, net) else {
        return NO_SUBNET;
    };
    let came = carried.subnet.deliver(lane.from, lane.to, lane.link);
    put(net, carried);
    match came {
        Some(message) => {
            *bits = write_message(&message, out);
            DONE
        }
        None => NOTHING,
    }
}

/// `Subnet::lose`. `NOTHING` if no message is underway.
#[unsafe(no_mangle)]
pub extern "C" fn ncp_embed_subnet_lose(alloc: Global, net: &mut SubnetHandle, lane: &LinkId) -> u32
    ensures code { result ≡ holds_code_in (is_under_way lane.now) net.old.subnet }
    ensures subnet { net.new.subnet ≡ changed_in (after_loss lane.now) net.old.subnet }
    ensures err { result ≢ DONE → net.new.subnet ≡ net.old.subnet }
{
    let Some(mut carried) = take(alloc, net) else {
        return NO_SUBNET;
    };
    let is_lost = carried.subnet.lose(lane.from, lane.to, lane.link);
    put(net, carried);
    if is_lost { DONE } else { NOTHING }
}

/// `Subnet::dead`. `NOTHING` if no message is underway.
#[unsafe(no_mangle)]
pub extern "C" fn ncp_embed_subnet_dead(alloc: Global, net: &mut SubnetHandle, lane: &LinkId) -> u32
    ensures code { result ≡ holds_code_in (is_under_way lane.now) net.old.subnet }
    ensures subnet { net.new.subnet ≡ changed_in (after_death lane.now) net.old.subnet }
    ensures err { result ≢ DONE → net.new.subnet ≡ net.old.subnet }
{
    let Some(mut carried) = take(alloc, net) else {
        return NO_SUBNET;
    };
    let is_dead = carried.subnet.dead(lane.from, lane.to, lane.link);
    put(net, carried);
    if is_dead { DONE } else { NOTHING }
}

/// `Subnet::answer`: writes the answer to the front of a buffer, and its length in bits.
///
/// Refused, in this order: `SHORT_BUFFER` (fewer than `LONGEST_MESSAGE` bytes), `NO_SUBNET`,
/// `NOTHING` (no answer is pending).
#[unsafe(no_mangle)]
pub extern "C" fn ncp_embed_subnet_answer(
    alloc: Global,
    net: &mut SubnetHandle,
    lane: &LinkId,
    out: &mut [u8],
    bits: &mut usize,
) -> u32
    ensures code { result ≡ message_code out.old (code_in_net (answer_in_transit lane.now) net.old.subnet) }
    ensures subnet { net.new.subnet ≡ subnet_with_room out.old (subnet_after_answer lane.now) net.old.subnet }
    ensures message { out.new ≡ message_put (found_in_net (answer_in_transit lane.now) net.old.subnet) out.old }
    ensures bits { bits.new ≡ bits_put (found_in_net (answer_in_transit lane.now) net.old.subnet) out.old bits.old }
    ensures err { result ≢ DONE → net.new.subnet ≡ net.old.subnet }
{
    if out.len() < LONGEST_MESSAGE {
        return SHORT_BUFFER;
    }
    let Some(mut carried) = take(alloc, net) else {
        return NO_SUBNET;
    };
    let answer = carried.subnet.answer(lane.from, lane.to, lane.link);
    put(net, carried);
    match answer {
        Some(message) => {
            *bits = write_message(&message, out);
            DONE
        }
        None => NOTHING,
    }
}

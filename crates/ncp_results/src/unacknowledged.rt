//! What a host has sent to a peer that no RFNM has acknowledged.
ghost use Rattle.std.specs.Prelude.{◌≡◌};
ghost use Rattle.ncp_slot.specs.Slots.{data_links};
ghost use Rattle.ncp_peer.specs.Output.{links};
ghost use Rattle.ncp_host.specs.Host.{state_of};
ghost use Rattle.ncp_results.specs.Unacknowledged.{is_unacknowledged, is_reset_unacknowledged, is_any_unacknowledged, unacknowledged_for, unacknowledged_returned, number_of_unacknowledged};

use crate::commands::has_reset;
use ncp_bits::PackedStore;
use ncp_host::Host;
use ncp_model::CallFault;
use ncp_wire::{CONTROL_LINK, FIRST_LINK, LAST_LINK};

/// What a host has sent to a peer that no RFNM has acknowledged: unanswered, or to be sent again. A
/// message that is held since its destination was dead does not count.
#[derive(Clone, Copy, Drop)]
pub enum Unacknowledged {
    /// No message.
    Nothing = 0,
    /// A message, but no RST and no RRP.
    Message = 1,
    /// A message with an RST or an RRP among its commands.
    Reset = 2,
}

impl Unacknowledged {
    /// Its number for callers in other languages.
    pub fn number(self) -> u32
        ensures { result ≡ number_of_unacknowledged self }
    {
        match self {
            Unacknowledged::Nothing => 0,
            Unacknowledged::Message => 1,
            Unacknowledged::Reset => 2,
        }
    }
}

// Whether a message is unacknowledged on a link.
fn is_unacknowledged(host: &Host<PackedStore>, peer: u8, link: u8) -> bool
    ensures { result ≡ is_unacknowledged link (state_of host.now peer) }
{
    match host.is_held(peer, link) {
        Ok(is_held) => host.kept(peer, link).is_some() && !is_held,
        Err(_) => false,
    }
}

// Whether the message on the control link is, and has an RST or an RRP.
fn is_reset_unacknowledged(host: &Host<PackedStore>, peer: u8) -> bool
    ensures { result ≡ is_reset_unacknowledged (state_of host.now peer) }
{
    match host.kept(peer, CONTROL_LINK) {
        Some(message) => is_unacknowledged(host, peer, CONTROL_LINK) && has_reset(&message.whole()),
        None => false,
    }
}

// Whether a message is on a data link.
fn is_text_unacknowledged(host: &Host<PackedStore>, peer: u8) -> bool
    ensures { result ≡ is_any_unacknowledged data_links (state_of host.now peer) }
{
    for link in FIRST_LINK..LAST_LINK + 1 {
        if is_unacknowledged(host, peer, link) {
            return true;
        }
    }
    false
}

// Whether a message is on any link.
fn is_any_unacknowledged(host: &Host<PackedStore>, peer: u8) -> bool
    ensures { result ≡ is_any_unacknowledged links (state_of host.now peer) }
{
    if is_unacknowledged(host, peer, CONTROL_LINK) {
        return true;
    }
    is_text_unacknowledged(host, peer)
}

fn unacknowledged_for(host: &Host<PackedStore>, peer: u8) -> Unacknowledged
    ensures { result ≡ unacknowledged_for (state_of host.now peer) }
{
    if is_reset_unacknowledged(host, peer) {
        return Unacknowledged::Reset;
    }
    if is_any_unacknowledged(host, peer) {
        return Unacknowledged::Message;
    }
    Unacknowledged::Nothing
}

/// What the host has sent to a peer that no RFNM has acknowledged. [`Host::restart`] does not
/// change it. Does not allocate. Refused: `UnknownPeer`.
pub fn unacknowledged_to(host: &Host<PackedStore>, peer: u8) -> Result<Unacknowledged, CallFault>
    ensures { result ≡ unacknowledged_returned peer host.now }
{
    match host.phase(peer) {
        Ok(_) => Ok(unacknowledged_for(host, peer)),
        Err(fault) => Err(fault),
    }
}

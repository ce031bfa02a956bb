//! `InterfaceEvent`: the event that a record is at its host's interface.
ghost use Rattle.std.specs.Prelude.{◌≡◌};
ghost use Rattle.ncp_interface.specs.Events.{is_answer, is_nop, event_of, event_out, event_from};

use crate::imp_direction::ImpDirection;
use ncp_bits::Bits;
use ncp_leader::{DESTINATION_DEAD, INCOMPLETE, Leader, REGULAR, RFNM, read_leader};

// The type of a message by which a host or an IMP comes up, and which says nothing else.
const NOP: u8 = 4;

/// The event that a record is at its host's interface.
#[derive(Clone, Copy, Drop)]
pub enum InterfaceEvent {
    /// A message without a leader.
    Short,
    /// A message about which there is no rule.
    Nothing,
    /// A message whose leader names the host itself.
    Own { kind: u8, link: u8 },
    /// A message of the host that is for no host.
    Other { kind: u8 },
    /// A message of the host to a peer.
    Out { peer: u8, link: u8 },
    /// The subnet's answer to a message to a peer.
    Answer { kind: u8, peer: u8, link: u8 },
    /// A message from a peer.
    In { peer: u8, link: u8 },
}

// Whether a message type is an answer.
fn is_answer(kind: u8) -> bool
    ensures { result ≡ is_answer kind }
{
    kind == RFNM || kind == DESTINATION_DEAD || kind == INCOMPLETE
}

// Whether a message is a NOP.
fn is_nop(leader: &Leader) -> bool
    ensures { result ≡ is_nop leader.now }
{
    leader.kind == NOP
}

// The event of a message from the host.
fn event_out(at: u8, leader: &Leader) -> InterfaceEvent
    ensures { result ≡ event_out at leader.now }
{
    if is_nop(leader) {
        InterfaceEvent::Nothing
    } else if leader.host == at {
        InterfaceEvent::Own {
            kind: leader.kind,
            link: leader.link,
        }
    } else if leader.kind == REGULAR {
        InterfaceEvent::Out {
            peer: leader.host,
            link: leader.link,
        }
    } else {
        InterfaceEvent::Other { kind: leader.kind }
    }
}

// The event of a message to the host.
fn event_from(at: u8, leader: &Leader) -> InterfaceEvent
    ensures { result ≡ event_from at leader.now }
{
    if leader.kind != REGULAR && !is_answer(leader.kind) {
        InterfaceEvent::Nothing
    } else if leader.host == at {
        InterfaceEvent::Own {
            kind: leader.kind,
            link: leader.link,
        }
    } else if leader.kind == REGULAR {
        InterfaceEvent::In {
            peer: leader.host,
            link: leader.link,
        }
    } else {
        InterfaceEvent::Answer {
            kind: leader.kind,
            peer: leader.host,
            link: leader.link,
        }
    }
}

/// The event of a message at a host's interface.
pub fn event_of(way: ImpDirection, at: u8, message: &Bits) -> InterfaceEvent
    ensures { result ≡ event_of way at message.now }
{
    match (read_leader(message), way) {
        (Err(_), _) => InterfaceEvent::Short,
        (Ok(leader), ImpDirection::ToImp) => event_out(at, &leader),
        (Ok(leader), ImpDirection::FromImp) => event_from(at, &leader),
    }
}

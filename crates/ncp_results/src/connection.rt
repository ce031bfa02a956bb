//! The record of a connection.
ghost use Rattle.std.specs.Prelude.{◌≡◌};
ghost use Rattle.ncp_results.specs.Returned.{connection_of, is_send_end};

use ncp_host::{Record, Role};

/// The record of a connection.
#[repr(C)]
#[derive(Clone, Copy, Drop)]
pub struct ConnectionInfo {
    pub bits: u32,
    pub stored: u32,
    pub interrupts: u32,
    pub messages: u16,
    pub link: u8,
    pub size: u8,
    pub sends: bool,
    pub asked: bool,
    pub heard: bool,
    pub opened: bool,
    pub leaving: bool,
    pub left: bool,
    pub cls: bool,
    pub busy: bool,
    pub recall: bool,
}

fn is_sender(end: Role) -> bool
    ensures { result ≡ is_send_end end }
{
    match end {
        Role::Send => true,
        Role::Receive => false,
    }
}

/// The record, as `Host::state` returns it, as a struct of numbers.
pub fn connection_of(known: Record) -> ConnectionInfo
    ensures { result ≡ connection_of known }
{
    ConnectionInfo {
        bits: known.bits,
        stored: known.stored,
        interrupts: known.interrupts,
        messages: known.messages,
        link: known.link,
        size: known.size,
        sends: is_sender(known.end),
        asked: known.asked,
        heard: known.heard,
        opened: known.opened,
        leaving: known.leaving,
        left: known.left,
        cls: known.cls,
        busy: known.busy,
        recall: known.recall,
    }
}

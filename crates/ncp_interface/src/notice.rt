//! `ImpNotice`: what an IMP reports about the messages of its host.
ghost use Rattle.std.specs.Prelude.{◌≡◌};
ghost use Rattle.ncp_interface.specs.Notices.{notice_in, notice_of};

use crate::imp_direction::ImpDirection;
use ncp_bits::Bits;
use ncp_leader::{Leader, read_leader};

// The type of a message by which an IMP reports that it did not take a message of its host.
const MESSAGE_REFUSED: u8 = 8;

// The type of a message by which an IMP reports that its interface to the host was reset.
const INTERFACE_RESET: u8 = 10;

/// What an IMP reports about the messages of its host (BBN Report 1822, section 3).
#[derive(Clone, Copy, Drop)]
pub enum ImpNotice {
    /// Its interface to the host was reset (type 10): it forgot all that it has not answered.
    InterfaceReset,
    /// It did not take the host's message to a peer on a link (type 8), and sends no answer to it.
    MessageRefused { peer: u8, link: u8 },
}

// The notice in a leader.
fn notice_in(leader: &Leader) -> Option<ImpNotice>
    ensures { result ≡ notice_in leader.now }
{
    match leader.kind {
        INTERFACE_RESET => Some(ImpNotice::InterfaceReset),
        MESSAGE_REFUSED => Some(ImpNotice::MessageRefused {
            peer: leader.host,
            link: leader.link,
        }),
        _ => None,
    }
}

/// The notice that a message is, if it is one.
pub fn notice_of(way: ImpDirection, message: &Bits) -> Option<ImpNotice>
    ensures { result ≡ notice_of way message.now }
{
    match (way, read_leader(message)) {
        (ImpDirection::FromImp, Ok(leader)) => notice_in(&leader),
        _ => None,
    }
}

//! Messages of the control link.
ghost use Rattle.std.specs.Prelude.{◌≡◌};
ghost use Rattle.ncp_play_files.specs.Lines.{is_on_control_link, is_control};

use ncp_leader::Regular;
use ncp_wire::{CONTROL_LINK, CONTROL_SIZE};

/// Whether a message is on the control link.
pub(crate) fn is_on_control_link(message: &Regular<'_>) -> bool
    ensures { result ≡ is_on_control_link message.now }
{
    message.leader().link == CONTROL_LINK
}

/// Whether a message carries commands: it is on the control link, and its bytes have eight bits.
pub(crate) fn is_of_control(message: &Regular<'_>) -> bool
    ensures { result ≡ is_control message.now }
{
    is_on_control_link(message) && message.size() == CONTROL_SIZE
}

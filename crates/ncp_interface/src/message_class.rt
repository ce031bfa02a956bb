//! `MessageClass`: what a message carries.
ghost use Rattle.std.specs.Prelude.{◌≡◌};
ghost use Rattle.ncp_interface.specs.Contents.{is_unused, message_class};

use ncp_leader::Regular;
use ncp_wire::{CONTROL_LINK, CONTROL_SIZE, LAST_LINK, UNUSED_LINK};

/// What a regular message carries.
#[derive(Clone, Copy, Drop)]
pub enum MessageClass {
    /// Nothing that is read.
    Stop,
    /// A text of a connection.
    Text,
    /// A control text.
    Control,
}

/// Whether a link is for neither control nor a connection.
pub fn is_unused(link: u8) -> bool
    ensures { result ≡ is_unused link }
{
    link == UNUSED_LINK || link > LAST_LINK
}

/// What a regular message carries.
pub fn class_of(regular: &Regular<'_>) -> MessageClass
    ensures { result ≡ message_class regular.now }
{
    let link = regular.leader().link;
    if is_unused(link) {
        MessageClass::Stop
    } else if link != CONTROL_LINK {
        MessageClass::Text
    } else if regular.size() == CONTROL_SIZE {
        MessageClass::Control
    } else {
        MessageClass::Stop
    }
}

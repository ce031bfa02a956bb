//! `MessageFault`.
ghost use Rattle.std.specs.Prelude.{◌≡◌};
ghost use Rattle.ncp_leader.specs.Fault.{name_of_message_fault};

use crate::regular::MAX_TEXT_BITS;
use thiserror::Error;

/// The reasons why bits are no regular message, or why none can be made, in the order in which they
/// are checked.
#[derive(Clone, Copy, Debug, Drop, PartialEq, Eq, Error)]
pub enum MessageFault {
    #[error("shorter than leader and prefix")]
    ShortPrefix = 1,
    #[error("the eight bits before the byte size are not zero")]
    M1NotZero = 2,
    #[error("the byte size is zero")]
    SizeZero = 3,
    #[error("the eight bits after the byte count are not zero")]
    M2NotZero = 4,
    #[error("the text is shorter than byte size and byte count say")]
    TextMissing = 5,
    #[error("more than {MAX_TEXT_BITS} bits of text")]
    TextTooLong = 6,
    #[error("the text is no whole number of bytes")]
    NotWhole = 7,
}

impl MessageFault {
    /// The name that a program prints.
    pub fn name(self) -> &'static str
        ensures { result.now ≡ name_of_message_fault self }
    {
        match self {
            MessageFault::ShortPrefix => "ShortPrefix",
            MessageFault::M1NotZero => "M1NotZero",
            MessageFault::SizeZero => "SizeZero",
            MessageFault::M2NotZero => "M2NotZero",
            MessageFault::TextMissing => "TextMissing",
            MessageFault::TextTooLong => "TextTooLong",
            MessageFault::NotWhole => "NotWhole",
        }
    }
}

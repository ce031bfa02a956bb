//! `CallFault`.
ghost use Rattle.std.specs.Prelude.{◌≡◌};
ghost use Rattle.ncp_model.specs.Faults.{name_of_call_fault, fault_number};

use thiserror::Error;

/// The reasons why a call is refused, in the order in which they are checked. A refused call
/// changes nothing.
#[derive(Clone, Copy, Debug, Drop, PartialEq, Eq, Error)]
pub enum CallFault {
    #[error("no such peer")]
    UnknownPeer = 1,
    #[error("not up with this peer")]
    NotUp = 2,
    #[error("a socket of the wrong sex for this call")]
    BadSex = 3,
    #[error("a byte of no bits")]
    BadSize = 4,
    #[error("a store of fewer than 1 or more than {} bits", crate::MAX_ROOM)]
    BadRoom = 5,
    #[error("no such connection")]
    NoEntry = 6,
    #[error("already asked for")]
    AlreadyAsked = 7,
    #[error("being closed")]
    Closing = 8,
    #[error("not open")]
    NotOpen = 9,
    #[error("the wrong end for this call")]
    WrongEnd = 10,
    #[error("not a whole number of bytes")]
    NotWhole = 11,
    #[error("an answer is still due")]
    Busy = 12,
    #[error("no room in the store")]
    NoRoom = 13,
    #[error("more than the store or a counter can take")]
    TooMuch = 14,
    #[error("no place for another request")]
    TableFull = 15,
    #[error("no place for another command")]
    QueueFull = 16,
    #[error("out of memory")]
    OutOfMemory = 17,
}

impl CallFault {
    /// The number of the fault. A fault with a smaller number is checked before one with a greater.
    pub fn number(self) -> u8
        ensures { result ≡ fault_number self }
    {
        self as u8
    }

    /// The name that programs print.
    pub fn name(self) -> &'static str
        ensures { result.now ≡ name_of_call_fault self }
    {
        match self {
            CallFault::UnknownPeer => "UnknownPeer",
            CallFault::NotUp => "NotUp",
            CallFault::BadSex => "BadSex",
            CallFault::BadSize => "BadSize",
            CallFault::BadRoom => "BadRoom",
            CallFault::NoEntry => "NoEntry",
            CallFault::AlreadyAsked => "AlreadyAsked",
            CallFault::Closing => "Closing",
            CallFault::NotOpen => "NotOpen",
            CallFault::WrongEnd => "WrongEnd",
            CallFault::NotWhole => "NotWhole",
            CallFault::Busy => "Busy",
            CallFault::NoRoom => "NoRoom",
            CallFault::TooMuch => "TooMuch",
            CallFault::TableFull => "TableFull",
            CallFault::QueueFull => "QueueFull",
            CallFault::OutOfMemory => "OutOfMemory",
        }
    }
}

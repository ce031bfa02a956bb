//! The outcomes of a command or a text that arrived.
ghost use Rattle.std.specs.Prelude.{◌≡◌};
ghost use Rattle.ncp_model.specs.Faults.{name_of_heard, name_of_took};

use ncp_wire::{Command, ERROR_DATA};

/// The outcome of a command that arrived.
#[derive(Clone, Copy, Debug, Drop, PartialEq, Eq)]
pub enum Heard {
    /// There is no reply.
    Nothing,
    /// The host replies with this command.
    Reply(Command),
    /// Its endpoint is leaving or has left; the command has no effect.
    Late,
    /// The table has no room for another request of the peer.
    Full,
}

impl Heard {
    /// The name that programs print. Of a reply it is the word alone, not the command.
    pub fn name(self) -> &'static str
        ensures { result.now ≡ name_of_heard self }
    {
        match self {
            Heard::Nothing => "nothing",
            Heard::Reply(_) => "reply",
            Heard::Late => "late",
            Heard::Full => "full",
        }
    }
}

/// The outcome of a text that arrived.
#[derive(Clone, Copy, Debug, Drop, PartialEq, Eq)]
pub enum Took {
    /// The receiver stores it.
    Admitted,
    /// Its endpoint is leaving or has left; the text is dropped.
    Late,
    /// Its byte size is not the connection's.
    WrongSize,
    /// It exceeds the allocation.
    Over,
    /// No open connection uses its link.
    NotOpen,
}

impl Took {
    /// The name that programs print.
    pub fn name(self) -> &'static str
        ensures { result.now ≡ name_of_took self }
    {
        match self {
            Took::Admitted => "admitted",
            Took::Late => "late",
            Took::WrongSize => "wrong-size",
            Took::Over => "over",
            Took::NotOpen => "not-open",
        }
    }
}

/// An ERR received from the peer.
#[derive(Clone, Copy, Debug, Drop, PartialEq, Eq)]
pub struct Error {
    pub code: u8,
    pub bytes: [u8; ERROR_DATA],
}

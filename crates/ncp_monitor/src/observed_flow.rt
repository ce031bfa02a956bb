//! `ObservedFlow`: who sends to whom; `About`: a command about a connection; and `Acceptance`:
//! whether the receiver accepts a command.
ghost use Rattle.std.specs.Prelude.{◌≡◌};
ghost use Rattle.ncp_monitor.specs.Speaking.{here_of, there_of};

use crate::finding::Rule;
use ncp_wire::Command;

/// The direction between two hosts, as observed at the interface of one. The source sends the
/// message; the destination receives it.
#[derive(Clone, Copy, Debug, Drop, PartialEq, Eq)]
pub struct ObservedFlow {
    /// The host at whose interface it is observed.
    pub at: u8,
    /// The peer.
    pub peer: u8,
    /// Whether that host is the source.
    pub sent: bool,
}

/// A command about the connection of two sockets, as observed at one host's interface.
#[derive(Clone, Copy, Debug, Drop, PartialEq, Eq)]
pub(crate) struct About {
    /// The command.
    pub command: Command,
    /// The host's socket.
    pub local: u32,
    /// The peer's socket.
    pub remote: u32,
}

impl ObservedFlow {
    /// A command about the connection of a socket of its source (`own`) and one of its destination
    /// (`others`).
    pub(crate) fn about(self, command: &Command, own: u32, others: u32) -> About
        ensures command { result.command ≡ command.now }
        ensures local { result.local ≡ here_of self own others }
        ensures remote { result.remote ≡ there_of self own others }
    {
        About {
            command: *command,
            local: if self.sent { own } else { others },
            remote: if self.sent { others } else { own },
        }
    }
}

/// What a command does at its destination.
#[derive(Clone, Copy, Debug, Drop, PartialEq, Eq)]
pub enum Acceptance {
    /// It takes effect.
    Right,
    /// It breaks a rule, and is refused.
    Refused(Rule),
    /// The records do not show whether it is refused. It may break a rule all the same.
    Unclear(Option<Rule>),
}

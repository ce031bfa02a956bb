//! `PendingReply`: a reply that a side owes or may give.
ghost use Rattle.std.specs.Prelude.{◌≡◌};
ghost use Rattle.ncp_monitor.specs.ConnStates.{is_return_on, is_return};
ghost use Rattle.ncp_monitor.specs.Replies.{says_wanted, reply_wanted, is_due_of, is_own};

use crate::observed_flow::ObservedFlow;
use ncp_wire::{Command, ERROR_DATA};

/// The contents expected of a reply.
#[derive(Clone, Copy, Debug, Drop, PartialEq, Eq)]
pub enum ExpectedReply {
    /// An ERP with this byte.
    Echo(u8),
    /// An ERR with one of two codes, about these bytes.
    Error {
        code: u8,
        or: u8,
        bytes: [u8; ERROR_DATA],
    },
    /// A RET for this link: with these numbers from the host, with no greater ones from the peer.
    Return {
        link: u8,
        messages: u32,
        bits: u32,
    },
}

/// A reply between two hosts, as observed at the interface of one.
#[derive(Clone, Copy, Debug, Drop, PartialEq, Eq)]
pub struct PendingReply {
    /// The host at whose interface it is observed.
    pub at: u8,
    /// The peer.
    pub peer: u8,
    /// Whether the host gives the reply.
    pub host: bool,
    /// The expected contents.
    pub wanted: ExpectedReply,
    /// Whether it is owed, not only admitted.
    pub mandatory: bool,
}

impl ExpectedReply {
    /// Whether `reply` can be this one. A RET fits by its link alone.
    pub(crate) fn fits(&self, reply: &Command) -> bool
        ensures { result ≡ says_wanted self.now reply.now }
    {
        match *self {
            ExpectedReply::Echo(byte) => match *reply {
                Command::Erp { byte: other } => other == byte,
                _ => false,
            },
            ExpectedReply::Error { code, or, bytes } => match *reply {
                Command::Err {
                    code: other,
                    bytes: shown,
                } => (other == code || other == or) && shown == bytes,
                _ => false,
            },
            ExpectedReply::Return { link, .. } => match *reply {
                Command::Ret { link: on, .. } => on == link,
                _ => false,
            },
        }
    }

    /// Whether it is a RET for this link.
    pub(crate) fn is_return_on(&self, link: u8) -> bool
        ensures { result ≡ is_return_on link self.now }
    {
        match *self {
            ExpectedReply::Return { link: on, .. } => on == link,
            _ => false,
        }
    }

    /// The reply as a command. An ERR gets the first of its two codes; a RET returns at most 65,535
    /// messages, all that its field can hold.
    pub(crate) fn reply(&self) -> Command
        ensures { result ≡ reply_wanted self.now }
    {
        match *self {
            ExpectedReply::Echo(byte) => Command::Erp { byte },
            ExpectedReply::Error { code, bytes, .. } => Command::Err { code, bytes },
            ExpectedReply::Return {
                link,
                messages,
                bits,
            } => Command::Ret {
                link,
                messages: messages.min(u32::from(u16::MAX)) as u16,
                bits,
            },
        }
    }
}

impl PendingReply {
    /// Whether the host (or the peer) gives it.
    pub(crate) fn is_of(&self, at: u8, peer: u8, host: bool) -> bool
        ensures { result ≡ is_due_of at peer host self.now }
    {
        self.at == at && self.peer == peer && self.host == host
    }

    /// Whether it is a RET of the host (or the peer) for a link.
    pub(crate) fn is_return(&self, at: u8, peer: u8, host: bool, link: u8) -> bool
        ensures { result ≡ is_return at peer host link self.now }
    {
        self.at == at && self.peer == peer && self.host == host && self.wanted.is_return_on(link)
    }

    /// Whether the source of `flow` gives it.
    pub(crate) fn is_own(&self, flow: ObservedFlow) -> bool
        ensures { result ≡ is_own flow self.now }
    {
        self.is_of(flow.at, flow.peer, flow.sent)
    }
}

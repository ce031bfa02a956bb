//! `SentMessage`: a message that was sent; and `LinkState`: what became of it.
ghost use Rattle.std.specs.Prelude.{◌≡◌};
ghost use Rattle.ncp_interface.specs.Slots.{is_slot_empty, is_slot_out, is_slot_again, is_of, is_busy_on, makes_link_busy, same_bits, same_but_host, gone_out, after_repeat_at};
ghost use Rattle.ncp_interface.specs.Doubts.{after_reset_at, is_outstanding_at};

use crate::doubt::Doubt;
use crate::observed_link::ObservedLink;
use ncp_bits::Bits;

/// The state of a host's link: what became of the last message sent on it.
#[derive(Clone, Copy, Debug, Drop, PartialEq, Eq)]
pub enum LinkState {
    /// It is not known.
    Unknown,
    /// It was answered.
    Empty,
    /// It is outstanding.
    Out,
    /// It is outstanding, and was delivered.
    Came,
    /// It was not delivered, and is to be sent again.
    Again,
}

impl LinkState {
    /// Whether a message is outstanding.
    pub fn is_out(self) -> bool
        ensures { result ≡ is_slot_out self }
    {
        match self {
            LinkState::Out | LinkState::Came => true,
            LinkState::Unknown | LinkState::Empty | LinkState::Again => false,
        }
    }

    /// Whether a message is to be sent again.
    pub(crate) fn is_again(self) -> bool
        ensures { result ≡ is_slot_again self }
    {
        match self {
            LinkState::Again => true,
            LinkState::Unknown | LinkState::Empty | LinkState::Out | LinkState::Came => false,
        }
    }
}

/// A message that was sent.
#[derive(Drop)]
pub struct SentMessage {
    /// The host that sent it.
    pub from: u8,
    /// The host that it is addressed to.
    pub to: u8,
    /// The link.
    pub link: u8,
    /// What became of it.
    pub slot: LinkState,
    /// What is in doubt about it.
    pub doubt: Doubt,
    /// The message.
    pub message: Bits,
}

// The position of the host in a leader: bits 9 to 16, at offset 8.
const HOST_AT: usize = 8;

const HOST_END: usize = 16;

// Whether two messages are equal apart from the host in their leaders.
fn same_but_host(one: &Bits, other: &Bits) -> bool
    ensures { result ≡ same_but_host one.now other.now }
{
    if one.len() < HOST_END || other.len() < HOST_END {
        return false;
    }
    one.slice(0, HOST_AT) == other.slice(0, HOST_AT)
        && one.slice(HOST_END, one.len() - HOST_END)
            == other.slice(HOST_END, other.len() - HOST_END)
}

impl SentMessage {
    /// A message that is now sent on a link.
    pub(crate) fn new(line: ObservedLink, message: &Bits) -> SentMessage
        ensures { result ≡ gone_out line.at line.peer line.link message.now }
    {
        SentMessage {
            from: line.at,
            to: line.peer,
            link: line.link,
            slot: LinkState::Out,
            doubt: Doubt::None,
            message: message.whole().to_bits(),
        }
    }

    /// Overwrites this message by another one that is now sent.
    pub(crate) fn write(&mut self, line: ObservedLink, message: &Bits)
        ensures { self.new ≡ gone_out line.at line.peer line.link message.now }
    {
        self.from = line.at;
        self.to = line.peer;
        self.link = line.link;
        self.slot = LinkState::Out;
        self.doubt = Doubt::None;
        self.message.copy_from_part(message.whole());
    }

    /// Whether it is outstanding.
    pub(crate) fn is_out(&self) -> bool
        ensures { result ≡ is_slot_out self.now.slot }
    {
        self.slot.is_out()
    }

    /// Whether it is outstanding, and from or to this host.
    pub fn is_outstanding_at(&self, at: u8) -> bool
        ensures { result ≡ is_outstanding_at at self.now }
    {
        self.is_out() && (self.from == at || self.to == at)
    }

    /// What a reset of the interface of host `at` leaves in doubt about it.
    pub(crate) fn reset_at(&mut self, at: u8)
        ensures { self.new ≡ after_reset_at at self.old }
    {
        if !self.is_out() {
            return;
        }
        if self.from == at {
            self.doubt = Doubt::Forgotten;
        } else if self.to == at && !self.doubt.awaits_repeat() {
            self.doubt = Doubt::Copied;
        }
    }

    /// After a reset of the interface of host `at`, it may be sent again if it is of this host.
    pub(crate) fn repeat_at(&mut self, at: u8)
        ensures { self.new ≡ after_repeat_at at self.old }
    {
        if at == self.from {
            self.slot = LinkState::Again;
        }
    }

    /// Whether it was sent on this link from one host to the other.
    pub(crate) fn is_of(&self, from: u8, to: u8, link: u8) -> bool
        ensures { result ≡ is_of from to link self.now }
    {
        self.from == from && self.to == to && self.link == link
    }

    /// Whether it makes a data link from one host to the other busy.
    pub(crate) fn is_busy(&self, from: u8, to: u8) -> bool
        ensures { result ≡ makes_link_busy from to self.now }
    {
        self.from == from && self.to == to && self.link != 0 && self.slot != LinkState::Empty
    }

    /// Whether it makes this link from one host to the other busy.
    pub(crate) fn is_busy_on(&self, from: u8, to: u8, link: u8) -> bool
        ensures { result ≡ is_busy_on from to link self.now }
    {
        self.is_of(from, to, link) && self.slot != LinkState::Empty
    }

    /// Whether it has these bits.
    pub(crate) fn is_same(&self, message: &Bits) -> bool
        ensures { result ≡ same_bits self.now.message message.now }
    {
        self.message == *message
    }

    /// Whether it has these bits, apart from the host in its leader, which the subnet replaces.
    pub(crate) fn is_same_but_host(&self, message: &Bits) -> bool
        ensures { result ≡ same_but_host self.now.message message.now }
    {
        same_but_host(&self.message, message)
    }
}

//! `Transit`.
ghost use Rattle.std.specs.Prelude.{◌≡◌, ◌↔◌, IsTrue};
ghost use Rattle.ncp_subnet.specs.Transit.{accepted, delivered, lost, dead, transit_answered, accepted_message, answer_kind, is_free, is_accepted, is_delivered};

use ncp_leader::{DESTINATION_DEAD, INCOMPLETE, RFNM};
use std::mem;

/// The state of a link from one host to another: at most one unanswered message (BBN Report 1822,
/// section 3). Used in contracts; no call takes or returns one.
#[derive(Debug, Drop)]
pub enum Transit<M> {
    /// No message.
    Free,
    /// A message that was accepted and has not arrived.
    Accepted(M),
    /// The message was delivered.
    Delivered,
    /// The message was lost.
    Lost,
    /// The message had a dead destination.
    Dead,
}

impl<M: Drop> Transit<M> {
    /// Whether there is no message.
    pub(crate) fn is_free(&self) -> bool
        ensures { result ≡ is_free self.now }
    {
        matches!(self, Transit::Free)
    }

    /// Whether the message was delivered and is not answered yet.
    pub(crate) fn is_delivered(&self) -> bool
        ensures { result ≡ is_delivered self.now }
    {
        matches!(self, Transit::Delivered)
    }

    /// Whether there is a message that has not arrived.
    pub(crate) fn is_accepted(&self) -> bool
        ensures { result ≡ is_accepted self.now }
    {
        matches!(self, Transit::Accepted(_))
    }

    /// The type of the answer, if the message was delivered or will not be.
    pub(crate) fn answer_kind(&self) -> Option<u8>
        ensures { result ≡ answer_kind self.now }
    {
        match self {
            Transit::Free | Transit::Accepted(_) => None,
            Transit::Delivered => Some(RFNM),
            Transit::Lost => Some(INCOMPLETE),
            Transit::Dead => Some(DESTINATION_DEAD),
        }
    }

    /// Accepts a message. There is none before.
    pub(crate) fn accept(&mut self, message: M)
        requires { self.old ≡ Transit.Free }
        ensures { self.new ≡ accepted message self.old }
    {
        *self = Transit::Accepted(message);
    }

    /// Delivers the message that has not arrived, if there is one.
    pub(crate) fn deliver(&mut self) -> Option<M>
        ensures message { result ≡ accepted_message self.old }
        ensures transit { self.new ≡ delivered self.old }
    {
        match mem::replace(self, Transit::Free) {
            Transit::Accepted(message) => {
                *self = Transit::Delivered;
                Some(message)
            }
            other => {
                *self = other;
                None
            }
        }
    }

    /// Loses the message that has not arrived. Returns whether there is one.
    pub(crate) fn lose(&mut self) -> bool
        ensures output { result ≡ is_accepted self.old }
        ensures transit { self.new ≡ lost self.old }
    {
        let has_message = self.is_accepted();
        if has_message {
            *self = Transit::Lost;
        }
        has_message
    }

    /// Fails the message that has not arrived: its destination is dead. Returns whether there is
    /// one.
    pub(crate) fn dead(&mut self) -> bool
        ensures output { result ≡ is_accepted self.old }
        ensures transit { self.new ≡ dead self.old }
    {
        let has_message = self.is_accepted();
        if has_message {
            *self = Transit::Dead;
        }
        has_message
    }

    /// Removes a message that was delivered or will not be, and returns the type of its answer.
    pub(crate) fn answer(&mut self) -> Option<u8>
        ensures kind { result ≡ answer_kind self.old }
        ensures transit { self.new ≡ transit_answered self.old }
    {
        let kind = self.answer_kind();
        if kind.is_some() {
            *self = Transit::Free;
        }
        kind
    }
}

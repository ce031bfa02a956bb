//! `Slot`.
ghost use Rattle.std.specs.Prelude.{◌≡◌, ◌↔◌, IsTrue, IsOk};
ghost use Rattle.ncp_slot.specs.Slot.{handed_out, answered, woken, is_empty, is_ready, is_travelling, is_held};

use ncp_wire::Answer;
use std::mem;
use thiserror::Error;

/// The link already has a message that the subnet has not acknowledged.
#[derive(Clone, Copy, Debug, Drop, PartialEq, Eq, Error)]
#[error("a message of this link is not taken yet")]
pub struct Busy;

/// An answer on a link without an unanswered message.
#[derive(Clone, Copy, Debug, Drop, PartialEq, Eq, Error)]
#[error("no message of this link waits for an answer")]
pub struct Stray;

/// The state of a link's slot, as the contracts see it.
#[derive(Debug, Drop, PartialEq, Eq)]
pub enum Slot<M> {
    /// No message.
    Empty,
    /// A message to be sent, for the first time or again.
    Ready(M),
    /// A message that was sent and has no answer yet.
    Travelling(M),
    /// A message whose destination was dead. It is sent again only after the user asks for it.
    Held(M),
}

impl<M: Drop> Slot<M> {
    /// Handles the answer to the message that was sent. `Stray` if none is unanswered.
    pub(crate) fn answer(&mut self, answer: Answer) -> Result<(), Stray>
        ensures variant { IsOk result ↔ IsTrue (is_travelling self.old) }
        ensures slot { self.new ≡ answered answer self.old }
    {
        match mem::replace(self, Slot::Empty) {
            Slot::Travelling(message) => {
                *self = match answer {
                    Answer::Rfnm => Slot::Empty,
                    Answer::Incomplete => Slot::Ready(message),
                    Answer::Dead => Slot::Held(message),
                };
                Ok(())
            }
            other => {
                *self = other;
                Err(Stray)
            }
        }
    }

    /// Marks the ready message as sent. Returns whether there was one.
    pub(crate) fn depart(&mut self) -> bool
        ensures ready { result ≡ is_ready self.old }
        ensures slot { self.new ≡ handed_out self.old }
    {
        match mem::replace(self, Slot::Empty) {
            Slot::Ready(message) => {
                *self = Slot::Travelling(message);
                true
            }
            other => {
                *self = other;
                false
            }
        }
    }

    /// Makes the held message ready, if there is one.
    pub(crate) fn wake(&mut self)
        ensures { self.new ≡ woken self.old }
    {
        *self = match mem::replace(self, Slot::Empty) {
            Slot::Held(message) => Slot::Ready(message),
            other => other,
        };
    }

    /// Whether there is no message.
    pub(crate) fn is_empty(&self) -> bool
        ensures { result ≡ is_empty self.now }
    {
        matches!(self, Slot::Empty)
    }

    /// Whether a message is to be sent.
    pub(crate) fn is_ready(&self) -> bool
        ensures { result ≡ is_ready self.now }
    {
        matches!(self, Slot::Ready(_))
    }

    /// Whether a message is held.
    pub(crate) fn is_held(&self) -> bool
        ensures { result ≡ is_held self.now }
    {
        matches!(self, Slot::Held(_))
    }
}

impl Slot<()> {
    /// A slot in the same state.
    pub(crate) fn copy(&self) -> Self
        ensures { result ≡ self.now }
    {
        match self {
            Slot::Empty => Slot::Empty,
            Slot::Ready(()) => Slot::Ready(()),
            Slot::Travelling(()) => Slot::Travelling(()),
            Slot::Held(()) => Slot::Held(()),
        }
    }
}

//! `Place`.
ghost use Rattle.std.specs.Prelude.{◌≡◌, ◌↔◌, IsTrue, IfSome, OnOk, IsOk};
ghost use Rattle.std.specs.Option.{option_copied};
ghost use Rattle.ncp_slot.specs.Slot.{put_in, handed_out, answered, woken, ready_message, kept_message, is_empty, is_ready, is_travelling, is_held};
ghost use Rattle.ncp_slot.specs.Places.{filled};
ghost use Rattle.ncp_slot.specs.PlaceLends.{LendsTravelling};
ghost use Rattle.std.specs.Borrow.{sem};

use crate::slot::{Busy, Slot, Stray};
use ncp_bits::Bits;
use ncp_wire::Answer;
use std::fmt;
use std::marker::Model;

/// A slot in memory: its state, and a buffer for a message that is written in place. The buffer of
/// an empty slot is never read.
#[derive(Drop)]
pub(crate) struct Place {
    slot: Slot<()>,
    message: Bits,
}

impl Model for Place {
    ghost use Rattle.ncp_slot.specs.Slots.{LinkSlot, coded_slot};
    ghost use Rattle.ncp_slot.specs.Places.{filled};

    ghost Value = { LinkSlot };

    ghost coded = { coded_slot };

    ghost view = { λ place. filled place.message place.slot };
}

impl Place {
    /// An empty slot.
    pub(crate) fn empty() -> Self
        ensures { result ≡ Slot.Empty }
    {
        Place {
            slot: Slot::Empty,
            message: Bits::new(),
        }
    }

    /// A copy, with the message if there is one.
    pub(crate) fn copy(&self) -> Self
        ensures { result ≡ self.now }
    {
        let mut place = Place::empty();
        if let Some(message) = self.kept() {
            place.message.copy_from_part(message.whole());
        }
        place.slot = self.slot.copy();
        place
    }

    /// Stores a copy of a message to be sent. `Busy` if there is a message already.
    pub(crate) fn put(&mut self, bits: &Bits) -> Result<(), Busy>
        ensures variant { IsOk result ↔ (self.old ≡ Slot.Empty) }
        ensures slot { self.new ≡ put_in bits.now self.old }
        ensures ok { OnOk result (self.new ≡ Slot.Ready bits.now) }
    {
        if !self.is_empty() {
            return Err(Busy);
        }
        self.message.copy_from_part(bits.whole());
        self.slot = Slot::Ready(());
        Ok(())
    }

    /// Marks a new message as sent, and returns its buffer, which the caller fills. Replaces any
    /// message.
    pub(crate) fn begin(&mut self) -> &mut Bits
        ensures* { sem 𝓛 (LendsTravelling self.entry result) }
    {
        self.slot = Slot::Travelling(());
        &mut self.message
    }

    /// Marks the ready message as sent. Returns whether there was one.
    pub(crate) fn depart(&mut self) -> bool
        ensures ready { result ≡ is_ready self.old }
        ensures slot { self.new ≡ handed_out self.old }
    {
        self.slot.depart()
    }

    /// Marks the ready message as sent and returns a copy, if there is one.
    pub(crate) fn hand(&mut self) -> Option<Bits>
        ensures handed { result ≡ ready_message self.old }
        ensures slot { self.new ≡ handed_out self.old }
        ensures some { IfSome result (λ message. self.new ≡ Slot.Travelling message) }
    {
        if self.depart() {
            Some(self.message.whole().to_bits())
        } else {
            None
        }
    }

    /// Handles the answer to the message that was sent. `Stray` if none is unanswered.
    pub(crate) fn answer(&mut self, answer: Answer) -> Result<(), Stray>
        ensures variant { IsOk result ↔ IsTrue (is_travelling self.old) }
        ensures slot { self.new ≡ answered answer self.old }
    {
        self.slot.answer(answer)
    }

    /// Makes the held message ready, if there is one.
    pub(crate) fn wake(&mut self)
        ensures { self.new ≡ woken self.old }
    {
        self.slot.wake();
    }

    /// The unacknowledged message, if there is one: ready, travelling or held.
    pub(crate) fn kept(&self) -> Option<&Bits>
        ensures { option_copied result ≡ kept_message self.now }
    {
        if self.slot.is_empty() {
            None
        } else {
            Some(&self.message)
        }
    }

    /// Whether there is no message.
    pub(crate) fn is_empty(&self) -> bool
        ensures { result ≡ is_empty self.now }
    {
        self.slot.is_empty()
    }

    /// Whether a message is to be sent.
    pub(crate) fn is_ready(&self) -> bool
        ensures { result ≡ is_ready self.now }
    {
        self.slot.is_ready()
    }

    /// Whether a message is held.
    pub(crate) fn is_held(&self) -> bool
        ensures { result ≡ is_held self.now }
    {
        self.slot.is_held()
    }

    // The slot with a reference to its message.
    fn lent(&self) -> Slot<&Bits> {
        match self.slot {
            Slot::Empty => Slot::Empty,
            Slot::Ready(()) => Slot::Ready(&self.message),
            Slot::Travelling(()) => Slot::Travelling(&self.message),
            Slot::Held(()) => Slot::Held(&self.message),
        }
    }
}

impl fmt::Debug for Place {
    fn fmt<W: fmt::Write>(&self, f: &mut fmt::Formatter<W>) -> fmt::Result {
        self.lent().fmt(f)
    }
}

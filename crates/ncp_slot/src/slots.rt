//! `Slots`.
ghost use Rattle.std.specs.Prelude.{◌≡◌, ◌≢◌, ℕ, ◌-◌, ◌+◌, ◌<◌, ◌≤◌, ◌↔◌, true, false, map, length, slice_get, IsTrue, Some, IfOk, IfSome, IfNone, OnOk, OnErr, IsNone, IsOk, IsErr};
ghost use Rattle.std.specs.List.{list_all};
ghost use Rattle.std.specs.Option.{option_copied};
ghost use Rattle.std.specs.Borrow.{sem};
ghost use Rattle.ncp_slot.specs.Slot.{put_in, handed_out, answered, woken, ready_message, kept_message, is_empty, is_ready, is_travelling, is_held};
ghost use Rattle.ncp_slot.specs.Links.{HasItsLinks};
ghost use Rattle.ncp_slot.specs.Lends.{LendsMessage};
ghost use Rattle.ncp_slot.specs.Slots.{HasSlot, no_slots, slot_at, with_slot, all_woken, OtherSlotsStay, IsReady, IsHeld, IsFirstReady, IsQuiet, is_quiet, link_of_index};

use crate::place::Place;
use crate::slot::{Busy, Slot, Stray};
use ncp_bits::Bits;
use ncp_wire::{Answer, DATA_LINKS, LAST_LINK, UNUSED_LINK};
use std::alloc::{AllocError, Global};
use std::boxed::BoxedSlice;
use std::marker::Model;

/// The number of slots: one for the control link, 0, and one for each data link.
pub const SLOTS: usize = 1 + DATA_LINKS as usize;

/// Whether a link has a slot: link 0 and links [`FIRST_LINK`] to [`LAST_LINK`].
pub fn has_slot(link: u8) -> bool
    ensures { IsTrue result ↔ HasSlot link }
{
    link != UNUSED_LINK && link <= LAST_LINK
}

// The index of a link's slot.
fn position_of(link: u8) -> usize
    requires { HasSlot link }
    ensures index { result ≡ link - 1 }
    ensures inside { result < SLOTS }
{
    usize::from(link.saturating_sub(1))
}

// The link of the slot at an index.
fn link_of(place: usize) -> u8
    requires { place < SLOTS }
    ensures { result ≡ link_of_index place }
{
    if place == 0 { 0 } else { place as u8 + 1 }
}

// Makes each held message ready.
fn wake_each(slots: &mut [Place])
    ensures { slots.new ≡ map woken slots.old }
{
    for slot in slots.iter_mut() {
        slot.wake();
    }
}

// Whether these slots are all empty.
fn all_empty(slots: &[Place]) -> bool
    ensures { result ≡ list_all is_empty slots.now }
{
    slots.iter().all(|slot| slot.is_empty())
}

/// The slots of a host's links to one peer, link 0 and links [`FIRST_LINK`] to [`LAST_LINK`]. Only
/// [`Slots::new`] and [`Slots::copy`] allocate. The type ensures this: a boxed slice cannot grow,
/// and does not give access to an allocator.
#[derive(Debug, Drop)]
pub struct Slots {
    slots: BoxedSlice<Place, Global>,
}

impl Model for Slots {
    ghost use Rattle.std.specs.Prelude.{◌≡◌, length};
    ghost use Rattle.ncp_slot.specs.declared.slots.TheConstants.{SLOTS};
    ghost use Rattle.std.specs.Box.{boxed_slice_items};
    ghost use Rattle.ncp_slot.specs.Slots.{LinkSlots, slots_in, coded_slots};

    ghost Value = { LinkSlots };

    ghost coded = { coded_slots };

    ghost view = { λ all. slots_in (boxed_slice_items all.slots) };

    ghost invariant = { λ all. length (boxed_slice_items all.slots) ≡ SLOTS };
}

impl Slots {
    /// An empty slot for each link that has one.
    pub fn new(alloc: Global) -> Result<Slots, AllocError>
        ensures each { IfOk result (λ slots. (link : ℕ) → slot_at slots link ≡ Slot.Empty) }
        ensures all { IfOk result (λ slots. slots ≡ no_slots) }
    {
        let mut slots = Vec::with_capacity(alloc, SLOTS)?;
        for _place in 0..SLOTS {
            slots.push_reserved(Place::empty());
        }
        Ok(Slots {
            slots: slots.into_boxed_slice(),
        })
    }

    /// A copy of the slots with their messages.
    pub fn copy(&self, alloc: Global) -> Result<Slots, AllocError>
        ensures { IfOk result (λ slots. slots ≡ self.now) }
    {
        let mut copies = Vec::with_capacity(alloc, SLOTS)?;
        for place in 0..SLOTS {
            copies.push_reserved(self.slots[place].copy());
        }
        Ok(Slots {
            slots: copies.into_boxed_slice(),
        })
    }

    /// Stores a copy of a message to be sent on a link. `Busy`, with nothing changed, if the link
    /// has an unacknowledged message: ready, travelling or held.
    pub fn put(&mut self, link: u8, bits: &Bits) -> Result<(), Busy>
        requires { HasSlot link }
        ensures variant { IsOk result ↔ (slot_at self.old link ≡ Slot.Empty) }
        ensures slot { slot_at self.new link ≡ put_in bits.now (slot_at self.old link) }
        ensures others { OtherSlotsStay self.old self.new link }
        ensures ok { OnOk result (self.new ≡ with_slot self.old link (Slot.Ready bits.now)) }
        ensures err { OnErr result (self.new ≡ self.old) }
    {
        self.slots[position_of(link)].put(bits)
    }

    /// Marks the ready message of a link as sent, and returns a copy. The slot keeps the message
    /// until it is acknowledged. `None`, with nothing changed, if no message of the link is ready:
    /// the slot is empty, or its message is unanswered or held.
    pub fn hand(&mut self, link: u8) -> Option<Bits>
        requires { HasSlot link }
        ensures handed { result ≡ ready_message (slot_at self.old link) }
        ensures slot { slot_at self.new link ≡ handed_out (slot_at self.old link) }
        ensures others { OtherSlotsStay self.old self.new link }
        ensures some { IfSome result (λ message. self.new ≡ with_slot self.old link (Slot.Travelling message)) }
        ensures none { IfNone result (self.new ≡ self.old) }
    {
        self.slots[position_of(link)].hand()
    }

    /// As [`Slots::hand`], but without a copy: [`Slots::kept`] borrows the message. Returns whether
    /// one was ready; if not, nothing changes.
    pub fn depart(&mut self, link: u8) -> bool
        requires { HasSlot link }
        ensures ready { IsTrue result ↔ IsReady self.old link }
        ensures slot { slot_at self.new link ≡ handed_out (slot_at self.old link) }
        ensures others { OtherSlotsStay self.old self.new link }
        ensures slots { self.new ≡ with_slot self.old link (handed_out (slot_at self.old link)) }
        ensures none { result ≡ false → self.new ≡ self.old }
    {
        self.slots[position_of(link)].depart()
    }

    /// Marks a new message as sent on a link whose slot is empty, and returns its buffer: the
    /// caller overwrites the buffer's contents with the message. The slot keeps it until it is
    /// acknowledged.
    pub fn begin(&mut self, link: u8) -> &mut Bits
        requires link { HasSlot link }
        requires empty { slot_at self.old link ≡ Slot.Empty }
        ensures* { sem 𝓛 (LendsMessage self.entry link result) }
    {
        self.slots[position_of(link)].begin()
    }

    /// Stores a copy of a message on a link whose slot is empty, and marks it as sent:
    /// [`Slots::put`] and then [`Slots::hand`], without a second copy. The slot keeps it until it
    /// is acknowledged.
    pub fn send(&mut self, link: u8, bits: &Bits)
        requires link { HasSlot link }
        requires empty { slot_at self.old link ≡ Slot.Empty }
        ensures { self.new ≡ with_slot self.old link (Slot.Travelling bits.now) }
    {
        self.begin(link).copy_from_part(bits.whole());
    }

    /// Handles the subnet's answer to the message that was sent on a link. After Ready For Next
    /// Message the slot is empty; after Incomplete Transmission the message is to be sent again;
    /// after Destination Dead it is held, until [`Slots::wake`].
    ///
    /// `Stray`, with nothing changed, if no message of the link is unanswered, or the link has no
    /// slot.
    pub fn answer(&mut self, link: u8, answer: Answer) -> Result<(), Stray>
        ensures variant { IsOk result ↔ IsTrue (is_travelling (slot_at self.old link)) }
        ensures elsewhere { ¬ HasSlot link → IsErr result }
        ensures slot { slot_at self.new link ≡ answered answer (slot_at self.old link) }
        ensures others { OtherSlotsStay self.old self.new link }
        ensures ok { OnOk result (self.new ≡ with_slot self.old link (answered answer (slot_at self.old link))) }
        ensures err { OnErr result (self.new ≡ self.old) }
    {
        let slots = &mut self.slots;
        if !has_slot(link) {
            return Err(Stray);
        }
        slots[position_of(link)].answer(answer)
    }

    /// Makes each held message, on every link, ready to be sent again: the user asks for them.
    /// Every other slot is unchanged.
    pub fn wake(&mut self)
        ensures all { self.new ≡ all_woken self.old }
        ensures each { (link : ℕ) → slot_at self.new link ≡ woken (slot_at self.old link) }
        ensures none { ((link : ℕ) → ¬ IsHeld self.old link) → self.new ≡ self.old }
    {
        wake_each(&mut self.slots);
    }

    /// The unacknowledged message of a link: ready, travelling or held. `None` if there is none, or
    /// the link has no slot.
    pub fn kept(&self, link: u8) -> Option<&Bits>
        ensures kept { option_copied result ≡ kept_message (slot_at self.now link) }
        ensures elsewhere { ¬ HasSlot link → IsNone result }
    {
        let slots = &self.slots;
        if !has_slot(link) {
            return None;
        }
        slots[position_of(link)].kept()
    }

    /// Whether a link has no message.
    pub fn is_empty(&self, link: u8) -> bool
        requires { HasSlot link }
        ensures { result ≡ is_empty (slot_at self.now link) }
    {
        self.slots[position_of(link)].is_empty()
    }

    /// Whether the message of a link is held. False for a link without a slot.
    pub fn is_held(&self, link: u8) -> bool
        ensures { result ≡ is_held (slot_at self.now link) }
    {
        let slots = &self.slots;
        if !has_slot(link) {
            return false;
        }
        slots[position_of(link)].is_held()
    }

    /// Whether the message of a link is ready to be sent. False for a link without a slot.
    pub fn is_ready(&self, link: u8) -> bool
        ensures { result ≡ is_ready (slot_at self.now link) }
    {
        let slots = &self.slots;
        if !has_slot(link) {
            return false;
        }
        slots[position_of(link)].is_ready()
    }

    /// The map has exactly the links that have a slot. A lemma: its contract is the theorem.
    pub fn has_its_links(&self)
        ensures { HasItsLinks self.now }
    {
        let _slots = &self.slots;
    }

    /// The lowest link with a message that is ready to be sent.
    pub fn first_ready(&self) -> Option<u8>
        ensures none { IfNone result ((link : ℕ) → ¬ IsReady self.now link) }
        ensures first { IfSome result (λ link. IsFirstReady self.now link) }
        ensures link { IfSome result (λ link. HasSlot link) }
    {
        for (place, slot) in self.slots.iter().enumerate() {
            if slot.is_ready() {
                return Some(link_of(place));
            }
        }
        None
    }

    /// Whether the slots of all data links are empty: no message is ready, travelling or held.
    /// Ignores the control link.
    pub fn quiet(&self) -> bool
        ensures quiet { IsTrue result ↔ IsQuiet self.now }
        ensures test { result ≡ is_quiet self.now }
    {
        all_empty(&self.slots[1..])
    }
}

//! Laws of slots: the history of a link over any list of events, and the independence of different
//! links.
ghost use Rattle.std.specs.Prelude.{◌≡◌, ◌≢◌, ℕ, ◌↔◌, true, false, Some, is_some, is_none, IsTrue, IfOk};
ghost use Rattle.ncp_slot.specs.declared.slot.Slot.{Slot};
ghost use Rattle.ncp_wire.specs.declared.answer.Answer.{Answer};
ghost use Rattle.ncp_slot.specs.declared.slot.Busy.{Busy};
ghost use Rattle.ncp_slot.specs.declared.slot.Stray.{Stray};
ghost use Rattle.ncp_slot.specs.Slot.{put_in, handed_out, answered, woken, ready_message, kept_message, is_empty, is_ready, is_travelling, is_held};
ghost use Rattle.ncp_slot.specs.Links.{HasItsLinks};
ghost use Rattle.ncp_slot.specs.Slots.{HasSlot, all_woken, LinkSlot, LinkSlots, no_slots, slot_at, with_slot, OtherSlotsStay, OthersStayEmpty, IsQuiet, is_quiet};
ghost use Rattle.ncp_slot.specs.Deeds.{history_of, deeds_of};
ghost use Rattle.ncp_slot.specs.Laws.{AreNotesOf, OneAnswerBetween, SameAfterFailure, OthersInOrder, PutsTold, AnswersTold, HandsTold, slot_told};
ghost use Rattle.ncp_slot.specs.declared.slots.TheConstants.{SLOTS};
ghost use Rattle.ncp_wire.specs.declared.links.TheConstants.{UNUSED_LINK, FIRST_LINK, LAST_LINK, DATA_LINKS};
ghost use Rattle.ncp_slot.specs.Steps.{slot_after, note_at};
ghost use Rattle.ncp_slot.specs.SameSlots.{SameAtLinks};

use crate::slot::{Busy, Slot, Stray};
use crate::slots::Slots;
use ncp_bits::Bits;
use ncp_wire::Answer;
use std::alloc::{AllocError, Global};

/// An event at the slot of a link.
#[derive(Debug, Drop, PartialEq, Eq)]
pub enum LinkEvent {
    /// [`Slots::put`] with this message.
    Put(Bits),
    /// [`Slots::hand`].
    Hand,
    /// [`Slots::answer`]: the subnet answers.
    Answer(Answer),
    /// [`Slots::wake`]: the user asks for held messages.
    Wake,
}

/// The result of an event.
#[derive(Debug, Drop, PartialEq, Eq)]
pub enum LinkNote {
    /// Whether the message was accepted.
    Put(bool),
    /// The message that was handed out, if any.
    Handed(Option<Bits>),
    /// Whether the answer was accepted.
    Answered(bool),
    /// The held message, if any, was made ready.
    Woken,
}

// Performs the event, and returns its note.
fn note_event(slots: &mut Slots, link: u8, event: &LinkEvent) -> LinkNote
    requires { HasSlot link }
    ensures note { result ≡ note_at (slot_at slots.old link) event.now }
    ensures slot { slot_at slots.new link ≡ slot_after (slot_at slots.old link) event.now }
    ensures others { OthersStayEmpty slots.old slots.new link }
{
    match event {
        LinkEvent::Put(message) => LinkNote::Put(slots.put(link, message).is_ok()),
        LinkEvent::Hand => LinkNote::Handed(slots.hand(link)),
        LinkEvent::Answer(answer) => LinkNote::Answered(slots.answer(link, *answer).is_ok()),
        LinkEvent::Wake => {
            slots.wake();
            LinkNote::Woken
        }
    }
}

/// Performs events at one link of new slots, and returns the slots with a note for each event.
///
/// The clauses hold for every list of events. They are about the effects, which they read from the
/// notes; only the last two mention slots.
pub fn run_link(
    alloc: Global,
    link: u8,
    events: &[LinkEvent],
) -> Result<(Slots, Vec<LinkNote>), AllocError>
    requires { HasSlot link }
    ensures notes { IfOk result (λ run. AreNotesOf events.now run.1.items) }

    // Which messages are handed out.
    // theorem: On one link, over every list of events, exactly one answer is accepted between two
    // consecutive messages that are handed out.
    ensures between { IfOk result (λ run. OneAnswerBetween (deeds_of events.now run.1.items)) }
    ensures again { IfOk result (λ run. SameAfterFailure (deeds_of events.now run.1.items)) }
    ensures in_order { IfOk result (λ run. OthersInOrder (deeds_of events.now run.1.items)) }

    // The condition under which each event is accepted.
    ensures puts { IfOk result (λ run. PutsTold (history_of events.now run.1.items)) }
    ensures answers { IfOk result (λ run. AnswersTold (history_of events.now run.1.items)) }
    ensures hands { IfOk result (λ run. HandsTold (history_of events.now run.1.items)) }

    // The slots at the end.
    ensures slot { IfOk result (λ run. slot_at run.0 link ≡ slot_told (deeds_of events.now run.1.items)) }
    ensures others { IfOk result (λ run. (other : ℕ) → other ≢ link → slot_at run.0 other ≡ Slot.Empty) }
{
    let mut slots = Slots::new(alloc)?;
    let mut notes = Vec::with_capacity(alloc, events.len())?;
    for event in events {
        notes.push_reserved(note_event(&mut slots, link, event));
    }
    Ok((slots, notes))
}

/// The slots of different links are independent.
pub fn slots_are_independent()
    ensures same { (slots : LinkSlots) (link : ℕ) (slot : LinkSlot) → slot_at (with_slot slots link slot) link ≡ slot }
    ensures others { (all : LinkSlots) (on : ℕ) (slot : LinkSlot) → OtherSlotsStay all (with_slot all on slot) on }
    ensures none { (link : ℕ) → slot_at no_slots link ≡ Slot.Empty }
    ensures twice { (slots : LinkSlots) (link : ℕ) (first last : LinkSlot) → with_slot (with_slot slots link first) link last ≡ with_slot slots link last }
{}

/// Waking all slots wakes the slot of each link.
pub fn each_slot_is_woken()
    ensures { (slots : LinkSlots) (link : ℕ) → slot_at (all_woken slots) link ≡ woken (slot_at slots link) }
{}

/// The links of a host, by their numbers in the standard.
pub fn links_are_numbered()
    ensures unused { UNUSED_LINK ≡ 1 }
    ensures first { FIRST_LINK ≡ 2 }
    ensures last { LAST_LINK ≡ 71 }
    ensures data { DATA_LINKS ≡ 70 }
    ensures slots { SLOTS ≡ 71 }
{}

/// A slot keeps its message until an RFNM: every other event, and an RFNM for a message that was
/// not sent, leaves the message in the slot.
pub fn a_message_is_kept<M>()
    ensures empty { (slot : Slot M) → is_none (kept_message slot) ≡ is_empty slot }
    ensures put { (message : M) → kept_message (put_in message Slot.Empty) ≡ Some message }
    ensures busy { (message : M) (slot : Slot M) → is_empty slot ≡ false → put_in message slot ≡ slot }
    ensures handed { (slot : Slot M) → kept_message (handed_out slot) ≡ kept_message slot }
    ensures failed { (s : Slot M) (how : Answer) → how ≢ Answer.Rfnm → kept_message (answered how s) ≡ kept_message s }
    ensures taken { (slot : Slot M) → is_travelling slot ≡ true → answered Answer.Rfnm slot ≡ Slot.Empty }
    ensures stray { (slot : Slot M) (answer : Answer) → is_travelling slot ≡ false → answered answer slot ≡ slot }
    ensures woken { (slot : Slot M) → kept_message (woken slot) ≡ kept_message slot }
{}

/// Only a ready message is sent. It is ready again after Incomplete Transmission; after Destination
/// Dead it is held, and is not sent until the user asks for it.
pub fn what_is_held_stays<M>()
    ensures ready { (slot : Slot M) → is_ready slot ≡ is_some (ready_message slot) }
    ensures goes_out { (slot : Slot M) (m : M) → ready_message slot ≡ Some m → handed_out slot ≡ Slot.Travelling m }
    ensures again { (message : M) → answered Answer.Incomplete (Slot.Travelling message) ≡ Slot.Ready message }
    ensures held { (message : M) → answered Answer.Dead (Slot.Travelling message) ≡ Slot.Held message }
    ensures stays { (slot : Slot M) → is_held slot ≡ true → handed_out slot ≡ slot }
    ensures asked { (slot : Slot M) → is_held slot ≡ true → is_ready (woken slot) ≡ true }
    ensures unasked { (slot : Slot M) → is_held slot ≡ false → woken slot ≡ slot }
{}

/// `==` of refusals is equality.
pub fn refusals_are_compared()
    ensures busy { (a b : Busy) → ((⟦<Busy as PartialEq>⟧.eq a b ≡ true) ↔ (a ≡ b)) }
    ensures stray { (a b : Stray) → ((⟦<Stray as PartialEq>⟧.eq a b ≡ true) ↔ (a ≡ b)) }
{}

/// `==` of slots is equality if that of their messages is.
pub fn slots_are_compared<M: PartialEq>()
    requires { (a b : M) → ((M.eq a b ≡ true) ↔ (a ≡ b)) }
    ensures { (a b : Slot M) → ((⟦<Slot<M> as PartialEq>⟧.eq a b ≡ true) ↔ (a ≡ b)) }
{}

/// The test for quiet data links passes exactly when each of their slots is empty.
pub fn quiet_links_are_empty()
    ensures { (slots : LinkSlots) → (IsTrue (is_quiet slots) ↔ IsQuiet slots) }
{}

/// Two maps that have exactly the links with a slot are equal if they agree on each of these links.
pub fn slots_are_those_of_their_links()
    ensures { (one other : LinkSlots) → HasItsLinks one → HasItsLinks other → SameAtLinks one other → one ≡ other }
{}

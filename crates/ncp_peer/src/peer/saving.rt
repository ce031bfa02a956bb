//! Saving the state of a peer.
ghost use Rattle.std.specs.Prelude.{◌≡◌, ◌++◌, OnOk};
ghost use Rattle.ncp_slot.specs.Links.{HasItsLinks};
ghost use Rattle.ncp_slot.specs.Slots.{slot_at};
ghost use Rattle.ncp_saved.specs.Values.{four_bytes};
ghost use Rattle.ncp_peer.specs.SavedPeer.{counts_saved, slot_saved, slots_saved, state_saved};
ghost use Rattle.ncp_peer.specs.SavedParts.{IsKindOf};

use crate::counts::Counts;
use crate::peer::Peer;
use ncp_bits::BitStore;
use ncp_saved::{put_bits, put_byte, put_four, put_three};
use ncp_slot::Slots;
use ncp_wire::{CONTROL_LINK, FIRST_LINK, LAST_LINK};
use std::alloc::{AllocError, Global};

// The byte for the state of the message on a link that has one.
fn kind_of(slots: &Slots, link: u8) -> u8
    ensures { IsKindOf result (slot_at slots.now link) }
{
    if slots.is_ready(link) {
        1
    } else if slots.is_held(link) {
        3
    } else {
        2
    }
}

// Appends the slot of a link.
fn put_slot(out: &mut Vec<u8>, slots: &Slots, link: u8) -> Result<(), AllocError>
    ensures { OnOk result (out.new.items ≡ out.old.items ++ slot_saved (slot_at slots.now link)) }
{
    match slots.kept(link) {
        Some(message) => {
            put_byte(out, kind_of(slots, link))?;
            put_bits(out, message)
        }
        None => put_byte(out, 0),
    }
}

// Appends the slots in the order of their links.
fn put_slots(out: &mut Vec<u8>, slots: &Slots) -> Result<(), AllocError>
    ensures { OnOk result (out.new.items ≡ out.old.items ++ slots_saved slots.now) }
{
    put_slot(out, slots, CONTROL_LINK)?;
    for link in FIRST_LINK..LAST_LINK + 1 {
        put_slot(out, slots, link)?;
    }
    Ok(())
}

// Appends the counts of what was received from a peer.
#[tactic(auto, unfolding(crate::specs::SavedPeer::counts_saved))]
fn put_counts(out: &mut Vec<u8>, counts: &Counts) -> Result<(), AllocError>
    ensures { OnOk result (out.new.items ≡ out.old.items ++ counts_saved counts.now) }
{
    put_three(out, counts.stray, counts.faults, counts.wrong_link)?;
    put_three(out, counts.wrong_size, counts.not_up, counts.late)?;
    put_four(out, counts.over)
}

impl<S: BitStore> Peer<S> {
    /// Appends the state of the peer. Besides the bytes, allocates copies of stores, and frees
    /// them.
    #[tactic(auto, unfolding(crate::specs::SavedPeer::state_saved))]
    pub fn save(&self, alloc: Global, out: &mut Vec<u8>) -> Result<(), AllocError>
        ensures { OnOk result (out.new.items ≡ out.old.items ++ state_saved self.now) }
    {
        self.association.save(alloc, out)?;
        put_slots(out, &self.slots)?;
        put_counts(out, &self.counts)
    }

    /// A lemma: the slots belong to exactly the links that have one.
    pub fn has_its_links(&self)
        ensures { HasItsLinks self.now.slots }
    {
        self.slots.has_its_links();
    }
}

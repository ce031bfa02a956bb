//! The state of a loaded peer.
ghost use Rattle.std.specs.Prelude.{◌≡◌, ◌≤◌, false, length, All, Some, IfSome};
ghost use Rattle.std.specs.Option.{option_copied};
ghost use Rattle.ncp_slot.specs.Links.{HasItsLinks};
ghost use Rattle.ncp_phase.specs.Waiting.{IsShort};
ghost use Rattle.ncp_model.specs.Phase.{up};
ghost use Rattle.ncp_model.specs.Ends.{no_ends};
ghost use Rattle.ncp_peer.specs.Soundness.{Agree, IsWell};
ghost use Rattle.ncp_peer.specs.Loading.{FitSlots, FitsIn};

use crate::association::Association;
use crate::counts::Counts;
use crate::peer::Peer;
use ncp_bits::{BitStore, Bits, MAX_BITS};
use ncp_conn::LinkSet;
use ncp_slot::{Slots, has_slot};
use ncp_wire::{FIRST_LINK, LAST_LINK};

// A lemma: a message has at most `MAX_BITS` bits.
fn is_small(message: Option<&Bits>)
    ensures { IfSome (option_copied message.entry) (λ bits. length bits ≤ MAX_BITS) }
{
    if let Some(message) = message {
        let _len = message.len();
    }
}

// A lemma: the slots belong to exactly the links that have one, and each message has at most
// `MAX_BITS` bits.
fn are_fit(slots: &Slots)
    ensures { FitSlots slots.now }
{
    slots.has_its_links();
    for link in 0..LAST_LINK + 1 {
        is_small(slots.kept(link));
    }
}

impl<S: BitStore> Peer<S> {
    /// The state of a peer with these loaded parts, or `None` if a check of soundness fails.
    pub(crate) fn with(association: Association<S>, slots: Slots, counts: Counts) -> Option<Self>
        requires { up association.phase ≡ false → association.ends ≡ no_ends }
        ensures well { IfSome result IsWell }
        ensures takes { Agree association.ends slots → HasItsLinks slots → All IsShort association.phase.waiting
            → result ≡ Some (record { peer = association; slots = slots; counts = counts }) }
    {
        if !association.is_well(&slots) {
            return None;
        }
        Some(Peer {
            association,
            slots,
            kept: LinkSet::all(),
            again: LinkSet::all(),
            counts,
        })
    }

    // Removes a link without a message from the set of links to read.
    fn pass_over(&mut self, link: u8)
        ensures { self.new ≡ self.old }
    {
        if !has_slot(link) {
            return;
        }
        if self.slots.is_empty(link) {
            self.kept.remove(link);
            self.again.remove(link);
        }
    }

    /// Removes all links without a message from the set of links to read.
    pub(crate) fn pass_over_empty(&mut self)
        ensures { self.new ≡ self.old }
    {
        self.pass_over(0);
        for link in FIRST_LINK..LAST_LINK + 1 {
            self.pass_over(link);
        }
    }

    /// A lemma: every peer that is well keeps its limits, so that the bytes saved of it are read
    /// again. At run time it reads the peer, and it changes nothing.
    pub fn keeps_its_limits(&self)
        ensures { IsWell self.now → FitsIn self.now }
    {
        self.association.keeps_its_limits();
        are_fit(&self.slots);
    }
}

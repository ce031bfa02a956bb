//! The state of a host for one peer.
ghost use Rattle.std.specs.Prelude.{◌≡◌, IfOk};
ghost use Rattle.ncp_slot.specs.Slots.{is_quiet};
ghost use Rattle.ncp_peer.specs.PeerState.{new_state};

mod calls;
mod output;
mod receiving;
mod restoring;
mod saving;

use crate::association::Association;
use crate::counts::Counts;
use ncp_bits::BitStore;
use ncp_conn::LinkSet;
use ncp_slot::Slots;
use ncp_wire::FIRST_LINK;
pub use receiving::answer_of;
use std::alloc::{AllocError, Global};
use std::marker::Model;

/// The state of a host for one peer: the association, the messages on the links, the counts, and
/// two sets of links: those that may have a message, and those that may have one to be sent again.
#[derive(Drop)]
pub struct Peer<S: BitStore> {
    association: Association<S>,
    slots: Slots,
    kept: LinkSet,
    again: LinkSet,
    counts: Counts,
}

impl<S: BitStore> Model for Peer<S> {
    ghost use Rattle.std.specs.Coded.{codes};
    ghost use Rattle.ncp_slot.specs.Slots.{coded_slots};
    ghost use Rattle.ncp_peer.specs.Codes.{coded_ends};
    ghost use Rattle.ncp_peer.specs.PeerState.{PeerState};
    ghost use Rattle.ncp_peer.specs.Silence.{AreMarked};

    ghost Value = { PeerState };

    ghost coded = { Prim.hlevel (codes, coded_ends, coded_slots) };

    ghost view = { λ p. record { peer = p.association; slots = p.slots; counts = p.counts } };

    ghost invariant = { λ p. AreMarked p.kept p.again p.slots };
}

impl<S: BitStore> Peer<S> {
    /// A new peer: down, with no message on its links. Allocates all room at once, except the
    /// stores of bits.
    pub fn new(alloc: Global) -> Result<Self, AllocError>
        ensures { IfOk result (λ peer. peer ≡ new_state) }
    {
        Ok(Peer {
            association: Association::new(alloc)?,
            slots: Slots::new(alloc)?,
            kept: LinkSet::none(),
            again: LinkSet::none(),
            counts: Counts::none(),
        })
    }

    /// A copy in the same state.
    pub fn copy(&self, alloc: Global) -> Result<Self, AllocError>
        ensures { IfOk result (λ peer. peer ≡ self.now) }
    {
        Ok(Peer {
            association: self.association.copy(alloc)?,
            slots: self.slots.copy(alloc)?,
            kept: self.kept.copy(),
            again: self.again.copy(),
            counts: self.counts,
        })
    }

    // Whether no data link has a message. If one has, the check ends at the first link that may
    // have one.
    fn is_quiet(&self) -> bool
        ensures { result ≡ is_quiet self.now.slots }
    {
        match self.kept.first_from(FIRST_LINK) {
            Some(link) => self.slots.is_empty(link) && self.slots.quiet(),
            None => true,
        }
    }
}

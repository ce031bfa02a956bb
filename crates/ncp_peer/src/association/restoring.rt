//! The state of a loaded peer, and the checks that it is sound.
ghost use Rattle.std.specs.Prelude.{◌≡◌, ◌≢◌, true, false, Some, All};
ghost use Rattle.ncp_slot.specs.Slot.{is_empty};
ghost use Rattle.ncp_slot.specs.Slots.{slot_at};
ghost use Rattle.ncp_slot.specs.Links.{HasItsLinks};
ghost use Rattle.ncp_model.specs.declared.pair.Pair.{Pair as Sockets};
ghost use Rattle.ncp_model.specs.Phase.{up};
ghost use Rattle.ncp_model.specs.Ends.{no_ends, pair_of, sender_on};
ghost use Rattle.ncp_phase.specs.Waiting.{IsShort};
ghost use Rattle.ncp_peer.specs.Soundness.{Agree};
ghost use Rattle.ncp_peer.specs.Soundness.{IsPlaced};
ghost use Rattle.ncp_peer.specs.Loading.{FitPeer};

use crate::association::Association;
use ncp_bits::BitStore;
use ncp_conn::{Role, Table};
use ncp_model::Pair;
use ncp_phase::{Echoes, Phase};
use ncp_slot::{Slots, has_slot};

// Whether a link is a data link with a message. The result is `false` for link 0.
fn is_kept(slots: &Slots, link: u8) -> bool
    ensures link { result ≡ true → link ≢ 0 }
    ensures kept { result ≡ true → is_empty (slot_at slots.now link) ≡ false }
    ensures keeps { link ≢ 0 → HasItsLinks slots.now → is_empty (slot_at slots.now link) ≡ false → result ≡ true }
{
    link != 0 && has_slot(link) && !slots.is_empty(link)
}

impl<S: BitStore> Association<S> {
    /// The association with these loaded parts. While the host is not up with the peer, it has no
    /// connections.
    pub(crate) fn with(phase: Phase, table: Table<S>, echoes: Echoes) -> Self
        ensures down { up result.phase ≡ false → result.ends ≡ no_ends }
        ensures same { (up phase ≡ false → table ≡ no_ends)
            → result ≡ record { phase = phase; ends = table; echoes = echoes } }
    {
        let mut association = Association {
            phase,
            table,
            echoes,
        };
        if !association.is_up() {
            association.table.purge();
        }
        association
    }

    // Whether a link identifies the pair's sending endpoint.
    fn leads(&self, link: u8, pair: Pair) -> bool
        ensures leads { result ≡ true → pair_of (sender_on link self.now.ends) ≡ Some pair }
        ensures led { pair_of (sender_on link self.now.ends) ≡ Some pair → result ≡ true }
    {
        match self.table.pair_on(Role::Send, link) {
            Some(other) => other.local == pair.local && other.remote == pair.remote,
            None => false,
        }
    }

    // Whether the link that a pair's endpoint heard identifies this endpoint alone and, while its
    // text is unacknowledged, has a message in its slot.
    fn is_placed(&self, slots: &Slots, pair: Pair) -> bool
        ensures placed { result ≡ true → IsPlaced self.now.ends slots.now pair }
        ensures agrees { Agree self.now.ends slots.now → HasItsLinks slots.now → result ≡ true }
    {
        let Some(record) = self.table.record(pair) else {
            return true;
        };
        if !pair.sends() || !record.heard {
            return !record.busy;
        }
        self.leads(record.link, pair) && (!record.busy || is_kept(slots, record.link))
    }

    // Whether this holds for each pair.
    fn are_placed(&self, slots: &Slots) -> bool
        ensures placed { result ≡ true → (p : Sockets) → IsPlaced self.now.ends slots.now p }
        ensures agrees { Agree self.now.ends slots.now → HasItsLinks slots.now → result ≡ true }
    {
        for pair in self.table.pairs() {
            if !self.is_placed(slots, pair) {
                return false;
            }
        }
        true
    }

    /// Whether the endpoints agree with the slots, and each queued command fits a control message.
    pub(crate) fn is_well(&self, slots: &Slots) -> bool
        ensures agree { result ≡ true → Agree self.now.ends slots.now }
        ensures fit { result ≡ true → All IsShort self.now.phase.waiting }
        ensures well { Agree self.now.ends slots.now → HasItsLinks slots.now → All IsShort self.now.phase.waiting
            → result ≡ true }
    {
        self.are_placed(slots) && self.phase.is_short()
    }

    /// A lemma: what every association keeps that has no connections while the host is not up with
    /// the peer. At run time it reads the association, and it changes nothing.
    pub(crate) fn keeps_its_limits(&self)
        ensures { (up self.now.phase ≡ false → self.now.ends ≡ no_ends) → FitPeer self.now }
    {
        self.phase.keeps_its_limits();
        self.table.keeps_its_limits();
        self.table.connections_are_possible();
        self.echoes.keeps_its_limits();
    }
}

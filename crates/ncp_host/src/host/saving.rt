//! `Host::save`.
ghost use Rattle.std.specs.Prelude.{◌≡◌, ◌++◌, ◌∷◌, length, OnOk, IfOk};
ghost use Rattle.std.specs.List.{All, zip};
ghost use Rattle.ncp_slot.specs.Links.{HasItsLinks};
ghost use Rattle.ncp_saved.specs.Values.{listed, four_bytes};
ghost use Rattle.ncp_peer.specs.Soundness.{IsWell};
ghost use Rattle.ncp_peer.specs.Loading.{FitsIn};
ghost use Rattle.ncp_host.specs.Holding.{IsHost};
ghost use Rattle.ncp_host.specs.Saved.{ignored_saved, peer_saved, saved, HaveTheirLinks};

use crate::host::Host;
use crate::ignored::Ignored;
use ncp_bits::BitStore;
use ncp_peer::Peer;
use ncp_saved::{put_byte, put_bytes, put_three};
use std::alloc::{AllocError, Global};

/// The first bytes of a saved host.
pub(crate) const FILE_NAME: &[u8] = b"NCP host";

/// The version of the layout, the byte after that.
pub(crate) const FILE_VERSION: u8 = 1;

// Appends the counts of messages that belong to no peer.
#[tactic(auto, unfolding(crate::specs::Saved::ignored_saved))]
fn put_ignored(out: &mut Vec<u8>, ignored: &Ignored) -> Result<(), AllocError>
    ensures { OnOk result (out.new.items ≡ out.old.items ++ ignored_saved ignored.now) }
{
    put_three(out, ignored.short, ignored.other, ignored.unknown)
}

// Appends a 1 and a peer.
#[tactic(auto, unfolding(crate::specs::Saved::peer_saved))]
fn put_peer<S: BitStore>(
    out: &mut Vec<u8>,
    alloc: Global,
    number: u8,
    peer: &Peer<S>,
) -> Result<(), AllocError>
    ensures { OnOk result (out.new.items ≡ out.old.items ++ 1 ∷ peer_saved (number, peer.now)) }
{
    put_bytes(out, &[1, number])?;
    peer.save(alloc, out)
}

// Appends the peers in their order, a 1 before each, and a 0 after the last.
fn put_peers<S: BitStore>(
    out: &mut Vec<u8>,
    alloc: Global,
    numbers: &[u8],
    peers: &[Peer<S>],
) -> Result<(), AllocError>
    requires { length peers.now ≡ length numbers.now }
    ensures { OnOk result (out.new.items ≡ out.old.items ++ listed peer_saved (zip numbers.now peers.now)) }
{
    for place in 0..numbers.len() {
        put_peer(out, alloc, numbers[place], &peers[place])?;
    }
    put_byte(out, 0)
}

// A lemma: each peer has its links.
fn have_their_links<S: BitStore>(peers: &[Peer<S>])
    ensures { All (λ s. HasItsLinks s.slots) peers.now }
{
    for place in 0..peers.len() {
        peers[place].has_its_links();
    }
}

// A lemma: each peer that is well keeps its limits.
fn keep_their_limits<S: BitStore>(peers: &[Peer<S>])
    ensures { All (λ s. IsWell s → FitsIn s) peers.now }
{
    for place in 0..peers.len() {
        peers[place].keeps_its_limits();
    }
}

impl<S: BitStore> Host<S> {
    /// Returns the host as bytes: its whole state, in the layout of `specs/Saved.antt`. The first
    /// bytes are the eight of `NCP host` and the version, 1. Two hosts have the same bytes only if
    /// they are the same (`laws::saved_distinguishes`), and of the bytes [`Host::load`] makes the
    /// host again, since it keeps its limits ([`Host::keeps_its_limits`]). Allocates the bytes and,
    /// one at a time, a copy of what each connection stores.
    #[tactic(auto, unfolding(crate::specs::Saved::saved))]
    pub fn save(&self, alloc: Global) -> Result<Vec<u8>, AllocError>
        ensures saved { IfOk result (λ bytes. bytes.items ≡ saved self.now) }
    {
        let mut out = Vec::new(alloc);
        put_bytes(&mut out, FILE_NAME)?;
        put_bytes(&mut out, &[FILE_VERSION, self.me])?;
        put_ignored(&mut out, &self.ignored)?;
        put_peers(&mut out, alloc, self.numbers.as_slice(), &self.peers)?;
        Ok(out)
    }

    /// A lemma: in every host the slots of each peer belong to exactly the links that have one. It
    /// iterates over the peers at run time and changes nothing.
    pub fn has_its_links(&self)
        ensures { HaveTheirLinks self.now.peers }
    {
        have_their_links(&self.peers);
    }

    /// A lemma: every host keeps its limits (`IsHost`), which is all that [`Host::load`] wants of a
    /// host to take the bytes that are saved of it. It iterates over the peers at run time and
    /// changes nothing.
    pub fn keeps_its_limits(&self)
        ensures { IsHost self.now }
    {
        keep_their_limits(&self.peers);
    }
}

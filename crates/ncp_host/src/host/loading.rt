//! Loading a host from saved bytes.
ghost use Rattle.std.specs.Prelude.{◌≡◌, ◌≤◌, ◌↔◌, ◌∷◌, ◌++◌, ℕ, List, All, None, Some, Err, IfOk, MatchResult, true, length};
ghost use Rattle.std.specs.Box.{boxed_slice_items};
ghost use Rattle.std.specs.List.{zip};
ghost use Rattle.ncp_host.specs.Loading.{version_in, is_of_other_version};
ghost use Rattle.ncp_host.specs.Host.{are_peers, Host as HostValue};
ghost use Rattle.ncp_host.specs.Saved.{ignored_saved, peer_saved, saved};
ghost use Rattle.ncp_host.specs.Holding.{KeepsItsLimits, IsHost};
ghost use Rattle.ncp_peer.specs.PeerState.{PeerState};
ghost use Rattle.ncp_peer.specs.Soundness.{AreWell};
ghost use Rattle.ncp_saved.specs.Values.{listed};
ghost use Rattle.ncp_saved.specs.Reading.{ReadsBack, OrNoMemory};

use crate::fault::LoadFault;
use crate::host::saving::{FILE_NAME, FILE_VERSION};
use crate::host::{Host, are_peers};
use crate::ignored::Ignored;
use crate::limits::MAX_PEERS;
use arrayvec::ArrayVec;
use ncp_bits::BitStore;
use ncp_peer::{Peer, read_peer};
use ncp_saved::{Reader, Unread};
use std::alloc::Global;
use std::boxed::BoxedSlice;

// The numbers of the peers, and their loaded states.
type Peers<S> = (ArrayVec<u8, MAX_PEERS>, BoxedSlice<Peer<S>, Global>);

// The version of the saved bytes.
#[tactic(auto, using(crate::proofs::Version::version_unnamed, crate::proofs::Version::version_named))]
fn version_in(bytes: &[u8]) -> Option<u8>
    ensures { result ≡ version_in bytes.now }
{
    bytes.strip_prefix(FILE_NAME)?.first().copied()
}

fn read_peers<S: BitStore>(alloc: Global, reader: &mut Reader<'_>) -> Result<Peers<S>, Unread>
    ensures beside { IfOk result (λ r. length (boxed_slice_items r.1) ≡ length r.0.items) }
    ensures well { IfOk result (λ r. AreWell (zip r.0.items (boxed_slice_items r.1))) }
    ensures reads { (ps : List (ℕ × PeerState)) (rest : List ℕ) → length ps ≤ MAX_PEERS → All KeepsItsLimits ps
        → reader.old ≡ listed peer_saved ps ++ rest
        → OrNoMemory result (λ r. (zip r.0.items (boxed_slice_items r.1) ≡ ps) × (reader.new ≡ rest)) }
{
    let mut numbers = ArrayVec::new();
    let mut peers = Vec::new(alloc);
    for _place in 0..MAX_PEERS + 1 {
        if !reader.mark()? {
            return Ok((numbers, peers.into_boxed_slice()));
        }
        let number = reader.byte()?;
        let peer = read_peer(alloc, reader)?;
        let Ok(()) = numbers.try_push(number) else {
            return Err(Unread::NotAHost);
        };
        let Ok(()) = peers.push(peer) else {
            return Err(Unread::OutOfMemory);
        };
    }
    Err(Unread::NotAHost)
}

// Reads the counts of messages that belong to no peer.
#[tactic(auto, using(std::proofs::lemmas::List::append_assoc), unfolding(crate::specs::Saved::ignored_saved))]
fn read_ignored(reader: &mut Reader<'_>) -> Result<Ignored, Unread>
    ensures reads { ReadsBack ignored_saved reader.old result reader.new }
{
    let short = reader.four_bytes()?;
    let other = reader.four_bytes()?;
    let unknown = reader.four_bytes()?;
    Ok(Ignored {
        short,
        other,
        unknown,
    })
}

// A host with these peers, if it can have them.
fn host_with<S: BitStore>(me: u8, ignored: Ignored, peers: Peers<S>) -> Option<Host<S>>
    requires beside { length (boxed_slice_items peers.1) ≡ length peers.0.items }
    requires well { AreWell (zip peers.0.items (boxed_slice_items peers.1)) }
    ensures takes { are_peers me peers.0.items ≡ true
        → result ≡ Some (record { me = me; peers = zip peers.0.items (boxed_slice_items peers.1); ignored = ignored }) }
{
    let (numbers, peers) = peers;
    if !are_peers(me, numbers.as_slice()) {
        return None;
    }
    Some(Host {
        me,
        numbers,
        peers,
        ignored,
    })
}

fn read_host<S: BitStore>(alloc: Global, reader: &mut Reader<'_>) -> Result<Host<S>, Unread>
    ensures reads { (h : HostValue) (rest : List ℕ) → IsHost h
        → reader.old ≡ h.me ∷ (ignored_saved h.ignored ++ (listed peer_saved h.peers ++ rest))
        → OrNoMemory result (λ read. (read ≡ h) × (reader.new ≡ rest)) }
{
    let me = reader.byte()?;
    let ignored = read_ignored(reader)?;
    let peers = read_peers(alloc, reader)?;
    match host_with(me, ignored, peers) {
        Some(host) => Ok(host),
        None => Err(Unread::NotAHost),
    }
}

// Reads a host from saved bytes, whose version is already checked.
fn host_saved_as<S: BitStore>(alloc: Global, bytes: &[u8]) -> Result<Host<S>, Unread>
    ensures ok { IfOk result (λ host. saved host ≡ bytes.now) }
    ensures takes { (h : HostValue) → IsHost h → bytes.now ≡ saved h → OrNoMemory result (λ host. host ≡ h) }
{
    let mut reader = Reader::new(bytes);
    let _name_and_version = reader.take(FILE_NAME.len() + 1)?;
    let host = read_host(alloc, &mut reader)?;
    let again = host.save(alloc)?;
    if again.as_slice() != bytes {
        return Err(Unread::NotAHost);
    }
    Ok(host)
}

impl<S: BitStore> Host<S> {
    /// Loads the host that [`Host::save`] saved as these bytes, in the same state. Every host keeps
    /// its limits ([`Host::keeps_its_limits`]), so the bytes of every host are taken. Allocates the
    /// memory of [`Host::copy`], and for a while that of the bytes.
    ///
    /// Refused, in this order: `NotAHost` (the bytes do not begin with `NCP host` and a version),
    /// `OtherVersion` (it is not 1), and then `NotAHost` (no host is saved as these bytes) or
    /// `OutOfMemory`, the one detected first.
    pub fn load(alloc: Global, bytes: &[u8]) -> Result<Self, LoadFault>
        // theorem: If `load` returns a host, the bytes are those that `save` makes of this host.
        ensures ok { IfOk result (λ host. saved host ≡ bytes.now) }
        // theorem: Of the bytes that `save` makes of a host `load` makes that host again, unless an
        // allocation fails.
        ensures takes { (h : HostValue) → IsHost h → bytes.now ≡ saved h
            → MatchResult result (λ host. host ≡ h) (λ fault. fault ≡ LoadFault.OutOfMemory) }
        ensures unnamed { version_in bytes.now ≡ None → result ≡ Err LoadFault.NotAHost }
        ensures other { (result ≡ Err LoadFault.OtherVersion) ↔ (is_of_other_version bytes.now ≡ true) }
    {
        let Some(version) = version_in(bytes) else {
            return Err(LoadFault::NotAHost);
        };
        if version != FILE_VERSION {
            return Err(LoadFault::OtherVersion);
        }
        match host_saved_as(alloc, bytes) {
            Ok(host) => Ok(host),
            Err(Unread::NotAHost) => Err(LoadFault::NotAHost),
            Err(Unread::OutOfMemory) => Err(LoadFault::OutOfMemory),
        }
    }
}

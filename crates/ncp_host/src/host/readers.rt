//! Readers for the user, in any phase. For a host that is no peer, `waiting` and `kept` return
//! none; each other reader except `ignored` refuses with `UnknownPeer` first.
ghost use Rattle.std.specs.Prelude.{◌≡◌};
ghost use Rattle.std.specs.Option.{option_copied};
ghost use Rattle.ncp_host.specs.Host.{state_of};
ghost use Rattle.ncp_host.specs.Listing.{connection_returned, room_returned, pair_returned, held_returned};
ghost use Rattle.ncp_peer.specs.PeerCalls.{waiting_at, kept_for};
ghost use Rattle.ncp_host.specs.Calls.{record_told, flags_returned, echoed_returned, errors_returned, counts_returned};

use crate::host::{Host, find};
use crate::ignored::Ignored;
use ncp_bits::{BitStore, Bits};
use ncp_conn::{Record, Role};
use ncp_model::{CallFault, Pair};
use ncp_peer::Counts;
use ncp_phase::{Errors, Flags};
use ncp_wire::Command;

impl<S: BitStore> Host<S> {
    /// Returns a copy of a connection's record, with the number of the stored bits in place of the
    /// bits. Refused, in this order: `UnknownPeer`, `NoEntry`.
    pub fn state(&self, peer: u8, pair: Pair) -> Result<Record, CallFault>
        ensures { result ≡ record_told peer pair self.now }
    {
        let place = find(self.numbers.as_slice(), &self.peers, peer)?;
        self.peers[place].state(pair)
    }

    /// Returns the connection at index `place`, with a copy of its record: ordered by the socket
    /// here, then by the socket there. The first index is 0; `None` past the last. Over all indices
    /// each connection appears once (`laws::each_connection_has_one_place`). Does not allocate.
    /// Takes time quadratic in the connections, 128 at most. Refused: `UnknownPeer`.
    pub fn connection_at(&self, peer: u8, place: u32) -> Result<Option<(Pair, Record)>, CallFault>
        ensures { result ≡ connection_returned peer place self.now }
    {
        let at = find(self.numbers.as_slice(), &self.peers, peer)?;
        Ok(self.peers[at].connection_at(place as usize))
    }

    /// Returns a connection's total room in bits: as the local request asked for, and 0 before it.
    /// The room less the stored bits may be given; the room less the stored and the outstanding
    /// bits may be allowed (`laws::what_has_room`). Does not allocate. Refused, in this order:
    /// `UnknownPeer`, `NoEntry`.
    pub fn room(&self, peer: u8, pair: Pair) -> Result<u32, CallFault>
        ensures { result ≡ room_returned peer pair self.now }
    {
        let place = find(self.numbers.as_slice(), &self.peers, peer)?;
        self.peers[place].room(pair)
    }

    /// Returns the sockets of the connection that a link identifies. For an endpoint that sends
    /// here, the peer's RTS named the link, and ALL, GVB and INR on it belong to the connection.
    /// For an endpoint that receives here, the local request took the link, and RET, INS and texts
    /// on it belong to the connection (NIC 8246, links). `None` if there is no such connection.
    /// Does not allocate. Refused: `UnknownPeer`.
    pub fn pair_on(&self, peer: u8, end: Role, link: u8) -> Result<Option<Pair>, CallFault>
        ensures { result ≡ pair_returned peer end link self.now }
    {
        let place = find(self.numbers.as_slice(), &self.peers, peer)?;
        Ok(self.peers[place].pair_on(end, link))
    }

    /// The four flags for a peer.
    pub fn phase(&self, peer: u8) -> Result<Flags, CallFault>
        ensures { result ≡ flags_returned peer self.now }
    {
        let place = find(self.numbers.as_slice(), &self.peers, peer)?;
        Ok(self.peers[place].flags())
    }

    /// The byte of the last ERP that answered an echo, if any.
    pub fn echoed(&self, peer: u8) -> Result<Option<u8>, CallFault>
        ensures { result ≡ echoed_returned peer self.now }
    {
        let place = find(self.numbers.as_slice(), &self.peers, peer)?;
        Ok(self.peers[place].echoed())
    }

    /// The last `MAX_ERRORS` ERRs received from a peer, oldest first.
    pub fn errors(&self, peer: u8) -> Result<Errors<'_>, CallFault>
        ensures { result ≡ errors_returned peer self.now }
    {
        let place = find(self.numbers.as_slice(), &self.peers, peer)?;
        Ok(self.peers[place].errors())
    }

    /// Whether the message on a link to a peer is held since its destination was dead, so that
    /// [`Host::wake`] is needed. Does not allocate. Refused: `UnknownPeer`.
    pub fn is_held(&self, peer: u8, link: u8) -> Result<bool, CallFault>
        ensures { result ≡ held_returned peer link self.now }
    {
        let place = find(self.numbers.as_slice(), &self.peers, peer)?;
        Ok(self.peers[place].is_held(link))
    }

    /// The counts of what was received from a peer.
    pub fn counts(&self, peer: u8) -> Result<Counts, CallFault>
        ensures { result ≡ counts_returned peer self.now }
    {
        let place = find(self.numbers.as_slice(), &self.peers, peer)?;
        Ok(self.peers[place].counts())
    }

    /// The counts of messages that belong to no peer.
    pub fn ignored(&self) -> Ignored
        ensures { result ≡ self.now.ignored }
    {
        self.ignored
    }

    /// Returns the command at index `place` of the queue for a peer; the first is at 0. `None` if
    /// the host has no such peer, or fewer commands are queued.
    pub fn waiting(&self, peer: u8, place: u32) -> Option<Command>
        ensures { result ≡ waiting_at (state_of self.now peer) place }
    {
        let Ok(at) = find(self.numbers.as_slice(), &self.peers, peer) else {
            return None;
        };
        self.peers[at].waiting(place as usize)
    }

    /// Returns the message on a link to a peer that is not taken yet: to be sent again, in flight,
    /// or held since its destination was dead. `None` if there is none, as on a link without a
    /// slot, or if the host has no such peer.
    pub fn kept(&self, peer: u8, link: u8) -> Option<&Bits>
        ensures { option_copied result ≡ kept_for (state_of self.now peer) link }
    {
        let Ok(place) = find(self.numbers.as_slice(), &self.peers, peer) else {
            return None;
        };
        self.peers[place].kept(link)
    }
}

//! Readers of the state of a peer.
ghost use Rattle.std.specs.Prelude.{◌≡◌, slice_get};
ghost use Rattle.ncp_conn.specs.Records.{record_in};
ghost use Rattle.ncp_conn.specs.Listing.{connection_in, room_of, pair_demuxed_to};
ghost use Rattle.ncp_phase.specs.Flags.{flags_of};
ghost use Rattle.ncp_peer.specs.PeerCalls.{record_answer};
ghost use Rattle.ncp_peer.specs.PeerCalls.{room_answer};

use crate::association::Association;
use ncp_bits::BitStore;
use ncp_conn::{Record, Role};
use ncp_model::{CallFault, Pair};
use ncp_phase::{Errors, Flags};
use ncp_wire::Command;

impl<S: BitStore> Association<S> {
    /// Returns a copy of a connection's record. Refused: `NoEntry`.
    pub(crate) fn state(&self, pair: Pair) -> Result<Record, CallFault>
        ensures { result ≡ record_answer (record_in pair self.now.ends) }
    {
        match self.table.record(pair) {
            Some(record) => Ok(record),
            None => Err(CallFault::NoEntry),
        }
    }

    /// The connection at index `place`, with a copy of its record.
    pub(crate) fn connection_at(&self, place: usize) -> Option<(Pair, Record)>
        ensures { result ≡ connection_in place self.now.ends }
    {
        self.table.connection_at(place)
    }

    /// The total room of a connection in bits. Refused: `NoEntry`.
    pub(crate) fn room(&self, pair: Pair) -> Result<u32, CallFault>
        ensures { result ≡ room_answer (room_of pair self.now.ends) }
    {
        match self.table.room(pair) {
            Some(room) => Ok(room),
            None => Err(CallFault::NoEntry),
        }
    }

    /// The pair that a link identifies.
    pub(crate) fn pair_on(&self, end: Role, link: u8) -> Option<Pair>
        ensures { result ≡ pair_demuxed_to end link self.now.ends }
    {
        self.table.pair_on(end, link)
    }

    /// The four flags.
    pub(crate) fn flags(&self) -> Flags
        ensures { result ≡ flags_of self.now.phase }
    {
        self.phase.flags()
    }

    /// The byte of the last ERP that answered an echo.
    pub(crate) fn echoed(&self) -> Option<u8>
        ensures { result ≡ self.now.echoes.echoed }
    {
        self.echoes.echoed()
    }

    /// The last received ERRs, oldest first.
    pub(crate) fn errors(&self) -> Errors<'_>
        ensures { result ≡ self.now.echoes.errors }
    {
        self.echoes.errors()
    }

    /// The command at index `place` of the queue.
    pub(crate) fn waiting(&self, place: usize) -> Option<Command>
        ensures { result ≡ slice_get self.now.phase.waiting place }
    {
        self.phase.waiting(place)
    }
}

//! The state that a user may read.
ghost use Rattle.std.specs.Prelude.{◌≡◌};
ghost use Rattle.ncp_conn.specs.Listing.{connection_in, room_of, pair_demuxed_to};

use crate::record::{Record, Role};
use crate::table::Table;
use ncp_bits::BitStore;
use ncp_model::Pair;

impl<S: BitStore> Table<S> {
    /// The connection at index `place`, from 0, with a copy of its state: ordered by the socket
    /// here, then by the peer's. `None` past the last. Does not allocate. Compares each entry with
    /// every other, so its time is quadratic in their number.
    pub fn connection_at(&self, place: usize) -> Option<(Pair, Record)>
        ensures { result ≡ connection_in place self.now }
    {
        let Some(key) = self.entries.key_at(place) else {
            return None;
        };
        let entry = &self.entries.slab[key];
        Some((entry.pair(), entry.record()))
    }

    /// The capacity of a connection's store, in bits; 0 before the local request.
    pub fn room(&self, pair: Pair) -> Option<u32>
        ensures { result ≡ room_of pair self.now }
    {
        let Some(key) = self.entries.find(pair) else {
            return None;
        };
        Some(self.entries.slab[key].room() as u32)
    }

    /// The pair whose sending endpoint here heard a link, or whose receiving endpoint here asked
    /// with it. Reads at most one entry.
    pub fn pair_on(&self, end: Role, link: u8) -> Option<Pair>
        ensures { result ≡ pair_demuxed_to end link self.now }
    {
        match end {
            Role::Send => {
                let Some(key) = self.entries.senders.key(link) else {
                    return None;
                };
                Some(self.entries.slab[key].pair())
            }
            Role::Receive => {
                let Some(key) = self.entries.receivers.key(link) else {
                    return None;
                };
                Some(self.entries.slab[key].pair())
            }
        }
    }
}

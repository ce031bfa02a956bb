//! Saving the phase, the connections and the echoes.
ghost use Rattle.std.specs.Prelude.{◌≡◌, ◌++◌, ◌∷◌, Some, OnOk};
ghost use Rattle.std.specs.FinMap.{get};
ghost use Rattle.ncp_numbers.specs.Bytes.{bytes_of};
ghost use Rattle.ncp_model.specs.Endpoint.{or_new};
ghost use Rattle.ncp_conn.specs.Records.{record_in};
ghost use Rattle.ncp_saved.specs.Values.{two_bytes};
ghost use Rattle.ncp_peer.specs.SavedPeer.{end_saved, connection_saved, ends_saved};
ghost use Rattle.ncp_peer.specs.SavedParts.{standing_saved, IsPutButForBits, association_saved};

use crate::association::Association;
use ncp_bits::BitStore;
use ncp_conn::{Record, Table};
use ncp_model::{MAX_BY_PEER, MAX_OWN, Pair};
use ncp_saved::{
    put_byte, put_bytes, put_four, put_marks, put_pair, put_store, put_three, put_two,
};
use std::alloc::{AllocError, Global};

// Appends the flags of an endpoint.
fn put_standing(out: &mut Vec<u8>, told: &Record) -> Result<(), AllocError>
    ensures { OnOk result (out.new.items ≡ out.old.items ++ standing_saved told.now) }
{
    put_marks(out, [told.asked, told.heard, told.opened, told.leaving])?;
    put_marks(out, [told.left, told.cls, told.busy, told.recall])
}

// Appends a link, a byte size, and a number of messages.
fn put_way(out: &mut Vec<u8>, link: u8, size: u8, messages: u16) -> Result<(), AllocError>
    ensures { OnOk result (out.new.items ≡ out.old.items ++ link ∷ size ∷ two_bytes messages) }
{
    put_bytes(out, &[link, size])?;
    put_two(out, messages)
}

// Appends an endpoint without its stored bits, which are to follow.
#[tactic(auto, unfolding(crate::specs::SavedPeer::end_saved))]
fn put_record(out: &mut Vec<u8>, told: &Record, room: u32) -> Result<(), AllocError>
    ensures { OnOk result (IsPutButForBits told.now room out.old.items out.new.items) }
{
    put_standing(out, told)?;
    put_way(out, told.link, told.size, told.messages)?;
    put_three(out, told.bits, room, told.interrupts)?;
    put_four(out, told.stored)
}

// Appends the stored bits of a connection.
fn put_stored<S: BitStore>(
    out: &mut Vec<u8>,
    alloc: Global,
    table: &Table<S>,
    pair: Pair,
) -> Result<(), AllocError>
    ensures { OnOk result (out.new.items ≡ out.old.items ++ bytes_of (or_new (get table.now pair)).stored) }
{
    match table.stored(alloc, pair)? {
        Some(mut store) => put_store(out, &mut store),
        None => Ok(()),
    }
}

// Appends the endpoint of a connection.
fn put_end<S: BitStore>(
    out: &mut Vec<u8>,
    alloc: Global,
    table: &Table<S>,
    pair: Pair,
    told: &Record,
) -> Result<(), AllocError>
    requires { record_in pair table.now ≡ Some told.now }
    ensures { OnOk result (out.new.items ≡ out.old.items ++ end_saved (or_new (get table.now pair))) }
{
    put_record(out, told, table.room(pair).unwrap_or(0))?;
    put_stored(out, alloc, table, pair)
}

// Appends a 1 and a connection.
#[tactic(auto, unfolding(crate::specs::SavedPeer::connection_saved))]
fn put_connection<S: BitStore>(
    out: &mut Vec<u8>,
    alloc: Global,
    table: &Table<S>,
    pair: Pair,
    told: &Record,
) -> Result<(), AllocError>
    requires { record_in pair table.now ≡ Some told.now }
    ensures { OnOk result (out.new.items ≡ out.old.items ++ 1 ∷ connection_saved (pair, or_new (get table.now pair))) }
{
    put_byte(out, 1)?;
    put_pair(out, pair)?;
    put_end(out, alloc, table, pair, told)
}

// Appends the connections in the order of their sockets, a 1 before each, and a 0 after the last.
fn put_connections<S: BitStore>(
    out: &mut Vec<u8>,
    alloc: Global,
    table: &Table<S>,
) -> Result<(), AllocError>
    ensures { OnOk result (out.new.items ≡ out.old.items ++ ends_saved table.now) }
{
    table.keeps_its_limits();
    for place in 0..MAX_OWN + MAX_BY_PEER {
        let Some((pair, told)) = table.connection_at(place) else {
            break;
        };
        put_connection(out, alloc, table, pair, &told)?;
    }
    put_byte(out, 0)
}

impl<S: BitStore> Association<S> {
    /// Appends the phase and the queued commands, the connections, the echo and the errors.
    pub(crate) fn save(&self, alloc: Global, out: &mut Vec<u8>) -> Result<(), AllocError>
        ensures { OnOk result (out.new.items ≡ out.old.items ++ association_saved self.now) }
    {
        self.phase.save(out)?;
        put_connections(out, alloc, &self.table)?;
        self.echoes.save(out)
    }
}

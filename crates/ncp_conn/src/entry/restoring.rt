//! Restoring an entry from a record.
ghost use Rattle.std.specs.Prelude.{◌≡◌, ◌≤◌, true, false, length, nat_le, List, Bool, IfSome, IfNone};
ghost use Rattle.ncp_conn.specs.Stores.{stored_in, room_in};
ghost use Rattle.ncp_conn.specs.Restoring.{end_told, can_be, IsPossible};
ghost use Rattle.ncp_model.specs.Endpoint.{is_ended};
ghost use Rattle.ncp_conn.specs.Stored.{told_end};

use crate::entry::Entry;
use crate::record::Record;
use ncp_bits::BitStore;
use ncp_model::{MAX_ROOM, Pair};
use ncp_wire::LAST_LINK;

// The number of bits in a store; 0 without a store.
fn stored_bits<S: BitStore>(store: &Option<S>) -> usize
    ensures len { result ≡ length (stored_in S.held store.now) }
    ensures fits { result ≤ room_in S.capacity store.now }
{
    let Some(store) = store else {
        return 0;
    };
    let _room = store.room();
    store.len()
}

// The capacity of a store in bits, 0 without a store; `None` if it exceeds `MAX_ROOM`.
fn room_in<S: BitStore>(store: &Option<S>) -> Option<usize>
    ensures room { IfSome result (λ room. room ≡ room_in S.capacity store.now) }
    ensures small { IfSome result (λ room. room ≤ MAX_ROOM) }
    ensures none { IfNone result (nat_le (room_in S.capacity store.now) MAX_ROOM ≡ false) }
{
    let Some(store) = store else {
        return Some(0);
    };
    let (held, more) = (store.len(), store.room());
    if held > MAX_ROOM as usize || more > MAX_ROOM as usize - held {
        return None;
    }
    Some(held + more)
}

// Whether an entry with this record, `stored` bits and `room` bits of room is possible.
fn can_be(pair: Pair, told: &Record, stored: usize, room: usize) -> bool
    requires fits { stored ≤ MAX_ROOM }
    ensures { (bits : List Bool) → length bits ≡ stored → result ≡ can_be pair (end_told told.now bits room) }
{
    !(told.left && told.cls)
        && (told.asked || room == 0)
        && room <= MAX_ROOM as usize
        && (pair.sends() || told.bits as usize + stored <= room)
        && told.link <= LAST_LINK
}

impl<S: BitStore> Entry<S> {
    /// The entry with this record and store. `None` if no such entry is possible.
    pub(crate) fn restored(pair: Pair, told: &Record, store: Option<S>) -> Option<Self>
        ensures entry { IfSome result (λ entry. entry ≡ (pair, told_end S.held S.capacity told.now store)) }
        ensures good { IfSome result (λ entry. can_be entry.0 entry.1 ≡ true) }
        ensures none { IfNone result (can_be pair (told_end S.held S.capacity told.now store) ≡ false) }
    {
        let Some(room) = room_in(&store) else {
            return None;
        };
        if !can_be(pair, told, stored_bits(&store), room) {
            return None;
        }
        Some(Entry {
            pair,
            asked: told.asked,
            heard: told.heard,
            opened: told.opened,
            leaving: told.leaving,
            left: told.left,
            cls: told.cls,
            link: told.link,
            size: told.size,
            messages: told.messages,
            bits: told.bits,
            store,
            busy: told.busy,
            recall: told.recall,
            interrupts: told.interrupts,
        })
    }

    /// A lemma: an entry whose endpoint is not over is possible.
    pub(crate) fn is_possible(&self)
        ensures { is_ended self.now.1 ≡ false → IsPossible self.now }
    {
        let _stored = stored_bits(&self.store);
    }
}

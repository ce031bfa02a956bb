//! `PackedStore`.
ghost use Rattle.std.specs.Prelude.{◌≡◌, ◌+◌, ◌*◌, ◌<◌, ◌≤◌, ◌^◌, ◌++◌, length};
ghost use Rattle.ncp_bits.specs.Packed.{bit_run};

use crate::append::write_after;
use crate::bits::Bits;
use crate::part::Part;
use crate::store::{BitStore, NoRoom};
use std::alloc::{AllocError, Global};
use std::boxed::BoxedSlice;
use std::marker::Model;

// The largest capacity: the offsets of all its bits fit a `usize`.
const MAX_CAPACITY: usize = usize::MAX - 16;

/// A store that packs eight bits to a byte. It has one byte more than its capacity needs, in a
/// boxed slice, which cannot grow and does not give access to an allocator.
///
/// The bits start at any bit of the bytes. `take` copies the taken bits and moves none. `put`
/// writes the new bits; if they would pass the end of the bytes, it first moves the held bits to
/// the front, by a copy of whole bytes.
#[derive(Drop)]
pub struct PackedStore {
    bytes: BoxedSlice<u8, Global>,
    from: usize,
    len: usize,
    capacity: usize,
}

impl Model for PackedStore {
    ghost use Rattle.std.specs.Box.{boxed_slice_items};
    ghost use Rattle.ncp_bits.specs.Packed.{bit_run, HoldsRun};
    ghost use Rattle.ncp_bits.specs.Store.{Stored};

    ghost Value = { Stored };

    ghost view = { λ store. record { held = bit_run (boxed_slice_items store.bytes) store.from store.len; capacity = store.capacity } };

    ghost invariant = { λ store. HoldsRun (boxed_slice_items store.bytes) store.from store.len store.capacity };
}

// Makes room for `more` bits after a run, and returns where the run starts then.
fn make_room(bytes: &mut [u8], from: usize, len: usize, more: usize) -> usize
    requires inside { from + len ≤ 8 * length bytes.old }
    requires room { len + more + 8 ≤ 8 * length bytes.old }
    requires counted { 8 * length bytes.old < 2 ^ 64 }
    ensures held { bit_run bytes.new result len ≡ bit_run bytes.old from len }
    ensures room { result + len + more ≤ 8 * length bytes.new }
{
    if more <= 8 * bytes.len() - (from + len) {
        return from;
    }
    bytes.copy_within(from / 8..(from + len).div_ceil(8), 0);
    from % 8
}

// Appends a part to a run, and returns where the run starts then.
fn append_run(bytes: &mut [u8], from: usize, len: usize, part: &Part<'_>) -> usize
    requires inside { from + len ≤ 8 * length bytes.old }
    requires room { len + length part.now + 8 ≤ 8 * length bytes.old }
    requires counted { 8 * length bytes.old < 2 ^ 64 }
    ensures held { bit_run bytes.new result (len + length part.now) ≡ bit_run bytes.old from len ++ part.now }
    ensures room { result + len + length part.now ≤ 8 * length bytes.new }
{
    let front = make_room(bytes, from, len, part.len());
    write_after(bytes, front + len, part);
    front
}

impl BitStore for PackedStore {
    ghost held = { λ store. store.held };

    ghost capacity = { λ store. store.capacity };

    fn with_room(alloc: Global, bits: usize) -> Result<Self, AllocError> {
        if bits > MAX_CAPACITY {
            return Err(AllocError);
        }
        Ok(PackedStore {
            bytes: vec![in alloc; 0; bits.div_ceil(8) + 1]?.into_boxed_slice(),
            from: 0,
            len: 0,
            capacity: bits,
        })
    }

    fn copy(&self, alloc: Global) -> Result<Self, AllocError> {
        Ok(PackedStore {
            bytes: BoxedSlice::from_slice(alloc, self.bytes.as_slice())?,
            from: self.from,
            len: self.len,
            capacity: self.capacity,
        })
    }

    fn len(&self) -> usize {
        self.len
    }

    fn room(&self) -> usize {
        self.capacity - self.len
    }

    fn put(&mut self, part: Part<'_>) -> Result<(), NoRoom> {
        if part.len() > self.capacity - self.len {
            return Err(NoRoom);
        }
        self.from = append_run(self.bytes.as_mut_slice(), self.from, self.len, &part);
        self.len += part.len();
        Ok(())
    }

    fn move_to(&mut self, count: usize, bits: &mut Bits) {
        bits.append(Part::of_bytes(self.bytes.as_slice(), self.from, count))
            .unwrap();
        self.from += count;
        self.len -= count;
    }

    fn clear(&mut self) {
        self.from = 0;
        self.len = 0;
    }
}

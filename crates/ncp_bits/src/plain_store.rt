//! `PlainStore`.
ghost use Rattle.std.specs.Prelude.{◌≡◌, ◌+◌, ◌≤◌, ◌++◌, length, take};

use crate::bits::{Bits, MAX_BITS};
use crate::part::Part;
use crate::store::{BitStore, NoRoom};
use std::alloc::{AllocError, Global};
use std::boxed::BoxedSlice;
use std::marker::Model;

/// A store with one `bool` for each bit, in a boxed slice.
#[derive(Drop)]
pub struct PlainStore {
    cells: BoxedSlice<bool, Global>,
    len: usize,
}

impl Model for PlainStore {
    ghost use Rattle.std.specs.Prelude.{◌≤◌, take};
    ghost use Rattle.std.specs.Box.{boxed_slice_items, boxed_slice_len};
    ghost use Rattle.ncp_bits.specs.Store.{Stored};

    ghost Value = { Stored };

    ghost view = { λ store. record { held = take store.len (boxed_slice_items store.cells); capacity = boxed_slice_len store.cells } };

    ghost invariant = { λ store. store.len ≤ boxed_slice_len store.cells };
}

// Writes a part's bits after the first `at` cells.
fn write_part(cells: &mut [bool], at: usize, part: &Part<'_>)
    requires { at + length part.now ≤ length cells.old }
    ensures { take (at + length part.now) cells.new ≡ take at cells.old ++ part.now }
{
    for place in 0..part.len() {
        cells[at + place] = part.bit(place);
    }
}

// Appends the bits of cells.
fn push_cells(bits: &mut Bits, cells: &[bool])
    requires { length bits.old + length cells.now ≤ MAX_BITS }
    ensures { bits.new ≡ bits.old ++ cells.now }
{
    for cell in cells {
        bits.push_number(u64::from(*cell), 1).unwrap();
    }
}

impl BitStore for PlainStore {
    ghost held = { λ store. store.held };

    ghost capacity = { λ store. store.capacity };

    fn with_room(alloc: Global, bits: usize) -> Result<Self, AllocError> {
        Ok(PlainStore {
            cells: vec![in alloc; false; bits]?.into_boxed_slice(),
            len: 0,
        })
    }

    fn copy(&self, alloc: Global) -> Result<Self, AllocError> {
        Ok(PlainStore {
            cells: BoxedSlice::from_slice(alloc, self.cells.as_slice())?,
            len: self.len,
        })
    }

    fn len(&self) -> usize {
        self.len
    }

    fn room(&self) -> usize {
        self.cells.len() - self.len
    }

    fn put(&mut self, part: Part<'_>) -> Result<(), NoRoom> {
        if part.len() > self.room() {
            return Err(NoRoom);
        }
        write_part(self.cells.as_mut_slice(), self.len, &part);
        self.len += part.len();
        Ok(())
    }

    fn move_to(&mut self, count: usize, bits: &mut Bits) {
        push_cells(bits, &self.cells[..count]);
        self.cells.as_mut_slice().rotate_left(count);
        self.len -= count;
    }

    fn clear(&mut self) {
        self.len = 0;
    }
}

//! `BitStore`.
ghost use Rattle.std.specs.Prelude.{◌≡◌, ℕ, ◌+◌, ◌≤◌, List, Bool, [], ◌++◌, length, take, drop, IfOk, OnOk, OnErr, IsOk, ◌↔◌};

use crate::bits::{Bits, MAX_BITS};
use crate::part::Part;
use std::alloc::{AllocError, Global};
use thiserror::Error;

/// A store has no room for the bits.
#[derive(Clone, Copy, Debug, Drop, PartialEq, Eq, Error)]
#[error("no room for these bits")]
pub struct NoRoom;

/// A queue of bits, up to a capacity. Only `with_room` and `copy` allocate: no other call gets an
/// allocator, and no store of this crate keeps one, since its room is a boxed slice, which cannot
/// grow.
pub trait BitStore: Drop + Sized {
    /// The bits, oldest first.
    ghost held: { Self → List Bool };

    /// The number of bits that it has room for in all.
    ghost capacity: { Self → ℕ };

    /// An empty store with room for `bits` bits.
    fn with_room(alloc: Global, bits: usize) -> Result<Self, AllocError>
        ensures held { IfOk result (λ store. held store ≡ []) }
        ensures capacity { IfOk result (λ store. capacity store ≡ bits) };

    /// A copy with the same bits and the same capacity.
    fn copy(&self, alloc: Global) -> Result<Self, AllocError>
        ensures held { IfOk result (λ store. held store ≡ held self.now) }
        ensures capacity { IfOk result (λ store. capacity store ≡ capacity self.now) };

    /// The number of bits that it holds.
    fn len(&self) -> usize
        ensures { result ≡ length (held self.now) };

    /// The number of bits that still fit.
    fn room(&self) -> usize
        ensures { result + length (held self.now) ≡ capacity self.now };

    /// Appends all bits, or none if they do not fit.
    fn put(&mut self, part: Part<'_>) -> Result<(), NoRoom>
        ensures variant { IsOk result ↔ (length (held self.old) + length part.entry ≤ capacity self.old) }
        ensures ok { OnOk result (held self.new ≡ held self.old ++ part.entry) }
        ensures err { OnErr result (held self.new ≡ held self.old) }
        ensures capacity { capacity self.new ≡ capacity self.old };

    /// Removes the first `count` bits and appends them to `bits`.
    fn move_to(&mut self, count: usize, bits: &mut Bits)
        requires held { count ≤ length (held self.old) }
        requires fits { length bits.old + count ≤ MAX_BITS }
        ensures bits { bits.new ≡ bits.old ++ take count (held self.old) }
        ensures held { held self.new ≡ drop count (held self.old) }
        ensures capacity { capacity self.new ≡ capacity self.old };

    /// Removes and returns the first `count` bits.
    fn take(&mut self, count: usize) -> Bits
        requires held { count ≤ length (held self.old) }
        requires fits { count ≤ MAX_BITS }
        ensures bits { result ≡ take count (held self.old) }
        ensures held { held self.new ≡ drop count (held self.old) }
        ensures capacity { capacity self.new ≡ capacity self.old }
    {
        let mut bits = Bits::new();
        self.move_to(count, &mut bits);
        bits
    }

    /// Removes all bits.
    fn clear(&mut self)
        ensures held { held self.new ≡ [] }
        ensures capacity { capacity self.new ≡ capacity self.old };
}

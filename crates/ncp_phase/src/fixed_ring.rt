//! `FixedRing`.
ghost use Rattle.std.specs.Prelude.{◌≡◌, ◌↔◌, ◌<◌, ◌≤◌, ◌∷◌, ◌++◌, [], length, drop, slice_get, IfOk, IfErr, OnOk, IsOk};
ghost use Rattle.std.specs.Option.{option_copied};
ghost use Rattle.std.specs.Map.Iter.{ShowsInOrder, deref};
ghost use Rattle.circular_buffer.specs.Buffer.{buffer, keep_last};

use circular_buffer::{HeapCircularBuffer, Iter};
use std::alloc::{AllocError, Global};
use std::marker::Model;

/// A ring of fixed capacity: only `with_capacity` and `copy` allocate. The buffer inside, which can
/// grow and gives access to its allocator, is private to this file.
#[derive(Drop)]
pub(crate) struct FixedRing<T> {
    ring: HeapCircularBuffer<T>,
}

impl<T> Model for FixedRing<T> {
    ghost use Rattle.circular_buffer.specs.Buffer.{Buffer, buffer_code};

    ghost Value = { Buffer T };

    ghost coded = { buffer_code T.code };

    ghost view = { λ fixed. fixed.ring };
}

impl<T: Drop> FixedRing<T> {
    /// No items, and room for `capacity`.
    pub(crate) fn with_capacity(alloc: Global, capacity: usize) -> Result<Self, AllocError>
        ensures { IfOk result (λ ring. ring ≡ buffer [] capacity) }
    {
        Ok(FixedRing {
            ring: HeapCircularBuffer::with_capacity(alloc, capacity)?,
        })
    }

    /// The number of items.
    pub(crate) fn len(&self) -> usize
        ensures len { result ≡ length self.now.items }
        ensures within { result ≤ self.now.capacity }
    {
        self.ring.len()
    }

    /// The items, first to last.
    pub(crate) fn iter(&self) -> Iter<'_, T>
        ensures rest { result ≡ self.now.items }
        ensures runs { ShowsInOrder (deref {X = T}) }
    {
        self.ring.iter()
    }

    /// The item at an index.
    pub(crate) fn get(&self, place: usize) -> Option<&T>
        ensures { option_copied result ≡ slice_get self.now.items place }
    {
        self.ring.get(place)
    }

    /// The first item.
    pub(crate) fn front(&self) -> Option<&T>
        ensures { option_copied result ≡ slice_get self.now.items 0 }
    {
        self.ring.front()
    }

    /// Appends an item. A full ring drops its first item.
    pub(crate) fn push_back(&mut self, item: T)
        ensures items { self.new ≡ buffer (keep_last self.old.capacity (self.old.items ++ item ∷ [])) self.old.capacity }
    {
        let _first = self.ring.push_back(item);
    }

    /// Appends an item, or returns it if the ring is full.
    pub(crate) fn try_push_back(&mut self, item: T) -> Result<(), T>
        ensures variant { IsOk result ↔ (length self.old.items < self.old.capacity) }
        ensures ok { OnOk result (self.new ≡ buffer (self.old.items ++ item ∷ []) self.old.capacity) }
        ensures err { IfErr result (λ back. (back ≡ item) × (self.new ≡ self.old)) }
    {
        self.ring.try_push_back(item)
    }

    /// Takes the first item out.
    pub(crate) fn pop_front(&mut self) -> Option<T>
        ensures value { result ≡ slice_get self.old.items 0 }
        ensures items { self.new ≡ buffer (drop 1 self.old.items) self.old.capacity }
    {
        self.ring.pop_front()
    }
}

impl<T: Copy> FixedRing<T> {
    /// A copy with the same items and the same capacity.
    pub(crate) fn copy(&self, alloc: Global) -> Result<Self, AllocError>
        ensures { IfOk result (λ ring. ring ≡ self.now) }
    {
        let mut copy = FixedRing::with_capacity(alloc, self.ring.capacity())?;
        for item in self.ring.iter() {
            copy.push_back(*item);
        }
        Ok(copy)
    }
}

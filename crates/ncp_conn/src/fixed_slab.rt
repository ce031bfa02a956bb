//! `FixedSlab`.
ghost use Rattle.std.specs.Prelude.{◌≡◌, ◌+◌, ◌<◌, ◌≤◌, ◌^◌, [], IfOk, Some, None, length};
ghost use Rattle.std.specs.Borrow.{sem};
ghost use Rattle.slab.specs.Slab.{get, entries, slab_len, ContainsKey, HasRoomFor, Updates};

use slab::{Iter, Slab};
use std::alloc::{AllocError, Global};
use std::marker::Model;
use std::ops::{Index, IndexMut};

/// A slab of fixed capacity: only `with_capacity` allocates. The growable slab inside is private to
/// this file.
#[derive(Drop)]
pub(crate) struct FixedSlab<T> {
    slab: Slab<T>,
}

impl<T> Model for FixedSlab<T> {
    ghost use Rattle.slab.specs.Slab.{Slab as Slots, slab_code};

    ghost Value = { Slots T };

    ghost coded = { slab_code T.code };

    ghost view = { λ fixed. fixed.slab };
}

impl<T: Drop> FixedSlab<T> {
    /// No values, and room for at least `capacity`.
    pub(crate) fn with_capacity(alloc: Global, capacity: usize) -> Result<Self, AllocError>
        ensures empty { IfOk result (λ s. s.slots ≡ []) }
        ensures capacity { IfOk result (λ s. capacity ≤ s.capacity) }
    {
        Ok(FixedSlab {
            slab: Slab::with_capacity(alloc, capacity)?,
        })
    }

    /// The number of values.
    pub(crate) fn len(&self) -> usize
        ensures { result ≡ slab_len self.now }
    {
        self.slab.len()
    }

    /// The keys with their values. Their number fits a `usize`.
    pub(crate) fn iter(&self) -> Iter<'_, T>
        ensures rest { result ≡ entries self.now }
        ensures len { length result ≡ slab_len self.now }
        ensures counted { slab_len self.now < 2 ^ 64 }
    {
        let _len = self.slab.len();
        self.slab.iter()
    }

    /// Stores a value under a vacant key, and returns the key.
    pub(crate) fn insert(&mut self, value: T) -> usize
        requires { HasRoomFor self.old 1 }
        ensures key { result ≡ self.old.vacant_key }
        ensures was_vacant { get self.old result ≡ None }
        ensures updates { Updates self.old self.new result (Some value) }
        ensures capacity { self.new.capacity ≡ self.old.capacity }
    {
        self.slab.insert_reserved(value)
    }

    /// Removes and returns the value under a key.
    pub(crate) fn remove(&mut self, key: usize) -> T
        requires { ContainsKey self.old key }
        ensures value { get self.old key ≡ Some result }
        ensures updates { Updates self.old self.new key None }
        ensures capacity { self.new.capacity ≡ self.old.capacity }
    {
        self.slab.remove(key)
    }

    /// Removes all values.
    pub(crate) fn clear(&mut self)
        ensures empty { self.new.slots ≡ [] }
        ensures capacity { self.new.capacity ≡ self.old.capacity }
    {
        self.slab.clear();
    }
}

impl<T> Index<usize> for FixedSlab<T> {
    type Output = T;

    ghost can_index = { ContainsKey };

    ghost index_gives = { λ s key value. get s key ≡ Some value };

    fn index(&self, key: usize) -> &T {
        &self.slab[key]
    }
}

impl<T> IndexMut<usize> for FixedSlab<T> {
    ghost use Rattle.ncp_conn.specs.Lends.{lends_value};

    fn index_mut(&mut self, key: usize) -> &mut T
        requires { ContainsKey self.old key }
        ensures* writes_back { sem 𝓛 (lends_value T.row self.entry key result) }
        ensures value { get self.old key ≡ Some result.now }
    {
        &mut self.slab[key]
    }
}

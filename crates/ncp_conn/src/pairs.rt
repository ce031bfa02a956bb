//! `Pairs`.
ghost use Rattle.std.specs.Iterator.{YieldsFirst, item_count};

use crate::entry::Entry;
use ncp_bits::BitStore;
use ncp_model::Pair;
use std::marker::Model;

/// An iterator over the pairs of a table's connections, each once, in no specified order. Contracts
/// see the list of those that remain.
#[derive(Drop)]
pub struct Pairs<'a, S: BitStore> {
    pub(crate) entries: slab::Iter<'a, Entry<S>>,
}

impl<'a, S: BitStore> Model for Pairs<'a, S> {
    ghost use Rattle.std.specs.Prelude.{List, map};
    ghost use Rattle.ncp_model.specs.declared.pair.Pair.{Pair};

    ghost Value = { List Pair };

    ghost view = { λ pairs. map (λ e. e.1.0) pairs.entries };
}

impl<'a, S: BitStore> Iterator for Pairs<'a, S> {
    type Item = Pair;

    ghost next_gives = { YieldsFirst (λ rest. rest) };

    ghost remaining = { item_count (λ rest. rest) };

    fn next(&mut self) -> Option<Pair> {
        let (_, entry) = self.entries.next()?;
        Some(entry.pair())
    }
}

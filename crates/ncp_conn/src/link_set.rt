//! `LinkSet`.
ghost use Rattle.std.specs.Prelude.{◌≡◌, ◌≤◌, ◌==◌, ℕ, true, false, if◌then◌else◌, IfSome};
ghost use Rattle.ncp_conn.specs.Links.{is_in, IsLowestIfAny};

use ncp_wire::LAST_LINK;
use std::marker::Model;

/// A set of links up to the last, as bits of a number: the lowest is found without a search.
#[derive(Drop)]
pub struct LinkSet {
    bits: u128,
}

impl Model for LinkSet {
    ghost use Rattle.std.specs.Prelude.{ℕ, ◌+◌, ◌^◌, ◌<◌};
    ghost use Rattle.ncp_wire.specs.declared.links.TheConstants.{LAST_LINK};

    ghost Value = { ℕ };

    ghost view = { λ links. links.bits };

    ghost invariant = { λ links. links.bits < 2 ^ (LAST_LINK + 1) };
}

impl LinkSet {
    /// The empty set.
    pub fn none() -> Self
        ensures { (on : ℕ) → is_in result on ≡ false }
    {
        LinkSet { bits: 0 }
    }

    /// Every link up to the last.
    pub fn all() -> Self
        ensures { (on : ℕ) → on ≤ LAST_LINK → is_in result on ≡ true }
    {
        LinkSet {
            bits: (1 << (LAST_LINK + 1)) - 1,
        }
    }

    /// A copy of the set.
    pub fn copy(&self) -> Self
        ensures { result ≡ self.now }
    {
        LinkSet { bits: self.bits }
    }

    /// Adds a link.
    pub fn insert(&mut self, link: u8)
        requires { link ≤ LAST_LINK }
        ensures { (on : ℕ) → is_in self.new on ≡ (if on == link then true else is_in self.old on) }
    {
        self.bits |= 1 << link;
    }

    /// Removes a link.
    pub fn remove(&mut self, link: u8)
        requires { link ≤ LAST_LINK }
        ensures { (on : ℕ) → is_in self.new on ≡ (if on == link then false else is_in self.old on) }
    {
        self.bits &= !(1 << link);
    }

    /// The lowest link of the set that is `from` or greater, if there is one.
    pub fn first_from(&self, from: u8) -> Option<u8>
        ensures lowest { IsLowestIfAny self.now from result }
        ensures last { IfSome result (λ link. link ≤ LAST_LINK) }
    {
        let links = self.bits;
        if from > LAST_LINK {
            return None;
        }
        let above = links >> from;
        if above == 0 {
            return None;
        }
        Some(from + above.trailing_zeros() as u8)
    }
}

//! `LinkIndex`.
ghost use Rattle.std.specs.Prelude.{◌≡◌, ◌≤◌, ◌==◌, ℕ, None, if◌then◌else◌};
ghost use Rattle.ncp_conn.specs.Indexes.{key_at};

use ncp_wire::LAST_LINK;
use std::marker::Model;

/// The length of an index: one item for each link up to the last. The items of the control link and
/// the link after it stay empty.
const PLACES: usize = LAST_LINK as usize + 1;

/// For each link, the key of the entry that it identifies, if any.
#[derive(Drop)]
pub(crate) struct LinkIndex {
    keys: [Option<usize>; PLACES],
}

impl Model for LinkIndex {
    ghost use Rattle.std.specs.Prelude.{ℕ, List, Option};

    ghost Value = { List (Option ℕ) };

    ghost view = { λ index. index.keys };
}

impl LinkIndex {
    /// No link identifies an entry.
    pub(crate) fn new() -> Self
        ensures { (on : ℕ) → key_at result on ≡ None }
    {
        LinkIndex {
            keys: [None; PLACES],
        }
    }

    /// The key for a link.
    pub(crate) fn key(&self, link: u8) -> Option<usize>
        ensures { result ≡ key_at self.now link }
    {
        *self.keys.get(usize::from(link))?
    }

    /// Sets the key for a link, or clears it.
    pub(crate) fn set(&mut self, link: u8, key: Option<usize>)
        requires { link ≤ LAST_LINK }
        ensures { (on : ℕ) → key_at self.new on ≡ (if on == link then key else key_at self.old on) }
    {
        self.keys[usize::from(link)] = key;
    }
}

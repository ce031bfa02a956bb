//! The positions of the word `settle` among notes.
ghost use Rattle.std.specs.Prelude.{◌≡◌, ◌+◌, ◌<◌, ◌^◌, [], ◌∷◌, ◌++◌, length, OnOk, OnErr};
ghost use Rattle.ncp_play_world.specs.Traces.{last_marked, marked_place};

use std::alloc::{AllocError, Global};

/// A word `settle`: the number of notes between it and the one before, and the number of its
/// events.
#[derive(Clone, Copy, Drop)]
pub(crate) struct Mark {
    pub(crate) behind: usize,
    pub(crate) many: usize,
}

/// The words so far, and the number of notes after the last.
#[derive(Drop)]
pub(crate) struct Marks {
    marks: Vec<Mark>,
    since: usize,
}

impl Marks {
    pub(crate) fn new(alloc: Global) -> Marks
        ensures marks { result.marks.items ≡ [] }
        ensures since { result.since ≡ 0 }
    {
        Marks {
            marks: Vec::new(alloc),
            since: 0,
        }
    }

    /// Counts one more note.
    pub(crate) fn noted(&mut self)
        requires { self.old.since + 1 < 2 ^ 64 }
        ensures marks { self.new.marks.items ≡ self.old.marks.items }
        ensures since { self.new.since ≡ self.old.since + 1 }
    {
        self.since += 1;
    }

    /// Appends a word with `many` events. On `AllocError` nothing has happened.
    pub(crate) fn settled(&mut self, many: usize) -> Result<(), AllocError>
        ensures marks { OnOk result (self.new.marks.items
            ≡ self.old.marks.items ++ record { behind = self.old.since; many = many } ∷ []) }
        ensures since { OnOk result (self.new.since ≡ 0) }
        ensures err { OnErr result ((self.new.marks.items ≡ self.old.marks.items) × (self.new.since ≡ self.old.since)) }
    {
        self.marks.push(Mark {
            behind: self.since,
            many,
        })?;
        self.since = 0;
        Ok(())
    }

    /// The number of events of the last word, if no note follows it.
    pub(crate) fn last(&self) -> Option<usize>
        ensures { result ≡ last_marked self.now.marks.items self.now.since }
    {
        if self.since > 0 {
            return None;
        }
        let mark = self.marks.last()?;
        Some(mark.many)
    }

    /// The number of words.
    pub(crate) fn count(&self) -> usize
        ensures count { result ≡ length self.now.marks.items }
        ensures room { result < 2 ^ 63 }
    {
        self.marks.len()
    }

    /// The index among all notes of the line with this number, both counted from 0. None for a
    /// word, or if there is no such line.
    pub(crate) fn position_of(&self, line: usize) -> Option<usize>
        ensures { result ≡ marked_place self.now.marks.items self.now.since 0 line }
    {
        let mut before = 0_usize;
        let mut left = line;
        for mark in &self.marks {
            if left < mark.behind {
                return Some(before + left);
            }
            if left == mark.behind {
                return None;
            }
            before += mark.behind;
            left -= mark.behind + 1;
        }
        if left < self.since {
            Some(before + left)
        } else {
            None
        }
    }
}

//! `Words`.
ghost use Rattle.std.specs.Prelude.{◌≡◌, ◌↔◌, IsTrue, [], ◌∷◌, MatchOption, option_map};
ghost use Rattle.ncp_play_script.specs.Words.{words_of, is_only, ends_at, number_first, largest_u8, largest_u16, largest_u32};

use crate::cut::position_of;
use crate::numbers::number;
use std::marker::Model;

/// The byte between two words.
pub(crate) const SPACE: u8 = b' ';

/// The remaining words of a line, in order.
#[derive(Drop)]
pub struct Words<'a> {
    rest: Option<&'a [u8]>,
}

impl<'a> Model for Words<'a> {
    ghost use Rattle.std.specs.Prelude.{List, ℕ, option_map};
    ghost use Rattle.ncp_play_script.specs.Words.{words_left};

    ghost Value = { List (List ℕ) };

    ghost view = { λ words. words_left (option_map (λ rest. rest.now) words.rest) };
}

impl<'a> Words<'a> {
    /// The words of a line: its parts between spaces. A line without a byte is one empty word.
    pub fn new(line: &'a [u8]) -> Words<'a>
        ensures { result ≡ words_of line.entry.now }
    {
        Words { rest: Some(line) }
    }

    /// Whether all words were read.
    pub fn is_empty(&self) -> bool
        ensures { IsTrue result ↔ (self.now ≡ []) }
    {
        self.rest.is_none()
    }

    /// Whether exactly this word is left.
    pub fn is_only(&self, word: &[u8]) -> bool
        ensures { result ≡ is_only word.now self.now }
    {
        let Some(rest) = self.rest else {
            return false;
        };
        match position_of(SPACE, rest) {
            Some(_) => false,
            None => word == rest,
        }
    }

    /// Whether no word is left, or this one is the next.
    pub(crate) fn ends_at(&self, word: &[u8]) -> bool
        ensures { result ≡ ends_at word.now self.now }
    {
        let Some(rest) = self.rest else {
            return true;
        };
        match position_of(SPACE, rest) {
            Some(place) => word == &rest[..place],
            None => word == rest,
        }
    }

    /// The next word, if one is left.
    pub fn next_word(&mut self) -> Option<&'a [u8]>
        ensures { MatchOption result ((self.old ≡ []) × (self.new ≡ [])) (λ word. self.old ≡ word.now ∷ self.new) }
    {
        let rest = self.rest?;
        match position_of(SPACE, rest) {
            Some(place) => {
                self.rest = Some(&rest[place + 1..]);
                Some(&rest[..place])
            }
            None => {
                self.rest = None;
                Some(rest)
            }
        }
    }

    // The next word as a number of at most `most`.
    pub(crate) fn next_number(&mut self, most: u32) -> Option<u32>
        ensures { option_map (λ number. (number, self.new)) result ≡ number_first most self.old }
    {
        number(self.next_word()?, most)
    }

    /// The next word as a number of 8 bits. On `None` the remaining words are unspecified.
    pub fn next_u8(&mut self) -> Option<u8>
        ensures { option_map (λ number. (number, self.new)) result ≡ number_first largest_u8 self.old }
    {
        let number = self.next_number(u32::from(u8::MAX))?;
        Some(number as u8)
    }

    /// The next word as a number of 16 bits. On `None` the remaining words are unspecified.
    pub fn next_u16(&mut self) -> Option<u16>
        ensures { option_map (λ number. (number, self.new)) result ≡ number_first largest_u16 self.old }
    {
        let number = self.next_number(u32::from(u16::MAX))?;
        Some(number as u16)
    }

    /// The next word as a number of 32 bits. On `None` the remaining words are unspecified.
    pub fn next_u32(&mut self) -> Option<u32>
        ensures { option_map (λ number. (number, self.new)) result ≡ number_first largest_u32 self.old }
    {
        self.next_number(u32::MAX)
    }
}

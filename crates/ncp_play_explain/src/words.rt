//! The words of a line.
ghost use Rattle.std.specs.Prelude.{◌≡◌, ◌↔◌, ℕ, List, [], map, drop, take, slice_get, option_copied, unwrap_or, bytes_eq, Contains, IfOk, IsTrue};
ghost use Rattle.std.specs.List.{list_any};
ghost use Rattle.ncp_play_explain.specs.Printing.{words_of, first_word};

use std::alloc::{AllocError, Global};

/// The words of a line, separated by single spaces.
pub(crate) fn words_of<'a>(alloc: Global, text: &'a str) -> Result<Vec<&'a str>, AllocError>
    ensures { IfOk result (λ words. map (λ word. word.now) words.items ≡ words_of text.now) }
{
    text.split(' ').collect(alloc)
}

/// The word at an index, if there is one.
#[tactic(auto, using(crate::proofs::Places::read_at, crate::proofs::Places::read_past))]
pub(crate) fn word_at<'a>(words: &[&'a str], place: usize) -> Option<&'a str>
    ensures { option_copied result ≡ slice_get (map (λ word. word.now) words.now) place }
{
    if place < words.len() {
        Some(words[place])
    } else {
        None
    }
}

/// The first `count` words, or all if there are fewer.
#[tactic(auto, using(crate::proofs::Places::read_front))]
pub(crate) fn words_before<'a, 'b>(words: &'b [&'a str], count: usize) -> &'b [&'a str]
    ensures { map (λ word. word.now) result.now ≡ take count (map (λ word. word.now) words.now) }
{
    if count < words.len() {
        &words[..count]
    } else {
        words
    }
}

/// The words after the first `count`.
#[tactic(auto, using(crate::proofs::Places::read_rest))]
pub(crate) fn words_after<'a, 'b>(words: &'b [&'a str], count: usize) -> &'b [&'a str]
    ensures { map (λ word. word.now) result.now ≡ drop count (map (λ word. word.now) words.now) }
{
    if count < words.len() {
        &words[count..]
    } else {
        &[]
    }
}

/// The first of the words of a line.
pub(crate) fn first_of<'a>(words: &[&'a str]) -> &'a str
    ensures first { result.now ≡ unwrap_or (slice_get (map (λ word. word.now) words.now) 0) [] }
    ensures line { (line : List ℕ) → map (λ word. word.now) words.now ≡ words_of line → result.now ≡ first_word line }
{
    match word_at(words, 0) {
        Some(head) => head,
        None => "",
    }
}

/// Whether a word is one of these.
pub(crate) fn is_among(word: &str, known: &[&str]) -> bool
    ensures test { result ≡ list_any (λ one. bytes_eq one word.now) (map (λ one. one.now) known.now) }
    ensures there { IsTrue result ↔ Contains (map (λ one. one.now) known.now) word.now }
{
    known.contains(&word)
}

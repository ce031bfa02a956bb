//! The meanings of the words of printed lines.
ghost use Rattle.std.specs.Prelude.{◌≢◌, All, Contains, IfSome, IfNone};
ghost use Rattle.ncp_play_explain.specs.Printed.{other_words, printed};

use crate::message_words::message_word_meaning;
use crate::report_words::report_word_meaning;
use crate::script_words::script_word_meaning;

// The meaning of a word that is not about a message.
fn other_word_meaning(word: &str) -> Option<&'static str>
    ensures known { IfSome result (λ text. Contains other_words (word.now, text.now)) }
    ensures unknown { IfNone result (All (λ entry. entry.0 ≢ word.now) other_words) }
{
    match report_word_meaning(word) {
        Some(text) => Some(text),
        None => script_word_meaning(word),
    }
}

/// The meaning of a word of a line of `show`, `check`, `audit`, `follow`, `host` or `world`, if it
/// is one. The meanings of the names of faults, refusals and rules, and of how a connection ended,
/// are elsewhere.
pub fn word_meaning(word: &str) -> Option<&'static str>
    ensures known { IfSome result (λ text. Contains printed (word.now, text.now)) }
    ensures unknown { IfNone result (All (λ entry. entry.0 ≢ word.now) printed) }
{
    match message_word_meaning(word) {
        Some(text) => Some(text),
        None => other_word_meaning(word),
    }
}

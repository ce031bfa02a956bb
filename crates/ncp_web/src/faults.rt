//! Explanations of faults for the author of a script. Nothing depends on their words.
ghost use Rattle.std.specs.Prelude.{◌≡◌, ◌≢◌, ◌<◌, ◌⊎◌, List, ℕ, length, take, All, Contains, IfSome, IfNone};
ghost use Rattle.std.specs.Str.{IsUtf8};
ghost use Rattle.ncp_web.specs.Bytes.{Explains};
ghost use Rattle.ncp_web.specs.Meanings.{meanings};
ghost use Rattle.ncp_web.specs.declared.answer.TheConstants.{DONE, FULL, NOTHING, NO_MEMORY};

use crate::answer::{DONE, FULL, NO_MEMORY, NOTHING};
use ncp_play_audit::rule_meaning;
use ncp_play_explain::{Player, meaning, word_meaning, wrong_first_line, wrong_line};
use ncp_play_follow::end_meaning;
use std::alloc::{AllocError, Global};

// Copies words to the front of a buffer, if it has room for them.
fn hand_out(words: &str, out: &mut [u8], written: &mut usize) -> u32
    requires { written.old ≡ 0 }
    ensures explains { Explains result out.old out.new written.new }
    ensures done { result ≡ DONE → take written.new out.new ≡ words.now }
    ensures full { result ≡ FULL → length out.old < length words.now }
    ensures no_other { (result ≡ DONE) ⊎ (result ≡ FULL) }
{
    let bytes = words.as_bytes();
    if bytes.len() > out.len() {
        return FULL;
    }
    out[..bytes.len()].copy_from_slice(bytes);
    *written = bytes.len();
    DONE
}

// Copies words to a buffer, if they could be allocated.
fn hand_out_made(words: Result<String, AllocError>, out: &mut [u8], written: &mut usize) -> u32
    requires { written.old ≡ 0 }
    ensures { Explains result out.old out.new written.new }
{
    match words {
        Ok(words) => hand_out(words.as_str(), out, written),
        Err(_) => NO_MEMORY,
    }
}

/// Explains what is wrong with an invalid line, in a script of several hosts with this first line.
#[unsafe(no_mangle)]
pub extern "C" fn ncp_web_wrong_line(
    alloc: Global,
    first: &[u8],
    line: &[u8],
    out: &mut [u8],
    written: &mut usize,
) -> u32
    ensures explains { Explains result out.old out.new written.new }
{
    *written = 0;
    let wrong = wrong_line(alloc, Player::World, first, line);
    hand_out_made(wrong, out, written)
}

/// Explains what is wrong with the first line of a script of several hosts.
#[unsafe(no_mangle)]
pub extern "C" fn ncp_web_wrong_first_line(
    alloc: Global,
    first: &[u8],
    out: &mut [u8],
    written: &mut usize,
) -> u32
    ensures explains { Explains result out.old out.new written.new }
{
    *written = 0;
    let wrong = wrong_first_line(alloc, Player::World, first);
    hand_out_made(wrong, out, written)
}

// The meaning of the name of a fault or a refusal, of a rule, or of a word of a line.
fn any_meaning(name: &str) -> Option<&'static str>
    ensures known { IfSome result (λ text. Contains meanings (name.now, text.now)) }
    ensures unknown { IfNone result (All (λ entry. entry.0 ≢ name.now) meanings) }
{
    match meaning(name) {
        Some(text) => Some(text),
        None => match rule_meaning(name) {
            Some(text) => Some(text),
            None => match end_meaning(name) {
                Some(text) => Some(text),
                None => match word_meaning(name) {
                    Some(text) => Some(text),
                    None => None,
                },
            },
        },
    }
}

/// Writes the meaning of the name of a fault, a refusal, a rule or the end of a connection, or of
/// another word of a line: the first part of the output of `ncp explain`.
///
/// Refused, in this order, with nothing written: `NOTHING` (no such name), `FULL`.
#[unsafe(no_mangle)]
pub extern "C" fn ncp_web_meaning(name: &[u8], out: &mut [u8], written: &mut usize) -> u32
    ensures explains { Explains result out.old out.new written.new }
    ensures known { result ≡ DONE → Contains meanings (name.now, take written.new out.new) }
    ensures full { result ≡ FULL → (text : List ℕ) × Contains meanings (name.now, text) × (length out.old < length text) }
    ensures unknown { result ≡ NOTHING → IsUtf8 name.now → All (λ entry. entry.0 ≢ name.now) meanings }
    ensures no_other { (result ≡ DONE) ⊎ (result ≡ FULL) ⊎ (result ≡ NOTHING) }
{
    *written = 0;
    let Ok(name) = std::str::from_utf8(name) else {
        return NOTHING;
    };
    match any_meaning(name) {
        Some(words) => hand_out(words, out, written),
        None => NOTHING,
    }
}

//! What is wrong with the first line of a script.
ghost use Rattle.std.specs.Prelude.{◌≡◌, ◌≢◌, ◌++◌, [], false, Contains, IfOk, IfSome, None, IsNone, IsSomeAnd, IsTrue, codes, drop, map, option_copied, option_map};
ghost use Rattle.std.specs.String.{string_bytes};
ghost use Rattle.ncp_play_explain.specs.Hosts.{after_two_printed, before_watch, ends_printed, hosts_printed, is_named, many_printed, named_again, no_host, no_number, numbers_printed, one_printed, sender_arguments_printed, sender_printed, two_printed, watch_printed, words_to_watch};
ghost use Rattle.ncp_play_explain.specs.Spelling.{strange_byte, byte_printed, IsWellSpaced, IsWellSpelled, PrintsSpaces};
ghost use Rattle.ncp_play_explain.specs.Printing.{first_word, words_of, heads, first_line_wanted, is_message_file, has_mark, message_file_printed, mark_printed, PrintsNoHead};

use crate::arguments::{and_form, number_in, wrong_arguments, wrong_number};
use crate::near::nearest;
use crate::spelling::misspelled;
use crate::usage::{BYTE, Player, SENDER, SOCKETS};
use crate::words::{first_of, is_among, word_at, words_after, words_before, words_of};
use std::alloc::{AllocError, Global};

// The words that first lines begin with.
const HEADS: &[&str] = &["hosts", "many", "host"];

// The form of a first line.
const ONE: &str = "host ME PEER ..";

const TWO: &str = "hosts A B";

const MORE: &str = "many N1 N2 ..";

const WATCHED: &str = "hosts A B watch SIDE LOCAL REMOTE";

const SENDER_WATCHED: &str = "many N1 N2 .. watch H P LOCAL REMOTE";

// Whether bytes begin like a message file.
fn is_message_file(first: &[u8]) -> bool
    ensures { result ≡ is_message_file first.now }
{
    first.starts_with(b"NCPH") || first.starts_with(b"NCPI") || first.starts_with(b"NCPJ")
}

// Whether bytes begin with a byte order mark.
fn has_mark(first: &[u8]) -> bool
    ensures { result ≡ has_mark first.now }
{
    first.starts_with(&[0xEF, 0xBB, 0xBF])
}

// What kind of file these bytes are instead of a script, if that can be seen.
fn other_file(alloc: Global, first: &[u8]) -> Result<Option<String>, AllocError>
    ensures file { IsTrue (is_message_file first.now) →
        IfOk result (λ other. IsSomeAnd other (λ text. string_bytes text ≡ message_file_printed)) }
    ensures mark { is_message_file first.now ≡ false → IsTrue (has_mark first.now) →
        IfOk result (λ other. IsSomeAnd other (λ text. string_bytes text ≡ mark_printed)) }
    ensures none { is_message_file first.now ≡ false → has_mark first.now ≡ false → IfOk result (λ other. IsNone other) }
{
    if is_message_file(first) {
        return Ok(Some(format!(in alloc;
            "this is a message file and no script: ncp show shows it"
        )?));
    }
    if has_mark(first) {
        return Ok(Some(format!(in alloc;
            "a byte order mark (ef bb bf) is in front of the first line"
        )?));
    }
    Ok(None)
}

// The first word that is no number of a host, if there is one.
fn no_number<'a>(words: &[&'a str]) -> Option<&'a str>
    ensures { option_copied result ≡ no_number (map (λ word. word.now) words.now) }
{
    for word in words {
        if number_in(word, BYTE).is_none() {
            return Some(*word);
        }
    }
    None
}

/// Whether one of these words has the number of this one.
pub(crate) fn is_named(word: &str, named: &[&str]) -> bool
    ensures { result ≡ is_named word.now (map (λ word. word.now) named.now) }
{
    let number = number_in(word, BYTE);
    for other in named {
        if number_in(other, BYTE) == number {
            return true;
        }
    }
    false
}

// The first word whose number was named before, if there is one.
#[tactic(auto, using(crate::proofs::Hosts::again_here, crate::proofs::Hosts::again_behind))]
fn named_again<'a>(words: &[&'a str]) -> Option<&'a str>
    ensures { option_copied result ≡ named_again [] (map (λ word. word.now) words.now) }
{
    for (place, word) in words.iter().enumerate() {
        if is_named(word, words_before(words, place)) {
            return Some(*word);
        }
    }
    None
}

// What is wrong with the numbers of hosts, if anything.
fn wrong_numbers(alloc: Global, words: &[&str]) -> Result<Option<String>, AllocError>
    ensures { IfOk result (λ wrong. option_map string_bytes wrong ≡ numbers_printed (map (λ word. word.now) words.now)) }
{
    if let Some(word) = no_number(words) {
        return wrong_number(alloc, "the number of a host", BYTE, word);
    }
    match named_again(words) {
        Some(word) => Ok(Some(format!(in alloc; "host {word} is named twice")?)),
        None => Ok(None),
    }
}

// What is wrong with a sender to watch.
fn wrong_watch(alloc: Global, words: &[&str]) -> Result<String, AllocError>
    ensures { IfOk result (λ text. string_bytes text ≡ watch_printed (map (λ word. word.now) words.now)) }
{
    let side = first_of(words);
    if side != "a" && side != "b" {
        return format!(in alloc; "SIDE is '{side}', and has to be a or b: {WATCHED}");
    }
    let sockets = words_after(words, 1);
    match wrong_arguments(alloc, SOCKETS, sockets)? {
        Some(wrong) => and_form(alloc, wrong, WATCHED),
        None => format!(in alloc; "a sender is watched: LOCAL is odd, and REMOTE is even"),
    }
}

// What is wrong after two hosts.
fn wrong_after_two(alloc: Global, words: &[&str]) -> Result<String, AllocError>
    ensures { IfOk result (λ text. string_bytes text ≡ after_two_printed (map (λ word. word.now) words.now)) }
{
    match word_at(words, 0) {
        Some(word) if word == "watch" => wrong_watch(alloc, words_after(words, 1)),
        Some(word) => {
            format!(in alloc; "'{word}' is one word too many: {TWO}; for more hosts {MORE}")
        }
        None => format!(in alloc; "it names no two hosts: {TWO}"),
    }
}

// What is wrong after `hosts`.
fn wrong_two(alloc: Global, words: &[&str]) -> Result<String, AllocError>
    ensures { IfOk result (λ text. string_bytes text ≡ two_printed (map (λ word. word.now) words.now)) }
{
    if let Some(wrong) = wrong_numbers(alloc, words_before(words, 2))? {
        return and_form(alloc, wrong, TWO);
    }
    if words.len() < 2 {
        return format!(in alloc; "two hosts have to be named: {TWO}");
    }
    wrong_after_two(alloc, words_after(words, 2))
}

// The first of these words whose number no host has, if there is one.
fn no_host<'a>(named: &[&str], words: &[&'a str]) -> Option<&'a str>
    ensures { option_copied result ≡ no_host (map (λ word. word.now) named.now) (map (λ word. word.now) words.now) }
{
    for word in words {
        if !is_named(word, named) {
            return Some(*word);
        }
    }
    None
}

// What is wrong with the host and the peer of a sender to watch, unless they are two of these
// hosts.
fn wrong_ends(alloc: Global, named: &[&str], ends: &[&str]) -> Result<Option<String>, AllocError>
    ensures { IfOk result (λ wrong.
        option_map string_bytes wrong ≡ ends_printed (map (λ word. word.now) named.now) (map (λ word. word.now) ends.now)) }
{
    if let Some(word) = no_host(named, ends) {
        return Ok(Some(format!(in alloc; "host {word} is none of these hosts")?));
    }
    match named_again(ends) {
        Some(word) => Ok(Some(format!(in alloc;
            "H and P are both host {word}, and a host is no peer of itself"
        )?)),
        None => Ok(None),
    }
}

// What is wrong with the arguments of a sender to watch, if anything.
fn wrong_in_sender(
    alloc: Global,
    named: &[&str],
    words: &[&str],
) -> Result<Option<String>, AllocError>
    ensures { IfOk result (λ wrong. option_map string_bytes wrong
        ≡ sender_arguments_printed (map (λ word. word.now) named.now) (map (λ word. word.now) words.now)) }
{
    match wrong_arguments(alloc, SENDER, words)? {
        Some(wrong) => Ok(Some(wrong)),
        None => wrong_ends(alloc, named, words_before(words, 2)),
    }
}

// What is wrong with a sender to watch of these hosts.
fn wrong_sender(alloc: Global, named: &[&str], words: &[&str]) -> Result<String, AllocError>
    ensures { IfOk result (λ text.
        string_bytes text ≡ sender_printed (map (λ word. word.now) named.now) (map (λ word. word.now) words.now)) }
{
    match wrong_in_sender(alloc, named, words)? {
        Some(wrong) => and_form(alloc, wrong, SENDER_WATCHED),
        None => format!(in alloc; "a sender is watched: LOCAL is odd, and REMOTE is even"),
    }
}

// The number of words before the word `watch`.
#[tactic(auto, using(crate::proofs::Hosts::watch_here, crate::proofs::Hosts::watch_behind))]
fn before_watch(words: &[&str]) -> usize
    ensures { result ≡ before_watch (map (λ word. word.now) words.now) }
{
    for (place, word) in words.iter().enumerate() {
        if *word == "watch" {
            return place;
        }
    }
    words.len()
}

/// The words before the word `watch`, or all if there is none; after `many` they name the hosts.
pub(crate) fn words_to_watch<'a, 'b>(words: &'b [&'a str]) -> &'b [&'a str]
    ensures { map (λ word. word.now) result.now ≡ words_to_watch (map (λ word. word.now) words.now) }
{
    words_before(words, before_watch(words))
}

// What is wrong after `many`.
#[tactic(auto, using(crate::proofs::Hosts::counted))]
fn wrong_many(alloc: Global, words: &[&str]) -> Result<String, AllocError>
    ensures { IfOk result (λ text. string_bytes text ≡ many_printed (map (λ word. word.now) words.now)) }
{
    let count = before_watch(words);
    let named = words_before(words, count);
    if let Some(wrong) = wrong_numbers(alloc, named)? {
        return and_form(alloc, wrong, MORE);
    }
    if count < words.len() && 2 <= count && count <= 8 {
        return wrong_sender(alloc, named, words_after(words, count + 1));
    }
    format!(in alloc; "there are two to 8 hosts, and here are {count}: {MORE}")
}

// What is wrong after `host`.
#[tactic(auto, using(crate::proofs::Hosts::counted))]
fn wrong_one(alloc: Global, words: &[&str]) -> Result<String, AllocError>
    ensures { IfOk result (λ text. string_bytes text ≡ one_printed (map (λ word. word.now) words.now)) }
{
    if let Some(wrong) = wrong_numbers(alloc, words)? {
        return and_form(alloc, wrong, ONE);
    }
    let peers = words.len().saturating_sub(1);
    format!(in alloc; "a host has one to 8 peers, and here are {peers}: {ONE}")
}

// The required form of the first line.
fn wanted(player: Player) -> &'static str
    ensures { result.now ≡ first_line_wanted player }
{
    match player {
        Player::Host => "the first line names the host and its peers, as 'host 1 2'",
        Player::World => "the first line names the hosts, as 'hosts 1 2' or 'many 1 2 3'",
    }
}

// What is wrong with a first line that begins with another word.
fn wrong_head(alloc: Global, player: Player, head: &str) -> Result<String, AllocError>
    ensures { IfOk result (λ text. PrintsNoHead player head.now (string_bytes text)) }
{
    let wanted = wanted(player);
    match nearest(head, HEADS) {
        Some(near) => format!(in alloc;
            "{wanted}; '{head}' is no such word; did you mean '{near}'?"
        ),
        None => format!(in alloc; "{wanted}, and here it begins with '{head}'"),
    }
}

// What is wrong with the hosts after the first word of a first line.
fn wrong_hosts(
    alloc: Global,
    player: Player,
    head: &str,
    hosts: &[&str],
) -> Result<String, AllocError>
    ensures { IfOk result (λ text.
        string_bytes text ≡ hosts_printed player head.now (map (λ word. word.now) hosts.now)) }
{
    match (player, head) {
        (Player::Host, "host") => wrong_one(alloc, hosts),
        (Player::World, "hosts") => wrong_two(alloc, hosts),
        (Player::World, "many") => wrong_many(alloc, hosts),
        (Player::World, _) => {
            format!(in alloc; "this is a script of one host: ncp host plays it")
        }
        (Player::Host, _) => {
            format!(in alloc; "this is a script of several hosts: ncp world plays it")
        }
    }
}

// What is wrong with the words of a first line.
fn wrong_words(alloc: Global, player: Player, text: &str) -> Result<String, AllocError>
    ensures hosts { Contains heads (first_word text.now) →
        IfOk result (λ printed. string_bytes printed ≡ hosts_printed player (first_word text.now) (drop 1 (words_of text.now))) }
    ensures head { ¬ (Contains heads (first_word text.now)) →
        IfOk result (λ printed. PrintsNoHead player (first_word text.now) (string_bytes printed)) }
{
    let words = words_of(alloc, text)?;
    let head = first_of(words.as_slice());
    if is_among(head, HEADS) {
        let hosts = words_after(words.as_slice(), 1);
        wrong_hosts(alloc, player, head, hosts)
    } else {
        wrong_head(alloc, player, head)
    }
}

/// What is wrong with the first line of a script that is `BadHosts`; `first` is empty if no line is
/// played.
#[tactic(auto, using(crate::proofs::Spelled::spelled_is_text))]
pub fn wrong_first_line(alloc: Global, player: Player, first: &[u8]) -> Result<String, AllocError>
    ensures empty { first.now ≡ [] → IfOk result (λ text. string_bytes text ≡
        codes "the script has no line that is played: " ++ first_line_wanted player) }
    ensures file { IsTrue (is_message_file first.now) → IfOk result (λ text. string_bytes text ≡ message_file_printed) }
    ensures mark { IsTrue (has_mark first.now) → IfOk result (λ text. string_bytes text ≡ mark_printed) }
    ensures byte { is_message_file first.now ≡ false → has_mark first.now ≡ false →
        IfSome (strange_byte first.now) (λ at. IfOk result (λ text. string_bytes text ≡ byte_printed at.0 at.1)) }
    ensures spaces { is_message_file first.now ≡ false → has_mark first.now ≡ false → strange_byte first.now ≡ None
        → ¬ (IsWellSpaced first.now) →
        IfOk result (λ text. PrintsSpaces first.now (string_bytes text)) }
    ensures hosts { first.now ≢ [] → is_message_file first.now ≡ false → IsWellSpelled first.now
        → Contains heads (first_word first.now) →
        IfOk result (λ text. string_bytes text ≡ hosts_printed player (first_word first.now) (drop 1 (words_of first.now))) }
    ensures head { first.now ≢ [] → is_message_file first.now ≡ false → IsWellSpelled first.now → ¬ (Contains heads (first_word first.now)) →
        IfOk result (λ text. PrintsNoHead player (first_word first.now) (string_bytes text)) }
{
    if first.is_empty() {
        let wanted = wanted(player);
        return format!(in alloc; "the script has no line that is played: {wanted}");
    }
    if let Some(other) = other_file(alloc, first)? {
        return Ok(other);
    }
    if let Some(wrong) = misspelled(alloc, first)? {
        return Ok(wrong);
    }
    match str::from_utf8(first) {
        Ok(text) => wrong_words(alloc, player, text),
        Err(_) => format!(in alloc; "it is no text"),
    }
}

//! What is wrong with a line of a script after the first.
ghost use Rattle.std.specs.Prelude.{◌≡◌, ◌&&◌, is_some, ◌++◌, drop, map, option_map, option_to_list, Contains, IfOk, IfSome, None, IsUtf8, codes, bytes_eq, MatchBool, MatchOption};
ghost use Rattle.std.specs.String.{string_bytes};
ghost use Rattle.ncp_play_explain.specs.Arguments.{asked_argument, number_in};
ghost use Rattle.ncp_play_explain.specs.Hosts.{is_named, words_to_watch};
ghost use Rattle.ncp_play_explain.specs.Lines.{asked_printed, other_verb_printed, settle_printed, PrintsByVerb, PrintsDeed, PrintsNoSide, PrintsHost, PrintsOfWorld, PrintsSide, numbers_named, verb_printed};
ghost use Rattle.ncp_play_explain.specs.Spelling.{strange_byte, byte_printed, IsWellSpaced, IsWellSpelled, PrintsSpaces};
ghost use Rattle.ncp_play_explain.specs.Printing.{first_word, words_of, PrintsNoVerb};
ghost use Rattle.ncp_play_explain.specs.Verbs.{all_verb_words, verb_among_others, verb_in, verb_named, verb_with, verbs_of};

use crate::arguments::{and_form, number_in, written, wrong_arguments};
use crate::first_line::{is_named, words_to_watch};
use crate::near::nearest;
use crate::spelling::misspelled;
use crate::usage::{
    Argument, BYTE, CALLS, OF_ONE_HOST, OF_THE_SUBNET, PEER, PLAIN, Player, SETTLE, ScriptKind, TO,
    Usage, is_verb, verbs,
};
use crate::words::{word_at, words_after, words_of};
use std::alloc::{AllocError, Global};

// The argument before the others of a verb, and the form of the verb.
#[derive(Clone, Copy, Drop)]
struct Form {
    leading: Option<Argument>,
    usage: &'static Usage,
}

// The form of a verb, if it is one of these, with this argument in front.
fn form_in(leading: Option<Argument>, usages: &'static [Usage], verb: &str) -> Option<Form>
    ensures { option_map verb_with result ≡ verb_in (map asked_argument (option_to_list leading)) (verbs_of usages.now) verb.now }
{
    for usage in usages {
        if usage.0 == verb {
            return Some(Form { leading, usage });
        }
    }
    None
}

// The same in a script where the calls have `peer` in front, and the `others` have `to`.
fn form_among(
    peer: Option<Argument>,
    others: &'static [Usage],
    to: Option<Argument>,
    verb: &str,
) -> Option<Form>
    ensures { option_map verb_with result ≡ verb_among_others (map asked_argument (option_to_list peer)) (verbs_of others.now) (map asked_argument (option_to_list to)) verb.now }
{
    if let Some(form) = form_in(None, PLAIN, verb) {
        return Some(form);
    }
    if let Some(form) = form_in(peer, CALLS, verb) {
        return Some(form);
    }
    form_in(to, others, verb)
}

// The form of a verb of a script of this kind, if it is one.
fn form_of(scene: ScriptKind, verb: &str) -> Option<Form>
    ensures { option_map verb_with result ≡ verb_named scene verb.now }
{
    match scene {
        ScriptKind::Host => form_among(Some(PEER), OF_ONE_HOST, None, verb),
        ScriptKind::Sides => form_among(None, OF_THE_SUBNET, None, verb),
        ScriptKind::Numbers => form_among(Some(PEER), OF_THE_SUBNET, Some(TO), verb),
    }
}

// A verb of other scripts than this, or one that is alone on its line.
fn other_verb(alloc: Global, scene: ScriptKind, verb: &str) -> Result<String, AllocError>
    ensures { IfOk result (λ text. string_bytes text ≡ other_verb_printed scene verb.now) }
{
    match scene {
        ScriptKind::Host => format!(in alloc;
            "'{verb}' is a word of scripts of several hosts, which 'ncp world' plays"
        ),
        ScriptKind::Sides | ScriptKind::Numbers if verb == SETTLE => wrong_at_settle(alloc),
        ScriptKind::Sides | ScriptKind::Numbers => {
            format!(in alloc; "'{verb}' is a word of scripts of one host, which 'ncp host' plays")
        }
    }
}

// A word that is no verb.
fn no_verb(alloc: Global, verb: &str) -> Result<String, AllocError>
    ensures { IfOk result (λ text. PrintsNoVerb verb.now (string_bytes text)) }
{
    let known = verbs(alloc)?;
    match nearest(verb, known.as_slice()) {
        Some(near) => format!(in alloc; "'{verb}' is no verb; did you mean '{near}'?"),
        None => format!(in alloc; "'{verb}' is no verb"),
    }
}

// The arguments of a form.
fn arguments_of(alloc: Global, form: Form) -> Result<Vec<Argument>, AllocError>
    ensures { IfOk result (λ arguments. map asked_argument arguments.items ≡ (verb_with form).1) }
{
    let mut arguments = Vec::new(alloc);
    if let Some(argument) = form.leading {
        arguments.push(argument)?;
    }
    arguments.extend_from_slice(form.usage.1)?;
    Ok(arguments)
}

// What is wrong with a verb of this form.
fn wrong_asked(alloc: Global, words: &[&str], form: Form) -> Result<String, AllocError>
    ensures { IfOk result (λ text.
        string_bytes text ≡ asked_printed (map (λ word. word.now) words.now) (verb_with form)) }
{
    let verb = form.usage.0;
    let arguments = arguments_of(alloc, form)?;
    match wrong_arguments(alloc, arguments.as_slice(), words)? {
        Some(wrong) => {
            let usage = written(alloc, verb, arguments.as_slice())?;
            and_form(alloc, wrong, usage.as_str())
        }
        None if verb == "feed" => {
            format!(in alloc; "'feed' needs a line feed after it, and then a message file")
        }
        None => format!(in alloc; "a host that it names is none of the first line's"),
    }
}

// What is wrong with a word that has to be a verb, and its arguments.
fn wrong_verb(
    alloc: Global,
    scene: ScriptKind,
    verb: &str,
    arguments: &[&str],
) -> Result<String, AllocError>
    ensures { IfOk result (λ text. PrintsByVerb verb.now
        (string_bytes text ≡ verb_printed scene verb.now (map (λ word. word.now) arguments.now))
        (PrintsNoVerb verb.now (string_bytes text))) }
{
    if !is_verb(alloc, verb)? {
        return no_verb(alloc, verb);
    }
    match form_of(scene, verb) {
        Some(form) => wrong_asked(alloc, arguments, form),
        None => other_verb(alloc, scene, verb),
    }
}

// What is wrong with the words after the side or the host.
fn wrong_deed(alloc: Global, scene: ScriptKind, words: &[&str]) -> Result<String, AllocError>
    ensures { IfOk result (λ text. PrintsDeed scene (map (λ word. word.now) words.now) (string_bytes text)) }
{
    match word_at(words, 0) {
        Some(verb) => wrong_verb(alloc, scene, verb, words_after(words, 1)),
        None => format!(in alloc; "there is no verb after the side or the host"),
    }
}

// What is wrong with a line of several hosts that has `settle` and another word.
fn wrong_at_settle(alloc: Global) -> Result<String, AllocError>
    ensures { IfOk result (λ text. string_bytes text ≡ settle_printed) }
{
    format!(in alloc; "'settle' has a line of its own")
}

// A word that is no side.
fn no_side(alloc: Global, word: &str) -> Result<String, AllocError>
    ensures { IfOk result (λ text. PrintsNoSide word.now (string_bytes text)) }
{
    if is_verb(alloc, word)? {
        format!(in alloc; "the side is missing: a line begins with a or b, as in 'a {word}'")
    } else {
        format!(in alloc; "'{word}' is no side: a line begins with a or b")
    }
}

// What is wrong with a line that begins with this word, if sides name the two hosts.
fn wrong_side(alloc: Global, side: &str, deed: &[&str]) -> Result<String, AllocError>
    ensures { IfOk result (λ text. PrintsSide side.now (map (λ word. word.now) deed.now) (string_bytes text)) }
{
    if side == "a" || side == "b" {
        return wrong_deed(alloc, ScriptKind::Sides, deed);
    }
    no_side(alloc, side)
}

// Whether a word is the number of one of these hosts.
fn names_host(hosts: &[&str], word: &str) -> bool
    ensures { result ≡ (is_some (number_in 255 word.now) && is_named word.now (map (λ word. word.now) hosts.now)) }
{
    number_in(word, BYTE).is_some() && is_named(word, hosts)
}

// The same if numbers name these hosts.
fn wrong_host(
    alloc: Global,
    hosts: &[&str],
    host: &str,
    deed: &[&str],
) -> Result<String, AllocError>
    ensures { IfOk result (λ text.
        PrintsHost (map (λ word. word.now) hosts.now) host.now (map (λ word. word.now) deed.now) (string_bytes text)) }
{
    if names_host(hosts, host) {
        return wrong_deed(alloc, ScriptKind::Numbers, deed);
    }
    let known = hosts.join(alloc, " ")?;
    format!(in alloc; "'{host}' is none of the hosts {known}: a line begins with the number of one")
}

// What is wrong with the words of a line of several hosts, with their numbers if those name them.
fn wrong_of_world(
    alloc: Global,
    hosts: Option<&[&str]>,
    words: &[&str],
) -> Result<String, AllocError>
    ensures { IfOk result (λ text. PrintsOfWorld (option_map (λ named. map (λ word. word.now) named.now) hosts.entry)
        (map (λ word. word.now) words.now) (string_bytes text)) }
{
    match word_at(words, 0) {
        Some(word) if word == SETTLE => wrong_at_settle(alloc),
        Some(word) => match hosts {
            Some(hosts) => wrong_host(alloc, hosts, word, words_after(words, 1)),
            None => wrong_side(alloc, word, words_after(words, 1)),
        },
        None => format!(in alloc; "the line is empty"),
    }
}

// The words after the first word of a first line, before the word `watch`: after `many`, its hosts.
fn hosts_named<'a, 'b>(words: &'b [&'a str]) -> &'b [&'a str]
    ensures { map (λ word. word.now) result.now ≡ words_to_watch (drop 1 (map (λ word. word.now) words.now)) }
{
    words_to_watch(words_after(words, 1))
}

// What is wrong with the words of a line of several hosts, after this first line.
fn wrong_in_world(alloc: Global, first: &[u8], words: &[&str]) -> Result<String, AllocError>
    ensures { IsUtf8 first.now
        → IfOk result (λ text. PrintsOfWorld (numbers_named first.now) (map (λ word. word.now) words.now) (string_bytes text)) }
{
    let Ok(first) = str::from_utf8(first) else {
        return format!(in alloc; "it is no text");
    };
    if !first.starts_with("many ") {
        return wrong_of_world(alloc, None, words);
    }
    let named = words_of(alloc, first)?;
    wrong_of_world(alloc, Some(hosts_named(named.as_slice())), words)
}

// What is wrong with the words of a line.
fn wrong_words(
    alloc: Global,
    player: Player,
    first: &[u8],
    line: &str,
) -> Result<String, AllocError>
    ensures one { player ≡ Player.Host
        → IfOk result (λ text. PrintsDeed ScriptKind.Host (words_of line.now) (string_bytes text)) }
    ensures world { player ≡ Player.World → IsUtf8 first.now
        → IfOk result (λ text. PrintsOfWorld (numbers_named first.now) (words_of line.now) (string_bytes text)) }
{
    let words = words_of(alloc, line)?;
    match player {
        Player::Host => wrong_deed(alloc, ScriptKind::Host, words.as_slice()),
        Player::World => wrong_in_world(alloc, first, words.as_slice()),
    }
}

/// What is wrong with a line that is `BadLine`, of a script whose first line is `first`.
#[tactic(auto, using(crate::proofs::Spelled::spelled_is_text))]
pub fn wrong_line(
    alloc: Global,
    player: Player,
    first: &[u8],
    text: &[u8],
) -> Result<String, AllocError>
    ensures byte { IfSome (strange_byte text.now) (λ at.
        IfOk result (λ printed. string_bytes printed ≡ byte_printed at.0 at.1)) }
    ensures spaces { strange_byte text.now ≡ None → ¬ (IsWellSpaced text.now) →
        IfOk result (λ printed. PrintsSpaces text.now (string_bytes printed)) }
    ensures one { player ≡ Player.Host → IsWellSpelled text.now
        → IfOk result (λ printed. PrintsDeed ScriptKind.Host (words_of text.now) (string_bytes printed)) }
    ensures world { player ≡ Player.World → IsUtf8 first.now → IsWellSpelled text.now →
        IfOk result (λ printed. PrintsOfWorld (numbers_named first.now) (words_of text.now) (string_bytes printed)) }
    ensures verb { player ≡ Player.Host → IsWellSpelled text.now → ¬ (Contains all_verb_words (first_word text.now)) →
        IfOk result (λ printed. PrintsNoVerb (first_word text.now) (string_bytes printed)) }
{
    if let Some(wrong) = misspelled(alloc, text)? {
        return Ok(wrong);
    }
    match str::from_utf8(text) {
        Ok(line) => wrong_words(alloc, player, first, line),
        Err(_) => format!(in alloc; "it is no text"),
    }
}

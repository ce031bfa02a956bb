//! Reads the call that the words of a line spell.
ghost use Rattle.std.specs.Prelude.{◌≡◌, ◌≢◌, ◌∷◌, Some, IfOk, OnErr, option_map};
ghost use Rattle.ncp_play_script.specs.declared.verbs.Verb.TheVariants.{AskSend, AskReceive, Give, Take, Allocate, CallBack};
ghost use Rattle.ncp_play_script.specs.Verbs.{verb_of};
ghost use Rattle.ncp_play_script.specs.Calls.{pair_call, peer_call, verb_call, call_of, all_of, NamesGive};

use crate::line_words::Words;
use crate::verbs::{Verb, verb_named};
use ncp_model::Pair;
use ncp_transcript::Call;
use std::alloc::{AllocError, Global};

// Reads the arguments of `ask-send`.
fn ask_send(peer: u8, pair: Pair, words: &mut Words<'_>) -> Option<Call>
    ensures { option_map (λ call. (call, words.new)) result ≡ pair_call AskSend peer pair words.old }
{
    let size = words.next_u8()?;
    let room = words.next_u32()?;
    Some(Call::AskSend {
        peer,
        local: pair.local,
        remote: pair.remote,
        size,
        room,
    })
}

// Reads the argument of `ask-receive`.
fn ask_receive(peer: u8, pair: Pair, words: &mut Words<'_>) -> Option<Call>
    ensures { option_map (λ call. (call, words.new)) result ≡ pair_call AskReceive peer pair words.old }
{
    let room = words.next_u32()?;
    Some(Call::AskReceive {
        peer,
        local: pair.local,
        remote: pair.remote,
        room,
    })
}

// Reads the argument of `take`.
fn take(peer: u8, pair: Pair, words: &mut Words<'_>) -> Option<Call>
    ensures { option_map (λ call. (call, words.new)) result ≡ pair_call Take peer pair words.old }
{
    let bytes = words.next_u32()?;
    Some(Call::Take { peer, pair, bytes })
}

// Reads the arguments of `allocate`.
fn allocate(peer: u8, pair: Pair, words: &mut Words<'_>) -> Option<Call>
    ensures { option_map (λ call. (call, words.new)) result ≡ pair_call Allocate peer pair words.old }
{
    let messages = words.next_u16()?;
    let bits = words.next_u32()?;
    Some(Call::Allocate {
        peer,
        pair,
        messages,
        bits,
    })
}

// Reads the arguments of `call-back`.
fn call_back(peer: u8, pair: Pair, words: &mut Words<'_>) -> Option<Call>
    ensures { option_map (λ call. (call, words.new)) result ≡ pair_call CallBack peer pair words.old }
{
    let fm = words.next_u8()?;
    let fb = words.next_u8()?;
    Some(Call::CallBack { peer, pair, fm, fb })
}

// A call on a pair, without text: reads its arguments after the pair.
fn call_at_pair(verb: Verb, peer: u8, pair: Pair, words: &mut Words<'_>) -> Option<Call>
    requires { verb ≢ Give }
    ensures { option_map (λ call. (call, words.new)) result ≡ pair_call verb peer pair words.old }
{
    match verb {
        Verb::AskSend => ask_send(peer, pair, words),
        Verb::AskReceive => ask_receive(peer, pair, words),
        Verb::Take => take(peer, pair, words),
        Verb::Allocate => allocate(peer, pair, words),
        Verb::CallBack => call_back(peer, pair, words),
        Verb::Interrupt => Some(Call::Interrupt { peer, pair }),
        Verb::Close => Some(Call::Close { peer, pair }),
        Verb::State => Some(Call::State { peer, pair }),
        _ => None,
    }
}

// A call without text: reads its arguments after the peer.
fn call_to_peer(verb: Verb, peer: u8, words: &mut Words<'_>) -> Option<Call>
    requires { verb ≢ Give }
    ensures { option_map (λ call. (call, words.new)) result ≡ peer_call verb peer words.old }
{
    match verb {
        Verb::Reset => Some(Call::Reset { peer }),
        Verb::Echo => {
            let byte = words.next_u8()?;
            Some(Call::Echo { peer, byte })
        }
        Verb::Wake => Some(Call::Wake { peer }),
        Verb::Phase => Some(Call::Phase { peer }),
        Verb::Echoed => Some(Call::Echoed { peer }),
        Verb::Errors => Some(Call::Errors { peer }),
        Verb::Counts => Some(Call::Counts { peer }),
        verb => {
            let pair = words.next_pair()?;
            call_at_pair(verb, peer, pair, words)
        }
    }
}

// A call without text: reads its peer, if none is given, and its arguments.
fn call_without_text(verb: Verb, words: &mut Words<'_>, given: Option<u8>) -> Option<Call>
    requires { verb ≢ Give }
    ensures { option_map (λ call. (call, words.new)) result ≡ verb_call given verb words.old }
{
    if verb == Verb::Ignored {
        return Some(Call::Ignored);
    }
    let peer = words.next_peer(given)?;
    call_to_peer(verb, peer, words)
}

// A `give`, for whose text memory is allocated.
fn give(alloc: Global, words: &mut Words<'_>, given: Option<u8>) -> Result<Option<Call>, AllocError>
    ensures { IfOk result (λ call. option_map (λ call. (call, words.new)) call ≡ verb_call given Give words.old) }
{
    let Some(peer) = words.next_peer(given) else {
        return Ok(None);
    };
    let Some(pair) = words.next_pair() else {
        return Ok(None);
    };
    let Some(text) = words.next_message(alloc)? else {
        return Ok(None);
    };
    Ok(Some(Call::Give { peer, pair, text }))
}

// The call, if no word is left after it.
fn last(call: Option<Call>, words: &Words<'_>) -> Option<Call>
    ensures { result ≡ all_of (option_map (λ call. (call, words.now)) call) }
{
    if words.is_empty() { call } else { None }
}

/// The call that `word` names, with all remaining words as its peer (if none is given) and its
/// arguments. Allocates only for the text of a `give`. On `None` the remaining words are
/// unspecified.
pub fn call_named(
    alloc: Global,
    word: &[u8],
    words: &mut Words<'_>,
    given: Option<u8>,
) -> Result<Option<Call>, AllocError>
    ensures call { IfOk result (λ call. call ≡ call_of given (word.now ∷ words.old)) }
    ensures memory { OnErr result (verb_of word.now ≡ Some Give) }
{
    let Some(verb) = verb_named(word) else {
        return Ok(None);
    };
    let call = if verb == Verb::Give {
        give(alloc, words, given)?
    } else {
        call_without_text(verb, words, given)
    };
    Ok(last(call, words))
}

/// The call in all remaining words of a line: the word that names it, its peer if none is given,
/// and its arguments. Allocates only for the text of a `give`. On `None` the remaining words are
/// unspecified.
pub fn call(
    alloc: Global,
    words: &mut Words<'_>,
    given: Option<u8>,
) -> Result<Option<Call>, AllocError>
    ensures call { IfOk result (λ call. call ≡ call_of given words.old) }
    ensures memory { OnErr result (NamesGive words.old) }
{
    let Some(word) = words.next_word() else {
        return Ok(None);
    };
    call_named(alloc, word, words, given)
}

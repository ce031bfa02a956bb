//! `HostLine`.
ghost use Rattle.std.specs.Prelude.{◌≡◌, ◌∷◌, IfOk, OnErr};
ghost use Rattle.ncp_play_script.specs.Calls.{NamesGive};
ghost use Rattle.ncp_play_script.specs.HostLines.{alone, bits_line, restart_line, call_of_words, host_line_of};

use crate::calls::call_named;
use crate::line_words::Words;
use ncp_transcript::Input;
use std::alloc::{AllocError, Global};

// The words of a line that name no call.
const IN: &[u8] = b"in";

const OUT: &[u8] = b"out";

const FEED: &[u8] = b"feed";

const RESTART: &[u8] = b"restart";

/// An event of a script of one host.
#[derive(Debug, Drop)]
pub enum HostEvent {
    /// This input to the host.
    Input(Input),
    /// A restart of its IMP, as the host sees it for this peer, or for each.
    Restart(Option<u8>),
}

/// The directive of a line of a script of one host, after the first line.
#[derive(Debug, Drop)]
pub enum HostLine {
    /// This event.
    Event(HostEvent),
    /// A feed of all bytes after the line, which are a message file.
    Feed,
}

// A directive, if no word is left.
fn last_line(line: HostLine, words: &Words<'_>) -> Option<HostLine>
    ensures { result ≡ alone line words.now }
{
    if words.is_empty() { Some(line) } else { None }
}

// Bits for the host, after the word `in`.
fn bits_line(words: &mut Words<'_>) -> Option<HostLine>
    ensures { result ≡ bits_line words.old }
{
    let bits = words.next_bits()?;
    last_line(HostLine::Event(HostEvent::Input(Input::In(bits))), words)
}

// A restart, after the word `restart`: for one of the peers, or without a word for each.
fn restart_line(peers: &[u8], words: &mut Words<'_>) -> Option<HostLine>
    ensures { result ≡ restart_line peers.now words.old }
{
    if words.is_empty() {
        return Some(HostLine::Event(HostEvent::Restart(None)));
    }
    let peer = words.next_u8()?;
    if !peers.contains(&peer) {
        return None;
    }
    last_line(HostLine::Event(HostEvent::Restart(Some(peer))), words)
}

// A call, after the word that names it.
fn call_line(
    alloc: Global,
    word: &[u8],
    words: &mut Words<'_>,
) -> Result<Option<HostLine>, AllocError>
    ensures line { IfOk result (λ line. line ≡ call_of_words (word.now ∷ words.old)) }
    ensures memory { OnErr result (NamesGive (word.now ∷ words.old)) }
{
    let Some(call) = call_named(alloc, word, words, None)? else {
        return Ok(None);
    };
    Ok(Some(HostLine::Event(HostEvent::Input(Input::Call(call)))))
}

/// The directive in all remaining words of a line, for a host with these peers. Allocates only for
/// the text of a `give`. On `None` the remaining words are unspecified.
pub fn host_line(
    alloc: Global,
    words: &mut Words<'_>,
    peers: &[u8],
) -> Result<Option<HostLine>, AllocError>
    ensures line { IfOk result (λ line. line ≡ host_line_of peers.now words.old) }
    ensures memory { OnErr result (NamesGive words.old) }
{
    let Some(word) = words.next_word() else {
        return Ok(None);
    };
    if word == IN {
        return Ok(bits_line(words));
    }
    if word == OUT {
        return Ok(last_line(HostLine::Event(HostEvent::Input(Input::Out)), words));
    }
    if word == FEED {
        return Ok(last_line(HostLine::Feed, words));
    }
    if word == RESTART {
        return Ok(restart_line(peers, words));
    }
    call_line(alloc, word, words)
}

//! The lines of a script of two to eight hosts, as events.
ghost use Rattle.std.specs.Prelude.{◌≡◌, ◌∷◌, option_map, IfOk, OnErr};
ghost use Rattle.ncp_play_script.specs.Calls.{NamesGive, NamesGiveAfter};
ghost use Rattle.ncp_play_script.specs.HostLines.{alone};
ghost use Rattle.ncp_transcript_many.specs.ManyHappening.{wanted_of};
ghost use Rattle.ncp_play_world_lines.specs.ManyLines.{host_first, many_move_of, is_known, many_call_line, many_asked_of, many_line_of};

use crate::moves::move_named;
use ncp_play_script::{Words, call_named};
use ncp_transcript_many::ManyEvent;
use ncp_transcript_two::Move;
use std::alloc::{AllocError, Global};

// The word that asks for the next message.
const OUT: &[u8] = b"out";

/// The host in the first word.
pub(crate) fn host_first(hosts: &[u8], words: &mut Words<'_>) -> Option<u8>
    ensures { option_map (λ host. (host, words.new)) result ≡ host_first hosts.now words.old }
{
    let number = words.next_u8()?;
    if hosts.contains(&number) {
        Some(number)
    } else {
        None
    }
}

// A move of a message as an event.
fn wanted_of(wanted: Move, from: u8, to: u8, link: u8) -> ManyEvent
    ensures { result ≡ wanted_of wanted from to link }
{
    match wanted {
        Move::Deliver => ManyEvent::Deliver { from, to, link },
        Move::Lose => ManyEvent::Lose { from, to, link },
        Move::Dead => ManyEvent::Dead { from, to, link },
        Move::Answer => ManyEvent::Answer { from, to, link },
    }
}

// A move, after the word that names it.
fn move_line(hosts: &[u8], from: u8, wanted: Move, words: &mut Words<'_>) -> Option<ManyEvent>
    ensures { result ≡ many_move_of hosts.now from wanted words.old }
{
    let to = host_first(hosts, words)?;
    let link = words.next_u8()?;
    if words.is_empty() {
        Some(wanted_of(wanted, from, to, link))
    } else {
        None
    }
}

// Whether a call names no peer, or one of the hosts.
fn is_known(hosts: &[u8], peer: Option<u8>) -> bool
    ensures { result ≡ is_known hosts.now peer }
{
    match peer {
        Some(peer) => hosts.contains(&peer),
        None => true,
    }
}

// A call of a host, after the word that names it.
fn call_line(
    alloc: Global,
    hosts: &[u8],
    host: u8,
    word: &[u8],
    words: &mut Words<'_>,
) -> Result<Option<ManyEvent>, AllocError>
    ensures event { IfOk result (λ event. event ≡ many_call_line hosts.now host (word.now ∷ words.old)) }
    ensures memory { OnErr result (NamesGive (word.now ∷ words.old)) }
{
    let Some(call) = call_named(alloc, word, words, None)? else {
        return Ok(None);
    };
    if is_known(hosts, call.peer()) {
        Ok(Some(ManyEvent::Call { host, call }))
    } else {
        Ok(None)
    }
}

// A request for a host's next message, if no word is left.
fn out_line(host: u8, words: &Words<'_>) -> Option<ManyEvent>
    ensures { result ≡ alone (ManyEvent.Out host) words.now }
{
    if words.is_empty() {
        Some(ManyEvent::Out { host })
    } else {
        None
    }
}

// The event of a line, after its host.
fn asked_of(
    alloc: Global,
    hosts: &[u8],
    host: u8,
    words: &mut Words<'_>,
) -> Result<Option<ManyEvent>, AllocError>
    ensures event { IfOk result (λ event. event ≡ many_asked_of hosts.now host words.old) }
    ensures memory { OnErr result (NamesGive words.old) }
{
    let Some(word) = words.next_word() else {
        return Ok(None);
    };
    if word == OUT {
        return Ok(out_line(host, words));
    }
    if let Some(wanted) = move_named(word) {
        return Ok(move_line(hosts, host, wanted, words));
    }
    call_line(alloc, hosts, host, word, words)
}

/// The event in all remaining words of a line, given these hosts. Allocates only for the text of a
/// `give`. On `None` the remaining words are unspecified.
pub fn many_line(
    alloc: Global,
    hosts: &[u8],
    words: &mut Words<'_>,
) -> Result<Option<ManyEvent>, AllocError>
    ensures event { IfOk result (λ event. event ≡ many_line_of hosts.now words.old) }
    ensures memory { OnErr result (NamesGiveAfter words.old) }
{
    let Some(host) = host_first(hosts, words) else {
        return Ok(None);
    };
    asked_of(alloc, hosts, host, words)
}

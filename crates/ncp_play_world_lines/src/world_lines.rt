//! The lines of a script of two hosts, as events.
ghost use Rattle.std.specs.Prelude.{◌≡◌, ◌∷◌, IfOk, OnErr};
ghost use Rattle.ncp_play_script.specs.Calls.{NamesGive, NamesGiveAfter};
ghost use Rattle.ncp_play_script.specs.HostLines.{alone};
ghost use Rattle.ncp_play_world_lines.specs.WorldLines.{peer_of_side, event_of_move, move_of_words, call_event_of, event_asked_of, world_line_of};

use crate::moves::{move_named, side_named};
use ncp_play_script::{TwoHosts, Words, call_named};
use ncp_transcript_two::{Event, Move, Side};
use std::alloc::{AllocError, Global};

// The word that asks for the next message.
const OUT: &[u8] = b"out";

// The peer of the calls of a side.
fn peer_of(hosts: TwoHosts, side: Side) -> u8
    ensures { result ≡ peer_of_side hosts side }
{
    match side {
        Side::A => hosts.b,
        Side::B => hosts.a,
    }
}

// A move of a message as an event.
fn event_of(side: Side, wanted: Move, link: u8) -> Event
    ensures { result ≡ event_of_move side wanted link }
{
    match wanted {
        Move::Deliver => Event::Deliver { side, link },
        Move::Lose => Event::Lose { side, link },
        Move::Dead => Event::Dead { side, link },
        Move::Answer => Event::Answer { side, link },
    }
}

// A move, after the word that names it.
fn move_line(side: Side, wanted: Move, words: &mut Words<'_>) -> Option<Event>
    ensures { result ≡ move_of_words side wanted words.old }
{
    let link = words.next_u8()?;
    if words.is_empty() {
        Some(event_of(side, wanted, link))
    } else {
        None
    }
}

// A request for a host's next message, if no word is left.
fn out_line(side: Side, words: &Words<'_>) -> Option<Event>
    ensures { result ≡ alone (Event.Out side) words.now }
{
    if words.is_empty() {
        Some(Event::Out { side })
    } else {
        None
    }
}

// A call of a side, after the word that names it.
fn call_line(
    alloc: Global,
    hosts: TwoHosts,
    side: Side,
    word: &[u8],
    words: &mut Words<'_>,
) -> Result<Option<Event>, AllocError>
    ensures event { IfOk result (λ event. event ≡ call_event_of hosts side (word.now ∷ words.old)) }
    ensures memory { OnErr result (NamesGive (word.now ∷ words.old)) }
{
    let Some(call) = call_named(alloc, word, words, Some(peer_of(hosts, side)))? else {
        return Ok(None);
    };
    Ok(Some(Event::Call { side, call }))
}

// The event of a line, after its side.
fn asked_of(
    alloc: Global,
    hosts: TwoHosts,
    side: Side,
    words: &mut Words<'_>,
) -> Result<Option<Event>, AllocError>
    ensures event { IfOk result (λ event. event ≡ event_asked_of hosts side words.old) }
    ensures memory { OnErr result (NamesGive words.old) }
{
    let Some(word) = words.next_word() else {
        return Ok(None);
    };
    if word == OUT {
        return Ok(out_line(side, words));
    }
    if let Some(wanted) = move_named(word) {
        return Ok(move_line(side, wanted, words));
    }
    call_line(alloc, hosts, side, word, words)
}

/// The event in all remaining words of a line, given these hosts. Allocates only for the text of a
/// `give`. On `None` the remaining words are unspecified.
pub fn world_line(
    alloc: Global,
    hosts: TwoHosts,
    words: &mut Words<'_>,
) -> Result<Option<Event>, AllocError>
    ensures event { IfOk result (λ event. event ≡ world_line_of hosts words.old) }
    ensures memory { OnErr result (NamesGiveAfter words.old) }
{
    let Some(word) = words.next_word() else {
        return Ok(None);
    };
    let Some(side) = side_named(word) else {
        return Ok(None);
    };
    asked_of(alloc, hosts, side, words)
}

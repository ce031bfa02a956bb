//! Plays a restart of the IMP, as the host sees it.
ghost use Rattle.std.specs.Prelude.{◌≡◌, [], ℕ, List, ◌||◌, IfOk};
ghost use Rattle.ncp_play_buffer.specs.BufferedSinks.{SameOutlet, written_by, write_failed};
ghost use Rattle.ncp_host.specs.Host.{state_of};
ghost use Rattle.ncp_host.specs.Restarting.{incomplete_bits, is_message_out};
ghost use Rattle.ncp_play_notes.specs.Faults.{play_write_failed};
ghost use Rattle.ncp_play_notes.specs.Playing.{Tells, PrintsAs};
ghost use Rattle.ncp_play_notes.specs.declared.heading.LinePrefix.{LinePrefix as Beginning};
ghost use Rattle.ncp_play_host.specs.Events.{incomplete_if, inputs_of_restart, inputs_of_restarts, DoesAllOf};

use ncp_bits::{BitStore, Bits};
use ncp_host::{Host, Received};
use ncp_leader::{INCOMPLETE, Leader, put_leader};
use ncp_play_buffer::BufferedSink;
use ncp_play_notes::{LinePrefix, PlayFault, play_input};
use ncp_play_stream::Sink;
use ncp_transcript::{Alone, Input};
use ncp_wire::{CONTROL_LINK, FIRST_LINK, LAST_LINK};
use std::alloc::{AllocError, Global};

// An Incomplete Transmission (BBN 1822, section 3) on a link to a peer.
fn incomplete(peer: u8, link: u8) -> Bits
    ensures { result ≡ incomplete_bits peer link }
{
    put_leader(&Leader {
        flags: 0,
        kind: INCOMPLETE,
        host: peer,
        link,
        low: 0,
    })
}

// Whether a message on a link to a peer is unanswered. A copy of the host is asked, since an answer
// to no message is counted.
fn is_message_out<S: BitStore>(
    alloc: Global,
    host: &Host<S>,
    peer: u8,
    link: u8,
) -> Result<bool, AllocError>
    ensures { IfOk result (λ is_out. is_out ≡ is_message_out link (state_of host.now peer)) }
{
    if host.kept(peer, link).is_none() {
        return Ok(false);
    }
    let mut copy = host.copy(alloc)?;
    match copy.receive(&incomplete(peer, link)) {
        Received::Answered => Ok(true),
        _ => Ok(false),
    }
}

// Plays an Incomplete Transmission on a link to a peer, if a message on it is unanswered.
fn play_incomplete<S: BitStore, W: Sink>(
    alloc: Global,
    alone: &mut Alone<S>,
    peer: u8,
    link: u8,
    heading: &mut LinePrefix,
    out: &mut BufferedSink<'_, W>,
) -> Result<(), PlayFault>
    ensures events { DoesAllOf (incomplete_if (is_message_out link (state_of alone.old.host peer)) peer link []) alone.old result alone.new }
    ensures output { (was : List ℕ) (first : Beginning)
        → Tells was first alone.old.notes heading.old out.old.page.now (written_by W.Sink out.old)
        → PrintsAs was first alone.new.notes result heading.new out.new.page.now (written_by W.Sink out.new) }
    ensures mark { write_failed W.Sink out.new ≡ (write_failed W.Sink out.old || play_write_failed result) }
    ensures same_outlet { SameOutlet out.old out.new }
{
    match is_message_out(alloc, alone.host(), peer, link) {
        Ok(true) => play_input(alone, &Input::In(incomplete(peer, link)), heading, out),
        Ok(false) => Ok(()),
        Err(_) => Err(PlayFault::OutOfMemory),
    }
}

/// Plays a restart for one peer: an Incomplete Transmission on each link with an unanswered
/// message, from the lowest link up.
///
/// On `OutOfMemory` a prefix of them was played. On `WriteFailed` too, and a prefix of all lines is
/// written.
pub(crate) fn play_restart<S: BitStore, W: Sink>(
    alloc: Global,
    alone: &mut Alone<S>,
    peer: u8,
    heading: &mut LinePrefix,
    out: &mut BufferedSink<'_, W>,
) -> Result<(), PlayFault>
    ensures events { DoesAllOf (inputs_of_restart peer alone.old.host) alone.old result alone.new }
    ensures output { (was : List ℕ) (first : Beginning)
        → Tells was first alone.old.notes heading.old out.old.page.now (written_by W.Sink out.old)
        → PrintsAs was first alone.new.notes result heading.new out.new.page.now (written_by W.Sink out.new) }
    ensures mark { write_failed W.Sink out.new ≡ (write_failed W.Sink out.old || play_write_failed result) }
    ensures same_outlet { SameOutlet out.old out.new }
{
    play_incomplete(alloc, alone, peer, CONTROL_LINK, heading, out)?;
    for link in FIRST_LINK..LAST_LINK + 1 {
        play_incomplete(alloc, alone, peer, link, heading, out)?;
    }
    Ok(())
}

/// Plays a restart for each of these peers, in order. Faults as in [`play_restart`].
pub(crate) fn play_restarts<S: BitStore, W: Sink>(
    alloc: Global,
    alone: &mut Alone<S>,
    peers: &[u8],
    heading: &mut LinePrefix,
    out: &mut BufferedSink<'_, W>,
) -> Result<(), PlayFault>
    ensures events { DoesAllOf (inputs_of_restarts peers.now alone.old.host) alone.old result alone.new }
    ensures output { (was : List ℕ) (first : Beginning)
        → Tells was first alone.old.notes heading.old out.old.page.now (written_by W.Sink out.old)
        → PrintsAs was first alone.new.notes result heading.new out.new.page.now (written_by W.Sink out.new) }
    ensures mark { write_failed W.Sink out.new ≡ (write_failed W.Sink out.old || play_write_failed result) }
    ensures same_outlet { SameOutlet out.old out.new }
{
    for peer in peers {
        play_restart(alloc, alone, *peer, heading, out)?;
    }
    Ok(())
}

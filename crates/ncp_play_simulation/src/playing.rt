//! Plays one event: performs it on the hosts and renders each note that it leaves.
ghost use Rattle.std.specs.Prelude.{◌≡◌, ◌+◌, ◌≤◌, ◌<◌, ◌^◌, ◌||◌, ℕ, List, true, length, IfOk};
ghost use Rattle.ncp_play_buffer.specs.BufferedSinks.{SameOutlet, written_by, write_failed, write_budget};
ghost use Rattle.ncp_play_stream.specs.Pieces.{lost_pieces};
ghost use Rattle.ncp_play_notes.specs.Faults.{play_write_failed};
ghost use Rattle.ncp_play_simulation.specs.Playing.{DoesPart, DoesEvent, Tells, PrintsAs};

use crate::renderer::Renderer;
use crate::simulation::Simulation;
use ncp_play_buffer::BufferedSink;
use ncp_play_notes::PlayFault;
use ncp_play_reader::{Lines, flush_before_line};
use ncp_play_stream::Sink;
use std::alloc::Global;

/// The hosts of a running script, the number of the next note to render, and the allocator.
#[derive(Drop)]
pub(crate) struct Player<C: Simulation> {
    pub alloc: Global,
    pub hosts: C::Hosts,
    pub number: u32,
}

// Performs the next part of an event, which has left `left` notes so far, and renders the note that
// this part leaves. Returns whether the event has further parts.
fn play_part<C: Simulation, T: Renderer<C>, W: Sink>(
    first: &C::First,
    player: &mut Player<C>,
    event: &C::Event,
    left: usize,
    out: &mut BufferedSink<'_, W>,
) -> Result<bool, PlayFault>
    ensures part { DoesPart C.rules event.now left player.old.hosts result player.new.hosts }
    ensures output { (began : C.Hosts) (was : List ℕ)
        → Tells C.rules (T.rendering first.now) began was player.old.hosts player.old.number out.old.page.now (written_by W.Sink out.old)
        → PrintsAs C.rules (T.rendering first.now) began was player.new.hosts result player.new.number out.new.page.now (written_by W.Sink out.new) }
    ensures room { IfOk result (λ more. more ≡ true → length (C.rules.notes player.new.hosts) < 2 ^ 64) }
    ensures writes { write_budget W.Sink out.old ≤ write_budget W.Sink out.new + lost_pieces (play_write_failed result) }
    ensures mark { write_failed W.Sink out.new ≡ (write_failed W.Sink out.old || play_write_failed result) }
    ensures same_outlet { SameOutlet out.old out.new }
{
    let Ok(more) = C::step(&mut player.hosts, event, left) else {
        return Err(PlayFault::OutOfMemory);
    };
    match T::say(first, &player.hosts, player.number, out) {
        Ok(()) => {
            player.number = player.number.saturating_add(1);
            Ok(more)
        }
        Err(_) => Err(PlayFault::WriteFailed),
    }
}

// Performs an event of a script with this first line, and renders each note that it leaves.
//
// On `OutOfMemory` the event was performed up to the note that could not be allocated; for an event
// of one note, nothing has happened. On `WriteFailed` it was performed at least up to its first
// note, and a prefix of the whole rendering is written.
fn play_event<C: Simulation, T: Renderer<C>, W: Sink>(
    first: &C::First,
    player: &mut Player<C>,
    event: &C::Event,
    out: &mut BufferedSink<'_, W>,
) -> Result<(), PlayFault>
    ensures event { DoesEvent C.rules event.now player.old.hosts result player.new.hosts }
    ensures output { (began : C.Hosts) (was : List ℕ)
        → Tells C.rules (T.rendering first.now) began was player.old.hosts player.old.number out.old.page.now (written_by W.Sink out.old)
        → PrintsAs C.rules (T.rendering first.now) began was player.new.hosts result player.new.number out.new.page.now (written_by W.Sink out.new) }
    ensures writes { write_budget W.Sink out.old ≤ write_budget W.Sink out.new + lost_pieces (play_write_failed result) }
    ensures mark { write_failed W.Sink out.new ≡ (write_failed W.Sink out.old || play_write_failed result) }
    ensures same_outlet { SameOutlet out.old out.new }
{
    let mut left = 0;
    while play_part::<C, T, W>(first, player, event, left, out)? {
        left += 1;
    }
    Ok(())
}

/// Plays an event as [`play_event`] does. Writes everything rendered if the next line is not in the
/// in buffer yet.
pub(crate) fn play_on<C: Simulation, T: Renderer<C>, W: Sink>(
    first: &C::First,
    player: &mut Player<C>,
    event: &C::Event,
    lines: &Lines,
    out: &mut BufferedSink<'_, W>,
) -> Result<(), PlayFault>
    ensures event { DoesEvent C.rules event.now player.old.hosts result player.new.hosts }
    ensures output { (began : C.Hosts) (was : List ℕ)
        → Tells C.rules (T.rendering first.now) began was player.old.hosts player.old.number out.old.page.now (written_by W.Sink out.old)
        → PrintsAs C.rules (T.rendering first.now) began was player.new.hosts result player.new.number out.new.page.now (written_by W.Sink out.new) }
    ensures mark { write_failed W.Sink out.new ≡ (write_failed W.Sink out.old || play_write_failed result) }
    ensures same_outlet { SameOutlet out.old out.new }
{
    match play_event::<C, T, W>(first, player, event, out) {
        Ok(()) => match flush_before_line(lines, out) {
            Ok(()) => Ok(()),
            Err(_) => Err(PlayFault::WriteFailed),
        },
        Err(fault) => Err(fault),
    }
}

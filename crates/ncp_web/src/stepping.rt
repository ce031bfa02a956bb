//! A line of a script, played note by note.
ghost use Rattle.std.specs.Prelude.{◌≡◌, if◌then◌else◌, [], Some};
ghost use Rattle.ncp_play_buffer.specs.BufferedSinks.{SameOutlet};
ghost use Rattle.ncp_web.specs.Sessions.{Notes, Reads, Steps, StepsStage, note_number};

use crate::stage::{HostsOf, Refusal, SessionHosts};
use ncp_bits::PackedStore;
use ncp_play_buffer::{BufferedSink, OutBuffer};
use ncp_play_script::Words;
use ncp_play_simulation::{Renderer, Simulation};
use ncp_play_stream::MemorySink;
use ncp_play_world::{ManyHostScript, NoteLines, TwoHostScript};
use std::alloc::Global;

// The number of the last of `notes` notes, or the largest number if they are more.
pub(crate) fn number_of(notes: usize) -> u32
    ensures { result ≡ note_number notes }
{
    u32::try_from(notes).unwrap_or(u32::MAX)
}

// The number of notes of an event so far, counting the next one; 0 if the event is finished.
fn left_then(more: bool, next: usize) -> usize
    ensures { result ≡ (if more then next else 0) }
{
    if more { next } else { 0 }
}

// Performs the next part of an event, which has `left` notes so far, and writes the lines of its
// note. Returns whether the event goes on. `NoMemory` if there would be more notes than can be
// counted.
fn noted<C: Simulation, T: Renderer<C>>(
    first: &C::First,
    hosts: &mut C::Hosts,
    event: &C::Event,
    left: &mut usize,
    out: &mut BufferedSink<'_, MemorySink>,
) -> Result<bool, Refusal>
    ensures notes { Notes C.rules (T.rendering first.now) event.now left.old hosts.old result left.new hosts.new out.old.page.now (Some out.old.sink.now.written) out.new.page.now (Some out.new.sink.now.written) }
    ensures same_outlet { SameOutlet out.old out.new }
{
    let Some(next) = left.checked_add(1) else {
        return Err(Refusal::NoMemory);
    };
    let Ok(more) = C::step(hosts, event, *left) else {
        return Err(Refusal::NoMemory);
    };
    *left = left_then(more, next);
    match T::say(first, hosts, number_of(C::told(hosts)), out) {
        Ok(()) => Ok(more),
        Err(_) => Err(Refusal::Full),
    }
}

// Reads the event in a line.
fn event_in<C: Simulation>(
    alloc: Global,
    first: &C::First,
    line: &[u8],
) -> Result<C::Event, Refusal>
    ensures { Reads C.rules first.now line.now result }
{
    match C::event_of(alloc, first, &mut Words::new(line)) {
        Ok(Some(event)) => Ok(event),
        Ok(None) => Err(Refusal::NoLine),
        Err(_) => Err(Refusal::NoMemory),
    }
}

// Performs the next part of the event in a line, and writes the lines of its note to an empty sink.
fn stepped<C: Simulation, T: Renderer<C>>(
    alloc: Global,
    stage: &mut HostsOf<C>,
    line: &[u8],
    sink: &mut MemorySink,
) -> Result<bool, Refusal>
    requires empty { sink.old.written ≡ [] }
    ensures steps { Steps C.rules (T.rendering stage.old.first) stage.old.first line.now stage.old.left stage.old.hosts result stage.new.left stage.new.hosts sink.new.written }
    ensures first { stage.new.first ≡ stage.old.first }
{
    let event = event_in::<C>(alloc, &stage.first, line)?;
    let mut page = OutBuffer::new();
    let mut out = BufferedSink {
        page: &mut page,
        sink,
    };
    let more = noted::<C, T>(
        &stage.first,
        &mut stage.hosts,
        &event,
        &mut stage.left,
        &mut out,
    )?;
    match out.flush() {
        Ok(()) => Ok(more),
        Err(_) => Err(Refusal::Full),
    }
}

impl SessionHosts {
    /// Plays a line after the first up to its next note, and writes the lines of that note to an
    /// empty sink. Returns whether the line goes on.
    pub(crate) fn step(
        &mut self,
        alloc: Global,
        line: &[u8],
        sink: &mut MemorySink,
    ) -> Result<bool, Refusal>
        requires empty { sink.old.written ≡ [] }
        ensures { StepsStage line.now self.old result self.new sink.new.written }
    {
        match self {
            SessionHosts::Two(two) => {
                stepped::<TwoHostScript<PackedStore>, NoteLines>(alloc, two, line, sink)
            }
            SessionHosts::Many(of_many) => {
                stepped::<ManyHostScript<PackedStore>, NoteLines>(alloc, of_many, line, sink)
            }
        }
    }
}

//! Plays the lines of a one-host script in order.
ghost use Rattle.std.specs.Prelude.{◌≡◌, ℕ, List, ◌||◌, None, IfOk};
ghost use Rattle.ncp_play_buffer.specs.BufferedSinks.{SameOutlet, written_by, write_failed};
ghost use Rattle.ncp_play_reader.specs.LentScripts.{SameScript, ScriptBrings, ReadsOn, script_left, is_cut_off};
ghost use Rattle.ncp_play_notes.specs.Faults.{play_read_failed, play_write_failed};
ghost use Rattle.ncp_play_notes.specs.Playing.{Tells, PrintsAs};
ghost use Rattle.ncp_play_notes.specs.declared.heading.LinePrefix.{LinePrefix as Beginning};
ghost use Rattle.ncp_play_host.specs.Events.{inputs_of, DoesAllOf};
ghost use Rattle.ncp_play_host.specs.Doing.{NextDoes, LinesDo};

use crate::asking::{NextAsked, next_asked};
use crate::events::play_event;
use ncp_bits::BitStore;
use ncp_play_buffer::BufferedSink;
use ncp_play_notes::{LinePrefix, PlayFault};
use ncp_play_reader::{Lines, Script, flush_before_line};
use ncp_play_script::HostEvent;
use ncp_play_stream::{Sink, Source};
use ncp_transcript::Alone;
use std::alloc::Global;

/// The end of the lines, when all were played.
#[derive(Clone, Copy, Drop)]
pub(crate) enum LinesEnd {
    /// No line is left.
    Over,
    /// The bytes after the last line are a message file.
    FeedAfter,
}

// Plays an event. Writes everything rendered if the next line is not in the in buffer yet.
fn play_on<S: BitStore, W: Sink>(
    alloc: Global,
    alone: &mut Alone<S>,
    peers: &[u8],
    event: &HostEvent,
    heading: &mut LinePrefix,
    lines: &Lines,
    out: &mut BufferedSink<'_, W>,
) -> Result<(), PlayFault>
    ensures events { DoesAllOf (inputs_of peers.now event.now alone.old.host) alone.old result alone.new }
    ensures output { (was : List ℕ) (first : Beginning)
        → Tells was first alone.old.notes heading.old out.old.page.now (written_by W.Sink out.old)
        → PrintsAs was first alone.new.notes result heading.new out.new.page.now (written_by W.Sink out.new) }
    ensures mark { write_failed W.Sink out.new ≡ (write_failed W.Sink out.old || play_write_failed result) }
    ensures same_outlet { SameOutlet out.old out.new }
{
    match play_event(alloc, alone, peers, event, heading, out) {
        Ok(()) => match flush_before_line(lines, out) {
            Ok(()) => Ok(()),
            Err(_) => Err(PlayFault::WriteFailed),
        },
        Err(fault) => Err(fault),
    }
}

// Plays the next line, for a host with these peers. Returns the end of the lines if this line ends them.
fn play_next<S: BitStore, R: Source, W: Sink>(
    alloc: Global,
    alone: &mut Alone<S>,
    peers: &[u8],
    heading: &mut LinePrefix,
    script: &mut Script<'_, R>,
    out: &mut BufferedSink<'_, W>,
) -> Result<Option<LinesEnd>, PlayFault>
    ensures events { (bytes : List ℕ) → ScriptBrings R.Source script.old bytes
        → NextDoes peers.now script.old.lines.now.number bytes alone.old result alone.new script.new.lines.now (script_left R.Source script.new) }
    ensures output { (was : List ℕ) (first : Beginning)
        → Tells was first alone.old.notes heading.old out.old.page.now (written_by W.Sink out.old)
        → PrintsAs was first alone.new.notes result heading.new out.new.page.now (written_by W.Sink out.new) }
    ensures read_measure { IfOk result (λ end. end ≡ None → ReadsOn R.Source script.old script.new) }
    ensures source_mark { is_cut_off R.Source script.new ≡ (is_cut_off R.Source script.old || play_read_failed result) }
    ensures sink_mark { write_failed W.Sink out.new ≡ (write_failed W.Sink out.old || play_write_failed result) }
    ensures same_script { SameScript script.old script.new }
    ensures same_outlet { SameOutlet out.old out.new }
{
    match next_asked(alloc, peers, script)? {
        NextAsked::Over => Ok(Some(LinesEnd::Over)),
        NextAsked::FeedAfter => Ok(Some(LinesEnd::FeedAfter)),
        NextAsked::Does { event, ended } => {
            play_on(alloc, alone, peers, &event, heading, script.lines, out)?;
            Ok(if ended { None } else { Some(LinesEnd::Over) })
        }
    }
}

/// Plays the lines after the first, for a host with these peers, and returns how they end.
pub(crate) fn play_lines<S: BitStore, R: Source, W: Sink>(
    alloc: Global,
    alone: &mut Alone<S>,
    peers: &[u8],
    heading: &mut LinePrefix,
    script: &mut Script<'_, R>,
    out: &mut BufferedSink<'_, W>,
) -> Result<LinesEnd, PlayFault>
    ensures events { (bytes : List ℕ) → ScriptBrings R.Source script.old bytes
        → LinesDo peers.now script.old.lines.now.number bytes alone.old result alone.new script.new.lines.now.window (script_left R.Source script.new) }
    ensures output { (was : List ℕ) (first : Beginning)
        → Tells was first alone.old.notes heading.old out.old.page.now (written_by W.Sink out.old)
        → PrintsAs was first alone.new.notes result heading.new out.new.page.now (written_by W.Sink out.new) }
    ensures source_mark { is_cut_off R.Source script.new ≡ (is_cut_off R.Source script.old || play_read_failed result) }
    ensures sink_mark { write_failed W.Sink out.new ≡ (write_failed W.Sink out.old || play_write_failed result) }
    ensures same_script { SameScript script.old script.new }
    ensures same_outlet { SameOutlet out.old out.new }
{
    loop {
        if let Some(end) = play_next(alloc, alone, peers, heading, script, out)? {
            return Ok(end);
        }
    }
}

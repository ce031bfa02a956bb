//! `play_first`: plays the lines after a script's first.
ghost use Rattle.std.specs.Prelude.{◌≡◌, ◌||◌, ◌⊎◌, ℕ, List, [], Some, true, false, Ok, Err, IfOk};
ghost use Rattle.ncp_play_buffer.specs.BufferedSinks.{SameOutlet, written_by, write_failed};
ghost use Rattle.ncp_play_reader.specs.LentScripts.{SameScript, ScriptBrings, ReadsOn, script_left, is_cut_off};
ghost use Rattle.ncp_play_notes.specs.Faults.{play_read_failed, play_write_failed};
ghost use Rattle.ncp_play_simulation.specs.Printing.{Rendering};
ghost use Rattle.ncp_play_simulation.specs.NextEvents.{FindsFirst};
ghost use Rattle.ncp_play_simulation.specs.Playing.{Tells, PrintsAs};
ghost use Rattle.ncp_play_simulation.specs.Players.{PlaysNext, PlaysLines, WritesAs, AnswersGood, PlaysAfter, PlaysScript};

use crate::next_event::next_event;
use crate::playing::{Player, play_on};
use crate::renderer::Renderer;
use crate::simulation::Simulation;
use ncp_play_buffer::{BufferedSink, OutBuffer};
use ncp_play_notes::PlayFault;
use ncp_play_reader::{Lines, Script, flush_before_line};
use ncp_play_script::Words;
use ncp_play_stream::{Sink, Source};
use std::alloc::Global;

// Plays the next line, and returns whether more may follow.
fn play_next<C: Simulation, T: Renderer<C>, R: Source, W: Sink>(
    first: &C::First,
    script: &mut Script<'_, R>,
    player: &mut Player<C>,
    out: &mut BufferedSink<'_, W>,
) -> Result<bool, PlayFault>
    ensures events { (bytes : List ℕ) → ScriptBrings R.Source script.old bytes
        → PlaysNext C.rules first.now script.old.lines.now.number bytes player.old.hosts result player.new.hosts script.new.lines.now.number script.new.lines.now.window (script_left R.Source script.new) }
    ensures output { (began : C.Hosts) (was : List ℕ)
        → Tells C.rules (T.rendering first.now) began was player.old.hosts player.old.number out.old.page.now (written_by W.Sink out.old)
        → PrintsAs C.rules (T.rendering first.now) began was player.new.hosts result player.new.number out.new.page.now (written_by W.Sink out.new) }
    ensures read_measure { IfOk result (λ more. more ≡ true → ReadsOn R.Source script.old script.new) }
    ensures source_mark { is_cut_off R.Source script.new ≡ (is_cut_off R.Source script.old || play_read_failed result) }
    ensures sink_mark { write_failed W.Sink out.new ≡ (write_failed W.Sink out.old || play_write_failed result) }
    ensures same_script { SameScript script.old script.new }
    ensures same_outlet { SameOutlet out.old out.new }
{
    let Some((event, ended)) = next_event::<C, R>(player.alloc, first, script)? else {
        return Ok(false);
    };
    play_on::<C, T, W>(first, player, &event, script.lines, out)?;
    Ok(ended)
}

// Plays the remaining lines.
fn play_lines<C: Simulation, T: Renderer<C>, R: Source, W: Sink>(
    first: &C::First,
    script: &mut Script<'_, R>,
    player: &mut Player<C>,
    out: &mut BufferedSink<'_, W>,
) -> Result<(), PlayFault>
    ensures events { (bytes : List ℕ) → ScriptBrings R.Source script.old bytes
        → PlaysLines C.rules first.now script.old.lines.now.number bytes player.old.hosts result player.new.hosts (script_left R.Source script.new) }
    ensures output { (began : C.Hosts) (was : List ℕ)
        → Tells C.rules (T.rendering first.now) began was player.old.hosts player.old.number out.old.page.now (written_by W.Sink out.old)
        → PrintsAs C.rules (T.rendering first.now) began was player.new.hosts result player.new.number out.new.page.now (written_by W.Sink out.new) }
    ensures source_mark { is_cut_off R.Source script.new ≡ (is_cut_off R.Source script.old || play_read_failed result) }
    ensures sink_mark { write_failed W.Sink out.new ≡ (write_failed W.Sink out.old || play_write_failed result) }
    ensures same_script { SameScript script.old script.new }
    ensures same_outlet { SameOutlet out.old out.new }
{
    while play_next::<C, T, R, W>(first, script, player, out)? {}
    Ok(())
}

// Plays the lines after the first; there are none if no LF ended it. Writes the rendering's head
// before waiting for a line.
fn play_rest<C: Simulation, T: Renderer<C>, R: Source, W: Sink>(
    first: &C::First,
    ended: bool,
    script: &mut Script<'_, R>,
    player: &mut Player<C>,
    out: &mut BufferedSink<'_, W>,
) -> Result<(), PlayFault>
    ensures events { (bytes : List ℕ) → ScriptBrings R.Source script.old bytes
        → (ended ≡ false → bytes ≡ [])
        → PlaysLines C.rules first.now script.old.lines.now.number bytes player.old.hosts result player.new.hosts (script_left R.Source script.new) }
    ensures output { (began : C.Hosts) (was : List ℕ)
        → Tells C.rules (T.rendering first.now) began was player.old.hosts player.old.number out.old.page.now (written_by W.Sink out.old)
        → PrintsAs C.rules (T.rendering first.now) began was player.new.hosts result player.new.number out.new.page.now (written_by W.Sink out.new) }
    ensures unread { ended ≡ false → play_read_failed result ≡ false }
    ensures source_mark { is_cut_off R.Source script.new ≡ (is_cut_off R.Source script.old || play_read_failed result) }
    ensures sink_mark { write_failed W.Sink out.new ≡ (write_failed W.Sink out.old || play_write_failed result) }
    ensures same_script { SameScript script.old script.new }
    ensures same_outlet { SameOutlet out.old out.new }
{
    if !ended {
        return Ok(());
    }
    match flush_before_line(script.lines, out) {
        Ok(()) => play_lines::<C, T, R, W>(first, script, player, out),
        Err(_) => Err(PlayFault::WriteFailed),
    }
}

// Plays the lines after the first, and returns whether no call was refused.
fn play_all<C: Simulation, T: Renderer<C>, R: Source, W: Sink>(
    first: &C::First,
    ended: bool,
    script: &mut Script<'_, R>,
    player: &mut Player<C>,
    out: &mut BufferedSink<'_, W>,
) -> Result<bool, PlayFault>
    ensures events { (bytes : List ℕ) → ScriptBrings R.Source script.old bytes
        → (ended ≡ false → bytes ≡ [])
        → PlaysLines C.rules first.now script.old.lines.now.number bytes player.old.hosts result player.new.hosts (script_left R.Source script.new) }
    ensures output { (began : C.Hosts) (was : List ℕ)
        → Tells C.rules (T.rendering first.now) began was player.old.hosts player.old.number out.old.page.now (written_by W.Sink out.old)
        → PrintsAs C.rules (T.rendering first.now) began was player.new.hosts result player.new.number out.new.page.now (written_by W.Sink out.new) }
    ensures run { C.rules.IsRun player.new.hosts }
    ensures good { AnswersGood C.rules result (C.rules.notes player.new.hosts) }
    ensures unread { ended ≡ false → play_read_failed result ≡ false }
    ensures source_mark { is_cut_off R.Source script.new ≡ (is_cut_off R.Source script.old || play_read_failed result) }
    ensures sink_mark { write_failed W.Sink out.new ≡ (write_failed W.Sink out.old || play_write_failed result) }
    ensures same_script { SameScript script.old script.new }
    ensures same_outlet { SameOutlet out.old out.new }
{
    let played = play_rest::<C, T, R, W>(first, ended, script, player, out);
    let good = !C::any_refusal(&player.hosts);
    played?;
    Ok(good)
}

// Writes the rest of the out buffer, unless a write has failed.
fn finish<C: Simulation, W: Sink>(
    out: &mut BufferedSink<'_, W>,
    played: Result<bool, PlayFault>,
) -> Result<bool, PlayFault>
    requires { write_failed W.Sink out.old ≡ play_write_failed played }
    ensures same { (result ≡ played) ⊎ (result ≡ Err PlayFault.WriteFailed) }
    ensures output { (rendering : Rendering C.Note C.Hosts) (began : C.Hosts) (was : List ℕ) (hosts : C.Hosts) (number : ℕ)
        → PrintsAs C.rules rendering began was hosts played number out.old.page.now (written_by W.Sink out.old)
        → WritesAs C.rules rendering began was (C.rules.notes hosts) result (written_by W.Sink out.new) }
    ensures mark { write_failed W.Sink out.new ≡ play_write_failed result }
    ensures same_outlet { SameOutlet out.old out.new }
{
    if out.sink.failed() {
        return played;
    }
    match out.flush() {
        Ok(()) => played,
        Err(_) => Err(PlayFault::WriteFailed),
    }
}

// Creates the hosts and plays the lines after the first; there are none if no LF ended it.
fn play_after<C: Simulation, T: Renderer<C>, R: Source, W: Sink>(
    alloc: Global,
    first: &C::First,
    ended: bool,
    script: &mut Script<'_, R>,
    sink: &mut W,
) -> Result<bool, PlayFault>
    requires proper { C.IsProper first.now }
    requires source_clean { is_cut_off R.Source script.old ≡ false }
    requires sink_clean { W.has_failed sink.old ≡ false }
    ensures output { (bytes : List ℕ) (was : List ℕ)
        → ScriptBrings R.Source script.old bytes → W.written sink.old ≡ Some was
        → (ended ≡ false → bytes ≡ [])
        → PlaysAfter C.rules (T.rendering first.now) first.now script.old.lines.now.number bytes was result (script_left R.Source script.new) (W.written sink.new) }
    ensures unread { ended ≡ false → play_read_failed result ≡ false }
    ensures read_failed { play_read_failed result ≡ true → is_cut_off R.Source script.new ≡ true }
    ensures write_failed { W.has_failed sink.new ≡ play_write_failed result }
    ensures blamed { is_cut_off R.Source script.new ≡ true
        → (play_read_failed result || play_write_failed result) ≡ true }
    ensures same_script { SameScript script.old script.new }
{
    let mut page = OutBuffer::new();
    T::begin(first, &mut page);
    let mut out = BufferedSink {
        page: &mut page,
        sink,
    };
    let Ok(hosts) = C::begin(alloc, first) else {
        return finish::<C, W>(&mut out, Err(PlayFault::OutOfMemory));
    };
    let mut player = Player::<C> {
        alloc,
        hosts,
        number: 1,
    };
    let played = play_all::<C, T, R, W>(first, ended, script, &mut player, &mut out);
    finish::<C, W>(&mut out, played)
}

/// Plays a script whose first line [`crate::find_first`] has read: performs the event of each
/// following line on new hosts, and writes the rendering of its notes. Returns whether no call was
/// refused. Allocates the hosts, their notes and the texts of lines.
///
/// Each line is checked only after all lines before it were played. The faults, by their effect:
///
/// - no valid first line: nothing is written;
/// - `BadLine`, `LineTooLong`: the lines before it were played;
/// - `ReadFailed`: the complete lines were played;
/// - `OutOfMemory`: a prefix of the events was played, the next one possibly in part;
/// - `WriteFailed`: as `OutOfMemory`, and a prefix of the rendering is written.
pub fn play_first<C: Simulation, T: Renderer<C>, R: Source, W: Sink>(
    alloc: Global,
    ended: bool,
    lines: &mut Lines,
    source: &mut R,
    sink: &mut W,
) -> Result<bool, PlayFault>
    requires source_clean { R.has_failed source.old ≡ false }
    requires sink_clean { W.has_failed sink.old ≡ false }

    // If the source's bytes are `bytes`, the events of the script happened in order, up to the
    // point that the result gives. Their notes are a transcript, and exactly the rendering of these
    // notes is written; after `WriteFailed` a prefix of it.
    ensures output { (bytes : List ℕ) (was : List ℕ)
        → FindsFirst 1 bytes (Ok ended) lines.old (R.left source.old) → W.written sink.old ≡ Some was
        → PlaysScript C.rules T.rendering bytes was result (R.left source.new) (W.written sink.new) }

    // A read fault is returned only if a read failed, and a write fault exactly if a write failed.
    // After a failed read, the result is one of the two.
    ensures read_failed { play_read_failed result ≡ true → R.has_failed source.new ≡ true }
    ensures write_failed { W.has_failed sink.new ≡ play_write_failed result }
    ensures blamed { R.has_failed source.new ≡ true → (play_read_failed result || play_write_failed result) ≡ true }
{
    let Some(first) = C::first_of(&mut Words::new(lines.line.text(ended))) else {
        return Err(PlayFault::BadHosts);
    };
    let mut script = Script { lines, source };
    play_after::<C, T, R, W>(alloc, &first, ended, &mut script, sink)
}

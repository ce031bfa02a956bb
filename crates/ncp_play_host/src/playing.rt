//! `play_host`: plays a script of one host.
ghost use Rattle.std.specs.Prelude.{◌≡◌, ℕ, List, ◌||◌, [], Some, true, false};
ghost use Rattle.ncp_play_buffer.specs.BufferedSinks.{SameOutlet, written_by, write_failed, HasSaid};
ghost use Rattle.ncp_play_reader.specs.LentScripts.{SameScript, ScriptBrings, script_left, is_cut_off};
ghost use Rattle.ncp_play_notes.specs.Faults.{play_read_failed, play_write_failed};
ghost use Rattle.ncp_play_notes.specs.Playing.{PrintsAs};
ghost use Rattle.ncp_play_notes.specs.declared.heading.LinePrefix.{LinePrefix as Beginning};
ghost use Rattle.ncp_play_host.specs.Played.{has_refusal, first_line_prefix, AfterDoes, Says, HostPlayed};

use crate::beginning::begin;
use crate::lines::{LinesEnd, play_lines};
use ncp_bits::BitStore;
use ncp_play_buffer::{BufferedSink, BufferedSource, OutBuffer};
use ncp_play_feed::feed;
use ncp_play_notes::{LineHost, LinePrefix, PlayFault};
use ncp_play_reader::{Lines, Script};
use ncp_play_stream::{Sink, Source};
use ncp_transcript::{Alone, HostNote};
use std::alloc::Global;

// Whether any call was refused.
fn has_refusal(notes: &[HostNote]) -> bool
    ensures { result ≡ has_refusal notes.now }
{
    notes.iter().any(|note| note.is_refusal())
}

// Plays the lines after the first, for a host with these peers, and the feed after them. There are
// none if no LF `ended` the first line.
fn play_after<S: BitStore, R: Source, W: Sink>(
    alloc: Global,
    alone: &mut Alone<S>,
    peers: &[u8],
    ended: bool,
    script: &mut Script<'_, R>,
    out: &mut BufferedSink<'_, W>,
) -> Result<(), PlayFault>
    ensures events { (bytes : List ℕ) → ScriptBrings R.Source script.old bytes
        → (ended ≡ false → bytes ≡ [])
        → AfterDoes peers.now script.old.lines.now.number bytes alone.old result alone.new (script_left R.Source script.new) }
    ensures whole { ended ≡ false → play_read_failed result ≡ false }
    ensures output { (was : List ℕ) → alone.old.notes ≡ []
        → HasSaid W.Sink was out.old []
        → (heading : Beginning) × PrintsAs was first_line_prefix alone.new.notes result heading out.new.page.now (written_by W.Sink out.new) }
    ensures source_mark { is_cut_off R.Source script.new ≡ (is_cut_off R.Source script.old || play_read_failed result) }
    ensures sink_mark { write_failed W.Sink out.new ≡ (write_failed W.Sink out.old || play_write_failed result) }
    ensures same_script { SameScript script.old script.new }
    ensures same_outlet { SameOutlet out.old out.new }
{
    if !ended {
        return Ok(());
    }
    let mut heading = LinePrefix {
        number: 1,
        speaker: LineHost::Host,
    };
    match play_lines(alloc, alone, peers, &mut heading, script, out)? {
        LinesEnd::Over => Ok(()),
        LinesEnd::FeedAfter => {
            let mut input = BufferedSource {
                window: &mut script.lines.window,
                source: &mut *script.source,
            };
            feed(alone, &mut heading, &mut input, out)
        }
    }
}

// Plays a script. The end of the output may stay in the out buffer.
fn play_script<S: BitStore, R: Source, W: Sink>(
    alloc: Global,
    source: &mut R,
    out: &mut BufferedSink<'_, W>,
) -> Result<bool, PlayFault>
    ensures output { (bytes : List ℕ) (was : List ℕ) → R.left source.old ≡ Some bytes
        → HasSaid W.Sink was out.old []
        → Says bytes was result (R.left source.new) out.new.page.now (written_by W.Sink out.new) }
    ensures source_mark { R.has_failed source.new ≡ (R.has_failed source.old || play_read_failed result) }
    ensures sink_mark { write_failed W.Sink out.new ≡ (write_failed W.Sink out.old || play_write_failed result) }
    ensures same_outlet { SameOutlet out.old out.new }
{
    let mut lines = Lines::new();
    let (mut alone, hosts, ended) = begin::<S, R>(alloc, &mut lines, source)?;
    let mut script = Script {
        lines: &mut lines,
        source,
    };
    let played = play_after(
        alloc,
        &mut alone,
        hosts.peers.as_slice(),
        ended,
        &mut script,
        out,
    );
    let good = !has_refusal(alone.transcript());
    played?;
    Ok(good)
}

/// Plays a script of one host, and writes the lines of its notes: of each line played, and of each
/// message fed. Returns whether no call was refused, or the fault that ended the script. The lines
/// of everything played before a fault are written.
///
/// The faults with a particular effect:
///
/// - `BadHosts`: the first line names no host, or one that cannot have these peers; nothing was
///   played;
/// - `ReadFailed`: the complete lines were played;
/// - `Feed(ReadFailed)`: the lines and the complete messages were played;
/// - `OutOfMemory`: a prefix of the inputs was played;
/// - `WriteFailed`: only a prefix of the lines is written.
///
/// Reads and writes in pieces. Time is linear in the script and the host's work, and memory grows
/// with the notes alone (measured, not proved).
pub fn play_host<S: BitStore, R: Source, W: Sink>(
    alloc: Global,
    source: &mut R,
    sink: &mut W,
) -> Result<bool, PlayFault>
    requires source_clean { R.has_failed source.old ≡ false }
    requires sink_clean { W.has_failed sink.old ≡ false }

    // If the source's bytes are `bytes`, exactly the lines of one host's notes are written; after
    // `WriteFailed` a prefix of them. The host is the one that the first line names, and its inputs
    // are those of the following lines and of the feed; those of a restart are Incompletes. The notes are a transcript of that host, so
    // every theorem about transcripts holds for them.
    ensures output { (bytes : List ℕ) (was : List ℕ)
        → R.left source.old ≡ Some bytes → W.written sink.old ≡ Some was
        → HostPlayed bytes was result (R.left source.new) (W.written sink.new) }

    // A read fault is returned only if a read failed, and a write fault exactly if a write failed.
    // After a failed read, the result is one of the two.
    ensures read_failed { play_read_failed result ≡ true → R.has_failed source.new ≡ true }
    ensures write_failed { W.has_failed sink.new ≡ play_write_failed result }
    ensures blamed { R.has_failed source.new ≡ true → (play_read_failed result || play_write_failed result) ≡ true }
{
    let mut page = OutBuffer::new();
    let mut out = BufferedSink {
        page: &mut page,
        sink,
    };
    let played = play_script::<S, R, W>(alloc, source, &mut out);
    if out.sink.failed() {
        return played;
    }
    match out.flush() {
        Ok(()) => played,
        Err(_) => Err(PlayFault::WriteFailed),
    }
}

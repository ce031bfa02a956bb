//! `record_world`: plays a script of two hosts, or of two to eight, line by line, and records its
//! messages.
ghost use Rattle.std.specs.Prelude.{◌≡◌, ◌||◌, ℕ, List, Some, true, false};
ghost use Rattle.ncp_play_notes.specs.Faults.{play_read_failed, play_write_failed};
ghost use Rattle.ncp_play_world.specs.ManyRules.{is_many_script};
ghost use Rattle.ncp_play_world.specs.Players.{PlaysWorld, PlaysMany};
ghost use Rattle.ncp_play_world.specs.Renderings.{recording_of, recording_of_many};

use crate::log::Log;
use crate::player::play_script;
use crate::scripted::{HostsScript, Scripted};
use ncp_bits::BitStore;
use ncp_play_buffer::{BufferedSink, OutBuffer};
use ncp_play_files::{Version, push_header};
use ncp_play_notes::PlayFault;
use ncp_play_simulation::Renderer;
use ncp_play_stream::{Failed, Sink, Source};
use ncp_play_world_lines::{FirstLine, ScriptNote};
use std::alloc::Global;

// Renders the records of notes, regardless of a sender to watch.
struct Recorder;

impl<H: Scripted> Renderer<HostsScript<H>> for Recorder {
    ghost use Rattle.ncp_play_world.specs.Renderings.{recording_with};

    ghost rendering = { λ first. recording_with (H.note_bytes first.hosts) };

    fn begin(_first: &FirstLine<H::Named, H::Sender>, page: &mut OutBuffer) {
        push_header(page, Version::Two);
    }

    fn say<W: Sink>(
        first: &FirstLine<H::Named, H::Sender>,
        hosts: &Log<H>,
        _number: u32,
        out: &mut BufferedSink<'_, W>,
    ) -> Result<(), Failed> {
        match hosts.last() {
            Some(ScriptNote::Noted(note)) => H::render_record(out, &first.hosts, note),
            Some(ScriptNote::Settled(_)) => Ok(()),
            None => Ok(()),
        }
    }
}

/// Plays a script of two hosts, or of two to eight, as [`crate::play_world`] does, and writes a
/// message file of version 2 in place of lines: its header once the hosts are known, then each
/// message sent, at its sender; each message received, at its receiver, with the bits that arrived;
/// and each answer, at the host that receives it. A sender to watch has no effect, and of the word
/// `settle` only the messages are recorded. Returns whether no call was refused.
///
/// If the first line names no hosts, nothing is written. After `ReadFailed` the complete lines were
/// played, after `OutOfMemory` the first events; after `WriteFailed` a prefix of the file is
/// written.
pub fn record_world<S: BitStore, R: Source, W: Sink>(
    alloc: Global,
    source: &mut R,
    sink: &mut W,
) -> Result<bool, PlayFault>
    requires source_clean { R.has_failed source.old ≡ false }
    requires sink_clean { W.has_failed sink.old ≡ false }

    // Given the bytes of the source, the events of the script happened in order, up to its first
    // fault, and the file of their records is written, and nothing else.
    ensures output { (bytes : List ℕ) (was : List ℕ)
        → R.left source.old ≡ Some bytes → W.written sink.old ≡ Some was → is_many_script bytes ≡ false
        → PlaysWorld recording_of bytes was result (R.left source.new) (W.written sink.new) }
    ensures many { (bytes : List ℕ) (was : List ℕ)
        → R.left source.old ≡ Some bytes → W.written sink.old ≡ Some was → is_many_script bytes ≡ true
        → PlaysMany recording_of_many bytes was result (R.left source.new) (W.written sink.new) }

    // A failed read is reported only if the source failed, and a failed write exactly if the sink
    // failed. After a failure of the source one of the two is reported.
    ensures read_failed { play_read_failed result ≡ true → R.has_failed source.new ≡ true }
    ensures write_failed { W.has_failed sink.new ≡ play_write_failed result }
    ensures blamed { R.has_failed source.new ≡ true → (play_read_failed result || play_write_failed result) ≡ true }
{
    play_script::<S, Recorder, Recorder, R, W>(alloc, source, sink)
}

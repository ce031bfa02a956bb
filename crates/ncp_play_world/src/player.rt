//! `play_script` and `play_world`: a script of two hosts, or of two to eight, played line by line.
ghost use Rattle.std.specs.Prelude.{◌≡◌, ◌||◌, ℕ, List, Some, true, false};
ghost use Rattle.ncp_play_notes.specs.Faults.{play_read_failed, play_write_failed};
ghost use Rattle.ncp_play_world.specs.ManyRules.{is_many_script};
ghost use Rattle.ncp_play_world.specs.Players.{PlaysWorld, PlaysMany};
ghost use Rattle.ncp_play_world.specs.Renderings.{lines_of_script, lines_of_many};

use crate::many::ManyHostScript;
use crate::note_lines::NoteLines;
use crate::two::TwoHostScript;
use ncp_bits::BitStore;
use ncp_play_notes::PlayFault;
use ncp_play_reader::Lines;
use ncp_play_script::{Words, is_many};
use ncp_play_simulation::{Renderer, find_first, play_first};
use ncp_play_stream::{Sink, Source};
use std::alloc::Global;

/// Plays a script of two hosts, whose first line begins with `hosts A B`, or of two to eight, whose
/// first line begins with `many N1 .. Nn`; a sender to watch may follow. Each line after it is an
/// event of new hosts (a [`ncp_world::World`], or a [`ncp_world::Many`]), and the rendering of its
/// note is written. Returns whether no call was refused.
///
/// Allocates for the hosts, their notes, and the text of a `give`. A faulty line is not played; the
/// lines before it were. Without a valid first line nothing is written. After `ReadFailed` the
/// complete lines were played; after `OutOfMemory` the first events; after `WriteFailed` a prefix
/// of the rendering is written.
pub fn play_script<
    S: BitStore,
    T: Renderer<TwoHostScript<S>>,
    M: Renderer<ManyHostScript<S>>,
    R: Source,
    W: Sink,
>(alloc: Global, source: &mut R, sink: &mut W) -> Result<bool, PlayFault>
    requires source_clean { R.has_failed source.old ≡ false }
    requires sink_clean { W.has_failed sink.old ≡ false }

    // Given the bytes of the source, the events of the script happened in order, up to its first
    // fault; their notes are a transcript; and its rendering is written, and nothing else.
    ensures output { (bytes : List ℕ) (was : List ℕ)
        → R.left source.old ≡ Some bytes → W.written sink.old ≡ Some was → is_many_script bytes ≡ false
        → PlaysWorld T.rendering bytes was result (R.left source.new) (W.written sink.new) }
    ensures many { (bytes : List ℕ) (was : List ℕ)
        → R.left source.old ≡ Some bytes → W.written sink.old ≡ Some was → is_many_script bytes ≡ true
        → PlaysMany M.rendering bytes was result (R.left source.new) (W.written sink.new) }

    // A failed read is reported only if the source failed, and a failed write exactly if the sink
    // failed. After a failure of the source one of the two is reported.
    ensures read_failed { play_read_failed result ≡ true → R.has_failed source.new ≡ true }
    ensures write_failed { W.has_failed sink.new ≡ play_write_failed result }
    ensures blamed { R.has_failed source.new ≡ true → (play_read_failed result || play_write_failed result) ≡ true }
{
    let mut lines = Lines::new();
    let ended = find_first(&mut lines, source)?;
    if is_many(&mut Words::new(lines.line.text(ended))) {
        return play_first::<ManyHostScript<S>, M, R, W>(alloc, ended, &mut lines, source, sink);
    }
    play_first::<TwoHostScript<S>, T, R, W>(alloc, ended, &mut lines, source, sink)
}

/// Plays a script as [`play_script`] does, and writes the lines of the notes; if a sender is
/// watched, its ledger follows those of each note.
pub fn play_world<S: BitStore, R: Source, W: Sink>(
    alloc: Global,
    source: &mut R,
    sink: &mut W,
) -> Result<bool, PlayFault>
    requires source_clean { R.has_failed source.old ≡ false }
    requires sink_clean { W.has_failed sink.old ≡ false }

    // Given the bytes of the source, the events of the script happened in order, up to its first
    // fault; their notes are a transcript; and its lines are written, and nothing else.
    ensures output { (bytes : List ℕ) (was : List ℕ)
        → R.left source.old ≡ Some bytes → W.written sink.old ≡ Some was → is_many_script bytes ≡ false
        → PlaysWorld lines_of_script bytes was result (R.left source.new) (W.written sink.new) }
    ensures many { (bytes : List ℕ) (was : List ℕ)
        → R.left source.old ≡ Some bytes → W.written sink.old ≡ Some was → is_many_script bytes ≡ true
        → PlaysMany lines_of_many bytes was result (R.left source.new) (W.written sink.new) }

    // A failed read is reported only if the source failed, and a failed write exactly if the sink
    // failed. After a failure of the source one of the two is reported.
    ensures read_failed { play_read_failed result ≡ true → R.has_failed source.new ≡ true }
    ensures write_failed { W.has_failed sink.new ≡ play_write_failed result }
    ensures blamed { R.has_failed source.new ≡ true → (play_read_failed result || play_write_failed result) ≡ true }
{
    play_script::<S, NoteLines, NoteLines, R, W>(alloc, source, sink)
}

//! Plays one input: applies it to the host and renders its note.
ghost use Rattle.std.specs.Prelude.{◌≡◌, ◌+◌, ◌≤◌, ◌||◌, ℕ, List};
ghost use Rattle.ncp_play_buffer.specs.BufferedSinks.{SameOutlet, written_by, write_failed, write_budget};
ghost use Rattle.ncp_play_stream.specs.Pieces.{lost_pieces};
ghost use Rattle.ncp_play_notes.specs.Faults.{play_write_failed};
ghost use Rattle.ncp_play_notes.specs.Playing.{Does, Tells, PrintsAs};
ghost use Rattle.ncp_play_notes.specs.declared.heading.LinePrefix.{LinePrefix as Beginning};

use crate::fault::PlayFault;
use crate::heading::LinePrefix;
use crate::note_lines::render_note;
use ncp_bits::BitStore;
use ncp_play_buffer::BufferedSink;
use ncp_play_stream::Sink;
use ncp_transcript::{Alone, Input};

/// Applies an input to the host, renders its note under `heading`, and moves `heading` on to the
/// next note.
///
/// On `OutOfMemory` nothing has happened; retry with the same input. On `WriteFailed` the input was
/// applied, and a prefix of all lines is written.
pub fn play_input<S: BitStore, W: Sink>(
    alone: &mut Alone<S>,
    input: &Input,
    heading: &mut LinePrefix,
    out: &mut BufferedSink<'_, W>,
) -> Result<(), PlayFault>
    ensures events { Does input.now alone.old result alone.new }
    ensures output { (was : List ℕ) (first : Beginning)
        → Tells was first alone.old.notes heading.old out.old.page.now (written_by W.Sink out.old)
        → PrintsAs was first alone.new.notes result heading.new out.new.page.now (written_by W.Sink out.new) }
    ensures writes { write_budget W.Sink out.old ≤ write_budget W.Sink out.new + lost_pieces (play_write_failed result) }
    ensures mark { write_failed W.Sink out.new ≡ (write_failed W.Sink out.old || play_write_failed result) }
    ensures same_outlet { SameOutlet out.old out.new }
{
    if alone.step(input).is_err() {
        return Err(PlayFault::OutOfMemory);
    }
    let notes = alone.transcript();
    match render_note(out, *heading, &notes[notes.len() - 1]) {
        Ok(()) => {
            *heading = heading.next();
            Ok(())
        }
        Err(_) => Err(PlayFault::WriteFailed),
    }
}

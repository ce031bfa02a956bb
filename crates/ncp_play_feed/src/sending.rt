//! Sends all output of a host.
ghost use Rattle.std.specs.Prelude.{◌≡◌, ℕ, ◌+◌, ◌<◌, ◌≤◌, ◌||◌, ◌++◌, ◌∷◌, [], List, true, IfOk};
ghost use Rattle.ncp_play_buffer.specs.BufferedSinks.{SameOutlet, written_by, write_failed, write_budget};
ghost use Rattle.ncp_play_stream.specs.Pieces.{lost_pieces};
ghost use Rattle.ncp_transcript.specs.declared.note.HostNote.{HostNote as Note};
ghost use Rattle.ncp_play_notes.specs.Faults.{play_write_failed};
ghost use Rattle.ncp_play_notes.specs.Playing.{Tells, PrintsAs};
ghost use Rattle.ncp_play_notes.specs.declared.heading.LinePrefix.{LinePrefix as Beginning};
ghost use Rattle.ncp_play_feed.specs.Steps.{SendsNext, SendsFrom, is_output_note};
ghost use Rattle.ncp_play_feed.specs.Going.{open_links};

use ncp_bits::BitStore;
use ncp_play_buffer::BufferedSink;
use ncp_play_notes::{LinePrefix, PlayFault, play_input};
use ncp_play_stream::Sink;
use ncp_transcript::{Alone, HostNote, Input};

// Whether a note is of a message that was sent.
fn is_out(note: &HostNote) -> bool
    ensures { result ≡ is_output_note note.now }
{
    matches!(note, HostNote::Out { .. })
}

// Asks the host for output once. Returns whether a message was sent; if so, the host has one link
// fewer on which it may send.
fn send_next<S: BitStore, W: Sink>(
    alone: &mut Alone<S>,
    heading: &mut LinePrefix,
    out: &mut BufferedSink<'_, W>,
) -> Result<bool, PlayFault>
    ensures events { SendsNext alone.old result alone.new }
    ensures output { (was : List ℕ) (first : Beginning)
        → Tells was first alone.old.notes heading.old out.old.page.now (written_by W.Sink out.old)
        → PrintsAs was first alone.new.notes result heading.new out.new.page.now (written_by W.Sink out.new) }
    ensures fewer { IfOk result (λ more. more ≡ true → open_links alone.new.host < open_links alone.old.host) }
    ensures sink_mark { write_failed W.Sink out.new ≡ (write_failed W.Sink out.old || play_write_failed result) }
    ensures writes { write_budget W.Sink out.old ≤ write_budget W.Sink out.new + lost_pieces (play_write_failed result) }
    ensures same_outlet { SameOutlet out.old out.new }
{
    play_input(alone, &Input::Out, heading, out)?;
    let notes = alone.transcript();
    Ok(is_out(&notes[notes.len() - 1]))
}

/// Asks the host for output until it has none. Terminates, since each message occupies a link on
/// which the host may send.
pub(crate) fn send_all<S: BitStore, W: Sink>(
    alone: &mut Alone<S>,
    heading: &mut LinePrefix,
    out: &mut BufferedSink<'_, W>,
) -> Result<(), PlayFault>
    ensures events { SendsFrom alone.old result alone.new }
    ensures output { (was : List ℕ) (first : Beginning)
        → Tells was first alone.old.notes heading.old out.old.page.now (written_by W.Sink out.old)
        → PrintsAs was first alone.new.notes result heading.new out.new.page.now (written_by W.Sink out.new) }
    ensures sink_mark { write_failed W.Sink out.new ≡ (write_failed W.Sink out.old || play_write_failed result) }
    ensures writes { write_budget W.Sink out.old ≤ write_budget W.Sink out.new + lost_pieces (play_write_failed result) }
    ensures same_outlet { SameOutlet out.old out.new }
{
    while send_next(alone, heading, out)? {}
    Ok(())
}

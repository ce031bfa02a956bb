//! The messages of a feed arrive.
ghost use Rattle.std.specs.Prelude.{◌≡◌, ℕ, ◌+◌, ◌<◌, ◌≤◌, ◌||◌, List, true, false, IfOk};
ghost use Rattle.ncp_play_buffer.specs.BufferedSources.{SameInlet, left_in, reads_left, read_failed, slack, work, Brings, PaidBy};
ghost use Rattle.ncp_play_buffer.specs.BufferedSinks.{SameOutlet, written_by, write_failed, write_budget};
ghost use Rattle.ncp_play_stream.specs.Pieces.{lost_pieces};
ghost use Rattle.ncp_play_notes.specs.Faults.{play_read_failed, play_write_failed};
ghost use Rattle.ncp_play_notes.specs.Playing.{Tells, PrintsAs};
ghost use Rattle.ncp_play_notes.specs.declared.heading.LinePrefix.{LinePrefix as Beginning};
ghost use Rattle.ncp_play_files.specs.Waiting.{lacks_message};
ghost use Rattle.ncp_play_feed.specs.Steps.{HearsNext, HearsOn, HearsFrom, unpaid_after_feeding};

use ncp_bits::{BitStore, Bits};
use ncp_play_buffer::{BufferedSink, BufferedSource};
use ncp_play_files::{Direction, Version, flush_before_wait, read_record};
use ncp_play_notes::{LinePrefix, PlayFault, play_input};
use ncp_play_stream::{LEAST_PIECE, Sink, Source, stop_at_fault};
use ncp_transcript::{Alone, Input};

// Delivers the next message to the host. Returns whether there was one.
fn hear_next<S: BitStore, R: Source, W: Sink>(
    alone: &mut Alone<S>,
    heading: &mut LinePrefix,
    input: &mut BufferedSource<'_, R>,
    out: &mut BufferedSink<'_, W>,
) -> Result<bool, PlayFault>
    ensures events { (bytes : List ℕ) → Brings R.Source input.old bytes
        → HearsNext bytes alone.old result alone.new input.new.window.now (left_in R.Source input.new) }
    ensures output { (was : List ℕ) (first : Beginning)
        → Tells was first alone.old.notes heading.old out.old.page.now (written_by W.Sink out.old)
        → PrintsAs was first alone.new.notes result heading.new out.new.page.now (written_by W.Sink out.new) }
    ensures source_mark { read_failed R.Source input.new ≡ (read_failed R.Source input.old || play_read_failed result) }
    ensures sink_mark { write_failed W.Sink out.new ≡ (write_failed W.Sink out.old || play_write_failed result) }
    ensures reads { slack R.Source input.old ≤ slack R.Source input.new + 1 }
    ensures taken { IfOk result (λ more. more ≡ true → slack R.Source input.old ≤ slack R.Source input.new) }
    ensures read_measure { IfOk result (λ more. more ≡ true → work R.Source input.new < work R.Source input.old) }
    ensures lowers { reads_left R.Source input.new ≤ reads_left R.Source input.old }
    ensures waited { IfOk result (λ more. more ≡ true
        → lacks_message 0 input.old.window.now ≡ true → reads_left R.Source input.new < reads_left R.Source input.old) }
    ensures writes { write_budget W.Sink out.old ≤ write_budget W.Sink out.new + lost_pieces (play_write_failed result) }
    ensures same_inlet { SameInlet input.old input.new }
    ensures same_outlet { SameOutlet out.old out.new }
{
    let mut message = Bits::new();
    match read_record(input, &mut message) {
        Ok(true) => {
            play_input(alone, &Input::In(message), heading, out)?;
            Ok(true)
        }
        Ok(false) => Ok(false),
        Err(fault) => Err(PlayFault::Feed(fault)),
    }
}

// Delivers the next message as `hear_next` does, after `messages` messages. Writes the out buffer
// before waiting for input.
fn hear_on<S: BitStore, R: Source, W: Sink>(
    alone: &mut Alone<S>,
    heading: &mut LinePrefix,
    input: &mut BufferedSource<'_, R>,
    out: &mut BufferedSink<'_, W>,
    messages: u32,
) -> Result<bool, PlayFault>
    ensures events { (bytes : List ℕ) → Brings R.Source input.old bytes
        → HearsOn bytes alone.old result alone.new input.new.window.now (left_in R.Source input.new) }
    ensures output { (was : List ℕ) (first : Beginning)
        → Tells was first alone.old.notes heading.old out.old.page.now (written_by W.Sink out.old)
        → PrintsAs was first alone.new.notes result heading.new out.new.page.now (written_by W.Sink out.new) }
    ensures source_mark { read_failed R.Source input.new ≡ (read_failed R.Source input.old || play_read_failed result) }
    ensures sink_mark { write_failed W.Sink out.new ≡ (write_failed W.Sink out.old || play_write_failed result) }
    ensures reads { slack R.Source input.old ≤ slack R.Source input.new + 1 }
    ensures taken { IfOk result (λ more. more ≡ true → slack R.Source input.old ≤ slack R.Source input.new) }
    ensures read_measure { IfOk result (λ more. more ≡ true → work R.Source input.new < work R.Source input.old) }
    ensures writes { PaidBy R.Source W.Sink out.old input.old out.new input.new (λ _. unpaid_after_feeding result) }
    ensures same_inlet { SameInlet input.old input.new }
    ensures same_outlet { SameOutlet out.old out.new }
{
    match flush_before_wait(input.window, Version::One(Direction::FromImp), out) {
        Ok(()) => {
            let heard = hear_next(alone, heading, input, out);
            stop_at_fault(input.source, &heard, messages, input.window.unread().len());
            heard
        }
        Err(_) => Err(PlayFault::WriteFailed),
    }
}

/// Delivers all messages, up to the first fault of the file.
pub(crate) fn hear_all<S: BitStore, R: Source, W: Sink>(
    alone: &mut Alone<S>,
    heading: &mut LinePrefix,
    input: &mut BufferedSource<'_, R>,
    out: &mut BufferedSink<'_, W>,
) -> Result<(), PlayFault>
    ensures events { (bytes : List ℕ) → Brings R.Source input.old bytes
        → HearsFrom bytes alone.old result alone.new (left_in R.Source input.new) }
    ensures output { (was : List ℕ) (first : Beginning)
        → Tells was first alone.old.notes heading.old out.old.page.now (written_by W.Sink out.old)
        → PrintsAs was first alone.new.notes result heading.new out.new.page.now (written_by W.Sink out.new) }
    ensures source_mark { read_failed R.Source input.new ≡ (read_failed R.Source input.old || play_read_failed result) }
    ensures sink_mark { write_failed W.Sink out.new ≡ (write_failed W.Sink out.old || play_write_failed result) }
    ensures reads { slack R.Source input.old ≤ slack R.Source input.new + 1 }
    ensures writes { PaidBy R.Source W.Sink out.old input.old out.new input.new (λ _. lost_pieces (play_write_failed result) + LEAST_PIECE) }
    ensures same_inlet { SameInlet input.old input.new }
    ensures same_outlet { SameOutlet out.old out.new }
{
    let mut messages = 0u32;
    while hear_on(alone, heading, input, out, messages)? {
        messages = messages.saturating_add(1);
    }
    Ok(())
}

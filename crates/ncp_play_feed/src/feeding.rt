//! `feed`: feeds a message file to a host.
ghost use Rattle.std.specs.Prelude.{◌≡◌, ℕ, ◌+◌, ◌*◌, ◌≤◌, ◌||◌, List, OnOk};
ghost use Rattle.ncp_play_buffer.specs.BufferedSources.{SameInlet, left_in, reads_left, read_failed, slack, Brings, PaidBy};
ghost use Rattle.ncp_play_buffer.specs.BufferedSinks.{SameOutlet, written_by, write_failed, write_budget};
ghost use Rattle.ncp_play_stream.specs.Pieces.{lost_pieces};
ghost use Rattle.ncp_play_files.specs.Results.{is_read_failed as is_file_read_failed, is_write_failed as is_file_write_failed};
ghost use Rattle.ncp_play_files.specs.Steps.{LetsOut};
ghost use Rattle.ncp_play_notes.specs.Faults.{play_read_failed, play_write_failed};
ghost use Rattle.ncp_play_notes.specs.Playing.{Tells, PrintsAs};
ghost use Rattle.ncp_play_notes.specs.declared.heading.LinePrefix.{LinePrefix as Beginning};
ghost use Rattle.ncp_play_feed.specs.Feeds.{FeedDoes};
ghost use Rattle.ncp_play_feed.specs.Steps.{ReadsFeedHeader};

use crate::hearing::hear_all;
use crate::sending::send_all;
use ncp_bits::BitStore;
use ncp_play_buffer::{BufferedSink, BufferedSource, InBuffer};
use ncp_play_files::{Direction, FileFault, HEADER, read_header};
use ncp_play_notes::{LinePrefix, PlayFault};
use ncp_play_stream::{LEAST_PIECE, Sink, Source};
use ncp_transcript::Alone;

// Reads the header, which must be that of a file from an IMP.
fn read_feed_header<R: Source>(input: &mut BufferedSource<'_, R>) -> Result<(), FileFault>
    ensures output { (bytes : List ℕ) → Brings R.Source input.old bytes
        → ReadsFeedHeader bytes result input.new.window.now (left_in R.Source input.new) }
    ensures mark { read_failed R.Source input.new ≡ (read_failed R.Source input.old || is_file_read_failed result) }
    ensures reads { slack R.Source input.old ≤ slack R.Source input.new + 1 }
    ensures taken { OnOk result (slack R.Source input.old ≤ slack R.Source input.new) }
    ensures lowers { reads_left R.Source input.new ≤ reads_left R.Source input.old }
    ensures same_inlet { SameInlet input.old input.new }
{
    match read_header(input)? {
        Direction::FromImp => Ok(()),
        Direction::ToImp => Err(FileFault::BadHeader),
    }
}

// Writes the out buffer if the header is not complete in the in buffer yet.
fn let_out_before_header<W: Sink>(
    window: &InBuffer,
    out: &mut BufferedSink<'_, W>,
) -> Result<(), FileFault>
    ensures output { LetsOut out.old.page.now (written_by W.Sink out.old) result out.new.page.now (written_by W.Sink out.new) }
    ensures writes { write_budget W.Sink out.old ≤ write_budget W.Sink out.new + lost_pieces (is_file_write_failed result) + LEAST_PIECE }
    ensures mark { write_failed W.Sink out.new ≡ (write_failed W.Sink out.old || is_file_write_failed result) }
    ensures same_outlet { SameOutlet out.old out.new }
{
    if window.unread().len() >= HEADER {
        return Ok(());
    }
    match out.flush() {
        Ok(()) => Ok(()),
        Err(_) => Err(FileFault::WriteFailed),
    }
}

// Feeds a host as `feed` does, without writing the out buffer before the header.
fn feed_file<S: BitStore, R: Source, W: Sink>(
    alone: &mut Alone<S>,
    heading: &mut LinePrefix,
    input: &mut BufferedSource<'_, R>,
    out: &mut BufferedSink<'_, W>,
) -> Result<(), PlayFault>
    ensures events { (bytes : List ℕ) → Brings R.Source input.old bytes
        → FeedDoes bytes alone.old result alone.new (left_in R.Source input.new) }
    ensures output { (was : List ℕ) (first : Beginning)
        → Tells was first alone.old.notes heading.old out.old.page.now (written_by W.Sink out.old)
        → PrintsAs was first alone.new.notes result heading.new out.new.page.now (written_by W.Sink out.new) }
    ensures source_mark { read_failed R.Source input.new ≡ (read_failed R.Source input.old || play_read_failed result) }
    ensures sink_mark { write_failed W.Sink out.new ≡ (write_failed W.Sink out.old || play_write_failed result) }
    ensures reads { slack R.Source input.old ≤ slack R.Source input.new + 1 }
    ensures writes { PaidBy R.Source W.Sink out.old input.old out.new input.new (λ _. lost_pieces (play_write_failed result) + LEAST_PIECE) }
    ensures same_inlet { SameInlet input.old input.new }
    ensures same_outlet { SameOutlet out.old out.new }
{
    if let Err(fault) = read_feed_header(input) {
        return Err(PlayFault::Feed(fault));
    }
    hear_all(alone, heading, input, out)?;
    send_all(alone, heading, out)
}

/// Feeds a host the message file that follows: the host receives each message up to the file's
/// first fault. If there is no fault, it is then asked for output until it has none. The lines of
/// all notes are rendered.
///
/// The file must be one from an IMP; any other header is `Feed(BadHeader)`. The faults, by their
/// effect:
///
/// - `Feed(fault)`: the messages before the fault were received, and none was sent;
/// - `Feed(ReadFailed)`: the complete messages were received, and none was sent;
/// - `OutOfMemory`: a prefix of the messages was received, or all were and some output was sent;
/// - `WriteFailed`: the same, or all was done; a prefix of the lines is written.
///
/// The end of the output may stay in the out buffer, but all output is written before waiting for
/// input. Time is proportional to the file and the output, and only notes are allocated (not
/// proved).
pub fn feed<S: BitStore, R: Source, W: Sink>(
    alone: &mut Alone<S>,
    heading: &mut LinePrefix,
    input: &mut BufferedSource<'_, R>,
    out: &mut BufferedSink<'_, W>,
) -> Result<(), PlayFault>
    // If the remaining bytes are `bytes`, each message before the first fault was received, and
    // without a fault the host was asked for output until it had none; after `OutOfMemory` and
    // `WriteFailed` possibly only a prefix of this was done.
    ensures events { (bytes : List ℕ) → Brings R.Source input.old bytes
        → FeedDoes bytes alone.old result alone.new (left_in R.Source input.new) }

    // Exactly the lines of all notes are rendered, those of earlier inputs too; after `WriteFailed`
    // a prefix of them is written.
    ensures output { (was : List ℕ) (first : Beginning)
        → Tells was first alone.old.notes heading.old out.old.page.now (written_by W.Sink out.old)
        → PrintsAs was first alone.new.notes result heading.new out.new.page.now (written_by W.Sink out.new) }

    // A read has failed exactly if one had failed before or the result is a read fault; likewise
    // for writes.
    ensures source_mark { read_failed R.Source input.new ≡ (read_failed R.Source input.old || play_read_failed result) }
    ensures sink_mark { write_failed W.Sink out.new ≡ (write_failed W.Sink out.old || play_write_failed result) }

    // Bytes are read and lines written in pieces; each read may cause one more write.
    ensures reads { slack R.Source input.old ≤ slack R.Source input.new + 1 }
    ensures writes { PaidBy R.Source W.Sink out.old input.old out.new input.new (λ _. lost_pieces (play_write_failed result) + 2 * LEAST_PIECE) }
    ensures same_inlet { SameInlet input.old input.new }
    ensures same_outlet { SameOutlet out.old out.new }
{
    match let_out_before_header(input.window, out) {
        Ok(()) => feed_file(alone, heading, input, out),
        Err(_) => Err(PlayFault::WriteFailed),
    }
}

//! `show`: the contents of a message file, line by line.
ghost use Rattle.std.specs.Prelude.{◌≡◌, ℕ, ◌+◌, ◌-◌, ◌/◌, ◌≤◌, ◌||◌, List, Some, true, false, length};
ghost use Rattle.ncp_play_stream.specs.Pieces.{reads_for};
ghost use Rattle.ncp_play_files.specs.Results.{is_read_failed, is_write_failed};
ghost use Rattle.ncp_play_files.specs.Shown.{Shown, show_pass};

use crate::file::FileFault;
use crate::pass::{FileEnd, Pass};
use crate::passing::pass_through;
use crate::record::render_record;
use crate::version::{CapturePoint, Version};
use ncp_bits::Part;
use ncp_play_buffer::{BufferedSink, Counter};
use ncp_play_stream::{Failed, LEAST_PIECE, Sink, Source};

/// The pass of `show`, which prints the lines of each record.
#[derive(Drop)]
pub(crate) struct Showing;

impl Pass for Showing {
    ghost rules = { show_pass };

    fn reads(_version: Version) -> bool {
        true
    }

    fn is_prompt() -> bool {
        true
    }

    #[inline(always)]
    fn record<W: Sink>(
        &mut self,
        out: &mut BufferedSink<'_, W>,
        capture_point: CapturePoint,
        number: &Counter,
        message: Part<'_>,
    ) -> Result<(), Failed> {
        render_record(out, capture_point, number, &message)
    }

    fn close<W: Sink>(&self, _out: &mut BufferedSink<'_, W>, _end: FileEnd) -> Result<(), Failed> {
        Ok(())
    }

    fn is_good(&self) -> bool {
        true
    }
}

/// Prints the lines of each record of a message file up to the first fault, and returns that fault.
///
/// Does not allocate. Reads and writes at least 4 KiB at a time, but prints all complete records
/// before waiting for input. After a failed read the lines of the records read whole are written;
/// after a failed write a prefix of the lines is.
pub fn show<S: Source, W: Sink>(source: &mut S, sink: &mut W) -> Result<(), FileFault>
    requires source_clean { S.has_failed source.old ≡ false }
    requires sink_clean { W.has_failed sink.old ≡ false }

    // Given the bytes of the source, the lines of the records before the first fault are written,
    // and nothing else.
    ensures output { (bytes : List ℕ) (was : List ℕ)
        → S.left source.old ≡ Some bytes → W.written sink.old ≡ Some was
        → Shown bytes was (S.left source.new) (W.written sink.new) result }

    // A failed read is reported only if the source failed, and a failed write exactly if the sink
    // failed. After a failure of the source one of the two is reported.
    ensures read_failed { is_read_failed result ≡ true → S.has_failed source.new ≡ true }
    ensures write_failed { W.has_failed sink.new ≡ is_write_failed result }
    ensures blamed { S.has_failed source.new ≡ true → (is_read_failed result || is_write_failed result) ≡ true }

    // Reads a source that gives all it can at most once for each 4 KiB, and once more; any source
    // at most once for each byte, and once more.
    ensures reads { (bytes : List ℕ) → S.left source.old ≡ Some bytes
        → S.reads source.old ≤ S.reads source.new + reads_for S.gives_all (length bytes) + 1 }

    // Writes to a sink that takes all it can at most once for each 4 KiB, once for each read, and
    // twice more.
    ensures writes { (was : List ℕ) (now : List ℕ) → W.takes_all ≡ true
        → W.written sink.old ≡ Some was → W.written sink.new ≡ Some now
        → W.writes sink.old ≤ W.writes sink.new + (length now - length was) / LEAST_PIECE + (S.reads source.old - S.reads source.new) + 2 }
{
    match pass_through(&mut Showing, source, sink) {
        Ok(_) => Ok(()),
        Err(fault) => Err(fault),
    }
}

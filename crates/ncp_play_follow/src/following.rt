//! `follow`: the text of each connection of a file.
ghost use Rattle.std.specs.Prelude.{◌≡◌, ℕ, ◌+◌, ◌-◌, ◌/◌, ◌≤◌, ◌||◌, List, Some, true, false, length, is_err};
ghost use Rattle.ncp_play_stream.specs.Pieces.{reads_for, lost_pieces};
ghost use Rattle.ncp_play_buffer.specs.BufferedSinks.{SameOutlet, write_failed, write_budget, RendersOrBreaks};
ghost use Rattle.ncp_play_files.specs.Passes.{names_hosts};
ghost use Rattle.ncp_play_files.specs.Results.{is_read_failed, is_write_failed};
ghost use Rattle.ncp_play_follow.specs.ConnectionLines.{follow_lines};
ghost use Rattle.ncp_play_follow.specs.FollowedFiles.{host_of, is_sent, follow_pass, Follows};

use crate::connection_line::render_connections;
use crate::stray_line::render_strays;
use ncp_bits::{Bits, Part};
use ncp_follow::Follower;
use ncp_play_buffer::{BufferedSink, Counter};
use ncp_play_files::{CapturePoint, Direction, FileEnd, FileFault, Pass, Version, pass_through};
use ncp_play_stream::{Failed, LEAST_PIECE, Sink, Source};

/// The host at whose interface a record is.
pub(crate) fn host_of(at: Option<u8>) -> u8
    ensures { result ≡ host_of at }
{
    at.unwrap_or(0)
}

/// Whether the host sent it.
pub(crate) fn is_sent(direction: Direction) -> bool
    ensures { result ≡ is_sent direction }
{
    match direction {
        Direction::ToImp => true,
        Direction::FromImp => false,
    }
}

// Renders all lines of a follower.
fn render_lines<W: Sink>(
    out: &mut BufferedSink<'_, W>,
    letters: bool,
    follower: &Follower,
) -> Result<(), Failed>
    ensures output { RendersOrBreaks W.Sink out.old (follow_lines letters follower.now) result out.new }
    ensures writes { write_budget W.Sink out.old ≤ write_budget W.Sink out.new + lost_pieces (is_err result) }
    ensures mark { write_failed W.Sink out.new ≡ (write_failed W.Sink out.old || is_err result) }
    ensures same_outlet { SameOutlet out.old out.new }
{
    render_connections(out, letters, follower.told())?;
    render_strays(out, follower.sessions())
}

/// The pass of `follow`: the lines of all connections at the end, with letters or without.
#[derive(Drop)]
pub(crate) struct Following<'a> {
    pub letters: bool,
    pub follower: &'a mut Follower,
    pub message: Bits,
}

impl Pass for Following<'_> {
    ghost rules = { follow_pass };

    fn reads(version: Version) -> bool
        ensures { result ≡ names_hosts version }
    {
        matches!(version, Version::Two)
    }

    fn is_prompt() -> bool
        ensures { result ≡ false }
    {
        false
    }

    fn record<W: Sink>(
        &mut self,
        _out: &mut BufferedSink<'_, W>,
        capture_point: CapturePoint,
        number: &Counter,
        message: Part<'_>,
    ) -> Result<(), Failed> {
        self.message.copy_from_part(message);
        self.follower.hear(
            number.number(),
            is_sent(capture_point.direction),
            host_of(capture_point.at),
            &self.message,
        );
        Ok(())
    }

    fn close<W: Sink>(&self, out: &mut BufferedSink<'_, W>, _end: FileEnd) -> Result<(), Failed> {
        render_lines(out, self.letters, self.follower)
    }

    fn is_good(&self) -> bool {
        true
    }
}

/// Prints the lines of the connections of a message file of version 2, in the order of opening, up
/// to its first fault, and returns that fault, if there is one. With `letters` a line follows each
/// text, with its bytes as letters.
///
/// A file of version 1 names no host at whose interface its messages were captured: its header is a
/// `BadHeader`.
///
/// Does not allocate. Reads the file once, and reads and writes at least 4 KiB at a time. Writes
/// nothing before the end of the file, or its first fault. After a failed read the lines of the
/// records read whole are written; after a failed write a prefix of the lines is.
pub fn follow<S: Source, W: Sink>(
    follower: &mut Follower,
    letters: bool,
    source: &mut S,
    sink: &mut W,
) -> Result<(), FileFault>
    requires source_clean { S.has_failed source.old ≡ false }
    requires sink_clean { W.has_failed sink.old ≡ false }

    // Given the bytes of the source, the lines of the records before the first fault are written,
    // and nothing else.
    ensures output { (bytes : List ℕ) (was : List ℕ)
        → S.left source.old ≡ Some bytes → W.written sink.old ≡ Some was
        → Follows letters follower.old bytes was (S.left source.new) (W.written sink.new) result }

    // A failed read is reported only if the source failed, and a failed write exactly if the sink
    // failed. After a failure of the source one of the two is reported.
    ensures read_failed { is_read_failed result ≡ true → S.has_failed source.new ≡ true }
    ensures write_failed { W.has_failed sink.new ≡ is_write_failed result }
    ensures blamed { S.has_failed source.new ≡ true → (is_read_failed result || is_write_failed result) ≡ true }

    // Reads a source that gives all it can at most once for each 4 KiB, and once more; any source
    // at most once for each byte, and once more.
    ensures reads { (bytes : List ℕ) → S.left source.old ≡ Some bytes
        → S.reads source.old ≤ S.reads source.new + reads_for S.gives_all (length bytes) + 1 }

    // Writes to a sink that takes all it can at most once for each 4 KiB, and twice more.
    ensures writes { (was : List ℕ) (now : List ℕ) → W.takes_all ≡ true
        → W.written sink.old ≡ Some was → W.written sink.new ≡ Some now
        → W.writes sink.old ≤ W.writes sink.new + (length now - length was) / LEAST_PIECE + 2 }
{
    let mut pass = Following {
        letters,
        follower,
        message: Bits::new(),
    };
    match pass_through(&mut pass, source, sink) {
        Ok(_) => Ok(()),
        Err(fault) => Err(fault),
    }
}

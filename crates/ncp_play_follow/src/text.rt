//! `follow_text`: the text of one connection of a file, as bytes.
ghost use Rattle.std.specs.Prelude.{◌≡◌, ℕ, ◌+◌, ◌-◌, ◌*◌, ◌/◌, ◌≤◌, ◌||◌, ◌++◌, [], List, Some, true, false, length, is_err, option_map, OnOk};
ghost use Rattle.ncp_numbers.specs.Bytes.{bytes_of};
ghost use Rattle.ncp_follow.specs.Connections.{connection_text};
ghost use Rattle.ncp_play_stream.specs.Pieces.{reads_for, lost_pieces};
ghost use Rattle.ncp_play_buffer.specs.BufferedSinks.{SameOutlet, write_failed, write_budget, RendersOrBreaks};
ghost use Rattle.ncp_play_files.specs.Passes.{names_hosts};
ghost use Rattle.ncp_play_files.specs.Results.{is_read_failed, is_write_failed};
ghost use Rattle.ncp_play_follow.specs.FollowedTexts.{whole_bits, bits_left_over, text_pass, FollowsText};

use crate::following::{host_of, is_sent};
use ncp_bits::{Bits, MAX_BITS, Part};
use ncp_follow::{Connection, Follower};
use ncp_play_buffer::{BufferedSink, Counter, OutBuffer, PAGE_SIZE};
use ncp_play_files::{CapturePoint, FileEnd, FileFault, Pass, Version, pass_through};
use ncp_play_stream::{Failed, LEAST_PIECE, Sink, Source};
use std::marker::Model;

// The number of bits of a byte.
const BYTE: usize = 8;

// The maximum number of bits of a text that are rendered at once, which leaves room for spare bits
// before them; and their number of bytes.
const MOST_BITS: usize = MAX_BITS - BYTE;

const MOST_BYTES: usize = MAX_BITS / BYTE;

// Appends the bytes of bits.
fn push_part(page: &mut OutBuffer, part: &Part<'_>)
    requires { length page.old + MOST_BYTES ≤ PAGE_SIZE }
    ensures bytes { page.new ≡ page.old ++ bytes_of part.now }
    ensures len { length page.new ≤ length page.old + MOST_BYTES }
{
    let mut bytes = [0u8; MOST_BYTES];
    let used = &mut bytes[..part.len().div_ceil(BYTE)];
    part.to_bytes(used);
    page.push_text(used);
}

// Bits that are no whole byte yet.
#[derive(Drop)]
struct Spare {
    bits: Bits,
}

impl Model for Spare {
    ghost use Rattle.std.specs.Prelude.{◌<◌, List, Bool, length};

    ghost Value = { List Bool };

    ghost view = { λ spare. spare.bits };

    ghost invariant = { λ spare. length spare.bits < 8 };
}

impl Spare {
    // No bits.
    fn new() -> Self
        ensures { result ≡ [] }
    {
        Spare { bits: Bits::new() }
    }

    // These bits.
    fn whole(&self) -> Part<'_>
        ensures { result ≡ self.now }
    {
        self.bits.whole()
    }

    // Appends the whole bytes of the spare bits and the bits after them. The remaining bits, less
    // than a byte, become spare.
    fn push(&mut self, page: &mut OutBuffer, text: Part<'_>)
        requires fits { length text ≤ MOST_BITS }
        requires room { length page.old + MOST_BYTES ≤ PAGE_SIZE }
        ensures bytes { page.new ≡ page.old ++ bytes_of (whole_bits (self.old ++ text.entry)) }
        ensures spare { self.new ≡ bits_left_over (self.old ++ text.entry) }
        ensures len { length page.new ≤ length page.old + MOST_BYTES }
    {
        self.bits.append(text).unwrap();
        let count = BYTE * (self.bits.len() / BYTE);
        push_part(page, &self.bits.slice(0, count));
        self.bits = self.bits.slice(count, self.bits.len() - count).to_bits();
    }
}

// Renders the bits of a text: its whole bytes; the remaining bits become spare.
fn render_bits<W: Sink>(
    out: &mut BufferedSink<'_, W>,
    spare: &mut Spare,
    text: &Part<'_>,
) -> Result<(), Failed>
    ensures output { RendersOrBreaks W.Sink out.old (bytes_of (whole_bits (spare.old ++ text.now))) result out.new }
    ensures spare { OnOk result (spare.new ≡ bits_left_over (spare.old ++ text.now)) }
    ensures writes { write_budget W.Sink out.old ≤ write_budget W.Sink out.new + lost_pieces (is_err result) }
    ensures mark { write_failed W.Sink out.new ≡ (write_failed W.Sink out.old || is_err result) }
    ensures same_outlet { SameOutlet out.old out.new }
{
    out.make_room(2 * MOST_BYTES)?;
    let front = text.len().min(MOST_BITS);
    spare.push(out.page, text.slice(0, front));
    spare.push(out.page, text.slice(front, text.len() - front));
    Ok(())
}

// Renders the text of a connection; of none, as if it were empty.
fn render_text<W: Sink>(
    out: &mut BufferedSink<'_, W>,
    spare: &mut Spare,
    connection: Option<&Connection>,
) -> Result<(), Failed>
    ensures output { RendersOrBreaks W.Sink out.old (bytes_of (whole_bits (spare.old ++ connection_text (option_map (λ one. one.now) connection.entry)))) result out.new }
    ensures spare { OnOk result (spare.new ≡ bits_left_over (spare.old ++ connection_text (option_map (λ one. one.now) connection.entry))) }
    ensures writes { write_budget W.Sink out.old ≤ write_budget W.Sink out.new + lost_pieces (is_err result) }
    ensures mark { write_failed W.Sink out.new ≡ (write_failed W.Sink out.old || is_err result) }
    ensures same_outlet { SameOutlet out.old out.new }
{
    match connection {
        Some(connection) => render_bits(out, spare, &connection.text.whole()),
        None => render_bits(out, spare, &Bits::new().whole()),
    }
}

/// The pass of `follow --bytes`: the number of the wanted connection, the follower, in which its
/// text is empty, its bits that are no whole byte yet, and room for a message.
#[derive(Drop)]
pub(crate) struct Texting<'a> {
    wanted: u32,
    follower: &'a mut Follower,
    spare: Spare,
    message: Bits,
}

impl Pass for Texting<'_> {
    ghost rules = { text_pass };

    fn reads(version: Version) -> bool
        ensures { result ≡ names_hosts version }
    {
        matches!(version, Version::Two)
    }

    fn is_prompt() -> bool
        ensures { result ≡ false }
    {
        false
    }

    fn record<W: Sink>(
        &mut self,
        out: &mut BufferedSink<'_, W>,
        capture_point: CapturePoint,
        number: &Counter,
        message: Part<'_>,
    ) -> Result<(), Failed> {
        self.message.copy_from_part(message);
        self.follower.hear(
            number.number(),
            is_sent(capture_point.direction),
            host_of(capture_point.at),
            &self.message,
        );
        let connection = self.follower.connection(self.wanted);
        render_text(out, &mut self.spare, connection)?;
        self.follower.forget_text(self.wanted);
        Ok(())
    }

    fn close<W: Sink>(&self, out: &mut BufferedSink<'_, W>, _end: FileEnd) -> Result<(), Failed> {
        out.make_room(MOST_BYTES)?;
        push_part(out.page, &self.spare.whole());
        Ok(())
    }

    fn is_good(&self) -> bool {
        self.follower.connection(self.wanted).is_some()
    }
}

/// Writes the text of the connection with the number `wanted` of a message file of version 2, by
/// the records up to its first fault. Returns that fault, if there is one, or whether there is such
/// a connection. Connections are counted from 1, in the order of opening; if there is none with
/// this number, nothing is written. The text is that of `follow`, but whole: its bits joined, eight
/// a byte, with the spare bits of the last byte zero.
///
/// A file of version 1 names no host at whose interface its messages were captured: its header is a
/// `BadHeader`.
///
/// Does not allocate. Reads the file once, and reads and writes at least 4 KiB at a time. After a
/// failed read the text of the records read whole is written; after a failed write a prefix of the
/// text is.
pub fn follow_text<S: Source, W: Sink>(
    follower: &mut Follower,
    wanted: u32,
    source: &mut S,
    sink: &mut W,
) -> Result<bool, FileFault>
    requires source_clean { S.has_failed source.old ≡ false }
    requires sink_clean { W.has_failed sink.old ≡ false }

    // Given the bytes of the source, the text of the records before the first fault is written, and
    // nothing else.
    ensures output { (bytes : List ℕ) (was : List ℕ)
        → S.left source.old ≡ Some bytes → W.written sink.old ≡ Some was
        → FollowsText wanted follower.old bytes was (S.left source.new) (W.written sink.new) result }

    // A failed read is reported only if the source failed, and a failed write exactly if the sink
    // failed. After a failure of the source one of the two is reported.
    ensures read_failed { is_read_failed result ≡ true → S.has_failed source.new ≡ true }
    ensures write_failed { W.has_failed sink.new ≡ is_write_failed result }
    ensures blamed { S.has_failed source.new ≡ true → (is_read_failed result || is_write_failed result) ≡ true }

    // Reads a source that gives all it can at most once for each 4 KiB, and once more; any source
    // at most once for each byte, and once more.
    ensures reads { (bytes : List ℕ) → S.left source.old ≡ Some bytes
        → S.reads source.old ≤ S.reads source.new + reads_for S.gives_all (length bytes) + 1 }

    // Writes to a sink that takes all it can at most once for each 4 KiB, and twice more.
    ensures writes { (was : List ℕ) (now : List ℕ) → W.takes_all ≡ true
        → W.written sink.old ≡ Some was → W.written sink.new ≡ Some now
        → W.writes sink.old ≤ W.writes sink.new + (length now - length was) / LEAST_PIECE + 2 }
{
    follower.forget_text(wanted);
    let mut pass = Texting {
        wanted,
        follower,
        spare: Spare::new(),
        message: Bits::new(),
    };
    pass_through(&mut pass, source, sink)
}

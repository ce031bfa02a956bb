//! `BufferedSink`: an out buffer with its sink.
ghost use Rattle.std.specs.Prelude.{◌≡◌, ◌+◌, ◌≤◌, ◌||◌, false, true, [], length, is_err, OnOk, OnErr};
ghost use Rattle.ncp_play_stream.specs.Pieces.{lost_pieces, unpaid};
ghost use Rattle.ncp_play_buffer.specs.BufferedSinks.{SameOutlet, write_failed, write_budget, RendersAll, RendersPart};

use crate::out_buffer::{OutBuffer, PAGE_SIZE};
use ncp_play_stream::{Failed, LEAST_PIECE, Sink};

/// An out buffer and the sink that it is written to, both borrowed for one call. The owner gets the
/// same two back afterwards (clause `same_outlet`).
#[derive(Drop)]
pub struct BufferedSink<'a, W> {
    /// The bytes not yet written.
    pub page: &'a mut OutBuffer,

    /// The sink that they are written to.
    pub sink: &'a mut W,
}

impl<W: Sink> BufferedSink<'_, W> {
    /// Makes room for `count` bytes, by [`OutBuffer::make_room`].
    #[inline(always)]
    pub fn make_room(&mut self, count: usize) -> Result<(), Failed>
        requires { count + LEAST_PIECE ≤ PAGE_SIZE }
        ensures room { OnOk result (length self.new.page.now + count ≤ PAGE_SIZE) }
        ensures ok { OnOk result (RendersAll W.Sink self.old [] self.new) }
        ensures err { OnErr result (RendersPart W.Sink self.old [] self.new) }
        ensures writes { write_budget W.Sink self.old ≤ write_budget W.Sink self.new + lost_pieces (is_err result) }
        ensures mark { write_failed W.Sink self.new ≡ (write_failed W.Sink self.old || is_err result) }
        ensures same_outlet { SameOutlet self.old self.new }
    {
        self.page.make_room(self.sink, count)
    }

    /// Writes the buffer and empties it, by [`OutBuffer::flush`].
    #[inline(always)]
    pub fn flush(&mut self) -> Result<(), Failed>
        ensures ok { OnOk result ((self.new.page.now ≡ []) × RendersAll W.Sink self.old [] self.new) }
        ensures err { OnErr result (RendersPart W.Sink self.old [] self.new) }
        ensures one { OnOk result (write_budget W.Sink self.old + unpaid false self.old.page.now ≤ write_budget W.Sink self.new + LEAST_PIECE) }
        ensures writes { write_budget W.Sink self.old + unpaid false self.old.page.now ≤ write_budget W.Sink self.new + lost_pieces true }
        ensures mark { write_failed W.Sink self.new ≡ (write_failed W.Sink self.old || is_err result) }
        ensures same_outlet { SameOutlet self.old self.new }
    {
        self.page.flush(self.sink)
    }
}

//! `Sink`: a destination of bytes.
ghost use Rattle.std.specs.Prelude.{◌≡◌, ℕ, ◌+◌, ◌<◌, ◌≤◌, ◌||◌, Bool, List, Option, true, false, min, length, is_err, IfOk};
ghost use Rattle.std.specs.Io.KnownBytes.{WriteAppends};

use crate::source::Failed;
use std::io::Write;

/// A destination of bytes.
pub trait Sink {
    /// The bytes that were written, if the sink reports them.
    ghost written: { Self → Option (List ℕ) };

    /// Whether each write takes as much as it can: the whole piece, or all that there is room for.
    ghost takes_all: { Bool } = { false };

    /// The number of bytes that there is room for, if each write takes as much as it can.
    ghost room: { Self → ℕ } = { λ _. 0 };

    /// The number of counted writes left. A write counts at most once.
    ghost writes: { Self → ℕ } = { λ _. 0 };

    /// Whether a write has failed.
    ghost has_failed: { Self → Bool };

    /// Writes a prefix of the piece and returns its length: at least 1 if the piece is not empty.
    fn write(&mut self, piece: &[u8]) -> Result<usize, Failed>
        ensures count { IfOk result (λ count. count ≤ length piece.now) }
        ensures some { IfOk result (λ count. 0 < length piece.now → 0 < count) }
        ensures bytes { WriteAppends (written self.old) (written self.new) result piece.now }
        ensures all { takes_all ≡ true → IfOk result (λ count. count ≡ min (length piece.now) (room self.old)) }
        ensures room { takes_all ≡ true → IfOk result (λ count. room self.new + count ≡ room self.old) }
        ensures counted { writes self.old ≤ writes self.new + 1 }
        ensures mark { has_failed self.new ≡ (has_failed self.old || is_err result) };

    /// Whether a write has failed.
    fn failed(&self) -> bool
        ensures { result ≡ has_failed self.now };
}

/// Writes to a [`Write`]. A write that takes no byte of a nonempty piece has failed.
#[derive(Drop)]
pub struct ToWrite<W> {
    writer: W,
    failed: bool,
}

impl<W: Write> ToWrite<W> {
    /// A sink that writes to the writer.
    pub fn new(writer: W) -> Self
        ensures { result ≡ record { writer = writer; failed = false } }
    {
        ToWrite {
            writer,
            failed: false,
        }
    }
}

impl<W: Write> Sink for ToWrite<W> {
    ghost written = { λ sink. W.contents sink.writer };

    ghost has_failed = { λ sink. sink.failed };

    fn write(&mut self, piece: &[u8]) -> Result<usize, Failed> {
        match self.writer.write(piece) {
            Ok(count) if count > 0 || piece.is_empty() => Ok(count),
            _ => {
                self.failed = true;
                Err(Failed)
            }
        }
    }

    fn failed(&self) -> bool {
        self.failed
    }
}

//! `Source`: an origin of bytes.
ghost use Rattle.std.specs.Prelude.{◌≡◌, ℕ, ◌-◌, ◌<◌, ◌≤◌, ◌||◌, Bool, List, Option, true, false, min, length, is_err, IsErr, IfOk, IfSome};
ghost use Rattle.std.specs.Io.KnownBytes.{ReadConsumes};

use std::io::Read;
use thiserror::Error;

/// The minimum size, in bytes, of the pieces that a file is read into and that lines are written
/// in. A piece that is written before waiting for input, or at the end, may be smaller.
pub const LEAST_PIECE: usize = 4096;

/// A read or a write failed.
#[derive(Clone, Copy, Debug, Drop, PartialEq, Eq, Error)]
#[error("a read or a write failed")]
pub struct Failed;

/// An origin of bytes.
pub trait Source {
    /// The bytes that are left, if the source reports them.
    ghost left: { Self → Option (List ℕ) };

    /// Whether each read returns as much as it can: as many bytes as the piece has room for, or all
    /// that are left.
    ghost gives_all: { Bool } = { false };

    /// The number of reads left. It bounds a loop that reads to the end.
    ghost reads: { Self → ℕ };

    /// Whether a read has failed.
    ghost has_failed: { Self → Bool };

    /// Reads bytes into the front of the piece and returns their number: 0 only if the piece is
    /// empty or no byte is left.
    fn read(&mut self, piece: &mut [u8]) -> Result<usize, Failed>
        ensures count { IfOk result (λ count. count ≤ length piece.new) }
        ensures bytes { ReadConsumes (left self.old) (left self.new) result piece.new }
        ensures all { gives_all ≡ true → IfSome (left self.old) (λ bytes. IfOk result (λ count. count ≡ min (length piece.old) (length bytes))) }
        ensures lowers { 0 < length piece.old → reads self.new ≡ reads self.old - 1 }
        ensures stays { length piece.old ≡ 0 → reads self.new ≡ reads self.old }
        ensures spent { 0 < length piece.old → reads self.old ≡ 0 → IsErr result }
        ensures mark { has_failed self.new ≡ (has_failed self.old || is_err result) };

    /// Whether a read has failed.
    fn failed(&self) -> bool
        ensures { result ≡ has_failed self.now };

    /// Notifies the source that a reader of a message file found a fault, after `_records` records,
    /// with `_ahead` bytes read and not yet consumed. Reading is unaffected; a source may keep the
    /// numbers for a diagnostic.
    fn stopped(&mut self, _records: u32, _ahead: usize)
        ensures left { left self.new ≡ left self.old }
        ensures reads { reads self.new ≡ reads self.old }
        ensures mark { has_failed self.new ≡ has_failed self.old }
    {}
}

/// Calls [`Source::stopped`] if a reader of a message file found a fault.
#[inline(always)]
pub fn stop_at_fault<S: Source, X, E>(
    source: &mut S,
    found: &Result<X, E>,
    records: u32,
    ahead: usize,
)
    ensures left { S.left source.new ≡ S.left source.old }
    ensures reads { S.reads source.new ≡ S.reads source.old }
    ensures mark { S.has_failed source.new ≡ S.has_failed source.old }
{
    if found.is_err() {
        source.stopped(records, ahead);
    }
}

/// Reads from a [`Read`], at most 4,294,967,295 times.
#[derive(Drop)]
pub struct FromRead<R> {
    reader: R,
    reads: u32,
    failed: bool,
}

impl<R: Read> FromRead<R> {
    /// A source of the reader's bytes.
    pub fn new(reader: R) -> Self
        ensures { result ≡ record { reader = reader; reads = u32.MAX; failed = false } }
    {
        FromRead {
            reader,
            reads: u32::MAX,
            failed: false,
        }
    }
}

impl<R: Read> Source for FromRead<R> {
    ghost left = { λ source. R.remaining source.reader };

    ghost reads = { λ source. source.reads };

    ghost has_failed = { λ source. source.failed };

    fn read(&mut self, piece: &mut [u8]) -> Result<usize, Failed> {
        if !piece.is_empty() {
            if self.reads == 0 {
                self.failed = true;
                return Err(Failed);
            }
            self.reads -= 1;
        }
        match self.reader.read(piece) {
            Ok(count) => Ok(count),
            Err(_) => {
                self.failed = true;
                Err(Failed)
            }
        }
    }

    fn failed(&self) -> bool {
        self.failed
    }
}

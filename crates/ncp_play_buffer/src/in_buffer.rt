//! `InBuffer`: bytes read ahead from a source.
ghost use Rattle.std.specs.Prelude.{◌≡◌, ℕ, List, ◌++◌, ◌+◌, ◌-◌, ◌<◌, ◌≤◌, ◌||◌, true, false, [], length, take, drop, slice_range, is_err, IfOk, OnErr};
ghost use Rattle.std.specs.Io.KnownBytes.{IsAtEnd};
ghost use Rattle.ncp_play_stream.specs.Pieces.{reads_beyond};
ghost use Rattle.ncp_play_stream.specs.Streams.{Moves};
ghost use Rattle.ncp_play_buffer.specs.InBuffers.{read_measure};

use ncp_play_stream::{Failed, LEAST_PIECE, Source};
use std::marker::Model;

/// The capacity of an in buffer, in bytes.
pub const WINDOW_SIZE: usize = 16384;

/// The bytes that were read from a source and not yet consumed.
#[derive(Drop)]
pub struct InBuffer {
    bytes: [u8; WINDOW_SIZE],
    from: usize,
    to: usize,
}

impl Model for InBuffer {
    ghost use Rattle.std.specs.Prelude.{ℕ, List, ◌≤◌, slice_range};
    ghost use Rattle.ncp_play_buffer.specs.declared.in_buffer.TheConstants.{WINDOW_SIZE};

    ghost Value = { List ℕ };

    ghost view = { λ window. slice_range window.bytes window.from window.to };

    ghost invariant = { λ window. (window.from ≤ window.to) × (window.to ≤ WINDOW_SIZE) };
}

// Moves the bytes from `from` to `to` to the front.
fn move_to_front(bytes: &mut [u8], from: usize, to: usize)
    requires inside { from ≤ to }
    requires fits { to ≤ length bytes.old }
    ensures { take (to - from) bytes.new ≡ slice_range bytes.old from to }
{
    bytes.copy_within(from..to, 0);
}

impl InBuffer {
    /// An empty buffer.
    pub fn new() -> Self
        ensures { result ≡ [] }
    {
        InBuffer {
            bytes: [0; WINDOW_SIZE],
            from: 0,
            to: 0,
        }
    }

    /// The bytes not yet consumed.
    pub fn unread(&self) -> &[u8]
        ensures bytes { result.now ≡ self.now }
        ensures fits { length result.now ≤ WINDOW_SIZE }
    {
        &self.bytes[self.from..self.to]
    }

    /// Consumes the first `count` bytes. The buffer must hold that many.
    pub fn skip(&mut self, count: usize)
        requires { count ≤ length self.old }
        ensures { self.new ≡ drop count self.old }
    {
        self.from += count;
    }

    // Reads once, appending to the buffer, and returns whether a byte arrived. Not inlined into the
    // loops that read records, as few records need it.
    #[inline(never)]
    fn refill<S: Source>(&mut self, source: &mut S) -> Result<bool, Failed>
        requires { length self.old + LEAST_PIECE ≤ WINDOW_SIZE }
        ensures moved { Moves self.old (S.left source.old) self.new (S.left source.new) }
        ensures grows { (piece : List ℕ) × (self.new ≡ self.old ++ piece) }
        ensures more { IfOk result (λ more. more ≡ true → length self.old < length self.new) }
        ensures none { IfOk result (λ more. more ≡ false → (self.new ≡ self.old) × IsAtEnd (S.left source.new)) }
        ensures err { OnErr result (self.new ≡ self.old) }
        ensures reads { reads_beyond S.gives_all (S.reads source.old) (S.left source.old) ≤ reads_beyond S.gives_all (S.reads source.new) (S.left source.new) + 1 }
        ensures taken { IfOk result (λ more. more ≡ true → reads_beyond S.gives_all (S.reads source.old) (S.left source.old) ≤ reads_beyond S.gives_all (S.reads source.new) (S.left source.new)) }
        ensures read_measure { read_measure (S.reads source.new) self.new ≤ read_measure (S.reads source.old) self.old }
        ensures lowers { S.reads source.new ≡ S.reads source.old - 1 }
        ensures read { IfOk result (λ more. S.reads source.new < S.reads source.old) }
        ensures mark { S.has_failed source.new ≡ (S.has_failed source.old || is_err result) }
    {
        move_to_front(&mut self.bytes, self.from, self.to);
        self.to -= self.from;
        self.from = 0;
        let count = source.read(&mut self.bytes[self.to..])?;
        self.to += count;
        Ok(count > 0)
    }

    /// Reads until the buffer holds `count` bytes, and returns whether it does; if not, the source
    /// is at its end. `count` is at most [`WINDOW_SIZE`] less [`LEAST_PIECE`].
    #[inline(always)]
    pub fn need<S: Source>(&mut self, source: &mut S, count: usize) -> Result<bool, Failed>
        requires { count + LEAST_PIECE ≤ WINDOW_SIZE }
        ensures moved { Moves self.old (S.left source.old) self.new (S.left source.new) }
        ensures grows { (piece : List ℕ) × (self.new ≡ self.old ++ piece) }
        ensures there { IfOk result (λ there. there ≡ true → count ≤ length self.new) }
        ensures short { IfOk result (λ there. there ≡ false → (length self.new < count) × IsAtEnd (S.left source.new)) }
        ensures err { OnErr result (length self.new < count) }
        ensures reads { reads_beyond S.gives_all (S.reads source.old) (S.left source.old) ≤ reads_beyond S.gives_all (S.reads source.new) (S.left source.new) + 1 }
        ensures taken { IfOk result (λ there. there ≡ true → reads_beyond S.gives_all (S.reads source.old) (S.left source.old) ≤ reads_beyond S.gives_all (S.reads source.new) (S.left source.new)) }
        ensures read_measure { read_measure (S.reads source.new) self.new ≤ read_measure (S.reads source.old) self.old }
        ensures lowers { S.reads source.new ≤ S.reads source.old }
        ensures unread { IfOk result (λ there. S.reads source.new ≡ S.reads source.old → self.new ≡ self.old) }
        ensures mark { S.has_failed source.new ≡ (S.has_failed source.old || is_err result) }
    {
        while self.unread().len() < count {
            if !self.refill(source)? {
                return Ok(false);
            }
        }
        Ok(true)
    }
}

//! Streams of tests: a source and a sink in memory that can transfer one byte at a time, so that a
//! reader or writer over them meets the end of a piece after each byte.
//!
//! - *Use:* `Bytewise { source: MemorySource::new(bytes, None), is_slow: true }`.
//! - *Proved:* they satisfy the contracts of `Source` and `Sink`.
//! - *Tests:* `ncp_test_files` and `ncp_test_play` read and write through them.
#![tactic(auto)]

use ncp_play_stream::{Failed, MemorySink, MemorySource, Sink, Source};

/// Reads one byte at a time if `is_slow`.
#[derive(Drop)]
pub struct Bytewise<'a> {
    pub source: MemorySource<'a>,
    pub is_slow: bool,
}

impl Source for Bytewise<'_> {
    ghost use Rattle.std.specs.Prelude.{Some};

    ghost left = { λ slow. Some slow.source.left };

    ghost reads = { λ slow. slow.source.reads };

    ghost has_failed = { λ slow. slow.source.failed };

    fn read(&mut self, piece: &mut [u8]) -> Result<usize, Failed> {
        if !self.is_slow {
            return self.source.read(piece);
        }
        let end = piece.len().min(1);
        self.source.read(&mut piece[..end])
    }

    fn failed(&self) -> bool {
        self.source.failed()
    }
}

/// Writes one byte at a time if `is_slow`.
#[derive(Drop)]
pub struct Piecemeal {
    pub sink: MemorySink,
    pub is_slow: bool,
}

impl Sink for Piecemeal {
    ghost use Rattle.std.specs.Prelude.{Some};

    ghost written = { λ slow. Some slow.sink.written };

    ghost has_failed = { λ slow. slow.sink.failed };

    fn write(&mut self, piece: &[u8]) -> Result<usize, Failed> {
        if !self.is_slow {
            return self.sink.write(piece);
        }
        self.sink.write(&piece[..piece.len().min(1)])
    }

    fn failed(&self) -> bool {
        self.sink.failed()
    }
}

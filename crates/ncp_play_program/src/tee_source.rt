//! `TeeSource`: a source that stores part of what is read.
ghost use Rattle.std.specs.Prelude.{◌≡◌, ℕ, ◌-◌, ◌<◌, ◌≤◌, ◌||◌, Bool, true, min, length, is_err, IsErr, IfOk, IfSome};
ghost use Rattle.std.specs.Io.KnownBytes.{ReadConsumes};

use crate::input_tail::InputTail;
use ncp_play_stream::{Failed, Source};

/// A source, and the stored part of its bytes.
#[derive(Drop)]
pub(crate) struct TeeSource<S> {
    pub source: S,
    pub kept: InputTail,
}

impl<S: Source> Source for TeeSource<S> {
    ghost left = { λ watched. S.left watched.source };

    ghost gives_all = { S.gives_all };

    ghost reads = { λ watched. S.reads watched.source };

    ghost has_failed = { λ watched. S.has_failed watched.source };

    fn read(&mut self, piece: &mut [u8]) -> Result<usize, Failed> {
        let count = self.source.read(piece)?;
        self.kept.add(&piece[..count]);
        Ok(count)
    }

    fn failed(&self) -> bool {
        self.source.failed()
    }

    fn stopped(&mut self, records: u32, ahead: usize) {
        self.kept.stop(records, ahead);
    }
}

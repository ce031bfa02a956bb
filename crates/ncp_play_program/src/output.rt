//! `Output`: a sink that knows whether its reader is gone.
ghost use Rattle.std.specs.Prelude.{◌≡◌, false};

use ncp_play_stream::{Failed, Sink};
use std::io::{ErrorKind, Write};

/// Writes to a [`Write`], as `ncp_play_stream::ToWrite` does. It distinguishes a failed write into
/// a pipe whose reader is gone.
#[derive(Drop)]
pub struct Output<W> {
    writer: W,
    failed: bool,
    closed: bool,
}

impl<W: Write> Output<W> {
    /// A sink into the writer.
    pub fn new(writer: W) -> Self
        ensures { result ≡ record { writer = writer; failed = false; closed = false } }
    {
        Output {
            writer,
            failed: false,
            closed: false,
        }
    }

    /// Whether a write failed because the reader is gone.
    pub fn is_closed(&self) -> bool
        ensures { result ≡ self.now.closed }
    {
        self.closed
    }
}

impl<W: Write> Sink for Output<W> {
    ghost written = { λ sink. W.contents sink.writer };

    ghost has_failed = { λ sink. sink.failed };

    fn write(&mut self, piece: &[u8]) -> Result<usize, Failed> {
        match self.writer.write(piece) {
            Ok(count) if count > 0 || piece.is_empty() => Ok(count),
            Ok(_) => {
                self.failed = true;
                Err(Failed)
            }
            Err(error) => {
                self.failed = true;
                self.closed = matches!(error.kind(), ErrorKind::BrokenPipe);
                Err(Failed)
            }
        }
    }

    fn failed(&self) -> bool {
        self.failed
    }
}

//! Plays a script byte by byte.
use ncp_bits::PackedStore;
use ncp_play_host::play_host;
use ncp_play_notes::PlayFault;
use ncp_play_stream::{MemorySink, MemorySource, Sink, Source};
use ncp_test_streams::{Bytewise, Piecemeal};
use std::alloc::Global;
use std::test::Fail;

/// Room for the lines of a script.
pub(crate) const ROOM: usize = 16384;

/// The result of playing a script, and the bytes written.
#[derive(Drop)]
pub(crate) struct Played {
    pub(crate) answer: Option<Result<bool, PlayFault>>,
    sink: Piecemeal,
}

impl Played {
    /// Whether this is the result, and the first `len` bytes of the text were written.
    pub(crate) fn is(&self, answer: Result<bool, PlayFault>, len: usize, text: &[u8]) -> bool {
        let written = self.sink.sink.bytes();
        self.answer == Some(answer) && written.len() == len && text.starts_with(written)
    }
}

/// Plays a script byte by byte. The n-th read or write can be made to fail.
pub(crate) fn play(
    alloc: Global,
    script: &[u8],
    failing_read: Option<u32>,
    failing_write: Option<u32>,
) -> Result<Played, Fail> {
    let mut source = Bytewise {
        source: MemorySource::new(script, failing_read),
        is_slow: true,
    };
    let mut sink = Piecemeal {
        sink: MemorySink::new(alloc, ROOM, failing_write)?,
        is_slow: true,
    };
    let answer = if source.failed() || sink.failed() {
        None
    } else {
        Some(play_host::<PackedStore, _, _>(alloc, &mut source, &mut sink))
    };
    Ok(Played { answer, sink })
}

//! Feeds a host. Without contracts, so that the prover does not follow an out buffer through a long
//! test.
mod failures;

use ncp_bits::PackedStore;
use ncp_play_buffer::{BufferedSink, BufferedSource, InBuffer, OutBuffer};
use ncp_play_feed::feed;
use ncp_play_notes::{LineHost, LinePrefix, PlayFault};
use ncp_play_stream::{MemorySink, MemorySource, Sink, Source};
use ncp_transcript::Alone;
use std::alloc::Global;
use std::test::Fail;

/// Room for the lines of a feed.
const ROOM: usize = 65536;

/// The host of the feeds, and its peers.
const ME: u8 = 1;

const PEERS: [u8; 2] = [2, 3];

/// The number of the first note.
const FIRST: u32 = 7;

/// Feeds a new host the rest of a source: returns the result, and the out buffer with its unwritten
/// bytes.
fn fed_to_page<R: Source, W: Sink>(
    alloc: Global,
    source: &mut R,
    sink: &mut W,
) -> Result<(Result<(), PlayFault>, OutBuffer), Fail> {
    let mut alone = Alone::<PackedStore>::new(alloc, ME, &PEERS)?;
    let mut heading = LinePrefix {
        number: FIRST,
        speaker: LineHost::Host,
    };
    let mut window = InBuffer::new();
    let mut page = OutBuffer::new();
    let mut input = BufferedSource {
        window: &mut window,
        source,
    };
    let mut out = BufferedSink {
        page: &mut page,
        sink,
    };
    let answer = feed(&mut alone, &mut heading, &mut input, &mut out);
    Ok((answer, page))
}

/// Feeds a new host the rest of a source, and writes the rest of the out buffer.
fn fed<R: Source, W: Sink>(
    alloc: Global,
    source: &mut R,
    sink: &mut W,
) -> Result<Result<(), PlayFault>, Fail> {
    let (answer, mut page) = fed_to_page(alloc, source, sink)?;
    if !sink.failed() && page.flush(sink).is_err() {
        return Ok(Err(PlayFault::WriteFailed));
    }
    Ok(answer)
}

//! Renders a note. Without contracts, so that the prover does not follow an out buffer through a
//! long test.
use ncp_play_buffer::{BufferedSink, OutBuffer};
use ncp_play_notes::{LineHost, LinePrefix, PlayFault, render_note};
use ncp_play_stream::MemorySink;
use ncp_transcript::HostNote;
use std::alloc::Global;
use std::process::Abort;
use std::test::Fail;

/// Room for the lines of a note.
const ROOM: usize = 16384;

/// The lines of a note with this line prefix.
fn said(alloc: Global, heading: LinePrefix, note: &HostNote) -> Option<MemorySink> {
    let mut page = OutBuffer::new();
    let mut sink = MemorySink::new(alloc, ROOM, None).ok()?;
    let mut out = BufferedSink {
        page: &mut page,
        sink: &mut sink,
    };
    render_note(&mut out, heading, note).ok()?;
    out.flush().ok()?;
    Some(sink)
}

/// Whether a one-host note with this number has these lines.
pub(crate) fn is_said(alloc: Global, number: u32, note: &HostNote, lines: &[u8]) -> bool {
    let heading = LinePrefix {
        number,
        speaker: LineHost::Host,
    };
    match said(alloc, heading, note) {
        Some(sink) => sink.bytes() == lines,
        None => false,
    }
}

/// Compares a fault's number and its printed line.
pub(crate) fn expect_told(
    rt: &impl Abort,
    alloc: Global,
    fault: PlayFault,
    number: u8,
    line: &[u8],
) -> Result<(), Fail> {
    let mut sink = MemorySink::new(alloc, ROOM, None)?;
    fault.tell(&mut sink)?;
    assert!(rt; fault.number() == number && sink.bytes() == line);
    Ok(())
}

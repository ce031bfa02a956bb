//! Captures of as many connections as an auditor keeps, and of one more.

use ncp_play_audit::{Auditor, audit};
use ncp_play_files::FileFault;
use ncp_play_stream::{MemorySink, MemorySource, Sink, Source};
use std::alloc::{AllocError, Global};
use std::process::Abort;
use std::test::Fail;

// Room for the lines of a capture.
const ROOM: usize = 4096;

// The number of connections kept.
const KEPT: u32 = 4096;

// Both hosts are up.
const BEGUN: &[u8] =
    b"NCPJ\x49\x01\x00\x50\x00\x02\x00\x00\x00\x08\x00\x01\x00\x0c\x48\x01\x00\x50\x00\x02\x00\x00\x00\x08\x00\x01\x00\x0d\x49\x01\x00\x20\x05\x02\x00\x00";

// Two ECOs of host 1.
const ECHOES: &[u8] =
    b"\x48\x01\x00\x58\x00\x02\x00\x00\x00\x08\x00\x02\x00\x09\x01\x49\x01\x00\x20\x05\x02\x00\x00\x48\x01\x00\x58\x00\x02\x00\x00\x00\x08\x00\x02\x00\x09\x02";

// After the reset host 2 requests `connections` connections, each with another local socket, and
// host 1 sends two ECOs.
fn overlapped(alloc: Global, connections: u32) -> Result<Vec<u8>, AllocError> {
    let mut file = Vec::new(alloc);
    file.extend_from_slice(BEGUN)?;
    for place in 0..connections {
        file.extend_from_slice(b"I\x01\x00\x98\x00\x02\x00\x00\x00\x08\x00\x0a\x00\x02")?;
        let socket = place.saturating_mul(2).saturating_add(1);
        file.extend_from_slice(&socket.to_be_bytes())?;
        file.extend_from_slice(b"\x00\x00\x00\x02\x08")?;
    }
    file.extend_from_slice(ECHOES)?;
    Ok(file)
}

// The result of `audit`, if no failure was recorded before. Without a contract, so that the prover
// need not follow it through a test.
fn audited<R: Source, W: Sink>(
    auditor: &mut Auditor,
    source: &mut R,
    sink: &mut W,
) -> Option<Result<bool, FileFault>> {
    if source.failed() || sink.failed() {
        return None;
    }
    Some(audit(auditor, false, source, sink))
}

// Whether an auditor prints these lines about a capture, with this result.
fn prints(
    alloc: Global,
    mut auditor: Auditor,
    file: &[u8],
    lines: &[u8],
    answer: Result<bool, FileFault>,
) -> Result<bool, Fail> {
    let mut sink = MemorySink::new(alloc, ROOM, None)?;
    let found = audited(&mut auditor, &mut MemorySource::new(file, None), &mut sink);
    Ok(found == Some(answer) && sink.bytes() == lines)
}

// Whether a capture has these findings and this result.
fn finds(
    alloc: Global,
    file: &[u8],
    lines: &[u8],
    answer: Result<bool, FileFault>,
) -> Result<bool, Fail> {
    prints(alloc, Auditor::new(alloc, false)?, file, lines, answer)
}

// Whether these lines follow with coverage, with this result.
fn covers(
    alloc: Global,
    strict: bool,
    file: &[u8],
    lines: &[u8],
    answer: Result<bool, FileFault>,
) -> Result<bool, Fail> {
    let auditor = Auditor::with_coverage(alloc, false, strict)?;
    prints(alloc, auditor, file, lines, answer)
}

#[test]
fn of_so_many_connections_all_is_judged(rt: HostRuntime) -> Result<(), Fail> {
    let file = overlapped(rt.alloc(), KEPT)?;
    let lines = b"4102 at=1 host=1 eco-again ECO data=2\n";
    assert!(rt; finds(rt.alloc(), file.as_slice(), lines, Ok(false))?);
    Ok(())
}

#[test]
fn of_one_more_nothing_is_judged(rt: HostRuntime) -> Result<(), Fail> {
    let file = overlapped(rt.alloc(), KEPT + 1)?;
    assert!(rt; finds(rt.alloc(), file.as_slice(), b"", Ok(true))?);
    Ok(())
}

#[test]
fn of_one_more_the_coverage_says_so(rt: HostRuntime) -> Result<(), Fail> {
    let file = overlapped(rt.alloc(), KEPT + 1)?;
    let lines = b"- judged 4103\n- at=1 host=2 not-judged connections\n";
    assert!(rt; covers(rt.alloc(), false, file.as_slice(), lines, Ok(true))?);
    assert!(rt; covers(rt.alloc(), true, file.as_slice(), lines, Ok(false))?);
    Ok(())
}

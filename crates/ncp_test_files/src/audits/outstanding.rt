//! A capture with more unacknowledged messages than an auditor keeps.

use ncp_play_audit::{Auditor, audit};
use ncp_play_files::FileFault;
use ncp_play_stream::{MemorySink, MemorySource, Sink, Source};
use std::alloc::{AllocError, Global};
use std::process::Abort;
use std::test::Fail;

// Room for a line of each two hosts.
const ROOM: usize = 1 << 18;

// The hosts whose interfaces are recorded: each sends to 255 others.
const SENDERS: u8 = 17;

// The first lines of coverage.
const FIRST: &[u8] =
    b"- judged 4335\n- at=1 host=0 not-judged messages\n- at=1 host=2 not-judged messages\n";

// Each of them resets with each other host, and nothing is answered.
fn outstanding(alloc: Global) -> Result<Vec<u8>, AllocError> {
    let mut file = Vec::new(alloc);
    file.extend_from_slice(b"NCPJ")?;
    for at in 1..=SENDERS {
        for peer in 0..=u8::MAX {
            if peer != at {
                file.extend_from_slice(&[b'H', at, 0, 0x50, 0, peer, 0, 0])?;
                file.extend_from_slice(b"\x00\x08\x00\x01\x00\x0c")?;
            }
        }
    }
    Ok(file)
}

// The result of `audit`, if no failure was recorded before. Without a contract, so that the prover
// need not follow it through a test.
fn audited<R: Source, W: Sink>(
    auditor: &mut Auditor,
    source: &mut R,
    sink: &mut W,
) -> Option<Result<bool, FileFault>> {
    if source.failed() || sink.failed() {
        return None;
    }
    Some(audit(auditor, false, source, sink))
}

// Whether it begins with these lines of coverage, with this result.
fn covers(
    alloc: Global,
    strict: bool,
    file: &[u8],
    answer: Result<bool, FileFault>,
) -> Result<bool, Fail> {
    let mut auditor = Auditor::with_coverage(alloc, false, strict)?;
    let mut sink = MemorySink::new(alloc, ROOM, None)?;
    let found = audited(&mut auditor, &mut MemorySource::new(file, None), &mut sink);
    Ok(found == Some(answer) && sink.bytes().starts_with(FIRST))
}

#[test]
fn of_too_many_messages_the_coverage_says_so(rt: HostRuntime) -> Result<(), Fail> {
    let file = outstanding(rt.alloc())?;
    assert!(rt; covers(rt.alloc(), false, file.as_slice(), Ok(true))?);
    assert!(rt; covers(rt.alloc(), true, file.as_slice(), Ok(false))?);
    Ok(())
}

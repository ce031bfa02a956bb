//! A feed with a failing read or write, each in turn.
use super::{ROOM, fed, fed_to_page};
use ncp_play_files::FileFault;
use ncp_play_notes::PlayFault;
use ncp_play_stream::{MemorySink, MemorySource, Sink, Source};
use ncp_test_streams::{Bytewise, Piecemeal};
use std::alloc::Global;
use std::test::Fail;

// An RST from host 2, which ends with the 16th byte, and an RFNM that answers no message, with the
// 22nd.
const FILE: &[u8] = b"NCPI\x00\x50\x00\x02\x00\x00\x00\x08\x00\x01\x00\x0c\x00\x20\x05\x02\x00\x00";

const LINES: &[u8] =
    b"7 in control 1\n8 in stray\n9 out host=2 link=0 bits=80\n  size=8 count=1\n  RRP\n10 out nothing\n";

// The message of the RFNM.
const STRAY: &[u8] = b"\x00\x20\x05\x02\x00\x00";

// The number of such messages in a feed larger than an in buffer, whose lines are larger than an
// out buffer.
const MANY: u32 = 4000;

// The result, and the number of bytes of lines written.
type Outcome = (Result<(), PlayFault>, usize);

// The outcome for the file if the read after its first `len` bytes fails.
fn outcome_of_front(len: usize) -> Outcome {
    const FAULT: Result<(), PlayFault> = Err(PlayFault::Feed(FileFault::ReadFailed));
    match len {
        0..16 => (FAULT, 0),
        16..22 => (FAULT, 15),
        22 => (FAULT, 26),
        _ => (Ok(()), LINES.len()),
    }
}

// The outcome if the write after the first `len` bytes of its lines fails.
fn outcome_of_written(len: usize) -> Outcome {
    if len < LINES.len() {
        (Err(PlayFault::WriteFailed), len)
    } else {
        (Ok(()), LINES.len())
    }
}

// Whether these bytes are the first `count` of the lines.
fn are_first(bytes: &[u8], count: usize) -> bool {
    bytes.len() == count && LINES.starts_with(bytes)
}

#[test]
fn a_feed_is_read_and_told_bytewise(rt: HostRuntime) -> Result<(), Fail> {
    let mut source = Bytewise {
        source: MemorySource::new(FILE, None),
        is_slow: true,
    };
    let mut sink = Piecemeal {
        sink: MemorySink::new(rt.alloc(), ROOM, None)?,
        is_slow: true,
    };
    let answer = fed(rt.alloc(), &mut source, &mut sink)?;
    assert!(rt; answer == Ok(()) && sink.sink.bytes() == LINES);
    Ok(())
}

// Feeds from a source whose n-th read fails, and compares the result and the bytes written.
fn is_fed_until_read(alloc: Global, count: u32, (wanted, len): Outcome) -> Result<bool, Fail> {
    let mut source = Bytewise {
        source: MemorySource::new(FILE, Some(count)),
        is_slow: true,
    };
    let mut sink = MemorySink::new(alloc, ROOM, None)?;
    let answer = fed(alloc, &mut source, &mut sink)?;
    Ok(
        answer == wanted
            && source.failed() == wanted.is_err()
            && !sink.failed()
            && are_first(sink.bytes(), len),
    )
}

// Feeds into a sink whose n-th write fails, and compares the result and the bytes written.
fn is_fed_until_write(alloc: Global, count: u32, (wanted, len): Outcome) -> Result<bool, Fail> {
    let mut source = MemorySource::new(FILE, None);
    let mut sink = Piecemeal {
        sink: MemorySink::new(alloc, ROOM, Some(count))?,
        is_slow: true,
    };
    let answer = fed(alloc, &mut source, &mut sink)?;
    Ok(
        answer == wanted
            && sink.failed() == wanted.is_err()
            && !source.failed()
            && are_first(sink.sink.bytes(), len),
    )
}

#[test]
fn each_failed_read_and_write_is_told(rt: HostRuntime) -> Result<(), Fail> {
    for before in 0..93u32 {
        let count = before + 1;
        let len = before as usize;
        let is_told = is_fed_until_read(rt.alloc(), count, outcome_of_front(len))?
            && is_fed_until_write(rt.alloc(), count, outcome_of_written(len))?;
        assert!(rt; is_told, "behind {before}");
    }
    Ok(())
}

// A feed of `count` stray answers.
fn many(alloc: Global, count: u32) -> Result<Vec<u8>, Fail> {
    let mut bytes = Vec::from_slice(alloc, b"NCPI")?;
    for _ in 0..count {
        bytes.extend_from_slice(STRAY)?;
    }
    Ok(bytes)
}

// Feeds these into a sink with this room, and returns the number of bytes written within the feed.
fn written_of_many(alloc: Global, room: usize) -> Result<Option<usize>, Fail> {
    let bytes = many(alloc, MANY)?;
    let mut source = MemorySource::new(&bytes, None);
    let mut sink = MemorySink::new(alloc, room, None)?;
    let (answer, _page) = fed_to_page(alloc, &mut source, &mut sink)?;
    if answer == Err(PlayFault::WriteFailed)
        && sink.failed()
        && b"7 in stray\n8 in stray\n".starts_with(sink.bytes())
    {
        Ok(Some(sink.bytes().len()))
    } else {
        Ok(None)
    }
}

#[test]
fn a_full_page_is_written(rt: HostRuntime) -> Result<(), Fail> {
    for room in 0..22usize {
        assert!(rt;
            written_of_many(rt.alloc(), room)? == Some(room),
            "at {room}"
        );
    }
    Ok(())
}

#[test]
fn no_message_comes_and_many(rt: HostRuntime) -> Result<(), Fail> {
    const ROWS: &[(u32, &[u8])] = &[
        (0, b"7 out nothing\n"),
        (1, b"7 in stray\n8 out nothing\n"),
        (2000, b"2005 in stray\n2006 in stray\n2007 out nothing\n"),
        (MANY, b"4005 in stray\n4006 in stray\n4007 out nothing\n"),
    ];
    for &(count, last) in ROWS {
        let bytes = many(rt.alloc(), count)?;
        let mut source = MemorySource::new(&bytes, None);
        let mut sink = MemorySink::new(rt.alloc(), ROOM, None)?;
        let answer = fed(rt.alloc(), &mut source, &mut sink)?;
        assert!(rt;
            answer == Ok(()) && sink.bytes().ends_with(last),
            "of {count}"
        );
    }
    Ok(())
}

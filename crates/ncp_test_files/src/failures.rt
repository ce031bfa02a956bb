//! Failing reads and writes, each in turn.

use crate::conversions::PLACED;
use crate::shown::{checked, counted, is_front, shown};
use ncp_play_files::FileFault;
use ncp_play_stream::{MemorySink, MemorySource, Sink, Source};
use ncp_test_streams::{Bytewise, Piecemeal};
use std::alloc::Global;
use std::test::Fail;

// Room for the lines of the file.
const ROOM: usize = 65536;

// A message with flags and low field, and a message of no bits, after the header of a file to a
// host.
const FILE: &[u8] = b"NCPI\x00\x20\x13\x02\x0a\x05\x00\x00";

const LINES: &[u8] = b"1 type-3 host=2 link=10 flags=1 low=5\n2 short\n";

const COUNTS: &[u8] = b"messages=2 short=1 regular=0 faults=0 bad=0\n";

// The file of version 2, its lines as `show` prints them, and those of its counts.
const PLACED_LINES: &[u8] =
    b"1 from-imp at=7 rfnm host=2 link=0\n2 from-imp at=7 incomplete host=2 link=0\n";

const PLACED_COUNTS: &[u8] = b"messages=2 short=0 regular=0 faults=0 bad=0\n";

/// A file as a source that is read byte by byte. The read of this number fails, if given.
pub(crate) fn read_bytewise(file: &[u8], fails_at: Option<u32>) -> Bytewise<'_> {
    Bytewise {
        source: MemorySource::new(file, fails_at),
        is_slow: true,
    }
}

/// A sink that is written byte by byte. The write of this number fails, if given.
pub(crate) fn write_piecemeal(alloc: Global, fails_at: Option<u32>) -> Result<Piecemeal, Fail> {
    Ok(Piecemeal {
        sink: MemorySink::new(alloc, ROOM, fails_at)?,
        is_slow: true,
    })
}

// The length of the lines of the complete records in the file's first `len` bytes.
fn lines_of_front(len: usize) -> usize {
    match len {
        0..10 => 0,
        10 | 11 => 38,
        _ => 46,
    }
}

// The same for the file of version 2.
fn placed_lines_of_front(len: usize) -> usize {
    match len {
        0..12 => 0,
        12..20 => 35,
        _ => 76,
    }
}

#[test]
fn reads_and_writes_bytewise(rt: HostRuntime) -> Result<(), Fail> {
    let mut sink = write_piecemeal(rt.alloc(), None)?;
    let answer = shown(&mut read_bytewise(FILE, None), &mut sink);
    assert!(rt; answer == Some(Ok(())) && sink.sink.bytes() == LINES);
    Ok(())
}

// Shows the file from a source whose n-th read fails, and compares the output.
fn is_shown_until_read(
    alloc: Global,
    file: &[u8],
    count: u32,
    lines: &[u8],
    len: usize,
) -> Result<bool, Fail> {
    let mut source = read_bytewise(file, Some(count));
    let mut sink = MemorySink::new(alloc, ROOM, None)?;
    let answer = shown(&mut source, &mut sink);
    Ok(
        answer == Some(Err(FileFault::ReadFailed))
            && source.failed()
            && !sink.failed()
            && is_front(sink.bytes(), len, lines),
    )
}

// Checks the file in the same way.
fn is_checked_until_read(alloc: Global, file: &[u8], count: u32) -> Result<bool, Fail> {
    let mut source = read_bytewise(file, Some(count));
    let mut sink = MemorySink::new(alloc, ROOM, None)?;
    let answer = checked(&mut source, &mut sink);
    Ok(
        answer == Some(Err(FileFault::ReadFailed))
            && source.failed()
            && !sink.failed()
            && sink.bytes().is_empty(),
    )
}

#[test]
fn each_failed_read_is_told(rt: HostRuntime) -> Result<(), Fail> {
    for count in 1..14u32 {
        let len = lines_of_front((count as usize).saturating_sub(1));
        let is_told = is_shown_until_read(rt.alloc(), FILE, count, LINES, len)?
            && is_checked_until_read(rt.alloc(), FILE, count)?;
        assert!(rt; is_told, "at {count}");
    }
    for count in 1..22u32 {
        let len = placed_lines_of_front((count as usize).saturating_sub(1));
        let is_told = is_shown_until_read(rt.alloc(), PLACED, count, PLACED_LINES, len)?
            && is_checked_until_read(rt.alloc(), PLACED, count)?;
        assert!(rt; is_told, "of version 2, at {count}");
    }
    Ok(())
}

// The header and the complete records among the file's first `len` bytes.
fn front_of(len: usize) -> &'static [u8] {
    match len {
        0..10 => b"NCPI".as_slice(),
        10 | 11 => b"NCPI\x00\x20\x13\x02\x0a\x05".as_slice(),
        _ => FILE,
    }
}

// Counts the file from a source whose n-th read fails, and compares the output with that for the
// records before it.
fn is_counted_until_read(alloc: Global, count: u32) -> Result<bool, Fail> {
    let front = front_of((count as usize).saturating_sub(1));
    let mut before = MemorySink::new(alloc, ROOM, None)?;
    let whole = counted(&mut read_bytewise(front, None), &mut before);
    let mut source = read_bytewise(FILE, Some(count));
    let mut sink = MemorySink::new(alloc, ROOM, None)?;
    let answer = counted(&mut source, &mut sink);
    Ok(
        whole == Some(Ok(()))
            && answer == Some(Err(FileFault::ReadFailed))
            && source.failed()
            && !sink.failed()
            && sink.bytes() == before.bytes(),
    )
}

#[test]
fn counts_until_a_failed_read(rt: HostRuntime) -> Result<(), Fail> {
    for count in 1..14u32 {
        assert!(rt; is_counted_until_read(rt.alloc(), count)?, "at {count}");
    }
    Ok(())
}

// Counts the file into a sink whose n-th write fails, and compares the output.
fn is_counted_until_write(alloc: Global, count: u32) -> Result<bool, Fail> {
    let mut lines = MemorySink::new(alloc, ROOM, None)?;
    let whole = counted(&mut read_bytewise(FILE, None), &mut lines);
    let mut source = read_bytewise(FILE, None);
    let mut sink = write_piecemeal(alloc, Some(count))?;
    let answer = counted(&mut source, &mut sink);
    let len = (count as usize).saturating_sub(1);
    Ok(
        whole == Some(Ok(()))
            && answer == Some(Err(FileFault::WriteFailed))
            && sink.failed()
            && !source.failed()
            && is_front(sink.sink.bytes(), len, lines.bytes()),
    )
}

#[test]
fn counts_until_a_failed_write(rt: HostRuntime) -> Result<(), Fail> {
    for count in 1..100u32 {
        assert!(rt; is_counted_until_write(rt.alloc(), count)?, "at {count}");
    }
    Ok(())
}

// Shows the file into a sink whose n-th write fails, and compares the output.
fn is_shown_until_write(
    alloc: Global,
    file: &[u8],
    count: u32,
    lines: &[u8],
) -> Result<bool, Fail> {
    let mut source = read_bytewise(file, None);
    let mut sink = write_piecemeal(alloc, Some(count))?;
    let answer = shown(&mut source, &mut sink);
    let len = (count as usize).saturating_sub(1);
    Ok(
        answer == Some(Err(FileFault::WriteFailed))
            && sink.failed()
            && !source.failed()
            && is_front(sink.sink.bytes(), len, lines),
    )
}

// Checks the file in the same way.
fn is_checked_until_write(
    alloc: Global,
    file: &[u8],
    count: u32,
    counts: &[u8],
) -> Result<bool, Fail> {
    let mut source = read_bytewise(file, None);
    let mut sink = write_piecemeal(alloc, Some(count))?;
    let answer = checked(&mut source, &mut sink);
    let len = (count as usize).saturating_sub(1);
    Ok(
        answer == Some(Err(FileFault::WriteFailed))
            && sink.failed()
            && !source.failed()
            && is_front(sink.sink.bytes(), len, counts),
    )
}

#[test]
fn each_failed_write_is_told(rt: HostRuntime) -> Result<(), Fail> {
    for count in 1..47u32 {
        assert!(rt;
            is_shown_until_write(rt.alloc(), FILE, count, LINES)?,
            "at {count}"
        );
    }
    for count in 1..77u32 {
        assert!(rt;
            is_shown_until_write(rt.alloc(), PLACED, count, PLACED_LINES)?,
            "at {count}"
        );
    }
    for count in 1..45u32 {
        let is_told = is_checked_until_write(rt.alloc(), FILE, count, COUNTS)?
            && is_checked_until_write(rt.alloc(), PLACED, count, PLACED_COUNTS)?;
        assert!(rt; is_told, "at {count}");
    }
    Ok(())
}

#[test]
fn a_sink_that_is_full_is_told(rt: HostRuntime) -> Result<(), Fail> {
    let mut sink = MemorySink::new(rt.alloc(), 10, None)?;
    let answer = shown(&mut read_bytewise(FILE, None), &mut sink);
    assert!(rt; answer == Some(Err(FileFault::WriteFailed)) && is_front(sink.bytes(), 10, LINES));
    Ok(())
}

#[test]
fn has_memory_for_rooms(rt: HostRuntime) -> Result<(), Fail> {
    for room in 0..300usize {
        MemorySink::new(rt.alloc(), room, None)?;
    }
    for room in [4096, 65_536, 1 << 20, 1 << 24] {
        MemorySink::new(rt.alloc(), room, None)?;
    }
    Ok(())
}

//! The adapters to readers and writers pass on each failure once, and transfer as much as they can.

use crate::shown::{checked, shown};
use ncp_play_files::FileFault;
use ncp_play_stream::{
    Failed, FromRead, LEAST_PIECE, MemorySink, MemorySource, Sink, Source, ToWrite,
};
use std::alloc::{AllocError, Global};
use std::io::{self, ErrorKind, Read, Write};
use std::process::Abort;
use std::test::Fail;

// An answer, after the header of a file to a host.
const ANSWER: &[u8] = b"NCPI\x00\x20\x05\x02\x00\x00";

// Fails at its first call, and then reads and writes one byte a call.
#[derive(Drop)]
struct FailsOnce {
    kind: ErrorKind,
    calls: u32,
}

impl FailsOnce {
    fn new(kind: ErrorKind) -> Self {
        FailsOnce { kind, calls: 0 }
    }

    fn call(&mut self) -> io::Result<()> {
        self.calls = self.calls.saturating_add(1);
        if self.calls == 1 {
            return Err(self.kind.into());
        }
        Ok(())
    }
}

impl Read for FailsOnce {
    fn read(&mut self, piece: &mut [u8]) -> io::Result<usize> {
        self.call()?;
        if piece.is_empty() {
            return Ok(0);
        }
        piece[0] = b'N';
        Ok(1)
    }
}

impl Write for FailsOnce {
    fn write(&mut self, piece: &[u8]) -> io::Result<usize> {
        self.call()?;
        Ok(piece.len().min(1))
    }

    fn flush(&mut self) -> io::Result<()> {
        Ok(())
    }
}

// Failures after which a caller might be tempted to retry, and one other.
const KINDS: [ErrorKind; 3] = [
    ErrorKind::Interrupted,
    ErrorKind::WouldBlock,
    ErrorKind::Other,
];

fn expect_one_failed_read(rt: &impl Abort, kind: ErrorKind) {
    let mut reader = FailsOnce::new(kind);
    let mut source = FromRead::new(&mut reader);
    let mut piece = [0u8; 8];
    assert!(rt; !source.failed() && source.read(&mut piece) == Err(Failed) && source.failed());
    assert!(rt; source.read(&mut piece) == Ok(1) && source.failed());
    assert!(rt; reader.calls == 2);
}

fn expect_one_failed_write(rt: &impl Abort, kind: ErrorKind) {
    let mut writer = FailsOnce::new(kind);
    let mut sink = ToWrite::new(&mut writer);
    assert!(rt; !sink.failed() && sink.write(b"ab") == Err(Failed) && sink.failed());
    assert!(rt; sink.write(b"ab") == Ok(1) && sink.failed());
    assert!(rt; writer.calls == 2);
}

#[test]
fn a_failure_is_failed_once(rt: HostRuntime) {
    for kind in KINDS {
        expect_one_failed_read(&rt, kind);
        expect_one_failed_write(&rt, kind);
    }
}

// Whether nothing is read after a failed read.
fn reads_nothing_after(alloc: Global, kind: ErrorKind) -> Result<bool, Fail> {
    let mut sink = MemorySink::new(alloc, LEAST_PIECE, None)?;
    let mut reader = FailsOnce::new(kind);
    let answer = shown(&mut FromRead::new(&mut reader), &mut sink);
    if answer != Some(Err(FileFault::ReadFailed)) || reader.calls != 1 {
        return Ok(false);
    }
    let mut reader = FailsOnce::new(kind);
    let answer = checked(&mut FromRead::new(&mut reader), &mut sink);
    Ok(answer == Some(Err(FileFault::ReadFailed)) && reader.calls == 1)
}

// Whether nothing is written after a failed write.
fn writes_nothing_after(kind: ErrorKind) -> bool {
    let mut source = MemorySource::new(ANSWER, None);
    let mut writer = FailsOnce::new(kind);
    let answer = shown(&mut source, &mut ToWrite::new(&mut writer));
    if answer != Some(Err(FileFault::WriteFailed)) || writer.calls != 1 {
        return false;
    }
    let mut source = MemorySource::new(ANSWER, None);
    let mut writer = FailsOnce::new(kind);
    let answer = checked(&mut source, &mut ToWrite::new(&mut writer));
    answer == Some(Err(FileFault::WriteFailed)) && writer.calls == 1
}

#[test]
fn nothing_happens_after_a_failure(rt: HostRuntime) -> Result<(), Fail> {
    for kind in KINDS {
        assert!(rt; reads_nothing_after(rt.alloc(), kind)? && writes_nothing_after(kind));
    }
    Ok(())
}

// Reads as much as it can, and counts the reads.
#[derive(Drop)]
struct Counted<'a> {
    bytes: &'a [u8],
    calls: usize,
}

impl Read for Counted<'_> {
    fn read(&mut self, piece: &mut [u8]) -> io::Result<usize> {
        self.calls = self.calls.saturating_add(1);
        let count = piece.len().min(self.bytes.len());
        let (front, rest) = self.bytes.split_at(count);
        piece[..count].copy_from_slice(front);
        self.bytes = rest;
        Ok(count)
    }
}

// Writes everything it is given, and counts the writes.
#[derive(Drop)]
struct Counting {
    bytes: usize,
    calls: usize,
}

impl Write for Counting {
    fn write(&mut self, piece: &[u8]) -> io::Result<usize> {
        self.calls = self.calls.saturating_add(1);
        self.bytes = self.bytes.saturating_add(piece.len());
        Ok(piece.len())
    }

    fn flush(&mut self) -> io::Result<()> {
        Ok(())
    }
}

// The size in bytes of the file for which reads and writes are counted, and its number of records.
const MEBIBYTE: usize = 1 << 20;

const RECORDS: usize = (MEBIBYTE - 4) / 6;

// The maximum number of reads for the file.
const READS: usize = MEBIBYTE / LEAST_PIECE + 1;

fn a_mebibyte(alloc: Global) -> Result<Vec<u8>, AllocError> {
    let mut file = Vec::with_capacity(alloc, MEBIBYTE)?;
    file.extend_from_slice(b"NCPI")?;
    for _ in 0..RECORDS {
        file.extend_from_slice(b"\x00\x20\x04\x02\x00\x00")?;
    }
    Ok(file)
}

#[test]
fn show_moves_whole_pieces(rt: HostRuntime) -> Result<(), Fail> {
    let file = a_mebibyte(rt.alloc())?;
    assert!(rt; file.len() == MEBIBYTE);
    let mut reader = Counted {
        bytes: file.as_slice(),
        calls: 0,
    };
    let mut writer = Counting { bytes: 0, calls: 0 };
    let answer = shown(
        &mut FromRead::new(&mut reader),
        &mut ToWrite::new(&mut writer),
    );
    assert!(rt; answer == Some(Ok(())) && reader.calls <= READS);
    let pieces = writer.bytes / LEAST_PIECE;
    assert!(rt; writer.bytes > MEBIBYTE && writer.calls.saturating_sub(2) <= pieces);
    Ok(())
}

#[test]
fn check_moves_whole_pieces(rt: HostRuntime) -> Result<(), Fail> {
    let file = a_mebibyte(rt.alloc())?;
    let mut reader = Counted {
        bytes: file.as_slice(),
        calls: 0,
    };
    let mut writer = Counting { bytes: 0, calls: 0 };
    let answer = checked(
        &mut FromRead::new(&mut reader),
        &mut ToWrite::new(&mut writer),
    );
    assert!(rt; answer == Some(Ok(true)) && reader.calls <= READS && writer.calls == 1);
    Ok(())
}

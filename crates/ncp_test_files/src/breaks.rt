//! Conversions of files, with each read and each write failing in turn.

use crate::conversions::{PLACED, RESULT_CODES};
use crate::failures::{read_bytewise, write_piecemeal};
use crate::shown::{converted, is_front};
use ncp_play_files::FileFault;
use ncp_play_stream::{MemorySink, MemorySource};
use std::alloc::Global;
use std::test::Fail;

// Room for the output.
const ROOM: usize = 4096;

// The host of the capture points.
const HOST: u8 = 7;

// A file and its conversion.
type Files<'a> = (&'a [u8], &'a [u8]);

const BACK: Files<'static> = (PLACED, RESULT_CODES);

const THERE: Files<'static> = (RESULT_CODES, PLACED);

// The result, and the number of bytes written.
type Outcome = (Result<(), FileFault>, usize);

const READ_FAILED: Result<(), FileFault> = Err(FileFault::ReadFailed);

const WRITE_FAILED: Result<(), FileFault> = Err(FileFault::WriteFailed);

// The outcome for the file of version 2 if the read after its first `len` bytes fails.
fn back_of_front(len: usize) -> Outcome {
    match len {
        0..12 => (READ_FAILED, 0),
        12..20 => (READ_FAILED, 10),
        20 => (READ_FAILED, 16),
        _ => (Ok(()), 16),
    }
}

// The same for the file of version 1.
fn there_of_front(len: usize) -> Outcome {
    match len {
        0..10 => (READ_FAILED, 0),
        10..16 => (READ_FAILED, 12),
        16 => (READ_FAILED, 20),
        _ => (Ok(()), 20),
    }
}

// The outcome if the write after the first `len` bytes of the converted file fails.
fn of_written(len: usize, all: usize) -> Outcome {
    if len < all {
        (WRITE_FAILED, len)
    } else {
        (Ok(()), all)
    }
}

// Whether a file has this outcome if the read of this number fails.
fn is_converted_until_read(
    alloc: Global,
    (from, to): Files<'_>,
    count: u32,
    (answer, len): Outcome,
) -> Result<bool, Fail> {
    let mut sink = MemorySink::new(alloc, ROOM, None)?;
    let told = converted(&mut read_bytewise(from, Some(count)), &mut sink, HOST);
    Ok(told == Some(answer) && is_front(sink.bytes(), len, to))
}

// Whether a file has this outcome if the write of this number fails.
fn is_converted_until_write(
    alloc: Global,
    (from, to): Files<'_>,
    count: u32,
    (answer, len): Outcome,
) -> Result<bool, Fail> {
    let mut sink = write_piecemeal(alloc, Some(count))?;
    let told = converted(&mut MemorySource::new(from, None), &mut sink, HOST);
    Ok(told == Some(answer) && is_front(sink.sink.bytes(), len, to))
}

#[test]
fn each_failed_read_and_write_of_a_conversion_is_told(rt: HostRuntime) -> Result<(), Fail> {
    for before in 0..22u32 {
        let count = before + 1;
        let len = before as usize;
        let is_told = is_converted_until_read(rt.alloc(), BACK, count, back_of_front(len))?
            && is_converted_until_read(rt.alloc(), THERE, count, there_of_front(len))?
            && is_converted_until_write(rt.alloc(), BACK, count, of_written(len, 16))?
            && is_converted_until_write(rt.alloc(), THERE, count, of_written(len, 20))?;
        assert!(rt; is_told, "behind {before}");
    }
    Ok(())
}

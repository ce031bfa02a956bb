//! Failing reads and writes of a script: some with the script in one piece, and each in turn for a
//! script read and written byte by byte.
use crate::texts::joined;
use crate::world::opening::{COMING_UP, COMING_UP_LINES, HOSTS};
use crate::world::played::{Doing, Run, Store, play, whole};
use ncp_play_notes::PlayFault;
use std::alloc::Global;
use std::process::Abort;
use std::test::Fail;

/// A script with one line that an LF ends, and one without.
const SHORT: &[u8] = b"hosts 1 2\na out\nb out";

/// The lines of the first call, and of both.
const ONE: &[u8] = b"1 a out nothing\n";

const BOTH: &[u8] = b"1 a out nothing\n2 b out nothing\n";

/// The numbers of the failing read and write, the room, and the result and the output. The first
/// line is written before waiting for the rest of the second.
type Broken = (
    Option<u32>,
    Option<u32>,
    usize,
    Result<bool, PlayFault>,
    &'static [u8],
);

const READ_FAILED: Result<bool, PlayFault> = Err(PlayFault::ReadFailed);

const WRITE_FAILED: Result<bool, PlayFault> = Err(PlayFault::WriteFailed);

const BROKEN: &[Broken] = &[
    (Some(1), None, 100, READ_FAILED, b""),
    (Some(2), None, 100, READ_FAILED, ONE),
    (Some(3), None, 100, Ok(true), BOTH),
    (None, Some(1), 100, WRITE_FAILED, b""),
    (None, Some(2), 100, WRITE_FAILED, ONE),
    (None, Some(3), 100, Ok(true), BOTH),
    (None, None, 20, WRITE_FAILED, b"1 a out nothing\n2 b "),
    (Some(2), Some(1), 100, WRITE_FAILED, b""),
];

#[test]
fn reads_and_writes_that_fail(rt: HostRuntime) -> Result<(), Fail> {
    for &(read, write, room, answer, lines) in BROKEN {
        let how = Run {
            read,
            write,
            room,
            ..whole(Doing::Plays, Store::Packed, SHORT)
        };
        let played = play(&rt, rt.alloc(), &how)?;
        assert!(rt; played.answer == answer && played.written() == lines);
    }
    Ok(())
}

/// The RST of host 1 is sent, received and answered.
const RESET: &[u8] = b"hosts 1 2\na reset\na out\na deliver 0\na answer 0\n";

const RECORDING: &[u8] =
    b"NCPJH\x01\x00\x50\x00\x02\x00\x00\x00\x08\x00\x01\x00\x0cI\x02\x00\x50\x00\x01\x00\x00\x00\x08\x00\x01\x00\x0cI\x01\x00\x20\x05\x02\x00\x00";

/// A script in parts, with its length, and its output, with the length of that.
struct Stream {
    doing: Doing,
    script: &'static [&'static [u8]],
    len: u32,
    written: &'static [u8],
    written_len: u32,
}

const STREAMS: &[Stream] = &[
    Stream {
        doing: Doing::Plays,
        script: &[HOSTS, COMING_UP],
        len: 77,
        written: COMING_UP_LINES,
        written_len: 203,
    },
    Stream {
        doing: Doing::Records,
        script: &[RESET],
        len: 48,
        written: RECORDING,
        written_len: 40,
    },
];

/// The number of bytes written for the complete lines in a script's first `len` bytes.
fn written_of_front(doing: Doing, len: u32) -> u32 {
    match doing {
        Doing::Plays => match len {
            0..18 => 0,
            18..24 => 13,
            24..36 => 66,
            36..47 => 90,
            47..53 => 108,
            53..65 => 161,
            65..76 => 185,
            _ => 203,
        },
        Doing::Records => match len {
            0..10 => 0,
            10..24 => 4,
            24..36 => 18,
            36..47 => 32,
            _ => 40,
        },
    }
}

/// Whether this is the result if this read or write fails, and the first `len` bytes are written.
fn is_so(
    rt: &impl Abort,
    alloc: Global,
    stream: &Stream,
    (read, write): (Option<u32>, Option<u32>),
    answer: Result<bool, PlayFault>,
    len: u32,
) -> Result<bool, Fail> {
    let script = joined(alloc, stream.script)?;
    let how = Run {
        read,
        write,
        is_slow: true,
        ..whole(stream.doing, Store::Packed, &script)
    };
    let played = play(rt, alloc, &how)?;
    let written = played.written();
    Ok(
        played.answer == answer
            && written.len() == len as usize
            && stream.written.starts_with(written),
    )
}

#[test]
fn each_failed_read_is_told(rt: HostRuntime) -> Result<(), Fail> {
    let fault = Err(PlayFault::ReadFailed);
    for stream in STREAMS {
        for count in 0..stream.len {
            let fails = (Some(count.saturating_add(1)), None);
            let len = written_of_front(stream.doing, count);
            assert!(rt;
                is_so(&rt, rt.alloc(), stream, fails, fault, len)?,
                "behind {count}"
            );
        }
        let fails = (Some(stream.len.saturating_add(1)), None);
        assert!(rt; is_so(&rt, rt.alloc(), stream, fails, Ok(true), stream.written_len)?);
    }
    Ok(())
}

#[test]
fn each_failed_write_is_told(rt: HostRuntime) -> Result<(), Fail> {
    let fault = Err(PlayFault::WriteFailed);
    for stream in STREAMS {
        for count in 0..stream.written_len {
            let fails = (None, Some(count.saturating_add(1)));
            assert!(rt;
                is_so(&rt, rt.alloc(), stream, fails, fault, count)?,
                "behind {count}"
            );
        }
        let fails = (None, Some(stream.written_len.saturating_add(1)));
        assert!(rt; is_so(&rt, rt.alloc(), stream, fails, Ok(true), stream.written_len)?);
    }
    Ok(())
}

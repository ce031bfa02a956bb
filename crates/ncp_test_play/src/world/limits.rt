//! Scripts of two hosts, and of two to eight, from one line to thousands.
use crate::texts::{joined, numbered, repeated};
use crate::world::opening::HEADER;
use crate::world::played::{Doing, Run, Store, play, whole};
use std::alloc::{AllocError, Global};
use std::process::Abort;
use std::test::Fail;

/// The last line numbers of the scripts, and room for their lines.
const LASTS: [u32; 4] = [0, 1, 100, 5000];

const ROOM: usize = 131_072;

/// A script that repeats one line after its first, and the lines printed for it.
struct Long {
    first: &'static [u8],
    line: &'static [u8],
    said: &'static [u8],
}

const LONG: &[Long] = &[
    Long {
        first: b"hosts 1 2\n",
        line: b"a phase\n",
        said: b" a phase ok down\n",
    },
    Long {
        first: b"many 1 2 3\n",
        line: b"3 phase 1\n",
        said: b" 3 phase 1 ok down\n",
    },
];

fn script_of(alloc: Global, long: &Long, last: u32) -> Result<Vec<u8>, AllocError> {
    joined(alloc, &[long.first, &repeated(alloc, long.line, last)?])
}

/// Compares the output for a long script.
fn expect_long(
    rt: &impl Abort,
    alloc: Global,
    doing: Doing,
    script: &[u8],
    written: &[u8],
) -> Result<(), Fail> {
    let how = Run {
        room: ROOM,
        ..whole(doing, Store::Packed, script)
    };
    let played = play(rt, alloc, &how)?;
    assert!(rt; played.answer == Ok(true) && played.written() == written);
    Ok(())
}

#[test]
fn up_to_five_thousand_lines_are_played(rt: HostRuntime) -> Result<(), Fail> {
    for long in LONG {
        for last in LASTS {
            let script = script_of(rt.alloc(), long, last)?;
            let lines = numbered(rt.alloc(), 1, last, long.said)?;
            expect_long(&rt, rt.alloc(), Doing::Plays, &script, &lines)?;
        }
    }
    Ok(())
}

#[test]
fn up_to_five_thousand_lines_are_recorded(rt: HostRuntime) -> Result<(), Fail> {
    for long in LONG {
        for last in LASTS {
            let script = script_of(rt.alloc(), long, last)?;
            expect_long(&rt, rt.alloc(), Doing::Records, &script, HEADER)?;
        }
    }
    Ok(())
}

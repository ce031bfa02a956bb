//! Allocation failures of the player of one host. Here each test has ample memory:
//! `bench/refuse.py` runs each test repeatedly, fails one allocation after the other, and reads the
//! line printed for it.
use crate::streams::ROOM;
use crate::world::refused::{are_first_lines, is_noted};
use ncp_bits::{BitStore, PackedStore, PlainStore};
use ncp_play_host::play_host;
use ncp_play_notes::PlayFault;
use ncp_play_stream::{MemorySink, MemorySource, Sink};
use std::alloc::{AllocError, Global};
use std::process::Abort;
use std::test::Fail;

/// A host sends its RST again after a restart of its IMP, comes up, asks for two connections, and is
/// fed an RFNM.
const SCRIPT: &[u8] =
    b"host 1 2\nreset 2\nout\nrestart\nout\nin 32 05020000\nin 88 0002000000080002000c0d\nask-send 2 3 2 8 1024\nask-receive 2 4 5 1024\nfeed\nNCPI\x00\x20\x05\x02\x00\x00";

const LINES: &[u8] = b"1 reset 2 ok
2 out host=2 link=0 bits=80
  size=8 count=1
  RST
3 in answered
4 out host=2 link=0 bits=80
  size=8 count=1
  RST
5 in answered
6 in control 2
7 ask-send 2 ok
8 ask-receive 2 ok
9 in stray
10 out host=2 link=0 bits=240
  size=8 count=21
  RRP
  STR send=3 receive=2 size=8
  RTS receive=4 send=5 link=2
11 out nothing
";

/// A sink, made again if an allocation fails.
fn sink_of(alloc: Global) -> Result<MemorySink, AllocError> {
    match MemorySink::new(alloc, ROOM, None) {
        Ok(sink) => Ok(sink),
        Err(_) => MemorySink::new(alloc, ROOM, None),
    }
}

/// Plays the script, and returns whether an allocation failed. If so, checks that the player
/// reports it after the lines of everything before, or that the line of a call does.
fn is_refused<S: BitStore>(rt: &impl Abort, alloc: Global) -> Result<bool, Fail> {
    let mut source = MemorySource::new(SCRIPT, None);
    let mut sink = sink_of(alloc)?;
    assert!(rt; !sink.failed());
    let answer = play_host::<S, _, _>(alloc, &mut source, &mut sink);
    let written = sink.bytes();
    if answer == Ok(true) && written == LINES {
        return Ok(false);
    }
    match answer {
        Ok(answered) => assert!(rt; !answered && is_noted(written, LINES)),
        Err(fault) => {
            let is_told = fault == PlayFault::OutOfMemory && fault.number() == 7;
            assert!(rt; is_told && are_first_lines(written, LINES));
        }
    }
    Ok(true)
}

#[test]
fn playing_one_host(rt: HostRuntime) -> Result<(), Fail> {
    let plain = is_refused::<PlainStore>(&rt, rt.alloc())?;
    let packed = is_refused::<PackedStore>(&rt, rt.alloc())?;
    if plain || packed {
        println!(rt; "refused: PlayFault 7 behind whole lines, or the line of a call")?;
    }
    Ok(())
}

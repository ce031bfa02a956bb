//! A long text: its prefix is shown, and all of it is written.

use ncp_follow::Follower;
use ncp_play_files::FileFault;
use ncp_play_follow::{follow, follow_text};
use ncp_play_stream::{MemorySink, MemorySource, Sink, Source};
use std::alloc::Global;
use std::test::Fail;

// Room for the lines and the text below.
const ROOM: usize = 4096;

// A connection, and a text of 120 bytes that is answered.
const OPENED: &[u8] =
    b"NCPJ\x49\x01\x00\x50\x00\x02\x00\x00\x00\x08\x00\x01\x00\x0c\x48\x01\x00\x50\x00\x02\x00\x00\x00\x08\x00\x01\x00\x0d\x49\x01\x00\x20\x05\x02\x00\x00\x49\x01\x00\x98\x00\x02\x00\x00\x00\x08\x00\x0a\x00\x01\x00\x00\x00\x02\x00\x00\x00\x03\x02\x48\x01\x00\x98\x00\x02\x00\x00\x00\x08\x00\x0a\x00\x02\x00\x00\x00\x03\x00\x00\x00\x02\x08\x49\x01\x00\x20\x05\x02\x00\x00\x49\x01\x00\x88\x00\x02\x00\x00\x00\x08\x00\x08\x00\x04\x02\x00\x09\x00\x00\xff\xff";

const TEXT: &[u8] =
    b"\x48\x01\x04\x08\x00\x02\x02\x00\x00\x08\x00\x78\x00AAAAAAAAAAAAAAAAAAAAAAAAAAAAAAAAAAAAAAAAAAAAAAAAAAAAAAAAAAAAAAAAAAAAAAAAAAAAAAAAAAAAAAAAAAAAAAAAAAAAAAAAAAAAAAAAAAAAAAAA\x49\x01\x00\x20\x05\x02\x02\x00";

// `front`, then `times` times `piece`, and then the last bytes.
fn joined(
    alloc: Global,
    front: &[u8],
    piece: &[u8],
    times: usize,
    last: &[u8],
) -> Result<Vec<u8>, Fail> {
    let mut all = Vec::new(alloc);
    all.extend_from_slice(front)?;
    for _ in 0..times {
        all.extend_from_slice(piece)?;
    }
    all.extend_from_slice(last)?;
    Ok(all)
}

// The result of `follow`, if no failure was recorded before. Without a contract, so that the prover
// need not follow it through a test.
fn followed<R: Source, W: Sink>(
    follower: &mut Follower,
    letters: bool,
    source: &mut R,
    sink: &mut W,
) -> Option<Result<(), FileFault>> {
    if source.failed() || sink.failed() {
        return None;
    }
    Some(follow(follower, letters, source, sink))
}

// The result of `follow_text`, if no failure was recorded before. Without a contract, so that the
// prover need not follow it through a test.
fn written<R: Source, W: Sink>(
    follower: &mut Follower,
    wanted: u32,
    source: &mut R,
    sink: &mut W,
) -> Option<Result<bool, FileFault>> {
    if source.failed() || sink.failed() {
        return None;
    }
    Some(follow_text(follower, wanted, source, sink))
}

// Whether this text is written for the connection with this number, and the result reports whether
// there is such a connection.
fn writes(
    alloc: Global,
    file: &[u8],
    wanted: u32,
    text: &[u8],
    is_there: bool,
) -> Result<bool, Fail> {
    let mut follower = Follower::new(alloc, false)?;
    let mut sink = MemorySink::new(alloc, ROOM, None)?;
    let mut source = MemorySource::new(file, None);
    let answer = written(&mut follower, wanted, &mut source, &mut sink);
    Ok(answer == Some(Ok(is_there)) && sink.bytes() == text)
}

// The line of the connection, and the words before its text.
const LINE: &[u8] =
    b"1 at=1 host=2 send local=3 remote=2 link=2 size=8 opened=5 ended=- by=end messages=9 bits=8640 late=0 granted=9/65535 returned=0/0\n  text bits=8192 of=8640 ";

// Whether these lines are printed for the text, with letters or without.
fn prints(alloc: Global, letters: bool, lines: &[u8]) -> Result<bool, Fail> {
    let file = joined(alloc, OPENED, TEXT, 9, b"")?;
    let mut follower = Follower::new(alloc, false)?;
    let mut sink = MemorySink::new(alloc, ROOM, None)?;
    let mut source = MemorySource::new(file.as_slice(), None);
    let answer = followed(&mut follower, letters, &mut source, &mut sink);
    Ok(answer == Some(Ok(())) && sink.bytes() == lines)
}

#[test]
fn a_long_text_is_shown_in_part(rt: HostRuntime) -> Result<(), Fail> {
    let lines = joined(rt.alloc(), LINE, b"41", 1024, b"\n")?;
    assert!(rt; prints(rt.alloc(), false, lines.as_slice())?);
    Ok(())
}

#[test]
fn as_many_letters_are_shown_as_bits(rt: HostRuntime) -> Result<(), Fail> {
    let front = joined(rt.alloc(), LINE, b"41", 1024, b"\n  letters ")?;
    let lines = joined(rt.alloc(), front.as_slice(), b"A", 1024, b"\n")?;
    assert!(rt; prints(rt.alloc(), true, lines.as_slice())?);
    Ok(())
}

#[test]
fn a_long_text_is_written_whole(rt: HostRuntime) -> Result<(), Fail> {
    let file = joined(rt.alloc(), OPENED, TEXT, 9, b"")?;
    let text = joined(rt.alloc(), b"", b"A", 1080, b"")?;
    assert!(rt; writes(rt.alloc(), file.as_slice(), 1, text.as_slice(), true)?);
    Ok(())
}

// The command line refuses this number.
#[test]
fn no_connection_has_the_number_0(rt: HostRuntime) -> Result<(), Fail> {
    let file = joined(rt.alloc(), OPENED, TEXT, 1, b"")?;
    assert!(rt; writes(rt.alloc(), file.as_slice(), 0, b"", false)?);
    Ok(())
}

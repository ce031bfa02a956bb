//! Allocation failures of the player of scripts. Here each test has ample memory: `bench/refuse.py`
//! runs each test repeatedly, fails one allocation after the other, and reads the line printed for
//! it.
mod recorder;

use crate::texts::joined;
use crate::world::opening::{
    COMING_UP, COMING_UP_LINES, GIVING, GIVING_LINES, HOSTS, SENDING, SENDING_LINES,
};
use crate::world::played::{Doing, Store, play, whole};
use ncp_play_notes::PlayFault;
use std::alloc::{AllocError, Global};
use std::process::Abort;
use std::test::Fail;

/// Three hosts; two of them come up and ask for a connection.
const MANY: &[u8] = b"many 1 2 3
1 reset 3
1 out
1 deliver 3 0
1 answer 3 0
3 out
3 deliver 1 0
3 answer 1 0
3 ask-receive 1 2 3 1024
1 ask-send 3 3 2 8 1024
2 out
";

const MANY_LINES: &[u8] = b"1 1 reset 3 ok
2 1 out host=3 link=0 bits=80
  size=8 count=1
  RST
3 1 deliver 3 0 control 1
4 1 answer 3 0 rfnm
5 3 out host=1 link=0 bits=80
  size=8 count=1
  RRP
6 3 deliver 1 0 control 1
7 3 answer 1 0 rfnm
8 3 ask-receive 1 ok
9 1 ask-send 3 ok
10 2 out nothing
";

/// These texts joined, again if an allocation fails.
fn text_of(alloc: Global, texts: &[&[u8]]) -> Result<Vec<u8>, AllocError> {
    match joined(alloc, texts) {
        Ok(text) => Ok(text),
        Err(_) => joined(alloc, texts),
    }
}

/// The length of the common prefix of two texts.
fn same_front(one: &[u8], other: &[u8]) -> usize {
    for place in 0..one.len() {
        if one.get(place) != other.get(place) {
            return place;
        }
    }
    one.len()
}

/// The text after its first `count` bytes.
fn behind(text: &[u8], count: usize) -> &[u8] {
    &text[count.min(text.len())..]
}

/// Whether the bytes written are the lines of the first notes, the last one complete with its
/// details.
pub(crate) fn are_first_lines(written: &[u8], lines: &[u8]) -> bool {
    let are_whole = written.is_empty() || written.ends_with(b"\n");
    let same = same_front(written, lines);
    are_whole && same == written.len() && !behind(lines, same).starts_with(b" ")
}

/// Whether the first line that differs is that of a call refused with `OutOfMemory`.
pub(crate) fn is_noted(written: &[u8], lines: &[u8]) -> bool {
    let same = same_front(written, lines);
    behind(written, same).starts_with(b"refused OutOfMemory\n")
        && behind(lines, same).starts_with(b"ok\n")
}

/// Plays a script, and returns whether an allocation failed. If so, checks that the player reports
/// it after the lines of everything before, or that the line of a call does.
fn is_refused(
    rt: &impl Abort,
    alloc: Global,
    store: Store,
    script: &[u8],
    lines: &[u8],
) -> Result<bool, Fail> {
    let played = play(rt, alloc, &whole(Doing::Plays, store, script))?;
    let answer = played.answer;
    let written = played.written();
    if answer == Ok(true) && written == lines {
        return Ok(false);
    }
    match answer {
        Ok(answered) => assert!(rt; !answered && is_noted(written, lines)),
        Err(fault) => {
            assert!(rt; fault == PlayFault::OutOfMemory && fault.number() == 7);
            assert!(rt; are_first_lines(written, lines));
        }
    }
    Ok(true)
}

/// Whether an allocation failed for a script over one of the stores.
fn is_refused_once(
    rt: &impl Abort,
    alloc: Global,
    script: &[u8],
    lines: &[u8],
) -> Result<bool, Fail> {
    let plain = is_refused(rt, alloc, Store::Plain, script, lines)?;
    let packed = is_refused(rt, alloc, Store::Packed, script, lines)?;
    Ok(plain || packed)
}

/// Prints the observed outcome if an allocation failed.
fn print_refusal(rt: &HostRuntime, refused: bool, stood: &str) -> Result<(), Fail> {
    if refused {
        println!(rt; "refused: {stood}")?;
    }
    Ok(())
}

/// The outcome when an allocation of the player fails.
const STOOD: &str = "PlayFault 7 behind whole lines, or the line of a call";

#[test]
fn playing_two_hosts(rt: HostRuntime) -> Result<(), Fail> {
    let script = text_of(rt.alloc(), &[HOSTS, COMING_UP, GIVING, SENDING])?;
    let lines = text_of(rt.alloc(), &[COMING_UP_LINES, GIVING_LINES, SENDING_LINES])?;
    let refused = is_refused_once(&rt, rt.alloc(), &script, &lines)?;
    print_refusal(&rt, refused, STOOD)
}

#[test]
fn playing_many_hosts(rt: HostRuntime) -> Result<(), Fail> {
    let refused = is_refused_once(&rt, rt.alloc(), MANY, MANY_LINES)?;
    print_refusal(&rt, refused, STOOD)
}

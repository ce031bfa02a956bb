//! Lines of notes with the greatest numbers, and of notes that no host makes.
use crate::said::is_said;
use ncp_host::{CallFault, Flags, Pair, Record, Role};
use ncp_play_script::{Words, call};
use ncp_transcript::{Call, HostNote};
use std::alloc::Global;
use std::test::Fail;

const PAIR: Pair = Pair {
    local: 3,
    remote: 2,
};

const GREATEST: Record = Record {
    end: Role::Receive,
    asked: false,
    heard: true,
    opened: false,
    leaving: false,
    left: false,
    cls: false,
    link: 2,
    size: 8,
    messages: 65535,
    bits: 4294967295,
    stored: 65536,
    busy: false,
    recall: false,
    interrupts: 4294967294,
};

const ALL_FLAGS: Flags = Flags {
    down: true,
    want: true,
    owe: true,
    wait: true,
};

fn call_of(alloc: Global, words: &[u8]) -> Result<Call, Fail> {
    match call(alloc, &mut Words::new(words), None)? {
        Some(call) => Ok(call),
        None => Err("these words are no call".into()),
    }
}

#[test]
fn refusals_have_lines(rt: HostRuntime) -> Result<(), Fail> {
    const ROWS: &[(u32, CallFault, &[u8], &[u8])] = &[
        (
            4294967295,
            CallFault::UnknownPeer,
            b"take 3 3 2 100",
            b"4294967295 take 3 refused UnknownPeer\n",
        ),
        (
            7,
            CallFault::OutOfMemory,
            b"ask-send 2 3 2 8 8",
            b"7 ask-send 2 refused OutOfMemory\n",
        ),
    ];
    for &(number, fault, words, lines) in ROWS {
        let note = HostNote::Refused {
            call: call_of(rt.alloc(), words)?,
            fault,
        };
        assert!(rt; is_said(rt.alloc(), number, &note, lines), "at {number}");
    }
    Ok(())
}

#[test]
fn readings_have_lines(rt: HostRuntime) {
    let state = HostNote::State {
        peer: 2,
        pair: PAIR,
        record: GREATEST,
    };
    let state_line =
        b"25 state 2 ok end=receive asked=0 heard=1 opened=0 leaving=0 left=0 cls=0 link=- size=8 messages=65535 bits=4294967295 stored=65536 interrupts=4294967294\n";
    assert!(rt; is_said(rt.alloc(), 25, &state, state_line));
    let phase = HostNote::Phase {
        peer: 2,
        flags: ALL_FLAGS,
    };
    assert!(rt; is_said(rt.alloc(), 4, &phase, b"4 phase 2 ok down want owe wait\n"));
}

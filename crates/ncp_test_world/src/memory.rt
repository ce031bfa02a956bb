//! With ample memory each event returns Ok: with the shortest text, with one between, and with the
//! longest; and among two hosts, among five, and among eight.
use crate::events::{SENDER, bits_of, texts};
use crate::many::{EIGHT, reset};
use crate::many_tried::ManyTried;
use crate::refused::is_same;
use crate::tried::{A, B, Tried};
use ncp_bits::{BitStore, Bits, MAX_BITS, PackedStore, PlainStore};
use ncp_transcript::{Alone, Call, HostNote, Input, Message};
use ncp_world::{ManyEvent, Note};
use std::alloc::{AllocError, Global};
use std::process::Abort;
use std::test::Fail;

/// Lengths of texts in bytes: a message has at most 991.
const LENGTHS: [usize; 3] = [1, 496, 991];

const LONGEST: [u8; 991] = [0x5a; 991];

/// Lengths of bits.
const BITS: [usize; 3] = [0, MAX_BITS / 2, MAX_BITS];

/// The first of some hosts, and the last.
const FIRST: u8 = 1;

const LAST: [u8; 3] = [2, 5, 8];

/// Whether a note is of this text, taken.
fn is_taken(rt: &impl Abort, note: &Note, text: &[u8]) -> bool {
    match note {
        Note::Called {
            note: HostNote::Took { text: taken, .. },
            ..
        } => taken.to_bits() == bits_of(rt, text),
        _ => false,
    }
}

/// Whether the last of some notes is of this text, taken.
fn ends_taken(rt: &impl Abort, notes: &[Note], text: &[u8]) -> bool {
    match notes.last() {
        Some(last) => is_taken(rt, last, text),
        None => false,
    }
}

/// A text goes from host to host, event by event and by one call.
fn carries<S: BitStore>(rt: &impl Abort, alloc: Global, text: &[u8]) -> Result<(), Fail> {
    let events = texts(rt, alloc, text, 1)?;
    let mut tried = Tried::<S>::new(alloc)?;
    for event in &events {
        assert!(rt; tried.steps(event));
    }
    let ran = Tried::<S>::run(alloc, &events)?;
    assert!(rt; ends_taken(rt, tried.notes(), text));
    assert!(rt; ends_taken(rt, ran.notes(), text));
    Ok(())
}

#[test]
fn has_memory_for_texts(rt: HostRuntime) -> Result<(), Fail> {
    for len in LENGTHS {
        let text = LONGEST.get(..len).expect(&rt, "a text");
        carries::<PlainStore>(&rt, rt.alloc(), text)?;
        carries::<PackedStore>(&rt, rt.alloc(), text)?;
    }
    Ok(())
}

/// `len` bits as a text that is given.
fn giving(alloc: Global, bits: &Bits) -> Result<Call, AllocError> {
    Ok(Call::Give {
        peer: B,
        pair: SENDER,
        text: Message::from_bits(alloc, bits)?,
    })
}

/// A call with these bits is copied, and noted.
fn notes<S: BitStore>(rt: &impl Abort, alloc: Global, bits: &Bits) -> Result<(), Fail> {
    let event = ManyEvent::Call {
        host: A,
        call: giving(alloc, bits)?,
    };
    assert!(rt; is_same(alloc, &event.copied(alloc)?, &event)?);
    let mut alone = Alone::<S>::new(alloc, A, &[B])?;
    alone.step(&Input::Call(giving(alloc, bits)?))?;
    let is_noted = match alone.transcript().last() {
        Some(
            HostNote::Refused {
                call: Call::Give { text, .. },
                ..
            },
        ) => text.to_bits() == *bits,
        _ => false,
    };
    assert!(rt; is_noted);
    Ok(())
}

#[test]
fn has_memory_for_calls(rt: HostRuntime) -> Result<(), Fail> {
    for len in BITS {
        let bits = Bits::from_bytes(&[0; 1024], len)?;
        notes::<PlainStore>(&rt, rt.alloc(), &bits)?;
        notes::<PackedStore>(&rt, rt.alloc(), &bits)?;
    }
    Ok(())
}

/// The hosts from the first to this one come up with the first.
fn settles<S: BitStore>(rt: &impl Abort, alloc: Global, last: u8) -> Result<(), Fail> {
    let hosts = EIGHT.get(..usize::from(last)).expect(rt, "hosts");
    let mut tried = ManyTried::<S>::new(alloc, hosts)?;
    let mut events = Vec::new(alloc);
    assert!(rt; tried.goes_on() == Some(false) && tried.settles());
    for &host in hosts.iter().skip(1) {
        assert!(rt; tried.steps(&reset(FIRST, host)));
        events.push(reset(FIRST, host))?;
    }
    assert!(rt; tried.goes_on() == Some(true) && tried.settles());
    for &host in hosts.iter().skip(1) {
        assert!(rt; tried.is_up(FIRST, host) && tried.is_up(host, FIRST));
    }
    let ran = ManyTried::<S>::run(alloc, hosts, &events)?;
    assert!(rt; ran.notes().len() == events.len());
    Ok(())
}

#[test]
fn has_memory_for_hosts(rt: HostRuntime) -> Result<(), Fail> {
    for last in LAST {
        settles::<PackedStore>(&rt, rt.alloc(), last)?;
    }
    settles::<PlainStore>(&rt, rt.alloc(), LAST[0])
}

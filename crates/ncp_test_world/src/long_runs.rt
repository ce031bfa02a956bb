//! Runs of 5,000 events with ample memory: each event returns Ok, however long the transcript
//! before it.
use crate::events::{bits_of, texts};
use crate::many::THREE;
use crate::many_tried::ManyTried;
use crate::tried::{A, B, Tried};
use ncp_bits::{BitStore, PackedStore};
use ncp_transcript::{Alone, Call, HostNote, Input};
use ncp_world::{ManyEvent, Note};
use std::alloc::{AllocError, Global};
use std::process::Abort;
use std::test::Fail;

/// The number of rounds, of ten events each.
const ROUNDS: usize = 500;

/// The text of a round of two hosts.
const TEXT: &[u8] = b"ab";

/// Whether a note is of the taken text.
fn is_taken(rt: &impl Abort, note: &Note) -> bool {
    match note {
        Note::Called {
            note: HostNote::Took { text, .. },
            ..
        } => text.to_bits() == bits_of(rt, TEXT),
        _ => false,
    }
}

#[test]
fn two_hosts(rt: HostRuntime) -> Result<(), Fail> {
    let events = texts(&rt, rt.alloc(), TEXT, ROUNDS)?;
    let mut tried = Tried::<PackedStore>::new(rt.alloc())?;
    for event in &events {
        assert!(rt; tried.steps(event));
    }
    let Some(last) = tried.notes().last() else {
        return Err("no notes".into());
    };
    assert!(rt; tried.notes().len() == events.len() && is_taken(&rt, last));
    assert!(rt; Tried::<PackedStore>::run(rt.alloc(), &events).is_ok());
    Ok(())
}

/// A round of three hosts: one resets another, and they come up; events of absent hosts and
/// impossible events have no effect.
const ROUND_OF_THREE: [ManyEvent; 10] = [
    ManyEvent::Call {
        host: 1,
        call: Call::Reset { peer: 2 },
    },
    ManyEvent::Out { host: 1 },
    ManyEvent::Deliver {
        from: 1,
        to: 2,
        link: 0,
    },
    ManyEvent::Answer {
        from: 1,
        to: 2,
        link: 0,
    },
    ManyEvent::Out { host: 2 },
    ManyEvent::Deliver {
        from: 2,
        to: 1,
        link: 0,
    },
    ManyEvent::Answer {
        from: 2,
        to: 1,
        link: 0,
    },
    ManyEvent::Call {
        host: 4,
        call: Call::Phase { peer: 1 },
    },
    ManyEvent::Lose {
        from: 1,
        to: 3,
        link: 0,
    },
    ManyEvent::Out { host: 3 },
];

fn rounds_of_three(alloc: Global) -> Result<Vec<ManyEvent>, AllocError> {
    let mut events = Vec::new(alloc);
    for _ in 0..ROUNDS {
        for event in &ROUND_OF_THREE {
            events.push(event.copied(alloc)?)?;
        }
    }
    Ok(events)
}

#[test]
fn three_hosts(rt: HostRuntime) -> Result<(), Fail> {
    let events = rounds_of_three(rt.alloc())?;
    let mut tried = ManyTried::<PackedStore>::new(rt.alloc(), &THREE)?;
    for event in &events {
        assert!(rt; tried.steps(event));
    }
    assert!(rt; tried.notes().len() == events.len() && tried.is_up(1, 2) && tried.is_up(2, 1));
    assert!(rt; ManyTried::<PackedStore>::run(rt.alloc(), &THREE, &events).is_ok());
    Ok(())
}

/// The messages that a host receives in a round: the answer to its message, RRP and ERP.
const RFNM: &[u8] = &[5, B, 0, 0];

const RRP: &[u8] = &[0, B, 0, 0, 0, 8, 0, 1, 0, 13];

const ERP: &[u8] = &[0, B, 0, 0, 0, 8, 0, 2, 0, 10, 65];

/// A round of one host: it resets its peer, comes up with it, and gets an echo reply.
fn round_of_one(rt: &impl Abort) -> [Input; 10] {
    [
        Input::Call(Call::Reset { peer: B }),
        Input::Out,
        Input::In(bits_of(rt, RFNM)),
        Input::In(bits_of(rt, RRP)),
        Input::Call(Call::Echo { peer: B, byte: 65 }),
        Input::Out,
        Input::In(bits_of(rt, RFNM)),
        Input::In(bits_of(rt, ERP)),
        Input::Call(Call::Phase { peer: B }),
        Input::Out,
    ]
}

/// Whether a host performs each input of a round.
fn goes_round<S: BitStore>(alone: &mut Alone<S>, round: &[Input]) -> bool {
    for input in round {
        if alone.step(input).is_err() {
            return false;
        }
    }
    true
}

/// Whether a host is up with its peer.
fn is_up<S: BitStore>(alone: &Alone<S>) -> bool {
    match alone.host().phase(B) {
        Ok(flags) => flags.up(),
        Err(_) => false,
    }
}

#[test]
fn one_host(rt: HostRuntime) -> Result<(), Fail> {
    let round = round_of_one(&rt);
    let mut alone = Alone::<PackedStore>::new(rt.alloc(), A, &[B])?;
    for _ in 0..ROUNDS {
        assert!(rt; goes_round(&mut alone, &round));
    }
    assert!(rt; alone.transcript().len() == ROUNDS * round.len() && is_up(&alone));
    Ok(())
}

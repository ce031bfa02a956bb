//! Allocation failures of a host with its transcript, and its notes of queued commands and kept
//! messages, which no script reads. An example is a list of steps, and runs over both stores.
//!
//! After a failed allocation, an example repeats the step, since the failure left everything
//! unchanged.
mod noted;
mod refused;
mod tried;

use crate::known::{DOWN, LINK, NO_COUNTS, OUTWARD, SENDER, UP};
use ncp_bits::{BitStore, PackedStore, PlainStore};
use ncp_host::{CallFault, Counts, HostFault, Ignored, Pair, Received, Took};
use ncp_wire::{Answer, Command};
use noted::{Act, Step, Want};
use std::alloc::Global;
use std::process::Abort;
use std::test::Fail;
use tried::Tried;

/// A connection on which the host receives, with the same link as the one on which it sends.
const INWARD: Pair = Pair {
    local: 4,
    remote: 5,
};

/// The notes of a received control message of one command, and of one of two.
const HEARD_ONE: Want<'static> = Want::In(Received::Control(1));

const HEARD_TWO: Want<'static> = Want::In(Received::Control(2));

/// An example: its name, the first steps of a new host, and the others.
type Example<'a> = (&'a str, &'a [Step<'a>], &'a [Step<'a>]);

/// Runs an example on a new host over one store, and returns whether an allocation failed.
fn goes_over<S: BitStore>(
    rt: &impl Abort,
    alloc: Global,
    (name, first, steps): &Example<'_>,
) -> Result<bool, HostFault> {
    let mut host = Tried::<S>::new(alloc)?;
    host.goes(rt, alloc, name, first);
    host.goes(rt, alloc, name, steps);
    Ok(host.was_refused())
}

#[test]
fn examples_are_noted(rt: HostRuntime) -> Result<(), Fail> {
    for example in EXAMPLES {
        let plain = goes_over::<PlainStore>(&rt, rt.alloc(), example)?;
        let packed = goes_over::<PackedStore>(&rt, rt.alloc(), example)?;
        if plain || packed {
            println!(rt; "refused: nothing happened but that a call's refusal is noted")?;
        }
    }
    Ok(())
}

const NO_STEPS: &[Step<'static>] = &[];

/// The connections of a host open, and its sender may send.
const OPENS: &[Step<'static>] = &[
    (Act::Reset, Want::Done),
    (Act::Comes(&[0, 2, 0, 0, 0, 8, 0, 2, 0, 12, 13]), HEARD_TWO),
    (Act::AskSend(OUTWARD, 8, 1024), Want::Done),
    (Act::AskReceive(INWARD, 1024), Want::Done),
    (
        Act::Comes(&[0, 2, 0, 0, 0, 8, 0, 10, 0, 1, 0, 0, 0, 2, 0, 0, 0, 3, 2]),
        HEARD_ONE,
    ),
    (
        Act::Comes(&[0, 2, 0, 0, 0, 8, 0, 10, 0, 2, 0, 0, 0, 5, 0, 0, 0, 4, 8]),
        HEARD_ONE,
    ),
    (
        Act::Comes(&[0, 2, 0, 0, 0, 8, 0, 8, 0, 4, 2, 0, 2, 0, 0, 0, 16]),
        HEARD_ONE,
    ),
];

/// RST, RRP, STR, RTS, ALL, GVB, INR and CLS, in the order they were queued.
const CALLED: &[u8] = &[
    0, 2, 0, 0, 0, 8, 0, 45, 0, 12, 13, 2, 0, 0, 0, 3, 0, 0, 0, 2, 8, 1, 0, 0, 0, 4, 0, 0, 0, 5, 2,
    4, 2, 0, 2, 0, 0, 0, 24, 5, 2, 128, 0, 7, 2, 3, 0, 0, 0, 4, 0, 0, 0, 5,
];

const EXAMPLES: &[Example<'static>] = &[
    // An echo before the host is up, a stray answer, and a second echo before the first is answered.
    (
        "a_stray_answer_and_an_echo_are_noted",
        NO_STEPS,
        &[
            (Act::Phase, Want::Phase(DOWN)),
            (Act::Echo(64), Want::Refused(CallFault::NotUp)),
            (
                Act::Comes(&[5, 2, 0, 0]),
                Want::Answered(0, Answer::Rfnm, Received::Stray),
            ),
            (
                Act::Counts,
                Want::Counts(Counts {
                    stray: 1,
                    ..NO_COUNTS
                }),
            ),
            (Act::Comes(&[0, 2, 0, 0, 0, 8, 0, 1, 0, 12]), HEARD_ONE),
            (Act::Phase, Want::Phase(UP)),
            (Act::Echo(65), Want::Done),
            (Act::Echo(66), Want::Refused(CallFault::Busy)),
            (
                Act::Output,
                Want::Out(&[0, 2, 0, 0, 0, 8, 0, 3, 0, 13, 9, 65]),
            ),
            (Act::Output, Want::Nothing),
        ],
    ),
    // Each call with an effect, when it is granted.
    (
        "calls_are_noted",
        OPENS,
        &[
            (Act::Give(OUTWARD, &[0x61, 0x62, 0x63]), Want::Done),
            (Act::Allocate(INWARD, 2, 24), Want::Done),
            (
                Act::Comes(&[0, 2, 2, 0, 0, 8, 0, 2, 0, 0x68, 0x69]),
                Want::In(Received::Text(Took::Admitted)),
            ),
            (Act::Take(INWARD, 100), Want::Took(&[0x68, 0x69])),
            (Act::CallBack(INWARD, 128, 0), Want::Done),
            (Act::Interrupt(INWARD), Want::Done),
            (Act::Close(INWARD), Want::Done),
            (Act::Wake, Want::Done),
            (Act::Output, Want::Out(CALLED)),
            (
                Act::Output,
                Want::Out(&[0, 2, 2, 0, 0, 8, 0, 2, 0, 0x61, 0x62]),
            ),
            (Act::Output, Want::Nothing),
        ],
    ),
    // The reading calls, of a connection and of the peer.
    (
        "what_is_read_is_noted",
        OPENS,
        &[
            (Act::Comes(&[5]), Want::In(Received::Short)),
            (
                Act::Comes(&[
                    0, 2, 0, 0, 0, 8, 0, 12, 0, 11, 1, 14, 0, 0, 0, 0, 0, 0, 0, 0, 0,
                ]),
                HEARD_ONE,
            ),
            (Act::Echo(65), Want::Done),
            (Act::Comes(&[0, 2, 0, 0, 0, 8, 0, 2, 0, 10, 65]), HEARD_ONE),
            (Act::State(OUTWARD), Want::State(SENDER)),
            (Act::Echoed, Want::Echoed(Some(65))),
            (Act::Errors, Want::Errors(1)),
            (Act::Counts, Want::Counts(NO_COUNTS)),
            (Act::Waiting(0), Want::Waiting(Some(Command::Rst))),
            (Act::Kept(LINK), Want::Kept(None)),
            (
                Act::Ignored,
                Want::Ignored(Ignored {
                    short: 1,
                    other: 0,
                    unknown: 0,
                }),
            ),
        ],
    ),
];

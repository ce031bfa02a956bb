//! Properties that no clause states: the definitions mean the same as the worked examples, and
//! memory is allocated only when needed. An example is a list of steps, and runs over both stores.
mod allocation;
mod closing;
mod connection;
mod copies;
mod memory;
mod requests;
mod steps;
mod texts;
mod tried;

use ncp_bits::{PackedStore, PlainStore};
use ncp_conn::{Pair, Record, Role};
use std::alloc::Global;
use std::process::Abort;
use std::test::Fail;
use steps::Step;
use tried::Tried;

/// The connection between sockets 3 and 2, as named at the sender and at the receiver.
const OUTWARD: Pair = Pair {
    local: 3,
    remote: 2,
};

const INWARD: Pair = Pair {
    local: 2,
    remote: 3,
};

/// Another pair, as named at a receiver.
const NEXT_INWARD: Pair = Pair {
    local: 4,
    remote: 5,
};

/// The first link of a connection.
const LINK: u8 = 2;

/// The room of each end in bits, unless a test gives another.
const ROOM: u32 = 1024;

/// An open receiver of 8-bit bytes on link 2: no allocation is outstanding, and no text is held.
const RECEIVER: Record = Record {
    end: Role::Receive,
    asked: true,
    heard: true,
    opened: true,
    leaving: false,
    left: false,
    cls: false,
    link: LINK,
    size: 8,
    messages: 0,
    bits: 0,
    stored: 0,
    busy: false,
    recall: false,
    interrupts: 0,
};

/// An open sender of 8-bit bytes on link 2, without an allocation and without text to send.
const SENDER: Record = Record {
    end: Role::Send,
    ..RECEIVER
};

/// A sender and a receiver that are requested only here.
const ASKED_TO_SEND: Record = Record {
    heard: false,
    opened: false,
    link: 0,
    ..SENDER
};

const ASKED_TO_RECEIVE: Record = Record {
    heard: false,
    opened: false,
    size: 0,
    ..RECEIVER
};

/// An example: its name, and the steps of a new table.
type Example<'a> = (&'a str, &'a [Step<'a>]);

/// Runs these steps on a new table, over both stores.
fn goes(rt: &impl Abort, alloc: Global, (name, steps): Example<'_>) -> Result<(), Fail> {
    Tried::<PlainStore>::new(alloc)?.goes(rt, name, steps);
    Tried::<PackedStore>::new(alloc)?.goes(rt, name, steps);
    Ok(())
}

/// Runs each example on new tables.
fn goes_through(rt: &impl Abort, alloc: Global, examples: &[Example<'_>]) -> Result<(), Fail> {
    for example in examples {
        goes(rt, alloc, *example)?;
    }
    Ok(())
}

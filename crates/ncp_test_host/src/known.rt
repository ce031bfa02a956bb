//! The common part of the examples: the host and its peer, a connection, and its records.
use ncp_bits::Bits;
use ncp_host::{Counts, Flags, Pair, Record, Role};
use std::process::Abort;

/// The bits of these bytes.
pub(crate) fn bits_of(rt: &impl Abort, bytes: &[u8]) -> Bits {
    Bits::from_bytes(bytes, bytes.len().saturating_mul(8)).expect(rt, "bits")
}

/// The host of the examples, and its first peer.
pub(crate) const ME: u8 = 1;

pub(crate) const PEER: u8 = 2;

/// The first link of a connection.
pub(crate) const LINK: u8 = 2;

/// Socket 3 sends to socket 2.
pub(crate) const OUTWARD: Pair = Pair {
    local: 3,
    remote: 2,
};

/// No flag is set: the host is up with the peer.
pub(crate) const UP: Flags = Flags {
    down: false,
    want: false,
    owe: false,
    wait: false,
};

/// The flags of a new peer.
pub(crate) const DOWN: Flags = Flags { down: true, ..UP };

/// All counts are zero.
pub(crate) const NO_COUNTS: Counts = Counts {
    stray: 0,
    faults: 0,
    wrong_link: 0,
    wrong_size: 0,
    not_up: 0,
    late: 0,
    over: 0,
};

/// An open receiver of 8-bit bytes on link 2: no allocation is outstanding, and no text is held.
pub(crate) const RECEIVER: Record = Record {
    end: Role::Receive,
    asked: true,
    heard: true,
    opened: true,
    leaving: false,
    left: false,
    cls: false,
    link: LINK,
    size: 8,
    messages: 0,
    bits: 0,
    stored: 0,
    busy: false,
    recall: false,
    interrupts: 0,
};

/// An open sender of 8-bit bytes on link 2, which may send two messages and sixteen bits.
pub(crate) const SENDER: Record = Record {
    end: Role::Send,
    messages: 2,
    bits: 16,
    ..RECEIVER
};

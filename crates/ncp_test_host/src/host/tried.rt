//! A host under test, up with its peer. The functions here have no contracts: the results of calls
//! are found by running them, so the prover need not follow a host through a test, but only check
//! that each step is safe and terminates.
use super::{CONTROL, INWARD, REGULAR, RFNM, ROOM};
use crate::known::{ME, OUTWARD, PEER, UP, bits_of};
use ncp_bits::{BitStore, Bits};
use ncp_host::{Host, Pair, Received, Record};
use ncp_wire::Command;
use std::alloc::Global;
use std::process::Abort;
use std::test::Fail;

#[derive(Drop)]
pub(super) struct Tried<S: BitStore> {
    pub(super) host: Host<S>,
}

// The matching STR of size 8 for the receiver, and RTS on link 2 for the sender.
const STR: [u8; 10] = [2, 0, 0, 0, 3, 0, 0, 0, 2, 8];

const RTS: [u8; 10] = [1, 0, 0, 0, 2, 0, 0, 0, 3, 2];

// The leader and the prefix of a regular message of `count` bytes of 8 bits, from or for the peer.
fn prefix(rt: &impl Abort, link: u8, count: u16) -> Bits {
    let [high, low] = count.to_be_bytes();
    bits_of(rt, &[REGULAR, PEER, link, 0, 0, 8, high, low, 0])
}

// A regular message of bytes of 8 bits.
fn message(rt: &impl Abort, link: u8, text: &[u8]) -> Bits {
    let count = u16::try_from(text.len()).expect(rt, "a text");
    let mut bits = prefix(rt, link, count);
    bits.append(bits_of(rt, text).whole()).expect(rt, "room");
    bits
}

/// A control message with `count` copies of an eight-byte command.
pub(super) fn repeated(rt: &impl Abort, command: &[u8; 8], count: u8) -> Bits {
    let mut bits = prefix(rt, CONTROL, 8 * u16::from(count));
    let command = bits_of(rt, command);
    for _command in 0..count {
        bits.append(command.whole()).expect(rt, "room");
    }
    bits
}

impl<S: BitStore> Tried<S> {
    /// A host that came up with its peer after both reset.
    pub(super) fn up(rt: &impl Abort, alloc: Global) -> Result<Self, Fail> {
        let mut tried = Tried {
            host: Host::new(alloc, ME, &[PEER])?,
        };
        tried.host.reset(PEER)?;
        let is_up = tried.hears(rt, &[12, 13], 2) && tried.says(rt, &[12, 13]);
        assert!(rt; is_up && tried.host.phase(PEER) == Ok(UP));
        Ok(tried)
    }

    /// Opens a receiver without an allocation; its commands are sent.
    pub(super) fn opens_receiver(&mut self, rt: &impl Abort) -> bool {
        self.host
            .ask_receive(PEER, INWARD.local, INWARD.remote, ROOM)
            .is_ok()
            && self.hears(rt, &STR, 1)
            && self.says(rt, &RTS)
    }

    /// Opens a sender that may send two messages and sixteen bits; its commands are sent.
    pub(super) fn opens_sender(&mut self, rt: &impl Abort) -> bool {
        self.host
            .ask_send(PEER, OUTWARD.local, OUTWARD.remote, 8, ROOM)
            .is_ok()
            && self.says(rt, &STR)
            && self.hears(rt, &RTS, 1)
            && self.hears(rt, &[4, 2, 0, 2, 0, 0, 0, 16], 1)
    }

    /// Whether a received message has this outcome.
    pub(super) fn receives(&mut self, message: &Bits, want: Received) -> bool {
        self.host.receive(message) == want
    }

    /// Whether `commands` commands are read from a received control message.
    pub(super) fn hears(&mut self, rt: &impl Abort, text: &[u8], commands: u32) -> bool {
        self.receives(&message(rt, CONTROL, text), Received::Control(commands))
    }

    /// Whether an answer frees a link.
    pub(super) fn answered(&mut self, rt: &impl Abort, kind: u8, link: u8) -> bool {
        self.receives(&bits_of(rt, &[kind, PEER, link, 0]), Received::Answered)
    }

    /// Whether this message is sent.
    pub(super) fn puts(&mut self, message: &Bits) -> bool {
        match self.host.next_output() {
            Some(output) => output == *message,
            None => false,
        }
    }

    /// Whether nothing is sent.
    pub(super) fn is_silent(&mut self) -> bool {
        self.host.next_output().is_none()
    }

    /// Whether a message with this text is sent on a link.
    pub(super) fn sends(&mut self, rt: &impl Abort, link: u8, text: &[u8]) -> bool {
        self.puts(&message(rt, link, text))
    }

    /// Whether a control message with these bytes is sent. It is answered with an RFNM.
    pub(super) fn says(&mut self, rt: &impl Abort, text: &[u8]) -> bool {
        self.sends(rt, CONTROL, text) && self.answered(rt, RFNM, CONTROL)
    }

    /// Whether these bytes are given.
    pub(super) fn is_given(&mut self, rt: &impl Abort, pair: Pair, text: &[u8]) -> bool {
        self.host.give(PEER, pair, &bits_of(rt, text)).is_ok()
    }

    /// Whether a connection has this record.
    pub(super) fn knows(&self, pair: Pair, want: &Record) -> bool {
        match self.host.state(PEER, pair) {
            Ok(record) => record == *want,
            Err(_) => false,
        }
    }

    /// Whether this command is queued at index `place`.
    pub(super) fn has_waiting(&self, place: u32, want: &Command) -> bool {
        match self.host.waiting(PEER, place) {
            Some(command) => command == *want,
            None => false,
        }
    }

    /// Whether `count` commands are queued.
    pub(super) fn wait(&self, count: u32) -> bool {
        let is_last = match count.checked_sub(1) {
            Some(last) => self.host.waiting(PEER, last).is_some(),
            None => true,
        };
        is_last && self.host.waiting(PEER, count).is_none()
    }

    /// Whether a link keeps a message with this text.
    pub(super) fn keeps(&self, rt: &impl Abort, link: u8, text: &[u8]) -> bool {
        match self.host.kept(PEER, link) {
            Some(kept) => *kept == message(rt, link, text),
            None => false,
        }
    }

    /// Whether this connection is at index `place`, with this record.
    pub(super) fn has_at(&self, place: u32, pair: Pair, want: &Record) -> bool {
        match self.host.connection_at(PEER, place) {
            Ok(Some((found, record))) => found == pair && record == *want,
            _ => false,
        }
    }
}

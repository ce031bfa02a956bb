//! The results of a host's readers.
use crate::events::{LINK, RECEIVER, SENDER};
use ncp_bits::BitStore;
use ncp_host::{CallFault, Counts, Flags, Host, Ignored, Record};

/// The readings of a host: of a peer, of both ends of the examples' connection, and of the front of
/// the queue.
#[derive(Clone, Copy, Drop, PartialEq)]
pub(super) struct Reading {
    flags: Result<Flags, CallFault>,
    sender: Result<Record, CallFault>,
    receiver: Result<Record, CallFault>,
    counts: Result<Counts, CallFault>,
    echoed: Result<Option<u8>, CallFault>,
    waits: [bool; 3],
    keeps: [bool; 2],
    ignored: Ignored,
}

pub(super) fn reading_of<S: BitStore>(host: &Host<S>, peer: u8) -> Reading {
    Reading {
        flags: host.phase(peer),
        sender: host.state(peer, SENDER),
        receiver: host.state(peer, RECEIVER),
        counts: host.counts(peer),
        echoed: host.echoed(peer),
        waits: [
            host.waiting(peer, 0).is_some(),
            host.waiting(peer, 1).is_some(),
            host.waiting(peer, 2).is_some(),
        ],
        keeps: [
            host.kept(peer, 0).is_some(),
            host.kept(peer, LINK).is_some(),
        ],
        ignored: host.ignored(),
    }
}

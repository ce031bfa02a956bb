//! Behaviour that no script of one host shows: queued commands, kept messages, the list of
//! connections, a restart of the IMP, and the faults of creating a host. Everything else is in
//! `data/host_*.cases` of `ncp_test_cases`.
mod faults;
mod inside;
mod tried;

use crate::known::{DOWN, ME, UP};
use ncp_bits::{BitStore, PackedStore, PlainStore};
use ncp_host::{Host, HostFault, Pair};
use std::alloc::Global;
use std::test::Fail;

/// The types of the messages from an IMP to its host.
pub(crate) const REGULAR: u8 = 0;

pub(crate) const RFNM: u8 = 5;

const DEAD: u8 = 7;

/// The link of the control messages.
pub(crate) const CONTROL: u8 = 0;

/// A host that is no peer.
const NOBODY: u8 = 9;

/// Socket 2 receives from socket 3.
pub(crate) const INWARD: Pair = Pair {
    local: 2,
    remote: 3,
};

/// The room of an end in bits, unless an example gives another.
pub(crate) const ROOM: u32 = 1024;

#[test]
fn a_host_is_up_without_flags(rt: HostRuntime) {
    assert!(rt; UP.up() && !DOWN.up());
}

fn are_bad<S: BitStore>(alloc: Global, peers: &[u8]) -> bool {
    let host = Host::<S>::new(alloc, ME, peers);
    matches!(&host, Err(HostFault::BadPeers))
}

#[test]
fn peers_are_one_to_eight_others(rt: HostRuntime) {
    const BAD: &[&[u8]] = &[&[], &[2, 2], &[1], &[2, 3, 4, 5, 6, 7, 8, 9, 10]];
    for peers in BAD {
        assert!(rt;
            are_bad::<PlainStore>(rt.alloc(), peers) && are_bad::<PackedStore>(rt.alloc(), peers)
        );
    }
}

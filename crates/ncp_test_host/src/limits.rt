//! With ample memory hosts with one peer, with four and with eight are made, copied, saved and
//! loaded: new ones, and those that are at every limit with their first peer, with the least room of
//! a connection, with one between, and with the greatest. (Hosts at every limit with each peer:
//! `examples/embed/limits_test.c`.)
use crate::known::{ME, UP, bits_of};
use ncp_bits::{BitStore, Bits, PackedStore, PlainStore};
use ncp_host::{CallFault, Host, Pair};
use ncp_model::{MAX_ERRORS, MAX_OWN, MAX_ROOM, MAX_WAITING};
use std::alloc::Global;
use std::process::Abort;
use std::test::Fail;

const PEERS: [u8; 8] = [2, 3, 4, 5, 6, 7, 8, 9];

/// Numbers of peers, and rooms in bits.
const SIZES: [(usize, u32); 3] = [(1, 1), (4, MAX_ROOM / 2), (8, MAX_ROOM)];

/// As many requests to send as to receive.
const HALF: u8 = MAX_OWN as u8 / 2;

/// The number of texts that fill a room, but for the least.
const TEXTS: u32 = 16;

/// The first link of a connection, and the type of an RFNM.
const FIRST: u8 = 2;

const RFNM: u8 = 5;

/// ECO of 65, and an ERR.
const ECO: [u8; 2] = [9, 65];

const ERR: [u8; 12] = [11, 3, 0, 0, 0, 0, 0, 0, 0, 0, 0, 0];

/// `len` zeros.
fn zeros(rt: &impl Abort, len: u32) -> Bits {
    Bits::from_bytes(&[0; 1024], len as usize).expect(rt, "bits")
}

/// A regular message from a peer on a link, in bytes of `size` bits.
fn message(rt: &impl Abort, peer: u8, link: u8, (size, count): (u8, u32), text: &Bits) -> Bits {
    let [_, _, high, low] = count.to_be_bytes();
    let mut bits = bits_of(rt, &[0, peer, link, 0, 0, size, high, low, 0]);
    bits.append(text.whole()).expect(rt, "room");
    bits
}

/// Receives commands from a peer.
fn hears<S: BitStore>(rt: &impl Abort, host: &mut Host<S>, peer: u8, commands: &[u8]) {
    let text = bits_of(rt, commands);
    let count = u32::try_from(commands.len()).expect(rt, "a text");
    let _heard = host.receive(&message(rt, peer, 0, (8, count), &text));
}

fn comes_up<S: BitStore>(rt: &impl Abort, host: &mut Host<S>, peer: u8) -> Result<(), Fail> {
    host.reset(peer)?;
    hears(rt, host, peer, &[12, 13]);
    let _out = host.next_output();
    let _answered = host.receive(&bits_of(rt, &[RFNM, peer, 0, 0]));
    assert!(rt; host.phase(peer) == Ok(UP));
    Ok(())
}

/// The pair of this number on which the host sends, and that on which it receives.
fn pairs(number: u8) -> (Pair, Pair) {
    let even = 2 * u32::from(number);
    let sender = Pair {
        local: even + 1,
        remote: even,
    };
    let receiver = Pair {
        local: even,
        remote: even + 1,
    };
    (sender, receiver)
}

/// Opens a connection each way, in bytes of one bit.
fn opens<S: BitStore>(
    rt: &impl Abort,
    host: &mut Host<S>,
    peer: u8,
    number: u8,
    room: u32,
) -> Result<(), Fail> {
    let (sender, receiver) = pairs(number);
    host.ask_send(peer, sender.local, sender.remote, 1, room)?;
    host.ask_receive(peer, receiver.local, receiver.remote, room)?;
    let [_, _, _, even] = receiver.local.to_be_bytes();
    let [_, _, _, odd] = sender.local.to_be_bytes();
    let link = FIRST.saturating_add(number);
    hears(rt, host, peer, &[1, 0, 0, 0, even, 0, 0, 0, odd, link]);
    hears(rt, host, peer, &[2, 0, 0, 0, odd, 0, 0, 0, even, 1]);
    Ok(())
}

/// Fills the room of the first sender, and that of the first receiver, with texts of `len` bits.
fn fills<S: BitStore>(
    rt: &impl Abort,
    host: &mut Host<S>,
    peer: u8,
    (len, room): (u32, u32),
) -> Result<(), Fail> {
    let (sender, receiver) = pairs(0);
    let link = host.state(peer, receiver)?.link;
    let text = zeros(rt, len);
    host.allocate(peer, receiver, TEXTS as u16, room)?;
    for _text in 0..room.div_ceil(len.max(1)) {
        host.give(peer, sender, &text)?;
        let _held = host.receive(&message(rt, peer, link, (1, len), &text));
    }
    let is_full = host.give(peer, sender, &zeros(rt, 1)) == Err(CallFault::NoRoom);
    assert!(rt; is_full && host.state(peer, receiver)?.stored == room);
    Ok(())
}

/// Queues as many commands as may wait.
fn waits<S: BitStore>(rt: &impl Abort, host: &mut Host<S>, peer: u8) {
    let last = MAX_WAITING as u32 - 1;
    for _echo in 0..MAX_WAITING {
        if host.waiting(peer, last).is_none() {
            hears(rt, host, peer, &ECO);
        }
    }
    assert!(rt; host.waiting(peer, last).is_some() && host.phase(peer) == Ok(UP));
}

/// Brings a peer to every limit, with rooms of `room` bits.
fn reaches<S: BitStore>(
    rt: &impl Abort,
    host: &mut Host<S>,
    peer: u8,
    room: u32,
) -> Result<(), Fail> {
    for number in 0..HALF {
        opens(rt, host, peer, number, room)?;
    }
    fills(rt, host, peer, (room.div_ceil(TEXTS), room))?;
    assert!(rt; host.ask_send(peer, 201, 200, 8, room) == Err(CallFault::TableFull));
    for _error in 0..MAX_ERRORS + 1 {
        hears(rt, host, peer, &ERR);
    }
    assert!(rt; host.errors(peer)?.len() == MAX_ERRORS);
    waits(rt, host, peer);
    Ok(())
}

/// A copy of a host, and the host that is loaded of what it saves, are saved as the same bytes.
fn is_kept<S: BitStore>(rt: &impl Abort, alloc: Global, host: &Host<S>) -> Result<(), Fail> {
    let bytes = host.save(alloc)?;
    let copy = host.copy(alloc)?;
    assert!(rt; copy.save(alloc)?.as_slice() == bytes.as_slice());
    let loaded = Host::<S>::load(alloc, bytes.as_slice())?;
    assert!(rt; loaded.save(alloc)?.as_slice() == bytes.as_slice());
    Ok(())
}

fn are_kept<S: BitStore>(
    rt: &impl Abort,
    alloc: Global,
    (count, room): (usize, u32),
) -> Result<(), Fail> {
    let peers = PEERS.get(..count).expect(rt, "peers");
    let mut host = Host::<S>::new(alloc, ME, peers)?;
    is_kept(rt, alloc, &host)?;
    for peer in peers {
        comes_up(rt, &mut host, *peer)?;
    }
    reaches(rt, &mut host, PEERS[0], room)?;
    is_kept(rt, alloc, &host)
}

#[test]
fn has_memory_for_hosts(rt: HostRuntime) -> Result<(), Fail> {
    for sizes in SIZES {
        are_kept::<PackedStore>(&rt, rt.alloc(), sizes)?;
    }
    are_kept::<PlainStore>(&rt, rt.alloc(), SIZES[0])
}

//! Saving and loading a host: the loaded host behaves like the saved one. Truncated or changed
//! bytes either load as no host, or as the host that is saved as exactly these bytes.
use crate::host::{CONTROL, INWARD, REGULAR, RFNM, ROOM};
use crate::known::{ME, OUTWARD, PEER, bits_of};
use ncp_bits::{BitStore, PackedStore, PlainStore};
use ncp_host::{Host, LoadFault, Pair};
use std::alloc::Global;
use std::process::Abort;
use std::test::Fail;

/// A peer held for dead, and one that was held and is tried again.
const HELD: u8 = 3;

const WOKEN: u8 = 4;

const DEAD: u8 = 7;

/// The offset of the version.
const VERSION: usize = 8;

/// RST and RRP of the peer.
const COMES_UP: [u8; 11] = [REGULAR, PEER, CONTROL, 0, 0, 8, 0, 2, 0, 12, 13];

/// RTS of socket 2 for our socket 3 on link 5, and ALL of three messages and 64 bits.
const RTS_AND_ALL: [u8; 27] = [
    REGULAR, PEER, CONTROL, 0, 0, 8, 0, 18, 0, 1, 0, 0, 0, 2, 0, 0, 0, 3, 5, 4, 5, 0, 3, 0, 0, 0,
    64,
];

/// STR of socket 3 for our socket 2, and an ERR.
const STR_AND_ERR: [u8; 31] = [
    REGULAR, PEER, CONTROL, 0, 0, 8, 0, 22, 0, 2, 0, 0, 0, 3, 0, 0, 0, 2, 8, 11, 1, 7, 7, 7, 7, 7,
    7, 7, 7, 7, 7,
];

/// RTS of socket 6 for our socket 7 on link 9, and an ERP of 44.
const RTS_AND_ERP: [u8; 21] = [
    REGULAR, PEER, CONTROL, 0, 0, 8, 0, 12, 0, 1, 0, 0, 0, 6, 0, 0, 0, 7, 9, 10, 44,
];

/// A new host 1 with host 2 as its peer: it received a message too short for a leader, then the two
/// came up, and our socket 3 asked for socket 2 and for an echo of 33.
fn small<S: BitStore>(rt: &impl Abort, alloc: Global) -> Result<Host<S>, Fail> {
    let mut host = Host::new(alloc, 1, &[2])?;
    let _short = host.receive(&bits_of(rt, &[1]));
    host.reset(2)?;
    let _up = host.receive(&bits_of(rt, &COMES_UP));
    host.ask_send(2, 3, 2, 8, 1024)?;
    host.echo(2, 33)?;
    Ok(host)
}

/// The saved form of `small`, without the 71 empty slots, the seven counts of four bytes, and the 0
/// after the last peer.
const SMALL: [u8; 88] = [
    b'N', b'C', b'P', b' ', b'h', b'o', b's', b't', 1, // The name and the version.
    1, 0, 0, 0, 1, 0, 0, 0, 0, 0, 0, 0, 0, // The host, and what it ignored.
    1, 2, 0, 0, 0, 0, // A peer, and no flag.
    1, 12, 1, 13, 1, 2, 0, 0, 0, 3, 0, 0, 0, 2, 8, 1, 9, 33, 0, // RST, RRP, STR and ECO are queued.
    1, 0, 0, 0, 3, 0, 0, 0, 2, 1, 0, 0, 0, 0, 0, 0, 0, // The connection that was requested.
    0, 8, 0, 0, 0, 0, 0, 0, 0, 0, 4, 0, 0, 0, 0, 0, 0, 0, 0, 0, 0, // Its numbers, nothing stored, and no other.
    1, 0, 0, // An echo is awaited, none was answered, no error.
];

fn saves_as_bytes<S: BitStore>(rt: &impl Abort, alloc: Global) -> Result<(), Fail> {
    let bytes = small::<S>(rt, alloc)?.save(alloc)?;
    assert!(rt; bytes.as_slice().starts_with(&SMALL));
    assert!(rt; bytes.len() == SMALL.len() + 71 + 4 * 7 + 1);
    assert!(rt;
        bytes
            .as_slice()
            .iter()
            .skip(SMALL.len())
            .all(|byte| *byte == 0)
    );
    Ok(())
}

/// With the first peer, one text is unacknowledged, one is stored and one is held; one connection
/// is requested only here, one only there, and one is closing. To the second peer an RST is held,
/// and to the third one is queued again.
fn lived<S: BitStore>(rt: &impl Abort, alloc: Global) -> Result<Host<S>, Fail> {
    let mut host = Host::new(alloc, ME, &[PEER, HELD, WOKEN])?;
    host.reset(PEER)?;
    let _up = host.receive(&bits_of(rt, &COMES_UP));
    host.ask_send(PEER, OUTWARD.local, OUTWARD.remote, 8, ROOM)?;
    host.ask_receive(PEER, INWARD.local, INWARD.remote, ROOM)?;
    let _opened = host.receive(&bits_of(rt, &RTS_AND_ALL));
    let _error = host.receive(&bits_of(rt, &STR_AND_ERR));
    host.give(PEER, OUTWARD, &bits_of(rt, b"ab"))?;
    host.allocate(PEER, INWARD, 2, 32)?;
    let _control = host.next_output();
    let _text = host.next_output();
    host.give(PEER, OUTWARD, &bits_of(rt, b"cde"))?;
    let _held = host.receive(&bits_of(rt, &[REGULAR, PEER, 2, 0, 0, 8, 0, 2, 0, b'x', b'y']));
    host.interrupt(PEER, OUTWARD)?;
    host.echo(PEER, 44)?;
    let _echoed = host.receive(&bits_of(rt, &RTS_AND_ERP));
    host.echo(PEER, 33)?;
    host.ask_receive(PEER, 4, 5, ROOM)?;
    host.ask_send(PEER, 9, 8, 36, ROOM)?;
    host.close(
        PEER,
        Pair {
            local: 9,
            remote: 8,
        },
    )?;
    host.reset(HELD)?;
    host.reset(WOKEN)?;
    let _rst = host.next_output();
    let _other_rst = host.next_output();
    let _dead = host.receive(&bits_of(rt, &[DEAD, HELD, CONTROL, 0]));
    let _also_dead = host.receive(&bits_of(rt, &[DEAD, WOKEN, CONTROL, 0]));
    host.wake(WOKEN)?;
    let _stray = host.receive(&bits_of(rt, &[RFNM, HELD, 9, 0]));
    let _short = host.receive(&bits_of(rt, &[1]));
    Ok(host)
}

/// Whether bytes load as no host, or as the host that is saved as exactly these bytes.
fn tells<S: BitStore>(alloc: Global, bytes: &[u8]) -> Result<bool, Fail> {
    match Host::<S>::load(alloc, bytes) {
        Ok(host) => Ok(host.save(alloc)?.as_slice() == bytes),
        Err(fault) => Ok(fault != LoadFault::OutOfMemory),
    }
}

/// The bytes with one of them changed.
fn changed(alloc: Global, bytes: &[u8], place: usize) -> Result<Vec<u8>, Fail> {
    let mut changed = bytes.to_vec(alloc)?;
    if let Some(byte) = changed.get_mut(place) {
        *byte = byte.wrapping_add(1);
    }
    Ok(changed)
}

fn refuses<S: BitStore>(rt: &impl Abort, alloc: Global, bytes: &[u8]) -> Result<(), Fail> {
    for place in 0..bytes.len() {
        let front = Host::<S>::load(alloc, &bytes[..place]);
        assert!(rt; front.err() == Some(LoadFault::NotAHost));
        assert!(rt; tells::<S>(alloc, changed(alloc, bytes, place)?.as_slice())?);
    }
    let other = Host::<S>::load(alloc, changed(alloc, bytes, VERSION)?.as_slice());
    assert!(rt; other.err() == Some(LoadFault::OtherVersion));
    Ok(())
}

/// Whether a host has everything in the description of `lived`.
fn has_all<S: BitStore>(host: &Host<S>) -> Result<bool, Fail> {
    let texts = host.state(PEER, OUTWARD)?.stored == 24 && host.state(PEER, INWARD)?.stored == 16;
    let heard = host.echoed(PEER)? == Some(44) && host.errors(PEER)?.len() == 1;
    let slots = host.kept(PEER, 5).is_some() && host.kept(WOKEN, CONTROL).is_some();
    let held = host.is_held(HELD, CONTROL)? && !host.is_held(WOKEN, CONTROL)?;
    let places = host.connection_at(PEER, 4)?.is_some() && host.waiting(PEER, 3).is_some();
    Ok(texts && heard && slots && held && places)
}

fn lives_on<S: BitStore>(rt: &impl Abort, alloc: Global) -> Result<(), Fail> {
    let mut host = lived::<S>(rt, alloc)?;
    assert!(rt; has_all(&host)?);
    let bytes = host.save(alloc)?;
    let mut loaded = Host::<S>::load(alloc, bytes.as_slice())?;
    assert!(rt; loaded.save(alloc)?.as_slice() == bytes.as_slice());
    host.wake(HELD)?;
    loaded.wake(HELD)?;
    for link in 0..10 {
        let taken = bits_of(rt, &[RFNM, PEER, link, 0]);
        assert!(rt; host.receive(&taken) == loaded.receive(&taken));
    }
    for _message in 0..10 {
        assert!(rt; host.next_output() == loaded.next_output());
    }
    assert!(rt; host.take(PEER, INWARD, 9) == loaded.take(PEER, INWARD, 9));
    assert!(rt; host.save(alloc)?.as_slice() == loaded.save(alloc)?.as_slice());
    Ok(())
}

#[test]
fn saved_and_loaded(rt: HostRuntime) -> Result<(), Fail> {
    saves_as_bytes::<PackedStore>(&rt, rt.alloc())?;
    lives_on::<PlainStore>(&rt, rt.alloc())?;
    lives_on::<PackedStore>(&rt, rt.alloc())?;
    let bytes = lived::<PackedStore>(&rt, rt.alloc())?.save(rt.alloc())?;
    refuses::<PackedStore>(&rt, rt.alloc(), bytes.as_slice())
}

//! Allocation failures of a host and of its link slots. Here each test has ample memory:
//! `bench/refuse.py` runs each test repeatedly, fails one allocation after the other, and reads the
//! line printed for it.
use crate::host::{CONTROL, INWARD, REGULAR, RFNM, ROOM};
use crate::known::{LINK, ME, OUTWARD, PEER, UP, bits_of};
use ncp_bits::{BitStore, PackedStore, PlainStore};
use ncp_host::{CallFault, Host, HostFault, LoadFault, Pair};
use ncp_slot::Slots;
use ncp_slot::laws::{LinkEvent, LinkNote, run_link};
use ncp_wire::Answer;
use std::alloc::Global;
use std::process::Abort;
use std::test::Fail;

/// RST and RRP from the peer.
const COMING_UP: [u8; 11] = [REGULAR, PEER, CONTROL, 0, 0, 8, 0, 2, 0, 12, 13];

/// A new host, and whether an allocation failed once.
fn made<S: BitStore>(alloc: Global) -> Result<(Host<S>, bool), HostFault> {
    match Host::new(alloc, ME, &[PEER]) {
        Err(HostFault::OutOfMemory) => Ok((Host::new(alloc, ME, &[PEER])?, true)),
        Err(fault) => Err(fault),
        Ok(host) => Ok((host, false)),
    }
}

/// A host that is up with its peer and has no queued commands.
fn up<S: BitStore>(rt: &impl Abort, alloc: Global) -> Result<Host<S>, Fail> {
    let (mut host, _refused) = made::<S>(alloc)?;
    host.reset(PEER)?;
    let _up = host.receive(&bits_of(rt, &COMING_UP));
    let _out = host.next_output();
    let _answered = host.receive(&bits_of(rt, &[RFNM, PEER, CONTROL, 0]));
    assert!(rt; host.phase(PEER) == Ok(UP));
    Ok(host)
}

/// Whether a request had no effect: the pair has no record, no command is queued, and no link is in
/// use, since the next request to receive takes the first.
fn is_as_before<S: BitStore>(host: &mut Host<S>, pair: Pair) -> bool {
    let has_none = host.state(PEER, pair) == Err(CallFault::NoEntry);
    let waits_none = host.waiting(PEER, 0).is_none();
    let asked = host
        .ask_receive(PEER, INWARD.local, INWARD.remote, ROOM)
        .is_ok();
    let first = host
        .state(PEER, INWARD)
        .is_ok_and(|record| record.link == LINK);
    has_none && waits_none && asked && first
}

/// Whether an allocation failed for the request to send.
fn asks_to_send<S: BitStore>(rt: &impl Abort, alloc: Global) -> Result<bool, Fail> {
    let mut host = up::<S>(rt, alloc)?;
    let Err(fault) = host.ask_send(PEER, OUTWARD.local, OUTWARD.remote, 8, ROOM) else {
        return Ok(false);
    };
    assert!(rt; fault == CallFault::OutOfMemory && is_as_before(&mut host, OUTWARD));
    Ok(true)
}

/// Whether an allocation failed for the request to receive.
fn asks_to_receive<S: BitStore>(rt: &impl Abort, alloc: Global) -> Result<bool, Fail> {
    let mut host = up::<S>(rt, alloc)?;
    let Err(fault) = host.ask_receive(PEER, INWARD.local, INWARD.remote, ROOM) else {
        return Ok(false);
    };
    assert!(rt; fault == CallFault::OutOfMemory && is_as_before(&mut host, INWARD));
    Ok(true)
}

/// Whether an allocation failed for a copy; if so, the host is unchanged. Changing a copy does not
/// change the host.
fn copies<S: BitStore>(rt: &impl Abort, alloc: Global) -> Result<bool, Fail> {
    let host = asking::<S>(rt, alloc)?;
    let known = host.state(PEER, INWARD);
    let Ok(mut copy) = host.copy(alloc) else {
        assert!(rt; known.is_ok() && host.state(PEER, INWARD) == known);
        return Ok(true);
    };
    assert!(rt; known.is_ok() && copy.state(PEER, INWARD) == known);
    copy.reset(PEER)?;
    assert!(rt; copy.state(PEER, INWARD) == Err(CallFault::NoEntry));
    assert!(rt; host.state(PEER, INWARD) == known && host.phase(PEER) == Ok(UP));
    Ok(false)
}

/// A host that is up with its peer and has asked to receive.
fn asking<S: BitStore>(rt: &impl Abort, alloc: Global) -> Result<Host<S>, Fail> {
    let mut host = up::<S>(rt, alloc)?;
    if asks(&mut host).is_err() {
        asks(&mut host)?;
    }
    Ok(host)
}

/// Whether an allocation failed while saving; if so, the host is unchanged and can be saved.
fn saves<S: BitStore>(rt: &impl Abort, alloc: Global) -> Result<bool, Fail> {
    let host = asking::<S>(rt, alloc)?;
    let known = host.state(PEER, INWARD);
    let Err(_) = host.save(alloc) else {
        return Ok(false);
    };
    assert!(rt; known.is_ok() && host.state(PEER, INWARD) == known && host.save(alloc).is_ok());
    Ok(true)
}

/// Whether an allocation failed while loading; if so, there is no host, and the same bytes can be
/// loaded.
fn loads<S: BitStore>(rt: &impl Abort, alloc: Global) -> Result<bool, Fail> {
    let host = asking::<S>(rt, alloc)?;
    let bytes = match host.save(alloc) {
        Ok(bytes) => bytes,
        Err(_) => host.save(alloc)?,
    };
    let (again, is_refused) = match Host::<S>::load(alloc, &bytes) {
        Err(LoadFault::OutOfMemory) => (Host::<S>::load(alloc, &bytes), true),
        loaded => (loaded, false),
    };
    let is_same = again.is_ok_and(|again| {
        again.state(PEER, INWARD) == host.state(PEER, INWARD) && again.phase(PEER) == Ok(UP)
    });
    assert!(rt; is_same);
    Ok(is_refused)
}

#[test]
fn host_save(rt: HostRuntime) -> Result<(), Fail> {
    let one = saves::<PlainStore>(&rt, rt.alloc())?;
    let other = saves::<PackedStore>(&rt, rt.alloc())?;
    if one || other {
        println!(rt; "refused: OutOfMemory, no bytes, and the host is as it was")?;
    }
    Ok(())
}

#[test]
fn host_load(rt: HostRuntime) -> Result<(), Fail> {
    let one = loads::<PlainStore>(&rt, rt.alloc())?;
    let other = loads::<PackedStore>(&rt, rt.alloc())?;
    if one || other {
        println!(rt; "refused: OutOfMemory, no host")?;
    }
    Ok(())
}

/// Asks to receive on socket 2 from socket 3.
fn asks<S: BitStore>(host: &mut Host<S>) -> Result<(), CallFault> {
    host.ask_receive(PEER, INWARD.local, INWARD.remote, ROOM)
}

#[test]
fn host_copy(rt: HostRuntime) -> Result<(), Fail> {
    let one = copies::<PlainStore>(&rt, rt.alloc())?;
    let other = copies::<PackedStore>(&rt, rt.alloc())?;
    if one || other {
        println!(rt; "refused: OutOfMemory, no copy, and the host is as it was")?;
    }
    Ok(())
}

#[test]
fn host_new(rt: HostRuntime) -> Result<(), Fail> {
    let (_plain, one) = made::<PlainStore>(rt.alloc())?;
    let (_packed, other) = made::<PackedStore>(rt.alloc())?;
    if one || other {
        println!(rt; "refused: OutOfMemory, no host")?;
    }
    Ok(())
}

#[test]
fn ask_send(rt: HostRuntime) -> Result<(), Fail> {
    let plain = asks_to_send::<PlainStore>(&rt, rt.alloc())?;
    let packed = asks_to_send::<PackedStore>(&rt, rt.alloc())?;
    if plain || packed {
        println!(rt; "refused: OutOfMemory, no entry, no command, no link used")?;
    }
    Ok(())
}

#[test]
fn ask_receive(rt: HostRuntime) -> Result<(), Fail> {
    let plain = asks_to_receive::<PlainStore>(&rt, rt.alloc())?;
    let packed = asks_to_receive::<PackedStore>(&rt, rt.alloc())?;
    if plain || packed {
        println!(rt; "refused: OutOfMemory, no entry, no command, no link used")?;
    }
    Ok(())
}

#[test]
fn slots_new(rt: HostRuntime) -> Result<(), Fail> {
    if Slots::new(rt.alloc()).is_err() {
        Slots::new(rt.alloc())?;
        println!(rt; "refused: AllocError, no slots")?;
    }
    Ok(())
}

#[test]
fn running_a_link(rt: HostRuntime) -> Result<(), Fail> {
    let events = [
        LinkEvent::Put(bits_of(&rt, &COMING_UP)),
        LinkEvent::Hand,
        LinkEvent::Answer(Answer::Rfnm),
    ];
    let ran = run_link(rt.alloc(), LINK, &events);
    let is_refused = ran.is_err();
    let (slots, notes) = match ran {
        Ok(run) => run,
        Err(_) => run_link(rt.alloc(), LINK, &events)?,
    };
    assert!(rt;
        slots.first_ready().is_none()
            && notes.len() == 3
            && matches!(&notes[2], LinkNote::Answered(true))
    );
    if is_refused {
        println!(rt; "refused: AllocError, no notes")?;
    }
    Ok(())
}

//! The state of a host, over both stores.
use super::tried::{Tried, repeated};
use super::{CONTROL, DEAD, INWARD, NOBODY, RFNM, ROOM};
use crate::known::{LINK, NO_COUNTS, OUTWARD, PEER, RECEIVER, SENDER};
use ncp_bits::{BitStore, PackedStore, PlainStore};
use ncp_host::{CallFault, Pair, Received, Record, Role};
use ncp_model::MAX_CALLED;
use ncp_wire::{Command, SOCKET_NOT_CONNECTED};
use std::alloc::Global;
use std::process::Abort;
use std::test::Fail;

/// ALL of one message and no bits, and RET for a link that is not connected.
const ALL: [u8; 8] = [4, LINK, 0, 1, 0, 0, 0, 0];

const RETURN: [u8; 8] = [6, 9, 0, 0, 0, 0, 0, 0];

/// The answer to that RET.
const ERROR: Command = Command::Err {
    code: SOCKET_NOT_CONNECTED,
    bytes: [6, 9, 0, 0, 0, 0, 0, 0, 0, 0],
};

/// A connection that is requested only here.
const ASKED: Pair = Pair {
    local: 3,
    remote: 4,
};

// A user may queue 256 commands; the next output has 15 ALLs.
fn a_user_fills_256_places<S: BitStore>(rt: &impl Abort, alloc: Global) -> Result<(), Fail> {
    let mut tried = Tried::<S>::up(rt, alloc)?;
    assert!(rt; tried.opens_receiver(rt) && tried.wait(0));
    for _call in 0..MAX_CALLED {
        tried.host.allocate(PEER, INWARD, 1, 0)?;
    }
    assert!(rt; tried.host.allocate(PEER, INWARD, 1, 0) == Err(CallFault::QueueFull));
    assert!(rt; tried.wait(256));
    assert!(rt; tried.puts(&repeated(rt, &ALL, 15)) && tried.wait(241));
    Ok(())
}

fn hears_returns<S: BitStore>(rt: &impl Abort, tried: &mut Tried<S>, count: u8) -> bool {
    let message = repeated(rt, &RETURN, count);
    tried.receives(&message, Received::Control(u32::from(count)))
}

// RETs are answered with ERRs: as many are queued as there are places, and with one more the host
// goes down.
fn replies_fill_512_places<S: BitStore>(rt: &impl Abort, alloc: Global) -> Result<(), Fail> {
    let mut tried = Tried::<S>::up(rt, alloc)?;
    for _message in 0..4 {
        assert!(rt; hears_returns(rt, &mut tried, 100));
    }
    assert!(rt; tried.has_waiting(0, &ERROR) && tried.has_waiting(399, &ERROR) && tried.wait(400));
    assert!(rt; hears_returns(rt, &mut tried, 112) && tried.wait(512));
    assert!(rt; hears_returns(rt, &mut tried, 1) && tried.wait(0));
    Ok(())
}

#[test]
fn commands_wait_in_order(rt: HostRuntime) -> Result<(), Fail> {
    a_user_fills_256_places::<PlainStore>(&rt, rt.alloc())?;
    a_user_fills_256_places::<PackedStore>(&rt, rt.alloc())?;
    replies_fill_512_places::<PlainStore>(&rt, rt.alloc())?;
    replies_fill_512_places::<PackedStore>(&rt, rt.alloc())
}

// A text to a dead destination is kept until it is taken, and its sender is busy.
fn texts_are_kept<S: BitStore>(rt: &impl Abort, alloc: Global) -> Result<(), Fail> {
    const LEFT: Record = Record {
        messages: 1,
        bits: 0,
        stored: 8,
        ..SENDER
    };
    let mut tried = Tried::<S>::up(rt, alloc)?;
    assert!(rt; tried.opens_sender(rt) && tried.is_given(rt, OUTWARD, &[0x61, 0x62, 0x63]));
    assert!(rt; tried.sends(rt, LINK, &[0x61, 0x62]) && tried.answered(rt, DEAD, LINK));
    assert!(rt; tried.knows(OUTWARD, &Record { busy: true, ..LEFT }));
    assert!(rt; tried.keeps(rt, LINK, &[0x61, 0x62]));
    tried.host.wake(PEER)?;
    assert!(rt; tried.sends(rt, LINK, &[0x61, 0x62]) && tried.answered(rt, RFNM, LINK));
    assert!(rt; tried.knows(OUTWARD, &LEFT) && tried.host.kept(PEER, LINK).is_none());
    Ok(())
}

// A receiver records that its allocation is called back, also after it is left.
fn call_backs_are_known<S: BitStore>(rt: &impl Abort, alloc: Global) -> Result<(), Fail> {
    const CALLING_BACK: Record = Record {
        recall: true,
        ..RECEIVER
    };
    let mut tried = Tried::<S>::up(rt, alloc)?;
    assert!(rt; tried.opens_receiver(rt));
    tried.host.call_back(PEER, INWARD, 64, 1)?;
    assert!(rt; tried.knows(INWARD, &CALLING_BACK));
    tried.host.close(PEER, INWARD)?;
    assert!(rt; tried.says(rt, &[5, LINK, 64, 1, 3, 0, 0, 0, 2, 0, 0, 0, 3]));
    assert!(rt;
        tried.knows(
            INWARD,
            &Record {
                left: true,
                ..CALLING_BACK
            }
        )
    );
    Ok(())
}

#[test]
fn ends_know_what_is_out(rt: HostRuntime) -> Result<(), Fail> {
    texts_are_kept::<PlainStore>(&rt, rt.alloc())?;
    texts_are_kept::<PackedStore>(&rt, rt.alloc())?;
    call_backs_are_known::<PlainStore>(&rt, rt.alloc())?;
    call_backs_are_known::<PackedStore>(&rt, rt.alloc())
}

// There is no record of a host that is no peer.
fn others_are_unknown<S: BitStore>(rt: &impl Abort, alloc: Global) -> Result<(), Fail> {
    const UNKNOWN: CallFault = CallFault::UnknownPeer;
    let mut tried = Tried::<S>::up(rt, alloc)?;
    assert!(rt; tried.host.connection_at(NOBODY, 0).err() == Some(UNKNOWN));
    assert!(rt; tried.host.room(NOBODY, INWARD).err() == Some(UNKNOWN));
    assert!(rt; tried.host.pair_on(NOBODY, Role::Send, LINK).err() == Some(UNKNOWN));
    assert!(rt; tried.host.is_held(NOBODY, LINK).err() == Some(UNKNOWN));
    assert!(rt; tried.host.restart(NOBODY) == Err(UNKNOWN));
    assert!(rt;
        tried.host.waiting(NOBODY, 0).is_none() && tried.host.kept(NOBODY, CONTROL).is_none()
    );
    Ok(())
}

// One sender is requested, another opened, and a receiver opened.
fn three<S: BitStore>(rt: &impl Abort, alloc: Global) -> Result<Tried<S>, Fail> {
    let mut tried = Tried::<S>::up(rt, alloc)?;
    tried
        .host
        .ask_send(PEER, ASKED.local, ASKED.remote, 8, 100)?;
    assert!(rt; tried.says(rt, &[2, 0, 0, 0, 3, 0, 0, 0, 4, 8]));
    assert!(rt; tried.opens_sender(rt) && tried.opens_receiver(rt));
    Ok(tried)
}

// The connections are ordered by the socket here, then by the socket there, in any order of
// opening.
fn connections_have_places<S: BitStore>(rt: &impl Abort, alloc: Global) -> Result<(), Fail> {
    const ONLY_ASKED: Record = Record {
        heard: false,
        opened: false,
        link: 0,
        messages: 0,
        bits: 0,
        ..SENDER
    };
    let tried = Tried::<S>::up(rt, alloc)?;
    assert!(rt; tried.host.connection_at(PEER, 0) == Ok(None));
    let tried = three::<S>(rt, alloc)?;
    assert!(rt; tried.has_at(0, INWARD, &RECEIVER) && tried.has_at(1, OUTWARD, &SENDER));
    assert!(rt; tried.has_at(2, ASKED, &ONLY_ASKED));
    assert!(rt; tried.host.connection_at(PEER, 3) == Ok(None));
    Ok(())
}

// The rooms that were requested, and the connections that links identify.
fn rooms_and_links_are_known<S: BitStore>(rt: &impl Abort, alloc: Global) -> Result<(), Fail> {
    const NONE: Pair = Pair {
        local: 5,
        remote: 4,
    };
    let tried = three::<S>(rt, alloc)?;
    assert!(rt; tried.host.room(PEER, INWARD) == Ok(ROOM));
    assert!(rt; tried.host.room(PEER, ASKED) == Ok(100));
    assert!(rt; tried.host.room(PEER, NONE) == Err(CallFault::NoEntry));
    assert!(rt; tried.host.pair_on(PEER, Role::Send, LINK) == Ok(Some(OUTWARD)));
    assert!(rt; tried.host.pair_on(PEER, Role::Receive, LINK) == Ok(Some(INWARD)));
    assert!(rt; tried.host.pair_on(PEER, Role::Send, 9) == Ok(None));
    Ok(())
}

#[test]
fn what_is_there_is_listed(rt: HostRuntime) -> Result<(), Fail> {
    others_are_unknown::<PlainStore>(&rt, rt.alloc())?;
    others_are_unknown::<PackedStore>(&rt, rt.alloc())?;
    connections_have_places::<PlainStore>(&rt, rt.alloc())?;
    connections_have_places::<PackedStore>(&rt, rt.alloc())?;
    rooms_and_links_are_known::<PlainStore>(&rt, rt.alloc())?;
    rooms_and_links_are_known::<PackedStore>(&rt, rt.alloc())
}

// Whether an INS and a text are sent.
fn both_go_out<S: BitStore>(rt: &impl Abort, tried: &mut Tried<S>) -> bool {
    tried.sends(rt, CONTROL, &[8, LINK]) && tried.sends(rt, LINK, &[0x61, 0x62])
}

// Unacknowledged messages on the control link and on a data link are sent again, and held ones stay
// held; none is stray.
fn restarts<S: BitStore>(rt: &impl Abort, alloc: Global) -> Result<(), Fail> {
    let mut tried = Tried::<S>::up(rt, alloc)?;
    assert!(rt; tried.opens_sender(rt) && tried.is_given(rt, OUTWARD, &[0x61, 0x62]));
    tried.host.interrupt(PEER, OUTWARD)?;
    assert!(rt; both_go_out(rt, &mut tried) && tried.is_silent());
    tried.host.restart(PEER)?;
    assert!(rt; both_go_out(rt, &mut tried));
    assert!(rt; tried.answered(rt, RFNM, CONTROL) && tried.answered(rt, DEAD, LINK));
    assert!(rt;
        tried.host.is_held(PEER, CONTROL) == Ok(false) && tried.host.is_held(PEER, LINK) == Ok(true)
    );
    tried.host.restart(PEER)?;
    assert!(rt; tried.is_silent());
    tried.host.wake(PEER)?;
    assert!(rt;
        tried.host.is_held(PEER, LINK) == Ok(false) && tried.sends(rt, LINK, &[0x61, 0x62])
    );
    assert!(rt; tried.host.counts(PEER) == Ok(NO_COUNTS));
    Ok(())
}

#[test]
fn what_is_out_goes_out_again_after_a_restart(rt: HostRuntime) -> Result<(), Fail> {
    restarts::<PlainStore>(&rt, rt.alloc())?;
    restarts::<PackedStore>(&rt, rt.alloc())
}

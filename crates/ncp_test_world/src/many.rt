//! Invalid host numbers, absent hosts, and eight hosts that are all connected with each other.
use crate::events::{RECEIVER, SENDER};
use crate::many_tried::ManyTried;
use crate::refused::is_same_at;
use ncp_bits::PackedStore;
use ncp_host::CallFault;
use ncp_transcript::{Call, HostNote};
use ncp_world::{MAX_HOSTS, ManyEvent, ManyFault, ManyNote};
use std::alloc::Global;
use std::process::Abort;
use std::test::Fail;

pub(super) const THREE: [u8; 3] = [1, 2, 3];

pub(super) const EIGHT: [u8; 8] = [1, 2, 3, 4, 5, 6, 7, 8];

/// Whether hosts were refused for their numbers.
fn is_bad(made: Result<ManyTried<PackedStore>, ManyFault>) -> bool {
    match made {
        Ok(_) => false,
        Err(fault) => fault == ManyFault::BadHosts,
    }
}

/// Whether these host numbers are refused.
fn are_bad(alloc: Global, hosts: &[u8]) -> bool {
    is_bad(ManyTried::new(alloc, hosts)) && is_bad(ManyTried::run(alloc, hosts, &[]))
}

/// Fewer than two, more than eight, and one number twice.
#[test]
fn bad_hosts_are_refused(rt: HostRuntime) {
    assert!(rt;
        MAX_HOSTS == 8
            && are_bad(rt.alloc(), &[])
            && are_bad(rt.alloc(), &[1])
            && are_bad(rt.alloc(), &[1, 2, 1])
            && are_bad(rt.alloc(), &[1, 2, 3, 4, 5, 6, 7, 8, 9])
    );
}

/// Events with an absent host, sender or destination, or with one host twice.
const ABSENT: [ManyEvent; 6] = [
    ManyEvent::Call {
        host: 4,
        call: Call::Reset { peer: 1 },
    },
    ManyEvent::Out { host: 4 },
    ManyEvent::Deliver {
        from: 4,
        to: 1,
        link: 0,
    },
    ManyEvent::Lose {
        from: 1,
        to: 4,
        link: 0,
    },
    ManyEvent::Dead {
        from: 1,
        to: 1,
        link: 0,
    },
    ManyEvent::Answer {
        from: 4,
        to: 5,
        link: 0,
    },
];

/// Checks the notes of three hosts for these events, performed by one call.
fn expect_notes(
    rt: &impl Abort,
    alloc: Global,
    events: &[ManyEvent],
    wanted: &[ManyNote],
) -> Result<(), Fail> {
    let tried: ManyTried<PackedStore> = ManyTried::run(alloc, &THREE, events)?;
    assert!(rt; tried.notes().len() == wanted.len());
    for place in 0..wanted.len() {
        assert!(rt; is_same_at(alloc, tried.notes(), wanted, place)?);
    }
    Ok(())
}

/// Each leaves the note that nothing happened, with the event.
#[test]
fn absent_hosts_do_nothing(rt: HostRuntime) -> Result<(), Fail> {
    let mut wanted = Vec::new(rt.alloc());
    for event in ABSENT {
        wanted.push(ManyNote::Nothing { event })?;
    }
    expect_notes(&rt, rt.alloc(), &ABSENT, &wanted)
}

#[test]
fn unknown_peers_are_refused_by_the_call(rt: HostRuntime) -> Result<(), Fail> {
    let refused = ManyNote::Called {
        host: 1,
        note: HostNote::Refused {
            call: Call::Reset { peer: 4 },
            fault: CallFault::UnknownPeer,
        },
    };
    expect_notes(&rt, rt.alloc(), &[reset(1, 4)], &[refused])
}

pub(super) fn reset(host: u8, peer: u8) -> ManyEvent {
    ManyEvent::Call {
        host,
        call: Call::Reset { peer },
    }
}

fn ask_receive(host: u8, peer: u8) -> ManyEvent {
    ManyEvent::Call {
        host,
        call: Call::AskReceive {
            peer,
            local: RECEIVER.local,
            remote: RECEIVER.remote,
            room: 1024,
        },
    }
}

fn ask_send(host: u8, peer: u8) -> ManyEvent {
    ManyEvent::Call {
        host,
        call: Call::AskSend {
            peer,
            local: SENDER.local,
            remote: SENDER.remote,
            size: 8,
            room: 1024,
        },
    }
}

/// A message from one host to another on link 0 is sent, received and answered.
fn goes(rt: &impl Abort, tried: &mut ManyTried<PackedStore>, from: u8, to: u8) {
    let link = 0;
    assert!(rt;
        tried.steps(&ManyEvent::Out { host: from })
            && tried.steps(&ManyEvent::Deliver { from, to, link })
            && tried.steps(&ManyEvent::Answer { from, to, link })
    );
}

/// Two hosts come up with each other, and open a connection on which the first sends.
fn connect(rt: &impl Abort, tried: &mut ManyTried<PackedStore>, from: u8, to: u8) {
    assert!(rt; tried.steps(&reset(from, to)));
    goes(rt, tried, from, to);
    goes(rt, tried, to, from);
    assert!(rt; tried.steps(&ask_receive(to, from)) && tried.steps(&ask_send(from, to)));
    goes(rt, tried, to, from);
    goes(rt, tried, from, to);
}

/// Whether two hosts are up with each other, and have a connection on which the first sends.
fn are_connected(tried: &ManyTried<PackedStore>, from: u8, to: u8) -> bool {
    tried.is_up(from, to)
        && tried.is_up(to, from)
        && tried.is_open(from, to, SENDER)
        && tried.is_open(to, from, RECEIVER)
}

#[test]
fn eight_hosts_are_connected(rt: HostRuntime) -> Result<(), Fail> {
    let mut tried: ManyTried<PackedStore> = ManyTried::new(rt.alloc(), &EIGHT)?;
    for from in 1..9 {
        for to in from + 1..9 {
            connect(&rt, &mut tried, from, to);
        }
    }
    for from in 1..9 {
        for to in from + 1..9 {
            assert!(rt; are_connected(&tried, from, to), "{from} with {to}");
        }
    }
    Ok(())
}

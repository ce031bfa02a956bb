//! Three hosts with their subnet.
use super::{Hosts, go_on_alike, is_made_again, runs, settle_alike, steps, tell, wants_memory};
use crate::events::{RECEIVER, SENDER, bits_of};
use crate::many::THREE;
use crate::many_tried::ManyTried;
use crate::reading::Reading;
use ncp_bits::{BitStore, Bits, PackedStore, PlainStore};
use ncp_transcript::{Call, Message};
use ncp_world::{ManyEvent, ManyFault, ManyNote};
use std::alloc::{AllocError, Global};
use std::process::Abort;
use std::test::Fail;

impl<S: BitStore> Hosts for ManyTried<S> {
    type Event = ManyEvent;

    type Note = ManyNote;

    type Fault = ManyFault;

    fn of(alloc: Global) -> Result<Self, ManyFault> {
        ManyTried::new(alloc, &THREE)
    }

    fn after(alloc: Global, events: &[ManyEvent]) -> Result<Self, ManyFault> {
        ManyTried::run(alloc, &THREE, events)
    }

    fn is_of_memory(fault: &ManyFault) -> bool {
        *fault == ManyFault::OutOfMemory
    }

    fn step(&mut self, event: &ManyEvent) -> bool {
        self.steps(event)
    }

    fn settle(&mut self) -> bool {
        self.settles()
    }

    fn go_on(&mut self) -> Option<bool> {
        self.goes_on()
    }

    fn transcript(&self) -> &[ManyNote] {
        self.notes()
    }

    fn is_wanting(note: &ManyNote) -> bool {
        match note {
            ManyNote::Called { note, .. } => wants_memory(note),
            _ => false,
        }
    }

    fn readings(&self) -> [Option<Reading>; 4] {
        [
            self.reading(1, 3),
            self.reading(3, 1),
            self.reading(1, 2),
            self.reading(2, 1),
        ]
    }
}

const OUT_1: ManyEvent = ManyEvent::Out { host: 1 };

const DELIVER_1: ManyEvent = ManyEvent::Deliver {
    from: 1,
    to: 3,
    link: 0,
};

const ANSWER_1: ManyEvent = ManyEvent::Answer {
    from: 1,
    to: 3,
    link: 0,
};

const OUT_3: ManyEvent = ManyEvent::Out { host: 3 };

const DELIVER_3: ManyEvent = ManyEvent::Deliver {
    from: 3,
    to: 1,
    link: 0,
};

const ANSWER_3: ManyEvent = ManyEvent::Answer {
    from: 3,
    to: 1,
    link: 0,
};

/// Hosts 1 and 3 come up with each other, and open a connection.
const OPENING: [ManyEvent; 15] = [
    ManyEvent::Call {
        host: 1,
        call: Call::Reset { peer: 3 },
    },
    OUT_1,
    DELIVER_1,
    ANSWER_1,
    OUT_3,
    DELIVER_3,
    ANSWER_3,
    ManyEvent::Call {
        host: 3,
        call: Call::AskReceive {
            peer: 1,
            local: RECEIVER.local,
            remote: RECEIVER.remote,
            room: 1024,
        },
    },
    ManyEvent::Call {
        host: 1,
        call: Call::AskSend {
            peer: 3,
            local: SENDER.local,
            remote: SENDER.remote,
            size: 8,
            room: 1024,
        },
    },
    OUT_3,
    DELIVER_3,
    ANSWER_3,
    OUT_1,
    DELIVER_1,
    ANSWER_1,
];

/// A host gives a text to host 3.
fn give(alloc: Global, host: u8, text: &Bits) -> Result<ManyEvent, AllocError> {
    Ok(ManyEvent::Call {
        host,
        call: Call::Give {
            peer: 3,
            pair: SENDER,
            text: Message::from_bits(alloc, text)?,
        },
    })
}

/// The events up to the open connection.
fn opened(alloc: Global) -> Result<Vec<ManyEvent>, AllocError> {
    let mut events = Vec::new(alloc);
    for event in OPENING {
        events.push(event)?;
    }
    Ok(events)
}

/// Host 1 gives a text, and so does an absent host.
fn push_gives(alloc: Global, events: &mut Vec<ManyEvent>, text: &Bits) -> Result<(), AllocError> {
    events.push(give(alloc, 1, text)?)?;
    events.push(give(alloc, 4, text)?)?;
    Ok(())
}

fn events_once(rt: &impl Abort, alloc: Global) -> Result<Vec<ManyEvent>, AllocError> {
    let mut events = opened(alloc)?;
    push_gives(alloc, &mut events, &bits_of(rt, b"ab"))?;
    events.push(ManyEvent::Lose {
        from: 1,
        to: 2,
        link: 0,
    })?;
    events.push(ManyEvent::Out { host: 2 })?;
    Ok(events)
}

/// All events, made again if an allocation fails.
fn events(rt: &impl Abort, alloc: Global) -> Result<Vec<ManyEvent>, AllocError> {
    match events_once(rt, alloc) {
        Ok(events) => Ok(events),
        Err(_) => events_once(rt, alloc),
    }
}

#[test]
fn many_settle(rt: HostRuntime) -> Result<(), Fail> {
    let plain = settle_alike::<ManyTried<PlainStore>>(&rt, rt.alloc(), &OPENING[0])?;
    let packed = settle_alike::<ManyTried<PackedStore>>(&rt, rt.alloc(), &OPENING[0])?;
    tell(
        &rt,
        plain || packed,
        "what happened before stands, and the rest may be asked for again",
    )
}

#[test]
fn many_go_on(rt: HostRuntime) -> Result<(), Fail> {
    let plain = go_on_alike::<ManyTried<PlainStore>>(&rt, rt.alloc(), &OPENING[0])?;
    let packed = go_on_alike::<ManyTried<PackedStore>>(&rt, rt.alloc(), &OPENING[0])?;
    tell(
        &rt,
        plain || packed,
        "nothing happened, and the same event may be asked for again",
    )
}

#[test]
fn many_new(rt: HostRuntime) -> Result<(), Fail> {
    let plain = is_made_again::<ManyTried<PlainStore>>(&rt, rt.alloc())?;
    let packed = is_made_again::<ManyTried<PackedStore>>(&rt, rt.alloc())?;
    tell(&rt, plain || packed, "OutOfMemory, no hosts")
}

#[test]
fn many_step(rt: HostRuntime) -> Result<(), Fail> {
    let events = events(&rt, rt.alloc())?;
    let plain = steps::<ManyTried<PlainStore>>(&rt, rt.alloc(), &events)?;
    let packed = steps::<ManyTried<PackedStore>>(&rt, rt.alloc(), &events)?;
    tell(
        &rt,
        plain || packed,
        "nothing happened but that a call's refusal is noted",
    )
}

#[test]
fn many_run(rt: HostRuntime) -> Result<(), Fail> {
    let events = events(&rt, rt.alloc())?;
    let plain = runs::<ManyTried<PlainStore>>(&rt, rt.alloc(), &events)?;
    let packed = runs::<ManyTried<PackedStore>>(&rt, rt.alloc(), &events)?;
    tell(
        &rt,
        plain || packed,
        "OutOfMemory, or a call's refusal is noted",
    )
}

//! A connection of two hosts, and the events that open it and carry a text over it.
use crate::tried::{A, B};
use ncp_bits::Bits;
use ncp_host::Pair;
use ncp_transcript::{Call, Message};
use ncp_world::{Event, Side};
use std::alloc::{AllocError, Global};
use std::process::Abort;

/// The room of the connection in bits: at least the longest text of a message.
const ROOM: u32 = 8192;

/// The link of the connection.
pub(super) const LINK: u8 = 2;

/// The connection, as named at its sender and at its receiver.
pub(super) const SENDER: Pair = Pair {
    local: 3,
    remote: 2,
};

pub(super) const RECEIVER: Pair = Pair {
    local: 2,
    remote: 3,
};

pub(super) const RESET: Event = Event::Call {
    side: Side::A,
    call: Call::Reset { peer: B },
};

const ASK_RECEIVE: Event = Event::Call {
    side: Side::B,
    call: Call::AskReceive {
        peer: A,
        local: RECEIVER.local,
        remote: RECEIVER.remote,
        room: ROOM,
    },
};

const ASK_SEND: Event = Event::Call {
    side: Side::A,
    call: Call::AskSend {
        peer: B,
        local: SENDER.local,
        remote: SENDER.remote,
        size: 8,
        room: ROOM,
    },
};

/// Allocates two messages, and as many bits as a text has.
fn allocate(text: &Bits) -> Event {
    let side = Side::B;
    let call = Call::Allocate {
        peer: A,
        pair: RECEIVER,
        messages: 2,
        bits: text.len() as u32,
    };
    Event::Call { side, call }
}

const TAKE: Event = Event::Call {
    side: Side::B,
    call: Call::Take {
        peer: A,
        pair: RECEIVER,
        bytes: 1024,
    },
};

const STATE: Event = Event::Call {
    side: Side::A,
    call: Call::State {
        peer: B,
        pair: SENDER,
    },
};

const OUT_A: Event = Event::Out { side: Side::A };

const OUT_B: Event = Event::Out { side: Side::B };

const DELIVER_A: Event = Event::Deliver {
    side: Side::A,
    link: 0,
};

const ANSWER_A: Event = Event::Answer {
    side: Side::A,
    link: 0,
};

const DELIVER_B: Event = Event::Deliver {
    side: Side::B,
    link: 0,
};

const ANSWER_B: Event = Event::Answer {
    side: Side::B,
    link: 0,
};

const TEXT_COMES: Event = Event::Deliver {
    side: Side::A,
    link: LINK,
};

const TEXT_IS_ANSWERED: Event = Event::Answer {
    side: Side::A,
    link: LINK,
};

/// Both hosts come up, and the connection opens.
const OPENING: [Event; 15] = [
    RESET,
    OUT_A,
    DELIVER_A,
    ANSWER_A,
    OUT_B,
    DELIVER_B,
    ANSWER_B,
    ASK_RECEIVE,
    ASK_SEND,
    OUT_B,
    DELIVER_B,
    ANSWER_B,
    OUT_A,
    DELIVER_A,
    ANSWER_A,
];

/// A text that is given and allocated for is sent, received and taken.
const TEXT_GOES: [Event; 8] = [
    OUT_B,
    DELIVER_B,
    ANSWER_B,
    OUT_A,
    TEXT_COMES,
    TEXT_IS_ANSWERED,
    STATE,
    TAKE,
];

pub(super) fn bits_of(rt: &impl Abort, bytes: &[u8]) -> Bits {
    Bits::from_bytes(bytes, bytes.len().saturating_mul(8)).expect(rt, "room")
}

/// The connection opens, and `count` times a text is given, allocated for, sent, received and
/// taken.
pub(super) fn texts(
    rt: &impl Abort,
    alloc: Global,
    text: &[u8],
    count: usize,
) -> Result<Vec<Event>, AllocError> {
    let text = bits_of(rt, text);
    let mut events = Vec::new(alloc);
    for event in OPENING {
        events.push(event)?;
    }
    for _ in 0..count {
        let call = Call::Give {
            peer: B,
            pair: SENDER,
            text: Message::from_bits(alloc, &text)?,
        };
        let side = Side::A;
        events.push(Event::Call { side, call })?;
        events.push(allocate(&text))?;
        for event in TEXT_GOES {
            events.push(event)?;
        }
    }
    Ok(events)
}

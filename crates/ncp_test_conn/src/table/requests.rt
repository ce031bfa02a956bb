//! Requests of both sides.
use super::steps::{Call, Say, Step};
use super::tried::Tried;
use super::{
    ASKED_TO_RECEIVE, ASKED_TO_SEND, Example, INWARD, LINK, NEXT_INWARD, OUTWARD, RECEIVER, ROOM,
    SENDER, goes, goes_through,
};
use ncp_bits::{BitStore, PackedStore, PlainStore};
use ncp_conn::{CallFault, Heard, Pair, Record};
use ncp_model::{MAX_BY_PEER, MAX_OWN, MAX_ROOM};
use ncp_wire::{Command, FIRST_LINK, LAST_LINK};
use std::alloc::Global;
use std::process::Abort;
use std::test::Fail;

// A receiving pair for each number.
fn numbered(number: u8) -> Pair {
    Pair::new(2 * u32::from(number), 2 * u32::from(number) + 1)
}

// Some of them.
const PAIR_0: Pair = Pair {
    local: 0,
    remote: 1,
};

const PAIR_7: Pair = Pair {
    local: 14,
    remote: 15,
};

const PAIR_100: Pair = Pair {
    local: 200,
    remote: 201,
};

const PAIR_200: Pair = Pair {
    local: 400,
    remote: 401,
};

const PAIR_201: Pair = Pair {
    local: 402,
    remote: 403,
};

// The 64th local request is the last, and takes the 64th link.
fn has_64_own_requests<S: BitStore>(rt: &impl Abort, alloc: Global) -> Result<(), Fail> {
    const AFTER_ALL: &[Step<'static>] = &[
        // The 65th local request is refused, also if the peer has requested the pair. The earlier
        // ones remain.
        Step::RefusesFull(Call::AskReceive(PAIR_201, 1), CallFault::TableFull),
        Step::RefusesFull(Call::AskSend(OUTWARD, 8, 1), CallFault::TableFull),
        Step::Refuses(Call::AskReceive(PAIR_200, 1), CallFault::TableFull),
        Step::Refuses(Call::AskReceive(PAIR_0, 1), CallFault::AlreadyAsked),
        // A connection that ends makes room, and its link is free again.
        Step::Replies(Say::Cls(PAIR_7), Say::Cls(PAIR_7)),
        Step::Makes(
            Call::AskReceive(PAIR_200, 1),
            Say::Rts(PAIR_200, FIRST_LINK + 7),
        ),
        Step::Knows(
            PAIR_200,
            Record {
                link: FIRST_LINK + 7,
                ..RECEIVER
            },
        ),
    ];
    let mut table = Tried::<S>::new(alloc)?;
    table.goes(
        rt,
        "before all",
        &[Step::Hears(Say::Str(PAIR_200, 8), Heard::Nothing)],
    );
    for number in 0..MAX_OWN as u8 {
        let pair = numbered(number);
        let rts = Say::Rts(pair, FIRST_LINK + number);
        table.goes(
            rt,
            "before all",
            &[Step::Makes(Call::AskReceive(pair, 1), rts)],
        );
    }
    table.goes(rt, "behind all", AFTER_ALL);
    Ok(())
}

#[test]
fn own_requests_are_at_most_64(rt: HostRuntime) -> Result<(), Fail> {
    has_64_own_requests::<PlainStore>(&rt, rt.alloc())?;
    has_64_own_requests::<PackedStore>(&rt, rt.alloc())
}

fn has_64_requests_of_the_peer<S: BitStore>(rt: &impl Abort, alloc: Global) -> Result<(), Fail> {
    const AFTER_ALL: &[Step<'static>] = &[
        Step::Hears(Say::Str(PAIR_100, 8), Heard::Full),
        Step::Hears(Say::Rts(OUTWARD, 2), Heard::Full),
        Step::KnowsNone(OUTWARD),
        // A wrong request is refused first, and one that was made here is matched.
        Step::Errs(Say::Rts(OUTWARD, 1), 3, &[1, 0, 0, 0, 2, 0, 0, 0, 3, 1]),
        Step::Hears(Say::Str(PAIR_200, 8), Heard::Nothing),
        // After a local request, a connection no longer counts as one of the peer's 64.
        Step::Makes(Call::AskReceive(PAIR_0, 1), Say::Rts(PAIR_0, 3)),
        Step::Hears(Say::Rts(OUTWARD, 2), Heard::Nothing),
    ];
    let mut table = Tried::<S>::new(alloc)?;
    table.goes(
        rt,
        "before all",
        &[Step::Makes(Call::AskReceive(PAIR_200, 1), Say::Rts(PAIR_200, 2))],
    );
    for number in 0..MAX_BY_PEER as u8 {
        let str = Say::Str(numbered(number), 8);
        table.goes(rt, "before all", &[Step::Hears(str, Heard::Nothing)]);
    }
    table.goes(rt, "behind all", AFTER_ALL);
    Ok(())
}

#[test]
fn requests_of_the_peer_are_at_most_64(rt: HostRuntime) -> Result<(), Fail> {
    has_64_requests_of_the_peer::<PlainStore>(&rt, rt.alloc())?;
    has_64_requests_of_the_peer::<PackedStore>(&rt, rt.alloc())
}

/// A third pair, as named at a receiver.
const THIRD: Pair = Pair {
    local: 10,
    remote: 11,
};

/// A request to send.
const ASK_SEND: Call = Call::AskSend(OUTWARD, 8, 1);

/// A request to receive.
const ASK_RECEIVE: Call = Call::AskReceive(INWARD, 1);

/// Another pair, as named at a sender.
const OTHER: Pair = Pair {
    local: 5,
    remote: 4,
};

const EXAMPLES: &[Example<'static>] = &[
    // The receiver takes the lowest links; requests match; wrong ones are refused; a CLS frees a
    // link.
    (
        "requests_meet_and_end",
        &[
            Step::Makes(Call::AskReceive(INWARD, ROOM), Say::Rts(INWARD, 2)),
            Step::Makes(
                Call::AskReceive(NEXT_INWARD, ROOM),
                Say::Rts(NEXT_INWARD, 3),
            ),
            Step::Hears(Say::Str(INWARD, 8), Heard::Nothing),
            Step::Knows(INWARD, RECEIVER),
            Step::Errs(Say::Str(INWARD, 8), 3, &[2, 0, 0, 0, 3, 0, 0, 0, 2, 8]),
            Step::Errs(
                Say::Rts(
                    Pair {
                        local: 9,
                        remote: 8,
                    },
                    72,
                ),
                3,
                &[1, 0, 0, 0, 8, 0, 0, 0, 9, 72],
            ),
            Step::Errs(
                Say::As(Command::Cls { my: 7, your: 6 }),
                4,
                &[3, 0, 0, 0, 7, 0, 0, 0, 6],
            ),
            Step::Errs(
                Say::As(Command::Cls { my: 7, your: 5 }),
                3,
                &[3, 0, 0, 0, 7, 0, 0, 0, 5],
            ),
            Step::Replies(Say::Cls(INWARD), Say::As(Command::Cls { my: 2, your: 3 })),
            Step::KnowsNone(INWARD),
            Step::Makes(Call::AskReceive(THIRD, ROOM), Say::Rts(THIRD, 2)),
        ],
    ),
    (
        "what_is_known_is_copied",
        &[
            Step::KnowsNone(OUTWARD),
            Step::Makes(Call::AskSend(OUTWARD, 36, ROOM), Say::Str(OUTWARD, 36)),
            Step::Knows(
                OUTWARD,
                Record {
                    size: 36,
                    ..ASKED_TO_SEND
                },
            ),
            Step::Hears(Say::Rts(OUTWARD, LAST_LINK), Heard::Nothing),
            Step::Knows(
                OUTWARD,
                Record {
                    size: 36,
                    link: LAST_LINK,
                    ..SENDER
                },
            ),
            Step::Hears(Say::Str(INWARD, 255), Heard::Nothing),
            Step::Knows(
                INWARD,
                Record {
                    asked: false,
                    opened: false,
                    link: 0,
                    size: 255,
                    ..RECEIVER
                },
            ),
            Step::Makes(
                Call::AskReceive(NEXT_INWARD, ROOM),
                Say::Rts(NEXT_INWARD, LINK),
            ),
            Step::Knows(NEXT_INWARD, ASKED_TO_RECEIVE),
        ],
    ),
    // Each refusal of a request to send, and their order.
    (
        "requests_to_send_are_refused",
        &[
            Step::RefusesFull(Call::AskSend(INWARD, 0, 0), CallFault::BadSex),
            Step::RefusesFull(
                Call::AskSend(
                    Pair {
                        local: 2,
                        remote: 2,
                    },
                    8,
                    ROOM,
                ),
                CallFault::BadSex,
            ),
            Step::RefusesFull(
                Call::AskSend(
                    Pair {
                        local: 3,
                        remote: 5,
                    },
                    8,
                    ROOM,
                ),
                CallFault::BadSex,
            ),
            Step::RefusesFull(Call::AskSend(OUTWARD, 0, 0), CallFault::BadSize),
            Step::RefusesFull(Call::AskSend(OUTWARD, 8, 0), CallFault::BadRoom),
            Step::RefusesFull(Call::AskSend(OUTWARD, 8, MAX_ROOM + 1), CallFault::BadRoom),
            Step::RefusesFull(Call::AskSend(OUTWARD, 8, MAX_ROOM), CallFault::QueueFull),
            Step::HasPair(None),
            Step::Makes(ASK_SEND, Say::Str(OUTWARD, 8)),
            Step::RefusesFull(Call::AskSend(OUTWARD, 8, 0), CallFault::BadRoom),
            Step::RefusesFull(ASK_SEND, CallFault::AlreadyAsked),
            Step::Makes(Call::Close(OUTWARD), Say::Cls(OUTWARD)),
            Step::RefusesFull(ASK_SEND, CallFault::Closing),
        ],
    ),
    (
        "requests_to_receive_are_refused",
        &[
            Step::RefusesFull(Call::AskReceive(OUTWARD, 0), CallFault::BadSex),
            Step::RefusesFull(
                Call::AskReceive(
                    Pair {
                        local: 2,
                        remote: 4,
                    },
                    ROOM,
                ),
                CallFault::BadSex,
            ),
            Step::RefusesFull(Call::AskReceive(INWARD, 0), CallFault::BadRoom),
            Step::RefusesFull(Call::AskReceive(INWARD, MAX_ROOM + 1), CallFault::BadRoom),
            Step::RefusesFull(Call::AskReceive(INWARD, MAX_ROOM), CallFault::QueueFull),
            Step::HasPair(None),
            Step::Makes(ASK_RECEIVE, Say::Rts(INWARD, 2)),
            Step::RefusesFull(Call::AskReceive(INWARD, 0), CallFault::BadRoom),
            Step::RefusesFull(ASK_RECEIVE, CallFault::AlreadyAsked),
            Step::Makes(Call::Close(INWARD), Say::Cls(INWARD)),
            Step::RefusesFull(ASK_RECEIVE, CallFault::Closing),
        ],
    ),
    (
        "wrong_requests_are_answered",
        &[
            Step::Hears(Say::Rts(OUTWARD, 2), Heard::Nothing),
            Step::Errs(Say::Rts(INWARD, 3), 3, &[1, 0, 0, 0, 3, 0, 0, 0, 2, 3]),
            Step::Errs(
                Say::Rts(
                    Pair {
                        local: 3,
                        remote: 3,
                    },
                    3,
                ),
                3,
                &[1, 0, 0, 0, 3, 0, 0, 0, 3, 3],
            ),
            Step::Errs(Say::Rts(OTHER, 1), 3, &[1, 0, 0, 0, 4, 0, 0, 0, 5, 1]),
            Step::Errs(Say::Rts(OUTWARD, 3), 3, &[1, 0, 0, 0, 2, 0, 0, 0, 3, 3]),
            Step::Errs(Say::Rts(OTHER, 2), 3, &[1, 0, 0, 0, 4, 0, 0, 0, 5, 2]),
            Step::Errs(Say::Str(OUTWARD, 8), 3, &[2, 0, 0, 0, 2, 0, 0, 0, 3, 8]),
            Step::Errs(Say::Str(INWARD, 0), 3, &[2, 0, 0, 0, 3, 0, 0, 0, 2, 0]),
            Step::Knows(
                OUTWARD,
                Record {
                    asked: false,
                    opened: false,
                    size: 0,
                    ..SENDER
                },
            ),
            Step::KnowsNone(OTHER),
            Step::KnowsNone(INWARD),
        ],
    ),
    // Other commands have no effect here.
    (
        "other_commands_pass_by",
        &[
            Step::Hears(Say::As(Command::Nop), Heard::Nothing),
            Step::Hears(Say::As(Command::Eco { byte: 65 }), Heard::Nothing),
            Step::Hears(Say::As(Command::Erp { byte: 65 }), Heard::Nothing),
            Step::Hears(
                Say::As(Command::Err {
                    code: 1,
                    bytes: [0; 10],
                }),
                Heard::Nothing,
            ),
            Step::Hears(Say::As(Command::Rst), Heard::Nothing),
            Step::Hears(Say::As(Command::Rrp), Heard::Nothing),
        ],
    ),
];

#[test]
fn requests_are_matched(rt: HostRuntime) -> Result<(), Fail> {
    goes_through(&rt, rt.alloc(), EXAMPLES)
}

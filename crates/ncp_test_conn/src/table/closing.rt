//! Closing.
use super::steps::{Call, Say, Step};
use super::{
    ASKED_TO_SEND, Example, INWARD, LINK, NEXT_INWARD, OUTWARD, RECEIVER, ROOM, SENDER,
    goes_through,
};
use ncp_conn::{CallFault, Heard, Pair, Record, Took};
use std::test::Fail;

/// A request of another receiver for the same link.
const NEXT: Say = Say::Rts(
    Pair {
        local: 5,
        remote: 4,
    },
    LINK,
);

/// A pair that is requested when the link is free.
const FREE: Pair = Pair {
    local: 6,
    remote: 7,
};

/// A sender whose CLS is pending until its text is answered.
const LEAVING: Record = Record {
    messages: 1,
    bits: 0,
    leaving: true,
    busy: true,
    ..SENDER
};

const EXAMPLES: &[Example<'static>] = &[
    (
        "closing_is_refused",
        &[
            Step::IsSender(8, ROOM),
            Step::RefusesFull(Call::Close(INWARD), CallFault::NoEntry),
            Step::RefusesFull(Call::Close(OUTWARD), CallFault::QueueFull),
            Step::Makes(Call::Close(OUTWARD), Say::Cls(OUTWARD)),
            Step::RefusesFull(Call::Close(OUTWARD), CallFault::Closing),
        ],
    ),
    // A CLS is matched by one from the other side; in either order the connection ends.
    (
        "a_connection_ends_when_both_have_closed",
        &[
            Step::IsReceiver(8, ROOM),
            Step::Makes(Call::Close(INWARD), Say::Cls(INWARD)),
            Step::Knows(
                INWARD,
                Record {
                    left: true,
                    ..RECEIVER
                },
            ),
            Step::Hears(Say::Cls(INWARD), Heard::Nothing),
            Step::KnowsNone(INWARD),
            Step::Errs(Say::Cls(INWARD), 4, &[3, 0, 0, 0, 3, 0, 0, 0, 2]),
        ],
    ),
    (
        "a_connection_ends_when_both_have_closed",
        &[
            Step::IsSender(8, ROOM),
            Step::Replies(Say::Cls(OUTWARD), Say::Cls(OUTWARD)),
            Step::KnowsNone(OUTWARD),
        ],
    ),
    // A request that arrives on a connection that was left is recorded, and opens nothing.
    (
        "what_is_left_is_not_opened",
        &[
            Step::Makes(Call::AskSend(OUTWARD, 8, ROOM), Say::Str(OUTWARD, 8)),
            Step::Makes(Call::Close(OUTWARD), Say::Cls(OUTWARD)),
            Step::Hears(Say::Rts(OUTWARD, LINK), Heard::Nothing),
            Step::Knows(
                OUTWARD,
                Record {
                    heard: true,
                    link: LINK,
                    left: true,
                    ..ASKED_TO_SEND
                },
            ),
        ],
    ),
    // Commands on the link of a sender that was left are late, and the link stays taken until the
    // end.
    (
        "a_heard_link_is_kept_until_the_end",
        &[
            Step::IsSender(8, ROOM),
            Step::Makes(Call::Close(OUTWARD), Say::Cls(OUTWARD)),
            Step::Hears(Say::All(1, 8), Heard::Late),
            Step::Errs(NEXT, 3, &[1, 0, 0, 0, 4, 0, 0, 0, 5, 2]),
            Step::Hears(Say::Cls(OUTWARD), Heard::Nothing),
            Step::KnowsNone(OUTWARD),
            Step::Hears(NEXT, Heard::Nothing),
        ],
    ),
    // A receiver's link becomes free when the connection ends, not before.
    (
        "a_link_is_kept_until_the_end",
        &[
            Step::IsReceiver(8, ROOM),
            Step::Makes(Call::Close(INWARD), Say::Cls(INWARD)),
            Step::Makes(
                Call::AskReceive(NEXT_INWARD, ROOM),
                Say::Rts(NEXT_INWARD, 3),
            ),
            Step::Hears(Say::Cls(INWARD), Heard::Nothing),
            Step::Makes(Call::AskReceive(FREE, ROOM), Say::Rts(FREE, 2)),
        ],
    ),
    // While a text is unacknowledged, the sender's CLS is only pending.
    (
        "a_sender_closes_behind_its_text",
        &[
            Step::IsSender(8, ROOM),
            Step::Hears(Say::All(2, 16), Heard::Nothing),
            Step::Does(Call::Give(OUTWARD, 24)),
            Step::Cuts(LINK, 8, 0, 16),
            Step::RefusesFull(Call::Close(OUTWARD), CallFault::QueueFull),
            Step::Does(Call::Close(OUTWARD)),
            Step::Knows(OUTWARD, LEAVING),
            Step::Refuses(Call::Close(OUTWARD), CallFault::Closing),
            Step::CutsNone(LINK),
            Step::Answered(LINK, Some(Say::Cls(OUTWARD))),
            Step::Knows(
                OUTWARD,
                Record {
                    leaving: false,
                    busy: false,
                    left: true,
                    ..LEAVING
                },
            ),
            Step::Answered(LINK, None),
        ],
    ),
    // The peer's CLS arrives while a text is unacknowledged: the local CLS follows the RFNM, and
    // ends the connection.
    (
        "a_sender_answers_cls_behind_its_text",
        &[
            Step::IsSender(8, ROOM),
            Step::Hears(Say::All(2, 16), Heard::Nothing),
            Step::Does(Call::Give(OUTWARD, 24)),
            Step::Cuts(LINK, 8, 0, 16),
            Step::Hears(Say::Cls(OUTWARD), Heard::Nothing),
            Step::Knows(
                OUTWARD,
                Record {
                    messages: 1,
                    bits: 0,
                    leaving: true,
                    cls: true,
                    busy: true,
                    ..SENDER
                },
            ),
            Step::Errs(Say::Cls(OUTWARD), 3, &[3, 0, 0, 0, 2, 0, 0, 0, 3]),
            Step::Answered(LINK, Some(Say::Cls(OUTWARD))),
            Step::KnowsNone(OUTWARD),
        ],
    ),
    // A closing receiver first gives the bits that it holds: six bytes, at most four at a time.
    (
        "a_receiver_closes_behind_held_bits",
        &[
            Step::IsReceiver(8, ROOM),
            Step::Makes(Call::Allocate(INWARD, 1, 48), Say::All(1, 48)),
            Step::Text(LINK, 8, 48, Took::Admitted),
            Step::Hears(Say::Cls(INWARD), Heard::Nothing),
            Step::Knows(
                INWARD,
                Record {
                    leaving: true,
                    cls: true,
                    stored: 48,
                    ..RECEIVER
                },
            ),
            Step::Takes(INWARD, 4, 0, 32),
            Step::TakesLast(INWARD, 4, 32, 16, Say::Cls(INWARD)),
            Step::KnowsNone(INWARD),
        ],
    ),
    // A user who closes a receiver again while it is leaving drops its held text.
    (
        "held_bits_are_dropped",
        &[
            Step::IsReceiver(8, ROOM),
            Step::Makes(Call::Allocate(INWARD, 1, 48), Say::All(1, 48)),
            Step::Text(LINK, 8, 48, Took::Admitted),
            Step::Hears(Say::Cls(INWARD), Heard::Nothing),
            Step::Makes(Call::Close(INWARD), Say::Cls(INWARD)),
            Step::KnowsNone(INWARD),
        ],
    ),
    (
        "all_is_purged",
        &[
            Step::IsSender(8, ROOM),
            Step::Makes(Call::AskReceive(INWARD, ROOM), Say::Rts(INWARD, 2)),
            Step::Hears(Say::Str(NEXT_INWARD, 8), Heard::Nothing),
            Step::Purges,
            Step::HasPair(None),
            Step::KnowsNone(OUTWARD),
            Step::KnowsNone(INWARD),
            Step::KnowsNone(NEXT_INWARD),
            Step::Makes(Call::AskReceive(INWARD, ROOM), Say::Rts(INWARD, 2)),
        ],
    ),
];

#[test]
fn closing_ends_connections(rt: HostRuntime) -> Result<(), Fail> {
    goes_through(&rt, rt.alloc(), EXAMPLES)
}

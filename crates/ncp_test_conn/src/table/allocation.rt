//! Allocation.
use super::steps::{Call, Say, Step};
use super::{Example, INWARD, LINK, OUTWARD, RECEIVER, ROOM, SENDER, goes, goes_through};
use ncp_conn::{CallFault, Heard, Record, Took};
use ncp_model::{MAX_AMOUNT, MAX_MESSAGES};
use ncp_wire::Command;
use std::test::Fail;

/// A sender that returned a part of five messages and 1,000 bits.
const LEFT: Record = Record {
    messages: 2,
    bits: 992,
    ..SENDER
};

/// Allocates more than there is room for.
const ALLOCATE: Call = Call::Allocate(INWARD, 1, ROOM + 1);

/// Calls back the outstanding allocation.
const CALL_BACK: Call = Call::CallBack(INWARD, 1, 1);

/// A receiver that is calling back an allocation of five messages and 1,000 bits.
const CALLING: Record = Record {
    messages: 5,
    bits: 1000,
    recall: true,
    ..RECEIVER
};

const EXAMPLES: &[Example<'static>] = &[
    (
        "parts_are_given_back",
        &[
            Step::IsSender(8, ROOM),
            Step::Hears(Say::All(5, 1000), Heard::Nothing),
            Step::Replies(Say::Gvb(64, 1), Say::Ret(3, 8)),
            Step::Knows(OUTWARD, LEFT),
            Step::Replies(Say::Gvb(200, 0), Say::Ret(2, 0)),
            Step::Knows(
                OUTWARD,
                Record {
                    messages: 0,
                    ..LEFT
                },
            ),
        ],
    ),
    // The share of a bit counter that is returned, and that of a message counter.
    (
        "what_is_given_back_is_rounded_up",
        &[
            Step::IsSender(8, ROOM),
            Step::Hears(Say::All(0, 1000), Heard::Nothing),
            Step::Replies(Say::Gvb(255, 0), Say::Ret(0, 0)),
        ],
    ),
    (
        "what_is_given_back_is_rounded_up",
        &[
            Step::IsSender(8, ROOM),
            Step::Hears(Say::All(0, 1000), Heard::Nothing),
            Step::Replies(Say::Gvb(255, 1), Say::Ret(0, 8)),
        ],
    ),
    (
        "what_is_given_back_is_rounded_up",
        &[
            Step::IsSender(8, ROOM),
            Step::Hears(Say::All(0, 5), Heard::Nothing),
            Step::Replies(Say::Gvb(255, 128), Say::Ret(0, 5)),
        ],
    ),
    (
        "what_is_given_back_is_rounded_up",
        &[
            Step::IsSender(8, ROOM),
            Step::Hears(Say::All(0, 5), Heard::Nothing),
            Step::Replies(Say::Gvb(255, 255), Say::Ret(0, 5)),
        ],
    ),
    (
        "what_is_given_back_is_rounded_up",
        &[
            Step::IsSender(8, ROOM),
            Step::Hears(Say::All(0, MAX_AMOUNT), Heard::Nothing),
            Step::Replies(Say::Gvb(255, 1), Say::Ret(0, 33_554_432)),
        ],
    ),
    (
        "what_is_given_back_is_rounded_up",
        &[
            Step::IsSender(8, ROOM),
            Step::Hears(Say::All(0, MAX_AMOUNT), Heard::Nothing),
            Step::Replies(Say::Gvb(255, 255), Say::Ret(0, MAX_AMOUNT)),
        ],
    ),
    (
        "what_is_given_back_is_rounded_up",
        &[
            Step::IsSender(8, ROOM),
            Step::Hears(Say::All(1000, 0), Heard::Nothing),
            Step::Replies(Say::Gvb(1, 255), Say::Ret(8, 0)),
        ],
    ),
    (
        "what_is_given_back_is_rounded_up",
        &[
            Step::IsSender(8, ROOM),
            Step::Hears(Say::All(5, 0), Heard::Nothing),
            Step::Replies(Say::Gvb(255, 255), Say::Ret(5, 0)),
        ],
    ),
    (
        "what_is_given_back_is_rounded_up",
        &[
            Step::IsSender(8, ROOM),
            Step::Hears(Say::All(MAX_MESSAGES, 0), Heard::Nothing),
            Step::Replies(Say::Gvb(64, 255), Say::Ret(32_768, 0)),
        ],
    ),
    // Counters rise up to their limits; if one would pass its limit, neither rises.
    (
        "counters_stay_within_limits",
        &[
            Step::IsSender(8, ROOM),
            Step::Hears(Say::All(MAX_MESSAGES, MAX_AMOUNT - 1), Heard::Nothing),
            Step::Errs(Say::All(1, 0), 3, &[4, 2, 0, 1, 0, 0, 0, 0]),
            Step::Errs(Say::All(0, 2), 3, &[4, 2, 0, 0, 0, 0, 0, 2]),
            Step::Hears(Say::All(0, 1), Heard::Nothing),
            Step::Knows(
                OUTWARD,
                Record {
                    messages: MAX_MESSAGES,
                    bits: MAX_AMOUNT,
                    ..SENDER
                },
            ),
        ],
    ),
    // The order of refusals when an end cannot allocate or call back.
    (
        "open_receivers_alone_allocate",
        &[
            Step::RefusesFull(ALLOCATE, CallFault::NoEntry),
            Step::RefusesFull(CALL_BACK, CallFault::NoEntry),
            Step::Makes(Call::AskReceive(INWARD, ROOM), Say::Rts(INWARD, LINK)),
            Step::RefusesFull(ALLOCATE, CallFault::NotOpen),
            Step::RefusesFull(CALL_BACK, CallFault::NotOpen),
            Step::Makes(Call::Close(INWARD), Say::Cls(INWARD)),
            Step::RefusesFull(ALLOCATE, CallFault::Closing),
            Step::RefusesFull(CALL_BACK, CallFault::Closing),
            Step::IsSender(8, ROOM),
            Step::RefusesFull(Call::Allocate(OUTWARD, 1, ROOM + 1), CallFault::WrongEnd),
            Step::RefusesFull(Call::CallBack(OUTWARD, 1, 1), CallFault::WrongEnd),
        ],
    ),
    (
        "no_more_is_allocated_than_fits",
        &[
            Step::IsReceiver(8, ROOM),
            Step::RefusesFull(Call::Allocate(INWARD, 1, ROOM + 1), CallFault::TooMuch),
            Step::RefusesFull(Call::Allocate(INWARD, 1, ROOM), CallFault::QueueFull),
            Step::Makes(
                Call::Allocate(INWARD, MAX_MESSAGES, ROOM),
                Say::All(MAX_MESSAGES, ROOM),
            ),
            Step::Refuses(Call::Allocate(INWARD, 1, 0), CallFault::TooMuch),
            Step::Refuses(Call::Allocate(INWARD, 0, 1), CallFault::TooMuch),
        ],
    ),
    // Held text takes room too.
    (
        "held_bits_are_counted",
        &[
            Step::IsReceiver(8, 16),
            Step::Makes(Call::Allocate(INWARD, 2, 16), Say::All(2, 16)),
            Step::Text(LINK, 8, 8, Took::Admitted),
            Step::Refuses(Call::Allocate(INWARD, 1, 8), CallFault::TooMuch),
            Step::Takes(INWARD, 1, 0, 8),
            Step::Makes(Call::Allocate(INWARD, 1, 8), Say::All(1, 8)),
            Step::Knows(
                INWARD,
                Record {
                    messages: 2,
                    bits: 16,
                    ..RECEIVER
                },
            ),
        ],
    ),
    (
        "one_call_back_is_out_at_a_time",
        &[
            Step::IsReceiver(8, ROOM),
            Step::RefusesFull(Call::CallBack(INWARD, 64, 1), CallFault::QueueFull),
            Step::Makes(Call::CallBack(INWARD, 64, 1), Say::Gvb(64, 1)),
            Step::RefusesFull(Call::CallBack(INWARD, 64, 1), CallFault::Busy),
            Step::Hears(Say::Ret(0, 0), Heard::Nothing),
            Step::Makes(Call::CallBack(INWARD, 200, 0), Say::Gvb(200, 0)),
        ],
    ),
    // A RET of more than is outstanding answers nothing, and neither does a late one.
    (
        "what_is_outstanding_is_taken_back",
        &[
            Step::IsReceiver(8, ROOM),
            Step::Makes(Call::Allocate(INWARD, 5, 1000), Say::All(5, 1000)),
            Step::Makes(Call::CallBack(INWARD, 64, 1), Say::Gvb(64, 1)),
            Step::Errs(Say::Ret(6, 0), 3, &[6, 2, 0, 6, 0, 0, 0, 0]),
            Step::Knows(INWARD, CALLING),
            Step::Hears(Say::Ret(3, 8), Heard::Nothing),
            Step::Knows(
                INWARD,
                Record {
                    messages: 2,
                    bits: 992,
                    recall: false,
                    ..CALLING
                },
            ),
            Step::Makes(Call::Close(INWARD), Say::Cls(INWARD)),
            Step::Hears(Say::Ret(2, 0), Heard::Late),
        ],
    ),
    // A link that identifies no connection, or one that is not open.
    (
        "links_not_connected_are_answered",
        &[
            Step::Makes(Call::AskReceive(INWARD, ROOM), Say::Rts(INWARD, LINK)),
            Step::Errs(
                Say::As(Command::All {
                    link: 9,
                    messages: 1,
                    bits: 2,
                }),
                5,
                &[4, 9, 0, 1, 0, 0, 0, 2],
            ),
            Step::Errs(
                Say::As(Command::Gvb {
                    link: 9,
                    fm: 1,
                    fb: 2,
                }),
                5,
                &[5, 9, 1, 2],
            ),
            Step::Errs(
                Say::As(Command::Ret {
                    link: 9,
                    messages: 0,
                    bits: 0,
                }),
                5,
                &[6, 9],
            ),
            Step::Errs(Say::Ret(0, 0), 5, &[6, 2]),
            Step::Errs(Say::As(Command::Inr { link: 9 }), 5, &[7, 9]),
            Step::Errs(Say::As(Command::Ins { link: 9 }), 5, &[8, 9]),
        ],
    ),
];

#[test]
fn allocation_is_kept(rt: HostRuntime) -> Result<(), Fail> {
    goes_through(&rt, rt.alloc(), EXAMPLES)
}

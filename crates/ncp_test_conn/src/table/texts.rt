//! Text.
use super::steps::{Call, Say, Step};
use super::{Example, INWARD, LINK, OUTWARD, RECEIVER, ROOM, SENDER, goes, goes_through};
use ncp_conn::{CallFault, Heard, Record, Took};
use ncp_model::{MAX_MESSAGES, MAX_ROOM};
use ncp_wire::Command;
use std::alloc::Global;
use std::process::Abort;
use std::test::Fail;

// A text of `len` bits is sent unchanged, in bytes of this size.
fn is_sent(rt: &impl Abort, alloc: Global, size: u8, len: u16) -> Result<(), Fail> {
    let known = Record {
        size,
        bits: MAX_ROOM.saturating_sub(u32::from(len)),
        busy: true,
        ..SENDER
    };
    goes(
        rt,
        alloc,
        (
            "a text is sent",
            &[
                Step::IsSender(size, MAX_ROOM),
                Step::Hears(Say::All(1, MAX_ROOM), Heard::Nothing),
                Step::Does(Call::Give(OUTWARD, usize::from(len))),
                Step::Cuts(LINK, size, 0, usize::from(len)),
                Step::Knows(OUTWARD, known),
                Step::Answered(LINK, None),
            ],
        ),
    )
}

// A text is taken as it was received.
fn is_taken(rt: &impl Abort, alloc: Global, size: u8, len: u16) -> Result<(), Fail> {
    let known = Record {
        size,
        bits: MAX_ROOM.saturating_sub(u32::from(len)),
        ..RECEIVER
    };
    goes(
        rt,
        alloc,
        (
            "a text is taken",
            &[
                Step::IsReceiver(size, MAX_ROOM),
                Step::Makes(Call::Allocate(INWARD, 1, MAX_ROOM), Say::All(1, MAX_ROOM)),
                Step::Text(LINK, size, usize::from(len), Took::Admitted),
                Step::Takes(INWARD, u32::from(MAX_MESSAGES), 0, usize::from(len)),
                Step::Knows(INWARD, known),
            ],
        ),
    )
}

#[test]
fn texts_of_each_size_are_carried(rt: HostRuntime) -> Result<(), Fail> {
    // Thirty-one bytes of 255 bits fill one message.
    for (size, len) in [(1, 1), (1, 100), (8, 24), (36, 36), (36, 108), (255, 7905)] {
        is_sent(&rt, rt.alloc(), size, len)?;
        is_taken(&rt, rt.alloc(), size, len)?;
    }
    Ok(())
}

/// Gives as much as one message can hold.
const PIECE: Call = Call::Give(OUTWARD, 8192);

/// The interrupts of a sender and of a receiver.
const INS: Say = Say::As(Command::Ins { link: LINK });

const INR: Say = Say::As(Command::Inr { link: LINK });

/// Interrupts as a sender.
const INTERRUPT: Call = Call::Interrupt(OUTWARD);

const EXAMPLES: &[Example<'static>] = &[
    // A thousand bytes of eight bits take two messages, of 991 bytes and of 9.
    (
        "what_fits_one_message_is_cut",
        &[
            Step::IsSender(8, MAX_ROOM),
            Step::Hears(Say::All(9, MAX_ROOM), Heard::Nothing),
            Step::CutsNone(LINK),
            Step::Does(Call::Give(OUTWARD, 8000)),
            Step::Cuts(LINK, 8, 0, 7928),
            Step::CutsNone(LINK),
            Step::Answered(LINK, None),
            Step::Cuts(LINK, 8, 7928, 72),
            Step::Knows(
                OUTWARD,
                Record {
                    messages: 7,
                    bits: MAX_ROOM - 8000,
                    busy: true,
                    ..SENDER
                },
            ),
        ],
    ),
    // Text is sent only within both counters.
    (
        "what_is_allocated_is_cut",
        &[
            Step::IsSender(8, ROOM),
            Step::Does(Call::Give(OUTWARD, 24)),
            Step::CutsNone(LINK),
            Step::Hears(Say::All(0, 23), Heard::Nothing),
            Step::CutsNone(LINK),
            Step::Hears(Say::All(1, 0), Heard::Nothing),
            Step::Cuts(LINK, 8, 0, 16),
            Step::Knows(
                OUTWARD,
                Record {
                    bits: 7,
                    stored: 8,
                    busy: true,
                    ..SENDER
                },
            ),
            Step::CutsNone(9),
            Step::Answered(9, None),
        ],
    ),
    // The order of refusals when an end cannot give or take bits.
    (
        "open_ends_alone_give_and_take",
        &[
            Step::Refuses(Call::Give(OUTWARD, 12), CallFault::NoEntry),
            Step::Refuses(Call::Take(INWARD, 1), CallFault::NoEntry),
            Step::Makes(Call::AskSend(OUTWARD, 8, 8), Say::Str(OUTWARD, 8)),
            Step::Refuses(Call::Give(OUTWARD, 12), CallFault::NotOpen),
            Step::Refuses(Call::Take(OUTWARD, 1), CallFault::NotOpen),
            Step::Makes(Call::Close(OUTWARD), Say::Cls(OUTWARD)),
            Step::Refuses(Call::Give(OUTWARD, 12), CallFault::Closing),
            Step::IsReceiver(8, 8),
            Step::Refuses(Call::Give(INWARD, 12), CallFault::WrongEnd),
            Step::Takes(INWARD, 1, 0, 0),
            Step::Makes(Call::Close(INWARD), Say::Cls(INWARD)),
            Step::Refuses(Call::Take(INWARD, 1), CallFault::Closing),
        ],
    ),
    (
        "whole_bytes_that_fit_are_given",
        &[
            Step::IsSender(8, 8),
            Step::Refuses(Call::Take(OUTWARD, 1), CallFault::WrongEnd),
            Step::Refuses(Call::Give(OUTWARD, 12), CallFault::NotWhole),
            Step::Refuses(Call::Give(OUTWARD, 16), CallFault::NoRoom),
            Step::Does(Call::Give(OUTWARD, 8)),
            Step::Refuses(Call::Give(OUTWARD, 8), CallFault::NoRoom),
            Step::Does(Call::Give(OUTWARD, 0)),
            Step::Knows(
                OUTWARD,
                Record {
                    stored: 8,
                    ..SENDER
                },
            ),
        ],
    ),
    // An end that was left without being opened counts texts as late, too.
    (
        "texts_are_for_open_receivers",
        &[
            Step::Text(LINK, 8, 8, Took::NotOpen),
            Step::Makes(Call::AskReceive(INWARD, ROOM), Say::Rts(INWARD, LINK)),
            Step::Text(LINK, 8, 8, Took::NotOpen),
            Step::Makes(Call::Close(INWARD), Say::Cls(INWARD)),
            Step::Text(LINK, 8, 8, Took::Late),
        ],
    ),
    // The order of the reasons for not holding a text.
    (
        "what_is_allocated_is_admitted",
        &[
            Step::IsReceiver(8, ROOM),
            Step::Text(LINK, 4, 8, Took::WrongSize),
            Step::Text(LINK, 8, 8, Took::Over),
            Step::Text(3, 8, 8, Took::NotOpen),
            Step::Makes(Call::Allocate(INWARD, 1, 7), Say::All(1, 7)),
            Step::Text(LINK, 8, 8, Took::Over),
            Step::Makes(Call::Allocate(INWARD, 0, 1), Say::All(0, 1)),
            Step::Text(LINK, 8, 8, Took::Admitted),
            Step::Makes(Call::Close(INWARD), Say::Cls(INWARD)),
            Step::Text(LINK, 4, 8, Took::Late),
        ],
    ),
    // A text of no bytes takes one message of the outstanding allocation.
    (
        "a_text_of_no_bytes_is_admitted",
        &[
            Step::IsReceiver(8, ROOM),
            Step::Makes(Call::Allocate(INWARD, 2, 16), Say::All(2, 16)),
            Step::Text(LINK, 8, 0, Took::Admitted),
            Step::Knows(
                INWARD,
                Record {
                    messages: 1,
                    bits: 16,
                    ..RECEIVER
                },
            ),
        ],
    ),
    (
        "one_bit_is_stored",
        &[
            Step::IsSender(1, 1),
            Step::Does(Call::Give(OUTWARD, 1)),
            Step::Refuses(Call::Give(OUTWARD, 1), CallFault::NoRoom),
            Step::IsReceiver(1, 1),
            Step::Refuses(Call::Allocate(INWARD, 1, 2), CallFault::TooMuch),
            Step::Makes(Call::Allocate(INWARD, 2, 1), Say::All(2, 1)),
            Step::Text(LINK, 1, 1, Took::Admitted),
            Step::Text(LINK, 1, 1, Took::Over),
            Step::Knows(
                INWARD,
                Record {
                    size: 1,
                    messages: 1,
                    stored: 1,
                    ..RECEIVER
                },
            ),
        ],
    ),
    (
        "stores_have_65_536_bits",
        &[
            Step::IsSender(8, MAX_ROOM),
            Step::Does(PIECE),
            Step::Does(PIECE),
            Step::Does(PIECE),
            Step::Does(PIECE),
            Step::Does(PIECE),
            Step::Does(PIECE),
            Step::Does(PIECE),
            Step::Does(PIECE),
            Step::Knows(
                OUTWARD,
                Record {
                    stored: MAX_ROOM,
                    ..SENDER
                },
            ),
            Step::Refuses(Call::Give(OUTWARD, 8), CallFault::NoRoom),
        ],
    ),
    (
        "interrupts_are_counted",
        &[
            Step::IsSender(8, ROOM),
            Step::IsReceiver(8, ROOM),
            Step::Makes(Call::Interrupt(OUTWARD), INS),
            Step::Makes(Call::Interrupt(INWARD), INR),
            Step::Hears(INR, Heard::Nothing),
            Step::Hears(INR, Heard::Nothing),
            Step::Hears(INS, Heard::Nothing),
            Step::Knows(
                OUTWARD,
                Record {
                    interrupts: 2,
                    ..SENDER
                },
            ),
            Step::Knows(
                INWARD,
                Record {
                    interrupts: 1,
                    ..RECEIVER
                },
            ),
        ],
    ),
    (
        "open_connections_alone_interrupt",
        &[
            Step::RefusesFull(INTERRUPT, CallFault::NoEntry),
            Step::Makes(Call::AskSend(OUTWARD, 8, ROOM), Say::Str(OUTWARD, 8)),
            Step::RefusesFull(INTERRUPT, CallFault::NotOpen),
            Step::Hears(Say::Rts(OUTWARD, LINK), Heard::Nothing),
            Step::RefusesFull(INTERRUPT, CallFault::QueueFull),
            Step::Makes(Call::Close(OUTWARD), Say::Cls(OUTWARD)),
            Step::RefusesFull(INTERRUPT, CallFault::Closing),
            Step::Hears(Say::As(Command::Inr { link: LINK }), Heard::Late),
        ],
    ),
];

#[test]
fn texts_are_carried(rt: HostRuntime) -> Result<(), Fail> {
    goes_through(&rt, rt.alloc(), EXAMPLES)
}

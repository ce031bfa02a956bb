//! A whole connection, from both sides' requests to both sides' CLSs.
use super::steps::{Call, Say, Step};
use super::{Example, INWARD, LINK, OUTWARD, RECEIVER, ROOM, SENDER, goes_through};
use ncp_conn::{Heard, Role, Took, equality};
use ncp_wire::FIRST_LINK;
use std::test::Fail;

#[test]
fn records_and_ends_are_compared(rt: HostRuntime) {
    assert!(rt; equality::equal_records(&SENDER, &SENDER));
    assert!(rt; !equality::equal_records(&SENDER, &RECEIVER));
    assert!(rt; equality::equal_ends(SENDER.end, Role::Send));
}

const EXAMPLES: &[Example<'static>] = &[
    // At the sender: between the calls, the next link to send on and the pairs of the table are
    // read.
    (
        "a_sender_opens_sends_and_closes",
        &[
            Step::HasPair(None),
            Step::Makes(Call::AskSend(OUTWARD, 8, ROOM), Say::Str(OUTWARD, 8)),
            Step::Hears(Say::Rts(OUTWARD, LINK), Heard::Nothing),
            Step::HasPair(Some(OUTWARD)),
            Step::Hears(Say::All(1, 16), Heard::Nothing),
            Step::NextCut(FIRST_LINK, None),
            Step::Does(Call::Give(OUTWARD, 16)),
            Step::NextCut(FIRST_LINK, Some(LINK)),
            Step::NextCut(3, None),
            Step::Cuts(LINK, 8, 0, 16),
            Step::Answered(LINK, None),
            Step::Makes(Call::Close(OUTWARD), Say::Cls(OUTWARD)),
            Step::Hears(Say::Cls(OUTWARD), Heard::Nothing),
            Step::KnowsNone(OUTWARD),
        ],
    ),
    (
        "a_receiver_opens_takes_and_closes",
        &[
            Step::Hears(Say::Str(INWARD, 8), Heard::Nothing),
            Step::Makes(Call::AskReceive(INWARD, ROOM), Say::Rts(INWARD, LINK)),
            Step::Knows(INWARD, RECEIVER),
            Step::Makes(Call::Allocate(INWARD, 1, 16), Say::All(1, 16)),
            Step::Text(LINK, 8, 16, Took::Admitted),
            Step::Takes(INWARD, 16, 0, 16),
            Step::Replies(Say::Cls(INWARD), Say::Cls(INWARD)),
            Step::KnowsNone(INWARD),
        ],
    ),
];

#[test]
fn a_connection_opens_and_ends(rt: HostRuntime) -> Result<(), Fail> {
    goes_through(&rt, rt.alloc(), EXAMPLES)
}

//! Properties that no clause states: calls succeed, and the definitions mean the same as the worked
//! examples.
use crate::known::is_told;
use ncp_bits::Bits;
use ncp_subnet::equality::equal_subnet_faults;
use ncp_subnet::laws::{each_message_is_answered_once, links_are_independent};
use ncp_subnet::{Subnet, SubnetFault};
use std::process::Abort;
use std::test::Fail;

// RST from host 1 to host 2 on link 0: 80 bits.
const RESET: [u8; 10] = [0x00, 0x02, 0x00, 0x00, 0x00, 0x08, 0x00, 0x01, 0x00, 0x0c];

// The same as host 2 receives it.
const RESET_COMES: [u8; 10] = [0x00, 0x01, 0x00, 0x00, 0x00, 0x08, 0x00, 0x01, 0x00, 0x0c];

// One byte of 36 bits, 123456789, to host 2 on link 2: 108 bits.
const TEXT: [u8; 14] = [
    0x00, 0x02, 0x02, 0x00, 0x00, 0x24, 0x00, 0x01, 0x00, 0x12, 0x34, 0x56, 0x78, 0x90,
];

// The same as host 2 receives it.
const TEXT_COMES: [u8; 14] = [
    0x00, 0x01, 0x02, 0x00, 0x00, 0x24, 0x00, 0x01, 0x00, 0x12, 0x34, 0x56, 0x78, 0x90,
];

fn bits(rt: &impl Abort, bytes: &[u8], len: usize) -> Bits {
    Bits::from_bytes(bytes, len).expect(rt, "the bits of a message")
}

/// A sender, a destination and a link.
type Way = (u8, u8, u8);

/// Bytes, and the number of bits of the message.
type Message<'a> = (&'a [u8], usize);

/// A step of a subnet, with its expected result.
#[derive(Clone, Copy, Drop)]
enum Step<'a> {
    /// A host's message is accepted.
    Accepts(u8, Message<'a>),
    /// A host's message is refused.
    Refuses(u8, Message<'a>, SubnetFault),
    /// The message delivered, if any.
    Delivers(Way, Option<Message<'a>>),
    /// Whether a message is lost.
    Loses(Way, bool),
    /// Whether a message finds its destination dead.
    IsDead(Way, bool),
    /// Whether an accepted message has not been delivered.
    IsAccepted(Way, bool),
    /// Whether the last message was delivered.
    IsDelivered(Way, bool),
    /// Whether there is an answer to return.
    HasAnswer(Way, bool),
    /// The answer returned, if any.
    Answers(Way, Option<Message<'a>>),
}

/// Runs all steps. The functions that it calls have no contracts, so the prover need not follow a
/// subnet through an example.
fn goes_on(rt: &impl Abort, subnet: &mut Subnet, name: &str, steps: &[Step<'_>]) {
    for (place, step) in steps.iter().enumerate() {
        assert!(rt; does(rt, subnet, step), "{name} at step {place}");
    }
}

fn does(rt: &impl Abort, subnet: &mut Subnet, step: &Step<'_>) -> bool {
    match step {
        Step::Accepts(from, message) => accepts(rt, subnet, *from, *message).is_ok(),
        Step::Refuses(from, message, fault) => {
            accepts(rt, subnet, *from, *message) == Err(*fault)
        }
        Step::Delivers(way, wanted) => is_given(rt, delivers(subnet, *way), *wanted),
        Step::Answers(way, wanted) => is_given(rt, answers(subnet, *way), *wanted),
        Step::Loses(way, wanted) => loses(subnet, *way) == *wanted,
        Step::IsDead(way, wanted) => is_dead(subnet, *way) == *wanted,
        Step::IsAccepted(way, wanted) => is_accepted(subnet, *way) == *wanted,
        Step::IsDelivered(way, wanted) => is_delivered(subnet, *way) == *wanted,
        Step::HasAnswer(way, wanted) => has_answer(subnet, *way) == *wanted,
    }
}

fn accepts(
    rt: &impl Abort,
    subnet: &mut Subnet,
    from: u8,
    (bytes, len): Message<'_>,
) -> Result<(), SubnetFault> {
    subnet.accept(from, &bits(rt, bytes, len))
}

fn delivers(subnet: &mut Subnet, (from, to, link): Way) -> Option<Bits> {
    subnet.deliver(from, to, link)
}

fn answers(subnet: &mut Subnet, (from, to, link): Way) -> Option<Bits> {
    subnet.answer(from, to, link)
}

fn loses(subnet: &mut Subnet, (from, to, link): Way) -> bool {
    subnet.lose(from, to, link)
}

fn is_dead(subnet: &mut Subnet, (from, to, link): Way) -> bool {
    subnet.dead(from, to, link)
}

fn is_accepted(subnet: &Subnet, (from, to, link): Way) -> bool {
    subnet.accepted(from, to, link)
}

fn has_answer(subnet: &Subnet, (from, to, link): Way) -> bool {
    subnet.has_answer(from, to, link)
}

fn is_delivered(subnet: &Subnet, (from, to, link): Way) -> bool {
    subnet.delivered(from, to, link)
}

/// Whether the message returned is the one wanted, if any.
fn is_given(rt: &impl Abort, given: Option<Bits>, wanted: Option<Message<'_>>) -> bool {
    match (given, wanted) {
        (Some(given), Some((bytes, len))) => given == bits(rt, bytes, len),
        (None, None) => true,
        _ => false,
    }
}

/// The sender, destination and link of most examples.
const WAY: Way = (1, 2, 0);

/// The sender, destination and link of a text.
const TEXT_WAY: Way = (1, 2, 2);

/// Steps of a new subnet of two hosts.
const EXAMPLES: &[(&str, u8, u8, &[Step<'static>])] = &[
    (
        "answers_what_came",
        1,
        2,
        &[
            Step::Accepts(1, (&RESET, 80)),
            Step::Answers(WAY, None),
            Step::IsDelivered(WAY, false),
            Step::Delivers(WAY, Some((&RESET_COMES, 80))),
            Step::IsDelivered(WAY, true),
            Step::Delivers(WAY, None),
            Step::Loses(WAY, false),
            Step::IsDead(WAY, false),
            Step::Answers(WAY, Some((&[0x05, 0x02, 0x00, 0x00], 32))),
            Step::Answers(WAY, None),
            Step::Accepts(1, (&RESET, 80)),
        ],
    ),
    (
        "answers_what_will_not_come",
        2,
        1,
        &[
            Step::Accepts(1, (&TEXT, 108)),
            Step::Loses(TEXT_WAY, true),
            Step::Delivers(TEXT_WAY, None),
            Step::IsDelivered(TEXT_WAY, false),
            Step::Answers(TEXT_WAY, Some((&[0x09, 0x02, 0x02, 0x00], 32))),
            Step::Accepts(1, (&TEXT, 108)),
            Step::IsDead(TEXT_WAY, true),
            Step::Delivers(TEXT_WAY, None),
            Step::Loses(TEXT_WAY, false),
            Step::Answers(TEXT_WAY, Some((&[0x07, 0x02, 0x02, 0x00], 32))),
            Step::Accepts(1, (&TEXT, 108)),
            Step::Delivers(TEXT_WAY, Some((&TEXT_COMES, 108))),
        ],
    ),
    (
        "tells_what_can_be_and_what_it_answers",
        1,
        2,
        &[
            Step::IsAccepted(WAY, false),
            Step::HasAnswer(WAY, false),
            Step::Accepts(1, (&RESET, 80)),
            Step::IsAccepted(WAY, true),
            Step::HasAnswer(WAY, false),
            Step::IsAccepted((2, 1, 0), false),
            Step::IsAccepted((1, 2, 2), false),
            Step::IsAccepted((1, 3, 0), false),
            Step::Delivers(WAY, Some((&RESET_COMES, 80))),
            Step::IsAccepted(WAY, false),
            Step::HasAnswer(WAY, true),
            Step::HasAnswer((2, 1, 0), false),
            Step::HasAnswer((1, 2, 2), false),
            Step::HasAnswer((1, 3, 0), false),
            Step::Answers(WAY, Some((&[0x05, 0x02, 0x00, 0x00], 32))),
            Step::HasAnswer(WAY, false),
            Step::Accepts(1, (&RESET, 80)),
            Step::Loses(WAY, true),
            Step::IsAccepted(WAY, false),
            Step::HasAnswer(WAY, true),
            Step::Answers(WAY, Some((&[0x09, 0x02, 0x00, 0x00], 32))),
            Step::Accepts(1, (&RESET, 80)),
            Step::IsDead(WAY, true),
            Step::HasAnswer(WAY, true),
        ],
    ),
    // Shorter than a leader; of type 5, to an absent host; from an absent host, to an absent host,
    // to itself; and the second on a link.
    (
        "refuses_in_order",
        1,
        2,
        &[
            Step::Refuses(1, (&[0, 2, 0, 0], 31), SubnetFault::NotRegular),
            Step::Refuses(1, (&[5, 9, 0, 0], 32), SubnetFault::NotRegular),
            Step::Refuses(3, (&RESET, 80), SubnetFault::NoHost),
            Step::Refuses(1, (&[0, 3, 0, 0], 32), SubnetFault::NoHost),
            Step::Refuses(2, (&RESET, 80), SubnetFault::NoHost),
            Step::Accepts(1, (&RESET, 80)),
            Step::Refuses(1, (&RESET, 80), SubnetFault::Occupied),
            Step::Accepts(2, (&[0, 1, 0, 0], 32)),
            Step::Accepts(1, (&[0, 2, 255, 0], 32)),
        ],
    ),
    (
        "keeps_what_became_of_a_message",
        1,
        2,
        &[
            Step::Delivers(WAY, None),
            Step::IsDead(WAY, false),
            Step::Accepts(1, (&[0, 2, 0, 0], 32)),
            Step::Accepts(1, (&[0, 2, 2, 0], 32)),
            Step::Accepts(1, (&[0, 2, 3, 0], 32)),
            Step::Delivers(WAY, Some((&[0, 1, 0, 0], 32))),
            Step::Loses((1, 2, 2), true),
            Step::IsDead((1, 2, 3), true),
            Step::Refuses(1, (&[0, 2, 0, 0], 32), SubnetFault::Occupied),
            Step::Refuses(1, (&[0, 2, 2, 0], 32), SubnetFault::Occupied),
            Step::Refuses(1, (&[0, 2, 3, 0], 32), SubnetFault::Occupied),
            Step::Loses((1, 2, 2), false),
            Step::IsDead((1, 2, 2), false),
            Step::IsDead((1, 2, 3), false),
        ],
    ),
    // The answer keeps neither.
    (
        "delivers_flags_and_low_field",
        1,
        2,
        &[
            Step::Accepts(1, (&[0x10, 0x02, 0x0a, 0x05], 32)),
            Step::Delivers((1, 2, 0x0a), Some((&[0x10, 0x01, 0x0a, 0x05], 32))),
            Step::Answers((1, 2, 0x0a), Some((&[0x05, 0x02, 0x0a, 0x00], 32))),
        ],
    ),
];

#[test]
fn examples_are_followed(rt: HostRuntime) -> Result<(), Fail> {
    for &(name, a, b, steps) in EXAMPLES {
        let mut subnet = Subnet::new(rt.alloc(), a, b)?;
        goes_on(&rt, &mut subnet, name, steps);
    }
    Ok(())
}

#[test]
fn states_laws(_rt: HostRuntime) {
    links_are_independent();
    each_message_is_answered_once::<Bits>();
}

fn number_of(fault: SubnetFault) -> u8 {
    fault as u8
}

#[test]
fn tells_faults(rt: HostRuntime) -> Result<(), Fail> {
    const TOLD: &[(SubnetFault, u8, &str)] = &[
        (SubnetFault::NotRegular, 1, "no regular message"),
        (
            SubnetFault::NoHost,
            2,
            "not from one host of the subnet to another",
        ),
        (
            SubnetFault::Occupied,
            3,
            "the last message on this link is not answered yet",
        ),
    ];
    assert!(rt; equal_subnet_faults(SubnetFault::NoHost, SubnetFault::NoHost));
    for &(fault, number, text) in TOLD {
        assert!(rt; number_of(fault) == number && is_told(rt.alloc(), &fault, text)?);
    }
    Ok(())
}

#[test]
fn keeps_ways_distinct(rt: HostRuntime) -> Result<(), Fail> {
    const HOSTS: &[u8] = &[1, 2, 3, 4, 5, 6, 7, 8];
    const STEPS: &[Step<'static>] = &[
        Step::Loses((3, 7, 0), true),
        Step::Loses((3, 7, 2), false),
        Step::Delivers((7, 3, 0), Some((&[0, 7, 0, 0], 32))),
        Step::IsDelivered((7, 3, 0), true),
        Step::IsDelivered((3, 7, 0), false),
        Step::Answers((3, 7, 0), Some((&[9, 7, 0, 0], 32))),
        Step::Delivers((3, 9, 0), None),
        Step::Answers((9, 3, 0), None),
    ];
    let mut subnet = Subnet::among(rt.alloc(), HOSTS)?;
    for &from in HOSTS {
        for &to in HOSTS {
            let accepted = accepts(&rt, &mut subnet, from, (&[0, to, 0, 0], 32)).is_ok();
            assert!(rt; accepted == (from != to), "from {from} to {to}");
        }
    }
    goes_on(&rt, &mut subnet, "keeps_ways_apart", STEPS);
    Ok(())
}

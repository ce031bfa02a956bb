//! Sends a letter from one host to another through the public crates alone: runs two hosts and the
//! subnet between them, and prints the text that the second host's users took. By the contract of
//! [`carry`], taken text is a prefix of the text given; this follows from the clause `headline` of
//! `World::step`.
ghost use Rattle.std.specs.Prelude.{IfOk};
ghost use Rattle.ncp_statement.specs.Statement.{TakenIsPrefix, WithinAllowance};

use anyhow::Result;
use ncp_bits::{Bits, PackedStore};
use ncp_host::Pair;
use ncp_transcript::{Call, HostNote, Message};
use ncp_world::{Event, Note, Side, World};
use std::alloc::{AllocError, Global};

/// The letter. The allocation covers only its first two letters, as on the first evening of the
/// network.
const TEXT: &[u8] = b"LOGIN";

/// The numbers of the two hosts.
const A: u8 = 1;

const B: u8 = 2;

/// The connection, as named at its sender and at its receiver, and the link that the receiver
/// chooses.
const SENDER: Pair = Pair {
    local: 3,
    remote: 2,
};

const RECEIVER: Pair = Pair {
    local: 2,
    remote: 3,
};

const LINK: u8 = 2;

const CONTROL_LINK: u8 = 0;

/// The calls of the users, except the one that gives the text.
const RESET: Event = Event::Call {
    side: Side::A,
    call: Call::Reset { peer: B },
};

const ASK_RECEIVE: Event = Event::Call {
    side: Side::B,
    call: Call::AskReceive {
        peer: A,
        local: RECEIVER.local,
        remote: RECEIVER.remote,
        room: 1024,
    },
};

const ASK_SEND: Event = Event::Call {
    side: Side::A,
    call: Call::AskSend {
        peer: B,
        local: SENDER.local,
        remote: SENDER.remote,
        size: 8,
        room: 1024,
    },
};

const ALLOCATE: Event = Event::Call {
    side: Side::B,
    call: Call::Allocate {
        peer: A,
        pair: RECEIVER,
        messages: 1,
        bits: 16,
    },
};

const TAKE: Event = Event::Call {
    side: Side::B,
    call: Call::Take {
        peer: A,
        pair: RECEIVER,
        bytes: 100,
    },
};

/// A call of a user, or a message with its delivery and its answer.
#[derive(Drop)]
enum Happens {
    Call(Event),
    /// The next message of a side is sent, delivered on this link, and answered.
    Passes(Side, u8),
}

/// The hosts come up, a connection opens, and two bytes are allocated.
const BEFORE: [Happens; 9] = [
    Happens::Call(RESET),
    Happens::Passes(Side::A, CONTROL_LINK),
    Happens::Passes(Side::B, CONTROL_LINK),
    Happens::Call(ASK_RECEIVE),
    Happens::Call(ASK_SEND),
    Happens::Passes(Side::B, CONTROL_LINK),
    Happens::Passes(Side::A, CONTROL_LINK),
    Happens::Call(ALLOCATE),
    Happens::Passes(Side::B, CONTROL_LINK),
];

fn step(world: &mut World<PackedStore>, event: Event) -> Result<(), AllocError> {
    let answer = world.step(&event);
    drop(event);
    answer
}

fn pass(world: &mut World<PackedStore>, side: Side, link: u8) -> Result<(), AllocError> {
    step(world, Event::Out { side })?;
    step(world, Event::Deliver { side, link })?;
    step(world, Event::Answer { side, link })
}

fn all_happen(world: &mut World<PackedStore>, all: &[Happens]) -> Result<(), AllocError> {
    for one in all {
        match one {
            Happens::Call(event) => world.step(event)?,
            Happens::Passes(side, link) => pass(world, *side, *link)?,
        }
    }
    Ok(())
}

fn come_up(world: &mut World<PackedStore>) -> Result<(), AllocError> {
    let before = BEFORE;
    let answer = all_happen(world, &before);
    drop(before);
    answer
}

/// The text is given.
fn give(alloc: Global, world: &mut World<PackedStore>, text: &Bits) -> Result<(), AllocError> {
    let text = Message::from_bits(alloc, text)?;
    let call = Call::Give {
        peer: B,
        pair: SENDER,
        text,
    };
    let side = Side::A;
    step(world, Event::Call { side, call })
}

/// Opens the connection, gives the text, and sends, delivers and answers its message.
fn send(alloc: Global, world: &mut World<PackedStore>, text: &Bits) -> Result<(), AllocError> {
    come_up(world)?;
    give(alloc, world, text)?;
    pass(world, Side::A, LINK)
}

/// Creates a world in which the hosts come up, a connection opens, a text is given at host 1, and
/// received text is taken at host 2. At each take, the bits taken so far are a prefix of the bits
/// given at the other host (`goes_on`), and at most as many bits are taken as were allocated
/// (`within`).
fn carry(alloc: Global, text: &Bits) -> Result<World<PackedStore>, AllocError>
    ensures goes_on { IfOk result (λ world. TakenIsPrefix world.notes) }
    ensures within { IfOk result (λ world. WithinAllowance world.notes) }
{
    let mut world = World::new(alloc, A, B)?;
    send(alloc, &mut world, text)?;
    let take = TAKE;
    let taken = world.step(&take);
    drop(take);
    taken?;
    Ok(world)
}

// Prints the whole bytes of a text as letters.
fn print_text(rt: &HostRuntime, text: &Bits) -> Result<()> {
    for place in 0..text.len() / 8 {
        let letter = text.number(8 * place, 8) as u8;
        print!(rt; "{}", char::from(letter))?;
    }
    println!(rt)?;
    Ok(())
}

// Prints the taken texts.
fn print_taken(rt: &HostRuntime, notes: &[Note]) -> Result<()> {
    for note in notes {
        if let Note::Called {
            note: HostNote::Took { text, .. },
            ..
        } = note
        {
            print_text(rt, &text.to_bits())?;
        }
    }
    Ok(())
}

/// Sends the letter, and prints the text taken.
pub(crate) fn print_letter(rt: &HostRuntime) -> Result<()> {
    let text = Bits::from_bytes(TEXT, 8 * TEXT.len())?;
    let world = carry(rt.alloc(), &text)?;
    print_taken(rt, world.transcript())
}

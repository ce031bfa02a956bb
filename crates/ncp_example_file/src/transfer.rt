//! A file is sent in pieces over one connection.
ghost use Rattle.std.specs.Prelude.{◌≡◌, ◌≤◌, true, [], length, IfOk, OnOk};
ghost use Rattle.ncp_example_file.specs.Accounts.{BothSaySo, HasArrived, HasGiven, HasTaken};
ghost use Rattle.ncp_example_file.specs.Calls.{CountsStay};
ghost use Rattle.ncp_example_file.specs.Transfers.{GivesOn, TakesOn, GivesNothing, TakesNothing};

use crate::calls::{bits_taken, call, settle, step};
use crate::laws::what_both_say_is_so;
use ncp_bits::{BitStore, Bits};
use ncp_host::Pair;
use ncp_transcript::{Call, Message};
use ncp_world::{Event, Side, World};
use std::alloc::{AllocError, Global};

/// The numbers of the two hosts. The file goes from A to B.
pub const HOST_A: u8 = 1;

pub const HOST_B: u8 = 2;

/// The connection, as named at its sender and at its receiver.
pub const SENDER: Pair = Pair {
    local: 3,
    remote: 2,
};

pub const RECEIVER: Pair = Pair {
    local: 2,
    remote: 3,
};

/// In bits: a piece of the file, the sender's room for unsent bits, the receiver's room for held
/// ones, and what the receiver allows at a time.
const PIECE: usize = 32;

const SENDER_ROOM: u32 = 64;

const RECEIVER_ROOM: u32 = 48;

const ALLOWED: u32 = 24;

/// The hosts come up, and the two users ask. Returns whether both requests were accepted.
fn ask<S: BitStore>(world: &mut World<S>) -> Result<bool, AllocError>
    requires { world.old.notes ≡ [] }
    ensures given { IfOk result (λ asked. asked ≡ true → HasGiven Side.A SENDER [] world.new.notes) }
    ensures taken { IfOk result (λ asked. asked ≡ true → HasTaken Side.B RECEIVER [] world.new.notes) }
{
    call(world, Side::A, Call::Reset { peer: HOST_B })?;
    settle(world)?;
    let ask_receive = Call::AskReceive {
        peer: HOST_A,
        local: RECEIVER.local,
        remote: RECEIVER.remote,
        room: RECEIVER_ROOM,
    };
    if !call(world, Side::B, ask_receive)? {
        return Ok(false);
    }
    let ask_send = Call::AskSend {
        peer: HOST_B,
        local: SENDER.local,
        remote: SENDER.remote,
        size: 8,
        room: SENDER_ROOM,
    };
    if !call(world, Side::A, ask_send)? {
        return Ok(false);
    }
    settle(world)?;
    Ok(true)
}

/// The sender's user gives the next piece, after `given` bits. If it is refused, for instance without
/// room, it may be given again. Returns how many bits are given after that.
fn give_piece<S: BitStore>(
    alloc: Global,
    world: &mut World<S>,
    file: &Bits,
    given: usize,
) -> Result<usize, AllocError>
    requires { given ≤ length file.now }
    ensures given { IfOk result (λ now. GivesOn file.now given now world.old.notes world.new.notes) }
    ensures within { IfOk result (λ now. now ≤ length file.now) }
    ensures taken { IfOk result (λ now. TakesNothing world.old.notes world.new.notes) }
{
    let bits = PIECE.min(file.len() - given);
    if bits == 0 {
        return Ok(given);
    }
    let text = Message::from_bits(alloc, &file.slice(given, bits).to_bits())?;
    let give = Call::Give {
        peer: HOST_B,
        pair: SENDER,
        text,
    };
    if !call(world, Side::A, give)? {
        return Ok(given);
    }
    Ok(given + bits)
}

/// The receiver's user allows one more message. If that is refused, for instance without room,
/// nothing changes.
fn allow<S: BitStore>(world: &mut World<S>) -> Result<(), AllocError>
    ensures { OnOk result (CountsStay world.old.notes world.new.notes) }
{
    let allocate = Call::Allocate {
        peer: HOST_A,
        pair: RECEIVER,
        messages: 1,
        bits: ALLOWED,
    };
    call(world, Side::B, allocate)?;
    Ok(())
}

/// The receiver's user takes what is held. It missed at most `missing` bits of what it expects.
/// Returns how many it misses at most after that.
fn take_held<S: BitStore>(world: &mut World<S>, missing: usize) -> Result<usize, AllocError>
    ensures given { IfOk result (λ left. GivesNothing world.old.notes world.new.notes) }
    ensures taken { IfOk result (λ left. TakesOn missing left world.old.notes world.new.notes) }
{
    let take = Call::Take {
        peer: HOST_A,
        pair: RECEIVER,
        bytes: u32::MAX,
    };
    let side = Side::B;
    step(world, Event::Call { side, call: take })?;
    Ok(missing.saturating_sub(bits_taken(world.transcript())))
}

/// Pieces are given and taken until both sides say that this was all: the sender has given each
/// bit, and the receiver misses none. Returns true only if they say so.
fn send_pieces<S: BitStore>(
    alloc: Global,
    world: &mut World<S>,
    file: &Bits,
) -> Result<bool, AllocError>
    requires given { HasGiven Side.A SENDER [] world.old.notes }
    requires taken { HasTaken Side.B RECEIVER [] world.old.notes }
    ensures { IfOk result (λ whole. whole ≡ true → BothSaySo Side.A SENDER file.now world.new.notes) }
{
    let mut given = 0;
    let mut missing = file.len();
    for _round in 0..2 * file.len() + 1 {
        if given == file.len() && missing == 0 {
            return Ok(true);
        }
        given = give_piece(alloc, world, file, given)?;
        allow(world)?;
        settle(world)?;
        missing = take_held(world, missing)?;
    }
    Ok(false)
}

/// Both users close.
fn close<S: BitStore>(world: &mut World<S>) -> Result<(), AllocError>
    ensures { OnOk result (CountsStay world.old.notes world.new.notes) }
{
    let at_sender = Call::Close {
        peer: HOST_B,
        pair: SENDER,
    };
    call(world, Side::A, at_sender)?;
    let at_receiver = Call::Close {
        peer: HOST_A,
        pair: RECEIVER,
    };
    call(world, Side::B, at_receiver)?;
    settle(world)
}

/// Sends a file from a user of host A to one of host B, in a new world of these two. If it returns
/// true, the file arrived whole, since both sides say so.
///
/// The sender compares nothing, and the receiver knows nothing of the file but its length. The
/// clause `whole` follows from the pipe.
pub fn send_file<S: BitStore>(
    alloc: Global,
    world: &mut World<S>,
    file: &Bits,
) -> Result<bool, AllocError>
    requires { world.old.notes ≡ [] }
    // theorem: If `send_file` returns true, then by the notes of the
    // transcript the file is what the sender's user gave and what the receiver's user took.
    ensures whole { IfOk result (λ whole. whole ≡ true → HasArrived Side.A SENDER file.now world.new.notes) }
{
    if !ask(world)? {
        return Ok(false);
    }
    let whole = send_pieces(alloc, world, file)?;
    close(world)?;
    what_both_say_is_so(world);
    Ok(whole)
}

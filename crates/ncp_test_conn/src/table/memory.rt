//! Memory for requests, and the table after a failed allocation.
use super::steps::{Call, Say, Step, made};
use super::tried::Tried;
use super::{Example, INWARD, LINK, NEXT_INWARD, OUTWARD, ROOM, goes};
use ncp_bits::{BitStore, PackedStore, PlainStore};
use ncp_conn::{CallFault, Heard, Pair, Took};
use ncp_model::{MAX_OWN, MAX_ROOM};
use std::alloc::Global;
use std::process::Abort;
use std::test::Fail;

// Whether a request is refused with `OutOfMemory`, and no connection is made.
fn is_refused<S: BitStore>(rt: &impl Abort, table: &mut Tried<S>, call: &Call, pair: Pair) -> bool {
    let Err(fault) = table.call(rt, call, false) else {
        return false;
    };
    assert!(rt; fault == CallFault::OutOfMemory && table.knows_none(pair));
    true
}

// After a failed allocation no connection is made and no link is used.
fn asks_or_has_no_memory<S: BitStore>(rt: &impl Abort, alloc: Global) -> Result<(), Fail> {
    let Ok(mut table) = Tried::<S>::new(alloc) else {
        return Ok(());
    };
    let first = is_refused(rt, &mut table, &Call::AskReceive(INWARD, MAX_ROOM), INWARD);
    let other = is_refused(
        rt,
        &mut table,
        &Call::AskSend(OUTWARD, 8, MAX_ROOM),
        OUTWARD,
    );
    assert!(rt; !first || !other);
    let link = if first { 2 } else { 3 };
    match table.call(rt, &Call::AskReceive(NEXT_INWARD, 1), false) {
        Ok(command) => assert!(rt; command == Some(made(Say::Rts(NEXT_INWARD, link)))),
        Err(fault) => assert!(rt; fault == CallFault::OutOfMemory && !first && !other),
    }
    Ok(())
}

#[test]
fn a_request_is_made_or_has_no_memory(rt: HostRuntime) -> Result<(), Fail> {
    asks_or_has_no_memory::<PlainStore>(&rt, rt.alloc())?;
    asks_or_has_no_memory::<PackedStore>(&rt, rt.alloc())
}

#[test]
fn has_memory_for_requests(rt: HostRuntime) -> Result<(), Fail> {
    const REQUESTS: Example<'static> = (
        "has_memory_for_requests",
        &[
            Step::Makes(Call::AskSend(OUTWARD, 8, MAX_ROOM), Say::Str(OUTWARD, 8)),
            Step::Makes(Call::AskReceive(INWARD, MAX_ROOM), Say::Rts(INWARD, 2)),
        ],
    );
    goes(&rt, rt.alloc(), REQUESTS)
}

// The least room, one between, and the greatest.
const ROOMS: [u32; 3] = [1, MAX_ROOM / 2, MAX_ROOM];

// A table with all local requests that are allowed, each with this room, of both kinds alternately.
fn asks_64_times<S: BitStore>(rt: &impl Abort, alloc: Global, room: u32) -> Result<Tried<S>, Fail> {
    let mut table = Tried::<S>::new(alloc)?;
    for number in 0..MAX_OWN as u32 / 2 {
        let inward = Pair::new(4 * number, 5);
        assert!(rt;
            table
                .call(rt, &Call::AskReceive(inward, room), false)
                .is_ok()
        );
        let outward = Pair::new(4 * number + 3, 2);
        assert!(rt;
            table
                .call(rt, &Call::AskSend(outward, 8, room), false)
                .is_ok()
        );
    }
    Ok(table)
}

// Whether a table has no place for a request.
fn is_full<S: BitStore>(rt: &impl Abort, table: &mut Tried<S>) -> bool {
    let beyond = Call::AskReceive(Pair::new(1000, 5), ROOM);
    table.call(rt, &beyond, false) == Err(CallFault::TableFull)
}

// Tables without connections, and with all that are allowed, of each room, are copied.
fn copies_full_tables<S: BitStore>(rt: &impl Abort, alloc: Global) -> Result<(), Fail> {
    let mut empty = Tried::<S>::new(alloc)?.copy(alloc)?;
    assert!(rt; !is_full(rt, &mut empty));
    for room in ROOMS {
        let mut table = asks_64_times::<S>(rt, alloc, room)?;
        let mut copy = table.copy(alloc)?;
        assert!(rt; is_full(rt, &mut table) && is_full(rt, &mut copy));
    }
    Ok(())
}

#[test]
fn has_memory_for_all_requests(rt: HostRuntime) -> Result<(), Fail> {
    copies_full_tables::<PlainStore>(&rt, rt.alloc())?;
    copies_full_tables::<PackedStore>(&rt, rt.alloc())
}

// The number of bits of the texts that fill a room, and the number of messages allocated for.
const PIECE: u32 = 8192;

const MESSAGES: u16 = 8;

// A receiver that holds as many bits as its room has.
fn fills<S: BitStore>(rt: &impl Abort, alloc: Global, room: u32) -> Result<Tried<S>, Fail> {
    let mut table = Tried::<S>::new(alloc)?;
    let opens = [
        Step::IsReceiver(1, room),
        Step::Makes(
            Call::Allocate(INWARD, MESSAGES, room),
            Say::All(MESSAGES, room),
        ),
    ];
    table.goes(rt, "opens", &opens);
    let piece = room.min(PIECE);
    for _text in 0..room.div_ceil(PIECE) {
        table.goes(
            rt,
            "fills",
            &[Step::Text(LINK, 1, piece as usize, Took::Admitted)],
        );
    }
    Ok(table)
}

// Stored text of each room is copied, with its table and alone.
fn copies_full_rooms<S: BitStore>(rt: &impl Abort, alloc: Global) -> Result<(), Fail> {
    for room in ROOMS {
        let table = fills::<S>(rt, alloc, room)?;
        let copy = table.copy(alloc)?;
        let mut other = Tried::<S>::new(alloc)?;
        assert!(rt; other.puts_back(alloc, &copy, INWARD)?);
        assert!(rt; table.stores(INWARD, room) && copy.stores(INWARD, room));
        assert!(rt; other.stores(INWARD, room));
    }
    Ok(())
}

#[test]
fn has_memory_for_full_rooms(rt: HostRuntime) -> Result<(), Fail> {
    copies_full_rooms::<PlainStore>(&rt, rt.alloc())?;
    copies_full_rooms::<PackedStore>(&rt, rt.alloc())
}

// The number of consecutive connections in a table: more than twice its keys and links.
const IN_TURN: u32 = 1_500;

// Two connections, one at either end, which are requested and closed.
const A_TURN: &[Step<'static>] = &[
    Step::Makes(Call::AskSend(OUTWARD, 8, ROOM), Say::Str(OUTWARD, 8)),
    Step::Makes(Call::AskReceive(INWARD, ROOM), Say::Rts(INWARD, 2)),
    Step::Makes(Call::Close(OUTWARD), Say::Cls(OUTWARD)),
    Step::Makes(Call::Close(INWARD), Say::Cls(INWARD)),
    Step::Hears(Say::Cls(OUTWARD), Heard::Nothing),
    Step::Hears(Say::Cls(INWARD), Heard::Nothing),
];

// Consecutive connections at either end, each with its store.
fn asks_and_closes_in_turn<S: BitStore>(rt: &impl Abort, alloc: Global) -> Result<(), Fail> {
    let mut table = Tried::<S>::new(alloc)?;
    for _turn in 0..IN_TURN {
        table.goes(rt, "a turn", A_TURN);
    }
    table.goes(rt, "behind all", &[Step::HasPair(None)]);
    Ok(())
}

#[test]
fn connections_follow_one_another(rt: HostRuntime) -> Result<(), Fail> {
    asks_and_closes_in_turn::<PlainStore>(&rt, rt.alloc())?;
    asks_and_closes_in_turn::<PackedStore>(&rt, rt.alloc())
}

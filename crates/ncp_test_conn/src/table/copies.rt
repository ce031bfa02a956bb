//! Copies of tables, and connections that are restored.
use super::steps::{Call, Say, Step};
use super::tried::Tried;
use super::{INWARD, LINK, OUTWARD, RECEIVER, ROOM};
use ncp_bits::{BitStore, PackedStore, PlainStore};
use ncp_conn::{Record, Took};
use std::alloc::Global;
use std::process::Abort;
use std::test::Fail;

/// A receiver holds three of the four bytes that it allocated.
const HOLDS: &[Step<'static>] = &[
    Step::IsReceiver(8, ROOM),
    Step::Makes(Call::Allocate(INWARD, 2, 32), Say::All(2, 32)),
    Step::Text(LINK, 8, 24, Took::Admitted),
];

const HELD: Record = Record {
    messages: 1,
    bits: 8,
    stored: 24,
    ..RECEIVER
};

/// They are taken.
const TAKEN: &[Step<'static>] = &[
    Step::Knows(INWARD, HELD),
    Step::Takes(INWARD, 3, 0, 24),
    Step::Knows(INWARD, Record { stored: 0, ..HELD }),
];

fn holding<S: BitStore>(rt: &impl Abort, alloc: Global) -> Result<Tried<S>, Fail> {
    let mut table = Tried::<S>::new(alloc)?;
    table.goes(rt, "holds", HOLDS);
    assert!(rt; table.has_only(INWARD, HELD, ROOM));
    Ok(table)
}

// A copy has the same content as the table, and the two are independent.
fn is_copied<S: BitStore>(rt: &impl Abort, alloc: Global) -> Result<(), Fail> {
    let mut table = holding::<S>(rt, alloc)?;
    let mut copy = table.copy(alloc)?;
    table.goes(rt, "the table", TAKEN);
    assert!(rt; copy.has_only(INWARD, HELD, ROOM));
    copy.goes(rt, "the copy", TAKEN);
    Ok(())
}

// A connection and its stored text are restored into a table without one, and refused if there is
// one.
fn is_put_back<S: BitStore>(rt: &impl Abort, alloc: Global) -> Result<(), Fail> {
    let table = holding::<S>(rt, alloc)?;
    let mut other = Tried::<S>::new(alloc)?;
    assert!(rt; !other.puts_back(alloc, &table, OUTWARD)?);
    assert!(rt; other.puts_back(alloc, &table, INWARD)?);
    assert!(rt; !other.puts_back(alloc, &table, INWARD)?);
    assert!(rt; other.has_only(INWARD, HELD, ROOM));
    other.goes(rt, "put back", TAKEN);
    Ok(())
}

#[test]
fn tables_are_copied(rt: HostRuntime) -> Result<(), Fail> {
    is_copied::<PlainStore>(&rt, rt.alloc())?;
    is_copied::<PackedStore>(&rt, rt.alloc())
}

#[test]
fn connections_are_put_back(rt: HostRuntime) -> Result<(), Fail> {
    is_put_back::<PlainStore>(&rt, rt.alloc())?;
    is_put_back::<PackedStore>(&rt, rt.alloc())
}

//! Allocation failures of a table of connections and of a store. Here each test has ample memory:
//! `bench/refuse.py` runs each test repeatedly, fails one allocation after the other, and reads the
//! line printed for it.
use ncp_bits::{BitStore, PackedStore, PlainStore};
use ncp_conn::{Pair, Table};
use std::alloc::{AllocError, Global};
use std::process::Abort;
use std::test::Fail;

/// The room of a store, in bits.
const ROOM: usize = 1024;

/// A connection, as named at its receiver.
const INWARD: Pair = Pair {
    local: 2,
    remote: 3,
};

/// Whether an allocation for a table failed once.
fn is_refused_a_table<S: BitStore>(alloc: Global) -> Result<bool, AllocError> {
    if Table::<S>::new(alloc).is_ok() {
        return Ok(false);
    }
    Table::<S>::new(alloc)?;
    Ok(true)
}

/// Whether an allocation for a store failed once.
fn is_refused_a_store<S: BitStore>(alloc: Global) -> Result<bool, AllocError> {
    if S::with_room(alloc, ROOM).is_ok() {
        return Ok(false);
    }
    S::with_room(alloc, ROOM)?;
    Ok(true)
}

/// A table with a receiver that has a store, or `None` if an allocation fails.
fn asked_once<S: BitStore>(alloc: Global) -> Option<Table<S>> {
    let mut table = Table::new(alloc).ok()?;
    let _command = table
        .ask_receive(INWARD.local, INWARD.remote, ROOM as u32, false)
        .ok()?;
    Some(table)
}

/// The same table, made again if an allocation fails.
fn asked<S: BitStore>(rt: &impl Abort, alloc: Global) -> Table<S> {
    match asked_once(alloc) {
        Some(table) => table,
        None => asked_once(alloc).expect(rt, "refused twice"),
    }
}

/// Whether an allocation for a copy of a table failed once.
fn is_refused_a_copy<S: BitStore>(rt: &impl Abort, alloc: Global) -> bool {
    let table = asked::<S>(rt, alloc);
    let is_refused = table.copy(alloc).is_err();
    assert!(rt; !is_refused || table.copy(alloc).is_ok());
    is_refused
}

/// Whether an allocation for a copy of a connection's stored text failed once.
fn is_refused_what_is_stored<S: BitStore>(rt: &impl Abort, alloc: Global) -> bool {
    let table = asked::<S>(rt, alloc);
    let is_refused = table.stored(alloc, INWARD).is_err();
    assert!(rt; !is_refused || matches!(table.stored(alloc, INWARD), Ok(Some(_))));
    is_refused
}

#[test]
fn table_copy(rt: HostRuntime) -> Result<(), Fail> {
    let plain = is_refused_a_copy::<PlainStore>(&rt, rt.alloc());
    let packed = is_refused_a_copy::<PackedStore>(&rt, rt.alloc());
    if plain || packed {
        println!(rt; "refused: AllocError, no table")?;
    }
    Ok(())
}

#[test]
fn table_stored(rt: HostRuntime) -> Result<(), Fail> {
    let plain = is_refused_what_is_stored::<PlainStore>(&rt, rt.alloc());
    let packed = is_refused_what_is_stored::<PackedStore>(&rt, rt.alloc());
    if plain || packed {
        println!(rt; "refused: AllocError, no store")?;
    }
    Ok(())
}

#[test]
fn table_new(rt: HostRuntime) -> Result<(), Fail> {
    let plain = is_refused_a_table::<PlainStore>(rt.alloc())?;
    let packed = is_refused_a_table::<PackedStore>(rt.alloc())?;
    if plain || packed {
        println!(rt; "refused: AllocError, no table")?;
    }
    Ok(())
}

#[test]
fn with_room(rt: HostRuntime) -> Result<(), Fail> {
    let plain = is_refused_a_store::<PlainStore>(rt.alloc())?;
    let packed = is_refused_a_store::<PackedStore>(rt.alloc())?;
    if plain || packed {
        println!(rt; "refused: AllocError, no store")?;
    }
    Ok(())
}

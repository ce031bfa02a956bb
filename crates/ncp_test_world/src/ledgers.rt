//! The ledger of a connection, which only the pair at the sender's side identifies.
use crate::events::{RECEIVER, SENDER, texts};
use crate::tried::Tried;
use ncp_bits::{BitStore, PackedStore, PlainStore};
use ncp_world::{Amount, Ledger, Side};
use std::alloc::Global;
use std::process::Abort;
use std::test::Fail;

const NONE: Amount = Amount {
    messages: 0,
    bits: 0,
};

/// The rest of an allocation of two messages and 16 bits after a text of 16 bits.
const LEFT: Amount = Amount {
    messages: 1,
    bits: 0,
};

const LEDGER: Ledger = Ledger {
    outstanding: LEFT,
    counters: LEFT,
    all: NONE,
    text: NONE,
    ret: NONE,
};

fn is_kept<S: BitStore>(rt: &impl Abort, alloc: Global) -> Result<(), Fail> {
    let tried: Tried<S> = Tried::run(alloc, &texts(rt, alloc, b"ab", 1)?)?;
    assert!(rt;
        tried.ledger(Side::A, SENDER) == Some(LEDGER)
            && tried.ledger(Side::B, SENDER).is_none()
            && tried.ledger(Side::B, RECEIVER).is_none()
    );
    Ok(())
}

#[test]
fn ledgers_over_either_store(rt: HostRuntime) -> Result<(), Fail> {
    is_kept::<PlainStore>(&rt, rt.alloc())?;
    is_kept::<PackedStore>(&rt, rt.alloc())
}

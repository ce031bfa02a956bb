//! Allocation failures of a host with its transcript and of a message. Here each test has ample
//! memory: `bench/refuse.py` runs each test repeatedly, fails one allocation after the other, and
//! reads the line printed for it. The last tests have the least of a size, some between, and the
//! greatest.
use crate::known::{ME, PEER, bits_of};
use ncp_bits::{BitStore, Bits, MAX_BITS, PackedStore, PlainStore};
use ncp_host::HostFault;
use ncp_transcript::{Alone, Message};
use std::alloc::Global;
use std::process::Abort;
use std::test::Fail;

/// Whether an allocation for a host with its transcript failed once.
fn is_refused_a_host<S: BitStore>(alloc: Global) -> Result<bool, HostFault> {
    if Alone::<S>::new(alloc, ME, &[PEER]).is_ok() {
        return Ok(false);
    }
    Alone::<S>::new(alloc, ME, &[PEER])?;
    Ok(true)
}

#[test]
fn alone_new(rt: HostRuntime) -> Result<(), Fail> {
    let plain = is_refused_a_host::<PlainStore>(rt.alloc())?;
    let packed = is_refused_a_host::<PackedStore>(rt.alloc())?;
    if plain || packed {
        println!(rt; "refused: OutOfMemory, no host and no notes")?;
    }
    Ok(())
}

#[test]
fn message_from_bits(rt: HostRuntime) -> Result<(), Fail> {
    let bits = bits_of(&rt, &[0, PEER, 0, 0]);
    if Message::from_bits(rt.alloc(), &bits).is_err() {
        Message::from_bits(rt.alloc(), &bits)?;
        println!(rt; "refused: AllocError, no message")?;
    }
    Ok(())
}

#[test]
fn message_copy(rt: HostRuntime) -> Result<(), Fail> {
    let bits = bits_of(&rt, &[0, PEER, 0, 0]);
    let message = match Message::from_bits(rt.alloc(), &bits) {
        Ok(message) => message,
        Err(_) => Message::from_bits(rt.alloc(), &bits)?,
    };
    if message.copy(rt.alloc()).is_err() {
        assert!(rt; message.copy(rt.alloc())?.to_bits() == bits);
        println!(rt; "refused: AllocError, no copy")?;
    }
    Ok(())
}

/// Hosts with their transcripts are made, with one peer to eight.
fn are_made<S: BitStore>(rt: &impl Abort, alloc: Global) -> Result<(), Fail> {
    const PEERS: [u8; 8] = [2, 3, 4, 5, 6, 7, 8, 9];
    for count in 1..9usize {
        let peers = PEERS.get(..count).expect(rt, "peers");
        let alone = Alone::<S>::new(alloc, ME, peers)?;
        assert!(rt; alone.transcript().is_empty());
    }
    Ok(())
}

#[test]
fn has_memory_for_hosts(rt: HostRuntime) -> Result<(), Fail> {
    are_made::<PlainStore>(&rt, rt.alloc())?;
    are_made::<PackedStore>(&rt, rt.alloc())
}

#[test]
fn has_memory_for_messages(rt: HostRuntime) -> Result<(), Fail> {
    for len in [0, 1, 8, 9, MAX_BITS / 2, MAX_BITS] {
        let bits = Bits::from_bytes(&[0; 1024], len)?;
        let message = Message::from_bits(rt.alloc(), &bits)?;
        assert!(rt; message.to_bits() == bits && message.copy(rt.alloc())?.to_bits() == bits);
    }
    Ok(())
}

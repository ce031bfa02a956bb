//! The subnet alone, through the re-exports of `ncp_world`.
use crate::events::bits_of;
use crate::tried::{A, B};
use ncp_world::{Subnet, SubnetFault};
use std::alloc::Global;
use std::process::Abort;
use std::test::Fail;

/// A message to host B on link 0, as host A sends it and as it arrives from there.
const OUT: &[u8] = &[0, B, 0, 0, 0, 8, 0, 1, 0, 12];

const CAME: &[u8] = &[0, A, 0, 0, 0, 8, 0, 1, 0, 12];

/// Whether `accept` returns these results in turn: for a message that is too short, for one from
/// host B to itself, and for one sent twice.
fn accepts(rt: &impl Abort, subnet: &mut Subnet) -> bool {
    let message = bits_of(rt, OUT);
    subnet.accept(A, &bits_of(rt, &[0])) == Err(SubnetFault::NotRegular)
        && subnet.accept(B, &message) == Err(SubnetFault::NoHost)
        && subnet.accept(A, &message).is_ok()
        && subnet.accept(A, &message) == Err(SubnetFault::Occupied)
}

fn delivers(rt: &impl Abort, alloc: Global) -> Result<(), Fail> {
    let mut subnet = Subnet::new(alloc, A, B)?;
    assert!(rt; accepts(rt, &mut subnet));
    assert!(rt; subnet.deliver(A, B, 0) == Some(bits_of(rt, CAME)) && subnet.delivered(A, B, 0));
    Ok(())
}

#[test]
fn a_message_is_taken_once_and_comes(rt: HostRuntime) -> Result<(), Fail> {
    delivers(&rt, rt.alloc())
}

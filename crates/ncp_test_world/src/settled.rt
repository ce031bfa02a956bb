//! Going on by single events has the same result as settling.
use crate::events::RESET;
use crate::many::reset;
use crate::many_tried::ManyTried;
use crate::refused::{Hosts, is_same_at};
use crate::tried::Tried;
use ncp_bits::{PackedStore, PlainStore};
use std::alloc::Global;
use std::process::Abort;
use std::test::Fail;

/// New hosts, after these calls.
fn called<H: Hosts>(rt: &impl Abort, alloc: Global, calls: &[H::Event]) -> Result<H, Fail> {
    let Ok(mut hosts) = H::of(alloc) else {
        return Err("no hosts".into());
    };
    assert!(rt; hosts.go_on() == Some(false));
    for call in calls {
        assert!(rt; hosts.step(call));
    }
    Ok(hosts)
}

/// Checks that after these calls `events` single events leave the same notes as settling, and that
/// then there is none.
fn go_on_as_they_settle<H: Hosts>(
    rt: &impl Abort,
    alloc: Global,
    calls: &[H::Event],
    events: usize,
) -> Result<(), Fail> {
    let mut one: H = called(rt, alloc, calls)?;
    let mut other: H = called(rt, alloc, calls)?;
    for _ in 0..events {
        assert!(rt; one.go_on() == Some(true));
    }
    assert!(rt; one.go_on() == Some(false) && other.settle());
    let count = calls.len().saturating_add(events);
    assert!(rt; one.transcript().len() == count && other.transcript().len() == count);
    for place in 0..count {
        assert!(rt; is_same_at(alloc, one.transcript(), other.transcript(), place)?);
    }
    Ok(())
}

#[test]
fn single_events_come_up_over_either_store(rt: HostRuntime) -> Result<(), Fail> {
    go_on_as_they_settle::<Tried<PlainStore>>(&rt, rt.alloc(), &[RESET], 6)?;
    go_on_as_they_settle::<Tried<PackedStore>>(&rt, rt.alloc(), &[RESET], 6)
}

#[test]
fn single_events_bring_three_up(rt: HostRuntime) -> Result<(), Fail> {
    let calls = [reset(1, 2), reset(1, 3)];
    go_on_as_they_settle::<ManyTried<PackedStore>>(&rt, rt.alloc(), &calls, 12)
}

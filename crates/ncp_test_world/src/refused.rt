//! Allocation failures of hosts with their subnet. Here each test has ample memory:
//! `bench/refuse.py` runs each test repeatedly, fails one allocation after the other, and reads the
//! line printed for it.
//!
//! Each test does everything twice and compares, since an allocation can fail in only one of the
//! two runs.
mod many;
mod world;

use crate::reading::Reading;
use ncp_host::CallFault;
use ncp_transcript::HostNote;
use std::alloc::{AllocError, Global};
use std::fmt::Debug;
use std::process::Abort;
use std::test::Fail;

/// A note as text, made again if an allocation fails.
fn text_of<T: Debug>(alloc: Global, note: &T) -> Result<String, AllocError> {
    match format!(in alloc; "{note:?}") {
        Ok(text) => Ok(text),
        Err(_) => format!(in alloc; "{note:?}"),
    }
}

/// Whether two notes have the same text.
pub(super) fn is_same<T: Debug>(alloc: Global, one: &T, other: &T) -> Result<bool, AllocError> {
    Ok(text_of(alloc, one)? == text_of(alloc, other)?)
}

/// Whether two lists have notes at index `place` that are the same.
pub(super) fn is_same_at<T: Debug>(
    alloc: Global,
    notes: &[T],
    others: &[T],
    place: usize,
) -> Result<bool, AllocError> {
    match (notes.get(place), others.get(place)) {
        (Some(note), Some(other)) => is_same(alloc, note, other),
        _ => Ok(false),
    }
}

/// Whether a note is of a call refused with `OutOfMemory`.
fn wants_memory(note: &HostNote) -> bool {
    matches!(
        note,
        HostNote::Refused {
            fault: CallFault::OutOfMemory,
            ..
        }
    )
}

/// Two or more hosts with their subnet.
pub(super) trait Hosts: Drop + Sized {
    type Event;

    type Note: Debug;

    type Fault: Drop;

    /// New hosts.
    fn of(alloc: Global) -> Result<Self, Self::Fault>;

    /// The hosts after these events, performed by one call.
    fn after(alloc: Global, events: &[Self::Event]) -> Result<Self, Self::Fault>;

    /// Whether a fault is an allocation failure.
    fn is_of_memory(fault: &Self::Fault) -> bool;

    /// Whether a step returns Ok.
    fn step(&mut self, event: &Self::Event) -> bool;

    /// Whether settling returns Ok.
    fn settle(&mut self) -> bool;

    /// Whether there was a next event; `None` if an allocation failed.
    fn go_on(&mut self) -> Option<bool>;

    fn transcript(&self) -> &[Self::Note];

    /// Whether a note is of a call refused with `OutOfMemory`.
    fn is_wanting(note: &Self::Note) -> bool;

    /// The readings of the hosts.
    fn readings(&self) -> [Option<Reading>; 4];
}

/// New hosts, and whether an allocation failed once.
fn made<H: Hosts>(rt: &impl Abort, alloc: Global) -> Result<(H, bool), Fail> {
    match H::of(alloc) {
        Ok(hosts) => Ok((hosts, false)),
        Err(fault) => {
            assert!(rt; H::is_of_memory(&fault));
            match H::of(alloc) {
                Ok(hosts) => Ok((hosts, true)),
                Err(_) => Err("refused twice".into()),
            }
        }
    }
}

/// Whether an allocation for new hosts failed once.
fn is_made_again<H: Hosts>(rt: &impl Abort, alloc: Global) -> Result<bool, Fail> {
    let (_hosts, refused) = made::<H>(rt, alloc)?;
    Ok(refused)
}

/// Whether a note is of a call refused with `OutOfMemory`.
fn wants_at<H: Hosts>(hosts: &H, place: usize) -> bool {
    match hosts.transcript().get(place) {
        Some(note) => H::is_wanting(note),
        None => false,
    }
}

/// Whether the last note is of a call refused with `OutOfMemory`.
fn wants_at_last<H: Hosts>(hosts: &H) -> bool {
    wants_at(hosts, hosts.transcript().len().saturating_sub(1))
}

/// Performs an event, again after an allocation failure, which left no trace except the note of a
/// refused call. Returns whether there was one.
fn does<H: Hosts>(rt: &impl Abort, hosts: &mut H, event: &H::Event) -> bool {
    let count = hosts.transcript().len();
    let before = hosts.readings();
    let is_answered = hosts.step(event);
    let is_noted = is_answered && wants_at_last(hosts);
    if is_answered && !is_noted {
        return false;
    }
    let noted = if is_noted {
        count.saturating_add(1)
    } else {
        count
    };
    assert!(rt;
        hosts.transcript().len() == noted
            && hosts.readings() == before
            && hosts.step(event)
            && !wants_at_last(hosts)
    );
    true
}

/// Whether the last notes of two lists are the same.
fn end_alike<H: Hosts>(alloc: Global, one: &H, other: &H) -> Result<bool, AllocError> {
    match (one.transcript().last(), other.transcript().last()) {
        (Some(note), Some(other)) => is_same(alloc, note, other),
        _ => Ok(false),
    }
}

/// Performs all events on two sets of hosts, which note the same. Returns whether an allocation
/// failed.
fn step_alike<H: Hosts>(
    rt: &impl Abort,
    alloc: Global,
    one: &mut H,
    other: &mut H,
    events: &[H::Event],
) -> Result<bool, AllocError> {
    let mut refused = false;
    for event in events {
        let first = does(rt, one, event);
        let second = does(rt, other, event);
        refused = refused || first || second;
        assert!(rt; end_alike(alloc, one, other)?);
    }
    assert!(rt; one.readings() == other.readings());
    Ok(refused)
}

/// Performs all events twice. Returns whether an allocation failed.
fn steps<H: Hosts>(rt: &impl Abort, alloc: Global, events: &[H::Event]) -> Result<bool, Fail> {
    let (mut one, _refused) = made::<H>(rt, alloc)?;
    let (mut other, _refused) = made::<H>(rt, alloc)?;
    Ok(step_alike(rt, alloc, &mut one, &mut other, events)?)
}

/// Compares the notes of two runs that noted each event. Returns whether one of them notes a call
/// refused with `OutOfMemory`; up to that note both are the same.
fn notes_refusal<H: Hosts>(
    rt: &impl Abort,
    alloc: Global,
    count: usize,
    one: &H,
    other: &H,
) -> Result<bool, AllocError> {
    assert!(rt; one.transcript().len() == count && other.transcript().len() == count);
    for place in 0..count {
        if wants_at(one, place) || wants_at(other, place) {
            return Ok(true);
        }
        assert!(rt; is_same_at(alloc, one.transcript(), other.transcript(), place)?);
    }
    Ok(false)
}

/// Runs all events twice and compares. Returns whether an allocation failed in one run, or made it
/// note a refused call.
fn runs<H: Hosts>(rt: &impl Abort, alloc: Global, events: &[H::Event]) -> Result<bool, Fail> {
    let one = H::after(alloc, events);
    let other = H::after(alloc, events);
    match (&one, &other) {
        (Ok(one), Ok(other)) => Ok(notes_refusal(rt, alloc, events.len(), one, other)?),
        (Err(_), Err(_)) => Err("refused twice".into()),
        (Err(fault), Ok(_)) | (Ok(_), Err(fault)) => {
            assert!(rt; H::is_of_memory(fault));
            Ok(true)
        }
    }
}

/// Settles after an event, again after an allocation failure, which keeps the events before it.
/// Returns whether there was one.
fn settles_after<H: Hosts>(rt: &impl Abort, hosts: &mut H, event: &H::Event) -> bool {
    let _refused = does(rt, hosts, event);
    let refused = !hosts.settle();
    assert!(rt; !refused || hosts.settle());
    refused
}

/// Checks that both note the same seven notes: of a reset and the events that follow from it.
fn come_up_alike<H: Hosts>(rt: &impl Abort, alloc: Global, one: &H, other: &H) -> Result<(), Fail> {
    let is_noted = notes_refusal(rt, alloc, 7, one, other)?;
    assert!(rt; !is_noted);
    Ok(())
}

/// Settles after a reset twice and compares. Returns whether an allocation failed.
fn settle_alike<H: Hosts>(rt: &impl Abort, alloc: Global, reset: &H::Event) -> Result<bool, Fail> {
    let (mut one, _refused) = made::<H>(rt, alloc)?;
    let (mut other, _refused) = made::<H>(rt, alloc)?;
    let first = settles_after(rt, &mut one, reset);
    let second = settles_after(rt, &mut other, reset);
    come_up_alike(rt, alloc, &one, &other)?;
    Ok(first || second)
}

/// Goes on by one event, again after an allocation failure, which left no trace. Returns whether
/// there was an event, and whether an allocation failed.
fn goes_on<H: Hosts>(rt: &impl Abort, hosts: &mut H) -> (bool, bool) {
    let count = hosts.transcript().len();
    let before = hosts.readings();
    match hosts.go_on() {
        Some(more) => (more, false),
        None => {
            assert!(rt; hosts.transcript().len() == count && hosts.readings() == before);
            (hosts.go_on().expect(rt, "refused twice"), true)
        }
    }
}

/// Goes on after a reset by its six events, after which there is none. Returns whether an
/// allocation failed.
fn goes_on_after<H: Hosts>(rt: &impl Abort, hosts: &mut H, reset: &H::Event) -> bool {
    let mut refused = false;
    let _refused = does(rt, hosts, reset);
    for place in 0..7 {
        let (more, again) = goes_on(rt, hosts);
        assert!(rt; more == (place < 6));
        refused = refused || again;
    }
    refused
}

/// Goes on after a reset twice and compares. Returns whether an allocation failed.
fn go_on_alike<H: Hosts>(rt: &impl Abort, alloc: Global, reset: &H::Event) -> Result<bool, Fail> {
    let (mut one, _refused) = made::<H>(rt, alloc)?;
    let (mut other, _refused) = made::<H>(rt, alloc)?;
    let first = goes_on_after(rt, &mut one, reset);
    let second = goes_on_after(rt, &mut other, reset);
    come_up_alike(rt, alloc, &one, &other)?;
    Ok(first || second)
}

/// Prints the observed outcome if an allocation failed.
fn tell(rt: &HostRuntime, refused: bool, stood: &str) -> Result<(), Fail> {
    if refused {
        println!(rt; "refused: {stood}")?;
    }
    Ok(())
}

//! Two hosts with their subnet.
use super::{Hosts, go_on_alike, is_made_again, runs, settle_alike, steps, tell, wants_memory};
use crate::events::{RESET, texts};
use crate::reading::Reading;
use crate::tried::{A, B, Tried};
use ncp_bits::{BitStore, PackedStore, PlainStore};
use ncp_world::{Event, Note, Side};
use std::alloc::{AllocError, Global};
use std::process::Abort;
use std::test::Fail;

impl<S: BitStore> Hosts for Tried<S> {
    type Event = Event;

    type Note = Note;

    type Fault = AllocError;

    fn of(alloc: Global) -> Result<Self, AllocError> {
        Tried::new(alloc)
    }

    fn after(alloc: Global, events: &[Event]) -> Result<Self, AllocError> {
        Tried::run(alloc, events)
    }

    fn is_of_memory(_fault: &AllocError) -> bool {
        true
    }

    fn step(&mut self, event: &Event) -> bool {
        self.steps(event)
    }

    fn settle(&mut self) -> bool {
        self.settles()
    }

    fn go_on(&mut self) -> Option<bool> {
        self.goes_on()
    }

    fn transcript(&self) -> &[Note] {
        self.notes()
    }

    fn is_wanting(note: &Note) -> bool {
        match note {
            Note::Called { note, .. } => wants_memory(note),
            _ => false,
        }
    }

    fn readings(&self) -> [Option<Reading>; 4] {
        let a = self.reading(Side::A, B);
        let b = self.reading(Side::B, A);
        [Some(a), Some(b), None, None]
    }
}

/// The events that carry a text over a connection, made again if an allocation fails.
fn events(rt: &impl Abort, alloc: Global) -> Result<Vec<Event>, AllocError> {
    match texts(rt, alloc, b"ab", 1) {
        Ok(events) => Ok(events),
        Err(_) => texts(rt, alloc, b"ab", 1),
    }
}

#[test]
fn world_settle(rt: HostRuntime) -> Result<(), Fail> {
    let plain = settle_alike::<Tried<PlainStore>>(&rt, rt.alloc(), &RESET)?;
    let packed = settle_alike::<Tried<PackedStore>>(&rt, rt.alloc(), &RESET)?;
    tell(
        &rt,
        plain || packed,
        "what happened before stands, and the rest may be asked for again",
    )
}

#[test]
fn world_go_on(rt: HostRuntime) -> Result<(), Fail> {
    let plain = go_on_alike::<Tried<PlainStore>>(&rt, rt.alloc(), &RESET)?;
    let packed = go_on_alike::<Tried<PackedStore>>(&rt, rt.alloc(), &RESET)?;
    tell(
        &rt,
        plain || packed,
        "nothing happened, and the same event may be asked for again",
    )
}

#[test]
fn world_new(rt: HostRuntime) -> Result<(), Fail> {
    let plain = is_made_again::<Tried<PlainStore>>(&rt, rt.alloc())?;
    let packed = is_made_again::<Tried<PackedStore>>(&rt, rt.alloc())?;
    tell(&rt, plain || packed, "AllocError, no world")
}

#[test]
fn world_step(rt: HostRuntime) -> Result<(), Fail> {
    let events = events(&rt, rt.alloc())?;
    let plain = steps::<Tried<PlainStore>>(&rt, rt.alloc(), &events)?;
    let packed = steps::<Tried<PackedStore>>(&rt, rt.alloc(), &events)?;
    tell(
        &rt,
        plain || packed,
        "nothing happened but that a call's refusal is noted",
    )
}

#[test]
fn world_run(rt: HostRuntime) -> Result<(), Fail> {
    let events = events(&rt, rt.alloc())?;
    let plain = runs::<Tried<PlainStore>>(&rt, rt.alloc(), &events)?;
    let packed = runs::<Tried<PackedStore>>(&rt, rt.alloc(), &events)?;
    tell(
        &rt,
        plain || packed,
        "AllocError, or a call's refusal is noted",
    )
}

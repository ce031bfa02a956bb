//! Runs the steps of an example on a table.
use super::steps::{Call, Say, Step, err, heard, made};
use super::{INWARD, LINK, OUTWARD};
use ncp_bits::{BitStore, Bits};
use ncp_conn::{CallFault, Heard, Pair, Record, Table};
use ncp_wire::Command;
use std::alloc::{AllocError, Global};
use std::process::Abort;

/// A table under test. The functions here have no contracts: the results of calls are found by
/// running them, so the prover need not follow a table through an example, but only check that each
/// step is safe and terminates.
#[derive(Drop)]
pub(super) struct Tried<S: BitStore> {
    table: Table<S>,
}

/// `len` bits at offset `at` of a text in which every third bit is a one, starting with the first.
fn text(rt: &impl Abort, at: usize, len: usize) -> Bits {
    let mut bits = Bits::new();
    for place in 0..len {
        let bit = u64::from((at % 3 + place % 3) % 3 == 0);
        bits.push_number(bit, 1).expect(rt, "room");
    }
    bits
}

impl<S: BitStore> Tried<S> {
    pub(super) fn new(alloc: Global) -> Result<Self, AllocError> {
        Ok(Tried {
            table: Table::new(alloc)?,
        })
    }

    /// Runs all steps.
    pub(super) fn goes(&mut self, rt: &impl Abort, name: &str, steps: &[Step<'_>]) {
        for (place, step) in steps.iter().enumerate() {
            assert!(rt; self.does(rt, step), "{name} at step {place}");
        }
    }

    /// The result of a call: the command that it queues, or its refusal. `full`: no command can be
    /// queued.
    pub(super) fn call(
        &mut self,
        rt: &impl Abort,
        call: &Call,
        full: bool,
    ) -> Result<Option<Command>, CallFault> {
        match call {
            Call::AskSend(pair, size, room) => {
                let (local, remote) = (pair.local, pair.remote);
                Ok(Some(self.table.ask_send(local, remote, *size, *room, full)?))
            }
            Call::AskReceive(pair, room) => {
                let (local, remote) = (pair.local, pair.remote);
                Ok(Some(self.table.ask_receive(local, remote, *room, full)?))
            }
            Call::Close(pair) => self.table.close(*pair, full),
            _ => self.call_open(rt, call, full),
        }
    }

    /// The same for the calls of an open connection.
    fn call_open(
        &mut self,
        rt: &impl Abort,
        call: &Call,
        full: bool,
    ) -> Result<Option<Command>, CallFault> {
        match call {
            Call::Give(pair, len) => {
                self.table.give(*pair, &text(rt, 0, *len))?;
                Ok(None)
            }
            Call::Take(pair, bytes) => {
                let (_, command) = self.table.take(*pair, *bytes)?;
                Ok(command)
            }
            Call::Allocate(pair, messages, bits) => {
                Ok(Some(self.table.allocate(*pair, *messages, *bits, full)?))
            }
            Call::CallBack(pair, fm, fb) => {
                Ok(Some(self.table.call_back(*pair, *fm, *fb, full)?))
            }
            Call::Interrupt(pair) => Ok(Some(self.table.interrupt(*pair, full)?)),
            Call::AskSend(..) | Call::AskReceive(..) | Call::Close(_) => Err(CallFault::NoEntry),
        }
    }

    /// A copy of the table.
    pub(super) fn copy(&self, alloc: Global) -> Result<Self, AllocError> {
        Ok(Tried {
            table: self.table.copy(alloc)?,
        })
    }

    /// Whether a connection of another table is restored into this one, with a copy of its stored
    /// text.
    pub(super) fn puts_back(
        &mut self,
        alloc: Global,
        other: &Self,
        pair: Pair,
    ) -> Result<bool, AllocError> {
        let Some(record) = other.table.record(pair) else {
            return Ok(false);
        };
        let store = other.table.stored(alloc, pair)?;
        Ok(self.table.restore(pair, &record, store).is_ok())
    }

    /// Whether this connection, with this room, is the only one, and is found by its index and by
    /// its link.
    pub(super) fn has_only(&self, pair: Pair, known: Record, room: u32) -> bool {
        let is_first = match self.table.connection_at(0) {
            Some((found, record)) => found == pair && record == known,
            None => false,
        };
        is_first
            && self.table.connection_at(1).is_none()
            && self.table.room(pair) == Some(room)
            && self.table.pair_on(known.end, known.link) == Some(pair)
            && self.table.pair_on(known.end, 0).is_none()
    }

    /// Whether a connection has this room, and its stored bits fill it.
    pub(super) fn stores(&self, pair: Pair, room: u32) -> bool {
        match self.table.record(pair) {
            Some(record) => record.stored == room && self.table.room(pair) == Some(room),
            None => false,
        }
    }

    /// Whether there is no such connection.
    pub(super) fn knows_none(&self, pair: Pair) -> bool {
        self.table.record(pair).is_none()
    }

    fn does(&mut self, rt: &impl Abort, step: &Step<'_>) -> bool {
        match step {
            Step::IsSender(size, room) => self.is_sender(rt, *size, *room),
            Step::IsReceiver(size, room) => self.is_receiver(rt, *size, *room),
            Step::Makes(call, want) => self.call(rt, call, false) == Ok(Some(made(*want))),
            Step::Does(call) => self.call(rt, call, false) == Ok(None),
            Step::Refuses(call, fault) => self.call(rt, call, false) == Err(*fault),
            Step::RefusesFull(call, fault) => self.call(rt, call, true) == Err(*fault),
            Step::Takes(pair, bytes, at, len) => self.takes(
                *pair,
                *bytes,
                &text(rt, *at, *len),
                None,
            ),
            Step::TakesLast(pair, bytes, at, len, command) => {
                self.takes(*pair, *bytes, &text(rt, *at, *len), Some(made(*command)))
            }
            _ => self.hears_or_tells(rt, step),
        }
    }

    fn hears_or_tells(&mut self, rt: &impl Abort, step: &Step<'_>) -> bool {
        match step {
            Step::Hears(say, want) => self.table.hear(&heard(*say)) == *want,
            Step::Replies(say, want) => self.table.hear(&heard(*say)) == Heard::Reply(made(*want)),
            Step::Errs(say, code, front) => self.table.hear(&heard(*say)) == err(*code, front),
            Step::Purges => {
                self.table.purge();
                true
            }
            Step::Knows(pair, want) => self.table.record(*pair) == Some(*want),
            Step::KnowsNone(pair) => self.knows_none(*pair),
            Step::HasPair(want) => self.table.pairs().next() == *want,
            _ => self.carries(rt, step),
        }
    }

    fn carries(&mut self, rt: &impl Abort, step: &Step<'_>) -> bool {
        match step {
            Step::Text(link, size, len, want) => {
                self.table.text(*link, *size, text(rt, 0, *len).whole()) == *want
            }
            Step::Cuts(link, size, at, len) => match self.table.cut(*link) {
                Some((out_size, out)) => out_size == *size && out == text(rt, *at, *len),
                None => false,
            },
            Step::CutsNone(link) => self.table.cut(*link).is_none(),
            Step::NextCut(from, want) => {
                self.table.next_cut(*from) == *want
                    && self.table.may_cut(*from) == (*want == Some(*from))
            }
            Step::Answered(link, want) => self.is_answered(*link, *want),
            _ => false,
        }
    }

    fn takes(&mut self, pair: Pair, bytes: u32, want: &Bits, made: Option<Command>) -> bool {
        match self.table.take(pair, bytes) {
            Ok((taken, command)) => taken == *want && command == made,
            Err(_) => false,
        }
    }

    fn is_answered(&mut self, link: u8, want: Option<Say>) -> bool {
        match (self.table.answered(link), want) {
            (Some(command), Some(say)) => command == made(say),
            (None, None) => true,
            _ => false,
        }
    }

    fn is_sender(&mut self, rt: &impl Abort, size: u8, room: u32) -> bool {
        self.call(rt, &Call::AskSend(OUTWARD, size, room), false)
            .is_ok()
            && self.table.hear(&heard(Say::Rts(OUTWARD, LINK))) == Heard::Nothing
    }

    fn is_receiver(&mut self, rt: &impl Abort, size: u8, room: u32) -> bool {
        self.call(rt, &Call::AskReceive(INWARD, room), false)
            .is_ok()
            && self.table.hear(&heard(Say::Str(INWARD, size))) == Heard::Nothing
    }
}

//! `Sides`: two hosts and the subnet between them.
ghost use Rattle.std.specs.Prelude.{◌≡◌, ◌≢◌, [], ◌∷◌, IfOk, OnErr};
ghost use Rattle.ncp_host.specs.Host.{new_host};
ghost use Rattle.ncp_transcript_two.specs.Between.{new_hosts, other, side_number, host_of, hosts_after_note};
ghost use Rattle.ncp_transcript_two.specs.Happening.{IsCalled, note_of_out, note_of_delivery, note_of_loss, note_of_death, note_of_answer};

use crate::hosts::AnyHosts;
use crate::keeping::first_kept;
use crate::lent::Lent;
use ncp_bits::BitStore;
use ncp_host::Host;
use ncp_step::{answers, calls, comes, new_host, sends};
use ncp_subnet::Subnet;
use ncp_transcript::{Call, HostNote};
use ncp_transcript_two::{Event, Move, Note, Side};
use std::alloc::{AllocError, Global};
use std::marker::Model;

/// Two hosts, each with the other as its peer, and the subnet between them. They are named by their
/// sides.
#[derive(Drop)]
pub struct Sides<S: BitStore> {
    number_a: u8,
    number_b: u8,
    a: Host<S>,
    b: Host<S>,
    subnet: Subnet,
}

impl<S: BitStore> Model for Sides<S> {
    ghost use Rattle.std.specs.Coded.{codes};
    ghost use Rattle.ncp_slot.specs.Slots.{coded_slots};
    ghost use Rattle.ncp_peer.specs.Codes.{coded_ends};
    ghost use Rattle.ncp_subnet.specs.Codes.{coded_in_transit};
    ghost use Rattle.ncp_transcript_two.specs.Between.{Hosts as Seen};

    ghost Value = { Seen };

    ghost coded = { Prim.hlevel (codes, coded_ends, coded_slots, coded_in_transit) };

    ghost view = { λ w. record { number_a = w.number_a; number_b = w.number_b; a = w.a; b = w.b; subnet = w.subnet } };
}

/// The other side.
pub(crate) fn other(side: Side) -> Side
    ensures { result ≡ other side }
{
    match side {
        Side::A => Side::B,
        Side::B => Side::A,
    }
}

// Creates a host whose one peer has another number.
fn new_host_of<S: BitStore>(alloc: Global, number: u8, peer: u8) -> Result<Host<S>, AllocError>
    requires { number ≢ peer }
    ensures { IfOk result (λ host. host ≡ new_host number (peer ∷ [])) }
{
    new_host(alloc, number, &[peer])
}

impl<S: BitStore> Sides<S> {
    pub(crate) fn new(alloc: Global, a: u8, b: u8) -> Result<Sides<S>, AllocError>
        requires { a ≢ b }
        ensures { IfOk result (λ hosts. hosts ≡ new_hosts a b) }
    {
        Ok(Sides {
            number_a: a,
            number_b: b,
            a: new_host_of(alloc, a, b)?,
            b: new_host_of(alloc, b, a)?,
            subnet: Subnet::new(alloc, a, b)?,
        })
    }

    /// The host of a side.
    pub(crate) fn host(&self, side: Side) -> &Host<S>
        ensures { result.now ≡ host_of side self.now }
    {
        match side {
            Side::A => &self.a,
            Side::B => &self.b,
        }
    }

    /// The hosts and the subnet, borrowed.
    pub(crate) fn lent(&self) -> Lent<'_, S>
        ensures { result ≡ self.now }
    {
        Lent {
            number_a: self.number_a,
            number_b: self.number_b,
            a: &self.a,
            b: &self.b,
            subnet: &self.subnet,
        }
    }

    /// The number of the host of a side.
    pub(crate) fn number(&self, side: Side) -> u8
        ensures { result ≡ side_number side self.now }
    {
        match side {
            Side::A => self.number_a,
            Side::B => self.number_b,
        }
    }

    /// Performs a user's call on a host.
    pub(crate) fn call(
        &mut self,
        alloc: Global,
        side: Side,
        call: &Call,
    ) -> Result<Note, AllocError>
        ensures note { IfOk result (λ note. IsCalled side call.now note self.old) }
        ensures hosts { IfOk result (λ note. self.new ≡ hosts_after_note note self.old) }
        ensures err { OnErr result (self.new ≡ self.old) }
    {
        let note = match side {
            Side::A => calls(alloc, &mut self.a, call)?,
            Side::B => calls(alloc, &mut self.b, call)?,
        };
        Ok(Note::Called { side, note })
    }

    /// Asks a host for its next message, which the subnet takes.
    pub(crate) fn out(&mut self, alloc: Global, side: Side) -> Result<Note, AllocError>
        ensures note { IfOk result (λ note. note ≡ note_of_out side self.old) }
        ensures hosts { IfOk result (λ note. self.new ≡ hosts_after_note note self.old) }
        ensures err { OnErr result (self.new ≡ self.old) }
    {
        let from = self.number(side);
        let note = match side {
            Side::A => sends(alloc, &mut self.subnet, from, &mut self.a)?,
            Side::B => sends(alloc, &mut self.subnet, from, &mut self.b)?,
        };
        Ok(Note::Out { side, note })
    }

    /// The subnet delivers a message to its destination.
    pub(crate) fn deliver(
        &mut self,
        alloc: Global,
        side: Side,
        link: u8,
    ) -> Result<Note, AllocError>
        ensures note { IfOk result (λ note. note ≡ note_of_delivery side link self.old) }
        ensures hosts { IfOk result (λ note. self.new ≡ hosts_after_note note self.old) }
        ensures err { OnErr result (self.new ≡ self.old) }
    {
        let from = self.number(side);
        let to = self.number(other(side));
        let told = match side {
            Side::A => comes(alloc, &mut self.subnet, from, to, link, &mut self.b)?,
            Side::B => comes(alloc, &mut self.subnet, from, to, link, &mut self.a)?,
        };
        match told {
            Some(note) => Ok(Note::Came { side, link, note }),
            None => Ok(Note::Nothing {
                side,
                link,
                wanted: Move::Deliver,
            }),
        }
    }

    /// The subnet loses a message.
    pub(crate) fn lose(&mut self, side: Side, link: u8) -> Note
        ensures note { result ≡ note_of_loss side link self.old }
        ensures hosts { self.new ≡ hosts_after_note result self.old }
    {
        let from = self.number(side);
        let to = self.number(other(side));
        if self.subnet.lose(from, to, link) {
            Note::Lost { side, link }
        } else {
            Note::Nothing {
                side,
                link,
                wanted: Move::Lose,
            }
        }
    }

    /// The subnet finds the destination of a message dead.
    pub(crate) fn dead(&mut self, side: Side, link: u8) -> Note
        ensures note { result ≡ note_of_death side link self.old }
        ensures hosts { self.new ≡ hosts_after_note result self.old }
    {
        let from = self.number(side);
        let to = self.number(other(side));
        if self.subnet.dead(from, to, link) {
            Note::FoundDead { side, link }
        } else {
            Note::Nothing {
                side,
                link,
                wanted: Move::Dead,
            }
        }
    }

    /// The subnet answers the sender of a message.
    pub(crate) fn answer(&mut self, alloc: Global, side: Side, link: u8) -> Result<Note, AllocError>
        ensures note { IfOk result (λ note. note ≡ note_of_answer side link self.old) }
        ensures hosts { IfOk result (λ note. self.new ≡ hosts_after_note note self.old) }
        ensures err { OnErr result (self.new ≡ self.old) }
    {
        let from = self.number(side);
        let to = self.number(other(side));
        let told = match side {
            Side::A => answers(alloc, &mut self.subnet, from, to, link, &mut self.a)?,
            Side::B => answers(alloc, &mut self.subnet, from, to, link, &mut self.b)?,
        };
        match told {
            Some(note) => Ok(Note::Answered { side, link, note }),
            None => Ok(Note::Nothing {
                side,
                link,
                wanted: Move::Answer,
            }),
        }
    }
}

impl<S: BitStore> AnyHosts for Sides<S> {
    ghost use Rattle.ncp_world.specs.TwoKind.{two_kind};
    ghost use Rattle.ncp_world.specs.TwoLaws.{two_unchanged, two_grow, two_out_says, two_deliver_says, two_answer_says, two_out_goes, two_deliver_goes, two_answer_goes, two_wake_goes, two_rest, two_settle};
    ghost use Rattle.ncp_proof_quiescence.proofs.Going.{on-begun, on-further};

    type Name = Side;

    type Event = Event;

    type Note = Note;

    ghost kind = { two_kind };

    fn happen(&mut self, alloc: Global, event: &Event) -> Result<Note, AllocError> {
        match event {
            Event::Call { side, call } => self.call(alloc, *side, call),
            Event::Out { side } => self.out(alloc, *side),
            Event::Deliver { side, link } => self.deliver(alloc, *side, *link),
            Event::Lose { side, link } => Ok(self.lose(*side, *link)),
            Event::Dead { side, link } => Ok(self.dead(*side, *link)),
            Event::Answer { side, link } => self.answer(alloc, *side, *link),
        }
    }

    fn reports_nothing(note: &Note) -> bool {
        matches!(
            note,
            Note::Nothing { .. }
                | Note::Out {
                    note: HostNote::Nothing,
                    ..
                }
        )
    }

    fn count(&self) -> usize {
        2
    }

    fn name_at(&self, place: usize) -> Side {
        if place == 0 { Side::A } else { Side::B }
    }

    fn first_kept(&self, from: Side, to: Side) -> Option<u8> {
        first_kept(self.host(from), self.number(to))
    }

    fn out(from: Side) -> Event {
        Event::Out { side: from }
    }

    fn deliver(from: Side, _to: Side, link: u8) -> Event {
        Event::Deliver { side: from, link }
    }

    fn answer(from: Side, _to: Side, link: u8) -> Event {
        Event::Answer { side: from, link }
    }

    fn wake(&self, from: Side, to: Side) -> Event {
        Event::Call {
            side: from,
            call: Call::Wake {
                peer: self.number(to),
            },
        }
    }

    ghost leaves_all = { two_unchanged };

    ghost grows = { two_grow };

    ghost out_says = { two_out_says };

    ghost deliver_says = { two_deliver_says };

    ghost answer_says = { two_answer_says };

    ghost out_goes = { two_out_goes };

    ghost deliver_goes = { two_deliver_goes };

    ghost answer_goes = { two_answer_goes };

    ghost wake_goes = { two_wake_goes };

    ghost rests = { two_rest };

    ghost settles = { two_settle };

    ghost goes_by_none = { on-begun };

    ghost goes_further = { on-further };
}

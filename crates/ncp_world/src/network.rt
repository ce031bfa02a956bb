//! `Network`: two to eight hosts and the subnet between them.
ghost use Rattle.std.specs.Prelude.{◌≡◌, ◌<◌, ◌==◌, true, false, map, length, Some, IfOk, OnErr};
ghost use Rattle.std.specs.Box.{boxed_slice_items};
ghost use Rattle.std.specs.List.{position};
ghost use Rattle.std.specs.Option.{option_copied};
ghost use Rattle.ncp_subnet.specs.declared.transit.Transit.{Transit};
ghost use Rattle.ncp_subnet.specs.Messages.{arriving, answer_about};
ghost use Rattle.ncp_subnet.specs.Subnet.{transit_at};
ghost use Rattle.ncp_host.specs.Host.{is_one_of, are_distinct, new_host};
ghost use Rattle.ncp_transcript.specs.Noting.{CallNoted, note_of_output};
ghost use Rattle.ncp_transcript.specs.After.{after_note};
ghost use Rattle.ncp_transcript_two.specs.Seen.{CallFits};
ghost use Rattle.ncp_transcript_two.specs.Between.{subnet_after_out};
ghost use Rattle.ncp_step.specs.Noted.{note_if_any, put_noted};
ghost use Rattle.ncp_transcript_many.specs.declared.many_event.ManyEvent.TheVariants as events;
ghost use Rattle.ncp_transcript_many.specs.Numbered.{thing_in, at_thing};
ghost use Rattle.ncp_transcript_many.specs.Network.{is_there, are_hosts, others, new_network, between, host_or_none, after_many};
ghost use Rattle.ncp_transcript_many.specs.ManyHappening.{are_two, are_there, is_giving, ManyNoted};
ghost use Rattle.ncp_world.specs.Found.{IsAt, at_noted};
ghost use Rattle.ncp_world.specs.ManyLedgers.{many_ledger_read};

use crate::hosts::AnyHosts;
use crate::keeping::first_kept;
use crate::lent::Lent;
use ncp_bits::BitStore;
use ncp_host::{Host, Pair};
use ncp_step::{answers, calls, comes, new_host, sends};
use ncp_subnet::Subnet;
use ncp_transcript::{Call, HostNote};
use ncp_transcript_many::{MAX_HOSTS, ManyEvent, ManyNote};
use ncp_transcript_two::{Ledger, Side};
use std::alloc::{AllocError, Global};
use std::boxed::BoxedSlice;
use std::marker::Model;

/// A host and its number.
#[derive(Drop)]
pub(crate) struct Member<S: BitStore> {
    number: u8,
    host: Host<S>,
}

impl<S: BitStore> Model for Member<S> {
    ghost use Rattle.std.specs.Prelude.{ℕ};
    ghost use Rattle.std.specs.Coded.{codes};
    ghost use Rattle.ncp_slot.specs.Slots.{coded_slots};
    ghost use Rattle.ncp_peer.specs.Codes.{coded_ends};
    ghost use Rattle.ncp_host.specs.Host.{Host as Seen};

    ghost Value = { ℕ × Seen };

    ghost coded = { Prim.hlevel (codes, coded_ends, coded_slots) };

    ghost view = { λ member. (member.number, member.host) };
}

/// Two to eight hosts, each with the others as its peers, and the subnet between them. They are
/// named by their numbers.
///
/// [`Network::new`] allocates the room for the hosts, which does not grow.
#[derive(Drop)]
pub struct Network<S: BitStore> {
    members: BoxedSlice<Member<S>, Global>,
    subnet: Subnet,
}

impl<S: BitStore> Model for Network<S> {
    ghost use Rattle.std.specs.Coded.{codes};
    ghost use Rattle.ncp_slot.specs.Slots.{coded_slots};
    ghost use Rattle.ncp_peer.specs.Codes.{coded_ends};
    ghost use Rattle.ncp_subnet.specs.Codes.{coded_in_transit};
    ghost use Rattle.std.specs.Box.{boxed_slice_items};
    ghost use Rattle.ncp_transcript_many.specs.Network.{Network as Seen};

    ghost Value = { Seen };

    ghost coded = { Prim.hlevel (codes, coded_ends, coded_slots, coded_in_transit) };

    ghost view = { λ m. record { hosts = boxed_slice_items m.members; subnet = m.subnet } };
}

// Whether the numbers are distinct.
fn are_distinct(numbers: &[u8]) -> bool
    ensures { result ≡ are_distinct numbers.now }
{
    for place in 0..numbers.len() {
        if numbers[place + 1..].contains(&numbers[place]) {
            return false;
        }
    }
    true
}

/// Whether there can be hosts with these numbers: two to [`crate::MAX_HOSTS`] distinct ones.
pub fn are_hosts(numbers: &[u8]) -> bool
    ensures { result ≡ are_hosts numbers.now }
{
    2 <= numbers.len() && numbers.len() <= MAX_HOSTS && are_distinct(numbers)
}

// The other numbers.
fn others(alloc: Global, number: u8, numbers: &[u8]) -> Result<Vec<u8>, AllocError>
    ensures { IfOk result (λ rest. rest.items ≡ others number numbers.now) }
{
    numbers
        .iter()
        .copied()
        .filter(|other| *other != number)
        .collect(alloc)
}

impl<S: BitStore> Member<S> {
    // Creates a host, one of these, with the others as its peers.
    fn new(alloc: Global, number: u8, hosts: &[u8]) -> Result<Member<S>, AllocError>
        requires good { are_hosts hosts.now ≡ true }
        requires there { is_one_of number hosts.now ≡ true }
        ensures { IfOk result (λ member. member ≡ (number, new_host number (others number hosts.now))) }
    {
        let peers = others(alloc, number, hosts)?;
        let host = new_host(alloc, number, &peers)?;
        Ok(Member { number, host })
    }
}

// Creates hosts with these numbers.
fn new_members<S: BitStore>(
    alloc: Global,
    hosts: &[u8],
) -> Result<BoxedSlice<Member<S>, Global>, AllocError>
    requires { are_hosts hosts.now ≡ true }
    ensures { IfOk result (λ members. boxed_slice_items members ≡ map (λ n. (n, new_host n (others n hosts.now))) hosts.now) }
{
    let mut members = Vec::with_capacity(alloc, hosts.len())?;
    for number in hosts {
        members.push_reserved(Member::new(alloc, *number, hosts)?);
    }
    Ok(members.into_boxed_slice())
}

// The first index of a number.
fn first_index<S: BitStore>(members: &[Member<S>], number: u8) -> Option<usize>
    ensures { result ≡ position (λ x. x.0 == number) members.now }
{
    members.iter().position(|member| member.number == number)
}

// Whether there is a host with a number.
fn is_there<S: BitStore>(members: &[Member<S>], number: u8) -> bool
    ensures { result ≡ is_one_of number (map (λ x. x.0) members.now) }
{
    first_index(members, number).is_some()
}

// The index of an existing host, by its number.
fn position_of<S: BitStore>(members: &[Member<S>], number: u8) -> usize
    requires { is_one_of number (map (λ x. x.0) members.now) ≡ true }
    ensures index { IsAt members.now number result }
    ensures inside { result < length members.now }
{
    first_index(members, number).unwrap()
}

// Performs a user's call on a host.
fn called<S: BitStore>(
    alloc: Global,
    members: &mut [Member<S>],
    number: u8,
    call: &Call,
) -> Result<HostNote, AllocError>
    requires { is_one_of number (map (λ x. x.0) members.old) ≡ true }
    ensures note { IfOk result (λ note. CallNoted call.now note (host_or_none number (thing_in members.old number))) }
    ensures fits { CallFits call.now }
    ensures hosts { IfOk result (λ note. members.new ≡ at_thing number (after_note note) members.old) }
    ensures err { OnErr result (members.new ≡ members.old) }
{
    let place = position_of(members, number);
    let member = &mut members[place];
    calls(alloc, &mut member.host, call)
}

// Asks a host for its next message, which the subnet takes.
fn sent<S: BitStore>(
    alloc: Global,
    subnet: &mut Subnet,
    members: &mut [Member<S>],
    number: u8,
) -> Result<HostNote, AllocError>
    requires { is_one_of number (map (λ x. x.0) members.old) ≡ true }
    ensures note { IfOk result (λ note. note ≡ note_of_output (host_or_none number (thing_in members.old number))) }
    ensures hosts { IfOk result (λ note. members.new ≡ at_thing number (after_note note) members.old) }
    ensures subnet { IfOk result (λ note. subnet.new ≡ subnet_after_out number note subnet.old) }
    ensures err { OnErr result (members.new ≡ members.old) }
    ensures kept { OnErr result (subnet.new ≡ subnet.old) }
{
    let place = position_of(members, number);
    let member = &mut members[place];
    sends(alloc, subnet, number, &mut member.host)
}

// The subnet delivers a message to its destination.
fn came<S: BitStore>(
    alloc: Global,
    subnet: &mut Subnet,
    members: &mut [Member<S>],
    from: u8,
    to: u8,
    link: u8,
) -> Result<Option<HostNote>, AllocError>
    requires { is_one_of to (map (λ x. x.0) members.old) ≡ true }
    ensures note { IfOk result (λ note. note ≡ note_if_any (arriving from (transit_at subnet.old from to link)) (host_or_none to (thing_in members.old to))) }
    ensures hosts { IfOk result (λ note. members.new ≡ at_noted to note members.old) }
    ensures subnet { IfOk result (λ note. subnet.new ≡ put_noted note from to link Transit.Delivered subnet.old) }
    ensures err { OnErr result (members.new ≡ members.old) }
    ensures kept { OnErr result (subnet.new ≡ subnet.old) }
{
    let place = position_of(members, to);
    let member = &mut members[place];
    comes(alloc, subnet, from, to, link, &mut member.host)
}

// The subnet answers the sender of a message.
fn answered<S: BitStore>(
    alloc: Global,
    subnet: &mut Subnet,
    members: &mut [Member<S>],
    from: u8,
    to: u8,
    link: u8,
) -> Result<Option<HostNote>, AllocError>
    requires { is_one_of from (map (λ x. x.0) members.old) ≡ true }
    ensures note { IfOk result (λ note. note ≡ note_if_any (answer_about to link (transit_at subnet.old from to link)) (host_or_none from (thing_in members.old from))) }
    ensures hosts { IfOk result (λ note. members.new ≡ at_noted from note members.old) }
    ensures subnet { IfOk result (λ note. subnet.new ≡ put_noted note from to link Transit.Free subnet.old) }
    ensures err { OnErr result (members.new ≡ members.old) }
    ensures kept { OnErr result (subnet.new ≡ subnet.old) }
{
    let place = position_of(members, from);
    let member = &mut members[place];
    answers(alloc, subnet, from, to, link, &mut member.host)
}

impl<S: BitStore> Network<S> {
    /// Creates hosts with these numbers, with nothing in transit. Fails only on allocation failure.
    pub(crate) fn new(alloc: Global, hosts: &[u8]) -> Result<Network<S>, AllocError>
        requires { are_hosts hosts.now ≡ true }
        ensures { IfOk result (λ network. network ≡ new_network hosts.now) }
    {
        Ok(Network {
            members: new_members(alloc, hosts)?,
            subnet: Subnet::among(alloc, hosts)?,
        })
    }

    /// The host with a number.
    pub(crate) fn host(&self, number: u8) -> Option<&Host<S>>
        ensures { option_copied result ≡ thing_in self.now.hosts number }
    {
        let place = first_index(&self.members, number)?;
        Some(&self.members[place].host)
    }

    // Whether the two hosts of a message exist, and differ.
    fn are_two(&self, from: u8, to: u8) -> bool
        ensures { result ≡ are_two from to self.now }
    {
        is_there(&self.members, from) && is_there(&self.members, to) && from != to
    }

    // Whether the host of an event exists, or the two hosts of a message exist and differ.
    fn are_there(&self, event: &ManyEvent) -> bool
        ensures { result ≡ are_there event.now self.now }
    {
        match *event {
            ManyEvent::Call { host, .. } => is_there(&self.members, host),
            ManyEvent::Out { host } => is_there(&self.members, host),
            ManyEvent::Deliver { from, to, .. } => self.are_two(from, to),
            ManyEvent::Lose { from, to, .. } => self.are_two(from, to),
            ManyEvent::Dead { from, to, .. } => self.are_two(from, to),
            ManyEvent::Answer { from, to, .. } => self.are_two(from, to),
        }
    }

    // Performs a user's call on a host.
    fn call(&mut self, alloc: Global, host: u8, call: &Call) -> Result<ManyNote, AllocError>
        requires { is_there host self.old ≡ true }
        ensures note { IfOk result (λ note. ManyNoted (events.Call host call.now) note self.old) }
        ensures network { IfOk result (λ note. self.new ≡ after_many note self.old) }
        ensures err { OnErr result (self.new ≡ self.old) }
    {
        let note = called(alloc, &mut self.members, host, call)?;
        Ok(ManyNote::Called { host, note })
    }

    // Asks a host for its next message, which the subnet takes.
    fn out(&mut self, alloc: Global, host: u8) -> Result<ManyNote, AllocError>
        requires { is_there host self.old ≡ true }
        ensures note { IfOk result (λ note. ManyNoted (events.Out host) note self.old) }
        ensures network { IfOk result (λ note. self.new ≡ after_many note self.old) }
        ensures err { OnErr result (self.new ≡ self.old) }
    {
        let note = sent(alloc, &mut self.subnet, &mut self.members, host)?;
        Ok(ManyNote::Out { host, note })
    }

    // The subnet delivers a message to its destination.
    fn deliver(&mut self, alloc: Global, from: u8, to: u8, link: u8) -> Result<ManyNote, AllocError>
        requires { are_two from to self.old ≡ true }
        ensures note { IfOk result (λ note. ManyNoted (events.Deliver from to link) note self.old) }
        ensures network { IfOk result (λ note. self.new ≡ after_many note self.old) }
        ensures err { OnErr result (self.new ≡ self.old) }
    {
        match came(alloc, &mut self.subnet, &mut self.members, from, to, link)? {
            Some(note) => Ok(ManyNote::Came {
                from,
                to,
                link,
                note,
            }),
            None => Ok(ManyNote::Nothing {
                event: ManyEvent::Deliver { from, to, link },
            }),
        }
    }

    // The subnet loses a message.
    fn lose(&mut self, from: u8, to: u8, link: u8) -> ManyNote
        requires { are_two from to self.old ≡ true }
        ensures note { ManyNoted (events.Lose from to link) result self.old }
        ensures network { self.new ≡ after_many result self.old }
    {
        if self.subnet.lose(from, to, link) {
            ManyNote::Lost { from, to, link }
        } else {
            ManyNote::Nothing {
                event: ManyEvent::Lose { from, to, link },
            }
        }
    }

    // The subnet finds the destination of a message dead.
    fn dead(&mut self, from: u8, to: u8, link: u8) -> ManyNote
        requires { are_two from to self.old ≡ true }
        ensures note { ManyNoted (events.Dead from to link) result self.old }
        ensures network { self.new ≡ after_many result self.old }
    {
        if self.subnet.dead(from, to, link) {
            ManyNote::FoundDead { from, to, link }
        } else {
            ManyNote::Nothing {
                event: ManyEvent::Dead { from, to, link },
            }
        }
    }

    // The subnet answers the sender of a message.
    fn answer(&mut self, alloc: Global, from: u8, to: u8, link: u8) -> Result<ManyNote, AllocError>
        requires { are_two from to self.old ≡ true }
        ensures note { IfOk result (λ note. ManyNoted (events.Answer from to link) note self.old) }
        ensures network { IfOk result (λ note. self.new ≡ after_many note self.old) }
        ensures err { OnErr result (self.new ≡ self.old) }
    {
        match answered(alloc, &mut self.subnet, &mut self.members, from, to, link)? {
            Some(note) => Ok(ManyNote::Answered {
                from,
                to,
                link,
                note,
            }),
            None => Ok(ManyNote::Nothing {
                event: ManyEvent::Answer { from, to, link },
            }),
        }
    }

    // Two hosts, which are there and differ, and the subnet, lent.
    fn lent(&self, from: u8, to: u8) -> Lent<'_, S>
        requires { are_two from to self.now ≡ true }
        ensures { result ≡ between from to self.now }
    {
        let a = position_of(&self.members, from);
        let b = position_of(&self.members, to);
        Lent {
            number_a: from,
            number_b: to,
            a: &self.members[a].host,
            b: &self.members[b].host,
            subnet: &self.subnet,
        }
    }

    /// The ledger of a pair that sends from one host to another, if both of its endpoints are open.
    pub(crate) fn ledger(&self, from: u8, to: u8, pair: Pair) -> Option<Ledger>
        ensures { result ≡ many_ledger_read from to pair self.now }
    {
        if self.are_two(from, to) {
            self.lent(from, to).ledger(Side::A, pair)
        } else {
            None
        }
    }

    // Performs an event, and returns its note. For an event with a host that does not exist it
    // allocates only for the text of a call.
    fn perform(&mut self, alloc: Global, event: &ManyEvent) -> Result<ManyNote, AllocError>
        ensures note { IfOk result (λ note. ManyNoted event.now note self.old) }
        ensures network { IfOk result (λ note. self.new ≡ after_many note self.old) }
        ensures err { OnErr result (self.new ≡ self.old) }
        ensures absent { are_there event.now self.old ≡ false → OnErr result (is_giving event.now ≡ true) }
    {
        if !self.are_there(event) {
            let event = event.copied(alloc)?;
            return Ok(ManyNote::Nothing { event });
        }
        match event {
            ManyEvent::Call { host, call } => self.call(alloc, *host, call),
            ManyEvent::Out { host } => self.out(alloc, *host),
            ManyEvent::Deliver { from, to, link } => self.deliver(alloc, *from, *to, *link),
            ManyEvent::Lose { from, to, link } => Ok(self.lose(*from, *to, *link)),
            ManyEvent::Dead { from, to, link } => Ok(self.dead(*from, *to, *link)),
            ManyEvent::Answer { from, to, link } => self.answer(alloc, *from, *to, *link),
        }
    }
}

impl<S: BitStore> AnyHosts for Network<S> {
    ghost use Rattle.ncp_world.specs.ManyKind.{many_kind};
    ghost use Rattle.ncp_world.specs.ManyLaws.{many_unchanged, many_grow, many_out_says, many_deliver_says, many_answer_says, many_out_goes, many_deliver_goes, many_answer_goes, many_wake_goes, many_rest, many_settle};
    ghost use Rattle.ncp_proof_recovery.proofs.ManyGoing.{on-begun, on-further};

    type Name = u8;

    type Event = ManyEvent;

    type Note = ManyNote;

    ghost kind = { many_kind };

    fn happen(&mut self, alloc: Global, event: &ManyEvent) -> Result<ManyNote, AllocError> {
        self.perform(alloc, event)
    }

    fn reports_nothing(note: &ManyNote) -> bool {
        matches!(
            note,
            ManyNote::Nothing { .. }
                | ManyNote::Out {
                    note: HostNote::Nothing,
                    ..
                }
        )
    }

    fn count(&self) -> usize {
        self.members.len()
    }

    fn name_at(&self, place: usize) -> u8 {
        self.members[place].number
    }

    fn first_kept(&self, from: u8, to: u8) -> Option<u8> {
        first_kept(self.host(from)?, to)
    }

    fn out(from: u8) -> ManyEvent {
        ManyEvent::Out { host: from }
    }

    fn deliver(from: u8, to: u8, link: u8) -> ManyEvent {
        ManyEvent::Deliver { from, to, link }
    }

    fn answer(from: u8, to: u8, link: u8) -> ManyEvent {
        ManyEvent::Answer { from, to, link }
    }

    fn wake(&self, from: u8, to: u8) -> ManyEvent {
        let call = Call::Wake { peer: to };
        ManyEvent::Call { host: from, call }
    }

    ghost leaves_all = { many_unchanged };

    ghost grows = { many_grow };

    ghost out_says = { many_out_says };

    ghost deliver_says = { many_deliver_says };

    ghost answer_says = { many_answer_says };

    ghost out_goes = { many_out_goes };

    ghost deliver_goes = { many_deliver_goes };

    ghost answer_goes = { many_answer_goes };

    ghost wake_goes = { many_wake_goes };

    ghost rests = { many_rest };

    ghost settles = { many_settle };

    ghost goes_by_none = { on-begun };

    ghost goes_further = { on-further };
}

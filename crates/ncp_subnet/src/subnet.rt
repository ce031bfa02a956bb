//! `Subnet`.
ghost use Rattle.std.specs.Prelude.{◌≡◌, ◌≢◌, ◌≤◌, ◌<◌, ◌↔◌, ℕ, IsTrue, [], ◌∷◌, ◌++◌, length, map, slice_get, Some, IfOk, IfErr, IfSome, IfNone, OnOk, OnErr, IsOk};
ghost use Rattle.std.specs.Option.{is_some};
ghost use Rattle.std.specs.List.{position};
ghost use Rattle.std.specs.Bool.{OnTrue, OnFalse};
ghost use Rattle.ncp_bits.specs.Reasons.{IsFirst, NoneHolds};
ghost use Rattle.ncp_subnet.specs.Transit.{is_accepted, is_delivered, answer_kind, delivered, lost, dead, transit_answered};
ghost use Rattle.ncp_subnet.specs.declared.transit.Transit.{Transit};
ghost use Rattle.ncp_subnet.specs.Messages.{host_in, link_in, arriving, answer_about};
ghost use Rattle.ncp_subnet.specs.Ways.{way_leads, free_ways_from};
ghost use Rattle.ncp_subnet.specs.Subnet.{are_two_of, has_way, transit_at, with_transit, OthersStayInTransit, new_subnet, refusals, Refuses};

use crate::addressed::regular_leader;
use crate::fault::SubnetFault;
use crate::way::Way;
use ncp_bits::{Bits, Part};
use std::alloc::{AllocError, Global};
use std::boxed::BoxedSlice;
use std::marker::Model;

/// The subnet between hosts. On each link from one host to another it has at most one unanswered
/// message. [`Subnet::new`] and [`Subnet::among`] allocate all room. No other call allocates, which
/// the type ensures: boxed slices cannot grow, and give access to no allocator.
#[derive(Drop)]
pub struct Subnet {
    ways: BoxedSlice<Way, Global>,
}

impl Model for Subnet {
    ghost use Rattle.std.specs.Box.{boxed_slice_items};
    ghost use Rattle.std.specs.Coded.{codes};
    ghost use Rattle.ncp_subnet.specs.Subnet.{Subnet as Seen, subnet_in};
    ghost use Rattle.ncp_subnet.specs.Codes.{coded_in_transit};

    ghost Value = { Seen };

    ghost coded = { Prim.hlevel (codes, coded_in_transit) };

    ghost view = { λ subnet. subnet_in (boxed_slice_items subnet.ways) };
}

// The index of the way from one host to another.
fn way_between(ways: &[Way], from: u8, to: u8) -> Option<usize>
    ensures { result ≡ position (way_leads from to) ways.now }
{
    ways.iter().position(|way| way.leads(from, to))
}

// Adds the ways from one host to the others.
fn push_ways_from(
    ways: &mut Vec<Way>,
    alloc: Global,
    from: u8,
    hosts: &[u8],
) -> Result<(), AllocError>
    ensures { OnOk result (ways.new.items ≡ ways.old.items ++ free_ways_from from hosts.now) }
{
    for to in hosts {
        if *to != from {
            ways.push(Way::new(alloc, from, *to)?)?;
        }
    }
    Ok(())
}

impl Subnet {
    /// The subnet between two hosts (BBN Report 1822, section 3). If both are the same, it carries
    /// no message. Allocates room for 256 messages each way, about 0.5 MiB.
    pub fn new(alloc: Global, a: u8, b: u8) -> Result<Subnet, AllocError>
        ensures subnet { IfOk result (λ subnet. subnet ≡ new_subnet (a ∷ b ∷ [])) }
        ensures hosts { IfOk result (λ made. (from to : ℕ) → has_way made from to ≡ are_two_of (a ∷ b ∷ []) from to) }
        ensures free { IfOk result (λ subnet. (from to link : ℕ) → transit_at subnet from to link ≡ Transit.Free) }
    {
        Subnet::among(alloc, &[a, b])
    }

    /// The subnet between any number of hosts, each with each other. A host that is named twice has
    /// the effect of one, but takes room twice. Allocates room for 256 messages each way: about 14
    /// MiB for eight hosts.
    pub fn among(alloc: Global, hosts: &[u8]) -> Result<Subnet, AllocError>
        ensures subnet { IfOk result (λ subnet. subnet ≡ new_subnet hosts.now) }
        ensures hosts { IfOk result (λ subnet. (from to : ℕ) → has_way subnet from to ≡ are_two_of hosts.now from to) }
        ensures free { IfOk result (λ subnet. (from to link : ℕ) → transit_at subnet from to link ≡ Transit.Free) }
    {
        let mut ways = Vec::new(alloc);
        for from in hosts {
            push_ways_from(&mut ways, alloc, *from, hosts)?;
        }
        Ok(Subnet {
            ways: ways.into_boxed_slice(),
        })
    }

    /// Takes a copy of a message from a host, with the destination and the link of its leader.
    ///
    /// Refused, in this order (this profile): `NotRegular` (shorter than a leader, or of another
    /// type), `NoHost` (the host and the destination are not two hosts of the subnet), `Occupied`
    /// (the last message of this link is not answered yet). A refusal changes nothing.
    pub fn accept(&mut self, from: u8, message: &Bits) -> Result<(), SubnetFault>
        ensures variant { IsOk result ↔ NoneHolds (Refuses self.old from message.now) refusals }
        ensures first { IfErr result (λ fault. IsFirst (Refuses self.old from message.now) refusals fault) }
        ensures ok { OnOk result (self.new ≡ with_transit self.old from (host_in message.now) (link_in message.now) (Transit.Accepted message.now)) }
        ensures err { OnErr result (self.new ≡ self.old) }
    {
        self.accept_part(from, message.whole())
    }

    /// [`Subnet::accept`] with a borrowed message.
    pub fn accept_part(&mut self, from: u8, message: Part<'_>) -> Result<(), SubnetFault>
        ensures variant { IsOk result ↔ NoneHolds (Refuses self.old from message.entry) refusals }
        ensures first { IfErr result (λ fault. IsFirst (Refuses self.old from message.entry) refusals fault) }
        ensures ok { OnOk result (self.new ≡ with_transit self.old from (host_in message.entry) (link_in message.entry) (Transit.Accepted message.entry)) }
        ensures err { OnErr result (self.new ≡ self.old) }
    {
        let leader = regular_leader(&message)?;
        let Some(place) = way_between(&self.ways, from, leader.host) else {
            return Err(SubnetFault::NoHost);
        };
        let way = &mut self.ways[place];
        if !way.is_free(leader.link) {
            return Err(SubnetFault::Occupied);
        }
        way.accept(leader.link, message);
        Ok(())
    }

    /// Delivers a message at its destination: the accepted bits, with the sender's number in bits 9
    /// to 16 (BBN Report 1822, section 3). Returns `None`, and nothing changes, if no message on
    /// this link was accepted, or the last one was already delivered, lost, or failed by a dead
    /// destination.
    pub fn deliver(&mut self, from: u8, to: u8, link: u8) -> Option<Bits>
        ensures message { result ≡ arriving from (transit_at self.old from to link) }
        ensures some { IfSome result (λ _. self.new ≡ with_transit self.old from to link Transit.Delivered) }
        ensures none { IfNone result (self.new ≡ self.old) }
        ensures transit { transit_at self.new from to link ≡ delivered (transit_at self.old from to link) }
        ensures others { OthersStayInTransit self.old self.new from to link }
    {
        let place = way_between(&self.ways, from, to)?;
        self.ways[place].deliver(link)
    }

    /// Loses a message that was accepted and has not arrived. Returns `false`, and nothing changes,
    /// if there is none.
    pub fn lose(&mut self, from: u8, to: u8, link: u8) -> bool
        ensures output { result ≡ is_accepted (transit_at self.old from to link) }
        ensures lost { OnTrue result (self.new ≡ with_transit self.old from to link Transit.Lost) }
        ensures none { OnFalse result (self.new ≡ self.old) }
        ensures transit { transit_at self.new from to link ≡ lost (transit_at self.old from to link) }
        ensures others { OthersStayInTransit self.old self.new from to link }
    {
        match way_between(&self.ways, from, to) {
            Some(place) => self.ways[place].lose(link),
            None => false,
        }
    }

    /// Fails a message that was accepted and has not arrived: its destination is dead. Returns
    /// `false`, and nothing changes, if there is none.
    pub fn dead(&mut self, from: u8, to: u8, link: u8) -> bool
        ensures output { result ≡ is_accepted (transit_at self.old from to link) }
        ensures dead { OnTrue result (self.new ≡ with_transit self.old from to link Transit.Dead) }
        ensures none { OnFalse result (self.new ≡ self.old) }
        ensures transit { transit_at self.new from to link ≡ dead (transit_at self.old from to link) }
        ensures others { OthersStayInTransit self.old self.new from to link }
    {
        match way_between(&self.ways, from, to) {
            Some(place) => self.ways[place].dead(link),
            None => false,
        }
    }

    /// Returns the answer about a message to the host that sent it, and removes the message. The
    /// answer is a leader with the destination and the link. Its type is [`RFNM`](crate::RFNM) if
    /// the message was delivered, [`INCOMPLETE`](crate::INCOMPLETE) if it was lost, and
    /// [`DESTINATION_DEAD`](crate::DESTINATION_DEAD) if its destination was dead (BBN Report 1822,
    /// section 3). Returns `None`, and nothing changes, if no message is in transit on this link,
    /// or it may still arrive.
    pub fn answer(&mut self, from: u8, to: u8, link: u8) -> Option<Bits>
        ensures answer { result ≡ answer_about to link (transit_at self.old from to link) }
        ensures some { IfSome result (λ _. self.new ≡ with_transit self.old from to link Transit.Free) }
        ensures none { IfNone result (self.new ≡ self.old) }
        ensures transit { transit_at self.new from to link ≡ transit_answered (transit_at self.old from to link) }
        ensures others { OthersStayInTransit self.old self.new from to link }
    {
        let place = way_between(&self.ways, from, to)?;
        self.ways[place].answer(link)
    }

    /// Whether an accepted message has not arrived: it may be delivered, be lost, or fail by a dead
    /// destination.
    pub fn accepted(&self, from: u8, to: u8, link: u8) -> bool
        ensures { result ≡ is_accepted (transit_at self.now from to link) }
    {
        match way_between(&self.ways, from, to) {
            Some(place) => self.ways[place].is_accepted(link),
            None => false,
        }
    }

    /// Whether an answer is pending: a message was delivered, was lost, or had a dead destination.
    pub fn has_answer(&self, from: u8, to: u8, link: u8) -> bool
        ensures { result ≡ is_some (answer_kind (transit_at self.now from to link)) }
    {
        match way_between(&self.ways, from, to) {
            Some(place) => self.ways[place].has_answer(link),
            None => false,
        }
    }

    /// Whether a message was delivered and is not answered yet.
    pub fn delivered(&self, from: u8, to: u8, link: u8) -> bool
        ensures { result ≡ is_delivered (transit_at self.now from to link) }
    {
        match way_between(&self.ways, from, to) {
            Some(place) => self.ways[place].is_delivered(link),
            None => false,
        }
    }
}

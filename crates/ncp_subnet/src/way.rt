//! `Way`: the links from one host to another.
ghost use Rattle.std.specs.Prelude.{◌≡◌, ◌≤◌, ◌<◌, ◌==◌, ◌&&◌, length, IfOk};
ghost use Rattle.std.specs.Option.{is_some};
ghost use Rattle.ncp_subnet.specs.Transit.{answer_kind, is_accepted, is_delivered, is_free};
ghost use Rattle.ncp_subnet.specs.Ways.{OneWay, free_way, on_link, with_link, way_leads};
ghost use Rattle.ncp_subnet.specs.Transit as transit;
ghost use Rattle.ncp_subnet.specs.Messages.{arriving, answer_about};
ghost use Rattle.ncp_leader.specs.declared.leader.TheConstants.{LEADER_BITS};

use crate::addressed::{Addressed, answer_of};
use crate::transit::Transit;
use ncp_bits::{Bits, Part};
use std::alloc::{AllocError, Global};
use std::boxed::BoxedSlice;
use std::marker::Model;

/// The number of links from one host to another, from the eight bits of a leader.
pub const LINKS: usize = 256;

/// The transit on each link from one host to another.
#[derive(Drop)]
pub(crate) struct Way {
    from: u8,
    to: u8,
    links: BoxedSlice<Transit<Addressed>, Global>,
}

impl Model for Way {
    ghost use Rattle.std.specs.Prelude.{◌≡◌, length};
    ghost use Rattle.std.specs.Box.{boxed_slice_items};
    ghost use Rattle.ncp_subnet.specs.declared.way.TheConstants.{LINKS};
    ghost use Rattle.ncp_subnet.specs.Ways.{OneWay};

    ghost Value = { OneWay };

    ghost view = { λ way. record { from = way.from; to = way.to; links = boxed_slice_items way.links } };

    ghost invariant = { λ way. length (boxed_slice_items way.links) ≡ LINKS };
}

impl Way {
    /// A way with nothing in transit.
    pub(crate) fn new(alloc: Global, from: u8, to: u8) -> Result<Way, AllocError>
        ensures { IfOk result (λ way. way ≡ free_way from to) }
    {
        let mut links = Vec::with_capacity(alloc, LINKS)?;
        for _link in 0..LINKS {
            links.push_reserved(Transit::Free);
        }
        Ok(Way {
            from,
            to,
            links: links.into_boxed_slice(),
        })
    }

    /// Whether it is the way from one host to another.
    pub(crate) fn leads(&self, from: u8, to: u8) -> bool
        ensures { result ≡ way_leads from to self.now }
    {
        self.from == from && self.to == to
    }

    /// Whether no message is in transit on a link.
    pub(crate) fn is_free(&self, link: u8) -> bool
        ensures free { result ≡ is_free (on_link self.now link) }
        ensures inside { link < length self.now.links }
    {
        self.links[usize::from(link)].is_free()
    }

    /// Whether there is a message on a link that has not arrived.
    pub(crate) fn is_accepted(&self, link: u8) -> bool
        ensures accepted { result ≡ is_accepted (on_link self.now link) }
        ensures inside { link < length self.now.links }
    {
        self.links[usize::from(link)].is_accepted()
    }

    /// Whether an answer is pending about the message on a link.
    pub(crate) fn has_answer(&self, link: u8) -> bool
        ensures answer { result ≡ is_some (answer_kind (on_link self.now link)) }
        ensures inside { link < length self.now.links }
    {
        self.links[usize::from(link)].answer_kind().is_some()
    }

    /// Whether the message on a link was delivered and is not answered yet.
    pub(crate) fn is_delivered(&self, link: u8) -> bool
        ensures delivered { result ≡ is_delivered (on_link self.now link) }
        ensures inside { link < length self.now.links }
    {
        self.links[usize::from(link)].is_delivered()
    }

    /// Accepts a copy of a message on a link without a message in transit.
    pub(crate) fn accept(&mut self, link: u8, message: Part<'_>)
        requires free { on_link self.old link ≡ Transit.Free }
        requires leader { LEADER_BITS ≤ length message }
        ensures { self.new ≡ with_link self.old link (Transit.Accepted message.entry) }
    {
        self.links[usize::from(link)].accept(Addressed::of(message));
    }

    /// Delivers the message on a link that has not arrived, with the sender's number in its leader.
    pub(crate) fn deliver(&mut self, link: u8) -> Option<Bits>
        ensures message { result ≡ arriving self.old.from (on_link self.old link) }
        ensures way { self.new ≡ with_link self.old link (transit.delivered (on_link self.old link)) }
        ensures inside { link < length self.old.links }
    {
        let message = self.links[usize::from(link)].deliver()?;
        Some(message.from_host(self.from))
    }

    /// Loses the message on a link that has not arrived. Returns whether there is one.
    pub(crate) fn lose(&mut self, link: u8) -> bool
        ensures output { result ≡ is_accepted (on_link self.old link) }
        ensures way { self.new ≡ with_link self.old link (transit.lost (on_link self.old link)) }
        ensures inside { link < length self.old.links }
    {
        self.links[usize::from(link)].lose()
    }

    /// Fails the message on a link that has not arrived: its destination is dead. Returns whether
    /// there is one.
    pub(crate) fn dead(&mut self, link: u8) -> bool
        ensures output { result ≡ is_accepted (on_link self.old link) }
        ensures way { self.new ≡ with_link self.old link (transit.dead (on_link self.old link)) }
        ensures inside { link < length self.old.links }
    {
        self.links[usize::from(link)].dead()
    }

    /// Returns the answer about the message on a link that was delivered or will not be, and
    /// removes the message.
    pub(crate) fn answer(&mut self, link: u8) -> Option<Bits>
        ensures answer { result ≡ answer_about self.old.to link (on_link self.old link) }
        ensures way { self.new ≡ with_link self.old link (transit.transit_answered (on_link self.old link)) }
        ensures inside { link < length self.old.links }
    {
        let kind = self.links[usize::from(link)].answer()?;
        Some(answer_of(kind, self.to, link))
    }
}

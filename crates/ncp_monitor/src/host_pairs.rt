//! `HostPairs`: a set of pairs of hosts.
ghost use Rattle.std.specs.Prelude.{◌≡◌, ◌<◌, false, replicate, IfOk};
ghost use Rattle.ncp_monitor.specs.declared.views.TheConstants.{HOSTS, VIEWS};
ghost use Rattle.ncp_monitor.specs.Tables.{index_of};
ghost use Rattle.ncp_monitor.specs.Resets.{is_in_doubt, doubting_pair, doubting_sender, doubting_senders, doubting_peer, doubting_peers};

use crate::views::{HOSTS, VIEWS, Views, index_of};
use ncp_interface::SentMessage;
use std::alloc::{AllocError, Global};
use std::boxed::BoxedSlice;
use std::marker::Model;

/// A set of pairs of hosts: for each host and each peer, whether they are in it. Creation allocates
/// all its room.
#[derive(Drop)]
pub struct HostPairs {
    all: BoxedSlice<bool, Global>,
}

impl Model for HostPairs {
    ghost use Rattle.std.specs.Prelude.{◌≡◌, Bool, List, length};
    ghost use Rattle.std.specs.Box.{boxed_slice_items};
    ghost use Rattle.ncp_monitor.specs.declared.views.TheConstants.{VIEWS};

    ghost Value = { List Bool };

    ghost view = { λ pairs. boxed_slice_items pairs.all };

    ghost invariant = { λ pairs. length (boxed_slice_items pairs.all) ≡ VIEWS };
}

impl HostPairs {
    /// No pair. Only this function allocates, once.
    pub(crate) fn new(alloc: Global) -> Result<HostPairs, AllocError>
        ensures { IfOk result (λ pairs. pairs ≡ replicate VIEWS false) }
    {
        let mut all = Vec::with_capacity(alloc, VIEWS)?;
        for _place in 0..VIEWS {
            all.push_reserved(false);
        }
        Ok(HostPairs {
            all: all.into_boxed_slice(),
        })
    }

    /// Whether a host and a peer are in it.
    pub(crate) fn has(&self, at: u8, peer: u8) -> bool
        ensures { result ≡ is_in_doubt self.now at peer }
    {
        self.all[index_of(at, peer)]
    }

    /// Adds two hosts, either of them as the host.
    fn add(&mut self, one: u8, other: u8)
        ensures { self.new ≡ doubting_pair one other self.old }
    {
        self.all[index_of(one, other)] = true;
        self.all[index_of(other, one)] = true;
    }

    // Adds the pair of a message, if it is outstanding from or to host `at`.
    fn add_sender(&mut self, at: u8, one: &SentMessage)
        ensures { self.new ≡ doubting_sender at self.old one.now }
    {
        if one.is_outstanding_at(at) {
            self.add(one.from, one.to);
        }
    }

    // Adds host `at` with a peer, if one of the two has begun.
    fn add_peer(&mut self, at: u8, views: &Views, peer: u8)
        ensures { self.new ≡ doubting_peer at views.now self.old peer }
    {
        if views.of(at, peer).has_begun() {
            self.add(at, peer);
        }
    }

    /// Adds each pair with a message that is outstanding from or to host `at`.
    pub(crate) fn add_senders(&mut self, at: u8, kept: &[SentMessage])
        ensures { self.new ≡ doubting_senders at kept.now self.old }
    {
        for one in kept {
            self.add_sender(at, one);
        }
    }

    /// Adds host `at` with each peer, if one of the two has begun.
    pub(crate) fn add_peers(&mut self, at: u8, views: &Views)
        ensures { self.new ≡ doubting_peers at views.now self.old }
    {
        for place in 0..HOSTS {
            self.add_peer(at, views, place as u8);
        }
    }
}

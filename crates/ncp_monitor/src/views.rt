//! `Views`: the view of each host of each other host.
ghost use Rattle.std.specs.Prelude.{◌≡◌, ◌<◌, replicate, length, IfOk};
ghost use Rattle.ncp_monitor.specs.Tables.{index_of, view_in, with_view};
ghost use Rattle.std.specs.Borrow.{sem};
ghost use Rattle.ncp_monitor.specs.ViewLends.{LendsView};
ghost use Rattle.ncp_monitor.specs.Views.{new_view};

use crate::view::View;
use std::alloc::{AllocError, Global};
use std::boxed::BoxedSlice;
use std::marker::Model;

/// The number of host addresses: a leader has eight bits for the host.
pub const HOSTS: usize = 256;

/// The number of ordered pairs of hosts.
pub const VIEWS: usize = HOSTS * HOSTS;

/// The view of each host of each other host. Creation allocates all its room.
#[derive(Drop)]
pub struct Views {
    all: BoxedSlice<View, Global>,
}

impl Model for Views {
    ghost use Rattle.std.specs.Prelude.{◌≡◌, List, length};
    ghost use Rattle.std.specs.Box.{boxed_slice_items};
    ghost use Rattle.ncp_monitor.specs.declared.view.View.{View};
    ghost use Rattle.ncp_monitor.specs.declared.views.TheConstants.{VIEWS};

    ghost Value = { List View };

    ghost view = { λ views. boxed_slice_items views.all };

    ghost invariant = { λ views. length (boxed_slice_items views.all) ≡ VIEWS };
}

/// The index of a host's view of a peer.
pub(crate) fn index_of(at: u8, peer: u8) -> usize
    ensures index { result ≡ index_of at peer }
    ensures inside { result < VIEWS }
{
    HOSTS * usize::from(at) + usize::from(peer)
}

impl Views {
    /// Nothing observed. Only this function allocates, once.
    pub(crate) fn new(alloc: Global, part: bool) -> Result<Views, AllocError>
        ensures { IfOk result (λ views. views ≡ replicate VIEWS (new_view part)) }
    {
        let mut all = Vec::with_capacity(alloc, VIEWS)?;
        for _place in 0..VIEWS {
            all.push_reserved(View::new(part));
        }
        Ok(Views {
            all: all.into_boxed_slice(),
        })
    }

    /// A host's view of a peer.
    pub(crate) fn of(&self, at: u8, peer: u8) -> View
        ensures { result ≡ view_in self.now at peer }
    {
        self.all[index_of(at, peer)]
    }

    /// Borrows a host's view of a peer. The final value of the reference becomes that view.
    pub(crate) fn at(&mut self, at: u8, peer: u8) -> &mut View
        ensures* writes_back { sem 𝓛 (LendsView self.entry at peer result) }
        ensures value { result.now ≡ view_in self.old at peer }
    {
        &mut self.all[index_of(at, peer)]
    }

    /// Replaces a host's view of a peer.
    pub(crate) fn set(&mut self, at: u8, peer: u8, view: View)
        ensures { self.new ≡ with_view self.old at peer view }
    {
        self.all[index_of(at, peer)] = view;
    }
}

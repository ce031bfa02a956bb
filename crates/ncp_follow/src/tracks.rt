//! `Tracks`: the connections that have not ended, and the requests for one.
ghost use Rattle.std.specs.Prelude.{◌≡◌, ◌<◌, ◌≤◌, ◌++◌, ◌∷◌, [], not, length, slice_set, nat_lt, if◌then◌else◌, IfOk, IfSome};
ghost use Rattle.std.specs.List.{position, remove, filter};
ghost use Rattle.ncp_follow.specs.Tracks.{is_pair, is_used, track_at};
ghost use Rattle.ncp_follow.specs.Tables.{is_track_of, pair_index, index_at_link, with_new, without};

use crate::followed_conn::FollowedConn;
use std::alloc::{AllocError, Global};
use std::marker::Model;

/// The most connections and requests followed at once. A further one is not followed.
pub const MAX_TRACKS: usize = 4096;

/// The connections that have not ended, and the requests for one. Creation allocates all their
/// room.
#[derive(Drop)]
pub struct Tracks {
    all: Vec<FollowedConn>,
}

impl Model for Tracks {
    ghost use Rattle.std.specs.Prelude.{◌≤◌, List};
    ghost use Rattle.std.specs.Vec.{vec_capacity};
    ghost use Rattle.ncp_follow.specs.declared.followed_conn.FollowedConn.{FollowedConn};
    ghost use Rattle.ncp_follow.specs.declared.tracks.TheConstants.{MAX_TRACKS};

    ghost Value = { List FollowedConn };

    ghost view = { λ tracks. tracks.all.items };

    ghost invariant = { λ tracks. MAX_TRACKS ≤ vec_capacity tracks.all };
}

impl Tracks {
    /// No connection. Only this function allocates, once.
    pub(crate) fn new(alloc: Global) -> Result<Tracks, AllocError>
        ensures { IfOk result (λ tracks. tracks ≡ []) }
    {
        Ok(Tracks {
            all: Vec::with_capacity(alloc, MAX_TRACKS)?,
        })
    }

    /// All followed connections.
    pub(crate) fn as_slice(&self) -> &[FollowedConn]
        ensures { result.now ≡ self.now }
    {
        self.all.as_slice()
    }

    /// The index of the connection between these sockets.
    pub(crate) fn index_of_pair(&self, at: u8, peer: u8, local: u32, remote: u32) -> Option<usize>
        ensures index { result ≡ pair_index at peer local remote self.now }
        ensures inside { IfSome result (λ place. place < length self.now) }
    {
        self.all
            .as_slice()
            .iter()
            .position(|track| track.is_pair(at, peer, local, remote))
    }

    /// The index of the connection with this link.
    pub(crate) fn index_of_link(&self, at: u8, peer: u8, sends: bool, link: u8) -> Option<usize>
        ensures index { result ≡ index_at_link at peer sends link self.now }
        ensures inside { IfSome result (λ place. place < length self.now) }
    {
        self.all
            .as_slice()
            .iter()
            .position(|track| track.is_used(at, peer, sends, link))
    }

    /// The connection at an index.
    pub(crate) fn at(&self, place: usize) -> FollowedConn
        requires { place < length self.now }
        ensures { result ≡ track_at self.now place }
    {
        self.all[place]
    }

    /// Replaces the connection at an index.
    pub(crate) fn set(&mut self, place: usize, track: FollowedConn)
        requires { place < length self.old }
        ensures { self.new ≡ slice_set self.old place track }
    {
        self.all[place] = track;
    }

    /// Appends a connection, if there is room.
    pub(crate) fn push(&mut self, track: FollowedConn)
        ensures { self.new ≡ with_new self.old track }
    {
        if self.all.len() < MAX_TRACKS {
            self.all.push_reserved(track);
        }
    }

    /// Removes the connection at an index.
    pub(crate) fn remove(&mut self, place: usize)
        requires { place < length self.old }
        ensures { self.new ≡ remove self.old place }
    {
        let _gone = self.all.remove(place);
    }

    /// Removes the connections of two hosts.
    pub(crate) fn forget(&mut self, at: u8, peer: u8)
        ensures { self.new ≡ without self.old at peer }
    {
        self.all
            .retain(|track| !(track.at == at && track.peer == peer));
    }
}

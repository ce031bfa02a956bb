//! `OpenedConnections`: the connections that were opened.
ghost use Rattle.std.specs.Prelude.{◌≡◌, ◌<◌, ◌≤◌, ◌++◌, ◌∷◌, [], true, length, option_map, IfOk};
ghost use Rattle.ncp_follow.specs.Connections.{opened_at, with_opened_at, with_end_recorded, index_numbered, numbered, silent_at, connection_with_text, with_late, with_granted, with_returned};
ghost use Rattle.ncp_follow.specs.Tables.{has_room_opened, with_opened, end_one};

use crate::connection::{Connection, EndReason};
use crate::followed_conn::FollowedConn;
use crate::observation::Observation;
use ncp_bits::Part;
use std::alloc::{AllocError, Global};
use std::marker::Model;

/// The most opened connections listed. Texts of a further one count as texts outside of
/// connections.
pub const MAX_OPENED: usize = 4096;

/// The opened connections, in order of opening. Creation allocates all their room.
#[derive(Drop)]
pub struct OpenedConnections {
    all: Vec<Connection>,
}

impl Model for OpenedConnections {
    ghost use Rattle.std.specs.Prelude.{◌≤◌, List};
    ghost use Rattle.std.specs.Vec.{vec_capacity};
    ghost use Rattle.ncp_follow.specs.declared.connection.Connection.{Connection};
    ghost use Rattle.ncp_follow.specs.declared.opened.TheConstants.{MAX_OPENED};

    ghost Value = { List Connection };

    ghost view = { λ told. told.all.items };

    ghost invariant = { λ told. MAX_OPENED ≤ vec_capacity told.all };
}

// The index of the connection with a number.
fn position_of(number: u32) -> Option<usize>
    ensures { result ≡ index_numbered number }
{
    if number == 0 {
        return None;
    }
    Some(number as usize - 1)
}

impl OpenedConnections {
    /// No connection. Only this function allocates, once.
    pub(crate) fn new(alloc: Global) -> Result<OpenedConnections, AllocError>
        ensures { IfOk result (λ told. told ≡ []) }
    {
        Ok(OpenedConnections {
            all: Vec::with_capacity(alloc, MAX_OPENED)?,
        })
    }

    /// All opened connections.
    pub(crate) fn as_slice(&self) -> &[Connection]
        ensures { result.now ≡ self.now }
    {
        self.all.as_slice()
    }

    /// The connection with a number, if there is one.
    pub(crate) fn numbered(&self, number: u32) -> Option<&Connection>
        ensures { option_map (λ one. one.now) result ≡ numbered self.now (index_numbered number) }
    {
        let place = position_of(number)?;
        self.all.get(place)
    }

    /// The number of opened connections.
    pub(crate) fn len(&self) -> usize
        ensures { result ≡ length self.now }
    {
        self.all.len()
    }

    /// Whether there is room for one more.
    pub(crate) fn has_room_for_one(&self) -> bool
        ensures { result ≡ has_room_opened self.now }
    {
        self.all.len() < MAX_OPENED
    }

    /// Appends a connection opened by this record. Requires room.
    pub(crate) fn push(&mut self, opened: u32, track: FollowedConn)
        requires { has_room_opened self.old ≡ true }
        ensures { self.new ≡ with_opened self.old opened track }
    {
        let number = self.all.len() as u32 + 1;
        self.all
            .push_reserved(Connection::new(number, opened, track));
    }

    /// Adds a text to the connection at an index.
    pub(crate) fn say(&mut self, place: usize, text: Part<'_>)
        ensures { self.new ≡ with_opened_at self.old place (connection_with_text (opened_at self.old place) text.entry) }
    {
        if place < self.all.len() {
            self.all[place].say(text);
        }
    }

    /// Counts a late text: one on the link of the connection at an index that the connection does
    /// not accept.
    pub(crate) fn be_late(&mut self, place: usize)
        ensures { self.new ≡ with_opened_at self.old place (with_late (opened_at self.old place)) }
    {
        if place < self.all.len() {
            self.all[place].late = self.all[place].late.saturating_add(1);
        }
    }

    /// Adds to what was allocated for the connection at an index.
    pub(crate) fn grant(&mut self, place: usize, messages: u32, bits: u32)
        ensures { self.new ≡ with_opened_at self.old place (with_granted (opened_at self.old place) messages bits) }
    {
        if place < self.all.len() {
            self.all[place].granted = self.all[place].granted.more(messages, bits);
        }
    }

    /// Adds to what was returned of it.
    pub(crate) fn give_back(&mut self, place: usize, messages: u32, bits: u32)
        ensures { self.new ≡ with_opened_at self.old place (with_returned (opened_at self.old place) messages bits) }
    {
        if place < self.all.len() {
            self.all[place].returned = self.all[place].returned.more(messages, bits);
        }
    }

    /// Empties the text of the connection with a number, if there is one.
    pub(crate) fn forget_text(&mut self, number: u32)
        ensures { self.new ≡ silent_at self.old (index_numbered number) }
    {
        let Some(place) = position_of(number) else {
            return;
        };
        if place < self.all.len() {
            self.all[place].forget_text();
        }
    }

    /// Ends the opened connection of a followed one, if that is between these two hosts.
    pub(crate) fn end_one(&mut self, observation: &Observation, end: EndReason, track: FollowedConn)
        ensures { self.new ≡ end_one observation.now.number observation.now.at observation.now.peer end track self.old }
    {
        if track.at == observation.at && track.peer == observation.peer {
            self.end(track.place, end, Some(observation.number));
        }
    }

    /// Records how the connection at an index ended, or the last sign of its end, if an index is
    /// given.
    pub(crate) fn end(&mut self, place: Option<usize>, end: EndReason, ended: Option<u32>)
        ensures { self.new ≡ with_end_recorded self.old place end ended }
    {
        let Some(place) = place else {
            return;
        };
        if place < self.all.len() {
            self.all[place].be_ended(end, ended);
        }
    }
}

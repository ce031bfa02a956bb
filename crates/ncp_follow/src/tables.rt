//! `Tables`: the connections, and the effects of commands and texts on them.
ghost use Rattle.std.specs.Prelude.{◌≡◌, ◌<◌, ◌≤◌, not, [], length, is_some, IfOk, IfSome};
ghost use Rattle.ncp_follow.specs.Tables.{is_track_of, is_link_taken, track_placed, asked_at, after_request, is_right, is_of_receiver, after_asking, end_by, left_at, closed_at, after_close, granted_of, returned_of, granted_at, after_grant, returned_at, after_return, opened_after, texts_of, said_at, after_text, belongs_at, belongs, end_one, end_all, after_clearing};

use crate::connection::EndReason;
use crate::followed_conn::FollowedConn;
use crate::observation::Observation;
use crate::opened::OpenedConnections;
use crate::tracks::Tracks;
use ncp_bits::Part;
use ncp_interface::{Request, is_of_sexes, is_senders};
use ncp_wire::{FIRST_LINK, LAST_LINK};
use std::alloc::{AllocError, Global};

/// The connections that have not ended, and those that were opened.
#[derive(Drop)]
pub struct Tables {
    /// The connections that have not ended, and the requests for one.
    pub(crate) tracks: Tracks,
    /// The opened connections, in order.
    pub(crate) told: OpenedConnections,
}

// Whether a request is valid: the sexes of its sockets, and the link or the size that it chooses.
fn is_right(receive: u32, send: u32, request: Request) -> bool
    ensures { result ≡ is_right receive send request }
{
    let sockets = is_of_sexes(receive, send);
    match request {
        Request::Link(link) => sockets && link >= FIRST_LINK && link <= LAST_LINK,
        Request::Size(size) => sockets && size > 0,
    }
}

// Whether a request is the receiver's.
fn is_of_receiver(request: Request) -> bool
    ensures { result ≡ is_of_receiver request }
{
    match request {
        Request::Link(_) => true,
        Request::Size(_) => false,
    }
}

// The last sign of a connection's end after a CLS of one side.
fn end_by(sent: bool) -> EndReason
    ensures { result ≡ end_by sent }
{
    if sent {
        EndReason::CloseSent
    } else {
        EndReason::CloseCame
    }
}

// Ends the connections of two hosts, in order.
fn end_all(
    tracks: &[FollowedConn],
    told: &mut OpenedConnections,
    observation: &Observation,
    end: EndReason,
)
    ensures { told.new ≡ end_all observation.now.number observation.now.at observation.now.peer end tracks.now told.old }
{
    for track in tracks {
        told.end_one(observation, end, *track);
    }
}

impl Tables {
    /// No connection. Only this function allocates.
    pub(crate) fn new(alloc: Global) -> Result<Tables, AllocError>
        ensures { IfOk result (λ tables. (tables.tracks ≡ []) × (tables.told ≡ [])) }
    {
        let tracks = Tracks::new(alloc)?;
        let told = OpenedConnections::new(alloc)?;
        Ok(Tables { tracks, told })
    }

    // Whether another connection has the link that the receiver asks for.
    fn is_taken(&self, observation: &Observation, local: u32, request: Request) -> bool
        ensures { result ≡ is_link_taken observation.now local request self.now.tracks }
    {
        match request {
            Request::Link(link) => self
                .tracks
                .index_of_link(observation.at, observation.peer, is_senders(local), link)
                .is_some(),
            Request::Size(_) => false,
        }
    }

    // Stores a connection at an index, and opens it if both sides have asked, neither has closed,
    // and there is room.
    fn put(&mut self, observation: &Observation, place: usize, track: FollowedConn)
        requires { place < length self.old.tracks }
        ensures { self.new ≡ track_placed observation.now place track self.old }
    {
        if track.is_whole() && self.told.has_room_for_one() {
            let open = FollowedConn {
                place: Some(self.told.len()),
                ..track
            };
            self.tracks.set(place, open);
            self.told.push(observation.number, track);
        } else {
            self.tracks.set(place, track);
        }
    }

    // Follows a request for a connection between a socket of the host and one of the peer.
    fn request(&mut self, observation: &Observation, local: u32, remote: u32, request: Request)
        ensures { self.new ≡ after_request observation.now local remote request self.old }
    {
        if self.is_taken(observation, local, request) {
            return;
        }
        let Some(place) = self
            .tracks
            .index_of_pair(observation.at, observation.peer, local, remote)
        else {
            let new = FollowedConn::new(observation.at, observation.peer, local, remote);
            self.tracks.push(new.with_request(request));
            return;
        };
        let track = self.tracks.at(place);
        if track.has_asked(request) || track.has_left(observation.sent) {
            return;
        }
        self.put(observation, place, track.with_request(request));
    }

    /// Follows an RTS or an STR.
    pub(crate) fn ask(
        &mut self,
        observation: &Observation,
        receive: u32,
        send: u32,
        request: Request,
    )
        ensures { self.new ≡ after_asking observation.now receive send request self.old }
    {
        if !is_right(receive, send, request) {
            return;
        }
        if is_of_receiver(request) == observation.sent {
            self.request(observation, receive, send, request);
        } else {
            self.request(observation, send, receive, request);
        }
    }

    // Records that a side closed the connection at an index.
    fn leave(&mut self, observation: &Observation, place: usize, track: FollowedConn)
        requires { place < length self.old.tracks }
        ensures { self.new ≡ left_at observation.now place track self.old }
    {
        if track.host_left && track.peer_left {
            self.tracks.remove(place);
            self.told
                .end(track.place, EndReason::Closed, Some(observation.number));
        } else {
            self.tracks.set(place, track);
            self.told.end(track.place, end_by(observation.sent), None);
        }
    }

    // Follows a CLS, by the index of its connection.
    fn close_at(&mut self, observation: &Observation, place: Option<usize>)
        requires { IfSome place (λ p. p < length self.old.tracks) }
        ensures { self.new ≡ closed_at observation.now self.old place }
    {
        let Some(place) = place else {
            return;
        };
        let track = self.tracks.at(place);
        if track.has_left(observation.sent) {
            return;
        }
        self.leave(observation, place, track.with_left(observation.sent));
    }

    /// Follows a CLS.
    pub(crate) fn close(&mut self, observation: &Observation, my: u32, your: u32)
        ensures { self.new ≡ after_close observation.now my your self.old }
    {
        let place = if observation.sent {
            self.tracks
                .index_of_pair(observation.at, observation.peer, my, your)
        } else {
            self.tracks
                .index_of_pair(observation.at, observation.peer, your, my)
        };
        self.close_at(observation, place);
    }

    // Follows an ALL for a connection, if it was opened.
    fn grant_of(&mut self, place: usize, messages: u32, bits: u32, track: FollowedConn)
        requires { place < length self.old.tracks }
        ensures { self.new ≡ granted_of place messages bits track self.old track.place }
    {
        let Some(told) = track.place else {
            return;
        };
        let more = FollowedConn {
            left: track.left.more(messages, bits),
            ..track
        };
        self.tracks.set(place, more);
        self.told.grant(told, messages, bits);
    }

    // Follows an ALL, by the index of its connection.
    fn grant_at(
        &mut self,
        observation: &Observation,
        messages: u32,
        bits: u32,
        place: Option<usize>,
    )
        requires { IfSome place (λ p. p < length self.old.tracks) }
        ensures { self.new ≡ granted_at observation.now messages bits self.old place }
    {
        let Some(place) = place else {
            return;
        };
        let track = self.tracks.at(place);
        if !track.has_left(observation.sent) {
            self.grant_of(place, messages, bits, track);
        }
    }

    /// Follows an ALL.
    pub(crate) fn grant(&mut self, observation: &Observation, link: u8, messages: u32, bits: u32)
        ensures { self.new ≡ after_grant observation.now link messages bits self.old }
    {
        let place = self
            .tracks
            .index_of_link(observation.at, observation.peer, !observation.sent, link);
        self.grant_at(observation, messages, bits, place);
    }

    // Follows a RET for a connection, if it was opened.
    fn return_of(&mut self, place: usize, messages: u32, bits: u32, track: FollowedConn)
        requires { place < length self.old.tracks }
        ensures { self.new ≡ returned_of place messages bits track self.old track.place }
    {
        let Some(told) = track.place else {
            return;
        };
        let less = FollowedConn {
            left: track.left.less(messages, bits),
            ..track
        };
        self.tracks.set(place, less);
        self.told.give_back(told, messages, bits);
    }

    // Follows a RET, by the index of its connection.
    fn return_at(
        &mut self,
        observation: &Observation,
        messages: u32,
        bits: u32,
        place: Option<usize>,
    )
        requires { IfSome place (λ p. p < length self.old.tracks) }
        ensures { self.new ≡ returned_at observation.now messages bits self.old place }
    {
        let Some(place) = place else {
            return;
        };
        let track = self.tracks.at(place);
        if !track.has_left(observation.sent) {
            self.return_of(place, messages, bits, track);
        }
    }

    /// Follows a RET.
    pub(crate) fn give_back(
        &mut self,
        observation: &Observation,
        link: u8,
        messages: u32,
        bits: u32,
    )
        ensures { self.new ≡ after_return observation.now link messages bits self.old }
    {
        let place = self
            .tracks
            .index_of_link(observation.at, observation.peer, observation.sent, link);
        self.return_at(observation, messages, bits, place);
    }

    // Records a text of the opened connection at an index: accepted or late.
    fn tell(&mut self, track: FollowedConn, place: usize, size: u8, text: Part<'_>)
        ensures { self.new ≡ record self.old { told = opened_after track place size text.entry self.old.told } }
    {
        if track.takes(size, text.len() as u32) {
            self.told.say(place, text);
        } else {
            self.told.be_late(place);
        }
    }

    // Follows a text of a connection, if it was opened.
    fn say_of(&mut self, place: usize, size: u8, text: Part<'_>, track: FollowedConn)
        requires { place < length self.old.tracks }
        ensures { self.new ≡ texts_of place size text.entry track self.old track.place }
    {
        let Some(told) = track.place else {
            return;
        };
        let less = FollowedConn {
            left: track.left.less(1, text.len() as u32),
            ..track
        };
        self.tracks.set(place, less);
        self.tell(track, told, size, text);
    }

    /// Follows a text on a link. Returns whether it is of a connection that was opened.
    pub(crate) fn say(
        &mut self,
        observation: &Observation,
        link: u8,
        size: u8,
        text: Part<'_>,
    ) -> bool
        ensures belongs { result ≡ belongs observation.now link self.old }
        ensures after { self.new ≡ after_text observation.now link size text.entry self.old }
    {
        let place = self
            .tracks
            .index_of_link(observation.at, observation.peer, observation.sent, link);
        let Some(place) = place else {
            return false;
        };
        let track = self.tracks.at(place);
        self.say_of(place, size, text, track);
        track.place.is_some()
    }

    /// Ends all connections of two hosts.
    pub(crate) fn clear(&mut self, observation: &Observation, end: EndReason)
        ensures { self.new ≡ after_clearing observation.now end self.old }
    {
        end_all(self.tracks.as_slice(), &mut self.told, observation, end);
        self.tracks.forget(observation.at, observation.peer);
    }
}

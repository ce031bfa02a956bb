//! `FollowedConn`: a followed connection, or a request for one.
ghost use Rattle.std.specs.Prelude.{◌≡◌};
ghost use Rattle.ncp_follow.specs.Tracks.{new_track, is_pair, is_used, has_left, with_left, has_chosen, with_choice, is_whole, nobody_left, takes_bits};

use crate::amount::SaturatingAmount;
use ncp_interface::{Request, is_given, is_senders};

/// A connection between two sockets, or a request for one, as followed at one host's interface.
#[derive(Clone, Copy, Debug, Drop, PartialEq, Eq)]
pub struct FollowedConn {
    /// The host at whose interface it is observed.
    pub at: u8,
    /// The peer.
    pub peer: u8,
    /// The host's socket.
    pub local: u32,
    /// The peer's socket.
    pub remote: u32,
    /// The link, once the receiver has asked.
    pub link: Option<u8>,
    /// The byte size, once the sender has asked.
    pub size: Option<u8>,
    /// Whether the host has sent its CLS.
    pub host_left: bool,
    /// Whether the peer has sent its CLS.
    pub peer_left: bool,
    /// The allocation that is neither used nor returned.
    pub left: SaturatingAmount,
    /// Its index in [`OpenedConnections`], once it is opened.
    pub place: Option<usize>,
}

impl FollowedConn {
    // A connection that neither side has asked for.
    pub(crate) fn new(at: u8, peer: u8, local: u32, remote: u32) -> FollowedConn
        ensures { result ≡ new_track at peer local remote }
    {
        FollowedConn {
            at,
            peer,
            local,
            remote,
            link: None,
            size: None,
            host_left: false,
            peer_left: false,
            left: SaturatingAmount::nothing(),
            place: None,
        }
    }

    // Whether it is between these sockets of these hosts.
    pub(crate) fn is_pair(&self, at: u8, peer: u8, local: u32, remote: u32) -> bool
        ensures { result ≡ is_pair at peer local remote self.now }
    {
        self.at == at && self.peer == peer && self.local == local && self.remote == remote
    }

    // Whether it has this link, with the host as its `sender` or receiver.
    pub(crate) fn is_used(&self, at: u8, peer: u8, sender: bool, link: u8) -> bool
        ensures { result ≡ is_used at peer sender link self.now }
    {
        self.at == at
            && self.peer == peer
            && is_senders(self.local) == sender
            && is_given(self.link, link)
    }

    // Whether the host (`sent`) or the peer has sent its CLS.
    pub(crate) fn has_left(self, sent: bool) -> bool
        ensures { result ≡ has_left self sent }
    {
        if sent { self.host_left } else { self.peer_left }
    }

    // The connection after a CLS of the host (`sent`) or the peer.
    pub(crate) fn with_left(self, sent: bool) -> FollowedConn
        ensures { result ≡ with_left self sent }
    {
        if sent {
            FollowedConn {
                host_left: true,
                ..self
            }
        } else {
            FollowedConn {
                peer_left: true,
                ..self
            }
        }
    }

    // Whether the side that makes such a request has already made one.
    pub(crate) fn has_asked(self, request: Request) -> bool
        ensures { result ≡ has_chosen self request }
    {
        match request {
            Request::Link(_) => self.link.is_some(),
            Request::Size(_) => self.size.is_some(),
        }
    }

    // The connection after a request.
    pub(crate) fn with_request(self, request: Request) -> FollowedConn
        ensures { result ≡ with_choice self request }
    {
        match request {
            Request::Link(link) => FollowedConn {
                link: Some(link),
                ..self
            },
            Request::Size(size) => FollowedConn {
                size: Some(size),
                ..self
            },
        }
    }

    // Whether neither side has sent its CLS.
    pub(crate) fn is_live(self) -> bool
        ensures { result ≡ nobody_left self }
    {
        !self.host_left && !self.peer_left
    }

    // Whether both sides have asked, and neither has sent its CLS.
    pub(crate) fn is_whole(self) -> bool
        ensures { result ≡ is_whole self }
    {
        self.link.is_some() && self.size.is_some() && self.is_live()
    }

    // Whether it accepts a text of `bits` bits in bytes of this size.
    pub(crate) fn takes(self, size: u8, bits: u32) -> bool
        ensures { result ≡ takes_bits self size bits }
    {
        self.is_live() && is_given(self.size, size) && self.left.covers(bits)
    }
}

//! `ConnState`: a connection, or a request for one; and `Fact`: a known fact about two hosts.
ghost use Rattle.std.specs.Prelude.{◌≡◌};
ghost use Rattle.ncp_monitor.specs.ConnStates.{unasked_conn, is_of_sockets, has_link, has_sent_cls, with_cls_sent, has_sent_request, with_request_sent, is_topic};
ghost use Rattle.ncp_monitor.specs.Speaking.{is_admission};
ghost use Rattle.ncp_monitor.specs.Coverage.{is_of_suspension, is_suspended_conn, is_suspension};

use ncp_interface::{Request, is_given, is_senders};
use ncp_wire::ERROR_DATA;

/// A connection between two sockets, or a request for one, as observed at one host's interface.
#[derive(Clone, Copy, Debug, Drop, PartialEq, Eq)]
pub struct ConnState {
    /// The host at whose interface it is observed.
    pub at: u8,
    /// The peer.
    pub peer: u8,
    /// The host's socket.
    pub local: u32,
    /// The peer's socket.
    pub remote: u32,
    /// The link, once the receiver has asked.
    pub link: Option<u8>,
    /// The byte size, once the sender has asked.
    pub size: Option<u8>,
    /// Whether the host has sent its CLS.
    pub host_left: bool,
    /// Whether the peer has sent its CLS.
    pub peer_left: bool,
    /// Whether a text has arrived on its link.
    pub came: bool,
    /// Whether it is suspended: nothing is judged of it, because the host may have acted on a
    /// command that was not observed.
    pub suspended: bool,
    /// The messages its sender may still send: exact for the host, an upper bound for the peer.
    pub messages: u32,
    /// The bits its sender may still send, likewise.
    pub bits: u32,
    /// Whether a GVB of its receiver has no RET yet.
    pub recall: bool,
    /// The number of the record that began it.
    pub since: u32,
}

/// What a fact is about.
#[derive(Clone, Copy, Debug, Drop, PartialEq, Eq)]
pub enum FactKind {
    /// A link on which the host (or the peer) receives is suspended: a connection that was not
    /// observed may use it.
    LinkSuspended { host: bool, link: u8 },
    /// Nothing is judged of the echoes that the host (or the peer) asks for: an ERP may have
    /// answered an ECO that was not observed.
    EchoesRest { host: bool },
    /// An ECO of the host (or the peer) has no ERP yet.
    Asks { host: bool },
    /// The host (or the peer) may send an ERR with these bytes about a text.
    Admits { host: bool, bytes: [u8; ERROR_DATA] },
}

impl FactKind {
    /// Whether nothing is judged of a link, or of the echoes of one of the two.
    pub(crate) fn is_of_suspension(self) -> bool
        ensures { result ≡ is_of_suspension self }
    {
        match self {
            FactKind::LinkSuspended { .. } | FactKind::EchoesRest { .. } => true,
            FactKind::Asks { .. } | FactKind::Admits { .. } => false,
        }
    }
}

/// A fact about two hosts, as observed at the interface of one.
#[derive(Clone, Copy, Debug, Drop, PartialEq, Eq)]
pub struct Fact {
    /// The host at whose interface it is observed.
    pub at: u8,
    /// The peer.
    pub peer: u8,
    /// The fact.
    pub fact_kind: FactKind,
}

impl ConnState {
    /// A connection that neither side has asked for.
    pub(crate) fn new(at: u8, peer: u8, local: u32, remote: u32) -> ConnState
        ensures { result ≡ unasked_conn at peer local remote }
    {
        ConnState {
            at,
            peer,
            local,
            remote,
            link: None,
            size: None,
            host_left: false,
            peer_left: false,
            came: false,
            suspended: false,
            messages: 0,
            bits: 0,
            recall: false,
            since: 0,
        }
    }

    /// Whether it is the connection of these hosts and sockets.
    pub(crate) fn is_pair(&self, at: u8, peer: u8, local: u32, remote: u32) -> bool
        ensures { result ≡ is_of_sockets at peer local remote self.now }
    {
        self.local == local && self.remote == remote && self.at == at && self.peer == peer
    }

    /// Whether it is a connection of these hosts that is suspended.
    pub(crate) fn is_suspended_between(&self, at: u8, peer: u8) -> bool
        ensures { result ≡ is_suspended_conn at peer self.now }
    {
        self.at == at && self.peer == peer && self.suspended
    }

    /// Whether it has this link, with the host (or the peer) as its receiver.
    pub(crate) fn is_used(&self, at: u8, peer: u8, host: bool, link: u8) -> bool
        ensures { result ≡ has_link at peer host link self.now }
    {
        is_given(self.link, link)
            && self.at == at
            && self.peer == peer
            && is_senders(self.local) != host
    }

    /// Whether the host (or the peer) has sent its CLS.
    pub(crate) fn has_left(&self, sent: bool) -> bool
        ensures { result ≡ has_sent_cls self.now sent }
    {
        if sent { self.host_left } else { self.peer_left }
    }

    /// The connection after a CLS of the host (or the peer).
    pub(crate) fn with_left(self, sent: bool) -> ConnState
        ensures { result ≡ with_cls_sent self sent }
    {
        if sent {
            ConnState {
                host_left: true,
                ..self
            }
        } else {
            ConnState {
                peer_left: true,
                ..self
            }
        }
    }

    /// Whether the side that makes such a request has already made one.
    pub(crate) fn has_asked(&self, request: Request) -> bool
        ensures { result ≡ has_sent_request self.now request }
    {
        match request {
            Request::Link(_) => self.link.is_some(),
            Request::Size(_) => self.size.is_some(),
        }
    }

    /// The connection after a request.
    pub(crate) fn with_request(self, request: Request) -> ConnState
        ensures { result ≡ with_request_sent self request }
    {
        match request {
            Request::Link(link) => ConnState {
                link: Some(link),
                ..self
            },
            Request::Size(size) => ConnState {
                size: Some(size),
                ..self
            },
        }
    }
}

impl Fact {
    /// Whether it is this fact about these hosts.
    pub(crate) fn is_topic(&self, at: u8, peer: u8, fact_kind: FactKind) -> bool
        ensures { result ≡ is_topic at peer fact_kind self.now }
    {
        self.at == at && self.peer == peer && self.fact_kind == fact_kind
    }

    /// Whether it suspends a link between these hosts, or the echoes of one of them.
    pub(crate) fn is_suspension(&self, at: u8, peer: u8) -> bool
        ensures { result ≡ is_suspension at peer self.now }
    {
        self.at == at && self.peer == peer && self.fact_kind.is_of_suspension()
    }

    /// Whether it admits an ERR of the host about a text.
    pub(crate) fn is_admission(&self, at: u8, peer: u8) -> bool
        ensures { result ≡ is_admission at peer self.now }
    {
        self.at == at
            && self.peer == peer
            && match self.fact_kind {
                FactKind::Admits { host, .. } => host,
                _ => false,
            }
    }
}

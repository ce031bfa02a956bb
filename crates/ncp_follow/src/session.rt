//! `Session`: two hosts, as observed at the interface of one.
ghost use Rattle.std.specs.Prelude.{◌≡◌};
ghost use Rattle.ncp_follow.specs.Sessions.{new_session, is_between, is_heard, session_after_reset, session_after_reply, with_stray};

use crate::amount::SaturatingAmount;

/// Two hosts, as observed at the interface of one: whether they are up with each other, and the
/// texts outside of listed connections.
#[derive(Clone, Copy, Debug, Drop, PartialEq, Eq)]
pub struct Session {
    /// The host at whose interface they are observed.
    pub at: u8,
    /// The peer.
    pub peer: u8,
    /// Whether an RST or an RRP of the host was observed.
    pub host_began: bool,
    /// Whether an RST or an RRP of the peer was observed.
    pub peer_began: bool,
    /// Whether the host awaits an RRP of the peer.
    pub host_waits: bool,
    /// Whether the peer awaits an RRP of the host.
    pub peer_waits: bool,
    /// The texts that the host sent outside of connections.
    pub sent: SaturatingAmount,
    /// The texts that it received outside of connections.
    pub came: SaturatingAmount,
}

impl Session {
    // Nothing observed. In a partial capture (`part`) both have begun.
    pub(crate) fn new(part: bool, at: u8, peer: u8) -> Session
        ensures { result ≡ new_session part at peer }
    {
        Session {
            at,
            peer,
            host_began: part,
            peer_began: part,
            host_waits: false,
            peer_waits: false,
            sent: SaturatingAmount::nothing(),
            came: SaturatingAmount::nothing(),
        }
    }

    // Whether it is the session of these hosts.
    pub(crate) fn is_between(&self, at: u8, peer: u8) -> bool
        ensures { result ≡ is_between at peer self.now }
    {
        self.at == at && self.peer == peer
    }

    // Whether the commands and texts of a side count.
    pub(crate) fn is_heard(self, sent: bool) -> bool
        ensures { result ≡ is_heard self sent }
    {
        let began = if sent {
            self.host_began
        } else {
            self.peer_began
        };
        began && !self.host_waits && !self.peer_waits
    }

    // The session after an RST of a side.
    pub(crate) fn after_reset(self, sent: bool) -> Session
        ensures { result ≡ session_after_reset self sent }
    {
        if sent {
            Session {
                host_began: true,
                host_waits: true,
                ..self
            }
        } else {
            Session {
                peer_began: true,
                peer_waits: true,
                ..self
            }
        }
    }

    // The session after an RRP of a side.
    pub(crate) fn after_reply(self, sent: bool) -> Session
        ensures { result ≡ session_after_reply self sent }
    {
        if sent {
            Session {
                host_began: true,
                peer_waits: false,
                ..self
            }
        } else {
            Session {
                peer_began: true,
                host_waits: false,
                ..self
            }
        }
    }

    // The session after a text of `bits` bits outside of connections.
    pub(crate) fn with_stray(self, sent: bool, bits: u32) -> Session
        ensures { result ≡ with_stray self sent bits }
    {
        if sent {
            Session {
                sent: self.sent.more(1, bits),
                ..self
            }
        } else {
            Session {
                came: self.came.more(1, bits),
                ..self
            }
        }
    }
}

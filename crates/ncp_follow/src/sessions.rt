//! `Sessions`: the session of each pair of hosts.
ghost use Rattle.std.specs.Prelude.{◌≡◌, ◌<◌, [], length, IfOk, IfSome};
ghost use Rattle.std.specs.List.{position};
ghost use Rattle.ncp_follow.specs.Sessions.{is_between, session_at, session_of, put_session, with_session, new_session};

use crate::session::Session;
use std::alloc::{AllocError, Global};
use std::marker::Model;

/// The most pairs of hosts that are followed.
pub const MAX_SESSIONS: usize = 1024;

/// The session of each pair of hosts, in the order of their first messages. Creation allocates all
/// their room.
#[derive(Drop)]
pub struct Sessions {
    all: Vec<Session>,
}

impl Model for Sessions {
    ghost use Rattle.std.specs.Prelude.{◌≤◌, List};
    ghost use Rattle.std.specs.Vec.{vec_capacity};
    ghost use Rattle.ncp_follow.specs.declared.session.Session.{Session};
    ghost use Rattle.ncp_follow.specs.declared.sessions.TheConstants.{MAX_SESSIONS};

    ghost Value = { List Session };

    ghost view = { λ sessions. sessions.all.items };

    ghost invariant = { λ sessions. MAX_SESSIONS ≤ vec_capacity sessions.all };
}

// The index of the first session of these hosts.
fn place_in(sessions: &[Session], at: u8, peer: u8) -> Option<usize>
    ensures index { result ≡ position (is_between at peer) sessions.now }
    ensures inside { IfSome result (λ place. place < length sessions.now) }
{
    sessions.iter().position(|one| one.is_between(at, peer))
}

impl Sessions {
    /// No session. Only this function allocates, once.
    pub(crate) fn new(alloc: Global) -> Result<Sessions, AllocError>
        ensures { IfOk result (λ sessions. sessions ≡ []) }
    {
        Ok(Sessions {
            all: Vec::with_capacity(alloc, MAX_SESSIONS)?,
        })
    }

    /// All sessions.
    pub(crate) fn as_slice(&self) -> &[Session]
        ensures { result.now ≡ self.now }
    {
        self.all.as_slice()
    }

    /// The session of a host with a peer.
    pub(crate) fn of(&self, part: bool, at: u8, peer: u8) -> Session
        ensures { result ≡ session_of part self.now at peer }
    {
        match place_in(self.all.as_slice(), at, peer) {
            Some(place) => self.all[place],
            None => Session::new(part, at, peer),
        }
    }

    // Replaces the session at an index; without one, appends it if there is room.
    fn put(&mut self, place: Option<usize>, session: Session)
        requires { IfSome place (λ p. p < length self.old) }
        ensures { self.new ≡ put_session self.old place session }
    {
        match place {
            Some(place) => self.all[place] = session,
            None => {
                if self.all.len() < MAX_SESSIONS {
                    self.all.push_reserved(session);
                }
            }
        }
    }

    /// Stores a session. Drops it if there are [`MAX_SESSIONS`] others.
    pub(crate) fn set(&mut self, session: Session)
        ensures { self.new ≡ with_session self.old session }
    {
        let place = place_in(self.all.as_slice(), session.at, session.peer);
        self.put(place, session);
    }
}

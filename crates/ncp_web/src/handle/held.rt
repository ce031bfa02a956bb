//! The session of a handle.
use crate::stage::SessionHosts;

/// A session: hosts that are played line by line.
#[derive(Drop)]
pub struct BoxedSession {
    pub stage: SessionHosts,
}

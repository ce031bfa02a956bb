//! `ManyEvent`.
ghost use Rattle.std.specs.Prelude.{◌≡◌, true, IfOk, OnErr};
ghost use Rattle.ncp_transcript_many.specs.ManyHappening.{is_giving};

use ncp_transcript::Call;
use std::alloc::{AllocError, Global};

/// One event among two to eight hosts, which are named by their numbers. For a message, `from` is
/// the sender.
#[derive(Debug, Drop)]
pub enum ManyEvent {
    /// A user of a host calls.
    Call { host: u8, call: Call },
    /// The subnet asks a host for its next message, and accepts it.
    Out { host: u8 },
    /// The subnet delivers the message of a link to its destination.
    Deliver { from: u8, to: u8, link: u8 },
    /// The subnet loses the message of a link.
    Lose { from: u8, to: u8, link: u8 },
    /// The subnet finds the destination of the message of a link dead.
    Dead { from: u8, to: u8, link: u8 },
    /// The subnet returns the answer to the sender of the message of a link.
    Answer { from: u8, to: u8, link: u8 },
}

impl ManyEvent {
    /// Copies the event. Allocates only for the text that a call gives.
    pub fn copied(&self, alloc: Global) -> Result<ManyEvent, AllocError>
        ensures event { IfOk result (λ event. event ≡ self.now) }
        ensures memory { OnErr result (is_giving self.now ≡ true) }
    {
        Ok(match *self {
            ManyEvent::Call { host, ref call } => ManyEvent::Call {
                host,
                call: call.copied(alloc)?,
            },
            ManyEvent::Out { host } => ManyEvent::Out { host },
            ManyEvent::Deliver { from, to, link } => ManyEvent::Deliver { from, to, link },
            ManyEvent::Lose { from, to, link } => ManyEvent::Lose { from, to, link },
            ManyEvent::Dead { from, to, link } => ManyEvent::Dead { from, to, link },
            ManyEvent::Answer { from, to, link } => ManyEvent::Answer { from, to, link },
        })
    }
}

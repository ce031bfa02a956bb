//! `Event`.
use crate::side::Side;
use ncp_transcript::Call;

/// One event in a world. For a message, `side` is the sender's.
#[derive(Debug, Drop)]
pub enum Event {
    /// A user of a host calls.
    Call { side: Side, call: Call },
    /// The subnet asks a host for its next message, and accepts it.
    Out { side: Side },
    /// The subnet delivers the message of a link to its destination.
    Deliver { side: Side, link: u8 },
    /// The subnet loses the message of a link.
    Lose { side: Side, link: u8 },
    /// The subnet finds the destination of the message of a link dead.
    Dead { side: Side, link: u8 },
    /// The subnet returns the answer to the sender of the message of a link.
    Answer { side: Side, link: u8 },
}

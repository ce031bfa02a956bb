//! `SubnetFault`.

use thiserror::Error;

/// Why the subnet does not accept a message, in the order of the checks (this profile's).
#[derive(Clone, Copy, Debug, Drop, PartialEq, Eq, Error)]
pub enum SubnetFault {
    /// Shorter than a leader, or not of type 0.
    #[error("no regular message")]
    NotRegular = 1,
    /// The sender and the destination are not two hosts of the subnet.
    #[error("not from one host of the subnet to another")]
    NoHost = 2,
    /// The last message on this link is not answered yet.
    #[error("the last message on this link is not answered yet")]
    Occupied = 3,
}

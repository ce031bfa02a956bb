//! `Sent`.

/// A message that was sent. The host keeps it for this peer on this link until it is taken.
#[derive(Clone, Copy, Debug, Drop, PartialEq, Eq)]
pub struct Sent {
    /// The number of the peer.
    pub peer: u8,
    /// The link.
    pub link: u8,
}

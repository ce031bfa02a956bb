//! `ObservedLink`: a link between two hosts.

/// A link between two hosts, as observed at the interface of one.
#[derive(Clone, Copy, Drop)]
pub struct ObservedLink {
    /// The host at whose interface it is observed.
    pub at: u8,
    /// The peer.
    pub peer: u8,
    /// The link.
    pub link: u8,
}

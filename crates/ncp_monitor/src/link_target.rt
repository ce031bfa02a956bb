//! `ReceiveLink`: a link, identified by its receiver; and `LinkTarget`: what a link identifies.

/// A link on which the host (or the peer) receives.
#[derive(Clone, Copy, Debug, Drop, PartialEq, Eq)]
pub struct ReceiveLink {
    /// Whether the host receives on it.
    pub host: bool,
    /// The link.
    pub link: u8,
}

/// The target of a text, or of a command that names a link.
#[derive(Clone, Copy, Debug, Drop, PartialEq, Eq)]
pub enum LinkTarget {
    /// The link is suspended: nothing is judged of it.
    Rests,
    /// No connection has the link.
    Nobody,
    /// The source closed the connection with the link.
    Closed,
    /// Not both sides have asked for the connection at this index.
    Unasked(usize),
    /// The connection at this index is open.
    Open(usize),
}

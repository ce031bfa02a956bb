//! `Observation`: a message between two hosts, as observed at the interface of one.

/// A message between two hosts, as observed at the interface of one.
#[derive(Clone, Copy, Debug, Drop, PartialEq, Eq)]
pub struct Observation {
    /// The number of its record.
    pub number: u32,
    /// The host at whose interface it is observed.
    pub at: u8,
    /// The peer.
    pub peer: u8,
    /// Whether that host sent it.
    pub sent: bool,
}

//! The limits of a host.

/// The greatest number of peers of a host.
pub const MAX_PEERS: usize = 8;

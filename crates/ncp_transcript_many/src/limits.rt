//! The number of hosts.

/// The maximum number of hosts.
pub const MAX_HOSTS: usize = 8;

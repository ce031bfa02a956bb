//! Counts of received messages that belong to no peer.
ghost use Rattle.std.specs.Prelude.{◌≡◌};
ghost use Rattle.ncp_host.specs.Ignoring.{none_ignored};

/// Counts of received messages that belong to no peer.
#[derive(Clone, Copy, Debug, Drop, PartialEq, Eq)]
pub struct Ignored {
    /// Fewer than 32 bits.
    pub short: u32,
    /// Of a type that the host does not handle.
    pub other: u32,
    /// From a host that is no peer.
    pub unknown: u32,
}

impl Ignored {
    /// All counts are 0.
    pub(crate) fn none() -> Self
        ensures { result ≡ none_ignored }
    {
        Ignored {
            short: 0,
            other: 0,
            unknown: 0,
        }
    }
}

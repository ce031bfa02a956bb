//! The counts of a host.
ghost use Rattle.std.specs.Prelude.{◌≡◌};
ghost use Rattle.ncp_peer.specs.Counting.{one_more, no_counts};

/// Counts of what was received from one peer. Each count stays at its maximum.
#[derive(Clone, Copy, Debug, Drop, PartialEq, Eq)]
pub struct Counts {
    /// Answers on links with nothing unanswered, RRPs that the host did not expect, and ERPs that
    /// answered no echo.
    pub stray: u32,
    /// Messages of type 0 that are not regular messages.
    pub faults: u32,
    /// Regular messages on link 1 or on links over 71.
    pub wrong_link: u32,
    /// Control messages whose byte size is not 8, and texts whose byte size is not that of their
    /// connection.
    pub wrong_size: u32,
    /// Texts, commands other than RST and RRP, and faults of control texts while the host was not
    /// up.
    pub not_up: u32,
    /// Texts, and commands that name a link, for an endpoint that is leaving or left.
    pub late: u32,
    /// Texts that exceed the allocation.
    pub over: u32,
}

/// The count plus one, or unchanged at its maximum.
pub fn one_more(count: u32) -> u32
    ensures { result ≡ one_more count }
{
    count.saturating_add(1)
}

impl Counts {
    /// All counts are 0.
    pub(crate) fn none() -> Self
        ensures { result ≡ no_counts }
    {
        Counts {
            stray: 0,
            faults: 0,
            wrong_link: 0,
            wrong_size: 0,
            not_up: 0,
            late: 0,
            over: 0,
        }
    }
}

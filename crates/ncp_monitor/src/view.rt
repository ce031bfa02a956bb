//! `View`: what one host's interface shows of its phase with another host.
ghost use Rattle.std.specs.Prelude.{◌≡◌, false, true};
ghost use Rattle.ncp_monitor.specs.Resets.{has_begun};
ghost use Rattle.ncp_monitor.specs.Views.{new_side, first_wait, new_host_side, new_view, awaits_reply, is_answered_too_often, more_waiting, less_waiting, one_less};

/// How many RRPs of the other side are awaited. An RST of this side adds one, an RRP of the other
/// subtracts one.
#[derive(Clone, Copy, Debug, Drop, PartialEq, Eq)]
pub enum Wait {
    /// Minus one: an RRP arrived for which no RST had been sent.
    Answered,
    /// No RRP is awaited.
    Even,
    /// One RRP is awaited.
    Waiting,
}

impl Wait {
    /// Whether an RRP is awaited.
    pub fn is_waiting(self) -> bool
        ensures { result ≡ awaits_reply self }
    {
        match self {
            Wait::Waiting => true,
            Wait::Even | Wait::Answered => false,
        }
    }

    /// Whether an RRP arrived for which no RST had been sent.
    pub(crate) fn is_answered(self) -> bool
        ensures { result ≡ is_answered_too_often self }
    {
        match self {
            Wait::Answered => true,
            Wait::Even | Wait::Waiting => false,
        }
    }

    /// After an RST of this side. The count is at most one.
    pub(crate) fn more(self) -> Wait
        ensures { result ≡ more_waiting self }
    {
        match self {
            Wait::Answered => Wait::Even,
            Wait::Even | Wait::Waiting => Wait::Waiting,
        }
    }

    /// After an RRP of the other side. The count is at least minus one.
    pub(crate) fn less(self) -> Wait
        ensures { result ≡ less_waiting self }
    {
        match self {
            Wait::Waiting => Wait::Even,
            Wait::Even | Wait::Answered => Wait::Answered,
        }
    }
}

/// The observed phase of one of two hosts.
#[derive(Clone, Copy, Debug, Drop, PartialEq, Eq)]
pub struct ObservedPhase {
    /// Whether an RST or an RRP of it was observed.
    pub began: bool,
    /// Whether it awaits an RRP.
    pub wait: Wait,
    /// How many RSTs of the other it has not answered. Saturates: at the largest number it no
    /// longer decreases.
    pub asked: u32,
    /// Whether one RRP is admitted that no RST asked for, as in a capture that begins in the
    /// middle.
    pub admits: bool,
}

/// What one host's interface shows of the host and a peer.
#[derive(Clone, Copy, Debug, Drop, PartialEq, Eq)]
pub struct View {
    /// The host at whose interface it is observed.
    pub host: ObservedPhase,
    /// The peer.
    pub peer: ObservedPhase,
    /// Whether the host owes an RRP.
    pub owes: bool,
    /// Whether a data link of the host was busy when the RST arrived for which it owes the RRP.
    pub first: bool,
    /// Whether the host broke a rule that makes its next reset less conclusive, or sent an RST after
    /// an RRP for which none had been sent: then it is not known whether it awaits another.
    pub desynced: bool,
    /// Whether the session is suspended: a host acted on something the other had not shown, so the
    /// wire does not show what it did.
    pub suspended: bool,
    /// Whether the host acted on something of the peer while it owed an RRP, which it has not sent
    /// since.
    pub acted: bool,
    /// Whether two messages of the host were outstanding at once on one link. From then on the
    /// peer's interface does not show what the subnet did with the host's messages.
    pub overlapped: bool,
    /// Whether the phase is judged. In a capture that begins in the middle, it is not before the
    /// first reset.
    pub told: bool,
    /// Whether a link without observed messages is known to have none outstanding.
    pub known: bool,
}

// A side of which nothing was observed.
fn new_side(part: bool) -> ObservedPhase
    ensures { result ≡ new_side part }
{
    ObservedPhase {
        began: part,
        wait: Wait::Even,
        asked: 0,
        admits: part,
    }
}

// Whether the host awaits an RRP. In a partial capture an RRP may already have arrived for an RST
// that is still queued.
fn first_wait(part: bool) -> Wait
    ensures { result ≡ first_wait part }
{
    if part { Wait::Answered } else { Wait::Even }
}

// The host at whose interface it is observed, of which nothing was observed yet.
fn new_host(part: bool) -> ObservedPhase
    ensures { result ≡ new_host_side part }
{
    ObservedPhase {
        wait: first_wait(part),
        ..new_side(part)
    }
}

impl View {
    /// Both hosts are down and no message is outstanding. In a partial capture (`part`) nothing is
    /// known.
    pub(crate) fn new(part: bool) -> View
        ensures { result ≡ new_view part }
    {
        View {
            host: new_host(part),
            peer: new_side(part),
            owes: false,
            first: false,
            desynced: false,
            suspended: false,
            acted: false,
            overlapped: false,
            told: !part,
            known: !part,
        }
    }
}

impl View {
    /// Whether an RST or an RRP of one of the two was observed.
    pub(crate) fn has_begun(&self) -> bool
        ensures { result ≡ has_begun self.now }
    {
        self.host.began || self.peer.began
    }
}

/// The unanswered RSTs after an RRP, unless the count is saturated.
pub(crate) fn one_less(asked: u32) -> u32
    ensures { result ≡ one_less asked }
{
    if asked == u32::MAX {
        asked
    } else {
        asked.saturating_sub(1)
    }
}

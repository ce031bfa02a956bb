//! `Doubt`: what the wire no longer shows of a message.
ghost use Rattle.std.specs.Prelude.{◌≡◌};
ghost use Rattle.ncp_interface.specs.Doubts.{awaits_repeat, may_arrive_again, is_certain, doubt_after_out, doubt_after_refusal, doubt_left};

/// What the wire no longer shows of a message that was outstanding, after its IMP was reset or
/// refused it.
#[derive(Clone, Copy, Debug, Drop, PartialEq, Eq)]
pub enum Doubt {
    /// Nothing: no such thing happened.
    None,
    /// The IMP refused it (a message of type 8): the host may send it again.
    Refused,
    /// The interface of the host that sent it was reset (type 10): the host may send it again, and
    /// a copy of it may still arrive. Also if it was refused and a copy of it may still arrive.
    Forgotten,
    /// A copy of it may still arrive: it was sent again after such a reset, or it was outstanding to
    /// the host whose interface was reset.
    Copied,
}

impl Doubt {
    /// Whether the message may be sent again, though no answer came.
    pub fn awaits_repeat(self) -> bool
        ensures { result ≡ awaits_repeat self }
    {
        match self {
            Doubt::Refused | Doubt::Forgotten => true,
            Doubt::None | Doubt::Copied => false,
        }
    }

    /// Whether a copy of the message may still arrive.
    pub fn may_arrive_again(self) -> bool
        ensures { result ≡ may_arrive_again self }
    {
        match self {
            Doubt::Forgotten | Doubt::Copied => true,
            Doubt::None | Doubt::Refused => false,
        }
    }

    /// The doubt after the IMP refused the message: if a copy of it may still arrive, that stays so.
    pub(crate) fn after_refusal(self) -> Doubt
        ensures { result ≡ doubt_after_refusal self }
    {
        if self.may_arrive_again() {
            Doubt::Forgotten
        } else {
            Doubt::Refused
        }
    }

    // Whether nothing is in doubt.
    fn is_certain(self) -> bool
        ensures { result ≡ is_certain self }
    {
        match self {
            Doubt::None => true,
            Doubt::Refused | Doubt::Forgotten | Doubt::Copied => false,
        }
    }

    // The doubt after the host sends on the link: of a forgotten message two copies may be under
    // way.
    fn after_out(self) -> Doubt
        ensures { result ≡ doubt_after_out self }
    {
        match self {
            Doubt::Forgotten | Doubt::Copied => Doubt::Copied,
            Doubt::None | Doubt::Refused => Doubt::None,
        }
    }

    /// The doubt about a message that the host sends, if there was one about the last message on its
    /// link.
    pub fn left_by_out(self) -> Option<Doubt>
        ensures { result ≡ doubt_left self }
    {
        if self.is_certain() {
            None
        } else {
            Some(self.after_out())
        }
    }
}

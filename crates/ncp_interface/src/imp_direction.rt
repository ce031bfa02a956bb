//! `ImpDirection`: the direction of a message.
ghost use Rattle.std.specs.Prelude.{◌≡◌};
ghost use Rattle.ncp_interface.specs.Events.{way_of};

/// The direction of a message at a host's interface.
#[derive(Clone, Copy, Debug, Drop, PartialEq, Eq)]
pub enum ImpDirection {
    /// From the host to its IMP.
    ToImp,
    /// From the IMP to the host.
    FromImp,
}

impl ImpDirection {
    /// The direction of a message that the host sent, or received.
    pub fn of(sent: bool) -> ImpDirection
        ensures { result ≡ way_of sent }
    {
        if sent {
            ImpDirection::ToImp
        } else {
            ImpDirection::FromImp
        }
    }
}

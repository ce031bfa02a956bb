//! `Pair`.
ghost use Rattle.std.specs.Prelude.{◌≡◌};
ghost use Rattle.ncp_model.specs.Pairs.{sends, receives, is_proper, counterpart};

/// A connection as one host names it: its own socket, then the peer's. An even socket receives, an
/// odd one sends.
#[derive(Clone, Copy, Debug, Drop, PartialEq, Eq)]
pub struct Pair {
    /// This host's socket.
    pub local: u32,
    /// The peer's socket.
    pub remote: u32,
}

impl Pair {
    /// The connection of the socket `local` here with the socket `remote` at the peer.
    pub const fn new(local: u32, remote: u32) -> Self
        ensures here { result.local ≡ local }
        ensures there { result.remote ≡ remote }
    {
        Pair { local, remote }
    }

    /// Whether this host is the sender.
    pub fn sends(&self) -> bool
        ensures { result ≡ sends self.now }
    {
        self.local % 2 == 1 && self.remote % 2 == 0
    }

    /// Whether this host is the receiver.
    pub fn receives(&self) -> bool
        ensures { result ≡ receives self.now }
    {
        self.local % 2 == 0 && self.remote % 2 == 1
    }

    /// Whether one socket sends and the other receives.
    pub fn is_proper(&self) -> bool
        ensures { result ≡ is_proper self.now }
    {
        self.sends() || self.receives()
    }

    /// The connection as the peer names it.
    pub const fn counterpart(&self) -> Self
        ensures { result ≡ counterpart self.now }
    {
        Pair {
            local: self.remote,
            remote: self.local,
        }
    }
}

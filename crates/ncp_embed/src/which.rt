//! Identifying a connection for C.
ghost use Rattle.std.specs.Prelude.{◌≡◌};
ghost use Rattle.ncp_embed.specs.Which.{pair_meant};

use ncp_model::Pair;

/// Identifies a connection: by the peer, and the sockets here and there.
#[repr(C)]
#[derive(Clone, Copy, Drop)]
pub struct ConnectionId {
    pub peer: u8,
    pub local: u32,
    pub remote: u32,
}

impl ConnectionId {
    pub(crate) fn pair(&self) -> Pair
        ensures { result ≡ pair_meant self.now }
    {
        Pair::new(self.local, self.remote)
    }
}

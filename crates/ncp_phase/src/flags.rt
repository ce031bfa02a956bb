//! `Flags`.
ghost use Rattle.std.specs.Prelude.{◌≡◌, not, ◌||◌};

/// A host's flags for one peer. Each peer starts with `down` alone.
#[derive(Clone, Copy, Debug, Drop, PartialEq, Eq)]
pub struct Flags {
    /// Since the start, or since it went down, the host has made neither an RST nor an RRP.
    pub down: bool,
    /// An RST is to be made, once the data links are quiet.
    pub want: bool,
    /// An RRP is to be made, once the data links are quiet.
    pub owe: bool,
    /// An RST was made, and its RRP has not arrived.
    pub wait: bool,
}

impl Flags {
    /// Whether the host is up with the peer: no flag is set.
    pub fn up(&self) -> bool
        ensures { result ≡ not (self.now.down || self.now.want || self.now.owe || self.now.wait) }
    {
        !(self.down || self.want || self.owe || self.wait)
    }
}

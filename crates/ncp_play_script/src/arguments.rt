//! The arguments of calls.
ghost use Rattle.std.specs.Prelude.{◌≡◌, option_map};
ghost use Rattle.ncp_play_script.specs.Arguments.{peer_first, pair_first};

use crate::line_words::Words;
use ncp_model::Pair;

impl<'a> Words<'a> {
    /// The peer of a call: the given peer, for which no word is read, or the next word. On `None`
    /// the remaining words are unspecified.
    pub fn next_peer(&mut self, given: Option<u8>) -> Option<u8>
        ensures { option_map (λ peer. (peer, self.new)) result ≡ peer_first given self.old }
    {
        if given.is_some() {
            return given;
        }
        self.next_u8()
    }

    /// The pair of a call: the local and the remote socket. On `None` the remaining words are
    /// unspecified.
    pub fn next_pair(&mut self) -> Option<Pair>
        ensures { option_map (λ pair. (pair, self.new)) result ≡ pair_first self.old }
    {
        let local = self.next_u32()?;
        let remote = self.next_u32()?;
        Some(Pair { local, remote })
    }
}

//! The first line of a one-host script.
ghost use Rattle.std.specs.Prelude.{◌≡◌, ℕ, List, ◌||◌, false};
ghost use Rattle.ncp_play_stream.specs.Streams.{RemainingInput};
ghost use Rattle.ncp_play_notes.specs.Faults.{play_read_failed, play_write_failed};
ghost use Rattle.ncp_play_host.specs.Beginning.{IsHostOf, HostBegins};

use ncp_bits::BitStore;
use ncp_host::HostFault;
use ncp_play_notes::PlayFault;
use ncp_play_reader::{Lines, NextLine, next_played};
use ncp_play_script::{HostAndPeers, Words, host_named};
use ncp_play_stream::Source;
use ncp_transcript::Alone;
use std::alloc::Global;

// Creates the host that the words of a first line name. Also returns its number and its peers.
fn host_of_words<S: BitStore>(
    alloc: Global,
    words: &mut Words<'_>,
) -> Result<(Alone<S>, HostAndPeers), PlayFault>
    ensures output { IsHostOf words.old result }
    ensures read { play_read_failed result ≡ false }
    ensures write { play_write_failed result ≡ false }
{
    let Some(hosts) = host_named(words) else {
        return Err(PlayFault::BadHosts);
    };
    match Alone::new(alloc, hosts.me, hosts.peers.as_slice()) {
        Ok(alone) => Ok((alone, hosts)),
        Err(HostFault::BadPeers) => Err(PlayFault::BadHosts),
        Err(HostFault::OutOfMemory) => Err(PlayFault::OutOfMemory),
    }
}

/// Reads the first line of a script and creates the host that it names. Also returns its number and
/// its peers, and whether an LF ended the line; if not, it is the last.
pub(crate) fn begin<S: BitStore, R: Source>(
    alloc: Global,
    lines: &mut Lines,
    source: &mut R,
) -> Result<(Alone<S>, HostAndPeers, bool), PlayFault>
    requires { lines.old.number ≡ 1 }
    ensures output { (bytes : List ℕ)
        → RemainingInput lines.old.window (R.left source.old) bytes → HostBegins bytes result lines.new (R.left source.new) }
    ensures mark { R.has_failed source.new ≡ (R.has_failed source.old || play_read_failed result) }
    ensures other { play_write_failed result ≡ false }
{
    match next_played(lines, source) {
        Ok(NextLine::Over) => Err(PlayFault::BadHosts),
        Ok(NextLine::TooLong(number)) => Err(PlayFault::LineTooLong(number)),
        Ok(NextLine::Played { ended, .. }) => {
            let mut words = Words::new(lines.line.text(ended));
            let (alone, hosts) = host_of_words(alloc, &mut words)?;
            Ok((alone, hosts, ended))
        }
        Err(_) => Err(PlayFault::ReadFailed),
    }
}

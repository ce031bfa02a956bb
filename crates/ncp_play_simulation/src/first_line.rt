//! Reads a script's first line.
ghost use Rattle.std.specs.Prelude.{◌≡◌, ◌||◌, ℕ, List, false};
ghost use Rattle.ncp_play_stream.specs.Streams.{RemainingInput};
ghost use Rattle.ncp_play_notes.specs.Faults.{play_read_failed, play_write_failed};
ghost use Rattle.ncp_play_simulation.specs.NextEvents.{FindsFirst};

use ncp_play_notes::PlayFault;
use ncp_play_reader::{Lines, NextLine, next_played};
use ncp_play_stream::Source;

/// Reads the first line that is not skipped into `lines.line`, and returns whether an LF ended it.
/// Returns `BadHosts` if there is no such line.
pub fn find_first<R: Source>(lines: &mut Lines, source: &mut R) -> Result<bool, PlayFault>
    ensures output { (bytes : List ℕ)
        → RemainingInput lines.old.window (R.left source.old) bytes
        → FindsFirst lines.old.number bytes result lines.new (R.left source.new) }
    ensures mark { R.has_failed source.new ≡ (R.has_failed source.old || play_read_failed result) }
    ensures unblamed { play_write_failed result ≡ false }
{
    match next_played(lines, source) {
        Ok(NextLine::Played { ended, .. }) => Ok(ended),
        Ok(NextLine::TooLong(number)) => Err(PlayFault::LineTooLong(number)),
        Ok(NextLine::Over) => Err(PlayFault::BadHosts),
        Err(_) => Err(PlayFault::ReadFailed),
    }
}

//! The next line of a one-host script, parsed.
ghost use Rattle.std.specs.Prelude.{◌≡◌, ℕ, List, ◌||◌, IfOk, true, false};
ghost use Rattle.ncp_play_reader.specs.LentScripts.{SameScript, ScriptBrings, ReadsOn, script_left, is_cut_off};
ghost use Rattle.ncp_play_notes.specs.Faults.{play_read_failed, play_write_failed};
ghost use Rattle.ncp_play_host.specs.Asking.{IsPlayedAs, AsksNext, has_more_after};
ghost use Rattle.ncp_play_script.specs.Scripts.{Line, EventPlan};
ghost use Rattle.ncp_play_script.specs.declared.host_lines.HostEvent.{HostEvent as Asks};

use ncp_play_notes::PlayFault;
use ncp_play_reader::{NextLine, Script, next_played};
use ncp_play_script::{HostEvent, HostLine, Words, host_line};
use ncp_play_stream::Source;
use std::alloc::Global;

/// The meaning of the next line.
#[derive(Drop)]
pub(crate) enum NextAsked {
    /// No line is left.
    Over,
    /// A `feed`: the bytes after the line are a message file.
    FeedAfter,
    /// An event. If no LF `ended` the line, it is the last.
    Does { event: HostEvent, ended: bool },
}

// Parses the words of a line, for a host with these peers.
fn asked_by_words(
    alloc: Global,
    peers: &[u8],
    words: &mut Words<'_>,
    number: u32,
    ended: bool,
) -> Result<NextAsked, PlayFault>
    ensures output { (line : Line) (course : EventPlan Asks)
        → line.ended ≡ ended → IsPlayedAs peers.now number line words.old course result }
    ensures ended { IfOk result (λ next. has_more_after next ≡ true → ended ≡ true) }
    ensures read { play_read_failed result ≡ false }
    ensures write { play_write_failed result ≡ false }
{
    match host_line(alloc, words, peers) {
        Ok(Some(HostLine::Event(event))) => Ok(NextAsked::Does { event, ended }),
        Ok(Some(HostLine::Feed)) if ended => Ok(NextAsked::FeedAfter),
        Ok(_) => Err(PlayFault::BadLine(number)),
        Err(_) => Err(PlayFault::OutOfMemory),
    }
}

/// Reads and parses the next line that is not skipped, for a host with these peers.
pub(crate) fn next_asked<S: Source>(
    alloc: Global,
    peers: &[u8],
    script: &mut Script<'_, S>,
) -> Result<NextAsked, PlayFault>
    ensures output { (bytes : List ℕ)
        → ScriptBrings S.Source script.old bytes
        → AsksNext peers.now script.old.lines.now.number bytes result script.new.lines.now (script_left S.Source script.new) }
    ensures read_measure { IfOk result (λ next. has_more_after next ≡ true → ReadsOn S.Source script.old script.new) }
    ensures mark { is_cut_off S.Source script.new ≡ (is_cut_off S.Source script.old || play_read_failed result) }
    ensures other { play_write_failed result ≡ false }
    ensures same_script { SameScript script.old script.new }
{
    match next_played(script.lines, script.source) {
        Ok(NextLine::Over) => Ok(NextAsked::Over),
        Ok(NextLine::TooLong(number)) => Err(PlayFault::LineTooLong(number)),
        Ok(NextLine::Played { number, ended }) => {
            let mut words = Words::new(script.lines.line.text(ended));
            asked_by_words(alloc, peers, &mut words, number, ended)
        }
        Err(_) => Err(PlayFault::ReadFailed),
    }
}

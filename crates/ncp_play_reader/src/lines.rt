//! `Lines`, and `next_played`.
ghost use Rattle.std.specs.Prelude.{◌≡◌, ℕ, List, ◌<◌, ◌||◌, is_err, IfOk, [], true};
ghost use Rattle.ncp_play_stream.specs.Streams.{RemainingInput};
ghost use Rattle.ncp_play_buffer.specs.InBuffers.{read_measure};
ghost use Rattle.ncp_play_reader.specs.NextLines.{ReadsNextLine, goes_on};

use crate::reading::next_line;
use ncp_play_buffer::InBuffer;
use ncp_play_script::{LineBuffer, LineKind};
use ncp_play_stream::{Failed, Source};

/// The position of a reader in a script.
#[derive(Drop)]
pub struct Lines {
    /// The bytes read ahead.
    pub window: InBuffer,
    /// The last line read.
    pub line: LineBuffer,
    /// The number of the next line, counting all lines. It stays at the largest.
    pub number: u32,
}

/// The next line of a script that is not skipped.
#[derive(Clone, Copy, Debug, Drop)]
pub enum NextLine {
    /// No line is left.
    Over,
    /// The line with this number has too many bytes.
    TooLong(u32),
    /// A line that is to be played: its number, and whether an LF ended it.
    Played { number: u32, ended: bool },
}

impl Lines {
    /// The start of a script: no byte has been read.
    pub fn new() -> Lines
        ensures { result ≡ record { window = []; line = []; number = 1 } }
    {
        Lines {
            window: InBuffer::new(),
            line: LineBuffer::new(),
            number: 1,
        }
    }
}

/// Reads the next line that is not skipped into `lines.line`. Skips empty lines and remarks, but
/// counts all lines. After a last line without LF there is nothing left to read.
pub fn next_played<S: Source>(lines: &mut Lines, source: &mut S) -> Result<NextLine, Failed>
    ensures output { (bytes : List ℕ) → RemainingInput lines.old.window (S.left source.old) bytes
        → ReadsNextLine lines.old.number bytes result lines.new (S.left source.new) }
    ensures read_measure { IfOk result (λ next. goes_on next ≡ true
        → read_measure (S.reads source.new) lines.new.window < read_measure (S.reads source.old) lines.old.window) }
    ensures mark { S.has_failed source.new ≡ (S.has_failed source.old || is_err result) }
{
    while let Some(ended) = next_line(&mut lines.window, source, &mut lines.line)? {
        let number = lines.number;
        lines.number = number.saturating_add(1);
        match lines.line.kind(ended) {
            LineKind::Skipped if ended => {}
            LineKind::Skipped => return Ok(NextLine::Over),
            LineKind::TooLong => return Ok(NextLine::TooLong(number)),
            LineKind::Played => return Ok(NextLine::Played { number, ended }),
        }
    }
    Ok(NextLine::Over)
}

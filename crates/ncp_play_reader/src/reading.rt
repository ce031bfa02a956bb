//! `next_line`.
ghost use Rattle.std.specs.Prelude.{◌≡◌, ℕ, List, ◌<◌, ◌||◌, is_err, IfOk, Some, true};
ghost use Rattle.ncp_play_stream.specs.Streams.{RemainingInput};
ghost use Rattle.ncp_play_buffer.specs.InBuffers.{read_measure};
ghost use Rattle.ncp_play_reader.specs.Reading.{ReadsLine};

use ncp_play_buffer::InBuffer;
use ncp_play_script::LineBuffer;
use ncp_play_stream::{Failed, Source};

/// Reads the next line into `line`, and returns whether an LF ended it, or `None` if no byte is
/// left. Keeps only the line's prefix that determines its meaning.
pub fn next_line<S: Source>(
    window: &mut InBuffer,
    source: &mut S,
    line: &mut LineBuffer,
) -> Result<Option<bool>, Failed>
    ensures output { (bytes : List ℕ) → RemainingInput window.old (S.left source.old) bytes
        → ReadsLine bytes result line.new window.new (S.left source.new) }
    ensures read_measure { IfOk result (λ found. found ≡ Some true
        → read_measure (S.reads source.new) window.new < read_measure (S.reads source.old) window.old) }
    ensures mark { S.has_failed source.new ≡ (S.has_failed source.old || is_err result) }
{
    line.clear();
    while window.need(source, 1)? {
        match line.take(window.unread()) {
            Some(used) => {
                window.skip(used);
                return Ok(Some(true));
            }
            None => window.skip(window.unread().len()),
        }
    }
    if line.text(false).is_empty() {
        return Ok(None);
    }
    Ok(Some(false))
}

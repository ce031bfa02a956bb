//! `flush_before_line`: writes rendered lines before waiting for more of a script.
ghost use Rattle.std.specs.Prelude.{◌≡◌, ℕ, List, ◌||◌, is_err, OnOk, OnErr};
ghost use Rattle.ncp_play_buffer.specs.BufferedSinks.{SameOutlet, written_by, write_failed, HasSaid};
ghost use Rattle.ncp_play_stream.specs.Streams.{SaidSoFar};

use crate::lines::Lines;
use ncp_play_buffer::BufferedSink;
use ncp_play_script::{is_skipped, text_of};
use ncp_play_stream::{Failed, Sink};

// The byte that ends a line.
const LF: u8 = b'\n';

// Whether the bytes read ahead hold a complete line that is to be played. The answer only decides
// when lines are written.
fn has_line(ahead: &[u8]) -> bool {
    let mut begin = 0usize;
    for (place, byte) in ahead.iter().enumerate() {
        if *byte == LF {
            let line = ahead.get(begin..place).unwrap_or(&[]);
            if !is_skipped(text_of(line, true)) {
                return true;
            }
            begin = place.saturating_add(1);
        }
    }
    false
}

/// Writes the out buffer if the next line to be played is not complete in the in buffer, so that
/// output appears before the program waits for input. The rendered bytes are unchanged; after a
/// failed write a prefix of them is written.
pub fn flush_before_line<W: Sink>(
    lines: &Lines,
    out: &mut BufferedSink<'_, W>,
) -> Result<(), Failed>
    ensures ok { OnOk result ((was : List ℕ) (said : List ℕ)
        → HasSaid W.Sink was out.old said → HasSaid W.Sink was out.new said) }
    ensures err { OnErr result ((lost : List ℕ) × ((was : List ℕ) (said : List ℕ)
        → HasSaid W.Sink was out.old said → SaidSoFar was lost (written_by W.Sink out.new) said)) }
    ensures mark { write_failed W.Sink out.new ≡ (write_failed W.Sink out.old || is_err result) }
    ensures same_outlet { SameOutlet out.old out.new }
{
    if has_line(lines.window.unread()) {
        return Ok(());
    }
    match out.flush() {
        Ok(()) => Ok(()),
        Err(failed) => Err(failed),
    }
}

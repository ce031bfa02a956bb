//! Writing bytes whole.
ghost use Rattle.std.specs.Prelude.{◌≡◌, ◌||◌, ℕ, take, is_err, OnOk, OnErr};
ghost use Rattle.std.specs.Io.KnownBytes.{Appends};

use ncp_play_stream::{Failed, Sink};

/// Writes all bytes of a piece. If that fails, a prefix of them was written.
pub(crate) fn put<W: Sink>(sink: &mut W, piece: &[u8]) -> Result<(), Failed>
    ensures ok { OnOk result (Appends (W.written sink.old) (W.written sink.new) piece.now) }
    ensures err { OnErr result ((count : ℕ)
        × Appends (W.written sink.old) (W.written sink.new) (take count piece.now)) }
    ensures mark { W.has_failed sink.new ≡ (W.has_failed sink.old || is_err result) }
{
    let mut done = 0;
    while done < piece.len() {
        done += sink.write(&piece[done..])?;
    }
    Ok(())
}

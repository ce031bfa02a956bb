//! `flush_before_wait`: rendered text is written before waiting for more of a message file.
ghost use Rattle.std.specs.Prelude.{◌≡◌, ◌+◌, ◌≤◌, ◌||◌, [], true, false, OnOk};
ghost use Rattle.ncp_play_buffer.specs.BufferedSinks.{SameOutlet, written_by, write_failed, write_budget};
ghost use Rattle.ncp_play_files.specs.Results.{is_write_failed};
ghost use Rattle.ncp_play_files.specs.Steps.{LetsOut, unpaid_out};
ghost use Rattle.ncp_play_files.specs.Waiting.{lacks_message, is_waiting};

use crate::file::{FileFault, LENGTH};
use crate::version::{MAX_RECORD_LEN, PASSAGE, Version};
use byteorder::{BigEndian, ByteOrder};
use ncp_bits::MAX_BITS;
use ncp_play_buffer::{BufferedSink, InBuffer};
use ncp_play_stream::Sink;

// Whether after `front` bytes the length of a message, or the message, is incomplete.
fn lacks_message(ahead: &[u8], front: usize) -> bool
    requires { front ≤ PASSAGE }
    ensures { result ≡ lacks_message front ahead.now }
{
    if ahead.len() < front + LENGTH {
        return true;
    }
    let bits = usize::from(BigEndian::read_u16(&ahead[front..]));
    bits <= MAX_BITS && ahead.len() < front + LENGTH + bits.div_ceil(8)
}

// Whether the first record of these bytes is incomplete. Mostly many are complete.
#[inline(always)]
fn is_waiting(ahead: &[u8], version: Version) -> bool
    ensures { result ≡ is_waiting version ahead.now }
{
    if ahead.len() >= MAX_RECORD_LEN {
        return false;
    }
    match version {
        Version::One(_) => lacks_message(ahead, 0),
        Version::Two => lacks_message(ahead, PASSAGE),
    }
}

/// Writes the out buffer if the next record of a file of this version is still incomplete, so that
/// rendered text is written before the program waits for input. A failed write is `WriteFailed`,
/// and a prefix of the rendered text is written.
#[inline(always)]
pub fn flush_before_wait<W: Sink>(
    window: &InBuffer,
    version: Version,
    out: &mut BufferedSink<'_, W>,
) -> Result<(), FileFault>
    ensures output { LetsOut out.old.page.now (written_by W.Sink out.old) result out.new.page.now (written_by W.Sink out.new) }
    ensures out { OnOk result (is_waiting version window.now ≡ true → out.new.page.now ≡ []) }
    ensures stays { is_waiting version window.now ≡ false → out.new.page.now ≡ out.old.page.now }
    ensures writes { write_budget W.Sink out.old ≤ write_budget W.Sink out.new + unpaid_out result (is_waiting version window.now) }
    ensures mark { write_failed W.Sink out.new ≡ (write_failed W.Sink out.old || is_write_failed result) }
    ensures same_outlet { SameOutlet out.old out.new }
{
    if !is_waiting(window.unread(), version) {
        return Ok(());
    }
    match out.flush() {
        Ok(()) => Ok(()),
        Err(_) => Err(FileFault::WriteFailed),
    }
}

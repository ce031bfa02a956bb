//! The outcome of received bits, in words.
ghost use Rattle.std.specs.Prelude.{◌≡◌, ◌+◌, ◌≤◌, ◌++◌, length};
ghost use Rattle.ncp_play_notes.specs.Arrived.{received_words};

use ncp_host::Received;
use ncp_play_buffer::{MAX_NUMBER_LEN, OutBuffer, PAGE_SIZE, push_field};

/// The maximum length of the words that [`push_received`] appends, in bytes.
pub const MAX_RECEIVED_LEN: usize = 8 + MAX_NUMBER_LEN;

/// Appends the outcome of received bits in words. Requires room for [`MAX_RECEIVED_LEN`].
pub fn push_received(page: &mut OutBuffer, received: Received)
    requires { length page.old + MAX_RECEIVED_LEN ≤ PAGE_SIZE }
    ensures bytes { page.new ≡ page.old ++ received_words received }
    ensures len { length page.new ≤ length page.old + MAX_RECEIVED_LEN }
{
    match received {
        Received::Short => page.push_text(b"short"),
        Received::Other(kind) => push_field(page, b"other ", u32::from(kind)),
        Received::Unknown => page.push_text(b"unknown"),
        Received::Stray => page.push_text(b"stray"),
        Received::Answered => page.push_text(b"answered"),
        Received::Fault(fault) => {
            page.push_text(b"fault ");
            page.push_text(fault.name().as_bytes());
        }
        Received::WrongLink => page.push_text(b"wrong-link"),
        Received::WrongSize => page.push_text(b"wrong-size"),
        Received::Control(commands) => push_field(page, b"control ", commands),
        Received::Text(took) => {
            page.push_text(b"text ");
            page.push_text(took.name().as_bytes());
        }
        Received::NotUp => page.push_text(b"text not-up"),
    }
}

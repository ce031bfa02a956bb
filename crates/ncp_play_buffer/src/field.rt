//! A number after its name.
ghost use Rattle.std.specs.Prelude.{◌≡◌, ◌+◌, ◌≤◌, ◌++◌, length};
ghost use Rattle.ncp_play_buffer.specs.Lines.{field};

use crate::out_buffer::{MAX_NUMBER_LEN, OutBuffer, PAGE_SIZE};

/// Appends a name and a number. Requires room for the name and the longest number.
// Inlined: a name of known length is then copied in one or two moves.
#[inline(always)]
pub fn push_field(page: &mut OutBuffer, name: &[u8], number: u32)
    requires { length page.old + length name.now + MAX_NUMBER_LEN ≤ PAGE_SIZE }
    ensures bytes { page.new ≡ page.old ++ field name.now number }
    ensures len { length page.new ≤ length page.old + length name.now + MAX_NUMBER_LEN }
{
    page.push_text(name);
    page.push_decimal(number);
}

//! Words of lines.
ghost use Rattle.std.specs.Prelude.{◌≡◌, ◌+◌, ◌≤◌, ◌++◌, length};
ghost use Rattle.ncp_play_follow.specs.ConnectionLines.{followed_amount_words};

use ncp_follow::SaturatingAmount;
use ncp_play_buffer::{OutBuffer, PAGE_SIZE, push_field};

/// An upper bound on the number of bytes of the words of an amount, after a name of ten letters.
pub(crate) const MAX_AMOUNT_LEN: usize = 31;

/// Appends numbers of messages and of bits after their name.
#[tactic(auto, unfolding(crate::specs::ConnectionLines::followed_amount_words))]
pub(crate) fn push_amount(page: &mut OutBuffer, name: &[u8], amount: SaturatingAmount)
    requires name { length name.now ≤ 10 }
    requires room { length page.old + MAX_AMOUNT_LEN ≤ PAGE_SIZE }
    ensures bytes { page.new ≡ page.old ++ followed_amount_words name.now amount }
    ensures len { length page.new ≤ length page.old + MAX_AMOUNT_LEN }
{
    push_field(page, name, amount.messages);
    push_field(page, b"/", amount.bits);
}

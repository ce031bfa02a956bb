//! `==` is equality, for each public type that has it.
ghost use Rattle.std.specs.Prelude.{◌≡◌, ◌↔◌, IsTrue};

use crate::fault::MessageFault;
use crate::leader::{Leader, Short};
use crate::regular::Regular;

/// `==` of leaders is equality.
pub fn equal_leaders(leader: &Leader, other: &Leader) -> bool
    ensures { IsTrue result ↔ (leader.now ≡ other.now) }
{
    *leader == *other
}

/// `==` of faults is equality.
pub fn equal_message_faults(fault: MessageFault, other: MessageFault) -> bool
    ensures { IsTrue result ↔ (fault ≡ other) }
{
    fault == other
}

/// `==` of `Short` is equality.
pub fn equal_short(one: Short, other: Short) -> bool
    ensures { IsTrue result ↔ (one ≡ other) }
{
    one == other
}

/// `==` of messages is equality of leader, byte size, byte count and text.
pub fn equal_messages(one: &Regular<'_>, other: &Regular<'_>) -> bool
    ensures { IsTrue result ↔ (one.now ≡ other.now) }
{
    *one == *other
}

//! `==` is equality, for each public type that has it.
ghost use Rattle.std.specs.Prelude.{◌≡◌, ◌↔◌, IsTrue};

use crate::bits::{Bits, BitsFault};
use crate::part::Part;
use crate::store::NoRoom;

/// `==` of faults is equality.
pub fn equal_bits_faults(one: BitsFault, other: BitsFault) -> bool
    ensures { IsTrue result ↔ (one ≡ other) }
{
    one == other
}

/// `==` of `NoRoom` is equality.
pub fn equal_no_room(one: NoRoom, other: NoRoom) -> bool
    ensures { IsTrue result ↔ (one ≡ other) }
{
    one == other
}

/// `==` of parts is equality of their bits, regardless of their offsets.
pub fn equal_parts(one: &Part<'_>, other: &Part<'_>) -> bool
    ensures { IsTrue result ↔ (one.now ≡ other.now) }
{
    *one == *other
}

/// `==` of bits is equality.
pub fn equal_bits(one: &Bits, other: &Bits) -> bool
    ensures { IsTrue result ↔ (one.now ≡ other.now) }
{
    *one == *other
}

//! `==` is equality, for each public type that has it.
ghost use Rattle.std.specs.Prelude.{◌≡◌, ◌↔◌, IsTrue};

use crate::record::{Record, Role};

/// `==` of records is equality.
pub fn equal_records(one: &Record, other: &Record) -> bool
    ensures { IsTrue result ↔ (one.now ≡ other.now) }
{
    *one == *other
}

/// `==` of roles is equality.
pub fn equal_ends(one: Role, other: Role) -> bool
    ensures { IsTrue result ↔ (one ≡ other) }
{
    one == other
}

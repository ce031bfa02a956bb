//! For each public type with `==`: `==` is equality.
ghost use Rattle.std.specs.Prelude.{◌≡◌, ◌↔◌, IsTrue};

use crate::fault::SubnetFault;

/// `==` on refusals is equality.
pub fn equal_subnet_faults(one: SubnetFault, other: SubnetFault) -> bool
    ensures { IsTrue result ↔ (one ≡ other) }
{
    one == other
}

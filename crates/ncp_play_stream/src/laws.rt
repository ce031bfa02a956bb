//! Laws about sources and sinks, stated as contracts.
ghost use Rattle.std.specs.Prelude.{◌≡◌, ◌↔◌, IsTrue};

use crate::source::Failed;

/// Two failures compare as equal, since there is only one.
pub fn same_failure(one: Failed, other: Failed) -> bool
    ensures { IsTrue result ↔ one ≡ other }
{
    one == other
}

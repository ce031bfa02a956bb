//! `==` is equality, for each public type that has it.
ghost use Rattle.std.specs.Prelude.{◌≡◌, ◌↔◌, IsTrue};

use crate::command::Command;
use crate::fault::CommandFault;

/// `==` of commands is equality.
pub fn equal_commands(one: &Command, other: &Command) -> bool
    ensures { IsTrue result ↔ (one.now ≡ other.now) }
{
    *one == *other
}

/// `==` of faults is equality.
pub fn equal_command_faults(one: &CommandFault, other: &CommandFault) -> bool
    ensures { IsTrue result ↔ (one.now ≡ other.now) }
{
    *one == *other
}

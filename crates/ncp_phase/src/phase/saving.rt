//! Saving the flags and the queued commands.
ghost use Rattle.std.specs.Prelude.{◌≡◌, ◌++◌, ◌∷◌, OnOk};
ghost use Rattle.ncp_saved.specs.Values.{listed, command_saved};
ghost use Rattle.ncp_phase.specs.SavedPhase.{phase_saved};

use crate::phase::Phase;
use crate::queue::Queue;
use ncp_saved::{put_byte, put_command, put_marks};
use ncp_wire::Command;
use std::alloc::AllocError;

// Writes a 1, then a queued command.
fn put_waiter(out: &mut Vec<u8>, command: &Command) -> Result<(), AllocError>
    ensures { OnOk result (out.new.items ≡ out.old.items ++ 1 ∷ command_saved command.now) }
{
    put_byte(out, 1)?;
    put_command(out, command)
}

// Writes the queued commands, a 1 before each, and a 0 at the end.
fn put_waiting(out: &mut Vec<u8>, waiting: &Queue) -> Result<(), AllocError>
    ensures { OnOk result (out.new.items ≡ out.old.items ++ listed command_saved waiting.now) }
{
    for place in 0..waiting.len() {
        let Some(command) = waiting.get(place) else {
            break;
        };
        put_waiter(out, &command)?;
    }
    put_byte(out, 0)
}

impl Phase {
    /// Writes the flags, then the queued commands.
    #[tactic(auto, unfolding(crate::specs::SavedPhase::phase_saved))]
    pub fn save(&self, out: &mut Vec<u8>) -> Result<(), AllocError>
        ensures { OnOk result (out.new.items ≡ out.old.items ++ phase_saved self.now) }
    {
        put_marks(out, [self.down, self.want, self.owe, self.wait])?;
        put_waiting(out, &self.waiting)
    }
}

//! Whether commands fit a control message.
ghost use Rattle.std.specs.Prelude.{◌≡◌, All, IfSome};
ghost use Rattle.std.specs.List.{list_all};
ghost use Rattle.ncp_saved.specs.Reading.{HasItsData};
ghost use Rattle.ncp_phase.specs.Waiting.{has_short_data};

use crate::queue::Queue;
use ncp_wire::{Command, put_command};

// Whether a command fits a control message, by the length of its data. Every value of the type
// does.
fn is_short(command: &Command) -> bool
    ensures { result ≡ has_short_data command.now }
{
    let _bytes = put_command(command);
    true
}

// A lemma: an ERR has all bytes of its data.
fn has_its_data(command: &Option<Command>)
    ensures { IfSome command.now HasItsData }
{
    if let Some(command) = command {
        let _bytes = put_command(command);
    }
}

impl Queue {
    /// Whether each queued command fits a control message.
    pub(crate) fn is_short(&self) -> bool
        ensures { result ≡ list_all has_short_data self.now }
    {
        self.commands.iter().all(|command| is_short(command))
    }

    /// A lemma: each queued ERR has all bytes of its data.
    pub(crate) fn have_their_data(&self)
        ensures { All HasItsData self.now }
    {
        for place in 0..self.len() {
            has_its_data(&self.get(place));
        }
    }
}

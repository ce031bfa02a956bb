//! `Renderer`: the output of a player for the notes of its hosts.
ghost use Rattle.std.specs.Prelude.{◌≡◌, ◌+◌, ◌≤◌, ◌||◌, ◌++◌, ◌∷◌, [], List, is_err};
ghost use Rattle.ncp_play_buffer.specs.BufferedSinks.{SameOutlet, write_failed, write_budget, RendersOrBreaks};
ghost use Rattle.ncp_play_stream.specs.Pieces.{lost_pieces};

use crate::simulation::Simulation;
use ncp_play_buffer::{BufferedSink, OutBuffer};
use ncp_play_stream::{Failed, Sink};

/// Renders the notes of hosts: as lines, or in another form.
pub trait Renderer<C: Simulation> {
    ghost use Rattle.ncp_play_simulation.specs.Printing.{Rendering};

    /// The rendering for a script with this first line.
    ghost rendering: { C.First → Rendering C.Note C.Hosts };

    /// Puts the rendering's head into an empty out buffer.
    fn begin(first: &C::First, page: &mut OutBuffer)
        requires { page.old ≡ [] }
        ensures { page.new ≡ (rendering first.now).head };

    /// Renders the last note. `number` is its number, and `hosts` are the hosts after it.
    fn say<W: Sink>(
        first: &C::First,
        hosts: &C::Hosts,
        number: u32,
        out: &mut BufferedSink<'_, W>,
    ) -> Result<(), Failed>
        ensures output { (before : List C.Note) (note : C.Note) → C.rules.notes hosts.now ≡ before ++ note ∷ []
            → RendersOrBreaks W.Sink out.old ((rendering first.now).of_note number note hosts.now) result out.new }
        ensures writes { write_budget W.Sink out.old ≤ write_budget W.Sink out.new + lost_pieces (is_err result) }
        ensures mark { write_failed W.Sink out.new ≡ (write_failed W.Sink out.old || is_err result) }
        ensures same_outlet { SameOutlet out.old out.new };
}

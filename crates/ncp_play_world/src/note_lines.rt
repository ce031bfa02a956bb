//! The lines of notes, as rendered by a player.
use crate::ledger_lines::render_ledger;
use crate::log::Log;
use crate::scripted::{HostsScript, Scripted};
use ncp_play_buffer::{BufferedSink, OutBuffer};
use ncp_play_simulation::Renderer;
use ncp_play_stream::{Failed, Sink};
use ncp_play_world_lines::{FirstLine, ScriptNote, render_settled};

/// Renders the lines of each note, followed by the ledger if a sender is watched, and for each word
/// `settle` the number of its events.
pub struct NoteLines;

impl<H: Scripted> Renderer<HostsScript<H>> for NoteLines {
    ghost use Rattle.ncp_play_world.specs.Renderings.{lines_watching};

    ghost rendering = { λ first. lines_watching H.note_lines H.ledger_at first.watch };

    fn begin(_first: &FirstLine<H::Named, H::Sender>, _page: &mut OutBuffer) {}

    fn say<W: Sink>(
        first: &FirstLine<H::Named, H::Sender>,
        hosts: &Log<H>,
        number: u32,
        out: &mut BufferedSink<'_, W>,
    ) -> Result<(), Failed> {
        match hosts.last() {
            Some(ScriptNote::Noted(note)) => {
                H::render_note(out, number, note)?;
                render_ledger(out, hosts.watched(first.watch))
            }
            Some(ScriptNote::Settled(many)) => render_settled(out, number, many),
            None => Ok(()),
        }
    }
}

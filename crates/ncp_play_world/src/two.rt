//! Scripts of two hosts.
ghost use Rattle.std.specs.Prelude.{◌≢◌, ◌<◌};

use crate::scripted::{HostsScript, Scripted};
use ncp_bits::BitStore;
use ncp_model::Pair;
use ncp_play_buffer::BufferedSink;
use ncp_play_script::{TwoHosts, Words};
use ncp_play_stream::{Failed, Sink};
use ncp_play_world_lines::{
    FirstLine, first_line_of, render_world_note, render_world_record, world_line,
};
use ncp_world::{Event, Ledger, Note, Side, Sides, World};
use std::alloc::{AllocError, Global};

/// Scripts of two hosts, played on a [`World`].
pub type TwoHostScript<S> = HostsScript<Sides<S>>;

impl<S: BitStore> Scripted for Sides<S> {
    ghost use Rattle.std.specs.Prelude.{refl};
    ghost use Rattle.ncp_transcript_two.specs.Between.{new_hosts};
    ghost use Rattle.ncp_transcript_two.specs.Ledgers.{ledger_of};
    ghost use Rattle.ncp_transcript_two.specs.Transcript.{new_world};
    ghost use Rattle.ncp_transcript_two.proofs.Growing.{transcript_new};
    ghost use Rattle.ncp_play_world_lines.specs.FirstLine.{first_line_of};
    ghost use Rattle.ncp_play_world_lines.specs.WorldLines.{world_line_of};
    ghost use Rattle.ncp_play_world_lines.specs.WorldNotes.{world_note_lines};
    ghost use Rattle.ncp_play_world_lines.specs.Recorded.{note_bytes as bytes_of_note};
    ghost use Rattle.ncp_play_world.specs.WorldRules.{is_noted_refusal};

    type Named = TwoHosts;

    type Sender = Side;

    ghost first_named = { first_line_of };

    ghost event_named = { world_line_of };

    ghost begun = { λ named. new_world named.a named.b };

    ghost IsValid = { λ named. (named.a ≢ named.b) × (named.a < 256) × (named.b < 256) };

    ghost refused = { is_noted_refusal };

    ghost note_lines = { world_note_lines };

    ghost note_bytes = { bytes_of_note };

    ghost ledger_at = { ledger_of };

    fn first_of(words: &mut Words<'_>) -> Option<FirstLine<TwoHosts, Side>> {
        first_line_of(words)
    }

    fn event_of(
        alloc: Global,
        named: &TwoHosts,
        words: &mut Words<'_>,
    ) -> Result<Option<Event>, AllocError> {
        world_line(alloc, *named, words)
    }

    fn begin(alloc: Global, named: &TwoHosts) -> Result<World<S>, AllocError> {
        World::new(alloc, named.a, named.b)
    }

    fn is_refusal(note: &Note) -> bool {
        match note {
            Note::Called { note, .. } => note.is_refusal(),
            _ => false,
        }
    }

    fn count_of(notes: &[Note]) -> usize {
        notes.len()
    }

    fn render_note<W: Sink>(
        out: &mut BufferedSink<'_, W>,
        number: u32,
        note: &Note,
    ) -> Result<(), Failed> {
        render_world_note(out, number, note)
    }

    fn render_record<W: Sink>(
        out: &mut BufferedSink<'_, W>,
        named: &TwoHosts,
        note: &Note,
    ) -> Result<(), Failed> {
        render_world_record(out, *named, note)
    }

    fn ledger(world: &World<S>, sender: Side, pair: Pair) -> Option<Ledger> {
        world.ledger(sender, pair)
    }

    ghost begins_without = { λ named. refl };

    ghost begins_well = { λ named valid. transcript_new named.a named.b (new_hosts named.a named.b) valid.0 valid.1 valid.2 refl };
}

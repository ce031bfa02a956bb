//! Scripts of two to eight hosts.

use crate::many_hosts::{ManyHosts, many_first_line};
use crate::scripted::{HostsScript, Scripted};
use ncp_bits::BitStore;
use ncp_model::Pair;
use ncp_play_buffer::BufferedSink;
use ncp_play_script::Words;
use ncp_play_stream::{Failed, Sink};
use ncp_play_world_lines::{
    FirstLine, HostAndPeer, many_line, render_many_note, render_many_record,
};
use ncp_world::{Ledger, Many, ManyEvent, ManyNote, Network};
use std::alloc::{AllocError, Global};

/// Scripts of two to eight hosts, played on a [`Many`].
pub type ManyHostScript<S> = HostsScript<Network<S>>;

impl<S: BitStore> Scripted for Network<S> {
    ghost use Rattle.std.specs.Prelude.{refl};
    ghost use Rattle.ncp_transcript.proofs.Beginning.{one_fits};
    ghost use Rattle.ncp_transcript_many.specs.Network.{new_network};
    ghost use Rattle.ncp_transcript_many.specs.ManyTranscript.{new_many};
    ghost use Rattle.ncp_transcript_many.proofs.ManyRuns.{transcript-new};
    ghost use Rattle.ncp_play_world_lines.specs.ManyLines.{many_line_of};
    ghost use Rattle.ncp_play_world_lines.specs.ManyNotes.{many_note_lines};
    ghost use Rattle.ncp_play_world_lines.specs.Recorded.{many_note_bytes};
    ghost use Rattle.ncp_play_world.specs.ManyHosts.{many_of};
    ghost use Rattle.ncp_play_world.specs.Renderings.{ledger_among};
    ghost use Rattle.ncp_play_world.specs.ManyRules.{AreProper, is_many_refusal};

    type Named = ManyHosts;

    type Sender = HostAndPeer;

    ghost first_named = { many_of };

    ghost event_named = { many_line_of };

    ghost begun = { new_many };

    ghost IsValid = { AreProper };

    ghost refused = { is_many_refusal };

    ghost note_lines = { many_note_lines };

    ghost note_bytes = { λ named. many_note_bytes };

    ghost ledger_at = { ledger_among };

    fn first_of(words: &mut Words<'_>) -> Option<FirstLine<ManyHosts, HostAndPeer>> {
        many_first_line(words)
    }

    fn event_of(
        alloc: Global,
        named: &ManyHosts,
        words: &mut Words<'_>,
    ) -> Result<Option<ManyEvent>, AllocError> {
        many_line(alloc, named.numbers(), words)
    }

    fn begin(alloc: Global, named: &ManyHosts) -> Result<Many<S>, AllocError> {
        match Many::new(alloc, named.numbers()) {
            Ok(many) => Ok(many),
            Err(_) => Err(AllocError),
        }
    }

    fn is_refusal(note: &ManyNote) -> bool {
        match note {
            ManyNote::Called { note, .. } => note.is_refusal(),
            _ => false,
        }
    }

    fn count_of(notes: &[ManyNote]) -> usize {
        notes.len()
    }

    fn render_note<W: Sink>(
        out: &mut BufferedSink<'_, W>,
        number: u32,
        note: &ManyNote,
    ) -> Result<(), Failed> {
        render_many_note(out, number, note)
    }

    fn render_record<W: Sink>(
        out: &mut BufferedSink<'_, W>,
        _named: &ManyHosts,
        note: &ManyNote,
    ) -> Result<(), Failed> {
        render_many_record(out, note)
    }

    fn ledger(many: &Many<S>, sender: HostAndPeer, pair: Pair) -> Option<Ledger> {
        many.ledger(sender.host, sender.peer, pair)
    }

    ghost begins_without = { λ named. refl };

    ghost begins_well = { λ hosts proper. transcript-new hosts (new_network hosts) proper.0 (one_fits hosts proper.1) refl };
}

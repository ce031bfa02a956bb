//! Plays an event of a script of one host.
ghost use Rattle.std.specs.Prelude.{◌≡◌, ℕ, List, ◌||◌};
ghost use Rattle.ncp_play_buffer.specs.BufferedSinks.{SameOutlet, written_by, write_failed};
ghost use Rattle.ncp_play_notes.specs.Faults.{play_write_failed};
ghost use Rattle.ncp_play_notes.specs.Playing.{Tells, PrintsAs};
ghost use Rattle.ncp_play_notes.specs.declared.heading.LinePrefix.{LinePrefix as Beginning};
ghost use Rattle.ncp_play_host.specs.Events.{inputs_of, DoesAllOf};

use crate::restarting::{play_restart, play_restarts};
use ncp_bits::BitStore;
use ncp_play_buffer::BufferedSink;
use ncp_play_notes::{LinePrefix, PlayFault, play_input};
use ncp_play_script::HostEvent;
use ncp_play_stream::Sink;
use ncp_transcript::Alone;
use std::alloc::Global;

/// Plays an event, on a host with these peers.
///
/// On `OutOfMemory` a prefix of its inputs was applied. On `WriteFailed` too, and a prefix of all
/// lines is written.
pub(crate) fn play_event<S: BitStore, W: Sink>(
    alloc: Global,
    alone: &mut Alone<S>,
    peers: &[u8],
    event: &HostEvent,
    heading: &mut LinePrefix,
    out: &mut BufferedSink<'_, W>,
) -> Result<(), PlayFault>
    ensures events { DoesAllOf (inputs_of peers.now event.now alone.old.host) alone.old result alone.new }
    ensures output { (was : List ℕ) (first : Beginning)
        → Tells was first alone.old.notes heading.old out.old.page.now (written_by W.Sink out.old)
        → PrintsAs was first alone.new.notes result heading.new out.new.page.now (written_by W.Sink out.new) }
    ensures mark { write_failed W.Sink out.new ≡ (write_failed W.Sink out.old || play_write_failed result) }
    ensures same_outlet { SameOutlet out.old out.new }
{
    match event {
        HostEvent::Input(input) => play_input(alone, input, heading, out),
        HostEvent::Restart(Some(peer)) => play_restart(alloc, alone, *peer, heading, out),
        HostEvent::Restart(None) => play_restarts(alloc, alone, peers, heading, out),
    }
}

//! Why an endpoint is cleared, and why it leaves.
ghost use Rattle.std.specs.Prelude.{◌≤◌, false, List};
ghost use Rattle.ncp_model.specs.declared.pair.Pair.{Pair};
ghost use Rattle.ncp_transcript.specs.declared.note.HostNote.{HostNote};
ghost use Rattle.ncp_proof_runs.specs.Acts.{acts_of};
ghost use Rattle.ncp_proof_pipe.specs.Clearings.{clearings, closes_read};
ghost use Rattle.ncp_proof_pipe.specs.Stops.{cuts_in, is_close_by_peer, times};

/// By its notes for a peer, an endpoint of a host is cleared at most as often as the host, while up,
/// accepted a reset, read an RST, or went down. A close of the peer comes to a pair at most once for
/// each CLS that was read for it.
pub fn notes_tell_of_clearings_and_closes()
    ensures cleared { (pair : Pair) (told : List HostNote) → cuts_in false (acts_of pair told) ≤ clearings told }
    ensures closed { (pair : Pair) (told : List HostNote) → times is_close_by_peer (acts_of pair told) ≤ closes_read pair told }
{}

//! When no message is ready, in transit or held, all is finished.
ghost use Rattle.std.specs.Prelude.{◌≡◌, ◌≢◌, ◌<◌, ◌^◌, ℕ, false, List, Ok};
ghost use Rattle.ncp_model.specs.Phase.{reset_answer};
ghost use Rattle.ncp_model.specs.Sending.{is_full};
ghost use Rattle.ncp_transcript_two.specs.declared.note.Note.{Note};
ghost use Rattle.ncp_transcript_two.specs.Between.{Hosts, new_hosts};
ghost use Rattle.ncp_transcript_two.specs.Transcript.{IsTranscript};
ghost use Rattle.ncp_transcript_two.specs.Seen.{seen};
ghost use Rattle.ncp_proof_quiescence.specs.Settled.{IsSettled, EndsFinished};

/// After every transcript of two hosts that leaves no message ready, in transit or held, so that
/// only a user's request can cause an event, both hosts are finished. No command is queued, no RST
/// is wanted, no RRP is owed or awaited, no text is unacknowledged, no sender is leaving, and a
/// leaving receiver holds text whose sender has closed. If both are up, each pair of ends is in one
/// of five states, and each state waits for a user. So text that may be sent has arrived, a close
/// has closed, two requests have opened, and all text given was got, except stored text that cannot
/// be sent.
pub fn where_nothing_can_happen_two_are_finished()
    ensures finished { (notes : List Note) (w : Hosts) → IsTranscript notes w → EndsFinished notes w }
    ensures new { (a b : ℕ) → a ≢ b → a < 2 ^ 8 → b < 2 ^ 8 → IsSettled (seen (new_hosts a b)) }
{}

/// When only a call can cause an event, neither host is resetting, so no reset is refused as busy;
/// and the queue of neither is full, so no call is refused for that.
pub fn settled_hosts_refuse_nothing_as_busy()
    ensures reset { (notes : List Note) (w : Hosts) → IsTranscript notes w → IsSettled (seen w) → (reset_answer (seen w).this.peer.phase ≡ Ok tt) × (reset_answer (seen w).that.peer.phase ≡ Ok tt) }
    ensures queue { (notes : List Note) (w : Hosts) → IsTranscript notes w → IsSettled (seen w) → (is_full (seen w).this.peer.phase ≡ false) × (is_full (seen w).that.peer.phase ≡ false) }
{}

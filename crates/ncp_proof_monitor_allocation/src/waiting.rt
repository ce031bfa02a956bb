//! The queue of a host, next to what was observed of it.
ghost use Rattle.ncp_proof_monitor_allocation.specs.Waiting.{RequestWaits};

/// A receiver's RTS is queued, and its sender's STR has arrived: the host stores what was observed,
/// followed by this RTS.
pub fn a_request_waits()
    ensures { RequestWaits }
{}

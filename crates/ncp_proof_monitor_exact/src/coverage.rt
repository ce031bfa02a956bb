//! What an audit notes of each two hosts.
ghost use Rattle.ncp_proof_monitor_exact.specs.Covered.{NotedByRecords};

/// What was noted of two hosts after each record is, at the end, what the records say of these two:
/// whether a message between them passed the interface of the first; whether one that depends on
/// the peer's interface passed before the first record there; and whether, after one of them, the
/// session, a connection, a link or the echoes were suspended.
pub fn what_is_noted_is_what_the_records_say()
    ensures { NotedByRecords }
{}

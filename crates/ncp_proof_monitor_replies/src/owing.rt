//! The replies that a host owes, and its queue.
ghost use Rattle.ncp_proof_monitor_replies.specs.EchoOwed.{ErpWaits, OtherWaits, NoneWaits};

/// An owed ERP matches a queue with that ERP, but not a queue with another ERP, nor an empty one
/// (worked cases).
pub fn an_echo_is_owed()
    ensures waits { ErpWaits }
    ensures other { ¬ OtherWaits }
    ensures none { ¬ NoneWaits }
{}

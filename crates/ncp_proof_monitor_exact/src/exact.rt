//! The rules of messages are exact.
ghost use Rattle.ncp_proof_monitor_exact.specs.Exact.{IsExact, IsExactOfAll, NoPhaseSuspended, WatchesAll, CleanIsInOrder};

/// For the messages from one host to another: no rule of messages is reported and every record is
/// judged, if and only if the records of each link are faithful (`IsFaithful`). The capture is
/// complete and never has too many messages outstanding at once; otherwise it is arbitrary.
pub fn the_rules_of_messages_are_exact()
    ensures { IsExact }
{}

/// The same for all pairs of hosts in a complete capture.
pub fn the_rules_of_messages_are_exact_of_all()
    // theorem: In a whole capture of any hosts and IMPs whose records fit a file, with never too
    // many messages unacknowledged at once, the five rules of messages find nothing and judge every
    // message if and only if, by the records, each link between each two hosts had one unanswered
    // message at a time, which arrived once, whole, before its RFNM, or did not arrive, got another
    // answer, and was the next message sent, unchanged. Only the last message on a link may lack
    // its answer or that repetition.
    ensures { IsExactOfAll }
{}

/// Every record is judged if both interfaces have a record before the first message between the two
/// hosts.
pub fn all_is_watched()
    ensures { WatchesAll }
{}

/// If an audit of such a capture reports nothing, and every record is judged, the messages on each
/// link were delivered in the order in which they were sent, each once, and at most the last is
/// missing.
pub fn clean_is_in_order()
    // theorem: If an audit of a whole capture whose records fit a file, with never too many
    // messages unacknowledged at once, finds nothing and judges all messages from one host to
    // another, then the messages that arrived on each link between them are a prefix of those sent
    // there, at most one shorter, with a message and its retransmissions counted once.
    ensures { CleanIsInOrder }
{}

/// If an audit of such a capture reports nothing, the phase of each host with each other is judged
/// to the end, at each interface.
pub fn no_phase_suspended()
    ensures { NoPhaseSuspended }
{}

//! What an audit does not judge of a capture in which it finds nothing.
ghost use Rattle.ncp_proof_monitor_exact.specs.Judged.{AllIsJudged, OnlyLacks};

/// If an audit of a whole capture finds nothing, by any rule, and no IMP reset its interface or
/// refused a message, then `--coverage` gives no reason but `messages`, `connections`, `late` and
/// `alone`. So each phase, link and connection and all echoes were judged, unless the audit lacked
/// room or the capture records.
pub fn only_a_lack_is_a_reason()
    // theorem: If an audit of a whole capture whose records fit a file finds nothing, and no IMP
    // reset its interface or refused a message, then the reason that `--coverage` gives for two
    // hosts is `messages`, `connections`, `late` or `alone`: each phase, link and connection and
    // all echoes were judged, unless the audit lacked room or the capture records.
    ensures { OnlyLacks }
{}

/// If in addition the audit had room for all messages and connections, and the peer's interface
/// has a record before each message that depends on it, then no reason is given for the two.
pub fn all_is_judged()
    ensures { AllIsJudged }
{}

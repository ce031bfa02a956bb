//! Following the file of two hosts.
ghost use Rattle.ncp_proof_follow.specs.OpenedTexts.{FollowReportsWhatWasGot};

/// In the file of two hosts with the subnet between them, for any calls and any events of the
/// subnet, `follow` reports as the text of a connection, up to its first 8,192 bits: at the
/// receiver's interface what the receiver got, until it closes; at an open sender's what was given,
/// except for what is queued there. While both are open, the first is a prefix of the second. This
/// holds while fewer connections were opened than `follow` lists.
pub fn follow_reports_what_was_got()
    // theorem: In the file of two hosts with the subnet between them, while fewer than 4,096
    // connections are listed (counted at each interface separately), the text that `follow` reports
    // of a connection is, up to its first 8,192 bits: at the receiver's interface, until the
    // receiver closes, the text that it got; at an open sender's, the text given except what the
    // sender has queued. If both are open, the first is a prefix of the second.
    ensures { FollowReportsWhatWasGot }
{}

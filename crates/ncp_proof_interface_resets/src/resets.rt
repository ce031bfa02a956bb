//! No host is reported by any rule at its own interface, resets of its IMP included.
ghost use Rattle.std.specs.Prelude.{Bool};
ghost use Rattle.ncp_monitor.specs.declared.finding.Rule.{Rule};
ghost use Rattle.ncp_proof_interface_resets.specs.ResetRuns.{NobodyBlamedThroughResets, WithoutNotices};

/// An audit reports no violation by a host of any rule at its own interface, in the host's whole
/// recording and for any choice of rules. This holds for any calls, any received bits, any resets
/// of its IMP, and any records of other interfaces, if the numbers of the host, its peers and its
/// calls fit their fields.
pub fn no_host_is_blamed_through_resets()
    // theorem: No false alarm. If the records of a file at the interface of one of these hosts are
    // its whole recording, from its first state on, then an audit of the whole capture reports
    // there no violation by that host, of any rule: for any calls whose numbers fit, any received
    // bits, any resets of its IMP, whether the host heeds them or not, and any other records of the
    // file.
    ensures { (judged : Rule → Bool) → NobodyBlamedThroughResets judged }
{}

/// In a capture without interface resets and refused messages, an audit finds what it would if it
/// knew of neither.
pub fn nothing_changes_without_resets()
    ensures { WithoutNotices }
{}

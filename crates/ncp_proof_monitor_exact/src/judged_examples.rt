//! Five captures: one that was judged throughout, two that lack records, and two to which the laws
//! do not apply.
ghost use Rattle.std.specs.Prelude.{◌≡◌, [], true, false, Some, None};
ghost use Rattle.std.specs.List.{list_all};
ghost use Rattle.ncp_monitor.specs.declared.coverage.Unjudged.TheVariants.{Late, Suspended, Restarted, Alone};
ghost use Rattle.ncp_monitor.specs.Judged.{new_monitor};
ghost use Rattle.ncp_proof_interface_resets.specs.ResetRuns.{has_no_notice, judged_in};
ghost use Rattle.ncp_proof_monitor_exact.specs.Examples.{once, unseen};
ghost use Rattle.ncp_proof_monitor_exact.specs.Judged.{reason_for};
ghost use Rattle.ncp_proof_monitor_exact.specs.JudgedExamples.{seen_late, unasked, reset};

/// An RST that is delivered once, with the records of both hosts: all was judged.
pub fn all_of_one_rst_is_judged()
    ensures found { judged_in (new_monitor false) once ≡ [] }
    ensures sender { reason_for once 1 2 ≡ None }
    ensures receiver { reason_for once 2 1 ≡ None }
    ensures others { reason_for once 1 3 ≡ None }
{}

/// Without a record of host 2, or with its first one after the RFNM, the delivery was not judged.
pub fn records_are_lacking()
    ensures alone { reason_for unseen 1 2 ≡ Some Alone }
    ensures clean { judged_in (new_monitor false) seen_late ≡ [] }
    ensures unnoticed { list_all has_no_notice seen_late ≡ true }
    ensures late { reason_for seen_late 1 2 ≡ Some Late }
{}

/// After a finding the session may be suspended; after an interface reset the peer is not judged,
/// though nothing is found.
pub fn other_captures_are_not_judged()
    ensures suspended { reason_for unasked 1 2 ≡ Some Suspended }
    ensures clean { judged_in (new_monitor false) reset ≡ [] }
    ensures restarted { reason_for reset 1 2 ≡ Some Restarted }
{}

//! The replies that a host owes, in order.
ghost use Rattle.std.specs.Prelude.{◌≡◌, []};
ghost use Rattle.ncp_proof_monitor_network.specs.Owing.{NextOwed, is_returning_on, any_owing, owed_after};
ghost use Rattle.ncp_proof_monitor_network.specs.TwoOwed.{two_returns, echo_and_return};

/// Worked cases: a RET may skip another RET, which is then no longer owed; it may not skip an ERP.
pub fn no_erp_is_passed_over()
    ensures next { NextOwed (is_returning_on 5) any_owing two_returns }
    ensures following { owed_after (is_returning_on 5) two_returns ≡ [] }
    ensures passed { ¬ NextOwed (is_returning_on 5) any_owing echo_and_return }
{}

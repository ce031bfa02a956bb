//! Worked captures of the interface of host 1: a sound one, and one for each of thirteen rules.
ghost use Rattle.std.specs.Prelude.{◌≡◌, ◌∷◌, [], false};
ghost use Rattle.ncp_wire.specs.declared.command.Command.{Command};
ghost use Rattle.ncp_monitor.specs.declared.finding.Rule.{Rule};
ghost use Rattle.ncp_monitor.specs.Judged.{new_monitor, by_host};
ghost use Rattle.ncp_proof_monitor_messages.specs.Files.{findings_in};
ghost use Rattle.ncp_proof_monitor_exact.specs.Cases.{opened, to_itself, wrong_type, wrong_link, wrong_size, with_flags, busy_link, other_message, bad_opcode, reset_while_busy, reset_before_reply, reply_omitted, echo_omitted, closed_while_busy};

/// An audit reports nothing for a reset and a connection opened after it (`right`). For each other
/// capture it reports that host 1 broke the rule of the clause. An RST before an owed RRP also
/// leaves that RRP out (`rrp_first`).
pub fn each_rule_is_found()
    ensures right { findings_in (new_monitor false) opened ≡ [] }
    ensures own_host { findings_in (new_monitor false) to_itself ≡ by_host 1 (Rule.OwnHost 0 0) ∷ [] }
    ensures kind { findings_in (new_monitor false) wrong_type ≡ by_host 1 (Rule.Kind 5) ∷ [] }
    ensures wrong_link { findings_in (new_monitor false) wrong_link ≡ by_host 1 (Rule.WrongLink 1) ∷ [] }
    ensures wrong_size { findings_in (new_monitor false) wrong_size ≡ by_host 1 (Rule.WrongSize 16) ∷ [] }
    ensures extras { findings_in (new_monitor false) with_flags ≡ by_host 1 (Rule.Extras 1 0 8 0) ∷ [] }
    ensures occupied { findings_in (new_monitor false) busy_link ≡ by_host 1 (Rule.Occupied 0) ∷ [] }
    ensures changed { findings_in (new_monitor false) other_message ≡ by_host 1 (Rule.Changed 0) ∷ [] }
    ensures bad { findings_in (new_monitor false) bad_opcode ≡ by_host 1 (Rule.Bad (record { code = 1; bytes = 14 ∷ 0 ∷ 0 ∷ 0 ∷ 0 ∷ 0 ∷ 0 ∷ 0 ∷ 0 ∷ 0 ∷ [] })) ∷ [] }
    ensures unquiet { findings_in (new_monitor false) reset_while_busy ≡ by_host 1 (Rule.Unquiet false 2) ∷ [] }
    ensures rrp_first { findings_in (new_monitor false) reset_before_reply ≡ by_host 1 Rule.RrpFirst ∷ by_host 1 Rule.MissingRrp ∷ [] }
    ensures missing_rrp { findings_in (new_monitor false) reply_omitted ≡ by_host 1 Rule.MissingRrp ∷ [] }
    ensures missing { findings_in (new_monitor false) echo_omitted ≡ by_host 1 (Rule.Missing (Command.Erp 1)) ∷ [] }
    ensures text_out { findings_in (new_monitor false) closed_while_busy ≡ by_host 1 (Rule.TextOut (Command.Cls 3 2) 2) ∷ [] }
{}

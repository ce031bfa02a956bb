//! An ERR about a text, and one about a command.
ghost use Rattle.std.specs.Prelude.{◌≡◌, ◌∷◌, [], true, false};
ghost use Rattle.ncp_wire.specs.declared.command.Command.TheVariants.{All, Err};
ghost use Rattle.ncp_wire.specs.Spelling.{error_of};
ghost use Rattle.ncp_proof_monitor_allocation.specs.TextErrors.{is_text_error};

/// Worked cases: the first byte of its data distinguishes an ERR about a text from one about a
/// command.
pub fn errors_are_distinguished()
    ensures command { is_text_error (error_of 5 (All 2 1 8)) ≡ false }
    ensures text { is_text_error (Err 5 (0 ∷ 4 ∷ 0 ∷ 32 ∷ [])) ≡ true }
{}

//! Echoes: when a host answers an ECO, and that it never answers an ERP or ERR.
ghost use Rattle.std.specs.Prelude.{◌≡◌, ℕ, Bool, List};
ghost use Rattle.ncp_wire.specs.declared.command.Command.{Command};
ghost use Rattle.ncp_wire.specs.declared.command.Command.TheVariants.{Eco, Erp};
ghost use Rattle.ncp_model.specs.Peers.{Peer, hears, falls};
ghost use Rattle.ncp_model.specs.Phase.{up};
ghost use Rattle.ncp_model.specs.PhaseRows.{WhileUpWithPlace, WhileUpWithoutPlace, with_queued};
ghost use Rattle.ncp_model.specs.PeerRows.{WhileNotUp};
ghost use Rattle.ncp_model.specs.Rows.{err};

use ncp_wire::Command;

/// A host that is up answers each ECO with an ERP of its byte, queued last, regardless of the
/// queued commands (`answered`); if 512 commands are queued it goes down, as with any command that
/// does not fit (`too_many`). An ERP and an ERR make no command, regardless of their bytes: so no
/// echo loops (`erp`, `err`). While the host is not up, it drops an ECO and an ERP (`dropped`,
/// `dropped_reply`).
pub fn each_eco_is_answered_and_no_erp_is()
    ensures answered { (quiet : Bool) (n : ℕ) → WhileUpWithPlace (λ p. hears quiet (Eco n) p ≡ with_queued (Erp n) p) }
    ensures too_many { (quiet : Bool) (byte : ℕ) → WhileUpWithoutPlace (λ p. hears quiet (Eco byte) p ≡ falls p) }
    ensures erp { (quiet : Bool) (byte : ℕ) (p : Peer) → (hears quiet (Command.Erp byte) p).phase ≡ p.phase }
    ensures err { (quiet : Bool) (n : ℕ) (bytes : List ℕ) (p : Peer) → (hears quiet (err n bytes) p).phase ≡ p.phase }
    ensures dropped { (quiet : Bool) (byte : ℕ) → WhileNotUp (λ p. hears quiet (Eco byte) p ≡ p) }
    ensures dropped_reply { (quiet : Bool) (byte : ℕ) → WhileNotUp (λ p. hears quiet (Erp byte) p ≡ p) }
{}

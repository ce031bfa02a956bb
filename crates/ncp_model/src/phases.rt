//! Laws of a host's phase that the theorem on resets does not state.
ghost use Rattle.std.specs.Prelude.{◌≡◌, ℕ, Bool, true, false, ◌++◌, ◌<◌, ◌≤◌, List, [], ◌∷◌, length, replicate, Ok, Err};
ghost use Rattle.std.specs.List.{filter};
ghost use Rattle.ncp_wire.specs.declared.command.Command.{Command};
ghost use Rattle.ncp_wire.specs.declared.command.Command.TheVariants.{Nop, Rts, All, Rst, Rrp};
ghost use Rattle.ncp_model.specs.Phase.{Phase, Reaction, new_phase, up, is_reset, is_other, purge, phase_settles, is_resetting, reset_answer, wants_reset, resets, owes_answer, hears_rst, hears_rrp, is_stray_rrp, goes_down, phase_makes, makes_all, is_dropped, phase_hears, queued};
ghost use Rattle.ncp_model.specs.PeerRows.{flagged};
ghost use Rattle.ncp_model.specs.Rows.{err};
ghost use Rattle.ncp_wire.specs.Spelling.{IsCommand, spelling, spellings};
ghost use Rattle.ncp_model.specs.Sending.{is_full, next_commands};
ghost use Rattle.ncp_model.specs.EndpointEvents.{happens};
ghost use Rattle.ncp_model.specs.InTables.{WhateverHappens};
ghost use Rattle.ncp_model.specs.PhaseRows.{settled, WhereRrpIsDue, WhereRstIsDue, WhereBothAreDue, awaiting_rrp, IfUp, IfMayReset, OfOthersWhileUp, OfOthersWhileNotUp, on_inr, on_inr_full, OfFirstLeftOut, bytes_of_commands, TakesSome};

use crate::call_fault::CallFault;
use crate::limits::{MAX_CONTROL, MAX_WAITING};

/// A host queues RST and RRP only while its data links are quiet, the RRP first. It queues neither
/// while one of the same kind is queued.
pub fn resets_wait_for_quiet()
    ensures unquiet { (p : Phase) → phase_settles false p ≡ p }
    ensures unquiet_reset { (p : Phase) → is_resetting p ≡ false → resets false p ≡ wants_reset p }
    ensures unquiet_rst { (p : Phase) → hears_rst false p ≡ owes_answer p }
    ensures neither { (p : Phase) → p.owe ≡ false → p.want ≡ false → phase_settles true p ≡ p }
    ensures answer { WhereRrpIsDue (λ p. settled p ≡ record (queued Rrp p) { down = false; owe = false }) }
    ensures reset { WhereRstIsDue (λ p. settled p ≡ record (queued Rst p) { down = false; want = false; wait = true }) }
    ensures both { WhereBothAreDue false (λ p. settled p ≡ awaiting_rrp (p.waiting ++ (Rrp ∷ Rst ∷ []))) }
    ensures not_twice { WhereBothAreDue true (λ p. settled p ≡ awaiting_rrp p.waiting) }
{}

/// While a host is not up, calls and replies queue nothing, and every command that arrives except
/// RST and RRP is dropped. Calls and replies never queue an RST or RRP.
pub fn only_resets_while_not_up()
    ensures makes { (c : Command) (p : Phase) → up p ≡ false → phase_makes c p ≡ p }
    ensures drops { (r : Reaction) → OfOthersWhileNotUp (λ c p. phase_hears c r p ≡ p) }
    ensures dropped { (c : Command) (r : Reaction) (p : Phase) → is_dropped c p ≡ true → phase_hears c r p ≡ p }
    ensures rst_not_dropped { (p : Phase) → is_dropped Rst p ≡ false }
    ensures rrp_not_dropped { (p : Phase) → is_dropped Rrp p ≡ false }
    ensures nop_not_dropped_when_up { (p : Phase) → up p ≡ true → is_dropped Nop p ≡ false }
    ensures rst { (p : Phase) → phase_makes Rst p ≡ p }
    ensures rrp { (p : Phase) → phase_makes Rrp p ≡ p }
    ensures counted { OfOthersWhileNotUp (λ c p. is_dropped c p ≡ true) }
{}

/// A purge removes every queued command except RST and RRP, and changes no flag.
pub fn purges_keep_resets()
    ensures kept { (p : Phase) → filter is_reset (purge p).waiting ≡ filter is_reset p.waiting }
    ensures struck { (p : Phase) → filter is_other (purge p).waiting ≡ [] }
    ensures flags { (p : Phase) → record (purge p) { waiting = p.waiting } ≡ p }
    ensures reset { (p : Phase) → wants_reset p ≡ record (purge p) { want = true } }
    ensures rst { (p : Phase) → owes_answer p ≡ record (purge p) { owe = true } }
    ensures down { (p : Phase) → goes_down p ≡ record (purge p) { down = true } }
{}

/// A peer starts with `down` alone, and the host is up exactly when no flag is set. A reset is
/// refused while one is wanted or awaited. An RRP ends the wait for one, and is stray if none is
/// awaited.
pub fn flags_tell_the_phase()
    ensures start { new_phase ≡ record { down = true; want = false; owe = false; wait = false; waiting = [] } }
    ensures down { (want owe wait : Bool) (cs : List Command) → up (flagged true want owe wait cs) ≡ false }
    ensures want { (down owe wait : Bool) (cs : List Command) → up (flagged down true owe wait cs) ≡ false }
    ensures owe { (down want wait : Bool) (cs : List Command) → up (flagged down want true wait cs) ≡ false }
    ensures wait { (down want owe : Bool) (cs : List Command) → up (flagged down want owe true cs) ≡ false }
    ensures none { (cs : List Command) → up (flagged false false false false cs) ≡ true }
    ensures wanted { (quiet : Bool) (p : Phase) → p.want ≡ true → reset_answer p ≡ Err CallFault.Busy }
    ensures wanted_stays { (quiet : Bool) (p : Phase) → p.want ≡ true → resets quiet p ≡ p }
    ensures awaited { (quiet : Bool) (p : Phase) → p.wait ≡ true → reset_answer p ≡ Err CallFault.Busy }
    ensures awaited_stays { (quiet : Bool) (p : Phase) → p.wait ≡ true → resets quiet p ≡ p }
    ensures accepted { (quiet : Bool) → IfMayReset (λ p. reset_answer p ≡ Ok tt) }
    ensures accepted_settles { (quiet : Bool) → IfMayReset (λ p. resets quiet p ≡ phase_settles quiet (wants_reset p)) }
    ensures rst { (quiet : Bool) (p : Phase) → hears_rst quiet p ≡ phase_settles quiet (owes_answer p) }
    ensures rrp { (p : Phase) → hears_rrp p ≡ record p { wait = false } }
    ensures stray { (p : Phase) → p.wait ≡ false → is_stray_rrp p ≡ true }
    ensures stray_stays { (p : Phase) → p.wait ≡ false → hears_rrp p ≡ p }
    ensures awaits { (p : Phase) → p.wait ≡ true → is_stray_rrp p ≡ false }
{}

/// A new command is queued last. The host goes down if it would be the 513th, and if the table has
/// no room for the peer's request.
pub fn goes_down_at_the_513th()
    ensures index { OfOthersWhileUp (λ c p. length p.waiting < MAX_WAITING → phase_makes c p ≡ queued c p) }
    ensures none { OfOthersWhileUp (λ c p. MAX_WAITING ≤ length p.waiting → phase_makes c p ≡ goes_down p) }
    ensures limit { MAX_WAITING ≡ 512 }
    ensures full { (on : ℕ) (cs : List Command) (quiet : Bool) → IfUp (λ p. on_inr_full on quiet cs p ≡ goes_down p) }
    ensures no_reply { (c d : Command) (cs : List Command) (p : Phase) → makes_all [] p ≡ p }
    ensures replies { (c d : Command) (cs : List Command) (p : Phase) → makes_all (c ∷ d ∷ cs) p ≡ makes_all cs (phase_makes d (phase_makes c p)) }
    ensures reply { (on : ℕ) (quiet : Bool) (c : Command) → IfUp (λ p. on_inr on quiet (c ∷ []) p ≡ phase_makes c p) }
{}

/// A control message has whole commands from the front of the queue, at most 120 bytes of them:
/// fifteen of 8 bytes, ten of 12. A call finds no room when 256 or more commands are queued.
pub fn control_messages_are_filled()
    ensures beginning { (cs : List Command) → (rest : List Command) × (next_commands cs ++ rest ≡ cs) }
    ensures fits { (cs : List Command) → length (spellings (next_commands cs)) ≤ MAX_CONTROL }
    ensures no_more_fits { OfFirstLeftOut (λ cs c. MAX_CONTROL < bytes_of_commands (next_commands cs ++ c ∷ [])) }
    ensures at_least_one { (c : Command) (cs : List Command) → length (spelling c) ≤ MAX_CONTROL → TakesSome (c ∷ cs) }
    ensures every_one { (c : Command) → IsCommand c → length (spelling c) ≤ MAX_CONTROL }
    ensures fifteen { next_commands (replicate 16 (All 2 1 0)) ≡ replicate 15 (All 2 1 0) }
    ensures ten { next_commands (replicate 11 (err 3 (replicate 10 0))) ≡ replicate 10 (err 3 (replicate 10 0)) }
    ensures order { next_commands (Rrp ∷ Rst ∷ Rts 2 3 2 ∷ []) ≡ Rrp ∷ Rst ∷ Rts 2 3 2 ∷ [] }
    ensures none { next_commands [] ≡ [] }
    ensures full { (p : Phase) → 256 ≤ length p.waiting → is_full p ≡ true }
    ensures not_full { (p : Phase) → length p.waiting ≤ 255 → is_full p ≡ false }
{}

/// No event of an endpoint makes an RST or an RRP; only the phase does.
pub fn acts_make_no_resets()
    ensures { WhateverHappens (λ pair what before. filter is_reset (happens pair what before).made ≡ []) }
{}

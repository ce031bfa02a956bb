//! Two hosts that reset: the theorem on their commands, and worked schedules.
ghost use Rattle.std.specs.Prelude.{◌≡◌, Bool, true, false, ◌++◌, List, [], ◌∷◌};
ghost use Rattle.std.specs.List.{list_any};
ghost use Rattle.ncp_wire.specs.declared.command.Command.{Command};
ghost use Rattle.ncp_wire.specs.declared.command.Command.TheVariants.{Rst, Rrp};
ghost use Rattle.ncp_model.specs.Phase.{Reaction, up, is_rrp, is_reset, is_other, phase_makes, makes_all, phase_hears, hears_rst, up_phase};
ghost use Rattle.ncp_proof_machine.specs.Delivery.{Ready, Free, Accepted, idle};
ghost use Rattle.ncp_proof_machine.specs.Resets.{ResetHost, ResetStep, ResetWorld, That, reset_steps, reset_run, is_up, Silent, Agrees, NothingFollows, host_resets, host_settles, host_falls, host_makes, host_makes_all, host_hears, host_hears_all};
ghost use Rattle.ncp_model.specs.Phase.{phase_settles, resets, goes_down};
ghost use Rattle.ncp_proof_machine.specs.Schedules.{both_come_up, both_ask, goes_and_is_lost, goes_and_finds_none, two_of_three, heard_with_text_out, falls_answering};
ghost use Rattle.ncp_proof_machine.specs.AfterResets.{AfterResets, WhereBothCameUp, CanBe, CameAlone, WhereWaitingEnds, RrpComes, WhileWaiting, OfHeard, restarted, this_phase_after, that_phase_after, waiting_to_say, awaiting_and_saying, asked_by_both, answered_by_both, lost_and_again, held_and_again, woken_and_again, all_three, third_too_soon, answered_late, inr_held, two_inrs_out};
ghost use Rattle.ncp_model.specs.PhaseRows.{settled};

/// After every schedule, between two hosts that are up: no RST or RRP is underway (queued or in
/// flight), and the commands received followed by those underway are the commands made, in order.
pub fn commands_act_once_in_each_schedule()
    ensures there { WhereBothCameUp (λ w. Agrees w.this w.going w.that) }
    ensures back { WhereBothCameUp (λ w. Agrees w.that w.coming w.this) }
{}

/// Worked example: from the start both hosts can come up, and any command except RST and RRP can
/// arrive.
pub fn both_come_up()
    ensures { (c : Command) → is_other c ≡ true → CanBe (CameAlone c) }
{}

/// The history variables have no influence: without them each step is a step of the phase.
pub fn reset_histories_only_watch()
    ensures resets { (quiet : Bool) (h : ResetHost) → (host_resets quiet h).phase ≡ resets quiet h.phase }
    ensures settles { (quiet : Bool) (h : ResetHost) → (host_settles quiet h).phase ≡ phase_settles quiet h.phase }
    ensures falls { (h : ResetHost) → (host_falls h).phase ≡ goes_down h.phase }
    ensures makes { (c : Command) (h : ResetHost) → (host_makes c h).phase ≡ phase_makes c h.phase }
    ensures makes_all { (cs : List Command) (h : ResetHost) → (host_makes_all cs h).phase ≡ makes_all cs h.phase }
    ensures hears { (c : Command) (r : Reaction) (h : ResetHost) → (host_hears c r h).phase ≡ phase_hears c r h.phase }
{}

/// Both hosts reset while an RTS is queued: it is struck, that host's message is an RST alone, each
/// answers, and both come up.
pub fn reset_from_both_sides()
    ensures up { this_phase_after both_come_up ≡ up_phase }
    ensures up_there { that_phase_after both_come_up ≡ up_phase }
    ensures alone { (reset_run (both_come_up ++ both_ask)).coming.subnet ≡ Accepted (Command.Rst ∷ []) }
    ensures asked { this_phase_after asked_by_both ≡ awaiting_and_saying (Command.Rrp ∷ []) }
    ensures asked_there { that_phase_after asked_by_both ≡ awaiting_and_saying (Command.Rrp ∷ []) }
    ensures answered { this_phase_after answered_by_both ≡ up_phase }
    ensures answered_there { that_phase_after answered_by_both ≡ up_phase }
{}

/// A peer resets while a text is unacknowledged: its RST is answered only after the RFNM. A host
/// that resets while its own text is unacknowledged makes its RST only after the RFNM.
pub fn reset_with_text_out()
    ensures rst { hears_rst false up_phase ≡ record up_phase { owe = true } }
    ensures rfnm { settled (record up_phase { owe = true }) ≡ waiting_to_say (Command.Rrp ∷ []) }
    ensures reset { resets false up_phase ≡ record up_phase { want = true } }
    ensures rfnm_too { settled (record up_phase { want = true }) ≡ awaiting_and_saying (Command.Rst ∷ []) }
    ensures crossed { hears_rst false (record up_phase { want = true }) ≡ record up_phase { want = true; owe = true } }
    ensures both { settled (record up_phase { want = true; owe = true }) ≡ awaiting_and_saying (Rrp ∷ Rst ∷ []) }
{}

/// From making an RST until an RRP arrives, a host acts on these two only: it stops waiting only in
/// a step in which a message with an RRP arrives; a message without RST and RRP has no effect; and
/// no other command is made.
pub fn nothing_acts_until_the_reset_is_answered()
    ensures until { WhereWaitingEnds RrpComes }
    ensures each { (step : ResetStep) (w : ResetWorld) → (reset_steps step w).that ≡ w.that }
    ensures waits { WhileWaiting (λ cs rs h. list_any is_rrp cs ≡ false → (host_hears_all cs rs h).phase.wait ≡ true) }
    ensures idle { WhileWaiting (λ cs rs h. list_any is_reset cs ≡ false → host_hears_all cs rs h ≡ h) }
    ensures silent { (c : Command) (h : ResetHost) → h.phase.wait ≡ true → host_makes c h ≡ h }
{}

/// Worked examples of the events of these schedules. A control message that is lost is sent again
/// and heard once; one whose destination is dead is held until a wake, then sent again and heard
/// once. Queued commands are sent from the front, one message at a time. An RST that arrives while
/// a text is unacknowledged is answered after it. A host that goes down keeps only its RRP queued.
pub fn schedules_lose_cut_and_hold()
    ensures lost { (reset_run goes_and_is_lost).going ≡ record { slot = Ready (Command.Inr 2 ∷ []); subnet = Free } }
    ensures once_after_loss { (reset_run lost_and_again).going ≡ idle }
    ensures once_after_loss_heard { (reset_run lost_and_again).that.came ≡ Command.Inr 2 ∷ [] }
    ensures held { (reset_run goes_and_finds_none).going ≡ inr_held }
    ensures held_still { (reset_run held_and_again).going ≡ inr_held }
    ensures once_after_waking { (reset_run woken_and_again).going ≡ idle }
    ensures once_after_waking_heard { (reset_run woken_and_again).that.came ≡ Command.Inr 2 ∷ [] }
    ensures two { (reset_run two_of_three).going ≡ two_inrs_out }
    ensures two_and_one_waits { (this_phase_after two_of_three).waiting ≡ Command.Inr 4 ∷ [] }
    ensures then_one { (reset_run all_three).that.came ≡ Command.Inr 2 ∷ Command.Inr 3 ∷ Command.Inr 4 ∷ [] }
    ensures then_none_waits { (this_phase_after all_three).waiting ≡ [] }
    ensures one_at_a_time { (this_phase_after third_too_soon).waiting ≡ Command.Inr 4 ∷ [] }
    ensures owed { (reset_run heard_with_text_out).that.phase ≡ record up_phase { owe = true } }
    ensures answered { this_phase_after answered_late ≡ up_phase }
    ensures answered_there { that_phase_after answered_late ≡ up_phase }
    ensures fallen { that_phase_after falls_answering ≡ record up_phase { down = true; waiting = Command.Rrp ∷ [] } }
    ensures fallen_made { (reset_run falls_answering).that.made ≡ [] }
{}

/// After every schedule, a host that is not up has made and received no command since it was
/// cleared, and has no queued commands except RST and RRP.
pub fn hosts_that_are_not_up_are_silent()
    ensures there { AfterResets (λ w. is_up w.this ≡ false → Silent w.this) }
    ensures back { AfterResets (λ w. is_up w.that ≡ false → Silent w.that) }
{}

/// A host acts on an RST before the commands that follow it in the message. After every schedule,
/// until an RST arrives only RST and RRP follow it.
pub fn resets_come_before_what_follows()
    ensures acts { OfHeard (λ cs r rs h. host_hears_all (Rst ∷ cs) (r ∷ rs) h ≡ host_hears_all cs rs (restarted r h)) }
    ensures there { AfterResets (λ w. NothingFollows w.this w.going) }
    ensures back { AfterResets (λ w. NothingFollows w.that w.coming) }
{}

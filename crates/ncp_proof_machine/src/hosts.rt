//! Theorems about two hosts with their connections, and worked schedules.
ghost use Rattle.std.specs.Prelude.{◌≡◌, List, [], ◌∷◌, true, false, None, Some};
ghost use Rattle.std.specs.FinMap.{get};
ghost use Rattle.ncp_model.specs.Ends.{no_ends, hears_link, uses_link};
ghost use Rattle.ncp_proof_endpoint.specs.Sound.{SoundAt};
ghost use Rattle.ncp_proof_machine.specs.Resets.{is_up, Agrees, Silent, ResetEvent, reset_run};
ghost use Rattle.ncp_proof_machine.specs.Hosts.{node_hears, NodeEvent, run, base};
ghost use Rattle.ncp_proof_machine.specs.Delivery.{Ready, Held, Free, idle};
ghost use Rattle.ncp_wire.specs.declared.command.Command.{Command};
ghost use Rattle.ncp_model.specs.Echo.{no_echoes};
ghost use Rattle.ncp_model.specs.Rows.{ones, size_heard, asked_receive, opened_end, counting, sent_one, due, gone, shut, err};
ghost use Rattle.ncp_proof_machine.specs.HostRuns.{with_text_out, got_and_taken, lost_twice, held_back, woken_again, both_reset, reset_under_text, reset_over, asks_again, closed_by_receiver, over_by_receiver, opened_again, closed_by_sender, over_by_sender, other_outward, other_inward, opens_another, reset_under_other_text, request_lost, request_again, request_held, request_woken, echo_asks, echo_comes_back, open_with_echo, fallen, both_interrupt};
ghost use Rattle.ncp_proof_machine.specs.Seen.{CallsAgree, EchoesAgree, ResetsAgree, FallsAgree, HearsAgree, TextsAgree, FreesAgree, SettlesAgree, HearingAgrees, CutsAgree, SendsAgree, StepsAgree, OtherNodeStays};
ghost use Rattle.ncp_proof_machine.specs.Watching.{WatchesAgree, OtherWatchesStay};
ghost use Rattle.ncp_proof_machine.specs.Moving.{ControlMoves, TextsMove, ControlIsHeard, TextsAreHeard};
ghost use Rattle.ncp_model.specs.Phase.{up_phase};
ghost use Rattle.ncp_proof_machine.specs.After.{AfterAll, WhereBothAreUp, AreDistinct, sender_after, receiver_after, got_after, taken_after, travelling_text, held_text, OfErrorsWhileUp, keeps_error};
ghost use Rattle.ncp_model.specs.InUse.{byte_left, two_sent, got_two};
ghost use Rattle.ncp_model.specs.RowFacts.{linked_by, with_interrupts};

use ncp_model::Pair;

/// After every schedule of two hosts with all their connections and texts, between two that are up:
/// no RST or RRP is underway (queued or in flight), and the commands received followed by those
/// underway are the commands made, in order. A host that is not up has made and received no command
/// since it was cleared.
pub fn hosts_act_once_in_order()
    ensures projected { (events : List NodeEvent) → (es : List ResetEvent) × (base (run events) ≡ reset_run es) }
    ensures there { WhereBothAreUp (λ w. Agrees w.this.host w.this.control w.that.host) }
    ensures back { WhereBothAreUp (λ w. Agrees w.that.host w.that.control w.this.host) }
    ensures silent { AfterAll (λ w. is_up w.this.host ≡ false → Silent w.this.host) }
    ensures silent_too { AfterAll (λ w. is_up w.that.host ≡ false → Silent w.that.host) }
{}

/// After every schedule, a host that is not up has no ends, and each end is sound. At this host no
/// two ends that send, and no two that receive, use one link.
pub fn ends_stand_only_while_up()
    ensures none { AfterAll (λ w. is_up w.this.host ≡ false → w.this.ends ≡ no_ends) }
    ensures none_too { AfterAll (λ w. is_up w.that.host ≡ false → w.that.ends ≡ no_ends) }
    ensures sound { (events : List NodeEvent) (pair : Pair) → SoundAt pair (get (run events).this.ends pair) }
    ensures sound_too { (events : List NodeEvent) (pair : Pair) → SoundAt pair (get (run events).that.ends pair) }
    ensures pairwise_distinct { AfterAll (λ w. AreDistinct hears_link w.this.ends) }
    ensures distinct_too { AfterAll (λ w. AreDistinct uses_link w.this.ends) }
{}

/// Worked example: both hosts come up, a connection opens, two of three bytes are sent, received,
/// and taken.
pub fn text_comes_over()
    ensures out { sender_after with_text_out ≡ Some two_sent }
    ensures out_there { receiver_after with_text_out ≡ Some (counting 2 16) }
    ensures out_on_link { (run with_text_out).this.texts 2 ≡ travelling_text }
    ensures taken { sender_after got_and_taken ≡ Some byte_left }
    ensures taken_there { receiver_after got_and_taken ≡ Some (counting 1 0) }
    ensures taken_bits { taken_after got_and_taken ≡ ones 16 }
    ensures taken_and_answered { (run got_and_taken).this.texts 2 ≡ idle }
    ensures taken_safely { (run got_and_taken).that.violated ≡ false }
{}

/// A text that is lost twice arrives once. One whose destination is dead is held, and arrives once
/// after a wake.
pub fn text_comes_once()
    ensures lost_twice { sender_after lost_twice ≡ Some byte_left }
    ensures lost_twice_there { receiver_after lost_twice ≡ Some got_two }
    ensures lost_twice_got { got_after lost_twice ≡ ones 16 }
    ensures held { (run held_back).this.texts 2 ≡ held_text }
    ensures held_at_sender { sender_after held_back ≡ Some two_sent }
    ensures woken { (run woken_again).this.texts 2 ≡ idle }
    ensures woken_got { got_after woken_again ≡ ones 16 }
{}

/// Resets: both hosts reset while a request is queued; and a host resets while a text to it is
/// unacknowledged. That text is dropped, and the RRP waits for its RFNM. Then both are up without
/// ends, and the receiver can ask again.
pub fn resets_leave_no_ends()
    ensures both { (run both_reset).this.host.phase ≡ up_phase }
    ensures both_there { (run both_reset).that.host.phase ≡ up_phase }
    ensures both_no_end { sender_after both_reset ≡ None }
    ensures both_no_end_there { receiver_after both_reset ≡ None }
    ensures waits { (run reset_under_text).this.host.phase ≡ record up_phase { owe = true } }
    ensures waits_there { (run reset_under_text).that.host.phase ≡ record up_phase { wait = true } }
    ensures waits_no_end { sender_after reset_under_text ≡ None }
    ensures waits_no_end_there { receiver_after reset_under_text ≡ None }
    ensures waits_nothing_got { got_after reset_under_text ≡ [] }
    ensures up { (run reset_over).this.host.phase ≡ up_phase }
    ensures up_there { (run reset_over).that.host.phase ≡ up_phase }
    ensures again { receiver_after asks_again ≡ Some asked_receive }
    ensures again_safely { (run asks_again).that.violated ≡ false }
{}

/// Closing while a text is unacknowledged: if the receiver closes, the text is late; if the sender
/// closes, it is got. In both cases both ends end. After the receiver's close, the connection opens
/// again on the same link.
pub fn closing_waits_for_text()
    ensures late { sender_after closed_by_receiver ≡ Some (shut (due (sent_one (counting 1 0)))) }
    ensures late_there { receiver_after closed_by_receiver ≡ Some (gone (counting 2 16)) }
    ensures late_nothing_got { got_after closed_by_receiver ≡ [] }
    ensures over { sender_after over_by_receiver ≡ None }
    ensures over_there { receiver_after over_by_receiver ≡ None }
    ensures over_safely { (run over_by_receiver).that.violated ≡ false }
    ensures again { sender_after opened_again ≡ Some opened_end }
    ensures again_there { receiver_after opened_again ≡ Some opened_end }
    ensures got { sender_after closed_by_sender ≡ Some (gone (counting 1 0)) }
    ensures got_there { receiver_after closed_by_sender ≡ Some (shut (due got_two)) }
    ensures over_too { sender_after over_by_sender ≡ None }
    ensures over_too_there { receiver_after over_by_sender ≡ None }
    ensures over_too_taken { taken_after over_by_sender ≡ ones 16 }
{}

/// A second connection opens on link 3, next to the first on link 2. A reset waits for its text
/// too.
pub fn connections_open_beside_each_other()
    ensures beside { sender_after opens_another ≡ Some opened_end }
    ensures beside_there { receiver_after opens_another ≡ Some opened_end }
    ensures beside_other { get (run opens_another).this.ends other_outward ≡ Some (linked_by 3) }
    ensures beside_other_there { get (run opens_another).that.ends other_inward ≡ Some (linked_by 3) }
    ensures waits { (run reset_under_other_text).this.host.phase ≡ record up_phase { owe = true } }
    ensures waits_for_none_there { (run reset_under_other_text).this.texts 2 ≡ idle }
    ensures waits_for_text { (run reset_under_other_text).this.texts 3 ≡ travelling_text }
{}

/// A control message that is lost arrives once. One whose destination is dead is held, is not sent
/// meanwhile, and arrives once after a wake.
pub fn control_messages_come_once()
    ensures lost { (run request_lost).this.control ≡ record { slot = Ready (Command.Str 3 2 8 ∷ []); subnet = Free } }
    ensures again { (run request_again).this.control ≡ idle }
    ensures again_heard { receiver_after request_again ≡ Some size_heard }
    ensures again_once { (run request_again).that.host.came ≡ Command.Str 3 2 8 ∷ [] }
    ensures held { (run request_held).this.control ≡ record { slot = Held (Command.Str 3 2 8 ∷ []); subnet = Free } }
    ensures held_unheard { receiver_after request_held ≡ None }
    ensures woken { (run request_woken).this.control ≡ idle }
    ensures woken_heard { receiver_after request_woken ≡ Some size_heard }
    ensures woken_once { (run request_woken).that.host.came ≡ Command.Str 3 2 8 ∷ [] }
{}

/// An ERP with the same byte answers an ECO, and ends the echo. A host that is up stores an ERR
/// with the last ones, and does nothing else about it.
pub fn echoes_and_errors_are_kept()
    ensures awaited { (run echo_asks).this.echoes ≡ record no_echoes { awaited = true } }
    ensures echoed { (run echo_comes_back).this.echoes ≡ record no_echoes { echoed = Some 65 } }
    ensures echoed_here_alone { (run echo_comes_back).that.echoes ≡ no_echoes }
    ensures echoed_came { (run echo_comes_back).that.host.came ≡ Command.Eco 65 ∷ [] }
    ensures echoed_came_back { (run echo_comes_back).this.host.came ≡ Command.Erp 65 ∷ [] }
    ensures error { OfErrorsWhileUp (λ code bytes n. node_hears (err code bytes) n ≡ keeps_error code bytes n) }
{}

/// A host that goes down with a connection open and an echo awaited drops both. Its peer does not
/// notice yet.
pub fn a_host_falls_with_ends_and_an_echo()
    ensures open { sender_after open_with_echo ≡ Some opened_end }
    ensures open_awaits { (run open_with_echo).this.echoes ≡ record no_echoes { awaited = true } }
    ensures open_waits { (run open_with_echo).this.host.phase ≡ record up_phase { waiting = Command.Eco 65 ∷ [] } }
    ensures fallen { sender_after fallen ≡ None }
    ensures fallen_echo { (run fallen).this.echoes ≡ no_echoes }
    ensures fallen_phase { (run fallen).this.host.phase ≡ record up_phase { down = true } }
    ensures fallen_made { (run fallen).this.host.made ≡ [] }
    ensures fallen_unnoticed { receiver_after fallen ≡ Some opened_end }
{}

/// The users' interrupts arrive: INS at the receiver, INR at the sender.
pub fn interrupts_are_counted()
    ensures sender { sender_after both_interrupt ≡ Some (with_interrupts 1 opened_end) }
    ensures receiver { receiver_after both_interrupt ≡ Some (with_interrupts 1 opened_end) }
    ensures came_there { (run both_interrupt).that.host.came ≡ Command.Str 3 2 8 ∷ Command.Ins 2 ∷ [] }
    ensures came { (run both_interrupt).this.host.came ≡ Command.Rts 2 3 2 ∷ Command.Inr 2 ∷ [] }
{}

/// The state of a host for its peer evolves by itself: each step of a host is a step of that state,
/// given the messages on the links, and no step changes the other host's state.
pub fn hosts_are_watched_peers()
    ensures calls { CallsAgree }
    ensures echoes { EchoesAgree }
    ensures resets { ResetsAgree }
    ensures falls { FallsAgree }
    ensures hears { HearsAgree }
    ensures messages { HearingAgrees }
    ensures texts { TextsAgree }
    ensures cuts { CutsAgree }
    ensures sends { SendsAgree }
    ensures frees { FreesAgree }
    ensures settles { SettlesAgree }
    ensures steps { StepsAgree }
    ensures others { OtherNodeStays }
{}

/// The step, the links, the host's state for its peer and its histories before the step determine
/// its histories after it. No step changes the other host's histories.
pub fn histories_only_watch_hosts()
    ensures steps { WatchesAgree }
    ensures others { OtherWatchesStay }
{}

/// The links of a host change as slots do, and the subnet accepts, loses, delivers and answers the
/// messages sent on them. No other step changes a link.
pub fn links_move_as_slots_do()
    ensures control { ControlMoves }
    ensures texts { TextsMove }
    ensures control_is_heard { ControlIsHeard }
    ensures texts_are_heard { TextsAreHeard }
{}

//! Laws about the rules of links, phases, padding and resets. Each contract is a theorem.
ghost use Rattle.std.specs.Prelude.{◌≡◌, ◌∷◌, [], replicate, true, false, Some, None};
ghost use Rattle.ncp_monitor.specs.declared.coverage.Unjudged.TheVariants as unjudged_for;
ghost use Rattle.ncp_monitor.specs.ConnStates.{suspended_pair};
ghost use Rattle.ncp_monitor.specs.Coverage.{nothing_passed, all_judged, has_suspended, depends_on, pair_noted, unjudged, unjudged_in};
ghost use Rattle.ncp_monitor.specs.declared.finding.Rule.TheVariants as rule;
ghost use Rattle.ncp_monitor.specs.declared.finding.ItemKind.TheVariants as thing;
ghost use Rattle.ncp_monitor.specs.declared.finding.Unsent.TheVariants as why;
ghost use Rattle.ncp_monitor.specs.declared.finding.Unopened.TheVariants as unopened;
ghost use Rattle.ncp_monitor.specs.Phases.{broken_by, is_early, items_findings, early_finding, after_items, after_room};
ghost use Rattle.ncp_monitor.specs.Views.{new_view};
ghost use Rattle.ncp_monitor.specs.Talked.{reaches};
ghost use Rattle.ncp_interface.specs.declared.event.InterfaceEvent.{InterfaceEvent};
ghost use Rattle.ncp_interface.specs.declared.doubt.Doubt.{Doubt};
ghost use Rattle.ncp_interface.specs.declared.sent_message.LinkState.{LinkState};
ghost use Rattle.ncp_monitor.specs.Messages.{is_padding};
ghost use Rattle.ncp_monitor.specs.Resets.{doubt_on, before_out, after_reset, becomes_unclear};
ghost use Rattle.ncp_monitor.specs.Judged.{slot_of_link, view_after_out, by_imp, shows_all, unsent_finding, false_finding};
ghost use Rattle.ncp_wire.specs.declared.command.Command.TheVariants.{Rts, Str, Cls, All, Gvb, Ret, Eco, Erp, Err};
ghost use Rattle.ncp_monitor.specs.ConnStates.{no_conn_tables, conn_at_index};
ghost use Rattle.ncp_monitor.specs.Allocation.{number_rules};
ghost use Rattle.ncp_monitor.specs.Texts.{text_rules};
ghost use Rattle.ncp_monitor.specs.Speaking.{command_rule, left_out};
ghost use Rattle.ncp_monitor.specs.Examples.{both_seen, one_seen, host_says, peer_says, open_books, host_closed, peer_closed, none_closed, cls_shown, over_tables, one_echo, text_after_cls, two_echoes, out_turn, while_busy, in_turn, in_while_busy, asked_twice, acted_on, early_nop, view_texts, text_passed, nop, rst, rrp, view_sends, replied_twice, view_hears, answered_twice, in_the_middle, one_out, one_message, two_out, one_came_two_out, an_all, all_on_3, too_many, a_ret, half_asked, sending_tables, allocated_tables, recalled_tables, returned_tables, used_tables, closing_tables, refused_tables, granted_tables, asked_tables, text_before_all, text_of_byte, text_of_seven, text_for_nobody};

/// Worked phases at host 1's interface: what each side may send before a reset, while it awaits the
/// RRP, and while it owes one.
pub fn phases_are_judged_so()
    ensures before { items_findings out_turn (nop ∷ []) (new_view false) ≡ broken_by out_turn (rule.Early thing.Nop false false false) ∷ [] }
    ensures reset { items_findings out_turn (rst ∷ nop ∷ rst ∷ []) (new_view false) ≡ broken_by out_turn (rule.Early thing.Nop true true false) ∷ broken_by out_turn rule.RstAgain ∷ [] }
    ensures replied { items_findings out_turn (nop ∷ []) (view_hears (rrp ∷ []) (view_sends (rst ∷ []) (new_view false))) ≡ [] }
    ensures owed { items_findings out_turn (nop ∷ rrp ∷ nop ∷ rrp ∷ []) (view_hears (rst ∷ []) (new_view false)) ≡ broken_by out_turn (rule.Early thing.Nop false false true) ∷ broken_by out_turn rule.RrpUnasked ∷ [] }
    ensures peer { items_findings in_turn (rst ∷ nop ∷ []) (new_view false) ≡ broken_by in_turn (rule.Early thing.Nop true true false) ∷ [] }
{}

/// Worked cases in which no rule is reported, because the wire does not show what a host did:
/// - after an RRP that nobody asked for, an RST and a NOP of the host: the RRP may answer this RST,
///   which was queued
/// - after a peer that sends an RST and goes on before the RRP, a text of the host: it may pass the
///   RRP. The RRP may follow while the text is outstanding, also after a second RST
/// - a text of the host after an RST of the peer that was not answered
///
/// If the host sends a NOP and a second RST before the RRP, the session is suspended when the RRP
/// arrives. After two RRPs for one RST it is not, until the host sends an RST or a text: it may have
/// had an RST queued.
pub fn nobody_is_blamed_at_rest()
    ensures unasked { items_findings out_turn (rst ∷ nop ∷ []) (view_hears (rrp ∷ []) (new_view false)) ≡ [] }
    ensures passing { early_finding out_turn thing.Text text_passed ≡ None }
    ensures following { items_findings while_busy (rrp ∷ []) (view_hears (rst ∷ []) text_passed) ≡ [] }
    ensures twice { early_finding out_turn thing.Text answered_twice ≡ None }
    ensures again { (view_hears (rrp ∷ []) (view_sends (rst ∷ nop ∷ rst ∷ []) (new_view false))).suspended ≡ true }
    ensures copied { replied_twice.suspended ≡ false }
    ensures queued { (view_sends (rst ∷ []) replied_twice).suspended ≡ true }
    ensures answered { (view_hears (rrp ∷ []) (view_hears (rst ∷ []) (view_sends (rst ∷ []) replied_twice))).suspended ≡ true }
    ensures text { (view_after_out replied_twice 2 LinkState.Empty false).suspended ≡ true }
    ensures control { (view_after_out replied_twice 0 LinkState.Empty false).suspended ≡ false }
    ensures room { (view_sends (rst ∷ []) (after_room out_turn true replied_twice)).suspended ≡ false }
{}

/// A peer whose RST came twice goes on after the first RRP. The host acts on what it sends, unless a
/// data link of the host is busy, or the host awaits an RRP: then it drops it. A text of the host may
/// pass the second RRP; without anything to act on it may not. That RRP and each RST end this. Until
/// then the host may go down, so it is not known what it left out.
pub fn what_comes_before_a_reply_is_judged_so()
    ensures judged { reaches in_turn thing.Nop asked_twice ≡ true }
    ensures early { items_findings in_turn (nop ∷ []) asked_twice ≡ early_nop ∷ [] }
    ensures known { acted_on.suspended ≡ false }
    ensures busy { reaches in_while_busy thing.Nop asked_twice ≡ false }
    ensures dropped { after_items in_while_busy (nop ∷ []) asked_twice ≡ asked_twice }
    ensures awaits { reaches in_turn thing.Nop (view_sends (rst ∷ []) asked_twice) ≡ false }
    ensures unacted { (view_hears (nop ∷ []) (view_sends (rst ∷ []) asked_twice)).acted ≡ false }
    ensures text { (view_texts acted_on).suspended ≡ true }
    ensures passing { early_finding out_turn thing.Text (view_texts acted_on) ≡ None }
    ensures control { (view_after_out acted_on 0 LinkState.Empty false).suspended ≡ false }
    ensures unasked { is_early out_turn thing.Text (view_texts asked_twice) ≡ true }
    ensures replied { (view_texts (view_sends (rrp ∷ []) acted_on)).suspended ≡ false }
    ensures reset { (view_sends (rst ∷ []) acted_on).acted ≡ false }
    ensures again { (view_hears (rst ∷ []) acted_on).acted ≡ false }
    ensures down { shows_all [] acted_on ≡ false }
    ensures up { shows_all [] asked_twice ≡ true }
{}

/// A capture that begins in the middle. The phase is not known before an RST, nor after one that
/// may already have been answered. In the middle both sides may be up, and one RRP that no RST
/// asked for is admitted.
pub fn parts_are_judged_so()
    ensures untold { items_findings out_turn (nop ∷ rrp ∷ rst ∷ nop ∷ []) (new_view true) ≡ [] }
    ensures output { items_findings out_turn (rst ∷ nop ∷ []) in_the_middle ≡ broken_by out_turn (rule.Early thing.Nop true true false) ∷ [] }
    ensures crossing { items_findings in_turn (nop ∷ []) (view_sends (rst ∷ []) in_the_middle) ≡ [] }
    ensures replies { items_findings in_turn (rrp ∷ rrp ∷ rrp ∷ []) (view_sends (rst ∷ []) in_the_middle) ≡ broken_by in_turn rule.RrpUnasked ∷ [] }
    ensures unknown { (view_hears (rst ∷ []) (new_view true)).told ≡ false }
{}

/// If two messages are outstanding on one link, either may arrive and the answer may be for either,
/// so the monitor reports no violation by the subnet. With only one outstanding, it does.
pub fn messages_out_at_once_are_not_followed()
    ensures alone { unsent_finding one_out 1 0 2 one_message ≡ Some (by_imp (rule.Unsent 0 2 why.Altered)) }
    ensures comes { unsent_finding two_out 1 0 2 one_message ≡ None }
    ensures unanswered { false_finding one_out 5 0 1 2 ≡ Some (by_imp (rule.FalseAnswer 5 1 2 false)) }
    ensures answered { false_finding one_came_two_out 5 0 1 2 ≡ None }
{}

/// Worked requests: each side asks once, a link serves one connection, and after both CLSs all may
/// be requested again.
pub fn requests_are_judged_so()
    ensures right { command_rule host_says [] (Rts 2 3 2) no_conn_tables ≡ None }
    ensures again { command_rule host_says [] (Rts 2 3 4) open_books ≡ Some (rule.AskedAgain (Rts 2 3 4) 0) }
    ensures used { command_rule host_says [] (Rts 4 5 2) open_books ≡ Some (rule.LinkUsed (Rts 4 5 2) 2 3) }
    ensures unended { command_rule host_says [] (Rts 2 3 2) host_closed ≡ Some (rule.Unended (Rts 2 3 2) 0) }
    ensures over { over_tables ≡ no_conn_tables }
    ensures sex { command_rule peer_says [] (Rts 3 2 2) open_books ≡ Some (rule.Sex (Rts 3 2 2)) }
    ensures range { command_rule peer_says [] (Rts 4 5 72) open_books ≡ Some (rule.LinkRange (Rts 4 5 72)) }
    ensures size { command_rule peer_says [] (Str 5 4 0) open_books ≡ Some (rule.SizeZero (Str 5 4 0)) }
{}

/// Worked CLSs: one that nobody asked for, a second one, and one left out after the other side
/// closed.
pub fn closes_are_judged_so()
    ensures unknown { command_rule peer_says [] (Cls 5 4) open_books ≡ Some (rule.ClsUnknown (Cls 5 4)) }
    ensures again { command_rule peer_says [] (Cls 3 2) peer_closed ≡ Some (rule.ClsAgain (Cls 3 2) 0) }
    ensures missing { left_out 1 2 [] peer_closed ≡ Cls 2 3 ∷ [] }
    ensures given { left_out 1 2 [] over_tables ≡ [] }
    ensures passing { left_out 1 2 [] text_after_cls ≡ [] }
{}

/// Worked replies: in the order of what they answer, and none unasked.
pub fn replies_are_judged_so()
    ensures right { command_rule host_says [] (Erp 1) two_echoes ≡ None }
    ensures skipped { command_rule host_says [] (Erp 2) two_echoes ≡ Some (rule.Skipped (Erp 1)) }
    ensures unasked { command_rule host_says [] (Erp 1) no_conn_tables ≡ Some (rule.ErpUnasked 1) }
    ensures missing { left_out 1 2 [] two_echoes ≡ Erp 1 ∷ [] }
    ensures twice { command_rule peer_says [] (Eco 2) one_echo ≡ Some (rule.EcoAgain 2) }
    ensures unjust { command_rule host_says [] (Err 4 cls_shown) no_conn_tables ≡ Some (rule.ErrUnjust 4 cls_shown) }
    ensures just { command_rule host_says [] (Err 4 cls_shown) none_closed ≡ None }
{}

/// Worked allocations: a sender's allocation has a limit, each GVB is answered before the next, and
/// a RET returns what was asked for.
pub fn allocations_are_judged_so()
    ensures right { command_rule peer_says [] an_all sending_tables ≡ None }
    ensures nobody { command_rule peer_says [] all_on_3 sending_tables ≡ Some (rule.NotOpen all_on_3 unopened.NoPair) }
    ensures unasked { command_rule host_says [] an_all half_asked ≡ Some (rule.NotOpen an_all unopened.NotAsked) }
    ensures closed { command_rule host_says [] an_all host_closed ≡ Some (rule.NotOpen an_all unopened.Closed) }
    ensures limit { command_rule peer_says [] too_many allocated_tables ≡ Some (rule.OverLimit too_many 65536 16) }
    ensures again { command_rule peer_says [] (Gvb 2 0 0) recalled_tables ≡ Some (rule.GvbAgain (Gvb 2 0 0)) }
    ensures unwanted { command_rule host_says [] (Ret 2 1 8) allocated_tables ≡ Some (rule.RetUnasked (Ret 2 1 8)) }
    ensures due { number_rules host_says (Ret 2 1 8) recalled_tables ≡ [] }
    ensures other { number_rules host_says (Ret 2 2 8) recalled_tables ≡ rule.RetOther (Ret 2 2 8) 1 8 ∷ [] }
    ensures missing { left_out 1 2 [] recalled_tables ≡ Ret 2 1 8 ∷ [] }
    ensures returned { left_out 1 2 [] returned_tables ≡ [] }
    ensures closing { left_out 1 2 [] closing_tables ≡ [] }
    ensures refused { (conn_at_index refused_tables.conns 0).messages ≡ 2 }
    ensures more { number_rules peer_says a_ret asked_tables ≡ rule.RetOther a_ret 1 8 ∷ rule.RetOver a_ret 1 8 ∷ [] }
{}

/// Worked texts: within the allocation, of the requested size, and on an open connection.
pub fn texts_are_judged_so()
    ensures right { text_rules host_says 2 text_of_byte allocated_tables ≡ [] }
    ensures over { text_rules host_says 2 text_of_byte used_tables ≡ rule.TextOver 2 0 8 0 ∷ [] }
    ensures given { text_rules host_says 2 text_of_byte returned_tables ≡ [] }
    ensures size { text_rules host_says 2 text_of_seven allocated_tables ≡ rule.TextSize 2 7 8 ∷ [] }
    ensures nobody { text_rules peer_says 3 text_of_byte no_conn_tables ≡ rule.TextNotOpen 3 unopened.NoPair ∷ [] }
    ensures twice { text_rules peer_says 3 text_of_byte text_for_nobody ≡ [] }
    ensures granted { text_rules peer_says 2 text_of_byte granted_tables ≡ [] }
    ensures closed { text_rules peer_says 2 text_of_byte peer_closed ≡ rule.TextNotOpen 2 unopened.Closed ∷ [] }
    ensures hidden { command_rule host_says [] (All 2 65535 65536) text_before_all ≡ None }
{}

/// Padding is at most 52 bits after a text, and at most one of them is a one.
pub fn padding_is_judged_so()
    ensures none { is_padding [] ≡ true }
    ensures zeros { is_padding (replicate 52 false) ≡ true }
    ensures filled { is_padding (false ∷ true ∷ false ∷ []) ≡ true }
    ensures long { is_padding (replicate 53 false) ≡ false }
    ensures ones { is_padding (true ∷ true ∷ []) ≡ false }
{}

/// Worked resets, while a message of host 0 to host 1 is outstanding. After one at host 0 the
/// message may be sent again, and then it is as if it had been reported as not delivered. After one
/// at host 1 only a copy of it may still arrive. If its RFNM arrives after one at host 0, that host
/// is not judged any more. Host 1 is not asked to send it again, and no other host's reset matters.
pub fn resets_are_judged_so()
    ensures own { doubt_on (after_reset one_out 0) 0 1 2 ≡ Doubt.Forgotten }
    ensures peer { doubt_on (after_reset one_out 1) 0 1 2 ≡ Doubt.Copied }
    ensures other { doubt_on (after_reset one_out 2) 0 1 2 ≡ Doubt.None }
    ensures again { slot_of_link (before_out (after_reset one_out 0) 0 1 2) 0 1 2 ≡ LinkState.Again }
    ensures still { slot_of_link (before_out (after_reset one_out 1) 0 1 2) 0 1 2 ≡ LinkState.Out }
    ensures unclear { becomes_unclear (after_reset one_out 0) 0 (InterfaceEvent.Answer 5 1 2) ≡ true }
    ensures answered { becomes_unclear (after_reset one_out 0) 0 (InterfaceEvent.Answer 9 1 2) ≡ false }
    ensures clear { becomes_unclear one_out 0 (InterfaceEvent.Answer 5 1 2) ≡ false }
{}

/// Worked reasons why what passed between the hosts 0 and 1 was not judged, each with the capture or
/// what was noted of it. One that a user cannot know hides one that he can.
pub fn what_is_not_judged_has_a_reason()
    ensures judged { unjudged both_seen all_judged 0 1 ≡ None }
    ensures messages { unjudged (record both_seen { full = true }) all_judged 0 1 ≡ Some unjudged_for.Messages }
    ensures connections { unjudged (record both_seen { conn_tables = record no_conn_tables { full = true } }) all_judged 0 1 ≡ Some unjudged_for.Connections }
    ensures late { unjudged both_seen (record all_judged { late = true }) 0 1 ≡ Some unjudged_for.Late }
    ensures crowded { unjudged two_out all_judged 0 1 ≡ Some unjudged_for.Crowded }
    ensures arriving { unjudged two_out all_judged 1 0 ≡ Some unjudged_for.Crowded }
    ensures suspended { unjudged both_seen (record all_judged { suspended = true }) 0 1 ≡ Some unjudged_for.Suspended }
    ensures restarted { unjudged (record both_seen { in_doubt = false ∷ true ∷ [] }) all_judged 0 1 ≡ Some unjudged_for.Restarted }
    ensures unclear { unjudged (record both_seen { unclear = true ∷ [] }) all_judged 0 1 ≡ Some unjudged_for.Restarted }
    ensures other { unjudged (record both_seen { unclear = true ∷ [] }) all_judged 1 0 ≡ None }
    ensures connection { unjudged both_seen (record all_judged { connection = true }) 0 1 ≡ Some unjudged_for.Connection }
    ensures part { unjudged (record both_seen { part = true }) all_judged 0 1 ≡ Some unjudged_for.Part }
    ensures alone { unjudged one_seen all_judged 0 1 ≡ Some unjudged_for.Alone }
    ensures unmet { unjudged one_seen (record all_judged { late = true }) 0 1 ≡ Some unjudged_for.Alone }
    ensures shown { unjudged one_seen (record all_judged { suspended = true }) 0 1 ≡ Some unjudged_for.Suspended }
    ensures silent { unjudged_in (record both_seen { full = true }) [] 0 1 ≡ None }
{}

/// What is noted of a message between the hosts 0 and 1: at the interface of host 0, while host 1 has
/// none, an arriving message or an RFNM is late, and any other is not; a suspension stays noted
/// after it has ended; and a connection, a link or the echoes count.
pub fn coverage_is_noted_so()
    ensures arriving { depends_on 1 (InterfaceEvent.In 1 2) ≡ true }
    ensures acknowledged { depends_on 1 (InterfaceEvent.Answer 5 1 2) ≡ true }
    ensures refused { depends_on 1 (InterfaceEvent.Answer 9 1 2) ≡ false }
    ensures sent { depends_on 1 (InterfaceEvent.Out 1 2) ≡ false }
    ensures others { depends_on 1 (InterfaceEvent.In 3 2) ≡ false }
    ensures late { (pair_noted one_seen 0 1 true nothing_passed).late ≡ true }
    ensures early { (pair_noted both_seen 0 1 true nothing_passed).late ≡ false }
    ensures unneeded { (pair_noted one_seen 0 1 false nothing_passed).late ≡ false }
    ensures suspended { (pair_noted (record both_seen { views = new_view false ∷ record (new_view false) { suspended = true } ∷ [] }) 0 1 false nothing_passed).suspended ≡ true }
    ensures once { (pair_noted both_seen 0 1 false (record all_judged { suspended = true })).suspended ≡ true }
    ensures conn { has_suspended 1 2 (suspended_pair 1 2 2 3 open_books) ≡ true }
    ensures link { has_suspended 1 2 text_for_nobody ≡ true }
    ensures open { has_suspended 1 2 open_books ≡ false }
    ensures elsewhere { has_suspended 2 1 text_for_nobody ≡ false }
{}

//! Laws of links: the link that a receiver chooses, and the endpoint that a link identifies.
ghost use Rattle.std.specs.Prelude.{◌≡◌, ℕ, true, false, ◌≤◌, ◌<◌, [], ◌∷◌, ◌++◌, None, Some, Ok};
ghost use Rattle.std.specs.FinMap.{get, from_sorted};
ghost use Rattle.ncp_wire.specs.declared.command.Command.TheVariants.{Nop, Rts, Str, Cls, All, Gvb, Ret, Inr, Ins, Eco, Erp, Rst, Rrp};
ghost use Rattle.ncp_model.specs.declared.call_fault.CallFault.TheVariants.{TableFull};
ghost use Rattle.ncp_wire.specs.declared.answer.Answer.TheVariants.{Rfnm};
ghost use Rattle.ncp_model.specs.declared.outcomes.Heard.TheVariants.{Nothing, Reply};
ghost use Rattle.ncp_model.specs.Effect.{Effect, Stays, Becomes, end_after};
ghost use Rattle.ncp_model.specs.Ends.{Ends, count, any, has_asked, is_by_peer, hears_link, uses_link, first_by, free_link, sender_on, receiver_on, demux_command, hear, ask_send_in, ask_receive_in, text_in, cut_in, answered_in, put, map_after, map_after_at, no_ends};
ghost use Rattle.ncp_model.specs.EndpointEvents.{Text_comes, Text_goes_out, Is_answered};
ghost use Rattle.ncp_model.specs.Peers.{Ask_to_send, Ask_to_receive};
ghost use Rattle.ncp_model.specs.EndpointEvents as all;
ghost use Rattle.ncp_model.specs.Demux.{suits, leads, comes};
ghost use Rattle.ncp_model.specs.OnlyEnds.{OfTheOnlyEnd, WhereNoEnd};
ghost use Rattle.ncp_model.specs.Rows.{outward, inward, ones, zero_bits, link_heard, size_heard, asked_send, asked_receive, opened_end, due, gone, shut, counting, err, both_ways};
ghost use Rattle.ncp_model.specs.RowFacts.{new_outward, new_inward, its_receiver, its_request, loaded, with_interrupts, recalling, one_granted, busy_end, left_end, ten_bytes, refusal, erred, one_end, receive_request};
ghost use Rattle.ncp_model.specs.InUse.{joining, left_beside_others, third_link_used, is_demuxed_by};
ghost use Rattle.ncp_model.specs.InTables.{WhateverHappens, WhereFull, WhereNoneMayAsk, OfCommandsLed, OfTextsLed, OfSendersLed, OfAnswersLed, OfSending, OfReceiving, leads_in, happens_in, calls_in, hearing_in, taking_in, cutting_in, answering_in, sending_in, receiving_in};

use crate::limits::{MAX_BY_PEER, MAX_OWN};
use crate::outcomes::{Heard, Took};
use crate::pair::Pair;
use ncp_wire::{FIRST_LINK, LAST_LINK};

/// A receiver chooses the lowest link from 2 up that no receiving endpoint uses. While at most 64
/// endpoints have a local request, one up to 71 is free.
pub fn receivers_take_the_lowest_free_link()
    ensures from { (m : Ends) → FIRST_LINK ≤ free_link m }
    ensures lowest { (m : Ends) (on : ℕ) → FIRST_LINK ≤ on → on < free_link m → any (uses_link on) m ≡ true }
    ensures free { (m : Ends) → free_link m ≤ LAST_LINK → any (uses_link (free_link m)) m ≡ false }
    ensures room { (m : Ends) → count has_asked m ≤ MAX_OWN → free_link m ≤ LAST_LINK }
{}

/// A link identifies the sending endpoint that heard it and the receiving endpoint that asked with
/// it, even when that endpoint is leaving or has left.
pub fn links_lead_to_ends()
    ensures hears { hears_link 2 (outward, link_heard) ≡ true }
    ensures hears_when_open { hears_link 2 (outward, opened_end) ≡ true }
    ensures hears_when_left { hears_link 2 (outward, gone link_heard) ≡ true }
    ensures hears_when_due { hears_link 2 (outward, due opened_end) ≡ true }
    ensures hears_no_other { hears_link 3 (outward, link_heard) ≡ false }
    ensures hears_none_yet { hears_link 0 (outward, asked_send) ≡ false }
    ensures hears_not_of_receiver { hears_link 2 (inward, opened_end) ≡ false }
    ensures uses { uses_link 2 (inward, asked_receive) ≡ true }
    ensures uses_when_open { uses_link 2 (inward, opened_end) ≡ true }
    ensures uses_when_left { uses_link 2 (inward, gone asked_receive) ≡ true }
    ensures uses_when_due { uses_link 2 (inward, due opened_end) ≡ true }
    ensures uses_no_other { uses_link 3 (inward, asked_receive) ≡ false }
    ensures uses_none_yet { uses_link 0 (inward, size_heard) ≡ false }
    ensures uses_not_of_sender { uses_link 2 (outward, opened_end) ≡ false }
    ensures leads { first_by (uses_link 2) left_beside_others ≡ Some (inward, gone asked_receive) }
    ensures demuxes_nowhere { first_by (hears_link 2) ((inward, opened_end) ∷ (outward, asked_send) ∷ []) ≡ None }
{}

/// The endpoints counted toward the limits: those with a local request, and those with the peer's
/// request alone. Each limit is 64.
pub fn ends_are_counted_by_request()
    ensures own { has_asked (inward, asked_receive) ≡ true }
    ensures own_left { has_asked (outward, gone opened_end) ≡ true }
    ensures own_not_by_peer { has_asked (outward, link_heard) ≡ false }
    ensures by_peer { is_by_peer (outward, link_heard) ≡ true }
    ensures by_peer_left { is_by_peer (outward, gone link_heard) ≡ true }
    ensures by_peer_not_own { is_by_peer (outward, opened_end) ≡ false }
    ensures limits { (MAX_OWN ≡ 64) × (MAX_BY_PEER ≡ 64) }
{}

/// An effect at a pair changes the endpoint there, as `end_after` defines, and no other.
pub fn acts_change_one_end<A>()
    ensures there { (m : Ends) (p : Pair) (act : Effect A) → get (map_after m p act) p ≡ end_after (get m p) act }
    ensures elsewhere { (m : Ends) (p q : Pair) (act : Effect A) → ((q ≡ p) → ⊥) → get (map_after m p act) q ≡ get m q }
    ensures put { (m : Ends) (p q : Pair) (act : Effect A) → get (map_after m p act) q ≡ get (put m p (end_after (get m p) act)) q }
    ensures led { (m : Ends) (pair : Pair) (act : Effect A) → map_after_at m (Some pair) act ≡ map_after m pair act }
    ensures led_nowhere { (m : Ends) (pair : Pair) (act : Effect A) → map_after_at m None act ≡ m }
    ensures cleared { (pair : Pair) → get no_ends pair ≡ None }
{}

/// The endpoint that each command identifies, and its effect, at a host with a sender and a
/// receiver on one link and a local request. Also the peer's requests at a full table, and the
/// lowest free link.
pub fn commands_lead_to_ends()
    ensures rts { demux_command (Rts 2 3 2) both_ways ≡ Some outward }
    ensures rts_of_a_new_end { hear (Rts 4 5 3) both_ways ≡ Becomes (record link_heard { link = 3 }) Nothing }
    ensures rts_taken { hear (Rts 4 5 2) both_ways ≡ erred 3 (ten_bytes 1 0 0 0 4 0 0 0 5 2) }
    ensures str { demux_command (Str 9 6 8) both_ways ≡ Some its_request }
    ensures str_opens { hear (Str 9 6 8) both_ways ≡ Becomes (record opened_end { link = 3 }) Nothing }
    ensures cls { demux_command (Cls 2 3) both_ways ≡ Some outward }
    ensures cls_ends { hear (Cls 2 3) both_ways ≡ Becomes (shut (gone one_granted)) (Reply (Cls 3 2)) }
    ensures all { demux_command (All 2 1 1) both_ways ≡ Some outward }
    ensures all_adds { hear (All 2 1 1) both_ways ≡ Becomes (counting 2 9) Nothing }
    ensures gvb { demux_command (Gvb 2 128 0) both_ways ≡ Some outward }
    ensures gvb_returns { hear (Gvb 2 128 0) both_ways ≡ Becomes (counting 0 8) (Reply (Ret 2 1 0)) }
    ensures ret { demux_command (Ret 2 1 1) both_ways ≡ Some its_receiver }
    ensures ret_lowers { hear (Ret 2 1 1) both_ways ≡ Becomes (counting 2 23) Nothing }
    ensures inr { demux_command (Inr 2) both_ways ≡ Some outward }
    ensures inr_counts { hear (Inr 2) both_ways ≡ Becomes (with_interrupts 1 one_granted) Nothing }
    ensures ins { demux_command (Ins 2) both_ways ≡ Some its_receiver }
    ensures ins_counts { hear (Ins 2) both_ways ≡ Becomes (with_interrupts 1 (recalling (counting 3 24))) Nothing }
    ensures nowhere { demux_command (All 3 1 1) both_ways ≡ None }
    ensures nowhere_is_an_error { hear (All 3 1 1) both_ways ≡ erred 5 (ten_bytes 4 3 0 1 0 0 0 1 0 0) }
    ensures full_rts { WhereFull outward (λ m. any (hears_link 2) m ≡ false → hear (Rts 2 3 2) m ≡ Stays Heard.Full) }
    ensures full_str { WhereFull inward (λ m. hear (Str 3 2 8) m ≡ Stays Heard.Full) }
    ensures lowest { free_link both_ways ≡ 4 }
    ensures first { free_link (from_sorted []) ≡ 2 }
    ensures second { free_link (one_end inward asked_receive) ≡ 3 }
    ensures left { free_link (one_end inward left_end) ≡ 3 }
    ensures gap { free_link (one_end inward (record asked_receive { link = 3 })) ≡ 2 }
    ensures nop { hear Nop both_ways ≡ Stays Nothing }
    ensures eco { hear (Eco 65) both_ways ≡ Stays Nothing }
    ensures erp { hear (Erp 65) both_ways ≡ Stays Nothing }
    ensures err { hear (err 3 []) both_ways ≡ Stays Nothing }
    ensures rst { hear Rst both_ways ≡ Stays Nothing }
    ensures rrp { hear Rrp both_ways ≡ Stays Nothing }
{}

/// A command, text or answer that names a link is demultiplexed to a matching endpoint, in any
/// table: one that heard that link or asked with it, a sender if a sender is meant, a receiver if a
/// receiver is. The transition in the table of all endpoints is the transition of that endpoint.
pub fn what_leads_somewhere_suits()
    ensures command { OfCommandsLed (λ m c pair what. leads_in m pair what ≡ true) }
    ensures command_happens { OfCommandsLed (λ m c pair what. happens_in m pair what ≡ hearing_in m pair c) }
    ensures text { OfTextsLed (λ m head size text pair. leads_in m pair (Text_comes head size text) ≡ true) }
    ensures text_happens { OfTextsLed (λ m h n text p. happens_in m p (Text_comes h n text) ≡ taking_in m p h n text) }
    ensures cut { OfSendersLed (λ m on pair. leads_in m pair Text_goes_out ≡ true) }
    ensures cut_happens { OfSendersLed (λ m on pair. happens_in m pair Text_goes_out ≡ cutting_in m pair on) }
    ensures answered { OfAnswersLed (λ m on how pair. leads_in m pair (Is_answered how) ≡ true) }
    ensures answered_happens { OfAnswersLed (λ m on how p. happens_in m p (Is_answered how) ≡ answering_in m p on how) }
    ensures asks { OfSending (λ m p n room full. calls_in m p (Ask_to_send n room) full ≡ sending_in m p n room full) }
    ensures asks_too { OfReceiving (λ m p n full. calls_in m p (Ask_to_receive n) full ≡ receiving_in m p n full) }
    ensures suits { WhateverHappens (λ pair what before. leads pair what before ≡ true → suits pair what ≡ true) }
{}

/// Texts and requests at a host with a sender and a receiver on link 2 and a local request on link
/// 3. An arriving text is for the receiver, a text sent is the sender's, and nothing is sent on a
/// link that identifies no sender. A request to receive gets the lowest free link. If 64 local
/// requests exist, a request for a new pair is refused with `TableFull`.
pub fn texts_lead_to_ends()
    ensures comes { text_in 2 8 (ones 8) both_ways ≡ Becomes (loaded (recalling (counting 2 16))) Took.Admitted }
    ensures comes_early { text_in 3 8 (ones 8) both_ways ≡ Stays Took.NotOpen }
    ensures comes_nowhere { text_in 4 8 (ones 8) both_ways ≡ Stays Took.NotOpen }
    ensures goes_out { cut_in 2 (one_end outward (loaded one_granted)) ≡ Becomes busy_end (Some (8, ones 8)) }
    ensures goes_nowhere { cut_in 3 both_ways ≡ Stays None }
    ensures goes_not_from_receiver { cut_in 2 (one_end inward (loaded one_granted)) ≡ Stays None }
    ensures answered { answered_in 2 Rfnm (one_end outward (due busy_end)) ≡ Becomes left_end (Some (Cls 3 2)) }
    ensures answered_nowhere { answered_in 3 Rfnm both_ways ≡ Stays None }
    ensures answered_not_at_receiver { answered_in 2 Rfnm (one_end inward (due opened_end)) ≡ Stays None }
    ensures asks { ask_receive_in new_inward 64 false both_ways ≡ Becomes (receive_request 4 64) (Ok (Rts 8 9 4)) }
    ensures asks_to_send { ask_send_in new_outward 8 64 false both_ways ≡ Becomes asked_send (Ok (Str 9 8 8)) }
    ensures asks_in_vain { WhereNoneMayAsk outward (λ m. ask_send_in outward 8 64 false m ≡ refusal TableFull) }
    ensures asks_in_vain_too { WhereNoneMayAsk inward (λ m. ask_receive_in inward 64 false m ≡ refusal TableFull) }
    ensures leads { leads outward (all.All_comes 2 1 1) (Some link_heard) ≡ true }
    ensures leads_to_receiver { leads inward (all.Ret_comes 2 1 1) (Some asked_receive) ≡ true }
    ensures leads_not_on_another_link { leads outward (all.All_comes 3 1 1) (Some opened_end) ≡ false }
    ensures leads_not_at_receiver { leads inward (all.All_comes 2 1 1) (Some opened_end) ≡ false }
    ensures leads_not_where_none_is { leads outward (all.All_comes 2 1 1) None ≡ false }
    ensures leads_not_to_sender { leads outward (all.Ret_comes 2 1 1) (Some opened_end) ≡ false }
    ensures leads_by_head { is_demuxed_by (zero_bits 22 ++ ones 1 ++ zero_bits 49) ≡ true }
    ensures leads_not_by_another_head { is_demuxed_by (zero_bits 23 ++ ones 1 ++ zero_bits 48) ≡ false }
    ensures leads_by_link { is_demuxed_by (ones 16 ++ zero_bits 6 ++ ones 1 ++ zero_bits 1 ++ ones 8 ++ zero_bits 40) ≡ true }
    ensures all_suits_sender { suits outward (all.All_comes 2 1 1) ≡ true }
    ensures gvb_suits_sender { suits outward (all.Gvb_comes 2 1 1) ≡ true }
    ensures inr_suits_sender { suits outward (all.Inr_comes 2) ≡ true }
    ensures ret_suits_receiver { suits inward (all.Ret_comes 2 1 1) ≡ true }
    ensures ins_suits_receiver { suits inward (all.Ins_comes 2) ≡ true }
    ensures text_suits_receiver { suits inward (all.Text_comes [] 8 []) ≡ true }
    ensures going_out_suits_sender { suits outward all.Text_goes_out ≡ true }
    ensures answer_suits_sender { suits outward (all.Is_answered Rfnm) ≡ true }
    ensures all_suits_no_receiver { suits inward (all.All_comes 2 1 1) ≡ false }
    ensures gvb_suits_no_receiver { suits inward (all.Gvb_comes 2 1 1) ≡ false }
    ensures inr_suits_no_receiver { suits inward (all.Inr_comes 2) ≡ false }
    ensures ret_suits_no_sender { suits outward (all.Ret_comes 2 1 1) ≡ false }
    ensures ins_suits_no_sender { suits outward (all.Ins_comes 2) ≡ false }
    ensures text_suits_no_sender { suits outward (all.Text_comes [] 8 []) ≡ false }
    ensures going_out_suits_no_receiver { suits inward all.Text_goes_out ≡ false }
    ensures answer_suits_no_receiver { suits inward (all.Is_answered Rfnm) ≡ false }
    ensures from_empty { ask_receive_in inward 64 false (from_sorted []) ≡ Becomes asked_receive (Ok (Rts 2 3 2)) }
    ensures freed { ask_receive_in (joining 10 11) 64 false third_link_used ≡ Becomes asked_receive (Ok (Rts 10 11 2)) }
{}

/// If exactly one endpoint is on a link, the look-up by that link finds it. If none is, `any` is
/// false.
pub fn look_ups_find_the_one_end()
    ensures sender { (on : ℕ) → OfTheOnlyEnd (hears_link on) (λ m found. sender_on on m ≡ Some found) }
    ensures receiver { (on : ℕ) → OfTheOnlyEnd (uses_link on) (λ m found. receiver_on on m ≡ Some found) }
    ensures none_hears { (on : ℕ) → WhereNoEnd (hears_link on) (λ m. any (hears_link on) m ≡ false) }
    ensures none_uses { (on : ℕ) → WhereNoEnd (uses_link on) (λ m. any (uses_link on) m ≡ false) }
{}

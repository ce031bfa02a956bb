//! The worked rows on one endpoint, computed from the definitions: each refusal, before all that
//! are checked after it, and each effect, at its limits.
ghost use Rattle.std.specs.Prelude.{◌≡◌, Bool, true, false, ◌*◌, length, ◌++◌, ◌∷◌, [], List, None, Some, Ok, Err};
ghost use Rattle.ncp_model.specs.Amounts.{amount, no_amount, ◌⊕◌, ◌⊑◌, allowance, granted, returned, back};
ghost use Rattle.ncp_model.specs.Endpoint.{Endpoint, new_end, or_new, is_open, is_live, is_ended};
ghost use Rattle.ncp_model.specs.Effect.{Stays, Becomes, end_after, met, text_error};
ghost use Rattle.ncp_model.specs.Calls.{bits_to_take, ask_send, ask_receive, close, give, take_held, allocate, call_back, interrupt};
ghost use Rattle.ncp_model.specs.Commands.{hear_rts, hear_str, hear_cls, hear_all, hear_gvb, hear_ret, hear_inr, hear_ins};
ghost use Rattle.ncp_model.specs.Texts.{bytes_to_send, made_by_text, hear_text, cut, end_answered, end_cleared};
ghost use Rattle.ncp_wire.specs.declared.answer.Answer.TheVariants.{Rfnm, Incomplete, Dead};
ghost use Rattle.ncp_wire.specs.declared.command.Command.TheVariants.{Rts, Str, Cls, All, Gvb, Ret, Inr, Ins, Eco, Erp};
ghost use Rattle.ncp_model.specs.declared.call_fault.CallFault.TheVariants.{BadSex, BadSize, BadRoom, AlreadyAsked, Closing, TableFull, QueueFull, NoEntry, NotOpen, WrongEnd, NotWhole, NoRoom, TooMuch, Busy};
ghost use Rattle.ncp_model.specs.declared.outcomes.Heard.TheVariants.{Nothing, Reply};
ghost use Rattle.ncp_model.specs.Echo.{Error, Echoes, no_echoes, echo_answer, echo_asked, eco_reply, hear_erp, is_stray_erp, hear_err, purge_echo};
ghost use Rattle.ncp_model.specs.EndpointEvents.{happens, Asks_to_send, Asks_to_receive, Closes, Gives, Takes, Allocates, Calls_back, Interrupts, Rts_comes, Str_comes, Cls_comes, All_comes, Gvb_comes, Ret_comes, Inr_comes, Ins_comes, Text_comes, Text_goes_out, Is_answered, Is_cleared, Accepted, Refused, Took_out, Sent};
ghost use Rattle.ncp_model.specs.EndpointEvents as all;
ghost use Rattle.ncp_model.specs.Rows.{outward, inward, ones, zero_bits, link_heard, size_heard, asked_send, asked_receive, opened_end, counting, storing, sent_one, due, gone, shut, err};
ghost use Rattle.ncp_model.specs.RowFacts.{both_send, both_receive, new_outward, send_request, receive_request, unmet_sender, unmet_receiver, loaded, byte_stored, linked_by, of_large_bytes, with_interrupts, most_interrupted, recalling, recalled_end, awaiting_ret, one_granted, sender_in_use, receiver_in_use, in_full_use, busy_end, left_end, over_end, still_holding, awaiting, ten_bytes, refusal, erred, yields, yields_none, making, leaves_none, errs_at, text_arrives};
ghost use Rattle.ncp_model.specs.InUse.{loaded_sender, loaded_receiver, sender_with, receiver_with, twice_loaded_receiver, loaded_with, after_interrupts, used_byte, filled_store, large_byte_stored, three_stored, three_waiting, two_sent, byte_held, three_bytes_held, a_bit_short, shut_sender, left_granted, allocates_at, after_ins, allocated, ends_in_ones, OfEndsStoring, errors_after, echoed_by};

use crate::outcomes::{Heard, Took};

/// Asking to send: a store of 1 to 65,536 bits, and at most 64 endpoints with a local request.
pub fn asking_to_send()
    ensures sex { ask_send inward 0 0 64 true (Some opened_end) ≡ refusal BadSex }
    ensures sex_both_send { ask_send both_send 8 1 0 false None ≡ refusal BadSex }
    ensures size { ask_send outward 0 0 64 true (Some opened_end) ≡ refusal BadSize }
    ensures room_none { ask_send outward 8 0 64 true (Some opened_end) ≡ refusal BadRoom }
    ensures room_too_much { ask_send outward 8 65537 0 false None ≡ refusal BadRoom }
    ensures asked { ask_send outward 8 1 64 true (Some opened_end) ≡ refusal AlreadyAsked }
    ensures closing_left { ask_send outward 8 1 64 true (Some left_end) ≡ refusal Closing }
    ensures closing_due { ask_send outward 8 1 64 true (Some (due opened_end)) ≡ refusal Closing }
    ensures closing_half_open { ask_send outward 8 1 64 true (Some (gone link_heard)) ≡ refusal Closing }
    ensures table { ask_send outward 8 1 64 true None ≡ refusal TableFull }
    ensures table_heard { ask_send outward 8 1 64 true (Some link_heard) ≡ refusal TableFull }
    ensures queue { ask_send outward 8 1 63 true None ≡ refusal QueueFull }
    ensures made { ask_send outward 8 64 63 false None ≡ Becomes asked_send (Ok (Str 3 2 8)) }
    ensures most { ask_send outward 255 65536 0 false None ≡ Becomes (send_request 255 65536) (Ok (Str 3 2 255)) }
    ensures least { ask_send outward 1 1 0 false None ≡ Becomes (send_request 1 1) (Ok (Str 3 2 1)) }
    ensures opens { ask_send outward 8 64 0 false (Some link_heard) ≡ Becomes opened_end (Ok (Str 3 2 8)) }
    ensures asked_early { ask_send outward 8 64 1 false (Some asked_send) ≡ refusal AlreadyAsked }
    ensures sex_before_closing_due { ask_send inward 8 64 0 false (Some (due opened_end)) ≡ refusal BadSex }
    ensures sex_before_closing_left { ask_send inward 8 64 0 false (Some left_end) ≡ refusal BadSex }
    ensures sex_before_asked { ask_send inward 8 64 0 false (Some asked_receive) ≡ refusal BadSex }
    ensures size_before_closing_due { ask_send outward 0 64 0 false (Some (due busy_end)) ≡ refusal BadSize }
    ensures size_before_closing_left { ask_send outward 0 64 0 false (Some left_end) ≡ refusal BadSize }
    ensures size_before_closing_half_open { ask_send outward 0 64 0 false (Some (gone link_heard)) ≡ refusal BadSize }
    ensures room_before_closing_due { ask_send outward 8 0 0 false (Some (due busy_end)) ≡ refusal BadRoom }
    ensures room_before_closing_left { ask_send outward 8 65537 0 false (Some left_end) ≡ refusal BadRoom }
    ensures room_before_closing_half_open { ask_send outward 8 0 0 false (Some (gone link_heard)) ≡ refusal BadRoom }
    ensures size_before_room { ask_send outward 0 65537 0 false None ≡ refusal BadSize }
    ensures size_before_table { ask_send outward 0 64 64 true None ≡ refusal BadSize }
    ensures empty { ask_send outward 8 64 0 false (Some (loaded link_heard)) ≡ Becomes opened_end (Ok (Str 3 2 8)) }
{}

/// Amounts of messages and of bits add and compare separately. ALL grants the amount that it
/// carries, RET returns it, and a GVB does neither.
pub fn amounts()
    ensures sum { amount 1 20 ⊕ amount 3 400 ≡ amount 4 420 }
    ensures none { amount 1 20 ⊕ no_amount ≡ amount 1 20 }
    ensures within { amount 1 20 ⊑ amount 1 20 }
    ensures over_messages { amount 2 20 ⊑ amount 1 400 → ⊥ }
    ensures over_bits { amount 1 21 ⊑ amount 3 20 → ⊥ }
    ensures of_an_end { allowance (record new_end { messages = 2; bits = 30 }) ≡ amount 2 30 }
    ensures all { (granted (All 2 3 40) ≡ amount 3 40) × (returned (All 2 3 40) ≡ no_amount) }
    ensures ret { (returned (Ret 2 3 40) ≡ amount 3 40) × (granted (Ret 2 3 40) ≡ no_amount) }
    ensures gvb { (granted (Gvb 2 3 40) ≡ no_amount) × (returned (Gvb 2 3 40) ≡ no_amount) }
{}

/// Asking to receive, on a given link.
pub fn asking_to_receive()
    ensures sex { ask_receive outward 0 2 64 true (Some opened_end) ≡ refusal BadSex }
    ensures sex_both_receive { ask_receive both_receive 1 2 0 false None ≡ refusal BadSex }
    ensures room_none { ask_receive inward 0 2 64 true (Some opened_end) ≡ refusal BadRoom }
    ensures room_too_much { ask_receive inward 65537 2 0 false None ≡ refusal BadRoom }
    ensures asked { ask_receive inward 1 2 64 true (Some opened_end) ≡ refusal AlreadyAsked }
    ensures closing_left { ask_receive inward 1 2 64 true (Some left_end) ≡ refusal Closing }
    ensures closing_due { ask_receive inward 1 2 64 true (Some (due opened_end)) ≡ refusal Closing }
    ensures closing_half_open { ask_receive inward 1 2 64 true (Some (gone size_heard)) ≡ refusal Closing }
    ensures table { ask_receive inward 1 2 64 true None ≡ refusal TableFull }
    ensures queue { ask_receive inward 1 2 63 true None ≡ refusal QueueFull }
    ensures made { ask_receive inward 64 2 63 false None ≡ Becomes asked_receive (Ok (Rts 2 3 2)) }
    ensures most { ask_receive inward 65536 71 0 false None ≡ Becomes (receive_request 71 65536) (Ok (Rts 2 3 71)) }
    ensures opens { ask_receive inward 64 2 0 false (Some size_heard) ≡ Becomes opened_end (Ok (Rts 2 3 2)) }
    ensures asked_early { ask_receive inward 64 2 1 false (Some asked_receive) ≡ refusal AlreadyAsked }
    ensures sex_before_closing_due { ask_receive outward 64 2 0 false (Some (due opened_end)) ≡ refusal BadSex }
    ensures sex_before_closing_left { ask_receive outward 64 2 0 false (Some left_end) ≡ refusal BadSex }
    ensures sex_before_asked { ask_receive outward 64 2 0 false (Some asked_send) ≡ refusal BadSex }
    ensures room_before_closing_due { ask_receive inward 0 2 0 false (Some (due byte_stored)) ≡ refusal BadRoom }
    ensures room_before_closing_left { ask_receive inward 65537 2 0 false (Some left_end) ≡ refusal BadRoom }
    ensures room_before_closing_half_open { ask_receive inward 0 2 0 false (Some (gone size_heard)) ≡ refusal BadRoom }
    ensures table_heard { ask_receive inward 1 2 64 false (Some size_heard) ≡ refusal TableFull }
    ensures empty { ask_receive inward 64 2 0 false (Some (loaded size_heard)) ≡ Becomes opened_end (Ok (Rts 2 3 2)) }
{}

/// Closing: while its text is unacknowledged, a sender's CLS is deferred.
pub fn closing()
    ensures keeps_the_rest { close outward false (Some (loaded sender_in_use)) ≡ Becomes (due sender_in_use) (Ok None) }
    ensures entry { close outward true None ≡ refusal NoEntry }
    ensures left { close outward true (Some left_end) ≡ refusal Closing }
    ensures left_at_receiver { close inward true (Some left_end) ≡ refusal Closing }
    ensures leaving { close outward true (Some (due busy_end)) ≡ refusal Closing }
    ensures queue { close outward true (Some busy_end) ≡ refusal QueueFull }
    ensures busy { close outward false (Some (sent_one byte_stored)) ≡ Becomes (due busy_end) (Ok None) }
    ensures sender { close outward false (Some byte_stored) ≡ Becomes left_end (Ok (Some (Cls 3 2))) }
    ensures receiver { close inward false (Some byte_stored) ≡ Becomes left_end (Ok (Some (Cls 2 3))) }
    ensures refusal { close outward false (Some link_heard) ≡ Becomes (gone link_heard) (Ok (Some (Cls 3 2))) }
    ensures ends { close inward false (Some (still_holding 8)) ≡ Becomes over_end (Ok (Some (Cls 2 3))) }
    ensures ends_there { end_after (Some (still_holding 8)) (close inward false (Some (still_holding 8))) ≡ None }
    ensures unanswered { close outward false (Some asked_send) ≡ Becomes (gone asked_send) (Ok (Some (Cls 3 2))) }
    ensures left_unopened { close outward false (Some (gone asked_send)) ≡ refusal Closing }
    ensures queue_at_receiver { close inward true (Some opened_end) ≡ refusal QueueFull }
    ensures queue_at_the_last { close inward true (Some (still_holding 8)) ≡ refusal QueueFull }
    ensures queue_at_refusal { close outward true (Some link_heard) ≡ refusal QueueFull }
    ensures keeps { close inward false (Some loaded_receiver) ≡ Becomes (gone receiver_in_use) (Ok (Some (Cls 2 3))) }
{}

/// Giving text: whole bytes, up to the room of the store, appended to the stored text.
pub fn giving()
    ensures keeps_the_rest { give outward (ones 8) (Some sender_in_use) ≡ Becomes (loaded sender_in_use) (Ok tt) }
    ensures entry { give inward (ones 9) None ≡ refusal NoEntry }
    ensures closing_left { give inward (ones 9) (Some (gone asked_receive)) ≡ refusal Closing }
    ensures closing_due { give inward (ones 9) (Some (due opened_end)) ≡ refusal Closing }
    ensures open_unanswered { give inward (ones 9) (Some asked_receive) ≡ refusal NotOpen }
    ensures open_unasked { give inward (ones 9) (Some size_heard) ≡ refusal NotOpen }
    ensures end { give inward (ones 12) (Some opened_end) ≡ refusal WrongEnd }
    ensures whole { give outward (ones 12) (Some opened_end) ≡ refusal NotWhole }
    ensures whole_before_room { give outward (ones 68) (Some opened_end) ≡ refusal NotWhole }
    ensures room { give outward (ones 16) (Some (storing (zero_bits 56))) ≡ refusal NoRoom }
    ensures bytes_of_36 { give outward (ones 36) (Some of_large_bytes) ≡ Becomes large_byte_stored (Ok tt) }
    ensures bytes_of_36_in_part { give outward (ones 8) (Some of_large_bytes) ≡ refusal NotWhole }
    ensures fits { give outward (ones 8) (Some (storing (zero_bits 56))) ≡ Becomes filled_store (Ok tt) }
    ensures nothing { give outward [] (Some (storing (ones 64))) ≡ Becomes (storing (ones 64)) (Ok tt) }
    ensures busy { give outward (ones 8) (Some busy_end) ≡ Becomes (sent_one byte_stored) (Ok tt) }
    ensures closing_before_room_due { give outward (ones 72) (Some (due busy_end)) ≡ refusal Closing }
    ensures closing_before_room_left { give outward (ones 72) (Some left_end) ≡ refusal Closing }
    ensures closing_before_end_due { give inward (ones 8) (Some (due byte_stored)) ≡ refusal Closing }
    ensures closing_before_end_left { give inward (ones 8) (Some left_end) ≡ refusal Closing }
    ensures open_before_room { give outward (ones 72) (Some (record asked_send { size = 8 })) ≡ refusal NotOpen }
    ensures end_before_room { give inward (ones 72) (Some opened_end) ≡ refusal WrongEnd }
    ensures end_with_room { give inward (ones 8) (Some opened_end) ≡ refusal WrongEnd }
{}

/// Taking text: whole bytes, from the front of the held text. If the peer's CLS arrived while six
/// bytes are held, four are taken, then the last two together with the CLS.
pub fn taking()
    ensures entry { take_held outward 1 None ≡ refusal NoEntry }
    ensures closing_unopened { take_held outward 1 (Some (gone asked_send)) ≡ refusal Closing }
    ensures closing_left { take_held inward 1 (Some left_end) ≡ refusal Closing }
    ensures open_unanswered { take_held outward 1 (Some asked_send) ≡ refusal NotOpen }
    ensures open_unasked { take_held outward 1 (Some link_heard) ≡ refusal NotOpen }
    ensures end { take_held outward 1 (Some opened_end) ≡ refusal WrongEnd }
    ensures end_due { take_held outward 1 (Some (due busy_end)) ≡ refusal WrongEnd }
    ensures front { take_held inward 2 (Some three_stored) ≡ Becomes (storing (zero_bits 8)) (Ok (ones 16, None)) }
    ensures all { take_held inward 100 (Some (storing (ones 16))) ≡ Becomes opened_end (Ok (ones 16, None)) }
    ensures whole { take_held inward 100 (Some (storing (ones 20))) ≡ Becomes (storing (ones 4)) (Ok (ones 16, None)) }
    ensures receiver_early { take_held inward 1 (Some asked_receive) ≡ refusal NotOpen }
    ensures receiver_early_left { take_held inward 1 (Some (gone asked_receive)) ≡ refusal Closing }
    ensures keeps { take_held inward 1 (Some twice_loaded_receiver) ≡ Becomes loaded_receiver (Ok (ones 8, None)) }
    ensures none { take_held inward 0 (Some (storing (ones 16))) ≡ Becomes (storing (ones 16)) (Ok ([], None)) }
    ensures one_bit_left { take_held inward 1 (Some (still_holding 9)) ≡ Becomes (still_holding 1) (Ok (ones 8, None)) }
    ensures four { take_held inward 4 (Some (still_holding 48)) ≡ Becomes (still_holding 16) (Ok (ones 32, None)) }
    ensures two { take_held inward 4 (Some (still_holding 16)) ≡ Becomes over_end (Ok (ones 16, Some (Cls 2 3))) }
    ensures two_with_none_left { end_after (Some opened_end) (take_held inward 4 (Some (still_holding 16))) ≡ None }
{}

/// Allocating: up to the room of the store less the outstanding and held bits, and up to the limit
/// of a counter of messages.
pub fn allocating()
    ensures entry { allocate outward 65536 65 true None ≡ refusal NoEntry }
    ensures closing_left { allocate outward 65536 65 true (Some (gone asked_send)) ≡ refusal Closing }
    ensures closing_due { allocate outward 65536 65 true (Some (due opened_end)) ≡ refusal Closing }
    ensures open_unanswered { allocate outward 65536 65 true (Some asked_send) ≡ refusal NotOpen }
    ensures open_unasked { allocate outward 65536 65 true (Some link_heard) ≡ refusal NotOpen }
    ensures end { allocate outward 65536 65 true (Some opened_end) ≡ refusal WrongEnd }
    ensures bits { allocate inward 1 65 true (Some opened_end) ≡ refusal TooMuch }
    ensures bits_of_1024 { allocate inward 1 1025 false (Some (record opened_end { room = 1024 })) ≡ refusal TooMuch }
    ensures held { allocate inward 1 17 false (Some (loaded (counting 1 40))) ≡ refusal TooMuch }
    ensures held_to_the_limit { allocates_at 1 16 (loaded_with 1 40) ≡ Becomes (loaded_with 2 56) (Ok (All 2 1 16)) }
    ensures messages { allocate inward 1 0 true (Some (counting 65535 0)) ≡ refusal TooMuch }
    ensures messages_to_the_limit { allocates_at 1 0 (counting 65534 0) ≡ Becomes (counting 65535 0) (Ok (All 2 1 0)) }
    ensures queue { allocate inward 1 64 true (Some opened_end) ≡ refusal QueueFull }
    ensures made { allocate inward 2 16 false (Some opened_end) ≡ Becomes (counting 2 16) (Ok (All 2 2 16)) }
    ensures recalled { allocates_at 2 16 (receiver_with 0 0) ≡ Becomes (receiver_with 2 16) (Ok (All 2 2 16)) }
    ensures closing_before_end { allocate outward 1 8 false (Some left_end) ≡ refusal Closing }
    ensures closing_before_amounts_due { allocate inward 1 65 false (Some (due byte_stored)) ≡ refusal Closing }
    ensures closing_before_amounts_left { allocate inward 1 65 false (Some left_end) ≡ refusal Closing }
    ensures open_before_amounts { allocate inward 1 65 false (Some asked_receive) ≡ refusal NotOpen }
    ensures bits_alone { allocate inward 0 16 false (Some opened_end) ≡ Becomes (counting 0 16) (Ok (All 2 0 16)) }
{}

/// Calling back, one at a time.
pub fn calling_back()
    ensures keeps_the_rest { call_back inward 64 1 false (Some after_ins) ≡ Becomes loaded_receiver (Ok (Gvb 2 64 1)) }
    ensures entry { call_back outward 64 1 true None ≡ refusal NoEntry }
    ensures closing_left { call_back outward 64 1 true (Some (gone asked_send)) ≡ refusal Closing }
    ensures closing_due { call_back outward 64 1 true (Some (due opened_end)) ≡ refusal Closing }
    ensures open_unanswered { call_back outward 64 1 true (Some asked_send) ≡ refusal NotOpen }
    ensures open_unasked { call_back outward 64 1 true (Some link_heard) ≡ refusal NotOpen }
    ensures end { call_back outward 64 1 true (Some recalled_end) ≡ refusal WrongEnd }
    ensures busy { call_back inward 64 1 true (Some recalled_end) ≡ refusal Busy }
    ensures queue { call_back inward 64 1 true (Some opened_end) ≡ refusal QueueFull }
    ensures made { call_back inward 64 1 false (Some allocated) ≡ Becomes (recalling allocated) (Ok (Gvb 2 64 1)) }
    ensures closing_before_busy_due { call_back inward 64 1 false (Some (due recalled_end)) ≡ refusal Closing }
    ensures closing_before_busy_left { call_back inward 64 1 false (Some (gone recalled_end)) ≡ refusal Closing }
    ensures open_before_busy { call_back inward 64 1 false (Some (recalling asked_receive)) ≡ refusal NotOpen }
    ensures unallocated { call_back inward 128 128 false (Some opened_end) ≡ Becomes recalled_end (Ok (Gvb 2 128 128)) }
{}

/// Interrupting: INS from a sender, INR from a receiver.
pub fn interrupting()
    ensures entry { interrupt outward true None ≡ refusal NoEntry }
    ensures closing_left { interrupt outward true (Some (gone asked_send)) ≡ refusal Closing }
    ensures closing_due { interrupt inward true (Some (due opened_end)) ≡ refusal Closing }
    ensures open_unanswered { interrupt outward true (Some asked_send) ≡ refusal NotOpen }
    ensures open_unasked { interrupt outward true (Some link_heard) ≡ refusal NotOpen }
    ensures queue_of_sender { interrupt outward true (Some opened_end) ≡ refusal QueueFull }
    ensures queue_of_receiver { interrupt inward true (Some opened_end) ≡ refusal QueueFull }
    ensures keeps { interrupt inward false (Some receiver_in_use) ≡ Becomes receiver_in_use (Ok (Inr 2)) }
    ensures sender { interrupt outward false (Some opened_end) ≡ Becomes opened_end (Ok (Ins 2)) }
    ensures receiver { interrupt inward false (Some opened_end) ≡ Becomes opened_end (Ok (Inr 2)) }
    ensures link_of_sender { interrupt outward false (Some (linked_by 71)) ≡ Becomes (linked_by 71) (Ok (Ins 71)) }
    ensures link_of_receiver { interrupt inward false (Some (linked_by 71)) ≡ Becomes (linked_by 71) (Ok (Inr 71)) }
{}

/// An RTS that arrives: links 2 to 71, once per endpoint, and no link of another endpoint; at most
/// 64 endpoints with the peer's request alone.
pub fn hearing_rts()
    ensures sex { hear_rts inward 2 false 0 None ≡ erred 3 (ten_bytes 1 0 0 0 3 0 0 0 2 2) }
    ensures sex_both_send { hear_rts both_send 2 false 0 None ≡ erred 3 (ten_bytes 1 0 0 0 5 0 0 0 3 2) }
    ensures link_above_the_last { hear_rts new_outward 72 false 0 None ≡ erred 3 (ten_bytes 1 0 0 0 8 0 0 0 9 72) }
    ensures link_below_the_first { hear_rts outward 1 false 0 None ≡ erred 3 (ten_bytes 1 0 0 0 2 0 0 0 3 1) }
    ensures again { hear_rts outward 3 false 0 (Some link_heard) ≡ erred 3 (ten_bytes 1 0 0 0 2 0 0 0 3 3) }
    ensures taken { hear_rts outward 2 true 64 None ≡ erred 3 (ten_bytes 1 0 0 0 2 0 0 0 3 2) }
    ensures full { hear_rts outward 2 false 64 None ≡ Stays Heard.Full }
    ensures first { hear_rts outward 2 false 63 None ≡ Becomes link_heard Nothing }
    ensures last { hear_rts outward 71 false 0 None ≡ Becomes (record link_heard { link = 71 }) Nothing }
    ensures opens { hear_rts outward 2 false 64 (Some asked_send) ≡ Becomes opened_end Nothing }
    ensures left { hear_rts outward 2 false 64 (Some (gone asked_send)) ≡ Becomes (gone unmet_sender) Nothing }
    ensures sex_when_full { hear_rts inward 2 false 64 None ≡ erred 3 (ten_bytes 1 0 0 0 3 0 0 0 2 2) }
    ensures link_when_full { hear_rts outward 72 false 64 None ≡ erred 3 (ten_bytes 1 0 0 0 2 0 0 0 3 72) }
    ensures left_again { hear_rts outward 5 false 0 (Some (gone link_heard)) ≡ erred 3 (ten_bytes 1 0 0 0 2 0 0 0 3 5) }
{}

/// An STR that arrives: a size that is not 0, once per endpoint.
pub fn hearing_str()
    ensures sex { hear_str outward 8 0 None ≡ erred 3 (ten_bytes 2 0 0 0 2 0 0 0 3 8) }
    ensures sex_both_receive { hear_str both_receive 8 0 None ≡ erred 3 (ten_bytes 2 0 0 0 4 0 0 0 2 8) }
    ensures size { hear_str inward 0 64 None ≡ erred 3 (ten_bytes 2 0 0 0 3 0 0 0 2 0) }
    ensures again { hear_str inward 8 64 (Some size_heard) ≡ erred 3 (ten_bytes 2 0 0 0 3 0 0 0 2 8) }
    ensures full { hear_str inward 8 64 None ≡ Stays Heard.Full }
    ensures first { hear_str inward 8 63 None ≡ Becomes size_heard Nothing }
    ensures least { hear_str inward 1 0 None ≡ Becomes (record new_end { heard = true; size = 1 }) Nothing }
    ensures last { hear_str inward 255 0 None ≡ Becomes (record new_end { heard = true; size = 255 }) Nothing }
    ensures opens { hear_str inward 8 64 (Some asked_receive) ≡ Becomes opened_end Nothing }
    ensures left { hear_str inward 8 64 (Some (gone asked_receive)) ≡ Becomes (gone unmet_receiver) Nothing }
    ensures faulty_when_full { hear_str outward 8 64 None ≡ erred 3 (ten_bytes 2 0 0 0 2 0 0 0 3 8) }
    ensures left_again { hear_str inward 9 0 (Some (gone size_heard)) ≡ erred 3 (ten_bytes 2 0 0 0 3 0 0 0 2 9) }
{}

/// A CLS that arrives. The endpoint makes one CLS to match it: before, at once, after the RFNM of
/// the unacknowledged text, or when the held text is taken. A second CLS, one at a pair without an
/// endpoint, and one for an improper pair get an ERR.
pub fn hearing_cls()
    ensures keeps_the_rest { hear_cls outward (Some loaded_sender) ≡ Becomes (shut (due sender_in_use)) Nothing }
    ensures sex { hear_cls (record { local = 5; remote = 7 }) None ≡ erred 3 (ten_bytes 3 0 0 0 7 0 0 0 5 0) }
    ensures entry { hear_cls (record { local = 6; remote = 7 }) None ≡ erred 4 (ten_bytes 3 0 0 0 7 0 0 0 6 0) }
    ensures again { hear_cls outward (Some (shut (due busy_end))) ≡ erred 3 (ten_bytes 3 0 0 0 2 0 0 0 3 0) }
    ensures left { hear_cls outward (Some left_end) ≡ Becomes over_end Nothing }
    ensures left_ends { end_after (Some left_end) (hear_cls outward (Some left_end)) ≡ None }
    ensures leaving { hear_cls outward (Some (due busy_end)) ≡ Becomes (shut (due busy_end)) Nothing }
    ensures leaving_stays { end_after None (hear_cls outward (Some (due busy_end))) ≡ Some (shut (due busy_end)) }
    ensures again_at_receiver { hear_cls inward (Some (still_holding 8)) ≡ erred 3 (ten_bytes 3 0 0 0 3 0 0 0 2 0) }
    ensures keeps { hear_cls inward (Some loaded_receiver) ≡ Becomes (shut (due loaded_receiver)) Nothing }
    ensures leaving_too { hear_cls inward (Some (due opened_end)) ≡ Becomes (shut (due opened_end)) Nothing }
    ensures busy { hear_cls outward (Some (sent_one byte_stored)) ≡ Becomes (shut (due busy_end)) Nothing }
    ensures busy_stays { end_after None (hear_cls outward (Some (sent_one byte_stored))) ≡ Some (shut (due busy_end)) }
    ensures holding_one_bit { hear_cls inward (Some (storing (ones 1))) ≡ Becomes (still_holding 1) Nothing }
    ensures holding { hear_cls inward (Some byte_stored) ≡ Becomes (still_holding 8) Nothing }
    ensures sender { hear_cls outward (Some byte_stored) ≡ Becomes over_end (Reply (Cls 3 2)) }
    ensures sender_ends { end_after (Some opened_end) (hear_cls outward (Some byte_stored)) ≡ None }
    ensures receiver { hear_cls inward (Some opened_end) ≡ Becomes over_end (Reply (Cls 2 3)) }
    ensures receiver_ends { end_after (Some opened_end) (hear_cls inward (Some opened_end)) ≡ None }
    ensures refusal { hear_cls inward (Some asked_receive) ≡ Becomes (shut (gone asked_receive)) (Reply (Cls 2 3)) }
    ensures refusal_ends { end_after (Some asked_receive) (hear_cls inward (Some asked_receive)) ≡ None }
    ensures left_unopened { hear_cls outward (Some (gone asked_send)) ≡ Becomes (shut (gone asked_send)) Nothing }
    ensures left_unopened_ends { end_after (Some (gone asked_send)) (hear_cls outward (Some (gone asked_send))) ≡ None }
    ensures request_alone { hear_cls outward (Some link_heard) ≡ Becomes (shut (gone link_heard)) (Reply (Cls 3 2)) }
    ensures request_alone_ends { end_after (Some link_heard) (hear_cls outward (Some link_heard)) ≡ None }
{}

/// An ALL that arrives raises both counters, or neither if one would pass its limit.
pub fn hearing_all()
    ensures keeps_the_rest { hear_all 2 1 8 (Some (loaded (sender_with 2 16))) ≡ Becomes loaded_sender Nothing }
    ensures none { hear_all 2 1 0 None ≡ erred 5 (ten_bytes 4 2 0 1 0 0 0 0 0 0) }
    ensures unopened { hear_all 2 1 0 (Some link_heard) ≡ erred 5 (ten_bytes 4 2 0 1 0 0 0 0 0 0) }
    ensures late { hear_all 2 1 0 (Some (gone link_heard)) ≡ Stays Heard.Late }
    ensures late_due { hear_all 2 1 0 (Some (due (sent_one (counting 65535 0)))) ≡ Stays Heard.Late }
    ensures messages { hear_all 2 1 0 (Some (counting 65535 0)) ≡ erred 3 (ten_bytes 4 2 0 1 0 0 0 0 0 0) }
    ensures bits { hear_all 2 0 1 (Some (counting 0 4294967295)) ≡ erred 3 (ten_bytes 4 2 0 0 0 0 0 1 0 0) }
    ensures limit { hear_all 2 1 1 (Some (counting 65534 4294967294)) ≡ Becomes (counting 65535 4294967295) Nothing }
    ensures rise { hear_all 2 2 16 (Some one_granted) ≡ Becomes (counting 3 24) Nothing }
{}

/// A GVB that arrives: with counters of 5 and 1,000, GVB 64 1, then GVB 200 0.
#[tactic(auto, unfolding(crate::specs::Amounts::back))]
pub fn hearing_gvb()
    ensures none { hear_gvb 2 64 1 None ≡ erred 5 (ten_bytes 5 2 64 1 0 0 0 0 0 0) }
    ensures unopened { hear_gvb 2 64 1 (Some link_heard) ≡ erred 5 (ten_bytes 5 2 64 1 0 0 0 0 0 0) }
    ensures late { hear_gvb 2 64 1 (Some (gone link_heard)) ≡ Stays Heard.Late }
    ensures late_due { hear_gvb 2 64 1 (Some (due (sent_one (counting 5 1000)))) ≡ Stays Heard.Late }
    ensures first { hear_gvb 2 64 1 (Some (counting 5 1000)) ≡ Becomes (counting 2 992) (Reply (Ret 2 3 8)) }
    ensures second { hear_gvb 2 200 0 (Some (counting 2 992)) ≡ Becomes (counting 0 992) (Reply (Ret 2 2 0)) }
    ensures keeps { hear_gvb 2 64 1 (Some (in_full_use 5 1000)) ≡ Becomes (in_full_use 2 992) (Reply (Ret 2 3 8)) }
    ensures nothing_back { hear_gvb 2 0 0 (Some (counting 5 1000)) ≡ Becomes (counting 5 1000) (Reply (Ret 2 0 0)) }
{}

/// A RET that arrives answers the GVB and lowers both outstanding numbers, or is an error if it
/// exceeds one.
pub fn hearing_ret()
    ensures keeps_the_rest { hear_ret 2 1 8 (Some loaded_receiver) ≡ Becomes (after_interrupts 2 16) Nothing }
    ensures none { hear_ret 9 0 0 None ≡ erred 5 (ten_bytes 6 9 0 0 0 0 0 0 0 0) }
    ensures unopened { hear_ret 2 0 0 (Some asked_receive) ≡ erred 5 (ten_bytes 6 2 0 0 0 0 0 0 0 0) }
    ensures late { hear_ret 2 0 0 (Some (gone asked_receive)) ≡ Stays Heard.Late }
    ensures late_due { hear_ret 2 9 9 (Some (due (counting 5 20))) ≡ Stays Heard.Late }
    ensures messages { hear_ret 2 6 0 (Some awaiting_ret) ≡ erred 3 (ten_bytes 6 2 0 6 0 0 0 0 0 0) }
    ensures bits { hear_ret 2 0 21 (Some awaiting_ret) ≡ erred 3 (ten_bytes 6 2 0 0 0 0 0 21 0 0) }
    ensures all { hear_ret 2 5 20 (Some awaiting_ret) ≡ Becomes opened_end Nothing }
    ensures falls { hear_ret 2 3 8 (Some awaiting_ret) ≡ Becomes (counting 2 12) Nothing }
    ensures unasked { hear_ret 2 1 1 (Some (counting 3 24)) ≡ Becomes (counting 2 23) Nothing }
{}

/// An interrupt that arrives is counted, up to the limit.
pub fn hearing_interrupts()
    ensures none_for_inr { hear_inr 2 None ≡ erred 5 (ten_bytes 7 2 0 0 0 0 0 0 0 0) }
    ensures none_for_ins { hear_ins 2 None ≡ erred 5 (ten_bytes 8 2 0 0 0 0 0 0 0 0) }
    ensures unopened { hear_inr 2 (Some link_heard) ≡ erred 5 (ten_bytes 7 2 0 0 0 0 0 0 0 0) }
    ensures late { hear_inr 2 (Some (gone link_heard)) ≡ Stays Heard.Late }
    ensures late_due { hear_ins 2 (Some (due opened_end)) ≡ Stays Heard.Late }
    ensures counted_inr { hear_inr 2 (Some opened_end) ≡ Becomes (with_interrupts 1 opened_end) Nothing }
    ensures counted_ins { hear_ins 2 (Some opened_end) ≡ Becomes (with_interrupts 1 opened_end) Nothing }
    ensures limit { hear_ins 2 (Some most_interrupted) ≡ Becomes most_interrupted Nothing }
    ensures limit_too { hear_inr 2 (Some most_interrupted) ≡ Becomes most_interrupted Nothing }
    ensures unopened_too { hear_ins 2 (Some asked_receive) ≡ erred 5 (ten_bytes 8 2 0 0 0 0 0 0 0 0) }
{}

/// A text that arrives: its byte size is checked before its length. A text of no bytes uses one
/// message and no bits.
pub fn hearing_text()
    ensures none { hear_text 8 (ones 16) None ≡ Stays Took.NotOpen }
    ensures unopened { hear_text 8 (ones 16) (Some asked_receive) ≡ Stays Took.NotOpen }
    ensures late { hear_text 7 (ones 16) (Some (gone asked_receive)) ≡ Stays Took.Late }
    ensures late_due { hear_text 7 (ones 16) (Some (due byte_stored)) ≡ Stays Took.Late }
    ensures size { hear_text 7 (ones 14) (Some opened_end) ≡ Stays Took.WrongSize }
    ensures messages { hear_text 8 [] (Some (counting 0 16)) ≡ Stays Took.Over }
    ensures bits { hear_text 8 (ones 16) (Some (counting 2 15)) ≡ Stays Took.Over }
    ensures admitted { hear_text 8 (ones 16) (Some byte_held) ≡ Becomes three_bytes_held Took.Admitted }
    ensures empty { hear_text 8 [] (Some (counting 2 16)) ≡ Becomes (counting 1 16) Took.Admitted }
    ensures last { hear_text 8 (ones 8) (Some one_granted) ≡ Becomes byte_stored Took.Admitted }
    ensures empty_without_bits { hear_text 8 [] (Some (counting 1 0)) ≡ Becomes (counting 0 0) Took.Admitted }
    ensures empty_size { hear_text 7 [] (Some (counting 2 16)) ≡ Stays Took.WrongSize }
{}

/// Cutting a text to send: three bytes are stored, two are allocated. None is sent while one is
/// unacknowledged, if no message is allocated, if the counter of bits or the store has less than
/// one byte, or if the endpoint is not an open sender.
pub fn cutting()
    ensures keeps_the_rest { cut outward (Some (after_interrupts 2 16)) ≡ Becomes (sender_with 1 8) (Some (8, ones 8)) }
    ensures none { cut outward None ≡ Stays None }
    ensures two { cut outward (Some three_waiting) ≡ Becomes two_sent (Some (8, ones 16)) }
    ensures whole { cut outward (Some a_bit_short) ≡ Becomes (sent_one (loaded_with 0 7)) (Some (8, ones 16)) }
    ensures busy { cut outward (Some (sent_one (record (counting 2 16) { stored = ones 16 }))) ≡ Stays None }
    ensures messages { cut outward (Some (record (counting 0 16) { stored = ones 16 })) ≡ Stays None }
    ensures bits { cut outward (Some (record (counting 2 7) { stored = ones 16 })) ≡ Stays None }
    ensures waiting { cut outward (Some (counting 2 16)) ≡ Stays None }
    ensures leaving { cut outward (Some (due (record (counting 2 16) { stored = ones 16 }))) ≡ Stays None }
    ensures receiver { cut inward (Some (record (counting 2 16) { stored = ones 16 })) ≡ Stays None }
{}

/// A message has at most 7,928 bits of text: 991 bytes of 8 bits, then the 9 that are left of
/// 1,000; 31 bytes of 255 bits, which are 7,905 bits. One `take` has the same bound.
pub fn filling_a_message()
    ensures most { OfEndsStoring 8000 8 9000 (λ e. bytes_to_send e ≡ 991) }
    ensures rest { OfEndsStoring 72 8 1072 (λ e. bytes_to_send e ≡ 9) }
    ensures long { OfEndsStoring 25500 255 25500 (λ e. bytes_to_send e ≡ 31) }
    ensures long_in_bits { OfEndsStoring 25500 255 25500 (λ e. bytes_to_send e * e.size ≡ 7905) }
    ensures taken { (e : Endpoint) → length e.stored ≡ 8000 → e.size ≡ 8 → bits_to_take 1000 e ≡ 7928 }
    ensures taken_in_whole_bytes { (e : Endpoint) → length e.stored ≡ 8000 → e.size ≡ 8 → bits_to_take 990 e ≡ 7920 }
    ensures held { (e : Endpoint) → length e.stored ≡ 72 → e.size ≡ 8 → bits_to_take 4294967295 e ≡ 72 }
{}

/// The amount that a GVB gives back.
#[tactic(auto, unfolding(crate::specs::Amounts::back))]
pub fn giving_back()
    ensures nothing { back 1000 0 ≡ 0 }
    ensures little { back 1000 1 ≡ 8 }
    ensures all { (back 5 128 ≡ 5) × (back 5 255 ≡ 5) }
    ensures half { (back 65535 64 ≡ 32768) × (back 5 64 ≡ 3) }
    ensures most { back 4294967295 1 ≡ 33554432 }
{}

/// Only a text that finds no open connection makes an ERR. Its data is the leader and prefix, and
/// the first 8 bits of text, padded with zeros.
pub fn refusing_text()
    ensures only_unopened { (head text : List Bool) → made_by_text head text Took.NotOpen ≡ text_error head text ∷ [] }
    ensures only_not_late { (head text : List Bool) → made_by_text head text Took.Late ≡ [] }
    ensures only_not_of_wrong_size { (head text : List Bool) → made_by_text head text Took.WrongSize ≡ [] }
    ensures only_not_over { (head text : List Bool) → made_by_text head text Took.Over ≡ [] }
    ensures only_not_admitted { (head text : List Bool) → made_by_text head text Took.Admitted ≡ [] }
    ensures text { text_error ends_in_ones (ones 4 ++ zero_bits 4 ++ ones 8) ≡ err 5 (ten_bytes 0 0 0 0 0 0 0 0 255 240) }
    ensures short { text_error (zero_bits 71 ++ ones 1) (ones 3) ≡ err 5 (ten_bytes 0 0 0 0 0 0 0 0 1 224) }
    ensures empty { text_error (ones 72) [] ≡ err 5 (ten_bytes 255 255 255 255 255 255 255 255 255 0) }
{}

/// The answer to a text: only an RFNM frees its sender, and a leaving sender then queues its CLS.
pub fn answering()
    ensures keeps_the_rest { end_answered outward Rfnm (Some (sent_one used_byte)) ≡ Becomes used_byte None }
    ensures none_taken { end_answered outward Rfnm None ≡ Stays None }
    ensures none_incomplete { end_answered outward Incomplete None ≡ Stays None }
    ensures none_dead { end_answered outward Dead None ≡ Stays None }
    ensures taken { end_answered outward Rfnm (Some (sent_one byte_stored)) ≡ Becomes byte_stored None }
    ensures only_leaving { end_answered outward Rfnm (Some (sent_one shut_sender)) ≡ Becomes shut_sender None }
    ensures again { end_answered outward Incomplete (Some (due busy_end)) ≡ Stays None }
    ensures kept { end_answered outward Dead (Some (due busy_end)) ≡ Stays None }
    ensures leaving { end_answered outward Rfnm (Some (due busy_end)) ≡ Becomes left_end (Some (Cls 3 2)) }
    ensures leaving_stays { end_after None (end_answered outward Rfnm (Some (due busy_end))) ≡ Some left_end }
    ensures ends { end_answered outward Rfnm (Some (shut (due busy_end))) ≡ Becomes over_end (Some (Cls 3 2)) }
    ensures ends_there { end_after (Some opened_end) (end_answered outward Rfnm (Some (shut (due busy_end)))) ≡ None }
    ensures not_delivered_incomplete { end_answered outward Incomplete (Some busy_end) ≡ Stays None }
    ensures not_delivered_dead { end_answered outward Dead (Some busy_end) ≡ Stays None }
    ensures receiver { end_answered inward Rfnm (Some (due byte_stored)) ≡ Stays None }
{}

/// When an endpoint is new, open, live and over.
pub fn lives_of_an_end()
    ensures new { new_end ≡ record { asked = false; heard = false; opened = false; leaving = false; left = false; cls = false; link = 0; size = 0; messages = 0; bits = 0; stored = []; room = 0; busy = false; recall = false; interrupts = 0 } }
    ensures new_where_none { (or_new None ≡ new_end) × (or_new (Some opened_end) ≡ opened_end) }
    ensures open { is_open opened_end ≡ true }
    ensures unmet_asked { is_open asked_send ≡ false }
    ensures unmet_heard { is_open link_heard ≡ false }
    ensures going_due { is_open (due opened_end) ≡ false }
    ensures going_left { is_open left_end ≡ false }
    ensures live { is_live (Some left_end) ≡ true }
    ensures live_only_opened { is_live (Some asked_send) ≡ false }
    ensures live_only_there { is_live None ≡ false }
    ensures over { is_ended over_end ≡ true }
    ensures over_only_with_its_cls { is_ended left_end ≡ false }
    ensures over_only_left { is_ended (shut opened_end) ≡ false }
    ensures stays_opened { met left_end ≡ gone opened_end }
    ensures cleared { end_cleared (Some opened_end) ≡ None }
{}

/// Echo and errors: one echo at a time; an ERP that is not awaited is stray; of 17 errors the last
/// 16 are kept. A purge ends the echo and keeps the rest.
pub fn echoing()
    ensures busy { (full : Bool) (s : Echoes) → s.awaited ≡ true → echo_answer 65 full s ≡ Err Busy }
    ensures busy_stays { (full : Bool) (s : Echoes) → s.awaited ≡ true → echo_asked full s ≡ s }
    ensures queue { echo_answer 65 true no_echoes ≡ Err QueueFull }
    ensures queue_changes_nothing { echo_asked true no_echoes ≡ no_echoes }
    ensures asked { echo_answer 65 false no_echoes ≡ Ok (Eco 65) }
    ensures asked_awaits { echo_asked false no_echoes ≡ record no_echoes { awaited = true } }
    ensures reply { eco_reply 65 ≡ Erp 65 }
    ensures answered { hear_erp 65 (awaiting None []) ≡ record no_echoes { echoed = Some 65 } }
    ensures answered_as_awaited { let s : Echoes = record no_echoes { awaited = true } in is_stray_erp s ≡ false }
    ensures stray_changes_nothing { let s : Echoes = record no_echoes { echoed = Some 65 } in hear_erp 66 s ≡ s }
    ensures stray { let s : Echoes = record no_echoes { echoed = Some 65 } in is_stray_erp s ≡ true }
    ensures first { (e : Error) → hear_err e no_echoes ≡ record no_echoes { errors = e ∷ [] } }
    ensures sixteen { (a b : Error) (es : List Error) → length es ≡ 14 → errors_after b (a ∷ es) ≡ (a ∷ es) ++ b ∷ [] }
    ensures last { (a b : Error) (es : List Error) → length es ≡ 15 → errors_after b (a ∷ es) ≡ es ++ b ∷ [] }
    ensures purge { (s : Echoes) → purge_echo s ≡ record s { awaited = false } }
    ensures error_alone { (e : Error) → hear_err e (awaiting (Some 65) []) ≡ awaiting (Some 65) (e ∷ []) }
    ensures answer_alone { (e : Error) → hear_erp 65 (awaiting None (e ∷ [])) ≡ echoed_by 65 (e ∷ []) }
{}

/// The transition of a call: the endpoint after it, the command that it makes, and the outcome.
pub fn telling_of_calls()
    ensures asks_to_send { happens outward (Asks_to_send 8 64 0 false) None ≡ making asked_send (Str 3 2 8) }
    ensures asks_to_receive { happens inward (Asks_to_receive 64 2 0 false) None ≡ making asked_receive (Rts 2 3 2) }
    ensures refused_to_send { happens outward (Asks_to_send 0 64 0 false) None ≡ yields_none (Refused BadSize) }
    ensures refused_to_receive { happens inward (Asks_to_receive 64 2 64 false) None ≡ yields_none (Refused TableFull) }
    ensures closes { happens outward (Closes false) (Some opened_end) ≡ making left_end (Cls 3 2) }
    ensures closes_later { happens outward (Closes false) (Some busy_end) ≡ yields (due busy_end) Accepted }
    ensures closes_nothing { happens outward (Closes false) None ≡ yields_none (Refused NoEntry) }
    ensures gives { happens outward (Gives (ones 8)) (Some opened_end) ≡ yields byte_stored Accepted }
    ensures gives_in_vain { happens outward (Gives (ones 7)) (Some opened_end) ≡ yields opened_end (Refused NotWhole) }
    ensures takes { happens inward (Takes 100) (Some (storing (ones 16))) ≡ yields opened_end (Took_out (ones 16)) }
    ensures last { happens inward (Takes 100) (Some (still_holding 16)) ≡ leaves_none (Cls 2 3) (Took_out (ones 16)) }
    ensures takes_nothing { happens outward (Takes 100) (Some opened_end) ≡ yields opened_end (Refused WrongEnd) }
    ensures allocates { happens inward (Allocates 2 16 false) (Some opened_end) ≡ making (counting 2 16) (All 2 2 16) }
    ensures calls_back { happens inward (Calls_back 64 1 false) (Some opened_end) ≡ making recalled_end (Gvb 2 64 1) }
    ensures interrupts { happens outward (Interrupts false) (Some opened_end) ≡ making opened_end (Ins 2) }
    ensures full { happens outward (Interrupts true) (Some opened_end) ≡ yields opened_end (Refused QueueFull) }
{}

/// The transition of a command that arrives.
#[tactic(auto, unfolding(crate::specs::Amounts::back))]
pub fn telling_of_commands()
    ensures rts { happens outward (Rts_comes 2 false 0) None ≡ yields link_heard Accepted }
    ensures rts_taken { happens outward (Rts_comes 2 true 0) None ≡ errs_at None 3 (ten_bytes 1 0 0 0 2 0 0 0 3 2) }
    ensures rts_full { happens outward (Rts_comes 2 false 64) None ≡ yields_none all.Full }
    ensures str { happens inward (Str_comes 8 0) (Some asked_receive) ≡ yields opened_end Accepted }
    ensures cls { happens outward Cls_comes (Some opened_end) ≡ leaves_none (Cls 3 2) Accepted }
    ensures cls_nowhere { happens outward Cls_comes None ≡ errs_at None 4 (ten_bytes 3 0 0 0 2 0 0 0 3 0) }
    ensures all { happens outward (All_comes 2 2 16) (Some opened_end) ≡ yields (counting 2 16) Accepted }
    ensures late { happens outward (All_comes 2 2 16) (Some left_end) ≡ yields left_end all.Late }
    ensures gvb { happens outward (Gvb_comes 2 64 1) (Some (counting 5 1000)) ≡ making (counting 2 992) (Ret 2 3 8) }
    ensures ret { happens inward (Ret_comes 2 3 8) (Some awaiting_ret) ≡ yields (counting 2 12) Accepted }
    ensures inr { happens outward (Inr_comes 2) (Some opened_end) ≡ yields (with_interrupts 1 opened_end) Accepted }
    ensures ins { happens inward (Ins_comes 2) (Some opened_end) ≡ yields (with_interrupts 1 opened_end) Accepted }
{}

/// The transition of a text that arrives, is sent or is answered, and of a clearing.
pub fn telling_of_texts()
    ensures admitted { happens inward (text_arrives 8 (ones 8)) (Some one_granted) ≡ yields byte_stored all.Admitted }
    ensures late { happens inward (text_arrives 8 (ones 8)) (Some left_granted) ≡ yields left_granted all.Late }
    ensures size { happens inward (text_arrives 7 (ones 7)) (Some one_granted) ≡ yields one_granted all.WrongSize }
    ensures over { happens inward (text_arrives 8 (ones 16)) (Some one_granted) ≡ yields one_granted all.Over }
    ensures none { happens inward (Text_comes (ones 72) 8 []) None ≡ leaves_none (text_error (ones 72) []) all.NotOpen }
    ensures goes_out { happens outward Text_goes_out (Some (loaded one_granted)) ≡ yields busy_end (Sent 8 (ones 8)) }
    ensures stays { happens outward Text_goes_out (Some opened_end) ≡ yields opened_end Accepted }
    ensures taken { happens outward (Is_answered Rfnm) (Some (due busy_end)) ≡ making left_end (Cls 3 2) }
    ensures again { happens outward (Is_answered Incomplete) (Some (due busy_end)) ≡ yields (due busy_end) Accepted }
    ensures cleared { happens outward Is_cleared (Some opened_end) ≡ yields_none Accepted }
{}

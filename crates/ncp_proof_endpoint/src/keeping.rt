//! The fields that each event may change; all other fields of the endpoint are unchanged.
ghost use Rattle.std.specs.Prelude.{◌≡◌, ℕ, Bool, true, false, ◌≤◌, List};
ghost use Rattle.ncp_wire.specs.declared.answer.Answer.{Answer};
ghost use Rattle.ncp_model.specs.EndpointEvents.{Asks_to_send, Asks_to_receive, Closes, Gives, Takes, Allocates, Calls_back, Interrupts, Rts_comes, Str_comes, Cls_comes, All_comes, Gvb_comes, Ret_comes, Inr_comes, Ins_comes, Text_comes, Text_goes_out, Is_answered};
ghost use Rattle.ncp_proof_endpoint.specs.Keeping.{Always, MovesOnly, own_size, own_link, its_leaving, store_alone, both_numbers, recall_alone, no_field, request_and_link, request_and_size, closing_marks, numbers_and_recall, interrupts_alone, numbers_and_store, text_out, text_back, calls_back, is_ret, is_interrupt, is_sending, frees_the_sender, counts};
ghost use Rattle.ncp_proof_endpoint.specs.OfEnds.{WhereOneOpens};

use ncp_model::{MAX_AMOUNT, MAX_COUNT, MAX_MESSAGES, MAX_ROOM};

/// The fields that a user's call may change, if the endpoint exists afterwards. An endpoint that
/// did not exist before counts as a new one.
pub fn calls_change_no_more()
    ensures asks_to_send { (size room own : ℕ) (full : Bool) → MovesOnly (Asks_to_send size room own full) own_size }
    ensures asks_to_receive { (room on own : ℕ) (full : Bool) → MovesOnly (Asks_to_receive room on own full) own_link }
    ensures closes { (full : Bool) → MovesOnly (Closes full) its_leaving }
    ensures gives { (text : List Bool) → MovesOnly (Gives text) store_alone }
    ensures takes { (bytes : ℕ) → MovesOnly (Takes bytes) its_leaving }
    ensures allocates { (messages bits : ℕ) (full : Bool) → MovesOnly (Allocates messages bits full) both_numbers }
    ensures calls_back { (messages bits : ℕ) (full : Bool) → MovesOnly (Calls_back messages bits full) recall_alone }
    ensures interrupts { (full : Bool) → MovesOnly (Interrupts full) no_field }
{}

/// The fields that an arriving command may change, if the endpoint exists afterwards.
pub fn commands_change_no_more()
    ensures rts { (on by_peer : ℕ) (taken : Bool) → MovesOnly (Rts_comes on taken by_peer) request_and_link }
    ensures str { (size by_peer : ℕ) → MovesOnly (Str_comes size by_peer) request_and_size }
    ensures cls { MovesOnly Cls_comes closing_marks }
    ensures all { (on messages bits : ℕ) → MovesOnly (All_comes on messages bits) both_numbers }
    ensures gvb { (on messages bits : ℕ) → MovesOnly (Gvb_comes on messages bits) both_numbers }
    ensures ret { (on messages bits : ℕ) → MovesOnly (Ret_comes on messages bits) numbers_and_recall }
    ensures inr { (on : ℕ) → MovesOnly (Inr_comes on) interrupts_alone }
    ensures ins { (on : ℕ) → MovesOnly (Ins_comes on) interrupts_alone }
{}

/// The fields that a text may change, if the endpoint exists afterwards.
pub fn texts_change_no_more()
    ensures comes { (head text : List Bool) (size : ℕ) → MovesOnly (Text_comes head size text) numbers_and_store }
    ensures goes_out { MovesOnly Text_goes_out text_out }
    ensures answered { (how : Answer) → MovesOnly (Is_answered how) text_back }
{}

/// For any event, if the endpoint exists afterwards:
///
/// - `asked`, `heard`, `opened`, `left` and `cls`, once set, remain set.
/// - Only the call of a GVB sets `recall`, and only a RET clears it.
/// - Only an INR or INS changes the number of interrupts.
/// - Only the sending of a text sets `busy`, and only its RFNM clears it.
/// - Only allocations, ALL, GVB, RET and texts change the two counters.
pub fn marks_move_by_their_causes()
    ensures asked { Always (λ what was now. was.asked ≡ true → now.asked ≡ true) }
    ensures heard { Always (λ what was now. was.heard ≡ true → now.heard ≡ true) }
    ensures opened { Always (λ what was now. was.opened ≡ true → now.opened ≡ true) }
    ensures left { Always (λ what was now. was.left ≡ true → now.left ≡ true) }
    ensures cls { Always (λ what was now. was.cls ≡ true → now.cls ≡ true) }
    ensures recalled { Always (λ what was now. calls_back what ≡ false → was.recall ≡ false → now.recall ≡ false) }
    ensures returned { Always (λ what was now. is_ret what ≡ false → was.recall ≡ true → now.recall ≡ true) }
    ensures interrupts { Always (λ what was now. is_interrupt what ≡ false → now.interrupts ≡ was.interrupts) }
    ensures sending { Always (λ what was now. is_sending what ≡ false → was.busy ≡ false → now.busy ≡ false) }
    ensures freed { Always (λ what was now. frees_the_sender what ≡ false → was.busy ≡ true → now.busy ≡ true) }
    ensures messages { Always (λ what was now. counts what ≡ false → now.messages ≡ was.messages) }
    ensures bits { Always (λ what was now. counts what ≡ false → now.bits ≡ was.bits) }
{}

/// An endpoint opens only if both requests were made and it is not closing; when both are true for
/// the first time, `opened` is set.
pub fn ends_open_by_both_requests()
    ensures asked { Always (λ what was now. was.opened ≡ false → now.opened ≡ true → now.asked ≡ true) }
    ensures heard { Always (λ what was now. was.opened ≡ false → now.opened ≡ true → now.heard ≡ true) }
    ensures stays { Always (λ what was now. was.opened ≡ false → now.opened ≡ true → now.leaving ≡ false) }
    ensures not_left { Always (λ what was now. was.opened ≡ false → now.opened ≡ true → now.left ≡ false) }
    ensures meets { WhereOneOpens (λ now. now.opened ≡ true) }
{}

/// No event takes a number past its limit.
pub fn numbers_stay_in_their_limits()
    ensures messages { Always (λ what was now. was.messages ≤ MAX_MESSAGES → now.messages ≤ MAX_MESSAGES) }
    ensures bits { Always (λ what was now. was.room ≤ MAX_ROOM → was.bits ≤ MAX_AMOUNT → now.bits ≤ MAX_AMOUNT) }
    ensures interrupts { Always (λ what was now. was.interrupts ≤ MAX_COUNT → now.interrupts ≤ MAX_COUNT) }
    ensures room { Always (λ what was now. was.room ≤ MAX_ROOM → now.room ≤ MAX_ROOM) }
{}

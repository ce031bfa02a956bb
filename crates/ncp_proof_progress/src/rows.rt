//! The measure of known ends and commands, and examples that reach each weight: for each kind, one
//! event that adds all it may.
ghost use Rattle.std.specs.Prelude.{◌≡◌, ◌+◌, true, false, [], ◌∷◌, None, Some};
ghost use Rattle.ncp_model.specs.EndpointEvents.{happens, Asks_to_send, Asks_to_receive, Closes, Gives, Takes, Allocates, Calls_back, Interrupts, Rts_comes, Str_comes, Cls_comes, All_comes, Gvb_comes, Ret_comes, Inr_comes, Ins_comes, Text_comes, Text_goes_out};
ghost use Rattle.ncp_model.specs.Peers.{Ask_to_send, Ask_to_receive, Close, Give, Take, Allocate, Call_back, Interrupt};
ghost use Rattle.ncp_model.specs.Phase.{up_phase};
ghost use Rattle.ncp_model.specs.Rows.{outward, inward, ones, opened_end, counting, storing, due, gone};
ghost use Rattle.ncp_proof_progress.specs.WorkRows.{work_by, loaded_end};
ghost use Rattle.ncp_proof_progress.specs.Work.{causes_all, queue_work, end_work, end_work_at, phase_work, work_added, takes_away, call_budget};

use ncp_wire::Command;

/// An open end counts two: its CLS to make, and the answer to that. Three bytes stored at a sender
/// count six more; text that a receiver holds counts nothing. An end that left counts nothing.
pub fn work_of_ends()
    ensures open { (end_work outward opened_end ≡ 2) × (end_work inward opened_end ≡ 2) }
    ensures waiting { end_work outward (storing (ones 24)) ≡ 8 }
    ensures waiting_in_large_bytes { end_work outward (record (storing (ones 24)) { size = 12 }) ≡ 6 }
    ensures held { end_work inward (storing (ones 24)) ≡ 2 }
    ensures leaving { (end_work inward (due (storing (ones 24))) ≡ 2) × (end_work outward (due opened_end) ≡ 2) }
    ensures left { (end_work outward (gone opened_end) ≡ 0) × (end_work_at outward None ≡ 0) }
{}

/// A queued command counts one, and the messages it causes. An RRP owed counts one; an RST wanted
/// counts two, because an RRP answers it.
pub fn work_of_what_waits()
    ensures queue { queue_work (Command.Rts 2 3 2 ∷ Command.Rst ∷ Command.Rrp ∷ Command.Eco 65 ∷ []) ≡ 8 }
    ensures caused { causes_all (Command.Rts 2 3 2 ∷ Command.Rst ∷ Command.Rrp ∷ Command.Eco 65 ∷ []) ≡ 4 }
    ensures owed { phase_work (record up_phase { owe = true }) ≡ 1 }
    ensures wanted { phase_work (record up_phase { want = true }) ≡ 2 }
    ensures waiting { phase_work (record up_phase { waiting = Command.Rst ∷ [] }) ≡ 2 }
    ensures none { phase_work up_phase ≡ 0 }
{}

/// The `call_budget` of each kind of call, each with an accepted call that adds that much.
pub fn credits_are_met()
    ensures ask_to_send { call_budget (Ask_to_send 8 64) None ≡ 5 }
    ensures ask_to_send_adds { work_by outward (Asks_to_send 8 64 0 false) None ≡ 5 }
    ensures ask_to_receive { call_budget (Ask_to_receive 64) None ≡ 5 }
    ensures ask_to_receive_adds { work_by inward (Asks_to_receive 64 2 0 false) None ≡ 5 }
    ensures give { call_budget (Give (ones 24)) (Some opened_end) ≡ 6 }
    ensures give_adds { work_by outward (Gives (ones 24)) (Some opened_end) ≡ end_work outward opened_end + 6 }
    ensures allocate { call_budget (Allocate 2 16) (Some opened_end) ≡ 2 }
    ensures allocate_adds { work_by inward (Allocates 2 16 false) (Some opened_end) ≡ end_work inward opened_end + 2 }
    ensures call_back { call_budget (Call_back 128 0) (Some opened_end) ≡ 3 }
    ensures call_back_adds { work_by inward (Calls_back 128 0 false) (Some opened_end) ≡ end_work inward opened_end + 3 }
    ensures interrupt { call_budget Interrupt (Some opened_end) ≡ 2 }
    ensures interrupt_adds { work_by outward (Interrupts false) (Some opened_end) ≡ end_work outward opened_end + 2 }
    ensures close { call_budget Close (Some opened_end) ≡ 0 }
    ensures close_adds { work_by outward (Closes false) (Some opened_end) ≡ end_work outward opened_end }
    ensures take { call_budget (Take 3) (Some opened_end) ≡ 0 }
    ensures take_adds { work_by inward (Takes 3) (Some (due (storing (ones 24)))) ≡ end_work inward (due (storing (ones 24))) }
{}

/// For each kind of command, one received that adds all that `work_added` allows: it makes an end,
/// or is answered. So does a text that no end admits. Sending a text of one byte lowers the measure
/// by two.
pub fn causes_are_met()
    ensures rts { work_by outward (Rts_comes 2 false 0) None ≡ work_added outward (Rts_comes 2 false 0) None }
    ensures str { work_by inward (Str_comes 8 0) None ≡ work_added inward (Str_comes 8 0) None }
    ensures cls { work_by outward Cls_comes None ≡ work_added outward Cls_comes None }
    ensures all { work_by outward (All_comes 2 1 8) None ≡ work_added outward (All_comes 2 1 8) None }
    ensures gvb { work_by outward (Gvb_comes 2 128 128) (Some (counting 2 16)) ≡ end_work outward (counting 2 16) + work_added outward (Gvb_comes 2 128 128) (Some (counting 2 16)) }
    ensures ret { work_by inward (Ret_comes 2 1 8) None ≡ work_added inward (Ret_comes 2 1 8) None }
    ensures inr { work_by outward (Inr_comes 2) None ≡ work_added outward (Inr_comes 2) None }
    ensures ins { work_by inward (Ins_comes 2) None ≡ work_added inward (Ins_comes 2) None }
    ensures text { work_by inward (Text_comes [] 8 (ones 8)) None ≡ work_added inward (Text_comes [] 8 (ones 8)) None }
    ensures text_out { work_by outward Text_goes_out (Some loaded_end) ≡ 2 }
    ensures text_out_takes_away { takes_away (happens outward Text_goes_out (Some loaded_end)).outcome ≡ 2 }
    ensures text_out_before { end_work outward loaded_end ≡ 4 }
{}

//! The refusals in another form: for each call and each arrival a table of its cases in order. The
//! first case that holds decides the outcome.
ghost use Rattle.std.specs.Prelude.{◌≡◌, ℕ, Bool, List, Ok, Err};
ghost use Rattle.ncp_model.specs.EndpointEvents.{Asks_to_send, Asks_to_receive, Closes, Gives, Takes, Allocates, Calls_back, Interrupts, Rts_comes, Str_comes, Cls_comes, All_comes, Gvb_comes, Ret_comes, Inr_comes, Ins_comes, Text_comes, Accepted, Admitted};
ghost use Rattle.ncp_proof_endpoint.specs.Refusals.{IsRefusedFirst, StandInOrder, MeetsFirst, WheneverRefused, made_by_refusal};
ghost use Rattle.ncp_proof_endpoint.specs.Requests.{OfSenders, OfReceivers, OfGoodSenders, OfGoodReceivers, OfTheTable};
ghost use Rattle.ncp_model.specs.RowFacts.{refusal};

use ncp_model::CallFault;

/// Each call is refused for the first reason of its table that holds, and accepted if none does.
pub fn calls_are_refused_for_the_first_reason()
    ensures asks_to_send { (size room own : ℕ) (full : Bool) → IsRefusedFirst (Asks_to_send size room own full) }
    ensures asks_to_receive { (room on own : ℕ) (full : Bool) → IsRefusedFirst (Asks_to_receive room on own full) }
    ensures closes { (full : Bool) → IsRefusedFirst (Closes full) }
    ensures gives { (text : List Bool) → IsRefusedFirst (Gives text) }
    ensures takes { (bytes : ℕ) → IsRefusedFirst (Takes bytes) }
    ensures allocates { (messages bits : ℕ) (full : Bool) → IsRefusedFirst (Allocates messages bits full) }
    ensures calls_back { (messages bits : ℕ) (full : Bool) → IsRefusedFirst (Calls_back messages bits full) }
    ensures interrupts { (full : Bool) → IsRefusedFirst (Interrupts full) }
{}

/// Each arriving command or text has the outcome of the first case of its table that holds, and has
/// its effect if none does.
pub fn what_comes_meets_the_first_case()
    ensures rts { (on by_peer : ℕ) (taken : Bool) → MeetsFirst (Rts_comes on taken by_peer) Accepted }
    ensures str { (size by_peer : ℕ) → MeetsFirst (Str_comes size by_peer) Accepted }
    ensures cls { MeetsFirst Cls_comes Accepted }
    ensures all { (on messages bits : ℕ) → MeetsFirst (All_comes on messages bits) Accepted }
    ensures gvb { (on messages bits : ℕ) → MeetsFirst (Gvb_comes on messages bits) Accepted }
    ensures ret { (on messages bits : ℕ) → MeetsFirst (Ret_comes on messages bits) Accepted }
    ensures inr { (on : ℕ) → MeetsFirst (Inr_comes on) Accepted }
    ensures ins { (on : ℕ) → MeetsFirst (Ins_comes on) Accepted }
    ensures text { (head text : List Bool) (size : ℕ) → MeetsFirst (Text_comes head size text) Admitted }
{}

/// The reasons of each call are listed in the order of their numbers.
pub fn refusals_come_in_the_order_of_their_numbers()
    ensures asks_to_send { (size room own : ℕ) (full : Bool) → StandInOrder (Asks_to_send size room own full) }
    ensures asks_to_receive { (room on own : ℕ) (full : Bool) → StandInOrder (Asks_to_receive room on own full) }
    ensures closes { (full : Bool) → StandInOrder (Closes full) }
    ensures gives { (text : List Bool) → StandInOrder (Gives text) }
    ensures takes { (bytes : ℕ) → StandInOrder (Takes bytes) }
    ensures allocates { (messages bits : ℕ) (full : Bool) → StandInOrder (Allocates messages bits full) }
    ensures calls_back { (messages bits : ℕ) (full : Bool) → StandInOrder (Calls_back messages bits full) }
    ensures interrupts { (full : Bool) → StandInOrder (Interrupts full) }
{}

/// A refusal leaves the endpoint, or its absence, unchanged. It makes no command except the ERR
/// that is its outcome, or that answers a text.
pub fn refusals_change_nothing()
    ensures end { WheneverRefused (λ what before then. then.after ≡ before) }
    ensures made { WheneverRefused (λ what before then. then.made ≡ made_by_refusal what then.outcome) }
{}

/// A local request is checked before memory is allocated: if the checks refuse it, it is refused
/// for that reason; if they accept it, the request is made and its command returned.
pub fn own_requests_are_judged_first()
    ensures send_refused { OfSenders (λ judged act _. (why : CallFault) → judged ≡ Err why → act ≡ refusal why) }
    ensures send { OfSenders (λ judged act accepted. judged ≡ Ok tt → act ≡ accepted) }
    ensures receive_refused { OfReceivers (λ judged act _. (why : CallFault) → judged ≡ Err why → act ≡ refusal why) }
    ensures receive { OfReceivers (λ judged act accepted. judged ≡ Ok tt → act ≡ accepted) }
    ensures table { OfGoodSenders (λ judged by_table. judged ≡ by_table) }
    ensures table_too { OfGoodReceivers (λ judged by_table. judged ≡ by_table) }
    ensures end { OfTheTable (λ by_end by_table. (why : CallFault) → by_end ≡ Err why → by_table ≡ Err why) }
{}

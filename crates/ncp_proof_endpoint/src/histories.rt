//! Theorems about one endpoint and its history: invariants, limits and accounts.
ghost use Rattle.std.specs.Prelude.{◌≡◌, false, ◌++◌, List, [], ◌∷◌, None, Some};
ghost use Rattle.ncp_model.specs.EndpointEvents.{EndpointEvent, happens, end_from, Gives, Calls_back, Is_cleared};
ghost use Rattle.ncp_proof_endpoint.specs.Sound.{SoundAt};
ghost use Rattle.ncp_proof_endpoint.specs.Histories.{EndpointWithHistory, no_past, watch, watch_from};
ghost use Rattle.ncp_proof_endpoint.specs.Books.{Suit, BooksAt};
ghost use Rattle.ncp_proof_endpoint.specs.Limits.{InLimitsAt};
ghost use Rattle.ncp_model.specs.Rows.{outward, inward, ones, zero_bits, opened_end, counting};
ghost use Rattle.ncp_proof_endpoint.specs.OneConnection.{OfReceivingEnds, sender_opens, gives_a_byte, sends_two_bytes, cleared_with_a_byte, takes_two_bytes, takes_after_a_ret, calls_all_back, asks_and_is_cleared, is_cleared_and_asks, all_refused, giving, two_got, two_returned, accepted, having_called, calls_to_allocate, calls_to_give, calls_to_take, receiver_asks};
ghost use Rattle.ncp_model.specs.InTables.{WhateverHappens};
ghost use Rattle.ncp_model.specs.InUse.{three_bytes, two_sent};

use ncp_model::Pair;

/// Histories have no influence: the endpoint with its history has the same states as the endpoint
/// alone.
pub fn histories_only_watch()
    ensures { (p : Pair) (whats : List EndpointEvent) (w : EndpointWithHistory) → (watch_from p whats w).end ≡ end_from p whats w.end }
{}

/// Every endpoint is sound after any events: if it is open it has opened; if it has opened both
/// requests met; before that nothing is counted or stored; no CLS is made while a text is
/// unacknowledged; and an endpoint that made a CLS and received one no longer exists.
pub fn ends_stay_sound()
    ensures ever { (pair : Pair) (whats : List EndpointEvent) → SoundAt pair (end_from pair whats None) }
    ensures step { WhateverHappens (λ p what before. SoundAt p before → SoundAt p (happens p what before).after) }
{}

/// The numbers of an endpoint keep their limits after any events that suit it: the text stored and
/// the allocation outstanding fit the store, counters stop at their limits, a link that was heard
/// is from 2 to 71, and a byte size is not zero.
pub fn ends_keep_their_limits()
    ensures { (pair : Pair) (whats : List EndpointEvent) → Suit pair whats → InLimitsAt pair (end_from pair whats None) }
{}

/// The accounts of a receiving endpoint that opened, after any events that suit it: the outstanding
/// allocation is what was granted, less what was returned and used, in messages and bits; and until
/// the receiver leaves, all text got was taken or is held. Each is since the opening.
pub fn receivers_keep_their_books()
    ensures { OfReceivingEnds (λ w. BooksAt w.end w.past) }
{}

/// Worked example of one connection at both ends: two bytes of three are sent and taken. The
/// history of text taken outlives a refused ask and a clearing; an accepted ask starts it again,
/// from empty.
pub fn one_connection()
    ensures sender { (watch outward sends_two_bytes).end ≡ Some two_sent }
    ensures sender_past { (watch outward sends_two_bytes).past ≡ having_called (calls_to_give three_bytes) (giving three_bytes) }
    ensures receiver { (watch inward takes_two_bytes).end ≡ Some (counting 1 0) }
    ensures receiver_past { (watch inward takes_two_bytes).past ≡ having_called calls_to_take (record two_got { taken = ones 16 }) }
    ensures returned { (watch inward calls_all_back).end ≡ Some opened_end }
    ensures returned_past { (watch inward calls_all_back).past ≡ having_called (calls_to_allocate ++ accepted (Calls_back 128 128 false) ∷ []) two_returned }
    ensures outlives { (watch outward cleared_with_a_byte).past ≡ having_called (calls_to_give (ones 8)) (giving (ones 8)) }
    ensures in_order { (watch outward (gives_a_byte ++ Gives (zero_bits 8) ∷ [])).past ≡ having_called (calls_to_give (ones 8) ++ accepted (Gives (zero_bits 8)) ∷ []) (giving (ones 8 ++ zero_bits 8)) }
    ensures from_empty { (watch outward (gives_a_byte ++ Is_cleared ∷ sender_opens)).end ≡ Some opened_end }
    ensures past_from_empty { (watch outward (gives_a_byte ++ Is_cleared ∷ sender_opens)).past ≡ having_called (calls_to_give (ones 8) ++ accepted (EndpointEvent.Asks_to_send 8 64 0 false) ∷ []) no_past }
    ensures asked { (watch inward asks_and_is_cleared).past.taken ≡ ones 16 }
    ensures asked_from_empty { (watch inward is_cleared_and_asks).past ≡ having_called (calls_to_take ++ accepted receiver_asks ∷ []) two_got }
    ensures suits { Suit outward sends_two_bytes }
    ensures suits_receiver { Suit inward takes_after_a_ret }
    ensures suits_not { Suit outward (EndpointEvent.Asks_to_send 8 64 0 false ∷ EndpointEvent.Ret_comes 2 1 0 ∷ []) → ⊥ }
    ensures refused { (watch inward all_refused).past ≡ having_called (accepted receiver_asks ∷ []) no_past }
{}

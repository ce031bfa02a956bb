//! Laws of one host with one peer: what its phase lets through, and the result of a user's call.
ghost use Rattle.std.specs.Prelude.{◌≡◌, ℕ, Bool, true, false, List, [], ◌∷◌, replicate, Ok, Err};
ghost use Rattle.ncp_wire.specs.declared.fault.CommandFault.{CommandFault};
ghost use Rattle.ncp_wire.specs.declared.command.Command.TheVariants.{Nop, Rts, Cls, All, Erp, Rst, Rrp};
ghost use Rattle.ncp_model.specs.declared.call_fault.CallFault.TheVariants.{BadSex, QueueFull, NoEntry, WrongEnd, NotWhole, Busy, NotUp};
ghost use Rattle.ncp_model.specs.EndpointEvents.{Accepted, Refused, Took_out};
ghost use Rattle.ncp_model.specs.Peers.{Peer, PairCall, happened_at, calls, calls_up, comes_of, reply, reply_of_take, calls_echo, echo_called, call_accepted, reply_of_echo, hears_fault, hears_text, takes_text, frees, falls, hears, calls_reset};
ghost use Rattle.ncp_model.specs.Peers as peers;
ghost use Rattle.ncp_model.specs.PeerRows.{WhileUp, WhileNotUp, peer_in, up_peer, with_waiting, answering_peer, owing_peer, awaiting_peer};
ghost use Rattle.ncp_model.specs.Phase.{new_phase, up_phase, up, is_resetting};
ghost use Rattle.ncp_model.specs.Rows.{outward, inward, ones, err};
ghost use Rattle.ncp_model.specs.RowFacts.{its_receiver};
ghost use Rattle.ncp_model.specs.InUse.{joining};
ghost use Rattle.ncp_model.specs.PhaseRows.{OfTextsWhileUp, WhileUpWithPlace, WhileUpWithoutPlace, echo_judged, with_error, EndsTheEcho, up_with, replying_peer, bad_opcode, cut_short};

use crate::call_fault::CallFault;
use crate::pair::Pair;

/// While a host is not up with the peer, it refuses every call and echo with `NotUp`, before any
/// check of the endpoint. It drops every text, regardless of link and size, and makes no ERR for a
/// faulty control text. An RFNM frees no sender, since no endpoint exists. Nothing changes.
pub fn nothing_passes_while_not_up()
    ensures call { (pair : Pair) (call : PairCall) → WhileNotUp (λ p. comes_of pair call p ≡ Refused NotUp) }
    ensures call_changes_nothing { (pair : Pair) (call : PairCall) → WhileNotUp (λ p. calls pair call p ≡ p) }
    ensures echo { (byte : ℕ) → WhileNotUp (λ p. reply_of_echo byte p ≡ Err NotUp) }
    ensures echo_changes_nothing { (byte : ℕ) → WhileNotUp (λ p. calls_echo byte p ≡ p) }
    ensures text { (on of_size : ℕ) (head text : List Bool) → WhileNotUp (λ p. hears_text on head of_size text p ≡ p) }
    ensures fault { (fault : CommandFault) → WhileNotUp (λ p. hears_fault fault p ≡ p) }
    ensures freed { (on : ℕ) → WhileNotUp (λ p. frees on p ≡ p) }
{}

/// While a host is up, calls, echoes and texts have the effect of their own rules: the phase adds
/// no condition. A faulty control text makes its ERR; if 512 commands are queued already, the host
/// goes down instead.
pub fn ends_judge_while_up()
    ensures call { (q : Pair) (call : PairCall) → WhileUp (λ p. comes_of q call p ≡ (happened_at q call p).outcome) }
    ensures call_changes { (pair : Pair) (call : PairCall) → WhileUp (λ p. calls pair call p ≡ calls_up pair call p) }
    ensures echo { (byte : ℕ) → WhileUp (λ p. reply_of_echo byte p ≡ call_accepted (echo_judged byte p)) }
    ensures echo_changes { (byte : ℕ) → WhileUp (λ p. calls_echo byte p ≡ echo_called byte p) }
    ensures text { OfTextsWhileUp (λ on head n text p. hears_text on head n text p ≡ takes_text on head n text p) }
    ensures fault { (fault : CommandFault) → WhileUpWithPlace (λ p. hears_fault fault p ≡ with_error fault p) }
    ensures fault_too_many { (fault : CommandFault) → WhileUpWithoutPlace (λ p. hears_fault fault p ≡ falls p) }
{}

/// The result of a call is `Err` with the reason if it was refused, and `Ok` if it was accepted or
/// returned bits. The result of a `take` has these bits.
pub fn outcomes_are_replied()
    ensures refused { (fault : CallFault) → reply (Refused fault) ≡ Err fault }
    ensures refused_taking { (fault : CallFault) → reply_of_take (Refused fault) ≡ Err fault }
    ensures accepted { (reply Accepted ≡ Ok tt) × (call_accepted (Ok Nop) ≡ Ok tt) }
    ensures taken { (text : List Bool) → reply_of_take (Took_out text) ≡ Ok text }
    ensures taken_is_good { (text : List Bool) → reply (Took_out text) ≡ Ok tt }
{}

/// Rows on a host that is not up: a call that would be refused for other reasons too, an echo
/// before and after coming up, a text with an RRP queued, owed or awaited, and two faults of a
/// control text, an unknown opcode and a command cut short.
pub fn what_is_not_up_lets_nothing_through()
    ensures call { comes_of inward (peers.Ask_to_send 0 0) (peer_in new_phase) ≡ Refused NotUp }
    ensures call_when_up { comes_of inward (peers.Ask_to_send 0 0) up_peer ≡ Refused BadSex }
    ensures interrupt { comes_of inward peers.Interrupt (peer_in (record up_phase { want = true })) ≡ Refused NotUp }
    ensures interrupt_when_up { comes_of inward peers.Interrupt up_peer ≡ Refused NoEntry }
    ensures interrupt_when_up_and_open { comes_of outward peers.Interrupt up_peer ≡ Accepted }
    ensures echo { reply_of_echo 65 (peer_in new_phase) ≡ Err NotUp }
    ensures echo_when_up { reply_of_echo 65 up_peer ≡ Ok tt }
    ensures echo_twice { reply_of_echo 65 (calls_echo 65 up_peer) ≡ Err Busy }
    ensures text { hears_text 2 [] 8 (ones 16) answering_peer ≡ takes_text 2 [] 8 (ones 16) answering_peer }
    ensures text_dropped { hears_text 2 [] 8 (ones 16) owing_peer ≡ owing_peer }
    ensures text_awaiting { hears_text 2 [] 8 (ones 16) awaiting_peer ≡ awaiting_peer }
    ensures fault { hears_fault bad_opcode up_peer ≡ up_with (err 1 (14 ∷ 0 ∷ replicate 8 0) ∷ []) }
    ensures fault_dropped { hears_fault cut_short (peer_in new_phase) ≡ peer_in new_phase }
    ensures fault_early { hears_fault cut_short up_peer ≡ up_with (err 2 (4 ∷ 2 ∷ 0 ∷ replicate 7 0) ∷ []) }
    ensures fault_after { hears_fault bad_opcode replying_peer ≡ up_with (Erp 65 ∷ err 1 (14 ∷ replicate 9 0) ∷ []) }
{}

/// A clearing ends the awaited echo, and keeps the byte of the last one and the errors. Clearings
/// are an accepted reset, an RST that arrives, and going down. A refused reset changes nothing, and
/// an RRP does not change the echo. After an RST that arrives while the data links are quiet, the
/// next echo is accepted at once.
pub fn clearings_end_the_echo_alone()
    ensures reset { (quiet : Bool) (p : Peer) → is_resetting p.phase ≡ false → EndsTheEcho p (calls_reset quiet p) }
    ensures refused { (quiet : Bool) (p : Peer) → is_resetting p.phase ≡ true → calls_reset quiet p ≡ p }
    ensures rst { (quiet : Bool) (p : Peer) → EndsTheEcho p (hears quiet Rst p) }
    ensures rrp { (quiet : Bool) (p : Peer) → (hears quiet Rrp p).echoes ≡ p.echoes }
    ensures down { (p : Peer) → EndsTheEcho p (falls p) }
    ensures again { reply_of_echo 66 (hears true Rst (calls_echo 65 up_peer)) ≡ Ok tt }
{}

/// The results of calls at a host that is up, with a sender and a receiver open on link 2. Counts
/// of the other endpoints and of queued commands are looked up in the peer's state.
pub fn calls_at_a_host_that_is_up()
    ensures asks { (happened_at (joining 8 11) (peers.Ask_to_receive 64) up_peer).made ≡ Rts 8 11 4 ∷ [] }
    ensures asks_to_send { comes_of (joining 11 8) (peers.Ask_to_send 8 64) up_peer ≡ Accepted }
    ensures gives { comes_of outward (peers.Give (ones 8)) up_peer ≡ Accepted }
    ensures gives_in_part { comes_of outward (peers.Give (ones 9)) up_peer ≡ Refused NotWhole }
    ensures takes { reply_of_take (comes_of its_receiver (peers.Take 1) up_peer) ≡ Ok [] }
    ensures takes_from_sender { reply_of_take (comes_of outward (peers.Take 1) up_peer) ≡ Err WrongEnd }
    ensures calls_back { reply (comes_of its_receiver (peers.Call_back 1 1) up_peer) ≡ Err Busy }
    ensures allocates { (happened_at its_receiver (peers.Allocate 1 40) up_peer).made ≡ All 2 1 40 ∷ [] }
    ensures full { comes_of outward peers.Interrupt (with_waiting 256) ≡ Refused QueueFull }
    ensures not_full { comes_of outward peers.Interrupt (with_waiting 255) ≡ Accepted }
    ensures full_echo { reply_of_echo 65 (with_waiting 256) ≡ Err QueueFull }
    ensures not_full_echo { reply_of_echo 65 (with_waiting 255) ≡ Ok tt }
    ensures closes_when_full { comes_of outward peers.Close (with_waiting 256) ≡ Refused QueueFull }
    ensures closes { (happened_at outward peers.Close up_peer).made ≡ Cls 3 2 ∷ [] }
{}

//! The messages that known arrivals and notes bring.
ghost use Rattle.std.specs.Prelude.{◌≡◌, ◌*◌, ◌/◌, ℕ, Bool, List, length, Some, Ok};
ghost use Rattle.std.specs.FinMap.{get};
ghost use Rattle.ncp_leader.specs.declared.leader.Leader.{Leader};
ghost use Rattle.ncp_leader.specs.Leader.{leader_in};
ghost use Rattle.ncp_slot.specs.declared.slot.Slot.TheVariants.{Empty, Ready};
ghost use Rattle.ncp_slot.specs.Slots.{slot_at};
ghost use Rattle.ncp_model.specs.Endpoint.{Endpoint};
ghost use Rattle.ncp_peer.specs.PeerState.{PeerState};
ghost use Rattle.ncp_transcript.specs.declared.call.Call.{Call};
ghost use Rattle.ncp_transcript.specs.declared.note.HostNote.{HostNote};
ghost use Rattle.ncp_proof_quiescence.specs.Rows.{with_rst, with_rts, with_fault, text_on_link_2, on_link_1};
ghost use Rattle.ncp_proof_quiescence.specs.RunWork.{new_by, arrival_brings, call_brings, brought_by};

use ncp_model::{CallFault, Pair};

/// An RST brings its RRP, an RTS two messages, an ECO its ERP, a fault after it an ERR, and a text
/// at most an ERR. A message on a link that carries nothing brings nothing.
pub fn messages_bring_so()
    ensures rst { arrival_brings (leader_in with_rst) with_rst ≡ 1 }
    ensures rts { arrival_brings (leader_in with_rts) with_rts ≡ 2 }
    ensures fault { arrival_brings (leader_in with_fault) with_fault ≡ 2 }
    ensures text { arrival_brings (leader_in text_on_link_2) text_on_link_2 ≡ 1 }
    ensures wrong_link { arrival_brings (leader_in on_link_1) on_link_1 ≡ 0 }
{}

/// A message is new if its link's slot was empty, and not if it is sent again. A reset brings two
/// messages, a refused call none, and a text given two for each of its bytes, in the byte size of
/// the end.
pub fn notes_bring_so()
    ensures new { (message : List Bool) (leader : Leader) (s : PeerState) → leader_in message ≡ Ok leader → slot_at s.slots leader.link ≡ Empty → new_by (HostNote.Out message) s ≡ 1 }
    ensures again { (message : List Bool) (leader : Leader) (s : PeerState) → leader_in message ≡ Ok leader → slot_at s.slots leader.link ≡ Ready message → new_by (HostNote.Out message) s ≡ 0 }
    ensures reset { (peer : ℕ) (s : PeerState) → brought_by (HostNote.Done (Call.Reset peer)) s ≡ 2 }
    ensures refused { (call : Call) (fault : CallFault) (s : PeerState) → brought_by (HostNote.Refused call fault) s ≡ 0 }
    ensures give { (peer : ℕ) (pair : Pair) (text : List Bool) (s : PeerState) (e : Endpoint) → get s.peer.ends pair ≡ Some e → call_brings (Call.Give peer pair text) s ≡ 2 * (length text / e.size) }
{}

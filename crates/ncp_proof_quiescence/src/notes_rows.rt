//! The moves and allowances of known notes.
ghost use Rattle.std.specs.Prelude.{◌≡◌, ◌*◌, ◌/◌, ℕ, List, [], ◌∷◌, length, Bool, Some};
ghost use Rattle.std.specs.FinMap.{get};
ghost use Rattle.ncp_model.specs.Endpoint.{Endpoint};
ghost use Rattle.ncp_model.specs.Peers.{Ask_to_send, Ask_to_receive, Close, Give, Take, Allocate, Call_back, Interrupt};
ghost use Rattle.ncp_transcript.specs.declared.call.Call.{Call};
ghost use Rattle.ncp_transcript.specs.declared.call.Call.TheVariants.{Reset, Echo, Wake};
ghost use Rattle.ncp_transcript.specs.declared.note.HostNote.TheVariants.{Done, Refused};
ghost use Rattle.ncp_transcript.specs.declared.note.HostNote.{HostNote};
ghost use Rattle.ncp_transcript.specs.Asked.{Asks, Reply};
ghost use Rattle.ncp_transcript_two.specs.World.{World, Called};
ghost use Rattle.ncp_transcript_two.specs.declared.side.Side.TheVariants.{A, B};
ghost use Rattle.ncp_transcript_two.specs.declared.note.Note.{Note};
ghost use Rattle.ncp_transcript_two.specs.declared.note.Move.{Move};
ghost use Rattle.ncp_transcript_two.specs.Between.{new_hosts};
ghost use Rattle.ncp_proof_quiescence.specs.NotesWork.{body_allows, notes_move, notes_allow};

use ncp_model::{CallFault, Pair};

/// A reset that was done allows six moves, a refused one none; an echo six, a wake none. A message
/// that is sent, a loss and a dead destination move one each; the loss allows three, the dead
/// destination four. An impossible event moves and allows nothing.
pub fn notes_move_and_allow_so()
    ensures calls { (notes_allow (Note.Called A (Done (Reset 2)) ∷ Note.Called B (Done (Echo 1 65)) ∷ Note.Called A (Done (Wake 2)) ∷ []) (new_hosts 1 2) ≡ 12) × (notes_move (Note.Called A (Done (Reset 2)) ∷ []) ≡ 0) }
    ensures refused { notes_allow (Note.Called A (Refused (Reset 2) CallFault.Busy) ∷ []) (new_hosts 1 2) ≡ 0 }
    ensures lost { (notes_move (Note.Out A (HostNote.Out []) ∷ Note.Lost A 0 ∷ Note.FoundDead B 0 ∷ []) ≡ 3) × (notes_allow (Note.Out A (HostNote.Out []) ∷ Note.Lost A 0 ∷ Note.FoundDead B 0 ∷ []) (new_hosts 1 2) ≡ 7) }
    ensures nothing { (notes_move (Note.Nothing A 0 Move.Lose ∷ Note.Out A HostNote.Nothing ∷ []) ≡ 0) × (notes_allow (Note.Nothing A 0 Move.Lose ∷ []) (new_hosts 1 2) ≡ 0) }
{}

/// The moves that calls on a connection allow when they are done: a request fifteen, a GVB nine, an
/// ALL and an interrupt six, a close and a take none, and a text given six for each of its bytes,
/// in the byte size of the end.
pub fn calls_allow_so()
    ensures asks { (pair : Pair) (size room : ℕ) (r : Reply) (v : World) → (body_allows (Called (Asks pair (Ask_to_send size room)) r) v ≡ 15) × (body_allows (Called (Asks pair (Ask_to_receive room)) r) v ≡ 15) }
    ensures allocation { (pair : Pair) (messages bits : ℕ) (r : Reply) (v : World) → (body_allows (Called (Asks pair (Allocate messages bits)) r) v ≡ 6) × (body_allows (Called (Asks pair (Call_back messages bits)) r) v ≡ 9) }
    ensures interrupt { (pair : Pair) (r : Reply) (v : World) → body_allows (Called (Asks pair Interrupt) r) v ≡ 6 }
    ensures free { (pair : Pair) (bytes : ℕ) (r : Reply) (v : World) → (body_allows (Called (Asks pair Close) r) v ≡ 0) × (body_allows (Called (Asks pair (Take bytes)) r) v ≡ 0) }
    ensures give { (pair : Pair) (text : List Bool) (r : Reply) (v : World) (e : Endpoint) → get v.this.peer.ends pair ≡ Some e → body_allows (Called (Asks pair (Give text)) r) v ≡ 6 * (length text / e.size) }
{}

//! Examples of events that are spontaneous (`ByItself`), and of events that are not.
ghost use Rattle.std.specs.Prelude.{◌≡◌, ℕ, Bool, List, true, false};
ghost use Rattle.ncp_transcript.specs.declared.call.Call.{Call};
ghost use Rattle.ncp_transcript.specs.declared.note.HostNote.{HostNote};
ghost use Rattle.ncp_transcript_two.specs.declared.side.Side.{Side};
ghost use Rattle.ncp_transcript_two.specs.declared.note.Move.{Move};
ghost use Rattle.ncp_transcript_two.specs.declared.note.Note.{Note};
ghost use Rattle.ncp_transcript_two.specs.Between.{Hosts};
ghost use Rattle.ncp_proof_quiescence.specs.Settling.{ByItself, says_nothing};

/// Sending a message is spontaneous. A loss, a dead destination, a user's reset, and an event that
/// did not happen are not.
pub fn messages_move_by_themselves()
    ensures out { (side : Side) (message : List Bool) (w : Hosts) → ByItself (Note.Out side (HostNote.Out message)) w }
    ensures lost { (side : Side) (link : ℕ) (w : Hosts) → ByItself (Note.Lost side link) w → ⊥ }
    ensures dead { (side : Side) (link : ℕ) (w : Hosts) → ByItself (Note.FoundDead side link) w → ⊥ }
    ensures reset { (side : Side) (peer : ℕ) (w : Hosts) → ByItself (Note.Called side (HostNote.Done (Call.Reset peer))) w → ⊥ }
    ensures none { (side : Side) (w : Hosts) → ByItself (Note.Out side HostNote.Nothing) w → ⊥ }
    ensures nothing { (side : Side) (link : ℕ) (wanted : Move) (w : Hosts) → ByItself (Note.Nothing side link wanted) w → ⊥ }
{}

/// A note reports nothing if no link was ready, or if the subnet had no message.
pub fn notes_say_nothing_so()
    ensures out { (side : Side) → says_nothing (Note.Out side HostNote.Nothing) ≡ true }
    ensures nothing { (side : Side) (link : ℕ) (wanted : Move) → says_nothing (Note.Nothing side link wanted) ≡ true }
    ensures lost { (side : Side) (link : ℕ) → says_nothing (Note.Lost side link) ≡ false }
    ensures message { (side : Side) (message : List Bool) → says_nothing (Note.Out side (HostNote.Out message)) ≡ false }
{}

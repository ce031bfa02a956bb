//! The notes of two hosts: the moves of every transcript are bounded.
ghost use Rattle.std.specs.Prelude.{◌≤◌, List, ◌++◌};
ghost use Rattle.ncp_transcript_two.specs.declared.note.Note.{Note};
ghost use Rattle.ncp_transcript_two.specs.Between.{Hosts};
ghost use Rattle.ncp_transcript_two.specs.Transcript.{began, IsTranscript};
ghost use Rattle.ncp_proof_quiescence.specs.Resting.{IsLeftWaiting};
ghost use Rattle.ncp_proof_quiescence.specs.NotesWork.{notes_move, notes_allow, MovesAreBounded, MoreIsBounded};

/// In every transcript of two hosts, calls, losses and dead destinations bound the moves. Each
/// sending, delivery, loss, dead destination and answer counts one move. A call that was done
/// allows three for each message of its `call_budget`, a loss three, and a dead destination four; a
/// refused call and a wake allow none. So between calls, losses and dead destinations only a
/// bounded number of moves is possible, in any order.
pub fn moves_are_bounded()
    ensures within { (notes : List Note) (w : Hosts) → IsTranscript notes w → notes_move notes ≤ notes_allow notes (began w) }
    ensures work { (notes : List Note) (w : Hosts) → IsTranscript notes w → MovesAreBounded notes w }
    ensures more { (before after : List Note) (w : Hosts) → IsTranscript (before ++ after) w → MoreIsBounded before after w }
{}

/// After every transcript of two hosts, pending work at either waits for something: an RST wanted
/// and an RRP owed for an unacknowledged text, a leaving sender for the answer to its text, a
/// leaving receiver for its user.
pub fn what_is_left_waits_for_something()
    ensures { (notes : List Note) (w : Hosts) → IsTranscript notes w → IsLeftWaiting notes w }
{}

//! The notes of two to eight hosts: their moves are bounded.
ghost use Rattle.std.specs.Prelude.{List};
ghost use Rattle.ncp_transcript_many.specs.declared.many_note.ManyNote.{ManyNote};
ghost use Rattle.ncp_transcript_many.specs.Network.{Network};
ghost use Rattle.ncp_transcript_many.specs.ManyTranscript.{IsManyTranscript};
ghost use Rattle.ncp_transcript_many.specs.Pairs.{ForEachTwo};
ghost use Rattle.ncp_proof_quiescence.specs.NotesWork.{MovesAreBounded};
ghost use Rattle.ncp_proof_quiescence.specs.Resting.{IsLeftWaiting};
ghost use Rattle.ncp_proof_quiescence.specs.Settled.{EndsFinished};

use ncp_proof_quiescence::notes::{moves_are_bounded, what_is_left_waits_for_something};
use ncp_proof_quiescence::settled::where_nothing_can_happen_two_are_finished;

/// In every transcript of two to eight hosts, for each two of them:
///
/// - `work`: the moves between the two, plus the work they have left, are at most what their users'
///   calls for each other and the losses and dead destinations between them allow. So no other host
///   can make the two continue, or add to their allowance.
/// - `waits`: pending work at either for the other waits for something.
/// - `finished`: if no message between the two is ready, in transit or held, they are finished,
///   regardless of events at and between the others.
pub fn what_moves_between_two_of_many_is_bounded()
    ensures work { (notes : List ManyNote) (m : Network) → IsManyTranscript notes m → ForEachTwo MovesAreBounded notes m }
    ensures waits { (notes : List ManyNote) (m : Network) → IsManyTranscript notes m → ForEachTwo IsLeftWaiting notes m }
    ensures finished { (notes : List ManyNote) (m : Network) → IsManyTranscript notes m → ForEachTwo EndsFinished notes m }
{
    moves_are_bounded();
    what_is_left_waits_for_something();
    where_nothing_can_happen_two_are_finished();
}

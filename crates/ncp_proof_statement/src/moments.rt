//! The bits taken are a prefix of those given at every moment, not only when `take` returns.
ghost use Rattle.std.specs.Prelude.{Bool, true, false, List, [], ◌∷◌};
ghost use Rattle.ncp_model.specs.Pairs.{sends};
ghost use Rattle.ncp_model.specs.declared.pair.Pair.{Pair};
ghost use Rattle.ncp_transcript_two.specs.declared.note.Note.{Note};
ghost use Rattle.ncp_transcript_two.specs.Between.{Hosts};
ghost use Rattle.ncp_transcript_two.specs.Transcript.{IsTranscript};
ghost use Rattle.ncp_statement.specs.Examples.{asks_send, asks_receive, noted_give, noted_take};
ghost use Rattle.ncp_proof_statement.specs.Moments.{TakenBegins};

use ncp_proof_connection::sharing::each_loses_and_makes_nothing;
use ncp_proof_headline::machines::hosts_are_tied_to_machines;
use ncp_transcript_two::transcripts::transcripts_are_of_the_model;

/// After any run, for every pair and at either host, the bits taken since the ask are a prefix of
/// those given at the other host. This holds too if the endpoint has closed, is gone, was cleared
/// with its request underway (queued or in flight), or asks again.
pub fn what_is_taken_begins_what_is_given()
    ensures { (notes : List Note) (w : Hosts) → IsTranscript notes w → TakenBegins notes }
{
    transcripts_are_of_the_model();
    hosts_are_tied_to_machines();
    each_loses_and_makes_nothing();
}

/// `TakenBegins` refuses bits taken before they were given (`first`) or in another order (`order`).
/// It also refuses bits that still count as taken after the sender asked again and gave others
/// (`from_empty`).
pub fn wrong_moments_are_seen()
    ensures first { TakenBegins (asks_send ∷ asks_receive ∷ noted_take (true ∷ []) ∷ []) → ⊥ }
    ensures order { TakenBegins (asks_send ∷ asks_receive ∷ noted_give (true ∷ []) ∷ noted_give (false ∷ []) ∷ noted_take (false ∷ []) ∷ []) → ⊥ }
    ensures from_empty { TakenBegins (asks_send ∷ asks_receive ∷ noted_give (true ∷ []) ∷ noted_take (true ∷ []) ∷ asks_send ∷ noted_give (false ∷ []) ∷ []) → ⊥ }
{}

//! The histories of two hosts agree with the notes of each host for the other, and so do the bits
//! given, taken and allowed that the page counts.
ghost use Rattle.std.specs.Prelude.{◌≡◌, true, List, []};
ghost use Rattle.ncp_model.specs.declared.pair.Pair.{Pair};
ghost use Rattle.ncp_proof_machine.specs.Hosts.{past_of};
ghost use Rattle.ncp_proof_runs.specs.Peers.{notes_of_peer};
ghost use Rattle.ncp_proof_runs.specs.Histories.{past_so_far};
ghost use Rattle.ncp_transcript_two.specs.declared.note.Note.{Note};
ghost use Rattle.ncp_transcript_two.specs.declared.side.Side.{Side};
ghost use Rattle.ncp_transcript_two.specs.declared.side.Side.TheVariants.{A, B};
ghost use Rattle.ncp_transcript_two.specs.Between.{Hosts, other, side_number};
ghost use Rattle.ncp_transcript_two.specs.Sides.{notes_at};
ghost use Rattle.ncp_transcript_two.specs.Transcript.{IsTranscript};
ghost use Rattle.ncp_transcript_two.specs.OfRules.{histories_of};
ghost use Rattle.ncp_statement.specs.Statement.{taken_from, given_from, allowed_from, taken, given, allowed};
ghost use Rattle.ncp_proof_statement.specs.Since.{uses_by};

/// The history of each pair, at either host, is the one that the notes of that host alone
/// determine.
pub fn the_histories_are_of_the_notes_of_each_host()
    ensures here { (notes : List Note) (w : Hosts) (pair : Pair) → IsTranscript notes w → past_of (histories_of notes w).this pair ≡ past_so_far pair (notes_of_peer w.number_b (notes_at A notes)) }
    ensures there { (notes : List Note) (w : Hosts) (pair : Pair) → IsTranscript notes w → past_of (histories_of notes w).that pair ≡ past_so_far pair (notes_of_peer w.number_a (notes_at B notes)) }
{}

/// The bits given, taken and allowed in a transcript are those in the notes of each host for the
/// other.
pub fn what_users_did_is_in_the_notes_of_their_host()
    ensures taken { (notes : List Note) (w : Hosts) (side : Side) (pair : Pair) → IsTranscript notes w → taken side pair notes ≡ taken_from [] (uses_by pair (notes_of_peer (side_number (other side) w) (notes_at side notes))) }
    ensures given { (notes : List Note) (w : Hosts) (side : Side) (pair : Pair) → IsTranscript notes w → given side pair notes ≡ given_from true [] (uses_by pair (notes_of_peer (side_number (other side) w) (notes_at side notes))) }
    ensures allowed { (notes : List Note) (w : Hosts) (side : Side) (pair : Pair) → IsTranscript notes w → allowed side pair notes ≡ allowed_from 0 (uses_by pair (notes_of_peer (side_number (other side) w) (notes_at side notes))) }
{}

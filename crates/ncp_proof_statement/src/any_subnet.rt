//! Two hosts with one another as their only peers, over any honest subnet.
ghost use Rattle.std.specs.Prelude.{◌≡◌, ◌↔◌, ℕ};
ghost use Rattle.ncp_model.specs.declared.pair.Pair.{Pair};
ghost use Rattle.ncp_proof_machine.specs.Hosts.{past_of};
ghost use Rattle.ncp_proof_runs.specs.Peers.{notes_of_peer};
ghost use Rattle.ncp_proof_runs.specs.Histories.{past_so_far};
ghost use Rattle.ncp_transcript_two.specs.declared.side.Side.{Side};
ghost use Rattle.ncp_transcript_two.specs.declared.side.Side.TheVariants.{A, B};
ghost use Rattle.ncp_transcript_two.specs.Seen.{seen};
ghost use Rattle.ncp_transcript_two.specs.Sides.{notes_at};
ghost use Rattle.ncp_transcript_two.specs.OfRules.{histories_of};
ghost use Rattle.ncp_statement.specs.Statement.{Headline};
ghost use Rattle.ncp_proof_statement.specs.Moments.{TakenBegins};
ghost use Rattle.ncp_proof_statement.specs.Notes.{SidedNotes, notes_by, as_notes};
ghost use Rattle.ncp_proof_statement.specs.HonestRuns.{IsHonestRun, IsOfWorld, WorldOf};
ghost use Rattle.ncp_proof_statement.specs.Finished.{seen_of};

use crate::headline::{messages_are_delivered, transcripts_keep_the_page};
use crate::histories::the_histories_are_of_the_notes_of_each_host;
use crate::moments::what_is_taken_begins_what_is_given;

/// The headline over any honest subnet: the whole page holds for the notes of two hosts, each made
/// by itself. The field `accepted_by_subnet` is empty here: the notes of hosts have none that a
/// subnet makes.
pub fn headline_over_any_subnet()
    ensures { (a b : ℕ) (ns : SidedNotes) → IsHonestRun a b ns → Headline a b (as_notes ns) }
{
    transcripts_keep_the_page();
    any_honest_subnet_is_that_of_a_world();
}

/// The notes of two hosts over any honest subnet are the notes of some transcript of a `World`,
/// without those that its subnet makes itself.
pub fn any_honest_subnet_is_that_of_a_world()
    ensures { (a b : ℕ) (ns : SidedNotes) → IsHonestRun a b ns → WorldOf a b ns }
{}

/// The converse: the notes that have the premise are exactly those of a `World` without the notes
/// of its subnet. So the premise of these laws is neither stronger than honesty nor empty.
pub fn hosts_over_any_honest_subnet_are_those_of_a_world()
    // theorem: The notes of two hosts, each with the other as its only peer, are an honest run over
    // some subnet if and only if they are the notes of a `World` without those that its subnet
    // makes itself.
    ensures { (a b : ℕ) (ns : SidedNotes) → IsHonestRun a b ns ↔ IsOfWorld a b ns }
{
    any_honest_subnet_is_that_of_a_world();
    messages_are_delivered();
}

/// At every moment the bits taken are a prefix of those given, over any honest subnet.
pub fn what_is_taken_begins_what_is_given_over_any_subnet()
    ensures { (a b : ℕ) (ns : SidedNotes) → IsHonestRun a b ns → TakenBegins (as_notes ns) }
{
    any_honest_subnet_is_that_of_a_world();
    what_is_taken_begins_what_is_given();
}

/// The notes of the two hosts alone determine the state of that world that the rules read (`seen`),
/// the notes of its hosts (`notes`), and the histories of their pairs (`here`, `there`). So each
/// law of transcripts can be stated for these notes.
pub fn what_is_seen_of_their_world_is_in_their_notes()
    ensures seen { (a b : ℕ) (ns : SidedNotes) (k : WorldOf a b ns) → seen k.world ≡ seen_of a b ns }
    ensures notes { (a b : ℕ) (ns : SidedNotes) (k : WorldOf a b ns) (side : Side) → notes_at side k.more ≡ notes_by side ns }
    ensures here { (a b : ℕ) (ns : SidedNotes) (k : WorldOf a b ns) (pair : Pair) → past_of (histories_of k.more k.world).this pair ≡ past_so_far pair (notes_of_peer b (notes_by A ns)) }
    ensures there { (a b : ℕ) (ns : SidedNotes) (k : WorldOf a b ns) (pair : Pair) → past_of (histories_of k.more k.world).that pair ≡ past_so_far pair (notes_of_peer a (notes_by B ns)) }
{
    the_histories_are_of_the_notes_of_each_host();
}

//! Two hosts with nothing to send, in transit or held, over any honest subnet.
ghost use Rattle.std.specs.Prelude.{ℕ};
ghost use Rattle.ncp_host.specs.Host.{Host};
ghost use Rattle.ncp_proof_quiescence.specs.Settled.{IsSettled};
ghost use Rattle.ncp_proof_statement.specs.Notes.{SidedNotes, mutual_notes};
ghost use Rattle.ncp_proof_statement.specs.HonestRuns.{IsHonestRun, IsHonestRunAmong};
ghost use Rattle.ncp_proof_statement.specs.Finished.{seen_of, seen_between, AreFinishedBy};

use crate::among::two_among_others_are_two_by_themselves;
use crate::any_subnet::any_honest_subnet_is_that_of_a_world;
use crate::histories::the_histories_are_of_the_notes_of_each_host;
use ncp_proof_quiescence::settled::where_nothing_can_happen_two_are_finished;

/// Over any honest subnet, two hosts are finished if neither has a message ready, each message sent
/// was answered, and none is held for a dead destination. Then no command is queued and no RST or
/// RRP is owed or awaited. If both are up, each pair waits for a user, and on the open pairs all
/// bits given were got, except those that may not be sent yet.
pub fn two_that_rest_are_finished_over_any_subnet()
    ensures { (a b : ℕ) (ns : SidedNotes) → IsHonestRun a b ns → IsSettled (seen_of a b ns) → AreFinishedBy a b ns }
{
    any_honest_subnet_is_that_of_a_world();
    where_nothing_can_happen_two_are_finished();
    the_histories_are_of_the_notes_of_each_host();
}

/// The same for any two hosts among others.
pub fn each_two_that_rest_are_finished()
    ensures { (x y : Host) (ns : SidedNotes) → IsHonestRunAmong x y ns → IsSettled (seen_between x y ns) → AreFinishedBy x.me y.me (mutual_notes x.me y.me ns) }
{
    two_among_others_are_two_by_themselves();
    two_that_rest_are_finished_over_any_subnet();
}

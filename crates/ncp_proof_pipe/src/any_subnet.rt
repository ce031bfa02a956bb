//! The pipes between two hosts over any subnet that is honest between the two.
ghost use Rattle.std.specs.Prelude.{ℕ};
ghost use Rattle.ncp_host.specs.Host.{Host};
ghost use Rattle.ncp_proof_statement.specs.Notes.{SidedNotes, as_notes, mutual_notes};
ghost use Rattle.ncp_proof_statement.specs.HonestRuns.{IsHonestRun, IsHonestRunAmong};
ghost use Rattle.ncp_proof_statement.specs.Finished.{seen_of, seen_between};
ghost use Rattle.ncp_proof_pipe.specs.Noted.{ArePipesWithReasons, TakenOnce};

use crate::notes::each_stop_has_a_reason;
use ncp_pipe::pipes::each_bit_is_taken_once;
use ncp_proof_statement::among::two_among_others_are_two_by_themselves;
use ncp_proof_statement::any_subnet::{
    any_honest_subnet_is_that_of_a_world, what_is_seen_of_their_world_is_in_their_notes,
};

/// Each pair of sockets is a pipe whose cuts and leaves are bounded, over any honest subnet: of two
/// hosts that are one another's only peers (`alone`), and of two among other peers, by the notes in
/// which they name one another (`among`).
pub fn each_pair_is_a_pipe_over_any_subnet()
    ensures alone { (a b : ℕ) (ns : SidedNotes) → IsHonestRun a b ns → ArePipesWithReasons (seen_of a b ns) (as_notes ns) }
    ensures among { (x y : Host) (ns : SidedNotes) → IsHonestRunAmong x y ns → ArePipesWithReasons (seen_between x y ns) (as_notes (mutual_notes x.me y.me ns)) }
{
    each_stop_has_a_reason();
    any_honest_subnet_is_that_of_a_world();
    what_is_seen_of_their_world_is_in_their_notes();
    two_among_others_are_two_by_themselves();
}

/// Each bit is taken once, ever, over any honest subnet.
pub fn each_bit_is_taken_once_over_any_subnet()
    // theorem: Each bit is taken once, ever, over any subnet that is honest between the two hosts:
    // the texts taken on the successive connections of a pair are prefixes of texts given on
    // successive ones, in the same order. The other peers may be any program, over any subnet.
    ensures { (x y : Host) (ns : SidedNotes) → IsHonestRunAmong x y ns → TakenOnce (as_notes (mutual_notes x.me y.me ns)) }
{
    each_pair_is_a_pipe_over_any_subnet();
    each_bit_is_taken_once();
}

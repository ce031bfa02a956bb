//! Two hosts among other peers, over a subnet that is honest between the two.
ghost use Rattle.std.specs.Prelude.{◌≡◌};
ghost use Rattle.ncp_host.specs.Host.{Host};
ghost use Rattle.ncp_statement.specs.Statement.{Headline};
ghost use Rattle.ncp_proof_statement.specs.Notes.{SidedNotes, as_notes, mutual_notes, NumberedNotes, notes_of_two};
ghost use Rattle.ncp_proof_statement.specs.HonestRuns.{IsHonestRun, IsHonestRunAmong, IsHonestRunOfMany};
ghost use Rattle.ncp_proof_statement.specs.Finished.{seen_of, seen_between};

use crate::any_subnet::headline_over_any_subnet;
use ncp_proof_runs::peers::each_peer_is_by_itself;

/// The headline holds for any two hosts with one to eight peers each, over any subnet that is
/// honest between the two, regardless of the other peers and of messages to or from them.
pub fn headline_of_two_among_others()
    // theorem: The headline over any subnet. Suppose that two of these hosts have one another among
    // their one to eight peers, that the notes of each are a run of that host by itself, that the
    // numbers of its calls fit, and that each message between the two gets one answer before the
    // next is sent: an RFNM after it arrived once, whole, or another answer without arriving (the
    // last on a link may be unanswered). Then the headline holds for the notes in which the two
    // name one another. The other peers may be any program, over any subnet.
    ensures { (x y : Host) (ns : SidedNotes) → IsHonestRunAmong x y ns → Headline x.me y.me (as_notes (mutual_notes x.me y.me ns)) }
{
    two_among_others_are_two_by_themselves();
    headline_over_any_subnet();
}

/// The headline holds for two of any number of hosts, by the notes of all.
pub fn headline_of_two_of_many()
    ensures { (x y : Host) (ns : NumberedNotes) → IsHonestRunOfMany x y ns → Headline x.me y.me (as_notes (mutual_notes x.me y.me (notes_of_two x.me y.me ns))) }
{
    headline_of_two_among_others();
}

/// The notes in which two hosts among others name one another are those of two hosts without other
/// peers (`alone`). The state that the two have for one another is the same (`seen`).
pub fn two_among_others_are_two_by_themselves()
    ensures alone { (x y : Host) (ns : SidedNotes) → IsHonestRunAmong x y ns → IsHonestRun x.me y.me (mutual_notes x.me y.me ns) }
    ensures seen { (x y : Host) (ns : SidedNotes) → IsHonestRunAmong x y ns → seen_of x.me y.me (mutual_notes x.me y.me ns) ≡ seen_between x y ns }
{
    each_peer_is_by_itself();
}

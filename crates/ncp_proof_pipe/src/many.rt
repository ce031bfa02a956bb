//! The pipes between each two of two to eight hosts.
ghost use Rattle.std.specs.Prelude.{List};
ghost use Rattle.ncp_transcript_two.specs.Seen.{seen};
ghost use Rattle.ncp_transcript_many.specs.declared.many_note.ManyNote.{ManyNote};
ghost use Rattle.ncp_transcript_many.specs.Network.{Network};
ghost use Rattle.ncp_transcript_many.specs.ManyTranscript.{IsManyTranscript};
ghost use Rattle.ncp_transcript_many.specs.Pairs.{ForEachTwo};
ghost use Rattle.ncp_proof_pipe.specs.Noted.{ArePipesWithReasons, TakenOnce};

use crate::notes::{each_bit_is_taken_once_ever, each_stop_has_a_reason};

/// Between each two of the hosts each pair of sockets is a pipe whose cuts and leaves are bounded, by
/// the notes that name both, regardless of events at and between the others.
pub fn each_pair_among_many_is_a_pipe()
    ensures { (ns : List ManyNote) (m : Network) → IsManyTranscript ns m → ForEachTwo (λ xs w. ArePipesWithReasons (seen w) xs) ns m }
{
    each_stop_has_a_reason();
}

/// Between each two of the hosts each bit is taken once, ever, by the notes that name both.
pub fn each_bit_is_taken_once_among_many()
    ensures { (ns : List ManyNote) (m : Network) → IsManyTranscript ns m → ForEachTwo (λ xs w. TakenOnce xs) ns m }
{
    each_bit_is_taken_once_ever();
}

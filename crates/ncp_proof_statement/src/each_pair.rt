//! The headline of the page for each two of two to eight hosts.
ghost use Rattle.std.specs.Prelude.{List};
ghost use Rattle.ncp_transcript_many.specs.declared.many_note.ManyNote.{ManyNote};
ghost use Rattle.ncp_transcript_many.specs.Network.{Network};
ghost use Rattle.ncp_transcript_many.specs.ManyTranscript.{IsManyTranscript};
ghost use Rattle.ncp_proof_statement.specs.EachTwo.{HeadlineOfEachTwo, TakenBeginsOfEachTwo};

use crate::headline::transcripts_keep_the_page;
use crate::moments::what_is_taken_begins_what_is_given;

/// The headline holds for each two of the hosts, by the notes that name both, regardless of events
/// at and between the others.
pub fn each_pair_keeps_the_page()
    ensures { (notes : List ManyNote) (m : Network) → IsManyTranscript notes m → HeadlineOfEachTwo notes m }
{
    transcripts_keep_the_page();
}

/// At every moment, for each two of the hosts and by the notes that name both: the bits taken at
/// the one since the ask are a prefix of those given to it at the other.
pub fn what_each_takes_begins_what_is_given()
    ensures { (notes : List ManyNote) (m : Network) → IsManyTranscript notes m → TakenBeginsOfEachTwo notes m }
{
    what_is_taken_begins_what_is_given();
}

//! Each pair among two to eight hosts is a world of two. Each theorem is the contract of a lemma.
ghost use Rattle.ncp_transcript_two.specs.Transcript.{IsTranscript};
ghost use Rattle.ncp_transcript_two.specs.OfRules.{IsOfModelsHosts};
ghost use Rattle.ncp_proof_promises.specs.Judged.{ActsOnce, MakesNoErr};
ghost use Rattle.ncp_proof_promises.specs.Resetting.{OnlyResetsAct};
ghost use Rattle.ncp_proof_promises.specs.Openings.{OpensUnderNoText};
ghost use Rattle.ncp_proof_promises.specs.Promised.{SubnetHonest, GotBegins, EachByteOnce, WithinAllocation, LedgersBalanced, CameInOrder, CommandsInOrder, EachActedOnce, NoErrMade, NoErrUnderway, OnlyResetsActed, WaitsAlone, OpenedUnderNoText};
ghost use Rattle.ncp_transcript_many.specs.OfCrowds.{OfEachNetwork};
ghost use Rattle.ncp_transcript_many.specs.Pairs.{SeenOfEachPair, ForEachPair, ForEachTwo};
ghost use Rattle.ncp_transcript_many.specs.NotesOfTwo.{ForEachNoteOfTwo};

use ncp_proof_promises::headline::the_headline;
use ncp_proof_promises::promises::{
    no_err_is_ever_underway, none_opens_while_its_link_has_a_text, only_resets_act_until_the_answer,
};
use ncp_transcript_two::transcripts::transcripts_are_of_the_model;

/// The notes that name both hosts of a pair are a transcript of two hosts with these numbers,
/// regardless of events at and between the others. From two new hosts, these notes lead to the
/// state that the two have for each other, and to the messages in transit between them. So theorems
/// about every transcript of two apply to each pair.
pub fn each_pair_is_a_world_of_two()
    // theorem: For each two of two to eight hosts with the subnet between them, the notes that name
    // both are a transcript of these two hosts by themselves. So each law of transcripts of two
    // hosts holds for them.
    ensures run { OfEachNetwork (ForEachPair IsTranscript) }
    ensures seen { OfEachNetwork SeenOfEachPair }
{}

/// For every list of calls, deliveries, losses, answers and orders of two to eight hosts, the
/// headline and its parts hold for each pair, regardless of events at and between the others. The
/// phrases are those of two hosts, for the notes that name both, and for the two hosts as they are
/// among all. `acts`, `errs`, `resets` and `openings` are about the world of two that these notes
/// lead to ([`each_note_of_each_pair`] states them among all). `model`: these notes are a run of
/// the model's two hosts, which the observed state of the two refines.
pub fn the_headline_of_each_pair()
    ensures subnet { OfEachNetwork (ForEachTwo SubnetHonest) }
    ensures beginning { OfEachNetwork (ForEachTwo GotBegins) }
    ensures once { OfEachNetwork (ForEachTwo EachByteOnce) }
    ensures allocation { OfEachNetwork (ForEachTwo WithinAllocation) }
    ensures ledger { OfEachNetwork (ForEachTwo LedgersBalanced) }
    ensures order { OfEachNetwork (ForEachTwo CameInOrder) }
    ensures commands { OfEachNetwork (ForEachTwo CommandsInOrder) }
    ensures acts { OfEachNetwork (ForEachTwo EachActedOnce) }
    ensures errs { OfEachNetwork (ForEachTwo NoErrMade) }
    ensures no_err { OfEachNetwork (ForEachTwo NoErrUnderway) }
    ensures resets { OfEachNetwork (ForEachTwo OnlyResetsActed) }
    ensures waits { OfEachNetwork (ForEachTwo WaitsAlone) }
    ensures openings { OfEachNetwork (ForEachTwo OpenedUnderNoText) }
    ensures model { OfEachNetwork (ForEachTwo IsOfModelsHosts) }
{
    the_headline();
    no_err_is_ever_underway();
    only_resets_act_until_the_answer();
    none_opens_while_its_link_has_a_text();
    transcripts_are_of_the_model();
}

/// The headline's claims about each note hold for each note of two of the hosts, with the observed
/// state of the two among all, before and after the note. A note of others leaves that state
/// unchanged.
pub fn each_note_of_each_pair()
    ensures acts { OfEachNetwork (ForEachNoteOfTwo ActsOnce) }
    ensures errs { OfEachNetwork (ForEachNoteOfTwo MakesNoErr) }
    ensures resets { OfEachNetwork (ForEachNoteOfTwo OnlyResetsAct) }
    ensures openings { OfEachNetwork (ForEachNoteOfTwo OpensUnderNoText) }
{
    the_headline();
    only_resets_act_until_the_answer();
    none_opens_while_its_link_has_a_text();
}

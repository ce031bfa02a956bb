//! Transcripts of two hosts as pipes, by their histories.
ghost use Rattle.std.specs.Prelude.{◌≡◌, Bool, true, List};
ghost use Rattle.std.specs.FinMap.{get};
ghost use Rattle.ncp_model.specs.declared.pair.Pair.{Pair};
ghost use Rattle.ncp_model.specs.Pairs.{counterpart};
ghost use Rattle.ncp_proof_machine.specs.Hosts.{past_of};
ghost use Rattle.ncp_transcript_two.specs.Throughout.{OfEachTranscript};
ghost use Rattle.ncp_pipe.specs.Pipe.{Step, IsRun, new_pipe};
ghost use Rattle.ncp_proof_pipe.specs.Views.{sender_view, receiver_view, pipe_of_views};
ghost use Rattle.ncp_proof_pipe.specs.Calls.{steps_of_sender, steps_of_receiver, sender_steps, receiver_steps};

use crate::ends::{connections_are_pipes, histories_have_the_calls};
use ncp_proof_headline::machines::hosts_are_tied_to_machines;
use ncp_transcript_two::transcripts::transcripts_are_of_the_model;

/// Every transcript is, for each pair and in either direction, a run of the pipe that ends in what the
/// two endpoints are. The steps of each side's user are the calls in the history of that pair at that
/// host, in their order.
pub fn transcripts_are_pipes()
    ensures { OfEachTranscript (λ pair v p. (steps : List Step) × (fresh : Bool) × (out : List Bool) × IsRun new_pipe steps (pipe_of_views (sender_view (get v.this.peer.ends pair)) (receiver_view (get v.that.peer.ends (counterpart pair))) out fresh) × (steps_of_sender steps ≡ sender_steps (past_of p.this pair).calls) × (steps_of_receiver steps ≡ receiver_steps (past_of p.that (counterpart pair)).calls)) }
{
    transcripts_are_of_the_model();
    hosts_are_tied_to_machines();
    connections_are_pipes();
    histories_have_the_calls();
}

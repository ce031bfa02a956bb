//! Stops of a pipe that nothing in the notes of its hosts explains.
ghost use Rattle.std.specs.Prelude.{◌≡◌, List, [], ◌∷◌};
ghost use Rattle.ncp_model.specs.declared.pair.Pair.{Pair};
ghost use Rattle.ncp_transcript.specs.declared.call.Call.TheVariants.{Reset};
ghost use Rattle.ncp_transcript.specs.declared.note.HostNote.{HostNote};
ghost use Rattle.ncp_transcript.specs.declared.note.HostNote.TheVariants.{Done};
ghost use Rattle.ncp_pipe.specs.Pipe.{Asks_to_send, Opens_sender, Leaves_sender, Ends_sender, Asks_to_receive, Cuts_receiver};
ghost use Rattle.ncp_pipe.specs.Runs.{again};
ghost use Rattle.ncp_proof_pipe.specs.Clearings.{clearings, closes_read};
ghost use Rattle.ncp_proof_pipe.specs.Stops.{AreSenderStops, AreReceiverStops};

/// A side that is cut at will is refused: without a clearing of its host there is no cut, and one
/// clearing explains one. The reset with which a host comes up is not counted: it cuts nothing. A side
/// that leaves at will is refused too: a leave needs a CLS.
pub fn stops_at_will_are_refused()
    ensures explained { (pair : Pair) (told : List HostNote) → clearings told ≡ 1 → AreSenderStops pair again told }
    ensures cut { (pair : Pair) (told : List HostNote) → clearings told ≡ 0 → AreSenderStops pair again told → ⊥ }
    ensures twice { (pair : Pair) (told : List HostNote) → clearings told ≡ 1 → AreReceiverStops pair (Asks_to_receive ∷ Cuts_receiver ∷ Asks_to_receive ∷ Cuts_receiver ∷ []) told → ⊥ }
    ensures coming_up { (pair : Pair) → AreSenderStops pair again (Done (Reset 2) ∷ []) → ⊥ }
    ensures leave { (pair : Pair) (told : List HostNote) → closes_read pair told ≡ 0 → AreSenderStops pair (Asks_to_send ∷ Opens_sender ∷ Leaves_sender ∷ Ends_sender ∷ []) told → ⊥ }
{}

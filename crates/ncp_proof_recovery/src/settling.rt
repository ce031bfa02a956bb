//! A bound on the spontaneous events of two to eight hosts.
ghost use Rattle.std.specs.Prelude.{◌≡◌, ℕ, Bool, List, true};
ghost use Rattle.ncp_transcript.specs.declared.call.Call.{Call};
ghost use Rattle.ncp_transcript.specs.declared.note.HostNote.{HostNote};
ghost use Rattle.ncp_transcript_many.specs.declared.many_event.ManyEvent.{ManyEvent};
ghost use Rattle.ncp_transcript_many.specs.declared.many_note.ManyNote.{ManyNote};
ghost use Rattle.ncp_transcript_many.specs.Network.{Network};
ghost use Rattle.ncp_transcript_many.specs.ManyTranscript.{IsManyTranscript, Noted_many};
ghost use Rattle.ncp_proof_recovery.specs.ManySettling.{ManyByItself, ManyGoOn, AreWithinWork, many_says_nothing};

/// After every transcript of two to eight hosts, the number of spontaneous events between each two
/// is at most the work left between the two, regardless of events at and between the others. The
/// past calls of their users for each other, and the losses and dead destinations between them,
/// bound that work.
pub fn what_happens_among_many_is_within_the_work()
    ensures within { (before now : Noted_many) → IsManyTranscript before.notes before.hosts → ManyGoOn before now
        → AreWithinWork before now }
{}

/// Sending a message is spontaneous. A loss, a dead destination, a user's reset, and an event that
/// did not happen are not.
pub fn messages_of_many_move_by_themselves()
    ensures out { (host : ℕ) (message : List Bool) (m : Network) → ManyByItself (ManyNote.Out host (HostNote.Out message)) m }
    ensures lost { (from to link : ℕ) (m : Network) → ManyByItself (ManyNote.Lost from to link) m → ⊥ }
    ensures dead { (from to link : ℕ) (m : Network) → ManyByItself (ManyNote.FoundDead from to link) m → ⊥ }
    ensures reset { (host peer : ℕ) (m : Network) → ManyByItself (ManyNote.Called host (HostNote.Done (Call.Reset peer))) m → ⊥ }
    ensures nothing { (event : ManyEvent) (m : Network) → ManyByItself (ManyNote.Nothing event) m → ⊥ }
    ensures says { (event : ManyEvent) → many_says_nothing (ManyNote.Nothing event) ≡ true }
{}

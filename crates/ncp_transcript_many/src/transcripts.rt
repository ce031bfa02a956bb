//! Theorems about transcripts of two to eight hosts. Each is the contract of a lemma.
ghost use Rattle.std.specs.Prelude.{◌≡◌, ◌≢◌, ◌≤◌, ◌⊎◌, ℕ, true, false, length, map, None, Some};
ghost use Rattle.ncp_peer.specs.Readiness.{IsNext};
ghost use Rattle.ncp_host.specs.Turns.{next_output};
ghost use Rattle.ncp_transcript.specs.declared.note.HostNote.TheVariants as of_host;
ghost use Rattle.ncp_proof_runs.specs.Peers.{FromBeginning};
ghost use Rattle.ncp_transcript_two.specs.declared.note.Note.{Note};
ghost use Rattle.ncp_transcript_two.specs.Between.{hosts_after_note};
ghost use Rattle.ncp_transcript_two.specs.Transcript as worlds;
ghost use Rattle.ncp_transcript_many.specs.declared.many_note.ManyNote.{ManyNote as Noted};
ghost use Rattle.ncp_transcript_many.specs.declared.many_note.ManyNote.TheVariants as many;
ghost use Rattle.ncp_transcript_many.specs.Network.{Network, numbers_in, others, is_there, host_at, between, network_of, after_many};
ghost use Rattle.ncp_transcript_many.specs.ManyHappening.{are_there, by_numbers};
ghost use Rattle.ncp_transcript_many.specs.ManyTranscript.{IsManyRun, IsManyTranscript};
ghost use Rattle.ncp_transcript_many.specs.OfCrowds.{OfEachHost, NoNetworkNotes, OfEachNetwork};
ghost use Rattle.ncp_transcript_many.specs.ManyImpossible.{CannotHappen};
ghost use Rattle.ncp_transcript_many.specs.Pairs.{note_between, notes_at_host, EachOfManyByItself};
ghost use Rattle.ncp_transcript_many.specs.WhereInCrowds.{host_led_to, NamesBoth, AreSameTwo, OfManyNotes, FromNewCrowds, OfFirstParts, WhereNoneOfManyWentOut, WhereOneOfManyWentOut, WhereNothingOfManyHappened};
ghost use Rattle.ncp_transcript_two.specs.OfTranscripts.{OfTranscripts};

/// The notes of any list of events are one per event, and form a run: each is what the rules define
/// for the state before it. From new hosts they are a transcript.
pub fn every_list_of_events_is_a_run_of_many()
    ensures many { OfManyNotes (λ events notes m. length notes ≡ length events) }
    ensures run { OfManyNotes (λ events notes m. IsManyRun notes m) }
    ensures transcript { FromNewCrowds IsManyTranscript }
{}

/// A note of two hosts changes them, and the subnet, as it changes a world of two.
pub fn two_of_many_are_a_world_of_two()
    ensures { (a b : ℕ) (m : Network) (note : Note) → a ≢ b → is_there a m ≡ true → is_there b m ≡ true → between a b (after_many (by_numbers a b note) m) ≡ hosts_after_note note (between a b m) }
{}

/// A world of two is the case of two hosts: its transcript, with host numbers in place of sides, is
/// a transcript of many.
pub fn a_world_of_two_is_one_of_many()
    ensures { OfTranscripts (λ notes w. IsManyTranscript (map (by_numbers w.number_a w.number_b) notes) (network_of w)) }
{}

/// Each of the hosts is a host by itself: its own notes are a transcript of one host, and lead to
/// its state. So theorems about every run of one host apply to it.
pub fn each_host_of_many_is_by_itself()
    ensures { OfEachNetwork EachOfManyByItself }
{}

/// The notes of each host are a run from its beginning, with the others as its peers in their
/// order, and lead to its state. These are the premises of the theorems about runs of one host.
pub fn each_host_of_many_is_from_its_beginning()
    ensures run { OfEachHost (λ ns m host. FromBeginning host (others host (numbers_in m)) (notes_at_host host ns)) }
    ensures host { OfEachHost (λ notes m host. host_at host m ≡ host_led_to host notes m) }
{}

/// Each prefix of a transcript of many is a transcript, of the hosts and the subnet it leads to. So
/// every theorem about transcripts holds after each note.
pub fn beginnings_of_many_are_transcripts()
    ensures { OfFirstParts IsManyTranscript }
{}

/// Each message that one of many hosts sends is the one on the first ready link to the first peer
/// that has one. When it reports none to send, no link to any other host is ready.
pub fn what_goes_out_is_first_of_each_of_many()
    ensures nothing { WhereNoneOfManyWentOut (λ h. IsNext None h.peers) }
    ensures out { WhereOneOfManyWentOut (λ message h. IsNext (Some message) h.peers) }
{}

/// A note belongs to at most one pair of hosts, and is at most one note of that pair.
pub fn a_note_is_of_one_pair()
    ensures one { (note : Noted) (a b : ℕ) → length (note_between a b note) ≤ 1 }
    ensures one_pair { (note : Noted) (a b c d : ℕ) → NamesBoth a b note → NamesBoth c d note → AreSameTwo a b c d }
{}

/// `Nothing` is noted only when the event is impossible:
///
/// - a host of the event is absent, or the two hosts of a message are the same;
/// - of a message, the subnet has none to which the event applies;
/// - of a host asked for its next message, it has none ready;
/// - of a call, or of an arrival at a host, never.
pub fn nothing_of_many_is_noted_only_where_nothing_can_be()
    ensures nothing { WhereNothingOfManyHappened (λ event m was. (are_there event m ≡ false) ⊎ CannotHappen event was) }
    ensures out { WhereNoneOfManyWentOut (λ h. next_output h ≡ None) }
    ensures called { (host : ℕ) → NoNetworkNotes (many.Called host of_host.Nothing) }
    ensures came { (from to link : ℕ) → NoNetworkNotes (many.Came from to link of_host.Nothing) }
    ensures answered { (from to link : ℕ) → NoNetworkNotes (many.Answered from to link of_host.Nothing) }
{}

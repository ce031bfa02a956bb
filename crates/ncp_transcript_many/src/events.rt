//! Every list of events of two to eight new hosts, pair by pair. Each theorem is the contract of a
//! lemma.
ghost use Rattle.std.specs.Prelude.{◌≡◌, ◌≢◌, ◌<◌, ℕ, true, List, map};
ghost use Rattle.ncp_host.specs.Host.{is_one_of};
ghost use Rattle.ncp_transcript_two.specs.Transcript.{IsTranscript};
ghost use Rattle.ncp_transcript_two.specs.Seen.{seen};
ghost use Rattle.ncp_transcript_many.specs.declared.many_event.ManyEvent.{ManyEvent as Event};
ghost use Rattle.ncp_transcript_many.specs.declared.many_note.ManyNote.{ManyNote as Noted};
ghost use Rattle.ncp_transcript_many.specs.Network.{Network, is_there, are_hosts, new_network, between, network_of, after_many_notes};
ghost use Rattle.ncp_transcript_many.specs.ManyHappening.{by_numbers};
ghost use Rattle.ncp_transcript_many.specs.ManyTranscript.{AreManyNotes, IsManyTranscript};
ghost use Rattle.ncp_transcript_many.specs.Pairs.{notes_between, hosts_between, ForEachPair};
ghost use Rattle.ncp_transcript_many.specs.WhereInCrowds.{FromNewCrowds};

/// Regardless of events at and between the others, the notes that name both hosts of a pair are a
/// transcript of two hosts, and lead to the state that the two have for each other and to the
/// messages in transit between them.
pub fn every_list_of_events_is_a_run_of_each_pair()
    ensures run { FromNewCrowds (ForEachPair IsTranscript) }
    ensures seen { (events : List Event) (notes : List Noted) (ns : List ℕ) (a b : ℕ) → are_hosts ns ≡ true → ((n : ℕ) → is_one_of n ns ≡ true → n < 256) → AreManyNotes events notes (new_network ns) → is_one_of a ns ≡ true → is_one_of b ns ≡ true → a ≢ b → seen (between a b (after_many_notes notes (new_network ns))) ≡ seen (hosts_between a b notes) }
{}

/// The others do not affect a pair: if the notes that name both hosts are the same, the two have
/// the same state for each other, and the same messages in transit between them, regardless of
/// other hosts and other notes. And these notes alone are a transcript of these two hosts, without
/// any others.
pub fn others_change_nothing_of_a_pair()
    ensures same { (some more : List Noted) (m x : Network) (a b : ℕ) → IsManyTranscript some m → IsManyTranscript more x → is_there a m ≡ true → is_there b m ≡ true → is_there a x ≡ true → is_there b x ≡ true → a ≢ b → notes_between a b some ≡ notes_between a b more → seen (between a b m) ≡ seen (between a b x) }
    ensures alone { (notes : List Noted) (m : Network) (a b : ℕ) → IsManyTranscript notes m → is_there a m ≡ true → is_there b m ≡ true → a ≢ b → IsManyTranscript (map (by_numbers a b) (notes_between a b notes)) (network_of (hosts_between a b notes)) }
{}

//! Worked examples of the definitions: small laws that a wrong definition falsifies.
ghost use Rattle.std.specs.Prelude.{◌≡◌, ℕ, true, false, [], ◌∷◌, length, Some, None};
ghost use Rattle.ncp_peer.specs.declared.received.Received.TheVariants as received;
ghost use Rattle.ncp_host.specs.Host.{new_host};
ghost use Rattle.ncp_transcript.specs.declared.call.Call.TheVariants as calls;
ghost use Rattle.ncp_transcript.specs.declared.note.HostNote.TheVariants as of_host;
ghost use Rattle.ncp_transcript_two.specs.declared.side.Side.TheVariants.{A, B};
ghost use Rattle.ncp_transcript_two.specs.declared.event.Event.TheVariants as two_events;
ghost use Rattle.ncp_transcript_two.specs.declared.note.Move.TheVariants as moves;
ghost use Rattle.ncp_transcript_two.specs.declared.note.Note.TheVariants as notes;
ghost use Rattle.ncp_transcript_many.specs.declared.many_event.ManyEvent.{ManyEvent};
ghost use Rattle.ncp_transcript_many.specs.declared.many_event.ManyEvent.TheVariants as events;
ghost use Rattle.ncp_transcript_many.specs.declared.many_note.ManyNote.TheVariants as many;
ghost use Rattle.ncp_transcript_many.specs.Numbered.{thing_in, at_thing};
ghost use Rattle.ncp_transcript_many.specs.Network.{are_hosts, others, host_at, between};
ghost use Rattle.ncp_transcript_many.specs.ManyHappening.{ends_of, as_of_two, event_by_numbers, by_numbers, ManyNoted};
ghost use Rattle.ncp_transcript_many.specs.Pairs.{note_between, notes_between, notes_at_host};
ghost use Rattle.ncp_transcript_many.specs.ManyTranscript.{AreManyNotes};
ghost use Rattle.ncp_transcript_many.specs.Examples.{three_hosts, three_new, row_events, row_notes, first_events, first_notes};
ghost use Rattle.ncp_transcript_many.specs.ManyRows.{rst_from_1, down_with_1, up_with_1, reset_by, rst_goes, rst_comes};

/// Finds an item by its number, and changes only that item.
pub fn things_have_numbers()
    ensures found { (x y : ℕ) → thing_in ((4, x) ∷ (5, y) ∷ []) 5 ≡ Some y }
    ensures none { (x y : ℕ) → thing_in ((4, x) ∷ (5, y) ∷ []) 6 ≡ None }
    ensures changed { (x y z : ℕ) → at_thing 5 (λ (n : ℕ). z) ((4, x) ∷ (5, y) ∷ []) ≡ (4, x) ∷ (5, z) ∷ [] }
{}

/// Which lists are numbers of hosts, and the peers of each host, in the order given.
pub fn hosts_are_two_to_eight()
    ensures three { are_hosts three_hosts ≡ true }
    ensures one { are_hosts (1 ∷ []) ≡ false }
    ensures eight { are_hosts (1 ∷ 2 ∷ 3 ∷ 4 ∷ 5 ∷ 6 ∷ 7 ∷ 8 ∷ []) ≡ true }
    ensures nine { are_hosts (1 ∷ 2 ∷ 3 ∷ 4 ∷ 5 ∷ 6 ∷ 7 ∷ 8 ∷ 9 ∷ []) ≡ false }
    ensures twice { are_hosts (1 ∷ 2 ∷ 1 ∷ []) ≡ false }
    ensures others { others 2 three_hosts ≡ 1 ∷ 3 ∷ [] }
    ensures second { host_at 2 three_new ≡ new_host 2 (1 ∷ 3 ∷ []) }
    ensures pair { (between 3 1 three_new).a ≡ new_host 3 (1 ∷ 2 ∷ []) }
{}

/// An event of an absent host, or of a message from a host to itself, is noted as `Nothing`.
pub fn absent_hosts_do_nothing()
    ensures call { ManyNoted (events.Call 4 (calls.Reset 1)) (many.Nothing (events.Call 4 (calls.Reset 1))) three_new }
    ensures out { ManyNoted (events.Out 4) (many.Nothing (events.Out 4)) three_new }
    ensures sender { ManyNoted (events.Deliver 4 1 0) (many.Nothing (events.Deliver 4 1 0)) three_new }
    ensures destination { ManyNoted (events.Answer 1 4 0) (many.Nothing (events.Answer 1 4 0)) three_new }
    ensures itself { ManyNoted (events.Lose 1 1 0) (many.Nothing (events.Lose 1 1 0)) three_new }
{}

/// A note of two hosts, with the host number in place of each side.
pub fn sides_are_names_of_numbers()
    ensures came { by_numbers 1 3 (notes.Came B 0 of_host.Nothing) ≡ many.Came 3 1 0 of_host.Nothing }
    ensures called { by_numbers 1 3 (notes.Called B of_host.Nothing) ≡ many.Called 3 of_host.Nothing }
    ensures nothing { by_numbers 1 3 (notes.Nothing A 2 moves.Lose) ≡ many.Nothing (events.Lose 1 3 2) }
{}

/// An event of many hosts is an event of its two hosts, with the sender at side A.
pub fn an_event_of_many_is_one_of_two()
    ensures turned_back { (e : ManyEvent) → event_by_numbers (ends_of e).0 (ends_of e).1 (as_of_two e) ≡ e }
    ensures answer { event_by_numbers 1 3 (two_events.Answer A 2) ≡ events.Answer 1 3 2 }
    ensures other { event_by_numbers 1 3 (two_events.Lose B 2) ≡ events.Lose 3 1 2 }
    ensures sender { ends_of (events.Dead 1 3 2) ≡ (1, 3) }
{}

/// A run exists: events of three hosts, and their notes.
pub fn three_hosts_can_begin()
    ensures { AreManyNotes first_events first_notes three_new }
{}

/// The notes of three hosts: one per event; those of each two hosts, and those of one.
pub fn notes_of_three_hosts()
    ensures many { length row_notes ≡ length row_events }
    ensures second { notes_between 1 2 row_notes ≡ reset_by A 2 ∷ rst_goes A 2 ∷ notes.Called B down_with_1 ∷ [] }
    ensures third { notes_between 1 3 row_notes ≡ reset_by A 3 ∷ rst_goes A 3 ∷ rst_comes ∷ notes.Called B up_with_1 ∷ [] }
    ensures counterpart { notes_between 2 1 row_notes ≡ reset_by B 2 ∷ rst_goes B 2 ∷ notes.Called A down_with_1 ∷ [] }
    ensures others { notes_between 2 3 row_notes ≡ [] }
    ensures of_one { notes_at_host 3 row_notes ≡ rst_from_1 ∷ up_with_1 ∷ [] }
{}

/// An event of the subnet belongs to the sender and the destination, also when it is impossible.
pub fn moves_are_between_two()
    ensures lost { note_between 3 1 (many.Lost 1 3 5) ≡ notes.Lost B 5 ∷ [] }
    ensures other { note_between 1 2 (many.Lost 1 3 5) ≡ [] }
    ensures vain { note_between 1 3 (many.Nothing (events.Answer 1 3 5)) ≡ notes.Nothing A 5 moves.Answer ∷ [] }
    ensures absent { note_between 1 3 (many.Nothing (events.Out 1)) ≡ [] }
{}

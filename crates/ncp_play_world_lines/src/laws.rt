//! Worked records and lines of notes, computed from the definitions.
ghost use Rattle.std.specs.Prelude.{◌≡◌, Bool, List, [], ◌∷◌, ◌++◌, None, Some, codes};
ghost use Rattle.ncp_leader.specs.declared.kinds.TheConstants.{RFNM, DESTINATION_DEAD, INCOMPLETE};
ghost use Rattle.ncp_subnet.specs.Messages.{answer_bits};
ghost use Rattle.ncp_wire.specs.declared.answer.Answer.TheVariants as answers;
ghost use Rattle.ncp_model.specs.declared.outcomes.Took.TheVariants.{Admitted};
ghost use Rattle.ncp_peer.specs.declared.received.Received.{Received};
ghost use Rattle.ncp_peer.specs.declared.received.Received.TheVariants.{Answered, Text};
ghost use Rattle.ncp_transcript.specs.declared.note.HostNote.TheVariants as host_notes;
ghost use Rattle.ncp_transcript_many.specs.declared.many_event.ManyEvent.TheVariants as events;
ghost use Rattle.ncp_transcript_many.specs.declared.many_note.ManyNote.TheVariants as many;
ghost use Rattle.ncp_play_files.specs.declared.file.Direction.TheVariants.{ToImp, FromImp};
ghost use Rattle.ncp_play_files.specs.Versions.{placed};
ghost use Rattle.ncp_play_world_lines.specs.ManyNotes.{many_note_lines};
ghost use Rattle.ncp_play_world_lines.specs.Recorded.{file_of_notes, kind_of_answer, record_of_many};
ghost use Rattle.ncp_play_world_lines.specs.RecordedExamples.{two_hosts, rst_out_bytes, rst_came_bytes, a_reset, unrecorded};

/// An RST is sent by host 1, arrives at host 2, and host 1 gets its answer: 80 bits, 80 bits and
/// 32.
pub fn a_reset_is_recorded_so()
    ensures { file_of_notes two_hosts a_reset ≡ codes "NCPJ" ++ (72 ∷ 1 ∷ 0 ∷ 80 ∷ rst_out_bytes) ++ (73 ∷ 2 ∷ 0 ∷ 80 ∷ rst_came_bytes) ++ (73 ∷ 1 ∷ 0 ∷ 32 ∷ 5 ∷ 2 ∷ 0 ∷ 0 ∷ []) }
{}

/// If nothing was sent, received or answered, the file is its header alone.
pub fn losses_are_not_recorded()
    ensures { file_of_notes two_hosts unrecorded ≡ codes "NCPJ" }
{}

/// The types of answers: 5 is RFNM, 7 Destination Dead, 9 Incomplete Transmission (BBN Report 1822, section 3).
pub fn answers_have_these_types()
    ensures rfnm { kind_of_answer answers.Rfnm ≡ RFNM }
    ensures dead { kind_of_answer answers.Dead ≡ DESTINATION_DEAD }
    ensures incomplete { kind_of_answer answers.Incomplete ≡ INCOMPLETE }
    ensures numbers { (RFNM ≡ 5) × (DESTINATION_DEAD ≡ 7) × (INCOMPLETE ≡ 9) }
{}

/// Among many hosts a message sent is recorded at its sender, one received at its receiver, and an
/// answer at the sender; a message that the subnet loses is not recorded.
pub fn messages_among_many_are_recorded_so()
    ensures out { (m : List Bool) → record_of_many (many.Out 1 (host_notes.Out m)) ≡ Some (record { capture_point = placed ToImp 1; message = m }) }
    ensures came { (m : List Bool) (r : Received) → record_of_many (many.Came 1 3 2 (host_notes.In m r)) ≡ Some (record { capture_point = placed FromImp 3; message = m }) }
    ensures answered { (r : Received) → record_of_many (many.Answered 1 3 2 (host_notes.Answered 3 2 answers.Rfnm r)) ≡ Some (record { capture_point = placed FromImp 1; message = answer_bits RFNM 3 2 }) }
    ensures lost { record_of_many (many.Lost 1 3 2) ≡ None }
    ensures dead { record_of_many (many.FoundDead 1 3 2) ≡ None }
    ensures nothing { record_of_many (many.Nothing (events.Deliver 1 3 2)) ≡ None }
{}

/// The line of each move among many hosts, and of each impossible move.
pub fn moves_among_many_are_printed_so()
    ensures deliver { (m : List Bool) → many_note_lines 7 (many.Came 1 3 2 (host_notes.In m (Text Admitted))) ≡ codes "7 1 deliver 3 2 text admitted\n" }
    ensures lose { many_note_lines 7 (many.Lost 1 3 2) ≡ codes "7 1 lose 3 2 ok\n" }
    ensures dead { many_note_lines 7 (many.FoundDead 1 3 2) ≡ codes "7 1 dead 3 2 ok\n" }
    ensures answer { many_note_lines 7 (many.Answered 1 3 2 (host_notes.Answered 3 2 answers.Incomplete Answered)) ≡ codes "7 1 answer 3 2 incomplete\n" }
    ensures no_deliver { many_note_lines 7 (many.Nothing (events.Deliver 1 3 2)) ≡ codes "7 1 deliver 3 2 nothing\n" }
    ensures no_lose { many_note_lines 7 (many.Nothing (events.Lose 1 3 2)) ≡ codes "7 1 lose 3 2 nothing\n" }
    ensures no_dead { many_note_lines 7 (many.Nothing (events.Dead 1 3 2)) ≡ codes "7 1 dead 3 2 nothing\n" }
    ensures no_answer { many_note_lines 7 (many.Nothing (events.Answer 1 3 2)) ≡ codes "7 1 answer 3 2 nothing\n" }
{}

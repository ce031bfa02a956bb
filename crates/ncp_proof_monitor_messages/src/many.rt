//! No rule of messages and the phase is reported in the file of two to eight hosts.
ghost use Rattle.std.specs.Prelude.{◌≡◌, ◌∷◌, [], ℕ, Bool, List};
ghost use Rattle.ncp_subnet.specs.Messages.{answer_bits};
ghost use Rattle.ncp_wire.specs.declared.answer.Answer.TheVariants.{Rfnm, Incomplete, Dead};
ghost use Rattle.ncp_peer.specs.declared.received.Received.{Received};
ghost use Rattle.ncp_transcript.specs.declared.note.HostNote.{HostNote};
ghost use Rattle.ncp_interface.specs.declared.imp_direction.ImpDirection.TheVariants.{ToImp, FromImp};
ghost use Rattle.ncp_transcript_many.specs.declared.many_note.ManyNote.{ManyNote};
ghost use Rattle.ncp_transcript_many.specs.Examples.{rst_with, row_notes};
ghost use Rattle.ncp_proof_monitor.specs.Recordings.{is_of_messages_and_phase};
ghost use Rattle.ncp_proof_monitor_messages.specs.ManyFiles.{passing, many_file, FileOfTwo, RecordsFit, NothingFoundAmongMany};

/// An audit of the file of two to eight hosts with the subnet between them reports no broken rule
/// of messages and the phase: at no interface, and neither against a host nor against the subnet.
/// This holds for any calls and any events of the subnet, in any order.
pub fn nothing_is_found_among_many()
    ensures { NothingFoundAmongMany is_of_messages_and_phase }
{}

/// The contents of the file. A sent message is recorded at its sender, a delivered one at its
/// receiver, and an answer, with its type, at the host that it answers. A lost message leaves no
/// record, nor does a host without a message to send.
pub fn each_record_stands_where_it_passes()
    ensures file { many_file row_notes ≡ (1, ToImp, rst_with 2) ∷ (1, ToImp, rst_with 3) ∷ (3, FromImp, rst_with 1) ∷ [] }
    ensures ready { passing (ManyNote.Answered 1 3 0 (HostNote.Answered 3 0 Rfnm Received.Answered)) ≡ (1, FromImp, answer_bits 5 3 0) ∷ [] }
    ensures dead { passing (ManyNote.Answered 1 3 2 (HostNote.Answered 3 2 Dead Received.Answered)) ≡ (1, FromImp, answer_bits 7 3 2) ∷ [] }
    ensures incomplete { passing (ManyNote.Answered 3 1 2 (HostNote.Answered 1 2 Incomplete Received.Answered)) ≡ (3, FromImp, answer_bits 9 1 2) ∷ [] }
    ensures lost { (from to link : ℕ) → passing (ManyNote.Lost from to link) ≡ [] }
{}

/// The file of two hosts is one of these: the records of their notes are the records of their
/// events at both interfaces.
pub fn the_file_of_two_is_one_of_many()
    ensures { FileOfTwo }
{}

/// Each record fits a message file: its host number is one byte, and its message has at most 8,192
/// bits.
pub fn each_record_has_its_place_in_a_file()
    ensures { RecordsFit }
{}

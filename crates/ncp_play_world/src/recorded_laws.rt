//! The rendering of notes by a recorder is one file.
ghost use Rattle.std.specs.Prelude.{◌≡◌, ℕ, List};
ghost use Rattle.ncp_play_script.specs.declared.first_lines.TwoHosts.{TwoHosts};
ghost use Rattle.ncp_transcript_two.specs.declared.side.Side.{Side};
ghost use Rattle.ncp_transcript_two.specs.declared.note.Note.{Note};
ghost use Rattle.ncp_transcript_many.specs.declared.many_note.ManyNote.{ManyNote};
ghost use Rattle.ncp_play_world_lines.specs.declared.settling.ScriptNote.{ScriptNote};
ghost use Rattle.ncp_play_world.specs.Traces.{notes_in};
ghost use Rattle.ncp_play_simulation.specs.Printing.{told};
ghost use Rattle.ncp_play_world_lines.specs.declared.first_line.HostAndPeer.{HostAndPeer};
ghost use Rattle.ncp_play_world_lines.specs.declared.first_line.FirstLine.{FirstLine};
ghost use Rattle.ncp_play_world_lines.specs.Recorded.{file_of_notes, file_of_many_notes};
ghost use Rattle.ncp_play_world.specs.WorldRules.{StagedWorld, world_traced};
ghost use Rattle.ncp_play_world.specs.ManyRules.{StagedMany, many_traced};
ghost use Rattle.ncp_play_world.specs.Renderings.{recording_of, recording_of_many};

/// The rendering of the notes of hosts, one after the other, is the file of their records. So the
/// word `settle` records the same messages as lines with its events.
pub fn notes_are_printed_as_their_file()
    ensures two { (first : FirstLine TwoHosts Side) (began : StagedWorld) (traces : List (ScriptNote Note))
        → told world_traced (recording_of first) began traces ≡ file_of_notes first.hosts (notes_in traces) }
    ensures many { (first : FirstLine (List ℕ) HostAndPeer) (began : StagedMany) (traces : List (ScriptNote ManyNote))
        → told many_traced (recording_of_many first) began traces ≡ file_of_many_notes (notes_in traces) }
{}

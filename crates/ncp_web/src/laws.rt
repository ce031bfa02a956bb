//! Theorems about stepping.
ghost use Rattle.std.specs.Prelude.{ℕ, List};
ghost use Rattle.ncp_play_script.specs.declared.first_lines.TwoHosts.{TwoHosts};
ghost use Rattle.ncp_transcript_two.specs.declared.side.Side.{Side};
ghost use Rattle.ncp_play_world_lines.specs.declared.first_line.HostAndPeer.{HostAndPeer};
ghost use Rattle.ncp_play_world_lines.specs.declared.first_line.FirstLine.{FirstLine};
ghost use Rattle.ncp_play_world.specs.WorldRules.{StagedWorld, world_rules};
ghost use Rattle.ncp_play_world.specs.ManyRules.{StagedMany, many_rules};
ghost use Rattle.ncp_play_world.specs.Renderings.{lines_of_script, lines_of_many};
ghost use Rattle.ncp_web.specs.Sessions.{PlaysOut, IsDone};

/// A line that is played note by note to its end has the effect that it has in a script.
pub fn a_line_played_out_is_done()
    ensures two { (first : FirstLine TwoHosts Side) (line : List ℕ) (before now : StagedWorld) →
        PlaysOut world_rules (lines_of_script first) first line before now → IsDone world_rules first line before now }
    ensures many { (first : FirstLine (List ℕ) HostAndPeer) (line : List ℕ) (before now : StagedMany) →
        PlaysOut many_rules (lines_of_many first) first line before now → IsDone many_rules first line before now }
{}

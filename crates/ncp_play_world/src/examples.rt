//! Scripts of two hosts, and of two to eight, and their events, computed from the definitions.
ghost use Rattle.std.specs.Prelude.{◌≡◌, codes, map, [], ◌∷◌, None, Some, true, false};
ghost use Rattle.ncp_play_script.specs.Words.{words_of};
ghost use Rattle.ncp_play_script.specs.Scripts.{Over, Faulty, BadLine, BadHosts, NoHosts, Plays};
ghost use Rattle.ncp_transcript.specs.declared.call.Call.TheVariants as calls;
ghost use Rattle.ncp_transcript_two.specs.declared.event.Event.TheVariants as events;
ghost use Rattle.ncp_transcript_two.specs.declared.side.Side.TheVariants.{A, B};
ghost use Rattle.ncp_transcript_many.specs.declared.many_event.ManyEvent.TheVariants as many_events;
ghost use Rattle.ncp_play_world_lines.specs.Examples.{three};
ghost use Rattle.ncp_play_world_lines.specs.declared.settling.Directive.TheVariants.{Event as Does, Settle};
ghost use Rattle.ncp_play_world.specs.WorldRules.{world_script};
ghost use Rattle.ncp_play_world.specs.ManyHosts.{many_of};
ghost use Rattle.ncp_play_world.specs.ManyRules.{is_many_script, many_script};

/// The plans of scripts of two hosts, by their bytes.
pub fn scripts_of_two_hosts_are_read_so()
    ensures whole { world_script (codes "# two\n\nhosts 1 2\r\na reset\na out\na deliver 0\na answer 0\nb out")
        ≡ Plays (record { hosts = record { a = 1; b = 2 }; watch = None }) (record {
          events = map Does (events.Call A (calls.Reset 2) ∷ events.Out A ∷ events.Deliver A 0 ∷ events.Answer A 0
              ∷ events.Out B ∷ []);
          ending = Over;
        }) }
    ensures watched { world_script (codes "hosts 1 2 watch a 3 2\nb out")
        ≡ Plays (record {
          hosts = record { a = 1; b = 2 };
          watch = Some (record { sender = A; pair = record { local = 3; remote = 2 } });
        })
        (record { events = Does (events.Out B) ∷ []; ending = Over }) }
    ensures nothing { world_script (codes "hosts 1 2")
        ≡ Plays (record { hosts = record { a = 1; b = 2 }; watch = None }) (record { events = []; ending = Over }) }
    ensures bad_line { world_script (codes "hosts 1 2\n#\n\na out\nout\na out\n")
        ≡ Plays (record { hosts = record { a = 1; b = 2 }; watch = None })
        (record { events = Does (events.Out A) ∷ []; ending = Faulty (BadLine 5) }) }
    ensures settle { world_script (codes "hosts 1 2\nsettle\na reset\nsettle\n")
        ≡ Plays (record { hosts = record { a = 1; b = 2 }; watch = None })
        (record { events = Settle ∷ Does (events.Call A (calls.Reset 2)) ∷ Settle ∷ []; ending = Over }) }
    ensures settles_alone { world_script (codes "hosts 1 2\nsettle a\n")
        ≡ Plays (record { hosts = record { a = 1; b = 2 }; watch = None }) (record { events = []; ending = Faulty (BadLine 2) }) }
    ensures no_line { world_script [] ≡ NoHosts BadHosts }
    ensures same_hosts { world_script (codes "hosts 1 1\na out\n") ≡ NoHosts BadHosts }
    ensures one_host { world_script (codes "host 1 2\nout\n") ≡ NoHosts BadHosts }
    ensures other_line { world_script (codes "a out\nhosts 1 2\n") ≡ NoHosts BadHosts }
{}

/// The first line of a script of many hosts, and the plans of such scripts by their bytes.
pub fn scripts_of_many_are_read_so()
    ensures hosts { many_of (words_of (codes "many 3 1")) ≡ Some (record { hosts = 3 ∷ 1 ∷ []; watch = None }) }
    ensures watch { many_of (words_of (codes "many 3 1 2 watch 1 3 5 2"))
        ≡ Some (record {
          hosts = 3 ∷ 1 ∷ 2 ∷ [];
          watch = Some (record { sender = record { host = 1; peer = 3 }; pair = record { local = 5; remote = 2 } });
        }) }
    ensures itself { many_of (words_of (codes "many 3 1 watch 1 1 5 2")) ≡ None }
    ensures other { many_of (words_of (codes "many 3 1 watch 1 2 5 2")) ≡ None }
    ensures receiver { many_of (words_of (codes "many 3 1 watch 1 3 2 5")) ≡ None }
    ensures unwatched { many_of (words_of (codes "many 3 1 watch")) ≡ None }
    ensures one { many_of (words_of (codes "many 3")) ≡ None }
    ensures same { many_of (words_of (codes "many 1 2 1")) ≡ None }
    ensures nine { many_of (words_of (codes "many 1 2 3 4 5 6 7 8 9")) ≡ None }
    ensures whole { many_script (codes "# three\n\nmany 1 2 3\r\n1 reset 2\n1 deliver 3 0")
        ≡ Plays (record { hosts = three; watch = None }) (record {
          events = Does (many_events.Call 1 (calls.Reset 2)) ∷ Does (many_events.Deliver 1 3 0) ∷ [];
          ending = Over;
        }) }
    ensures settle { many_script (codes "many 1 2 3\nsettle\n")
        ≡ Plays (record { hosts = three; watch = None }) (record { events = Settle ∷ []; ending = Over }) }
    ensures bad_line { many_script (codes "many 1 2 3\n1 out\n1 out 2\n")
        ≡ Plays (record { hosts = three; watch = None })
        (record { events = Does (many_events.Out 1) ∷ []; ending = Faulty (BadLine 3) }) }
    ensures bad_hosts { many_script (codes "many 1 1\n1 out\n") ≡ NoHosts BadHosts }
    ensures is_many { is_many_script (codes "# hosts\nmany 1 1\n") ≡ true }
    ensures is_two { is_many_script (codes "#many\nhosts 1 2\nmany 1 2\n") ≡ false }
    ensures is_none { is_many_script [] ≡ false }
{}

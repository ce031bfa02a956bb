//! Worked lines of notes, computed from the definitions.
ghost use Rattle.std.specs.Prelude.{◌≡◌, ◌++◌, ℕ, codes, map, [], ◌∷◌, None, Some};
ghost use Rattle.ncp_transcript_two.specs.Ledgers.{ledger_of};
ghost use Rattle.ncp_transcript_two.specs.Transcript.{new_world};
ghost use Rattle.ncp_play_simulation.specs.Printing.{told, printed_from};
ghost use Rattle.ncp_play_world.specs.WorldRules.{world_traced};
ghost use Rattle.ncp_play_world.specs.Traces.{traces_of, position_of_line};
ghost use Rattle.ncp_play_world.specs.LedgerLines.{amount_words, ledger_words, ledger_line};
ghost use Rattle.ncp_play_world_lines.specs.declared.settling.ScriptNote.TheVariants.{Noted, Settled};
ghost use Rattle.ncp_play_world_lines.specs.WorldNotes.{world_note_lines};
ghost use Rattle.ncp_play_world.specs.Renderings.{lines_watching};
ghost use Rattle.ncp_model.specs.Amounts.{amount};
ghost use Rattle.ncp_play_world.specs.Examples.{coming_up, each_move};

/// The lines of two hosts that come up.
pub fn lines_of_coming_up()
    ensures { told world_traced (lines_watching world_note_lines ledger_of None)
        (record { hosts = new_world 1 2; traces = [] }) (map Noted coming_up)
        ≡ codes "1 a reset ok\n"
        ++ codes "2 a out host=2 link=0 bits=80\n  size=8 count=1\n  RST\n"
        ++ codes "3 a deliver 0 control 1\n4 a answer 0 rfnm\n"
        ++ codes "5 b out host=1 link=0 bits=80\n  size=8 count=1\n  RRP\n"
        ++ codes "6 b deliver 0 control 1\n7 b answer 0 rfnm\n8 b ask-receive ok\n" }
{}

/// The lines of possible and of impossible moves of a message.
pub fn lines_of_moves()
    ensures { printed_from world_traced (lines_watching world_note_lines ledger_of None) 22
        (record { hosts = new_world 1 2; traces = [] }) (map Noted each_move)
        ≡ codes "22 a lose 2 ok\n23 a answer 2 incomplete\n24 a dead 2 ok\n25 a answer 2 dead\n"
        ++ codes "26 a deliver 2 text admitted\n27 a deliver 2 nothing\n28 a lose 2 nothing\n"
        ++ codes "29 b dead 255 nothing\n30 b answer 0 nothing\n31 a out nothing\n32 b state refused NoEntry\n" }
{}

/// The line after the events of the word `settle`.
pub fn settling_is_printed_so()
    ensures line { printed_from world_traced (lines_watching world_note_lines ledger_of None) 8
        (record { hosts = new_world 1 2; traces = [] }) (Settled 6 ∷ [])
        ≡ codes "8 settle 6\n" }
{}

/// The mark of a word `settle` has the number of notes since the mark before. The word has a line
/// number of its own.
pub fn words_stand_among_notes_so()
    ensures marked { traces_of {N = ℕ} (7 ∷ 8 ∷ []) (record { behind = 1; many = 5 } ∷ [])
        ≡ Noted 7 ∷ Settled 5 ∷ Noted 8 ∷ [] }
    ensures note { position_of_line {N = ℕ} (Noted 7 ∷ Settled 5 ∷ Noted 8 ∷ []) 3 ≡ Some 1 }
    ensures word { position_of_line {N = ℕ} (Noted 7 ∷ Settled 5 ∷ Noted 8 ∷ []) 2 ≡ None }
    ensures beyond { position_of_line {N = ℕ} (Noted 7 ∷ Settled 5 ∷ Noted 8 ∷ []) 4 ≡ None }
{}

/// The line of a ledger, and of a missing one.
pub fn ledgers_are_printed_so()
    ensures some { ledger_words (Some (record {
      outstanding = amount 2 16;
      counters = amount 1 0;
      all = amount 0 0;
      text = amount 1 16;
      ret = amount 0 0;
    }))
        ≡ codes " out=2/16 counters=1/0 all=0/0 text=1/16 ret=0/0" }
    ensures each { ledger_words (Some (record {
      outstanding = amount 15 75;
      counters = amount 1 5;
      all = amount 2 10;
      text = amount 4 20;
      ret = amount 8 40;
    }))
        ≡ codes " out=15/75 counters=1/5 all=2/10 text=4/20 ret=8/40" }
    ensures large { amount_words (codes " all=") (amount 33553920 2199023255040) ≡ codes " all=33553920/2199023255040" }
    ensures none { ledger_words None ≡ codes " none" }
    ensures watched { ledger_line (Some None) ≡ codes "  ledger none\n" }
    ensures unwatched { ledger_line None ≡ [] }
{}

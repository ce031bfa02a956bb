//! The event of a script's next line.
ghost use Rattle.std.specs.Prelude.{◌≡◌, ◌||◌, ℕ, List, true, false, IfOk};
ghost use Rattle.ncp_play_reader.specs.LentScripts.{SameScript, ScriptBrings, ReadsOn, script_left, is_cut_off};
ghost use Rattle.ncp_play_notes.specs.Faults.{play_read_failed, play_write_failed};
ghost use Rattle.ncp_play_simulation.specs.NextEvents.{EventIn, AsksNext, may_go_on};

use crate::simulation::Simulation;
use ncp_play_notes::PlayFault;
use ncp_play_reader::{NextLine, Script, next_played};
use ncp_play_script::Words;
use ncp_play_stream::Source;
use std::alloc::Global;

// Parses the event of line `number`.
fn event_in<C: Simulation>(
    alloc: Global,
    first: &C::First,
    number: u32,
    text: &[u8],
) -> Result<C::Event, PlayFault>
    ensures { EventIn C.rules first.now number text.now result }
{
    match C::event_of(alloc, first, &mut Words::new(text)) {
        Ok(Some(event)) => Ok(event),
        Ok(None) => Err(PlayFault::BadLine(number)),
        Err(_) => Err(PlayFault::OutOfMemory),
    }
}

/// Reads the next line that is not skipped. Returns its event and whether an LF ended it, or `None`
/// if there is no such line.
pub(crate) fn next_event<C: Simulation, R: Source>(
    alloc: Global,
    first: &C::First,
    script: &mut Script<'_, R>,
) -> Result<Option<(C::Event, bool)>, PlayFault>
    ensures output { (bytes : List ℕ)
        → ScriptBrings R.Source script.old bytes
        → AsksNext C.rules first.now script.old.lines.now.number bytes result script.new.lines.now (script_left R.Source script.new) }
    ensures read_measure { IfOk result (λ next. may_go_on next ≡ true → ReadsOn R.Source script.old script.new) }
    ensures mark { is_cut_off R.Source script.new ≡ (is_cut_off R.Source script.old || play_read_failed result) }
    ensures unblamed { play_write_failed result ≡ false }
    ensures same_script { SameScript script.old script.new }
{
    match next_played(script.lines, script.source) {
        Ok(NextLine::Played { number, ended }) => {
            match event_in::<C>(alloc, first, number, script.lines.line.text(ended)) {
                Ok(event) => Ok(Some((event, ended))),
                Err(fault) => Err(fault),
            }
        }
        Ok(NextLine::TooLong(number)) => Err(PlayFault::LineTooLong(number)),
        Ok(NextLine::Over) => Ok(None),
        Err(_) => Err(PlayFault::ReadFailed),
    }
}

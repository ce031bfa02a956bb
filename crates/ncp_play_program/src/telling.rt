//! The explanation after the line of a fault: what is wrong, and where.
ghost use Rattle.std.specs.Prelude.{◌≡◌, ◌||◌, ◌++◌, ℕ, List, Some, is_err};

use crate::input_tail::InputTail;
use crate::terminal::push_spelled;
use ncp_play_audit::{RULES, rule_meaning};
use ncp_play_command_line::Order;
use ncp_play_explain::{
    MESSAGE_WORDS, Meaning, NAMES, Player, REPORT_WORDS, SCRIPT_WORDS, meaning, nearest,
    word_meaning, wrong_first_line, wrong_header, wrong_line,
};
use ncp_play_files::FileFault;
use ncp_play_follow::{ENDS, end_meaning};
use ncp_play_notes::PlayFault;
use std::alloc::{AllocError, Global};

// The number of characters of a line that are shown.
const SHOWN: usize = 100;

// The kind of scripts that an order plays.
fn player_of(order: Order) -> Player {
    match order {
        Order::Host => Player::Host,
        _ => Player::World,
    }
}

// The first characters of a line, as any terminal can show them.
fn shown(alloc: Global, line: &[u8]) -> Result<String, AllocError> {
    let mut text = String::new(alloc);
    for byte in line.iter().take(SHOWN) {
        push_spelled(&mut text, *byte)?;
    }
    if line.len() > SHOWN {
        text.push_str(" ..")?;
    }
    Ok(text)
}

// A number in groups of three digits.
fn grouped(alloc: Global, number: u64) -> Result<String, AllocError> {
    let digits = format!(in alloc; "{number}")?;
    let mut text = String::new(alloc);
    let mut left = digits.len();
    for digit in digits.chars() {
        text.push(digit)?;
        left = left.saturating_sub(1);
        if left > 0 && left % 3 == 0 {
            text.push(',')?;
        }
    }
    Ok(text)
}

// The meaning of a name; each name has one.
fn meaning_of(name: &str) -> &'static str {
    meaning(name).unwrap_or("")
}

// A text on a line of its own, indented.
fn indented(alloc: Global, text: &str) -> Result<String, AllocError> {
    format!(in alloc; "  {text}\n")
}

// A line as it is shown, followed by what is wrong with it, each indented.
fn shown_wrong(alloc: Global, line: &[u8], wrong: &str) -> Result<String, AllocError> {
    let text = shown(alloc, line)?;
    format!(in alloc; "  {text}\n  {wrong}\n")
}

// What is wrong with a line that has no directive.
fn of_line(
    alloc: Global,
    order: Order,
    kept: &InputTail,
    number: u32,
) -> Result<String, AllocError> {
    let line = kept.line(number)?;
    let wrong = wrong_line(alloc, player_of(order), kept.first(), line.as_slice())?;
    shown_wrong(alloc, line.as_slice(), wrong.as_str())
}

// What is wrong with the first line.
fn of_first_line(alloc: Global, order: Order, kept: &InputTail) -> Result<String, AllocError> {
    let first = kept.first();
    let wrong = wrong_first_line(alloc, player_of(order), first)?;
    if first.is_empty() {
        return indented(alloc, wrong.as_str());
    }
    shown_wrong(alloc, first, wrong.as_str())
}

// The position of a fault in a message file, if known.
fn place_in(alloc: Global, kept: &InputTail) -> Result<Option<String>, AllocError> {
    let Some(place) = kept.place() else {
        return Ok(None);
    };
    let bytes = grouped(alloc, place.bytes)?;
    if place.records == 0 {
        return Ok(Some(format!(in alloc; "after the header, at byte {bytes}")?));
    }
    let records = grouped(alloc, u64::from(place.records))?;
    Ok(Some(format!(in alloc; "after record {records}, at byte {bytes}")?))
}

// What is wrong with a message file after `feed`. Its offsets include the script before it.
fn of_feed(alloc: Global, kept: &InputTail, meant: &str) -> Result<String, AllocError> {
    match place_in(alloc, kept)? {
        Some(place) => format!(in alloc;
            "  in the message file after 'feed', {place} of the script: {meant}\n"
        ),
        None => format!(in alloc; "  in the message file after 'feed': {meant}\n"),
    }
}

// Whether an order reads only message files of version 2.
fn wants_hosts(order: Order) -> bool {
    matches!(order, Order::Audit { .. } | Order::Follow { .. })
}

// Whether bytes begin like a message file of version 1.
fn is_plain(head: &[u8]) -> bool {
    head.starts_with(b"NCPH") || head.starts_with(b"NCPI")
}

// What is wrong with the header of a message file.
fn of_header(alloc: Global, order: Order, kept: &InputTail) -> Result<String, AllocError> {
    if wants_hosts(order) && is_plain(kept.first()) {
        return format!(in alloc;
            "  this is a file of version 1, which names no host: 'ncp convert --at H' makes one of version 2\n"
        );
    }
    let wrong = wrong_header(alloc, kept.first())?;
    indented(alloc, wrong.as_str())
}

// What is wrong with a message file.
fn of_file(
    alloc: Global,
    order: Order,
    kept: &InputTail,
    fault: FileFault,
) -> Result<String, AllocError> {
    let meant = meaning_of(fault.name());
    if order == Order::Host {
        return of_feed(alloc, kept, meant);
    }
    if fault == FileFault::BadHeader {
        return of_header(alloc, order, kept);
    }
    if fault == FileFault::WriteFailed {
        return indented(alloc, meant);
    }
    match place_in(alloc, kept)? {
        Some(place) => format!(in alloc; "  {place}: {meant}\n"),
        None => indented(alloc, meant),
    }
}

/// The context of a fault: the order, and the stored part of the input.
#[derive(Drop)]
pub(crate) struct Context<'a> {
    pub order: Order,
    pub kept: &'a InputTail,
}

/// The explanation after the line of a fault, each line indented.
pub(crate) fn explained(
    alloc: Global,
    context: &Context<'_>,
    fault: PlayFault,
) -> Result<String, AllocError> {
    let (order, kept) = (context.order, context.kept);
    match fault {
        PlayFault::BadLine(number) => of_line(alloc, order, kept, number),
        PlayFault::BadHosts => of_first_line(alloc, order, kept),
        PlayFault::Feed(fault) => of_file(alloc, order, kept, fault),
        other => indented(alloc, meaning_of(other.name())),
    }
}

// Adds the names of a table that are missing.
fn add_names(names: &mut Vec<&'static str>, table: &'static [Meaning]) -> Result<(), AllocError> {
    for (name, _) in table {
        if !names.as_slice().contains(name) {
            names.push(*name)?;
        }
    }
    Ok(())
}

// Adds the words of lines. Two tables in one function would be more than the prover reads.
fn add_message_words(names: &mut Vec<&'static str>) -> Result<(), AllocError> {
    add_names(names, MESSAGE_WORDS)
}

fn add_report_words(names: &mut Vec<&'static str>) -> Result<(), AllocError> {
    add_names(names, REPORT_WORDS)
}

fn add_script_words(names: &mut Vec<&'static str>) -> Result<(), AllocError> {
    add_names(names, SCRIPT_WORDS)
}

// All names and words, in the order of their tables, each once.
fn all_names(alloc: Global) -> Result<Vec<&'static str>, AllocError> {
    let mut names = Vec::new(alloc);
    for table in &[NAMES, RULES, ENDS] {
        add_names(&mut names, *table)?;
    }
    add_message_words(&mut names)?;
    add_report_words(&mut names)?;
    add_script_words(&mut names)?;
    Ok(names)
}

// Names, each after a space.
fn listed(alloc: Global, names: &[&str]) -> Result<String, AllocError> {
    let mut text = String::new(alloc);
    for name in names {
        text.push_str(" ")?;
        text.push_str(name)?;
    }
    Ok(text)
}

// The suggestion of the name that was meant, if one is near.
fn hint(alloc: Global, name: &str, names: &[&str]) -> Result<String, AllocError> {
    match nearest(name, names) {
        Some(near) => format!(in alloc; "; did you mean '{near}'?"),
        None => Ok(String::new(alloc)),
    }
}

// The message about an unknown name.
fn unknown(alloc: Global, name: &str) -> Result<String, AllocError> {
    let word = shown(alloc, name.as_bytes())?;
    let names = all_names(alloc)?;
    let near = hint(alloc, name, names.as_slice())?;
    let all = listed(alloc, names.as_slice())?;
    format!(in alloc;
        "'{word}' is no name of a fault, a refusal, a rule or an end, and no word of a line{near}\nThe names are{all}\n"
    )
}

// All meanings of a name, each on a line of its own; empty for an unknown name.
fn meanings(alloc: Global, name: &str) -> Result<String, AllocError> {
    let mut text = String::new(alloc);
    for meant in &[
        meaning(name),
        rule_meaning(name),
        end_meaning(name),
        word_meaning(name),
    ] {
        if let Some(meant) = meant {
            text.push_str(indented(alloc, meant)?.as_str())?;
        }
    }
    Ok(text)
}

// A word without the value that may follow it, as in `late=3`.
fn without_value(word: &str) -> &str {
    word.split('=').next().unwrap_or(word)
}

/// The explanation of a name, and whether it is known.
pub(crate) fn explanation(alloc: Global, name: &str) -> Result<(String, bool), AllocError> {
    let word = without_value(name);
    let meant = meanings(alloc, word)?;
    if meant.is_empty() {
        return Ok((unknown(alloc, name)?, false));
    }
    Ok((format!(in alloc; "{word}\n{meant}")?, true))
}

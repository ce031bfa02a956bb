//! The explanation of a line agrees with the readers of scripts: on the words that name calls and
//! moves, on the words after each, and on the names of faults.

use super::names::names;
use ncp_leader::MessageFault;
use ncp_model::CallFault;
use ncp_play_explain::{Player, meaning, verbs, wrong_line};
use ncp_play_files::FileFault;
use ncp_play_notes::PlayFault;
use ncp_play_script::{TwoHosts, Words, host_line};
use ncp_play_world_lines::{is_settle, many_line, world_line};
use std::alloc::{AllocError, Global};
use std::process::Abort;
use std::test::Fail;

// The explanation of a line whose only possible mistake is its hosts.
const LAST_RESORT: &str = "a host that it names is none of the first line's";

// A kind of script. It determines the words at the front of a line, and those after the name of a
// call or of a subnet move.
#[derive(Clone, Copy, Drop)]
enum Script {
    OneHost,
    Sides,
    Numbers,
}

// A call or a move, and the words after it.
type Row = (&'static str, &'static [&'static str]);

// Calls, each with the greatest numbers that it can have.
const CALLS: &[Row] = &[
    ("reset", &[]),
    ("wake", &[]),
    ("phase", &[]),
    ("echoed", &[]),
    ("errors", &[]),
    ("counts", &[]),
    ("echo", &["255"]),
    ("interrupt", &["4294967295", "4294967295"]),
    ("close", &["4294967295", "4294967295"]),
    ("state", &["4294967295", "4294967295"]),
    (
        "ask-send",
        &["4294967295", "4294967295", "255", "4294967295"],
    ),
    ("ask-receive", &["4294967295", "4294967295", "4294967295"]),
    ("give", &["4294967295", "4294967295", "12", "abc0"]),
    ("take", &["4294967295", "4294967295", "4294967295"]),
    (
        "allocate",
        &["4294967295", "4294967295", "65535", "4294967295"],
    ),
    ("call-back", &["4294967295", "4294967295", "255", "255"]),
];

const PLAIN: &[Row] = &[("ignored", &[]), ("out", &[])];

const OF_ONE_HOST: &[Row] = &[("in", &["12", "abc0"]), ("feed", &[])];

const OF_THE_SUBNET: &[Row] = &[
    ("deliver", &["255"]),
    ("lose", &["255"]),
    ("dead", &["255"]),
    ("answer", &["255"]),
];

// The word that is a line by itself.
const SETTLE: &str = "settle";

// The word whose only argument may be omitted.
const RESTART: &str = "restart";

// The number of words in the four tables, with the two that are in none.
const ALL: usize = 26;

// Whether the reader of these scripts accepts a line. Without a contract.
fn is_taken(alloc: Global, script: Script, line: &[u8]) -> Result<bool, AllocError> {
    let mut words = Words::new(line);
    match script {
        Script::OneHost => Ok(host_line(alloc, &mut words, &[2])?.is_some()),
        Script::Sides => Ok(world_line(alloc, TwoHosts { a: 1, b: 2 }, &mut words)?.is_some()),
        Script::Numbers => Ok(many_line(alloc, &[1, 2, 3], &mut words)?.is_some()),
    }
}

// Whether nothing is found wrong with a line.
fn is_well(alloc: Global, script: Script, line: &[u8]) -> Result<bool, AllocError> {
    let told = match script {
        Script::OneHost => wrong_line(alloc, Player::Host, b"host 1 2", line)?,
        Script::Sides => wrong_line(alloc, Player::World, b"hosts 1 2", line)?,
        Script::Numbers => wrong_line(alloc, Player::World, b"many 1 2 3", line)?,
    };
    Ok(told.as_str() == LAST_RESORT || told.starts_with("'feed' needs "))
}

// Words, one space apart.
fn spaced(alloc: Global, words: &[&str]) -> Result<String, AllocError> {
    words.join(alloc, " ")
}

// A line of these words.
fn line_of(alloc: Global, front: &[&str], behind: &[&str]) -> Result<String, AllocError> {
    let mut line = spaced(alloc, front)?;
    for word in behind {
        line.push_str(" ")?;
        line.push_str(word)?;
    }
    Ok(line)
}

// Whether both agree on a line, and accept it exactly if `wanted`.
fn agree_on(
    alloc: Global,
    script: Script,
    front: &[&str],
    behind: &[&str],
    wanted: bool,
) -> Result<bool, AllocError> {
    let line = line_of(alloc, front, behind)?;
    let taken = is_taken(alloc, script, line.as_bytes())?;
    let well = is_well(alloc, script, line.as_bytes())?;
    Ok(taken == wanted && well == wanted)
}

// The same words with the last one ten times as great: a number out of range, or more digits than
// the bits have.
fn with_greater(alloc: Global, behind: &[&str]) -> Result<String, AllocError> {
    let mut text = spaced(alloc, behind)?;
    text.push_str("0")?;
    Ok(text)
}

// Whether both accept a valid line, and refuse it with one word more, with one less, and with a
// greater number.
fn agree(
    alloc: Global,
    script: Script,
    front: &[&str],
    behind: &[&str],
) -> Result<bool, AllocError> {
    let whole = agree_on(alloc, script, front, behind, true)?;
    let longer = line_of(alloc, front, behind)?;
    let more = agree_on(alloc, script, &[longer.as_str()], &["7"], false)?;
    if behind.is_empty() {
        return Ok(whole && more);
    }
    let fewer = behind.get(..behind.len().saturating_sub(1)).unwrap_or(&[]);
    let less = agree_on(alloc, script, front, fewer, false)?;
    let greater = with_greater(alloc, behind)?;
    let much = agree_on(alloc, script, front, &[greater.as_str()], false)?;
    Ok(whole && more && less && much)
}

// Fails if the readers and the explanations disagree on any of these words.
fn expect(
    rt: &impl Abort,
    alloc: Global,
    script: Script,
    front: &[&str],
    peer: &[&str],
    rows: &[Row],
) -> Result<(), Fail> {
    for (verb, behind) in rows {
        let named = line_of(alloc, front, &[verb])?;
        let line = line_of(alloc, &[named.as_str()], peer)?;
        // A line of a one-host script has no words at its front.
        let first = line.as_str().strip_prefix(" ").unwrap_or(line.as_str());
        assert!(rt; agree(alloc, script, &[first], behind)?, "{first}");
    }
    Ok(())
}

// Kinds of scripts, the words at the front of a line, those after its first word, and a table of
// words.
const LINES: &[(Script, &[&str], &[&str], &[Row])] = &[
    (Script::OneHost, &[], &["255"], CALLS),
    (Script::OneHost, &[], &[], PLAIN),
    (Script::OneHost, &[], &[], OF_ONE_HOST),
    (Script::Sides, &["b"], &[], CALLS),
    (Script::Sides, &["b"], &[], PLAIN),
    (Script::Sides, &["a"], &[], OF_THE_SUBNET),
    (Script::Numbers, &["3"], &["2"], CALLS),
    (Script::Numbers, &["3"], &[], PLAIN),
    (Script::Numbers, &["1"], &["3"], OF_THE_SUBNET),
];

#[test]
fn lines_are_read_so(rt: HostRuntime) -> Result<(), Fail> {
    for (script, front, peer, rows) in LINES {
        expect(&rt, rt.alloc(), *script, front, peer, rows)?;
    }
    Ok(())
}

#[test]
fn settle_is_read_alone(rt: HostRuntime) -> Result<(), Fail> {
    assert!(rt; is_settle(&Words::new(SETTLE.as_bytes())));
    for (script, line) in [
        (Script::Sides, "settle 7"),
        (Script::Numbers, "settle 7"),
        (Script::Sides, "a settle"),
        (Script::Numbers, "1 settle"),
    ] {
        assert!(rt; !is_settle(&Words::new(line.as_bytes())), "{line}");
        assert!(rt;
            agree_on(rt.alloc(), script, &[line], &[], false)?,
            "{line}"
        );
    }
    Ok(())
}

#[test]
fn restart_is_read_with_a_peer_or_alone(rt: HostRuntime) -> Result<(), Fail> {
    assert!(rt; is_taken(rt.alloc(), Script::OneHost, RESTART.as_bytes())?);
    for (line, wanted) in [
        ("restart 2", true),
        ("restart 2 2", false),
        ("restart 256", false),
        ("restart x", false),
        ("restart ", false),
    ] {
        assert!(rt;
            agree_on(rt.alloc(), Script::OneHost, &[line], &[], wanted)?,
            "{line}"
        );
    }
    for script in [Script::Sides, Script::Numbers] {
        assert!(rt; agree_on(rt.alloc(), script, &[RESTART], &[], false)?);
    }
    Ok(())
}

// Whether a word is in these rows.
fn is_in(rows: &[Row], word: &str) -> bool {
    rows.iter().any(|row| row.0 == word)
}

#[test]
fn no_other_word_is_a_verb(rt: HostRuntime) -> Result<(), Fail> {
    let words = verbs(rt.alloc())?;
    assert!(rt; words.len() == ALL);
    for word in words.iter() {
        let known = is_in(CALLS, word)
            || is_in(PLAIN, word)
            || is_in(OF_ONE_HOST, word)
            || is_in(OF_THE_SUBNET, word)
            || *word == SETTLE
            || *word == RESTART;
        assert!(rt; known, "{word}");
    }
    Ok(())
}

// The names of all faults, and of the refusals of calls.
const FILES: &[FileFault] = &[
    FileFault::BadHeader,
    FileFault::Truncated,
    FileFault::TooLong,
    FileFault::SpareNotZero,
    FileFault::ReadFailed,
    FileFault::WriteFailed,
    FileFault::BadDirection,
    FileFault::Mixed,
];

const SCRIPTS: &[PlayFault] = &[
    PlayFault::BadLine(1),
    PlayFault::LineTooLong(1),
    PlayFault::BadHosts,
    PlayFault::OutOfMemory,
];

const REFUSALS: &[CallFault] = &[
    CallFault::UnknownPeer,
    CallFault::NotUp,
    CallFault::BadSex,
    CallFault::BadSize,
    CallFault::BadRoom,
    CallFault::NoEntry,
    CallFault::AlreadyAsked,
    CallFault::Closing,
    CallFault::NotOpen,
    CallFault::WrongEnd,
    CallFault::NotWhole,
    CallFault::Busy,
    CallFault::NoRoom,
    CallFault::TooMuch,
    CallFault::TableFull,
    CallFault::QueueFull,
];

const MESSAGES: &[MessageFault] = &[
    MessageFault::ShortPrefix,
    MessageFault::M1NotZero,
    MessageFault::SizeZero,
    MessageFault::M2NotZero,
    MessageFault::TextMissing,
];

// Fails if a name has no meaning.
fn expect_explained(rt: &impl Abort, name: &str) {
    assert!(rt; meaning(name).is_some(), "{name}");
}

#[test]
fn each_name_that_is_printed_is_explained(rt: HostRuntime) {
    for fault in FILES {
        expect_explained(&rt, fault.name());
    }
    for fault in SCRIPTS {
        expect_explained(&rt, fault.name());
    }
    for fault in REFUSALS {
        expect_explained(&rt, fault.name());
    }
    for fault in MESSAGES {
        expect_explained(&rt, fault.name());
    }
    let count = FILES.len() + SCRIPTS.len() + REFUSALS.len() + MESSAGES.len();
    assert!(rt; names().len() == count);
}

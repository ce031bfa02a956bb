//! The command line: its orders, its faults, and its help.

use ncp_play_command_line::{Order, order, request};
use std::alloc::Global;
use std::process::Abort;
use std::test::Fail;

// The output of `--help`.
const HELP: &str = "Reads the messages of an ARPANET host, and plays hosts

Usage: ncp [COMMAND]

Commands:
  show     Shows each message of a message file
  check    Counts the messages of a message file, and reports whether all are well formed
  count    Counts the messages of each kind, and the commands of each name
  convert  Converts a message file of one version into the other
  audit    Reports which rules the messages of a message file break, and which host did
  follow   Shows the connections of a message file, and what was sent on each
  host     Plays a script of one host
  world    Plays a script of two to eight hosts and the subnet between them
  record   Plays a script of two to eight hosts, and writes its messages as a message file
  explain  Explains the name of a fault, of a refusal or of a rule, or a word of a line
  help     Print this message or the help of the given subcommand(s)

Options:
  -h, --help     Print help
  -V, --version  Print version

Without a command it is 'ncp show'.

Example:
  ncp world examples/one_connection.script

Statuses:
  0  all is good
  1  'check' or 'audit' says no, or a call of a script was refused, or 'explain' does not know a name, or 'follow' a number
  2  a fault, reported on standard error

The formats of files, scripts and lines are in docs/FORMATS.md and in ncp(1).
'ncp explain NAME' prints what a fault, a refusal, a rule or a word of a line means.
";

// The output of `convert --help`.
const CONVERT_HELP: &str = "Converts a message file of one version into the other

Usage: ncp convert --at <H> [FILE]

Arguments:
  [FILE]  Input file: standard input is read if no file is named, or if it is -

Options:
      --at <H>  The number of the host whose interface the messages cross
  -h, --help    Print help

Example:
  ncp convert --at 7 examples/first.ncp > placed.ncp

Statuses:
  0  the whole file is written
  2  the file has a fault, or a record of another direction or host, or it could not be read or written

A message file begins with the letters NCPH, NCPI or NCPJ: docs/FORMATS.md, and ncp(1).
";

// The end of a fault's text.
const USAGE: &str = "Usage: ncp [COMMAND]\n\nFor more information, try '--help'.\n";

// Compares the status and the first part of the text for words that are no order.
fn expect_told(
    rt: &impl Abort,
    alloc: Global,
    words: &[&str],
    code: i32,
    text: &str,
) -> Result<String, Fail> {
    let Err(error) = order(alloc, words) else {
        return Err("it is an order".into());
    };
    let told = format!(in alloc; "{error}")?;
    assert!(rt; error.exit_code() == code && told.as_str().starts_with(text));
    Ok(told)
}

// Words, and the first part of the text that refuses them.
type Refused<'a> = (&'a [&'a str], &'a str);

// The name of the order of these words.
fn name_of(alloc: Global, words: &[&str]) -> Option<&'static str> {
    match order(alloc, words) {
        Ok(Order::Show) => Some("show"),
        Ok(Order::Check) => Some("check"),
        Ok(Order::Count) => Some("count"),
        Ok(Order::Convert(_)) => Some("convert"),
        Ok(Order::Audit { part: false, .. }) => Some("audit"),
        Ok(Order::Audit { part: true, .. }) => Some("audit of a part"),
        Ok(
            Order::Follow {
                bytes: Some(_),
                raw: true,
                ..
            },
        ) => Some("follow one raw"),
        Ok(Order::Follow { bytes: Some(_), .. }) => Some("follow one"),
        Ok(Order::Follow { letters: true, .. }) => Some("follow letters"),
        Ok(Order::Follow { part: false, .. }) => Some("follow"),
        Ok(Order::Follow { part: true, .. }) => Some("follow a part"),
        Ok(Order::Host) => Some("host"),
        Ok(Order::World) => Some("world"),
        Ok(Order::Record) => Some("record"),
        Ok(Order::Explain) => Some("explain"),
        Err(_) => None,
    }
}

// The host of a conversion.
fn host_of(alloc: Global, words: &[&str]) -> Option<u8> {
    match order(alloc, words) {
        Ok(Order::Convert(at)) => Some(at),
        _ => None,
    }
}

#[test]
fn reads_orders(rt: HostRuntime) {
    // Words, the name of their order, and the host of a conversion.
    const ROWS: &[(&[&str], &str, Option<u8>)] = &[
        (&["ncp"], "show", None),
        (&["ncp", "show"], "show", None),
        (&["ncp", "check"], "check", None),
        (&["ncp", "count"], "count", None),
        (&["ncp", "audit"], "audit", None),
        (&["ncp", "audit", "--standard"], "audit", None),
        (
            &["ncp", "audit", "first.ncp", "--part"],
            "audit of a part",
            None,
        ),
        (&["ncp", "follow"], "follow", None),
        (&["ncp", "follow", "--part"], "follow a part", None),
        (&["ncp", "follow", "--letters"], "follow letters", None),
        (&["ncp", "follow", "--raw"], "follow", None),
        (
            &["ncp", "follow", "--raw", "--bytes", "1"],
            "follow one raw",
            None,
        ),
        (&["ncp", "follow", "--bytes", "1"], "follow one", None),
        (
            &["ncp", "follow", "--bytes=4096", "--part"],
            "follow one",
            None,
        ),
        (&["ncp", "host"], "host", None),
        (&["ncp", "world"], "world", None),
        (&["ncp", "record"], "record", None),
        (&["ncp", "explain", "BadLine"], "explain", None),
        (&["ncp", "show", "first.ncp"], "show", None),
        (&["ncp", "world", "-"], "world", None),
        (&["ncp", "convert", "--at", "7"], "convert", Some(7)),
        (&["ncp", "convert", "--at=7"], "convert", Some(7)),
        (&["ncp", "convert", "--at", "0"], "convert", Some(0)),
        (&["ncp", "convert", "--at", "255"], "convert", Some(255)),
        (&["ncp", "convert", "--at", "007"], "convert", Some(7)),
    ];
    for (words, name, at) in ROWS {
        assert!(rt; name_of(rt.alloc(), words) == Some(*name) && host_of(rt.alloc(), words) == *at);
    }
}

#[test]
fn reads_the_word_after_a_subcommand(rt: HostRuntime) -> Result<(), Fail> {
    const ROWS: &[(&[&str], Option<&str>)] = &[
        (&["ncp"], None),
        (&["ncp", "show"], None),
        (&["ncp", "show", "-"], Some("-")),
        (&["ncp", "world", "first.script"], Some("first.script")),
        (
            &["ncp", "convert", "--at", "7", "first.ncp"],
            Some("first.ncp"),
        ),
        (
            &["ncp", "convert", "first.ncp", "--at=7"],
            Some("first.ncp"),
        ),
        (&["ncp", "explain", "Busy"], Some("Busy")),
        (&["ncp", "show", "--", "--at"], Some("--at")),
    ];
    for (words, word) in ROWS {
        assert!(rt; request(rt.alloc(), words)?.word == *word);
    }
    Ok(())
}

#[test]
fn refuses_other_words(rt: HostRuntime) -> Result<(), Fail> {
    const ROWS: &[Refused<'static>] = &[
        // A missing host number, or one out of range.
        (
            &["ncp", "convert"],
            "error: the following required arguments were not provided:\n  --at <H>\n",
        ),
        (
            &["ncp", "convert", "--at"],
            "error: a value is required for '--at <H>' but none was supplied",
        ),
        (
            &["ncp", "convert", "--at", "256"],
            "error: invalid value '256' for '--at <H>'",
        ),
        (
            &["ncp", "convert", "--at", "-1"],
            "error: unexpected argument '-1' found",
        ),
        (
            &["ncp", "convert", "--at=-1"],
            "error: invalid value '-1' for '--at <H>'",
        ),
        (
            &["ncp", "convert", "--at", "b"],
            "error: invalid value 'b' for '--at <H>'",
        ),
        (
            &["ncp", "convert", "--at="],
            "error: invalid value '' for '--at <H>'",
        ),
        // A missing connection number, or one out of range.
        (
            &["ncp", "follow", "--bytes", "0"],
            "error: invalid value '0' for '--bytes <N>'",
        ),
        (
            &["ncp", "follow", "--bytes", "4097"],
            "error: invalid value '4097' for '--bytes <N>'",
        ),
        (
            &["ncp", "follow", "--bytes", "first.ncp"],
            "error: invalid value 'first.ncp' for '--bytes <N>'",
        ),
        // A host given twice, or to another subcommand, and a word too many.
        (
            &["ncp", "convert", "--at", "7", "--at", "7"],
            "error: the argument '--at <H>' cannot be used multiple times",
        ),
        (
            &["ncp", "show", "--at", "7"],
            "error: unexpected argument '--at' found",
        ),
        (
            &["ncp", "--at", "7", "convert"],
            "error: unexpected argument '--at' found",
        ),
        (
            &["ncp", "convert", "--at", "7", "capture.ncp", "more.ncp"],
            "error: unexpected argument 'more.ncp' found",
        ),
        (
            &["ncp", "check", "a", "b", "c"],
            "error: unexpected argument 'b' found",
        ),
    ];
    for (words, text) in ROWS {
        expect_told(&rt, rt.alloc(), words, 2, text)?;
    }
    Ok(())
}

#[test]
fn tells_the_version_and_the_help_of_convert(rt: HostRuntime) -> Result<(), Fail> {
    let alloc = rt.alloc();
    for word in ["--version", "-V"] {
        let told = expect_told(&rt, alloc, &["ncp", word], 0, "ncp 1.1.0\n")?;
        assert!(rt; told.len() == 10);
    }
    let help = expect_told(&rt, alloc, &["ncp", "convert", "--help"], 0, CONVERT_HELP)?;
    assert!(rt; help.len() == CONVERT_HELP.len());
    Ok(())
}

// Compares the text for invalid words, which ends with the usage.
fn expect_usage(rt: &impl Abort, alloc: Global, word: &str, text: &str) -> Result<(), Fail> {
    let told = expect_told(rt, alloc, &["ncp", word], 2, text)?;
    assert!(rt; told.as_str().ends_with(USAGE));
    Ok(())
}

#[test]
fn reads_the_command_line(rt: HostRuntime) -> Result<(), Fail> {
    let alloc = rt.alloc();
    let help = expect_told(&rt, alloc, &["ncp", "--help"], 0, HELP)?;
    assert!(rt; help.len() == HELP.len());
    expect_usage(&rt, alloc, "play", "error: unrecognized subcommand 'play'")?;
    expect_usage(
        &rt,
        alloc,
        "--loud",
        "error: unexpected argument '--loud' found",
    )
}

// ---- memory

#[test]
fn has_memory_for_orders(rt: HostRuntime) {
    for _ in 0..300 {
        assert!(rt; matches!(order(rt.alloc(), &["ncp", "check"]), Ok(Order::Check)));
    }
}

#[test]
fn has_memory_for_many_words(rt: HostRuntime) -> Result<(), Fail> {
    let words = ["ncp"; 1000];
    for count in [3, 4, 5, 8, 100, 1000] {
        expect_told(
            &rt,
            rt.alloc(),
            &words[..count],
            2,
            "error: unrecognized subcommand 'ncp'",
        )?;
    }
    Ok(())
}

#[test]
fn has_memory_for_long_words(rt: HostRuntime) -> Result<(), Fail> {
    let mut long = String::new(rt.alloc());
    for _ in 0..100_000 {
        long.push('a')?;
    }
    expect_told(
        &rt,
        rt.alloc(),
        &["ncp", long.as_str()],
        2,
        "error: unrecognized subcommand 'aaaa",
    )?;
    Ok(())
}

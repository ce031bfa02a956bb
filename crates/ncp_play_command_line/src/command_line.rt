//! The command line of the program `ncp`.
ghost use Rattle.std.specs.Prelude.{◌≡◌, IfOk, IsOkAnd, map, option_map, false};
ghost use Rattle.ncp_play_command_line.specs.CommandLine.{auditing, auditing_coverage, auditing_rules, bare_program, bytes_asked, bytes_in, converting, explaining, flag_asked, following, flag_in, order_named, number_given, of_files, of_players, of_readers, of_recorders, order_in, order_of, report_in, program, reading, file_named, following_bytes, following_lines, word_in, word_given};
ghost use Rattle.clap.specs.Faults.{fault_of};
ghost use Rattle.clap.specs.Kinds.{FailsBy};
ghost use Rattle.clap.specs.Simple.{app_of, new_app, shape_of, subcommand_rows_of, with_subcommand};
ghost use Rattle.clap.specs.Matches.{found_of};
ghost use Rattle.clap.specs.declared.builder.command.Command.TheViews.{out-Command as fields_of};
ghost use Rattle.clap.specs.Walk.{first_of, rows_of, rule_of};

use crate::help::{
    AUDITED, CHECKED, CONVERTED, COUNTED, EXPLAINED, FOLLOWED, PLAYED, PLAYED_HOST, PROGRAM_HELP,
    RECORDED, SHOWN,
};
use crate::orders::{Invocation, Order};
use crate::report::Report;
use clap::builder::ValueParser;
use clap::{Arg, ArgAction, ArgMatches, Command, Error};
use std::alloc::{AllocError, Global};
use std::convert::AsStr;

// The program's name, also in the output of `--version`.
const PROGRAM: &str = "ncp";

const VERSION: &str = "1.1.0";

// The names of subcommands, of the arguments of `convert`, `audit` and `follow`, and of the word
// after a subcommand.
const SHOW: &str = "show";

const CHECK: &str = "check";

const COUNT: &str = "count";

const CONVERT: &str = "convert";

const AUDIT: &str = "audit";

const FOLLOW: &str = "follow";

const HOST: &str = "host";

const WORLD: &str = "world";

const RECORD: &str = "record";

const EXPLAIN: &str = "explain";

const AT: &str = "at";

const PART: &str = "part";

const STANDARD: &str = "standard";

const COVERAGE: &str = "coverage";

const STRICT: &str = "strict";

const LETTERS: &str = "letters";

const BYTES: &str = "bytes";

const RAW: &str = "raw";

/// The greatest number of `--bytes`: that of the last connection that `follow` reports.
pub const MOST_CONNECTIONS: u16 = 4096;

// The help of `--part`.
const PART_HELP: &str = "The capture may begin in the middle";

const WORD: &str = "word";

// The number of `--at`. It is never the 0 for none, as clap requires the argument.
fn number_in(given: &ArgMatches) -> u8
    ensures { result ≡ number_given (rows_of (found_of given.now)) }
{
    given.get_one::<u8>(AT).unwrap_or(0)
}

// The number of `--bytes`, if given.
fn bytes_in(given: &ArgMatches) -> Option<u16>
    ensures { result ≡ bytes_in (rows_of (found_of given.now)) }
{
    given.get_one::<u16>(BYTES)
}

// Whether an argument without a value is given.
fn flag_in(given: &ArgMatches, id: &'static str) -> bool
    ensures { result ≡ flag_in id.now (rows_of (found_of given.now)) }
{
    given.get_one::<bool>(id).unwrap_or(false)
}

// What an audit with these arguments reports.
fn report_in(given: &ArgMatches) -> Report
    ensures { result ≡ report_in (rows_of (found_of given.now)) }
{
    if flag_in(given, STRICT) {
        Report::Strict
    } else if flag_in(given, COVERAGE) {
        Report::Coverage
    } else {
        Report::Findings
    }
}

// The order of a subcommand with these arguments.
fn order_named(name: &str, given: &ArgMatches) -> Order
    ensures { result ≡ order_named name.now (rows_of (found_of given.now)) }
{
    match name {
        _ if name == CHECK => Order::Check,
        _ if name == COUNT => Order::Count,
        _ if name == CONVERT => Order::Convert(number_in(given)),
        _ if name == AUDIT => Order::Audit {
            part: flag_in(given, PART),
            standard: flag_in(given, STANDARD),
            report: report_in(given),
        },
        _ if name == FOLLOW => Order::Follow {
            part: flag_in(given, PART),
            letters: flag_in(given, LETTERS),
            bytes: bytes_in(given),
            raw: flag_in(given, RAW),
        },
        _ if name == HOST => Order::Host,
        _ if name == WORLD => Order::World,
        _ if name == RECORD => Order::Record,
        _ if name == EXPLAIN => Order::Explain,
        _ => Order::Show,
    }
}

// The word after a subcommand, among its arguments.
fn word_in<'a>(given: &ArgMatches<'a>) -> Option<&'a str>
    ensures { option_map (λ word. word.now) result ≡ first_of WORD.now (rows_of (found_of given.now)) }
{
    given.get_str(WORD)
}

// The invocation that clap found: `show` without a word if there is no subcommand.
fn request_of<'a>(matches: &ArgMatches<'a>) -> Invocation<'a>
    ensures order { result.order ≡ order_of (subcommand_rows_of matches.now) }
    ensures word { option_map (λ word. word.now) result.word ≡ word_given (subcommand_rows_of matches.now) }
{
    match matches.subcommand() {
        Some((name, given)) => Invocation {
            order: order_named(name, given),
            word: word_in(given),
        },
        None => Invocation {
            order: Order::Show,
            word: None,
        },
    }
}

// An optional file after a subcommand.
fn file<'a>(alloc: Global) -> Arg<'a>
    ensures rule { rule_of result ≡ file_named }
    ensures local { result.global ≡ false }
{
    Arg::new(alloc, WORD).value_name("FILE").help(
        "Input file: standard input is read if no file is named, or if it is -",
    )
}

// A subcommand without arguments.
fn bare<'a>(
    alloc: Global,
    name: &'static str,
    about: &'static str,
    more: &'static str,
) -> Command<'a>
    ensures app { app_of result ≡ new_app name.now }
    ensures local { (fields_of result).has_globals ≡ false }
{
    Command::new(alloc, name).about(about).after_help(more)
}

// A subcommand that reads a file.
fn reading<'a>(
    alloc: Global,
    name: &'static str,
    about: &'static str,
    more: &'static str,
) -> Result<Command<'a>, AllocError>
    ensures shape { IfOk result (λ command. shape_of command ≡ reading name.now) }
    ensures local { IfOk result (λ command. (fields_of command).has_globals ≡ false) }
{
    bare(alloc, name, about, more).arg(file(alloc))
}

// `convert`, with its required host number.
fn converting<'a>(alloc: Global) -> Result<Command<'a>, AllocError>
    ensures shape { IfOk result (λ command. shape_of command ≡ converting) }
    ensures local { IfOk result (λ command. (fields_of command).has_globals ≡ false) }
{
    let at = Arg::new(alloc, AT)
        .long(AT)
        .value_name("H")
        .required(true)
        .value_parser(clap::value_parser!(u8))
        .help("The number of the host whose interface the messages cross");
    let about = "Converts a message file of one version into the other";
    bare(alloc, CONVERT, about, CONVERTED)
        .arg(at)?
        .arg(file(alloc))
}

// An argument without a value.
fn flag<'a>(alloc: Global, id: &'static str, help: &'static str) -> Arg<'a>
    ensures rule { rule_of result ≡ flag_asked id.now }
    ensures local { result.global ≡ false }
{
    Arg::new(alloc, id)
        .long(id)
        .action(ArgAction::SetTrue)
        .help(help)
}

// `audit`, with the arguments for its rules.
fn auditing_rules<'a>(alloc: Global) -> Result<Command<'a>, AllocError>
    ensures app { IfOk result (λ command. app_of command ≡ auditing_rules) }
    ensures local { IfOk result (λ command. (fields_of command).has_globals ≡ false) }
{
    let about = "Reports which rules the messages of a message file break, and which host did";
    let standard = "Check only the rules of the standard";
    bare(alloc, AUDIT, about, AUDITED)
        .arg(flag(alloc, PART, PART_HELP))?
        .arg(flag(alloc, STANDARD, standard))
}

// `audit`, with the arguments for what it did not judge too.
fn auditing_coverage<'a>(alloc: Global) -> Result<Command<'a>, AllocError>
    ensures app { IfOk result (λ command. app_of command ≡ auditing_coverage) }
    ensures local { IfOk result (λ command. (fields_of command).has_globals ≡ false) }
{
    let coverage = "Report how many messages were judged, and what was not";
    let strict = "The same, with status 1 for a reason other than alone";
    auditing_rules(alloc)?
        .arg(flag(alloc, COVERAGE, coverage))?
        .arg(flag(alloc, STRICT, strict))
}

// `audit`, with its file too.
fn auditing<'a>(alloc: Global) -> Result<Command<'a>, AllocError>
    ensures shape { IfOk result (λ command. shape_of command ≡ auditing) }
    ensures local { IfOk result (λ command. (fields_of command).has_globals ≡ false) }
{
    auditing_coverage(alloc)?.arg(file(alloc))
}

// `--bytes`, with the number of a connection.
fn bytes<'a>(alloc: Global) -> Arg<'a>
    ensures rule { rule_of result ≡ bytes_asked }
    ensures local { result.global ≡ false }
{
    let numbers = ValueParser::signed(1, i64::from(MOST_CONNECTIONS));
    Arg::new(alloc, BYTES)
        .long(BYTES)
        .value_name("N")
        .value_parser(numbers)
        .help("Write the text of connection N as bytes, and nothing else")
}

// `follow`, with the arguments for its lines.
fn following_lines<'a>(alloc: Global) -> Result<Command<'a>, AllocError>
    ensures app { IfOk result (λ command. app_of command ≡ following_lines) }
    ensures local { IfOk result (λ command. (fields_of command).has_globals ≡ false) }
{
    let about = "Shows the connections of a message file, and what was sent on each";
    let letters = "Print each text of 8-bit bytes as letters too";
    bare(alloc, FOLLOW, about, FOLLOWED)
        .arg(flag(alloc, PART, PART_HELP))?
        .arg(flag(alloc, LETTERS, letters))
}

// `follow`, with the arguments for the bytes of a text too.
fn following_bytes<'a>(alloc: Global) -> Result<Command<'a>, AllocError>
    ensures app { IfOk result (λ command. app_of command ≡ following_bytes) }
    ensures local { IfOk result (λ command. (fields_of command).has_globals ≡ false) }
{
    let raw = "Write the bytes of --bytes to a terminal too, which may act on them";
    following_lines(alloc)?
        .arg(bytes(alloc))?
        .arg(flag(alloc, RAW, raw))
}

// `follow`, with its file too.
fn following<'a>(alloc: Global) -> Result<Command<'a>, AllocError>
    ensures shape { IfOk result (λ command. shape_of command ≡ following) }
    ensures local { IfOk result (λ command. (fields_of command).has_globals ≡ false) }
{
    following_bytes(alloc)?.arg(file(alloc))
}

// `explain`, with its required name.
fn explaining<'a>(alloc: Global) -> Result<Command<'a>, AllocError>
    ensures shape { IfOk result (λ command. shape_of command ≡ explaining) }
    ensures local { IfOk result (λ command. (fields_of command).has_globals ≡ false) }
{
    let name = Arg::new(alloc, WORD).value_name("NAME").required(true).help(
        "The name of a fault, of a refusal or of a rule, or a word of a line, as the program prints it",
    );
    let about = "Explains the name of a fault, of a refusal or of a rule, or a word of a line";
    bare(alloc, EXPLAIN, about, EXPLAINED).arg(name)
}

// The program for clap, without subcommands.
fn bare_program<'a>(alloc: Global) -> Command<'a>
    ensures { app_of result ≡ bare_program }
{
    Command::new(alloc, PROGRAM)
        .version(VERSION)
        .about("Reads the messages of an ARPANET host, and plays hosts")
        .after_help(PROGRAM_HELP)
}

// The program with this subcommand added, unless allocation failed.
fn and_also<'a>(
    program: Command<'a>,
    subcommand: Result<Command<'a>, AllocError>,
) -> Result<Command<'a>, AllocError>
    ensures { IfOk result (λ command. IsOkAnd subcommand.entry (λ sub. (fields_of sub).has_globals ≡ false →
        app_of command ≡ with_subcommand (app_of program.entry) (shape_of sub))) }
{
    match subcommand {
        Ok(subcommand) => program.subcommand(subcommand),
        Err(error) => Err(error),
    }
}

// The program with a subcommand added that reads a file.
fn and_reading<'a>(
    program: Command<'a>,
    alloc: Global,
    name: &'static str,
    about: &'static str,
    more: &'static str,
) -> Result<Command<'a>, AllocError>
    ensures { IfOk result (λ command. app_of command ≡ with_subcommand (app_of program.entry) (reading name.now)) }
{
    and_also(program, reading(alloc, name, about, more))
}

// The program with `convert` added.
fn and_convert<'a>(program: Command<'a>, alloc: Global) -> Result<Command<'a>, AllocError>
    ensures { IfOk result (λ command. app_of command ≡ with_subcommand (app_of program.entry) converting) }
{
    and_also(program, converting(alloc))
}

// The program with `audit` added.
fn and_audit<'a>(program: Command<'a>, alloc: Global) -> Result<Command<'a>, AllocError>
    ensures { IfOk result (λ command. app_of command ≡ with_subcommand (app_of program.entry) auditing) }
{
    and_also(program, auditing(alloc))
}

// The program with `follow` added.
fn and_follow<'a>(program: Command<'a>, alloc: Global) -> Result<Command<'a>, AllocError>
    ensures { IfOk result (λ command. app_of command ≡ with_subcommand (app_of program.entry) following) }
{
    and_also(program, following(alloc))
}

// The program with `explain` added.
fn and_explain<'a>(program: Command<'a>, alloc: Global) -> Result<Command<'a>, AllocError>
    ensures { IfOk result (λ command. app_of command ≡ with_subcommand (app_of program.entry) explaining) }
{
    and_also(program, explaining(alloc))
}

// The program with the subcommands that read message files: `show`, `check`, `count` and `convert`.
fn with_files<'a>(alloc: Global) -> Result<Command<'a>, AllocError>
    ensures { IfOk result (λ command. app_of command ≡ of_files) }
{
    let show = "Shows each message of a message file";
    let check = "Counts the messages of a message file, and reports whether all are well formed";
    let count = "Counts the messages of each kind, and the commands of each name";
    let program = and_reading(bare_program(alloc), alloc, SHOW, show, SHOWN)?;
    let program = and_reading(program, alloc, CHECK, check, CHECKED)?;
    let program = and_reading(program, alloc, COUNT, count, COUNTED)?;
    and_convert(program, alloc)
}

// The program with `audit` and `follow` too.
fn with_readers<'a>(alloc: Global) -> Result<Command<'a>, AllocError>
    ensures { IfOk result (λ command. app_of command ≡ of_readers) }
{
    and_follow(and_audit(with_files(alloc)?, alloc)?, alloc)
}

// The program with `host` and `world` too.
fn with_players<'a>(alloc: Global) -> Result<Command<'a>, AllocError>
    ensures { IfOk result (λ command. app_of command ≡ of_players) }
{
    let host = "Plays a script of one host";
    let world = "Plays a script of two to eight hosts and the subnet between them";
    let program = and_reading(with_readers(alloc)?, alloc, HOST, host, PLAYED_HOST)?;
    and_reading(program, alloc, WORLD, world, PLAYED)
}

// The program with `record` too.
fn with_recorders<'a>(alloc: Global) -> Result<Command<'a>, AllocError>
    ensures { IfOk result (λ command. app_of command ≡ of_recorders) }
{
    let record = "Plays a script of two to eight hosts, and writes its messages as a message file";
    and_reading(with_players(alloc)?, alloc, RECORD, record, RECORDED)
}

// The program with all its subcommands: `explain` too.
fn command_line<'a>(alloc: Global) -> Result<Command<'a>, AllocError>
    ensures { IfOk result (λ command. app_of command ≡ program) }
{
    and_explain(with_recorders(alloc)?, alloc)
}

/// Parses a command line, the program's name first, into the order and the word after the
/// subcommand: a file, or the name to explain. Without a subcommand the order is `show`.
///
/// The error is clap's: a command-line fault, requested help or version, or allocation failure.
pub fn request<'a, S: AsStr>(alloc: Global, words: &'a [S]) -> Result<Invocation<'a>, Error>
    ensures named { IfOk result (λ request. request.order ≡ order_in (map S.text words.entry.now)) }
    ensures word { IfOk result (λ request. option_map (λ word. word.now) request.word ≡ word_in (map S.text words.entry.now)) }

    // The result is Ok only if clap finds no fault in the words. An error is one of those faults,
    // or allocation failure.
    ensures kinds { FailsBy (fault_of program (map S.text words.entry.now)) result }
{
    let program = command_line(alloc)?;
    let matches = program.try_get_matches_from(words)?;
    Ok(request_of(&matches))
}

/// The order of a command line ([`request`]).
pub fn order<'a, S: AsStr>(alloc: Global, words: &'a [S]) -> Result<Order, Error>
    ensures named { IfOk result (λ order. order ≡ order_in (map S.text words.entry.now)) }
    ensures kinds { FailsBy (fault_of program (map S.text words.entry.now)) result }
{
    match request(alloc, words) {
        Ok(request) => Ok(request.order),
        Err(error) => Err(error),
    }
}

//! A worked use of the players that names no crates except `ncp_player` and that of a store. It
//! plays a script of two hosts and records it as a message file, shows and counts the file's
//! messages, and converts those at one interface in one direction to a file of version 1. Then it
//! plays a script of one host and prints its fault.
ghost use Rattle.std.specs.Prelude.{◌≡◌, ℕ, List, Option, Some, false, IfOk};
ghost use Rattle.ncp_player.specs.Shown.{Shown};
ghost use Rattle.ncp_player.specs.Checked.{Checked};

use anyhow::Result;
use ncp_bits::PackedStore;
use ncp_player::{
    FileFault, MemorySink, MemorySource, Order, check, convert, order, play_host, play_world,
    record_world, show, status,
};
use std::alloc::{AllocError, Global};

/// Room for the output of a call.
const ROOM: usize = 4096;

/// A host is reset, and its RST is delivered and answered; the RRP in reply is lost.
const TWO_HOSTS: &[u8] = b"hosts 1 2
a reset
a out
a deliver 0
a answer 0
b out
b lose 0
b answer 0
";

/// A line that is played, followed by an invalid one.
const ONE_HOST: &[u8] = b"host 1 2
phase 2
fase 2
";

/// A command line.
const WORDS: &[&str] = &["ncp", "convert", "--at", "7"];

// Writes the lines of a message file in memory.
fn show_bytes(file: &[u8], lines: &mut MemorySink) -> Result<(), FileFault>
    requires { lines.old.failed ≡ false }
    ensures shown { (rest : Option (List ℕ)) × Shown file.now lines.old.written rest (Some lines.new.written) result }
{
    show(&mut MemorySource::new(file, None), lines)
}

// Writes the line that counts the messages of a file in memory, and returns whether they are sound.
fn check_bytes(file: &[u8], line: &mut MemorySink) -> Result<bool, FileFault>
    requires { line.old.failed ≡ false }
    ensures checked { (rest : Option (List ℕ)) × Checked file.now line.old.written rest (Some line.new.written) result }
{
    check(&mut MemorySource::new(file, None), line)
}

// An empty sink.
fn sink(rt: &HostRuntime) -> Result<MemorySink, AllocError>
    ensures { IfOk result (λ sink. sink.failed ≡ false) }
{
    MemorySink::new(rt.alloc(), ROOM, None)
}

// Prints the output, which is text.
fn print_lines(rt: &HostRuntime, lines: &MemorySink) -> Result<()> {
    print!(rt; "{}", String::from_utf8_lossy(rt.alloc(), lines.bytes())?)?;
    Ok(())
}

// Plays the script of two hosts, and prints its lines.
fn play(rt: &HostRuntime) -> Result<()> {
    let mut lines = sink(rt)?;
    let mut script = MemorySource::new(TWO_HOSTS, None);
    let good = play_world::<PackedStore, _, _>(rt.alloc(), &mut script, &mut lines)?;
    print_lines(rt, &lines)?;
    println!(rt; "no call was refused: {good}")?;
    Ok(())
}

// Records the script of two hosts as a message file of version 2.
fn record(rt: &HostRuntime) -> Result<MemorySink> {
    let mut file = sink(rt)?;
    let mut script = MemorySource::new(TWO_HOSTS, None);
    let _good = record_world::<PackedStore, _, _>(rt.alloc(), &mut script, &mut file)?;
    Ok(file)
}

// Prints the messages of a file, and the number of each kind.
fn tell(rt: &HostRuntime, file: &[u8]) -> Result<()> {
    let mut lines = sink(rt)?;
    show_bytes(file, &mut lines)?;
    print_lines(rt, &lines)?;
    let mut line = sink(rt)?;
    let sound = check_bytes(file, &mut line)?;
    print_lines(rt, &line)?;
    println!(rt; "all are sound: {sound}")?;
    Ok(())
}

// Converts a file to version 1, up to the first message that this version cannot hold: it has one
// interface and one direction.
fn turn(rt: &HostRuntime, file: &[u8]) -> Result<()> {
    let mut counterpart = sink(rt)?;
    match convert(&mut MemorySource::new(file, None), &mut counterpart, 1) {
        Ok(()) => println!(rt; "turned whole")?,
        Err(fault) => println!(rt; "turned up to a fault: {}", fault.name())?,
    }
    tell(rt, counterpart.bytes())
}

// Plays the script of one host, and prints its lines, its fault and the status.
fn play_one(rt: &HostRuntime) -> Result<()> {
    let mut lines = sink(rt)?;
    let mut script = MemorySource::new(ONE_HOST, None);
    let answer = play_host::<PackedStore, _, _>(rt.alloc(), &mut script, &mut lines);
    print_lines(rt, &lines)?;
    let ended = match answer {
        Ok(good) => status(Ok(good)),
        Err(fault) => {
            let mut told = sink(rt)?;
            fault.tell(&mut told)?;
            print_lines(rt, &told)?;
            status(Err(()))
        }
    };
    println!(rt; "status {ended}")?;
    Ok(())
}

// The host number of a conversion in these words.
fn host_of(alloc: Global, words: &[&str]) -> Option<u8> {
    let read = order(alloc, words);
    let host = match &read {
        Ok(Order::Convert(at)) => Some(*at),
        _ => None,
    };
    drop(read);
    host
}

// Prints the order of some words.
fn read_words(rt: &HostRuntime) -> Result<()> {
    match host_of(rt.alloc(), WORDS) {
        Some(at) => println!(rt; "convert at {at}")?,
        None => println!(rt; "another order, or none")?,
    }
    Ok(())
}

/// All uses of the players.
pub(crate) fn use_players(rt: &HostRuntime) -> Result<()> {
    play(rt)?;
    let file = record(rt)?;
    tell(rt, file.bytes())?;
    turn(rt, file.bytes())?;
    play_one(rt)?;
    read_words(rt)
}

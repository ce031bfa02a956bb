//! Readings of a session between events. The hosts are unchanged; each returns `NO_SESSION` if
//! there is no session.
ghost use Rattle.std.specs.Prelude.{◌≡◌, ◌≤◌, [], length, Some, Ok};
ghost use Rattle.std.specs.Option.{option_copied};
ghost use Rattle.ncp_play_script.specs.Words.{words_of};
ghost use Rattle.ncp_play_files.specs.Lines.{item_line};
ghost use Rattle.ncp_play_world_lines.specs.WorldLines.{world_line_of};
ghost use Rattle.ncp_play_world_lines.specs.ManyLines.{many_line_of};
ghost use Rattle.ncp_web.specs.TransitStates.{number_of_transit_state};
ghost use Rattle.ncp_web.specs.Readings.{quantity_of, books_of, message_over, waiting_in, kept_in, message_noted, message_of_two, message_of_many, message_of_line, ledger_of_stage, asked_of_two, asked_of_many, asked_by_line_of, transit_state_in, Asks, AsksSession, WaitsSession, IsWritten, code_of_asking, code_of_saying, code_found, found_in, written_if_any, with_room};

use crate::answer::{DONE, FULL, LONGEST_MESSAGE, NO_MEMORY, NO_SESSION, NOTHING, copy_out};
use crate::handle::{SessionHandle, put, take};
use crate::lent::{LinkBetween, Queued, Sender};
use crate::reading::reading;
use crate::session::code_of_refusal;
use crate::stage::{ManyStage, Refusal, SessionHosts, TwoStage, side_of};
use crate::stepping::number_of;
use ncp_bits::{Bits, PackedStore, Part};
use ncp_host::Pair;
use ncp_play_buffer::{BufferedSink, OutBuffer};
use ncp_play_files::{MAX_LINE_LEN, push_item};
use ncp_play_script::Words;
use ncp_play_stream::{Failed, MemorySink};
use ncp_play_world::Scripted;
use ncp_play_world_lines::{many_line, world_line};
use ncp_transcript::{HostNote, Message};
use ncp_wire::Command;
use ncp_world::{Amount, Event, Ledger, ManyEvent, ManyNote, Network, Note, Sides};
use std::alloc::Global;

/// A number of messages, and a number of bits.
#[repr(C)]
#[derive(Clone, Copy, Drop)]
pub struct AmountRepr {
    pub messages: u64,
    pub bits: u64,
}

/// The ledger of an open connection. The first amount is the sum of the others.
#[repr(C)]
#[derive(Clone, Copy, Drop)]
pub struct LedgerRepr {
    pub outstanding: AmountRepr,
    pub counters: AmountRepr,
    pub all: AmountRepr,
    pub text: AmountRepr,
    pub ret: AmountRepr,
}

fn quantity_of(amount: Amount) -> AmountRepr
    ensures { result ≡ quantity_of amount }
{
    AmountRepr {
        messages: amount.messages,
        bits: amount.bits,
    }
}

fn books_of(ledger: Ledger) -> LedgerRepr
    ensures { result ≡ books_of ledger }
{
    LedgerRepr {
        outstanding: quantity_of(ledger.outstanding),
        counters: quantity_of(ledger.counters),
        all: quantity_of(ledger.all),
        text: quantity_of(ledger.text),
        ret: quantity_of(ledger.ret),
    }
}

// Writes a message to the front of a buffer, and returns its length in bits.
fn write_message(message: &Part<'_>, out: &mut [u8]) -> usize
    requires { LONGEST_MESSAGE ≤ length out.old }
    ensures bits { result ≡ length message.now }
    ensures out { out.new ≡ message_over message.now out.old }
{
    let bits = message.len();
    let _used = message.to_bytes(out);
    bits
}

// The command at an index of a host's queue for a peer.
fn waiting_at(stage: &SessionHosts, queued: &Queued) -> Option<Command>
    ensures { result ≡ waiting_in stage.now queued.now }
{
    stage.host(queued.host)?.waiting(queued.peer, queued.place)
}

// The message that a host keeps for a peer on a link.
fn kept_at<'a>(stage: &'a SessionHosts, between: &LinkBetween) -> Option<&'a Bits>
    ensures { option_copied result ≡ kept_in stage.now between.now }
{
    stage.host(between.host)?.kept(between.peer, between.link)
}

// The message that was sent or received, by a host's note.
fn message_in(note: &HostNote) -> Option<&Message>
    ensures { option_copied result ≡ message_noted note.now }
{
    match note {
        HostNote::Out { message } => Some(message),
        HostNote::In { message, .. } => Some(message),
        _ => None,
    }
}

// The message of a note of two hosts.
fn message_in_two(note: &Note) -> Option<&Message>
    ensures { option_copied result ≡ message_of_two note.now }
{
    match note {
        Note::Out { note, .. } => message_in(note),
        Note::Came { note, .. } => message_in(note),
        _ => None,
    }
}

// The message of a note of two to eight hosts.
fn message_in_many(note: &ManyNote) -> Option<&Message>
    ensures { option_copied result ≡ message_of_many note.now }
{
    match note {
        ManyNote::Out { note, .. } => message_in(note),
        ManyNote::Came { note, .. } => message_in(note),
        _ => None,
    }
}

// The message of an event, by the number of its line.
fn message_of(stage: &SessionHosts, number: usize) -> Option<&Message>
    ensures { option_copied result ≡ message_of_line stage.now number }
{
    match stage {
        SessionHosts::Two(two) => {
            let place = two.hosts.position_of(number)?;
            message_in_two(two.hosts.world().transcript().get(place)?)
        }
        SessionHosts::Many(of_many) => {
            let place = of_many.hosts.position_of(number)?;
            message_in_many(of_many.hosts.many().transcript().get(place)?)
        }
    }
}

// The ledger of a sender. Of two hosts its peer is the other.
fn ledger_at(stage: &SessionHosts, sender: &Sender) -> Option<Ledger>
    ensures { result ≡ ledger_of_stage stage.now sender.now }
{
    let pair = Pair {
        local: sender.local,
        remote: sender.remote,
    };
    match stage {
        SessionHosts::Two(two) => two
            .hosts
            .world()
            .ledger(side_of(two.first.hosts, sender.host)?, pair),
        SessionHosts::Many(of_many) => {
            of_many.hosts.many().ledger(sender.host, sender.peer, pair)
        }
    }
}

// Writes the line of a command to an empty sink.
fn render_command(command: &Command, sink: &mut MemorySink) -> Result<(), Failed>
    requires empty { sink.old.written ≡ [] }
    ensures { IsWritten (item_line (Ok command.now)) result sink.new.written }
{
    let mut page = OutBuffer::new();
    push_item(&mut page, &Ok(*command));
    page.flush(sink)
}

// Writes the lines of a note to an empty sink.
fn render_lines<H: Scripted>(
    number: u32,
    note: &H::Note,
    sink: &mut MemorySink,
) -> Result<(), Failed>
    requires empty { sink.old.written ≡ [] }
    ensures { IsWritten (H.note_lines number note.now) result sink.new.written }
{
    let mut page = OutBuffer::new();
    let mut out = BufferedSink {
        page: &mut page,
        sink,
    };
    match H::render_note(&mut out, number, note) {
        Ok(()) => out.flush(),
        Err(failed) => Err(failed),
    }
}

// Writes the answer to an event of two hosts that reads a host, as the next note.
fn answer_two(two: &TwoStage, event: &Event, sink: &mut MemorySink) -> Result<(), Refusal>
    requires empty { sink.old.written ≡ [] }
    ensures { Asks (asked_of_two two.now.hosts (Some event.now)) result sink.new.written }
{
    let Event::Call { side, call } = event else {
        return Err(Refusal::NoLine);
    };
    let Some(note) = reading(two.hosts.world().host(*side), call) else {
        return Err(Refusal::NoLine);
    };
    let number = number_of(two.hosts.told().saturating_add(1));
    let note = Note::Called { side: *side, note };
    let said = render_lines::<Sides<PackedStore>>(number, &note, sink);
    drop(note);
    match said {
        Ok(()) => Ok(()),
        Err(_) => Err(Refusal::Full),
    }
}

// Writes the answer to a line of a script of two hosts that reads a host.
fn ask_two(alloc: Global, two: &TwoStage, line: &[u8], sink: &mut MemorySink) -> Result<(), Refusal>
    requires empty { sink.old.written ≡ [] }
    ensures { Asks (asked_of_two two.now.hosts (world_line_of two.now.first.hosts (words_of line.now))) result sink.new.written }
{
    match world_line(alloc, two.first.hosts, &mut Words::new(line)) {
        Ok(Some(event)) => {
            let answer = answer_two(two, &event, sink);
            drop(event);
            answer
        }
        Ok(None) => Err(Refusal::NoLine),
        Err(_) => Err(Refusal::NoMemory),
    }
}

// Writes the answer to an event of two to eight hosts that reads a host, as the next note.
fn answer_many(stage: &ManyStage, event: &ManyEvent, sink: &mut MemorySink) -> Result<(), Refusal>
    requires empty { sink.old.written ≡ [] }
    ensures { Asks (asked_of_many stage.now.hosts (Some event.now)) result sink.new.written }
{
    let ManyEvent::Call { host, call } = event else {
        return Err(Refusal::NoLine);
    };
    let Some(asked) = stage.hosts.many().host(*host) else {
        return Err(Refusal::NoLine);
    };
    let Some(note) = reading(asked, call) else {
        return Err(Refusal::NoLine);
    };
    let number = number_of(stage.hosts.told().saturating_add(1));
    let note = ManyNote::Called { host: *host, note };
    let said = render_lines::<Network<PackedStore>>(number, &note, sink);
    drop(note);
    match said {
        Ok(()) => Ok(()),
        Err(_) => Err(Refusal::Full),
    }
}

// Writes the answer to a line of a script of two to eight hosts that reads a host.
fn ask_many(
    alloc: Global,
    stage: &ManyStage,
    line: &[u8],
    sink: &mut MemorySink,
) -> Result<(), Refusal>
    requires empty { sink.old.written ≡ [] }
    ensures { Asks (asked_of_many stage.now.hosts (many_line_of stage.now.first.hosts (words_of line.now)))
        result sink.new.written }
{
    match many_line(alloc, stage.first.hosts.numbers(), &mut Words::new(line)) {
        Ok(Some(event)) => {
            let answer = answer_many(stage, &event, sink);
            drop(event);
            answer
        }
        Ok(None) => Err(Refusal::NoLine),
        Err(_) => Err(Refusal::NoMemory),
    }
}

// Writes the answer to a line that reads a host.
fn ask(
    alloc: Global,
    stage: &SessionHosts,
    line: &[u8],
    sink: &mut MemorySink,
) -> Result<(), Refusal>
    requires empty { sink.old.written ≡ [] }
    ensures { Asks (asked_by_line_of stage.now line.now) result sink.new.written }
{
    match stage {
        SessionHosts::Two(two) => ask_two(alloc, two, line, sink),
        SessionHosts::Many(of_many) => ask_many(alloc, of_many, line, sink),
    }
}

// The code of a reading.
fn code_of_asking(asked: Result<(), Refusal>) -> u32
    ensures { result ≡ code_of_asking asked }
{
    match asked {
        Ok(()) => DONE,
        Err(refusal) => code_of_refusal(refusal),
    }
}

// The code of a written line.
fn code_of_saying(said: Result<(), Failed>) -> u32
    ensures { result ≡ code_of_saying said }
{
    match said {
        Ok(()) => DONE,
        Err(_) => FULL,
    }
}

/// Writes the line that a reading of a host would print as the next event of the script. The
/// reading is a script's line: `state`, `phase`, `echoed`, `counts` or `ignored`.
///
/// Refused, in this order: `NO_MEMORY` (for as many bytes as the buffer has), `NO_SESSION`,
/// `NO_LINE` (any other line), `NO_MEMORY`, `FULL` (a prefix is written).
#[unsafe(no_mangle)]
pub extern "C" fn ncp_web_ask(
    alloc: Global,
    handle: &mut SessionHandle,
    line: &[u8],
    out: &mut [u8],
    written: &mut usize,
) -> u32
    ensures session { handle.new.session ≡ handle.old.session }
    ensures asked { AsksSession line.now result handle.old.session out.old out.new written.new }
{
    *written = 0;
    let Ok(mut sink) = MemorySink::new(alloc, out.len(), None) else {
        return NO_MEMORY;
    };
    let Some(held) = take(alloc, handle) else {
        return NO_SESSION;
    };
    let asked = ask(alloc, &held.stage, line, &mut sink);
    put(handle, held);
    *written = copy_out(&sink, out);
    code_of_asking(asked)
}

/// `Host::waiting`: writes the line of the command at an index of a host's queue for a peer.
///
/// Refused, in this order: `NO_MEMORY`, `NO_SESSION`, `NOTHING` (there is no such host, peer or
/// command), `FULL`.
#[unsafe(no_mangle)]
pub extern "C" fn ncp_web_waiting(
    alloc: Global,
    handle: &mut SessionHandle,
    queued: &Queued,
    out: &mut [u8],
    written: &mut usize,
) -> u32
    ensures session { handle.new.session ≡ handle.old.session }
    ensures waits { WaitsSession queued.now result handle.old.session out.old out.new written.new }
{
    *written = 0;
    let Ok(mut sink) = MemorySink::new(alloc, out.len(), None) else {
        return NO_MEMORY;
    };
    let Some(held) = take(alloc, handle) else {
        return NO_SESSION;
    };
    let waiting = waiting_at(&held.stage, queued);
    put(handle, held);
    let Some(command) = waiting else {
        return NOTHING;
    };
    let said = render_command(&command, &mut sink);
    *written = copy_out(&sink, out);
    code_of_saying(said)
}

/// `Host::kept`: writes the message that a host keeps for a peer on a link and that is not taken
/// yet, with its length in bits.
///
/// Refused, in this order: `FULL` (fewer than `LONGEST_MESSAGE` bytes), `NO_SESSION`, `NOTHING`.
#[unsafe(no_mangle)]
pub extern "C" fn ncp_web_kept(
    alloc: Global,
    handle: &mut SessionHandle,
    between: &LinkBetween,
    out: &mut [u8],
    bits: &mut usize,
) -> u32
    ensures session { handle.new.session ≡ handle.old.session }
    ensures code { result ≡ with_room out.old FULL (code_found (λ s. kept_in s between.now) handle.old.session) }
    ensures message { out.new ≡ with_room out.old out.old (written_if_any (λ m. message_over m out.old) (found_in (λ s. kept_in s between.now) handle.old.session) out.old) }
    ensures bits { bits.new ≡ with_room out.old bits.old (written_if_any length (found_in (λ s. kept_in s between.now) handle.old.session) bits.old) }
{
    if out.len() < LONGEST_MESSAGE {
        return FULL;
    }
    let Some(held) = take(alloc, handle) else {
        return NO_SESSION;
    };
    let told = match kept_at(&held.stage, between) {
        Some(message) => {
            *bits = write_message(&message.whole(), out);
            DONE
        }
        None => NOTHING,
    };
    put(handle, held);
    told
}

/// Writes the message that was sent or received in an event, given by its number from 1, with its
/// length in bits.
///
/// Refused, in this order: `FULL` (fewer than `LONGEST_MESSAGE` bytes), `NO_SESSION`, `NOTHING` (no
/// such event, or one without a message).
#[unsafe(no_mangle)]
pub extern "C" fn ncp_web_message(
    alloc: Global,
    handle: &mut SessionHandle,
    number: usize,
    out: &mut [u8],
    bits: &mut usize,
) -> u32
    ensures session { handle.new.session ≡ handle.old.session }
    ensures code { result ≡ with_room out.old FULL (code_found (λ s. message_of_line s number) handle.old.session) }
    ensures message { out.new ≡ with_room out.old out.old (written_if_any (λ m. message_over m out.old) (found_in (λ s. message_of_line s number) handle.old.session) out.old) }
    ensures bits { bits.new ≡ with_room out.old bits.old (written_if_any length (found_in (λ s. message_of_line s number) handle.old.session) bits.old) }
{
    if out.len() < LONGEST_MESSAGE {
        return FULL;
    }
    let Some(held) = take(alloc, handle) else {
        return NO_SESSION;
    };
    let told = match message_of(&held.stage, number) {
        Some(message) => {
            *bits = write_message(&message.whole(), out);
            DONE
        }
        None => NOTHING,
    };
    put(handle, held);
    told
}

/// `World::ledger` or `Many::ledger`: the outstanding amount of an open connection, and the parts
/// that add up to it. Of two hosts the peer is the other.
///
/// Refused, in this order: `NO_SESSION`, `NOTHING` (no such host or peer, or an endpoint is not
/// open).
#[unsafe(no_mangle)]
pub extern "C" fn ncp_web_ledger(
    alloc: Global,
    handle: &mut SessionHandle,
    sender: &Sender,
    out: &mut LedgerRepr,
) -> u32
    ensures session { handle.new.session ≡ handle.old.session }
    ensures code { result ≡ code_found (λ s. ledger_of_stage s sender.now) handle.old.session }
    ensures output { out.new ≡ written_if_any books_of (found_in (λ s. ledger_of_stage s sender.now) handle.old.session) out.old }
{
    let Some(held) = take(alloc, handle) else {
        return NO_SESSION;
    };
    let ledger = ledger_at(&held.stage, sender);
    put(handle, held);
    match ledger {
        Some(ledger) => {
            *out = books_of(ledger);
            DONE
        }
        None => NOTHING,
    }
}

/// The state in the subnet of the last message from a host to a peer on a link, as the number of
/// its [`crate::TransitState`].
///
/// Refused: `NO_SESSION`. If they are not two hosts of the session, nothing is underway: `Free`.
#[unsafe(no_mangle)]
pub extern "C" fn ncp_web_transit(
    alloc: Global,
    handle: &mut SessionHandle,
    between: &LinkBetween,
    out: &mut u32,
) -> u32
    ensures session { handle.new.session ≡ handle.old.session }
    ensures code { result ≡ code_found (λ s. Some (transit_state_in s between.now)) handle.old.session }
    ensures transit_state { out.new ≡ written_if_any number_of_transit_state (found_in (λ s. Some (transit_state_in s between.now)) handle.old.session) out.old }
{
    let Some(held) = take(alloc, handle) else {
        return NO_SESSION;
    };
    let transit_state = held.stage.transit_state(between);
    put(handle, held);
    *out = transit_state.number();
    DONE
}

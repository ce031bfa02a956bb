//! `count`: how many messages of each kind a message file has, and how many commands of each name.
ghost use Rattle.std.specs.Prelude.{◌≡◌, ℕ, ◌+◌, ◌-◌, ◌*◌, ◌/◌, ◌%◌, ◌≤◌, ◌||◌, ◌++◌, List, [], Some, true, false, length};
ghost use Rattle.ncp_numbers.specs.Bytes.{bytes_of};
ghost use Rattle.ncp_leader.specs.Message.{message_in};
ghost use Rattle.ncp_control.specs.Reading.{commands_in};
ghost use Rattle.ncp_play_stream.specs.Pieces.{reads_for};
ghost use Rattle.ncp_play_files.specs.Results.{is_read_failed, is_write_failed};
ghost use Rattle.ncp_play_files.specs.declared.file.Direction.TheVariants.{FromImp};
ghost use Rattle.ncp_play_files.specs.Counted.{kind_toward, kind_of, kind_with_leader, commands_said, counted, count_line, message_count_lines, command_count_lines, count_lines, messages_with, commands_with, commands_counted_from, count_pass, Counted};

use crate::control::is_of_control;
use crate::file::{Direction, FileFault};
use crate::line::{GOING_DOWN, NOP};
use crate::pass::{FileEnd, Pass};
use crate::passing::pass_through;
use crate::record::has_details;
use crate::version::{CapturePoint, Version};
use ncp_bits::Part;
use ncp_control::Commands;
use ncp_leader::{
    DESTINATION_DEAD, INCOMPLETE, Leader, REGULAR, RFNM, Short, read_leader_in, read_regular_in,
};
use ncp_play_buffer::{BufferedSink, Counter, MAX_NUMBER_LEN, OutBuffer, PAGE_SIZE, push_field};
use ncp_play_stream::{Failed, LEAST_PIECE, Sink, Source};
use ncp_wire::Command;

// An upper bound on the number of bytes of a name with the sign after it.
const MAX_NAME_LEN: usize = 16;

// An upper bound on the number of bytes of a line, and on those of all lines.
const MAX_COUNT_LEN: usize = MAX_NAME_LEN + MAX_NUMBER_LEN + 1;

const MAX_COUNTS_LEN: usize = 22 * MAX_COUNT_LEN;

/// The kind of a message. Some types have a name in one direction only.
#[derive(Clone, Copy, Debug, Drop, PartialEq, Eq)]
pub(crate) enum MessageKind {
    /// It is too short for a leader.
    Short,
    Regular,
    GoingDown,
    Nop,
    Rfnm,
    Dead,
    Incomplete,
    /// Its type has no name.
    Other,
}

/// The number of messages of each kind. Counts saturate.
#[derive(Clone, Copy, Drop)]
pub(crate) struct MessageCounts {
    pub short: u32,
    pub regular: u32,
    pub going_down: u32,
    pub nop: u32,
    pub rfnm: u32,
    pub dead: u32,
    pub incomplete: u32,
    pub other: u32,
}

/// The number of commands of each name, in the order of the opcodes. Counts saturate.
#[derive(Clone, Copy, Drop)]
pub(crate) struct CommandCounts {
    pub nop: u32,
    pub rts: u32,
    pub str: u32,
    pub cls: u32,
    pub all: u32,
    pub gvb: u32,
    pub ret: u32,
    pub inr: u32,
    pub ins: u32,
    pub eco: u32,
    pub erp: u32,
    pub err: u32,
    pub rst: u32,
    pub rrp: u32,
}

/// The pass of `count`: the counts of the messages so far, and of their commands.
#[derive(Clone, Copy, Drop)]
pub(crate) struct Counting {
    pub messages: MessageCounts,
    pub commands: CommandCounts,
}

// The kind of an IMP's message of a type that no host's message has.
fn kind_from_imp(kind: u8) -> MessageKind
    ensures { result ≡ kind_toward FromImp kind }
{
    match kind {
        GOING_DOWN => MessageKind::GoingDown,
        RFNM => MessageKind::Rfnm,
        DESTINATION_DEAD => MessageKind::Dead,
        INCOMPLETE => MessageKind::Incomplete,
        _ => MessageKind::Other,
    }
}

// The kind of a message of this type.
fn kind_of_type(direction: Direction, kind: u8) -> MessageKind
    ensures { result ≡ kind_of direction kind }
{
    match kind {
        REGULAR => MessageKind::Regular,
        NOP => MessageKind::Nop,
        _ => match direction {
            Direction::ToImp => MessageKind::Other,
            Direction::FromImp => kind_from_imp(kind),
        },
    }
}

// The kind of a message with this leader.
fn kind_of(direction: Direction, leader: &Result<Leader, Short>) -> MessageKind
    ensures { result ≡ kind_with_leader direction leader.now }
{
    match leader {
        Ok(leader) => kind_of_type(direction, leader.kind),
        Err(_) => MessageKind::Short,
    }
}

impl MessageCounts {
    // Counts a message.
    fn count(&mut self, kind: MessageKind)
        ensures { self.new ≡ messages_with self.old kind }
    {
        match kind {
            MessageKind::Short => self.short = self.short.saturating_add(1),
            MessageKind::Regular => self.regular = self.regular.saturating_add(1),
            MessageKind::GoingDown => self.going_down = self.going_down.saturating_add(1),
            MessageKind::Nop => self.nop = self.nop.saturating_add(1),
            MessageKind::Rfnm => self.rfnm = self.rfnm.saturating_add(1),
            MessageKind::Dead => self.dead = self.dead.saturating_add(1),
            MessageKind::Incomplete => self.incomplete = self.incomplete.saturating_add(1),
            MessageKind::Other => self.other = self.other.saturating_add(1),
        }
    }
}

impl CommandCounts {
    // Counts a command.
    fn count(&mut self, command: &Command)
        ensures { self.new ≡ commands_with self.old command.now }
    {
        match command {
            Command::Nop => self.nop = self.nop.saturating_add(1),
            Command::Rts { .. } => self.rts = self.rts.saturating_add(1),
            Command::Str { .. } => self.str = self.str.saturating_add(1),
            Command::Cls { .. } => self.cls = self.cls.saturating_add(1),
            Command::All { .. } => self.all = self.all.saturating_add(1),
            Command::Gvb { .. } => self.gvb = self.gvb.saturating_add(1),
            Command::Ret { .. } => self.ret = self.ret.saturating_add(1),
            Command::Inr { .. } => self.inr = self.inr.saturating_add(1),
            Command::Ins { .. } => self.ins = self.ins.saturating_add(1),
            Command::Eco { .. } => self.eco = self.eco.saturating_add(1),
            Command::Erp { .. } => self.erp = self.erp.saturating_add(1),
            Command::Err { .. } => self.err = self.err.saturating_add(1),
            Command::Rst => self.rst = self.rst.saturating_add(1),
            Command::Rrp => self.rrp = self.rrp.saturating_add(1),
        }
    }
}

// Counts the commands of a control text.
fn count_commands(counts: &mut CommandCounts, text: Part<'_>)
    requires { length text % 8 ≡ 0 }
    ensures { counts.new ≡ commands_counted_from counts.old (commands_in (bytes_of text.entry)) }
{
    for item in Commands::new(text) {
        if let Ok(command) = item {
            counts.count(&command);
        }
    }
}

// Counts the commands of a regular message.
fn count_regular(counts: &mut CommandCounts, message: &Part<'_>)
    ensures { counts.new ≡ commands_counted_from counts.old (commands_said (message_in message.now)) }
{
    if let Ok(regular) = read_regular_in(message)
        && is_of_control(&regular)
    {
        count_commands(counts, regular.text());
    }
}

// Appends a name and a number as a line.
fn push_count(page: &mut OutBuffer, name: &[u8], number: u32)
    requires few { length name.now ≤ MAX_NAME_LEN }
    requires room { length page.old + MAX_COUNT_LEN ≤ PAGE_SIZE }
    ensures bytes { page.new ≡ page.old ++ count_line name.now number }
    ensures len { length page.new ≤ length page.old + MAX_COUNT_LEN }
{
    push_field(page, name, number);
    page.push(b'\n');
}

// Appends the lines of the messages.
fn push_messages(page: &mut OutBuffer, counts: &MessageCounts)
    requires { length page.old + 8 * MAX_COUNT_LEN ≤ PAGE_SIZE }
    ensures bytes { page.new ≡ page.old ++ message_count_lines counts.now }
    ensures len { length page.new ≤ length page.old + 8 * MAX_COUNT_LEN }
{
    push_count(page, b"short=", counts.short);
    push_count(page, b"regular=", counts.regular);
    push_count(page, b"going-down=", counts.going_down);
    push_count(page, b"nop=", counts.nop);
    push_count(page, b"rfnm=", counts.rfnm);
    push_count(page, b"dead=", counts.dead);
    push_count(page, b"incomplete=", counts.incomplete);
    push_count(page, b"other=", counts.other);
}

// Appends the lines of the commands.
fn push_commands(page: &mut OutBuffer, counts: &CommandCounts)
    requires { length page.old + 14 * MAX_COUNT_LEN ≤ PAGE_SIZE }
    ensures { page.new ≡ page.old ++ command_count_lines counts.now }
{
    push_count(page, b"NOP=", counts.nop);
    push_count(page, b"RTS=", counts.rts);
    push_count(page, b"STR=", counts.str);
    push_count(page, b"CLS=", counts.cls);
    push_count(page, b"ALL=", counts.all);
    push_count(page, b"GVB=", counts.gvb);
    push_count(page, b"RET=", counts.ret);
    push_count(page, b"INR=", counts.inr);
    push_count(page, b"INS=", counts.ins);
    push_count(page, b"ECO=", counts.eco);
    push_count(page, b"ERP=", counts.erp);
    push_count(page, b"ERR=", counts.err);
    push_count(page, b"RST=", counts.rst);
    push_count(page, b"RRP=", counts.rrp);
}

// Appends all lines.
fn push_counts(page: &mut OutBuffer, counting: &Counting)
    requires { length page.old + MAX_COUNTS_LEN ≤ PAGE_SIZE }
    ensures { page.new ≡ page.old ++ count_lines counting.now }
{
    push_messages(page, &counting.messages);
    push_commands(page, &counting.commands);
}

impl Counting {
    // Counts of no messages.
    fn new() -> Self
        ensures { result ≡ counted [] }
    {
        Counting {
            messages: MessageCounts {
                short: 0,
                regular: 0,
                going_down: 0,
                nop: 0,
                rfnm: 0,
                dead: 0,
                incomplete: 0,
                other: 0,
            },
            commands: CommandCounts {
                nop: 0,
                rts: 0,
                str: 0,
                cls: 0,
                all: 0,
                gvb: 0,
                ret: 0,
                inr: 0,
                ins: 0,
                eco: 0,
                erp: 0,
                err: 0,
                rst: 0,
                rrp: 0,
            },
        }
    }
}

impl Pass for Counting {
    ghost rules = { count_pass };

    fn reads(_version: Version) -> bool {
        true
    }

    fn is_prompt() -> bool {
        false
    }

    fn record<W: Sink>(
        &mut self,
        _out: &mut BufferedSink<'_, W>,
        capture_point: CapturePoint,
        _number: &Counter,
        message: Part<'_>,
    ) -> Result<(), Failed> {
        let leader = read_leader_in(&message);
        self.messages
            .count(kind_of(capture_point.direction, &leader));
        if has_details(&leader) {
            count_regular(&mut self.commands, &message);
        }
        Ok(())
    }

    fn close<W: Sink>(&self, out: &mut BufferedSink<'_, W>, _end: FileEnd) -> Result<(), Failed> {
        out.make_room(MAX_COUNTS_LEN)?;
        push_counts(out.page, self);
        Ok(())
    }

    fn is_good(&self) -> bool {
        true
    }
}

/// Prints how many messages of each kind a message file has up to its first fault, and how many
/// commands of each name they carry, one line each. Returns that fault.
///
/// Does not allocate. Reads at least 4 KiB at a time, and writes at the end of the file, or at the
/// fault. After a failed read the lines for the records read whole are written; after a failed
/// write a prefix of the lines is.
pub fn count<S: Source, W: Sink>(source: &mut S, sink: &mut W) -> Result<(), FileFault>
    requires source_clean { S.has_failed source.old ≡ false }
    requires sink_clean { W.has_failed sink.old ≡ false }

    // Given the bytes of the source, the lines for the records before the first fault are written,
    // and nothing else.
    ensures output { (bytes : List ℕ) (was : List ℕ)
        → S.left source.old ≡ Some bytes → W.written sink.old ≡ Some was
        → Counted bytes was (S.left source.new) (W.written sink.new) result }

    // A failed read is reported only if the source failed, and a failed write exactly if the sink
    // failed. After a failure of the source one of the two is reported.
    ensures read_failed { is_read_failed result ≡ true → S.has_failed source.new ≡ true }
    ensures write_failed { W.has_failed sink.new ≡ is_write_failed result }
    ensures blamed { S.has_failed source.new ≡ true → (is_read_failed result || is_write_failed result) ≡ true }

    // Reads a source that gives all it can at most once for each 4 KiB, and once more; any source
    // at most once for each byte, and once more.
    ensures reads { (bytes : List ℕ) → S.left source.old ≡ Some bytes
        → S.reads source.old ≤ S.reads source.new + reads_for S.gives_all (length bytes) + 1 }

    // Writes to a sink that takes all it can at most once for each 4 KiB, and twice more.
    ensures writes { (was : List ℕ) (now : List ℕ) → W.takes_all ≡ true
        → W.written sink.old ≡ Some was → W.written sink.new ≡ Some now
        → W.writes sink.old ≤ W.writes sink.new + (length now - length was) / LEAST_PIECE + 2 }
{
    match pass_through(&mut Counting::new(), source, sink) {
        Ok(_) => Ok(()),
        Err(fault) => Err(fault),
    }
}

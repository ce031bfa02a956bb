//! Reading the first command of a control text, without a copy.
ghost use Rattle.std.specs.Prelude.{◌≡◌, ◌+◌, ◌*◌, ◌≤◌, ◌<◌, ◌%◌, length, drop, Some, None, IfSome, MatchResult};
ghost use Rattle.ncp_numbers.specs.Bytes.{bytes_of};
ghost use Rattle.ncp_wire.specs.Spelling.{spelling, padded};
ghost use Rattle.ncp_control.specs.Texts.{fault_of};
ghost use Rattle.ncp_control.specs.Reading.{size_of, byte_at, short_at, word_at, command_with, command_at};

use ncp_bits::{MAX_BITS, Part};
use ncp_wire::opcodes::*;
use ncp_wire::{
    Command, CommandFault, ERROR_DATA, ILLEGAL_OPCODE, LONGEST_COMMAND, SHORT_PARAMETER_SPACE,
};

// The number of bytes of a command, by its opcode: NOP, RTS, STR, CLS, ALL, GVB, RET, INR, INS,
// ECO, ERP, ERR, RST, RRP.
static SIZES: [usize; 14] = [1, 10, 10, 9, 8, 4, 8, 2, 2, 2, 2, 12, 1, 1];

// The number of bytes of the command with this opcode, if there is one.
fn command_size(opcode: u8) -> Option<usize>
    ensures size { result ≡ size_of opcode }
    ensures some { IfSome result (λ size. 0 < size) }
{
    SIZES.get(usize::from(opcode)).copied()
}

/// The byte at an offset.
pub(crate) fn byte_in(text: &Part<'_>, offset: usize) -> u8
    requires near { 8 * offset < MAX_BITS }
    requires inside { 8 * offset + 8 ≤ length text.now }
    ensures { result ≡ byte_at (bytes_of text.now) offset }
{
    text.number(8 * offset, 8) as u8
}

// The two-byte number at an offset.
fn short_in(text: &Part<'_>, offset: usize) -> u16
    requires near { offset < LONGEST_COMMAND }
    requires inside { 8 * offset + 16 ≤ length text.now }
    ensures { result ≡ short_at (bytes_of text.now) offset }
{
    text.number(8 * offset, 16) as u16
}

// The four-byte number at an offset.
fn word_in(text: &Part<'_>, offset: usize) -> u32
    requires near { offset < LONGEST_COMMAND }
    requires inside { 8 * offset + 32 ≤ length text.now }
    ensures { result ≡ word_at (bytes_of text.now) offset }
{
    text.number(8 * offset, 32) as u32
}

// The ten bytes from an offset on, padded with zeros.
fn data_in(text: &Part<'_>, offset: usize) -> [u8; ERROR_DATA]
    requires whole { length text.now % 8 ≡ 0 }
    requires inside { 8 * offset ≤ length text.now }
    ensures { result ≡ padded ERROR_DATA (drop offset (bytes_of text.now)) }
{
    let mut bytes = [0; ERROR_DATA];
    let shown = (text.len() - 8 * offset).min(8 * ERROR_DATA);
    text.slice(8 * offset, shown).to_bytes(&mut bytes);
    bytes
}

// The RTS, STR or CLS at the start of a text that has all its bytes.
#[tactic(auto, unfolding(crate::specs::Reading::command_with))]
#[inline(always)]
fn sockets_in(text: &Part<'_>, opcode: u8) -> Command
    requires some { 1 ≤ opcode }
    requires few { opcode ≤ 3 }
    requires long { IfSome (size_of opcode) (λ size. 8 * size ≤ length text.now) }
    ensures { result ≡ command_with opcode (bytes_of text.now) }
{
    match opcode {
        RTS => Command::Rts {
            receive: word_in(text, 1),
            send: word_in(text, 5),
            link: byte_in(text, 9),
        },
        STR => Command::Str {
            send: word_in(text, 1),
            receive: word_in(text, 5),
            size: byte_in(text, 9),
        },
        _ => Command::Cls {
            my: word_in(text, 1),
            your: word_in(text, 5),
        },
    }
}

// The ALL, GVB or RET at the start of a text that has all its bytes.
#[tactic(auto, unfolding(crate::specs::Reading::command_with))]
#[inline(always)]
fn allocation_in(text: &Part<'_>, opcode: u8) -> Command
    requires some { 4 ≤ opcode }
    requires few { opcode ≤ 6 }
    requires long { IfSome (size_of opcode) (λ size. 8 * size ≤ length text.now) }
    ensures { result ≡ command_with opcode (bytes_of text.now) }
{
    match opcode {
        ALL => Command::All {
            link: byte_in(text, 1),
            messages: short_in(text, 2),
            bits: word_in(text, 4),
        },
        GVB => Command::Gvb {
            link: byte_in(text, 1),
            fm: byte_in(text, 2),
            fb: byte_in(text, 3),
        },
        _ => Command::Ret {
            link: byte_in(text, 1),
            messages: short_in(text, 2),
            bits: word_in(text, 4),
        },
    }
}

// The command with this opcode, at the start of a text that has all its bytes.
#[tactic(auto, unfolding(crate::specs::Reading::command_with))]
#[inline(always)]
fn command_in(text: &Part<'_>, opcode: u8) -> Command
    requires whole { length text.now % 8 ≡ 0 }
    requires long { IfSome (size_of opcode) (λ size. 8 * size ≤ length text.now) }
    ensures { result ≡ command_with opcode (bytes_of text.now) }
{
    match opcode {
        NOP => Command::Nop,
        RTS | STR | CLS => sockets_in(text, opcode),
        ALL | GVB | RET => allocation_in(text, opcode),
        INR => Command::Inr {
            link: byte_in(text, 1),
        },
        INS => Command::Ins {
            link: byte_in(text, 1),
        },
        ECO => Command::Eco {
            byte: byte_in(text, 1),
        },
        ERP => Command::Erp {
            byte: byte_in(text, 1),
        },
        ERR => Command::Err {
            code: byte_in(text, 1),
            bytes: data_in(text, 2),
        },
        RST => Command::Rst,
        _ => Command::Rrp,
    }
}

/// The number of bytes of the command with this opcode, if there is one and it has at most `left`
/// bytes.
pub(crate) fn size_within(opcode: u8, left: usize) -> Option<usize>
    ensures size { IfSome result (λ size. size_of opcode ≡ Some size) }
    ensures some { IfSome result (λ size. 0 < size) }
    ensures fits { IfSome result (λ size. size ≤ left) }
    ensures none { result ≡ None → IfSome (size_of opcode) (λ size. left < size) }
{
    let size = command_size(opcode)?;
    if left < size {
        return None;
    }
    Some(size)
}

/// The fault at an offset that starts no command.
// Kept out of the loops that read commands, since few texts have a fault.
#[cold]
pub(crate) fn fault_at(text: &Part<'_>, offset: usize) -> CommandFault
    requires whole { length text.now % 8 ≡ 0 }
    requires near { 8 * offset < MAX_BITS }
    requires inside { 8 * offset < length text.now }
    ensures { fault_of (drop offset (bytes_of text.now)) ≡ Some result }
{
    let code = match command_size(byte_in(text, offset)) {
        Some(_) => SHORT_PARAMETER_SPACE,
        None => ILLEGAL_OPCODE,
    };
    CommandFault {
        code,
        bytes: data_in(text, offset),
    }
}

/// The first command of a text and the text after it, or the fault at its start.
#[inline(always)]
pub(crate) fn read_front<'a>(text: &Part<'a>) -> Result<(Command, Part<'a>), CommandFault>
    requires whole { length text.now % 8 ≡ 0 }
    requires some { 0 < length text.now }
    ensures command { MatchResult result (λ read. command_at (bytes_of text.now) ≡ Some read.0) (λ _. command_at (bytes_of text.now) ≡ None) }
    ensures rest { MatchResult result (λ read. read.1 ≡ drop (8 * length (spelling read.0)) text.now) (λ fault. fault_of (bytes_of text.now) ≡ Some fault) }
{
    let opcode = byte_in(text, 0);
    let Some(size) = size_within(opcode, text.len() / 8) else {
        return Err(fault_at(text, 0));
    };
    let rest = text.slice(8 * size, text.len() - 8 * size);
    Ok((command_in(text, opcode), rest))
}

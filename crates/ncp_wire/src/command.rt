//! Commands and their encoding.
ghost use Rattle.std.specs.Prelude.{◌≡◌, ◌+◌, ◌<◌, ◌≤◌, ◌++◌, ◌∷◌, [], length, take, drop, All};
ghost use Rattle.std.specs.Int.{to_be_bytes, w16, w32};
ghost use Rattle.ncp_wire.specs.Spelling.{spelling, IsByte, IsCommand, error_of};

use crate::opcodes::*;
use arrayvec::ArrayVec;
use byteorder::{BigEndian, ByteOrder};

/// The most bytes of a command: those of an ERR.
pub const LONGEST_COMMAND: usize = 12;

/// The number of bytes of data in an ERR (this profile).
pub const ERROR_DATA: usize = 10;

/// The bytes of a command.
pub type CommandBytes = ArrayVec<u8, LONGEST_COMMAND>;

/// A command of the control link (NIC 8246). Every value of the fields is valid here.
#[derive(Clone, Copy, Debug, Drop, PartialEq, Eq)]
pub enum Command {
    /// No operation.
    Nop,
    /// Request for connection, receiver to sender. The receiver chooses the link.
    Rts { receive: u32, send: u32, link: u8 },
    /// Request for connection, sender to receiver. The sender chooses the byte size.
    Str { send: u32, receive: u32, size: u8 },
    /// Close: refuses a request, or closes a connection.
    Cls { my: u32, your: u32 },
    /// Allocate: permits this many more messages and bits on a link.
    All { link: u8, messages: u16, bits: u32 },
    /// Give back: asks for parts of the allocation, in 128ths of its messages and of its bits.
    Gvb { link: u8, fm: u8, fb: u8 },
    /// Return: gives back this much of the allocation.
    Ret { link: u8, messages: u16, bits: u32 },
    /// Interrupt by the receiver.
    Inr { link: u8 },
    /// Interrupt by the sender.
    Ins { link: u8 },
    /// Echo request.
    Eco { byte: u8 },
    /// Echo reply.
    Erp { byte: u8 },
    /// Error detected, with the bytes in error.
    Err { code: u8, bytes: [u8; ERROR_DATA] },
    /// Reset.
    Rst,
    /// Reset reply.
    Rrp,
}

// Appends bytes that fit.
fn push_bytes(text: &mut CommandBytes, bytes: &[u8])
    requires { length text.old.items + length bytes.now ≤ LONGEST_COMMAND }
    ensures items { text.new.items ≡ text.old.items ++ bytes.now }
    ensures len { length text.new.items ≡ length text.old.items + length bytes.now }
    ensures small { All IsByte bytes.now }
{
    text.try_extend_from_slice(bytes).unwrap();
}

// Appends a two-byte number.
fn push_short(text: &mut CommandBytes, number: u16)
    requires { length text.old.items + 2 ≤ LONGEST_COMMAND }
    ensures items { text.new.items ≡ text.old.items ++ to_be_bytes w16 number }
    ensures len { length text.new.items ≡ length text.old.items + 2 }
{
    let mut bytes = [0; 2];
    BigEndian::write_u16(&mut bytes, number);
    push_bytes(text, &bytes);
}

// Appends a four-byte number.
fn push_word(text: &mut CommandBytes, number: u32)
    requires { length text.old.items + 4 ≤ LONGEST_COMMAND }
    ensures items { text.new.items ≡ text.old.items ++ to_be_bytes w32 number }
    ensures len { length text.new.items ≡ length text.old.items + 4 }
{
    let mut bytes = [0; 4];
    BigEndian::write_u32(&mut bytes, number);
    push_bytes(text, &bytes);
}

// Just these bytes.
fn bytes_only(bytes: &[u8]) -> CommandBytes
    requires { length bytes.now ≤ LONGEST_COMMAND }
    ensures items { result.items ≡ bytes.now }
    ensures len { length result.items ≡ length bytes.now }
{
    let mut text = ArrayVec::new();
    push_bytes(&mut text, bytes);
    text
}

// An opcode and two sockets.
fn two_sockets(opcode: u8, first: u32, second: u32) -> CommandBytes
    ensures items { result.items ≡ opcode ∷ to_be_bytes w32 first ++ to_be_bytes w32 second }
    ensures len { length result.items ≡ 9 }
{
    let mut text = bytes_only(&[opcode]);
    push_word(&mut text, first);
    push_word(&mut text, second);
    text
}

// An opcode, two sockets, and a link or a size.
fn two_sockets_and(opcode: u8, first: u32, second: u32, last: u8) -> CommandBytes
    ensures { result.items ≡ opcode ∷ to_be_bytes w32 first ++ to_be_bytes w32 second ++ last ∷ [] }
{
    let mut text = two_sockets(opcode, first, second);
    text.push(last);
    text
}

// An opcode, a link, and the numbers of messages and bits.
fn amounts(opcode: u8, link: u8, messages: u16, bits: u32) -> CommandBytes
    ensures { result.items ≡ opcode ∷ link ∷ to_be_bytes w16 messages ++ to_be_bytes w32 bits }
{
    let mut text = bytes_only(&[opcode, link]);
    push_short(&mut text, messages);
    push_word(&mut text, bits);
    text
}

// The opcode of ERR, its code and its data.
fn error_bytes(code: u8, bytes: [u8; ERROR_DATA]) -> CommandBytes
    ensures items { result.items ≡ 11 ∷ code ∷ bytes }
    ensures command { IsCommand (Command.Err code bytes) }
{
    let mut text = bytes_only(&[ERR, code]);
    push_bytes(&mut text, &bytes);
    text
}

/// The bytes of a command: its opcode, then its fields in order, numbers most significant byte
/// first (NIC 8246).
pub fn put_command(command: &Command) -> CommandBytes
    ensures spelling { result.items ≡ spelling command.now }
    // Each value of the type is a command: its fields fit their widths.
    ensures command { IsCommand command.now }
    ensures some { 0 < length result.items }
    ensures fits { length result.items ≤ LONGEST_COMMAND }
{
    match *command {
        Command::Nop => bytes_only(&[NOP]),
        Command::Rts {
            receive,
            send,
            link,
        } => two_sockets_and(RTS, receive, send, link),
        Command::Str {
            send,
            receive,
            size,
        } => two_sockets_and(STR, send, receive, size),
        Command::Cls { my, your } => two_sockets(CLS, my, your),
        Command::All {
            link,
            messages,
            bits,
        } => amounts(ALL, link, messages, bits),
        Command::Gvb { link, fm, fb } => bytes_only(&[GVB, link, fm, fb]),
        Command::Ret {
            link,
            messages,
            bits,
        } => amounts(RET, link, messages, bits),
        Command::Inr { link } => bytes_only(&[INR, link]),
        Command::Ins { link } => bytes_only(&[INS, link]),
        Command::Eco { byte } => bytes_only(&[ECO, byte]),
        Command::Erp { byte } => bytes_only(&[ERP, byte]),
        Command::Err { code, bytes } => error_bytes(code, bytes),
        Command::Rst => bytes_only(&[RST]),
        Command::Rrp => bytes_only(&[RRP]),
    }
}

// Copies as many bytes from the front as fit.
fn copy_front(to: &mut [u8], from: &[u8])
    ensures { to.new ≡ take (length to.old) from.now ++ drop (length (take (length to.old) from.now)) to.old }
{
    let count = from.len().min(to.len());
    to[..count].copy_from_slice(&from[..count]);
}

/// The ERR with this code about a received command: its data are the command's bytes, padded to ten
/// with zeros (this profile).
pub fn error_for(code: u8, command: &Command) -> Command
    ensures { result ≡ error_of code command.now }
{
    let mut bytes = [0; ERROR_DATA];
    copy_front(&mut bytes, put_command(command).as_slice());
    Command::Err { code, bytes }
}

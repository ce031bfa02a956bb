//! The words of a command.
ghost use Rattle.std.specs.Prelude.{◌≡◌, ◌+◌, ◌≤◌, ◌++◌, length, codes};
ghost use Rattle.ncp_play_buffer.specs.Lines.{field, hex_of};
ghost use Rattle.ncp_play_files.specs.Lines.{command_words};

use ncp_play_buffer::{OutBuffer, PAGE_SIZE, push_field};
use ncp_wire::{Command, ERROR_DATA};

/// The most bytes of a command's words.
pub const MAX_COMMAND_LEN: usize = 60;

// The bytes before the number of a command with one number: its name, and that of the number.
const BEFORE_NUMBER: usize = 9;

// Appends the words of a command with one field. It is inlined, so that the bytes
// before the number have a known length and are copied in one or two moves.
#[inline(always)]
fn push_one(page: &mut OutBuffer, words: &[u8; BEFORE_NUMBER], number: u8)
    requires { length page.old + MAX_COMMAND_LEN ≤ PAGE_SIZE }
    ensures bytes { page.new ≡ page.old ++ field words.now number }
    ensures len { length page.new ≤ length page.old + MAX_COMMAND_LEN }
{
    push_field(page, words, u32::from(number));
}

// Appends the words of an RTS.
fn push_rts(page: &mut OutBuffer, receive: u32, send: u32, link: u8)
    requires { length page.old + MAX_COMMAND_LEN ≤ PAGE_SIZE }
    ensures bytes { page.new ≡ page.old ++ command_words (Command.Rts receive send link) }
    ensures len { length page.new ≤ length page.old + MAX_COMMAND_LEN }
{
    push_field(page, b"RTS receive=", receive);
    push_field(page, b" send=", send);
    push_field(page, b" link=", u32::from(link));
}

// Appends the words of an STR.
fn push_str(page: &mut OutBuffer, send: u32, receive: u32, size: u8)
    requires { length page.old + MAX_COMMAND_LEN ≤ PAGE_SIZE }
    ensures bytes { page.new ≡ page.old ++ command_words (Command.Str send receive size) }
    ensures len { length page.new ≤ length page.old + MAX_COMMAND_LEN }
{
    push_field(page, b"STR send=", send);
    push_field(page, b" receive=", receive);
    push_field(page, b" size=", u32::from(size));
}

// Appends the words of a CLS.
fn push_cls(page: &mut OutBuffer, my: u32, your: u32)
    requires { length page.old + MAX_COMMAND_LEN ≤ PAGE_SIZE }
    ensures bytes { page.new ≡ page.old ++ command_words (Command.Cls my your) }
    ensures len { length page.new ≤ length page.old + MAX_COMMAND_LEN }
{
    push_field(page, b"CLS my=", my);
    push_field(page, b" your=", your);
}

// Appends the amounts of an ALL or a RET after the words up to its link.
fn push_amounts(
    page: &mut OutBuffer,
    words: &[u8; BEFORE_NUMBER],
    link: u8,
    messages: u16,
    bits: u32,
)
    requires { length page.old + MAX_COMMAND_LEN ≤ PAGE_SIZE }
    ensures bytes { page.new ≡ page.old ++ (field words.now link ++ field (codes " messages=") messages ++ field (codes " bits=") bits) }
    ensures len { length page.new ≤ length page.old + MAX_COMMAND_LEN }
{
    push_field(page, words, u32::from(link));
    push_field(page, b" messages=", u32::from(messages));
    push_field(page, b" bits=", bits);
}

// Appends the words of a GVB.
fn push_gvb(page: &mut OutBuffer, link: u8, fm: u8, fb: u8)
    requires { length page.old + MAX_COMMAND_LEN ≤ PAGE_SIZE }
    ensures bytes { page.new ≡ page.old ++ command_words (Command.Gvb link fm fb) }
    ensures len { length page.new ≤ length page.old + MAX_COMMAND_LEN }
{
    push_field(page, b"GVB link=", u32::from(link));
    push_field(page, b" fm=", u32::from(fm));
    push_field(page, b" fb=", u32::from(fb));
}

/// Appends an ERR's code and data, or those of a fault, after the words up to the code.
#[inline(always)]
pub fn push_error(page: &mut OutBuffer, words: &[u8], code: u8, bytes: &[u8; ERROR_DATA])
    requires words { length words.now ≤ 20 }
    requires room { length page.old + MAX_COMMAND_LEN ≤ PAGE_SIZE }
    ensures bytes { page.new ≡ page.old ++ (field words.now code ++ codes " data=" ++ hex_of bytes.now) }
    ensures len { length page.new ≤ length page.old + MAX_COMMAND_LEN }
{
    push_field(page, words, u32::from(code));
    page.push_text(b" data=");
    page.push_hex(bytes);
}

/// Appends a command's name and fields. There has to be room for [`MAX_COMMAND_LEN`].
// Inlined in the loop over commands, which then needs no call for each of them.
#[inline(always)]
pub fn push_command(page: &mut OutBuffer, command: &Command)
    requires { length page.old + MAX_COMMAND_LEN ≤ PAGE_SIZE }
    ensures bytes { page.new ≡ page.old ++ command_words command.now }
    ensures len { length page.new ≤ length page.old + MAX_COMMAND_LEN }
{
    match *command {
        Command::Nop => page.push_text(b"NOP"),
        Command::Rts {
            receive,
            send,
            link,
        } => push_rts(page, receive, send, link),
        Command::Str {
            send,
            receive,
            size,
        } => push_str(page, send, receive, size),
        Command::Cls { my, your } => push_cls(page, my, your),
        Command::All {
            link,
            messages,
            bits,
        } => push_amounts(page, b"ALL link=", link, messages, bits),
        Command::Gvb { link, fm, fb } => push_gvb(page, link, fm, fb),
        Command::Ret {
            link,
            messages,
            bits,
        } => push_amounts(page, b"RET link=", link, messages, bits),
        Command::Inr { link } => push_one(page, b"INR link=", link),
        Command::Ins { link } => push_one(page, b"INS link=", link),
        Command::Eco { byte } => push_one(page, b"ECO data=", byte),
        Command::Erp { byte } => push_one(page, b"ERP data=", byte),
        Command::Err { code, bytes } => push_error(page, b"ERR code=", code, &bytes),
        Command::Rst => page.push_text(b"RST"),
        Command::Rrp => page.push_text(b"RRP"),
    }
}

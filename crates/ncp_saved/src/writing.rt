//! Appending values to the bytes of a saved host.
ghost use Rattle.std.specs.Prelude.{◌≡◌, ◌≤◌, ◌<◌, ◌^◌, ◌++◌, ◌∷◌, [], map, length, OnOk};
ghost use Rattle.ncp_numbers.specs.Bytes.{bytes_of};
ghost use Rattle.ncp_saved.specs.Values.{request_saved};
ghost use Rattle.ncp_saved.specs.Values.{two_bytes, four_bytes, mark, bits_saved, command_saved, error_saved, echoed_saved, pair_saved};

use ncp_bits::{BitStore, Bits, MAX_BITS};
use ncp_model::{Error, Pair};
use ncp_wire::Command;
use std::alloc::AllocError;

// The most bytes of one piece of a store's bits.
const PIECE: usize = MAX_BITS / 8;

/// Appends a byte.
pub fn put_byte(out: &mut Vec<u8>, byte: u8) -> Result<(), AllocError>
    ensures { OnOk result (out.new.items ≡ out.old.items ++ byte ∷ []) }
{
    out.push(byte)?;
    Ok(())
}

/// Appends a number in two bytes.
pub fn put_two(out: &mut Vec<u8>, number: u16) -> Result<(), AllocError>
    ensures { OnOk result (out.new.items ≡ out.old.items ++ two_bytes number) }
{
    put_byte(out, (number / 256) as u8)?;
    put_byte(out, (number % 256) as u8)
}

/// Appends a number in four bytes.
pub fn put_four(out: &mut Vec<u8>, number: u32) -> Result<(), AllocError>
    ensures { OnOk result (out.new.items ≡ out.old.items ++ four_bytes number) }
{
    put_two(out, (number / 65536) as u16)?;
    put_two(out, (number % 65536) as u16)
}

/// Appends a flag.
pub fn put_mark(out: &mut Vec<u8>, set: bool) -> Result<(), AllocError>
    ensures { OnOk result (out.new.items ≡ out.old.items ++ mark set ∷ []) }
{
    put_byte(out, if set { 1 } else { 0 })
}

/// Appends four flags.
pub fn put_marks(out: &mut Vec<u8>, marks: [bool; 4]) -> Result<(), AllocError>
    ensures { OnOk result (out.new.items ≡ out.old.items ++ map mark marks) }
{
    put_mark(out, marks[0])?;
    put_mark(out, marks[1])?;
    put_mark(out, marks[2])?;
    put_mark(out, marks[3])
}

/// Appends bytes.
pub fn put_bytes(out: &mut Vec<u8>, bytes: &[u8]) -> Result<(), AllocError>
    ensures { OnOk result (out.new.items ≡ out.old.items ++ bytes.now) }
{
    out.extend_from_slice(bytes)?;
    Ok(())
}

/// Appends bits as whole bytes, padded with zeros.
pub fn put_whole(out: &mut Vec<u8>, bits: &Bits) -> Result<(), AllocError>
    ensures { OnOk result (out.new.items ≡ out.old.items ++ bytes_of bits.now) }
{
    let mut bytes = [0; PIECE];
    let _len = bits.len();
    let used = bits.to_bytes(&mut bytes);
    put_bytes(out, &bytes[..used])
}

/// Empties a store, and appends its bits as whole bytes, padded with zeros.
pub fn put_store<S: BitStore>(out: &mut Vec<u8>, store: &mut S) -> Result<(), AllocError>
    ensures { OnOk result (out.new.items ≡ out.old.items ++ bytes_of (S.held store.old)) }
{
    while store.len() > MAX_BITS {
        put_whole(out, &store.take(MAX_BITS))?;
    }
    let rest = store.len();
    put_whole(out, &store.take(rest))
}

/// Appends the number of bits, then the bits.
#[tactic(auto, unfolding(crate::specs::Values::bits_saved))]
pub fn put_bits(out: &mut Vec<u8>, bits: &Bits) -> Result<(), AllocError>
    ensures { OnOk result (out.new.items ≡ out.old.items ++ bits_saved bits.now) }
{
    put_four(out, bits.len() as u32)?;
    put_whole(out, bits)
}

/// Appends the sockets of a connection.
#[tactic(auto, unfolding(crate::specs::Values::pair_saved))]
pub fn put_pair(out: &mut Vec<u8>, pair: Pair) -> Result<(), AllocError>
    ensures { OnOk result (out.new.items ≡ out.old.items ++ pair_saved pair) }
{
    put_four(out, pair.local)?;
    put_four(out, pair.remote)
}

// Appends an opcode and two sockets.
fn put_sockets(out: &mut Vec<u8>, opcode: u8, first: u32, second: u32) -> Result<(), AllocError>
    ensures { OnOk result (out.new.items ≡ out.old.items ++ opcode ∷ four_bytes first ++ four_bytes second) }
{
    put_byte(out, opcode)?;
    put_four(out, first)?;
    put_four(out, second)
}

// Appends an opcode, two sockets, and a link or a size.
fn put_request(
    out: &mut Vec<u8>,
    opcode: u8,
    first: u32,
    second: u32,
    last: u8,
) -> Result<(), AllocError>
    ensures { OnOk result (out.new.items ≡ out.old.items ++ request_saved opcode first second last) }
{
    put_sockets(out, opcode, first, second)?;
    put_byte(out, last)
}

// Appends an opcode, a link, and the numbers of messages and bits.
fn put_amounts(
    out: &mut Vec<u8>,
    opcode: u8,
    link: u8,
    messages: u16,
    bits: u32,
) -> Result<(), AllocError>
    ensures { OnOk result (out.new.items ≡ out.old.items ++ opcode ∷ link ∷ two_bytes messages ++ four_bytes bits) }
{
    put_bytes(out, &[opcode, link])?;
    put_two(out, messages)?;
    put_four(out, bits)
}

// Appends a code, the number of bytes of its data, and the data.
fn put_data(out: &mut Vec<u8>, code: u8, bytes: &[u8]) -> Result<(), AllocError>
    requires { length bytes.now < 2 ^ 8 }
    ensures { OnOk result (out.new.items ≡ out.old.items ++ code ∷ length bytes.now ∷ bytes.now) }
{
    put_bytes(out, &[code, bytes.len() as u8])?;
    put_bytes(out, bytes)
}

/// Appends a command.
#[tactic(auto, unfolding(crate::specs::Values::command_saved, crate::specs::Values::error_saved))]
pub fn put_command(out: &mut Vec<u8>, command: &Command) -> Result<(), AllocError>
    ensures { OnOk result (out.new.items ≡ out.old.items ++ command_saved command.now) }
{
    match *command {
        Command::Nop => put_byte(out, 0),
        Command::Rts {
            receive,
            send,
            link,
        } => put_request(out, 1, receive, send, link),
        Command::Str {
            send,
            receive,
            size,
        } => put_request(out, 2, send, receive, size),
        Command::Cls { my, your } => put_sockets(out, 3, my, your),
        Command::All {
            link,
            messages,
            bits,
        } => put_amounts(out, 4, link, messages, bits),
        Command::Gvb { link, fm, fb } => put_bytes(out, &[5, link, fm, fb]),
        Command::Ret {
            link,
            messages,
            bits,
        } => put_amounts(out, 6, link, messages, bits),
        Command::Inr { link } => put_bytes(out, &[7, link]),
        Command::Ins { link } => put_bytes(out, &[8, link]),
        Command::Eco { byte } => put_bytes(out, &[9, byte]),
        Command::Erp { byte } => put_bytes(out, &[10, byte]),
        Command::Err { code, bytes } => {
            put_byte(out, 11)?;
            put_error(out, &Error { code, bytes })
        }
        Command::Rst => put_byte(out, 12),
        Command::Rrp => put_byte(out, 13),
    }
}

/// Appends a received error.
#[tactic(auto, unfolding(crate::specs::Values::error_saved))]
pub fn put_error(out: &mut Vec<u8>, error: &Error) -> Result<(), AllocError>
    ensures { OnOk result (out.new.items ≡ out.old.items ++ error_saved error.now) }
{
    put_data(out, error.code, &error.bytes)
}

/// Appends the byte of the last ERP that answered an echo, if there was one.
#[tactic(auto, unfolding(crate::specs::Values::echoed_saved))]
pub fn put_echoed(out: &mut Vec<u8>, echoed: Option<u8>) -> Result<(), AllocError>
    ensures { OnOk result (out.new.items ≡ out.old.items ++ echoed_saved echoed) }
{
    match echoed {
        Some(byte) => put_bytes(out, &[1, byte]),
        None => put_byte(out, 0),
    }
}

/// Appends three numbers in four bytes each.
pub fn put_three(out: &mut Vec<u8>, first: u32, second: u32, third: u32) -> Result<(), AllocError>
    ensures { OnOk result (out.new.items ≡ out.old.items ++ four_bytes first ++ four_bytes second ++ four_bytes third) }
{
    put_four(out, first)?;
    put_four(out, second)?;
    put_four(out, third)
}

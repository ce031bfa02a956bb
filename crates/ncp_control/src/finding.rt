//! `find_fault`.
ghost use Rattle.std.specs.Prelude.{◌≡◌, ◌%◌, length};
ghost use Rattle.ncp_numbers.specs.Bytes.{bytes_of};
ghost use Rattle.ncp_control.specs.Reading.{fault_in};

use crate::front::{byte_in, fault_at, size_within};
use ncp_bits::Part;
use ncp_wire::CommandFault;

/// The fault of a control text of whole bytes, if it has one: the one that [`crate::Commands`]
/// returns after the commands. Reads only the opcode of each command, and builds no command.
// Not inlined into the loops that call it, since few messages have a control text.
#[inline(never)]
pub fn find_fault(text: &Part<'_>) -> Option<CommandFault>
    requires { length text.now % 8 ≡ 0 }
    ensures { result ≡ fault_in (bytes_of text.now) }
{
    let count = text.len() / 8;
    let mut offset = 0;
    while offset < count {
        match size_within(byte_in(text, offset), count - offset) {
            Some(size) => offset += size,
            None => return Some(fault_at(text, offset)),
        }
    }
    None
}

//! Writing into the buffers of C.
ghost use Rattle.std.specs.Prelude.{◌≡◌, ◌≤◌, length};
ghost use Rattle.ncp_wire.specs.Spelling.{spelling};
ghost use Rattle.ncp_embed.specs.Exports.{message_over, command_over};

use ncp_bits::Bits;
use ncp_results::LONGEST_MESSAGE;
use ncp_wire::{Command, LONGEST_COMMAND, put_command};

// Writes a message to the front of a buffer, and returns its length in bits.
pub(crate) fn write_message(message: &Bits, out: &mut [u8]) -> usize
    requires { LONGEST_MESSAGE ≤ length out.old }
    ensures bits { result ≡ length message.now }
    ensures out { out.new ≡ message_over message.now out.old }
{
    let bits = message.len();
    let _used = message.to_bytes(out);
    bits
}

// Writes a command to the front of a buffer, and returns its number of bytes.
pub(crate) fn write_command(command: &Command, out: &mut [u8]) -> usize
    requires { LONGEST_COMMAND ≤ length out.old }
    ensures bytes { result ≡ length (spelling command.now) }
    ensures out { out.new ≡ command_over command.now out.old }
{
    let spelled = put_command(command);
    let count = spelled.len();
    out[..count].copy_from_slice(spelled.as_slice());
    count
}

//! The commands of a control message, one by one: a receiver can read what a peer asks for.
ghost use Rattle.std.specs.Prelude.{◌≡◌};
ghost use Rattle.ncp_bits.specs.Bits.{read_bytes};
ghost use Rattle.ncp_embed.specs.Buffers.{command_put, bytes_put};
ghost use Rattle.ncp_embed.specs.FromBits.{code_of_command, command_read};

use crate::writing::write_command;
use ncp_bits::Part;
use ncp_results::{DONE, NOTHING, SHORT_BUFFER, bits_code, command_in};
use ncp_wire::LONGEST_COMMAND;

/// Writes the command at index `place` (the first is 0) of a control message, given as the first
/// `bits` bits of a buffer, to the front of another buffer, and its number of bytes. Needs no host.
///
/// Refused, in this order: `BITS` and the number of the bits fault, `SHORT_BUFFER` (fewer than
/// `LONGEST_COMMAND` bytes), `NOTHING` (fewer commands, or no control message).
#[unsafe(no_mangle)]
pub extern "C" fn ncp_embed_command(
    bytes: &[u8],
    bits: usize,
    place: u32,
    out: &mut [u8],
    size: &mut usize,
) -> u32
    ensures code { result ≡ code_of_command (read_bytes bytes.now bits) place out.old }
    ensures command { out.new ≡ command_put (command_read (read_bytes bytes.now bits) place) out.old }
    ensures size { size.new ≡ bytes_put (command_read (read_bytes bytes.now bits) place) out.old size.old }
{
    let came = match Part::from_bytes(bytes, bits) {
        Ok(came) => came,
        Err(fault) => return bits_code(fault),
    };
    if out.len() < LONGEST_COMMAND {
        return SHORT_BUFFER;
    }
    match command_in(&came, place) {
        Some(command) => {
            *size = write_command(&command, out);
            DONE
        }
        None => NOTHING,
    }
}

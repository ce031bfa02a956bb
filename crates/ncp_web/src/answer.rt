//! The result codes for a page, and writing bytes and faults for it.
ghost use Rattle.std.specs.Prelude.{◌≡◌, ◌≢◌, min, take, drop, length};
ghost use Rattle.ncp_web.specs.Bytes.{code_of_played};

use ncp_bits::MAX_BITS;
use ncp_play_notes::PlayFault;
use ncp_play_stream::MemorySink;
use std::alloc::Global;

/// The call succeeded, and the result is good or the function has none.
pub const DONE: u32 = 0;
/// The call succeeded, and the result is bad: a message file is not sound, an audit has findings,
/// or a call of a script was refused. The bytes are written all the same.
pub const BAD: u32 = 1;
/// A fault, which is written as text.
pub const FAULT: u32 = 2;
/// A memory allocation failed.
pub const NO_MEMORY: u32 = 3;
/// There is no session at the handle.
pub const NO_SESSION: u32 = 4;
/// A line has nothing that can be played or read.
pub const NO_LINE: u32 = 5;
/// The buffer is too short for the output. A prefix is written.
pub const FULL: u32 = 6;
/// There is nothing to return.
pub const NOTHING: u32 = 7;
/// The call succeeded, and the line goes on: playing it again does its next part.
pub const GOES_ON: u32 = 8;

/// The size of the longest message in bytes.
pub const LONGEST_MESSAGE: usize = MAX_BITS / 8;

// Copies the contents of a sink to the front of a buffer, as far as they fit, and returns the
// number of bytes copied.
pub(crate) fn copy_out(sink: &MemorySink, out: &mut [u8]) -> usize
    ensures count { result ≡ min (length sink.now.written) (length out.old) }
    ensures front { take result out.new ≡ take result sink.now.written }
    ensures rest { drop result out.new ≡ drop result out.old }
{
    let bytes = sink.bytes();
    let count = bytes.len().min(out.len());
    out[..count].copy_from_slice(&bytes[..count]);
    count
}

// Returns the code of an answer. Writes a fault as the program prints it.
pub(crate) fn conclude(
    alloc: Global,
    answer: Result<bool, PlayFault>,
    error: &mut [u8],
    told: &mut usize,
) -> u32
    ensures { result ≢ NO_MEMORY → result ≡ code_of_played answer }
{
    *told = 0;
    match answer {
        Ok(true) => DONE,
        Ok(false) => BAD,
        Err(fault) => {
            let Ok(mut sink) = MemorySink::new(alloc, error.len(), None) else {
                return NO_MEMORY;
            };
            let _untold = fault.tell(&mut sink);
            *told = copy_out(&sink, error);
            FAULT
        }
    }
}

//! Opening a session, playing it line by line, and closing it.
ghost use Rattle.std.specs.Prelude.{◌≡◌, ◌≢◌};
ghost use Rattle.ncp_web.specs.Sessions.{OpensSession, StepsSession, code_of_refusal, code_of_step};
ghost use Rattle.std.specs.declared.option.Option.TheVariants.{None};

use crate::answer::{DONE, FULL, GOES_ON, NO_LINE, NO_MEMORY, NO_SESSION, copy_out};
use crate::handle::{BoxedSession, SessionHandle, put, take};
use crate::stage::{Refusal, SessionHosts};
use ncp_play_stream::MemorySink;
use std::alloc::Global;

// The code of a refusal.
pub(crate) fn code_of_refusal(refusal: Refusal) -> u32
    ensures { result ≡ code_of_refusal refusal }
{
    match refusal {
        Refusal::NoLine => NO_LINE,
        Refusal::NoMemory => NO_MEMORY,
        Refusal::Full => FULL,
    }
}

// The code of a step.
fn code_of_step(answer: Result<bool, Refusal>) -> u32
    ensures { result ≡ code_of_step answer }
{
    match answer {
        Ok(true) => GOES_ON,
        Ok(false) => DONE,
        Err(refusal) => code_of_refusal(refusal),
    }
}

/// Creates the hosts named in the first line of a script, and replaces the handle's session.
///
/// Refused, in this order, with the handle unchanged: `NO_LINE` (not a valid first line),
/// `NO_MEMORY`.
#[unsafe(no_mangle)]
pub extern "C" fn ncp_web_open(alloc: Global, handle: &mut SessionHandle, first: &[u8]) -> u32
    ensures opens { OpensSession first.now result handle.old.session handle.new.session }
    ensures err { result ≢ DONE → handle.new.session ≡ handle.old.session }
{
    let stage = match SessionHosts::new(alloc, first) {
        Ok(stage) => stage,
        Err(refusal) => return code_of_refusal(refusal),
    };
    match Box::new(alloc, BoxedSession { stage }) {
        Ok(held) => {
            put(handle, held);
            DONE
        }
        Err(_) => NO_MEMORY,
    }
}

/// Plays a line after the first up to its next note, and writes the lines of that note. An event
/// has one note. The word `settle` has one note for each of its events, and a last one with their
/// number. Until the last note the result is `GOES_ON`, and the page plays the same line again.
/// Playing another line ends the `settle`, too.
///
/// Refused, in this order: `NO_MEMORY` (for as many bytes as the buffer has), `NO_SESSION`,
/// `NO_LINE`, `NO_MEMORY`. After these nothing has happened. After `FULL` the part has happened,
/// and a prefix is written.
#[unsafe(no_mangle)]
pub extern "C" fn ncp_web_step(
    alloc: Global,
    handle: &mut SessionHandle,
    line: &[u8],
    out: &mut [u8],
    written: &mut usize,
) -> u32
    ensures step { StepsSession line.now result handle.old.session handle.new.session out.old out.new written.new }
{
    *written = 0;
    let Ok(mut sink) = MemorySink::new(alloc, out.len(), None) else {
        return NO_MEMORY;
    };
    let Some(mut held) = take(alloc, handle) else {
        return NO_SESSION;
    };
    let stepped = held.stage.step(alloc, line, &mut sink);
    put(handle, held);
    *written = copy_out(&sink, out);
    code_of_step(stepped)
}

/// Frees the hosts of the handle, if it has any.
#[unsafe(no_mangle)]
pub extern "C" fn ncp_web_close(alloc: Global, handle: &mut SessionHandle)
    ensures { handle.new.session ≡ None }
{
    *handle = SessionHandle::none(alloc);
}

//! Plays a case with the program's library, over bytes in memory.

use crate::cases::Case;
use ncp_play_program::run_command_line;
use ncp_play_stream::{MemorySink, MemorySource};
use std::alloc::AllocError;

/// Room for output in excess of the expected output, and for standard error.
const ROOM: usize = 65536;

/// The outcome of a case.
#[derive(Drop)]
pub(crate) struct Ended {
    pub status: u8,
    pub output: MemorySink,
    pub errors: MemorySink,
}

/// Plays a case. There is more room than its expected output takes, so all of that can be printed.
pub(crate) fn play(rt: &HostRuntime, case: &Case<'_>) -> Result<Ended, AllocError> {
    let room = case.output.len().saturating_add(ROOM);
    let mut source = MemorySource::new(case.input.as_slice(), None);
    let mut output = MemorySink::new(rt.alloc(), room, None)?;
    let mut errors = MemorySink::new(rt.alloc(), ROOM, None)?;
    let status = run_command_line(
        rt,
        case.words.as_slice(),
        &mut source,
        &mut output,
        &mut errors,
    );
    Ok(Ended {
        status,
        output,
        errors,
    })
}

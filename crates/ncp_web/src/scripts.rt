//! Scripts from bytes to bytes: play and record.
ghost use Rattle.std.specs.Prelude.{◌≡◌, [], false};
ghost use Rattle.ncp_web.specs.Bytes.{PlaysBytes, RecordsBytes, PlaysHostBytes, HandsOut, code_of_played};

use crate::answer::{NO_MEMORY, conclude, copy_out};
use crate::lent::WrittenLengths;
use ncp_bits::PackedStore;
use ncp_play_host::play_host;
use ncp_play_notes::PlayFault;
use ncp_play_stream::{MemorySink, MemorySource};
use ncp_play_world::{play_world, record_world};
use std::alloc::Global;

// Plays a script of several hosts into an empty sink.
fn played(alloc: Global, input: &[u8], sink: &mut MemorySink) -> Result<bool, PlayFault>
    requires clean { sink.old.failed ≡ false }
    requires empty { sink.old.written ≡ [] }
    ensures { PlaysBytes input.now result sink.new.written }
{
    let mut source = MemorySource::new(input, None);
    play_world::<PackedStore, _, _>(alloc, &mut source, sink)
}

// Records a script of several hosts into an empty sink.
fn recorded(alloc: Global, input: &[u8], sink: &mut MemorySink) -> Result<bool, PlayFault>
    requires clean { sink.old.failed ≡ false }
    requires empty { sink.old.written ≡ [] }
    ensures { RecordsBytes input.now result sink.new.written }
{
    let mut source = MemorySource::new(input, None);
    record_world::<PackedStore, _, _>(alloc, &mut source, sink)
}

// Plays a script of one host into an empty sink.
fn host_played(alloc: Global, input: &[u8], sink: &mut MemorySink) -> Result<bool, PlayFault>
    requires clean { sink.old.failed ≡ false }
    requires empty { sink.old.written ≡ [] }
    ensures { PlaysHostBytes input.now result sink.new.written }
{
    let mut source = MemorySource::new(input, None);
    play_host::<PackedStore, _, _>(alloc, &mut source, sink)
}

/// `play_world`: writes the lines of a script of two hosts, or of two to eight.
///
/// Returns `DONE` if no call was refused, `BAD` if one was, `FAULT` with the fault written, or
/// `NO_MEMORY` (for as many bytes as the buffer has).
#[unsafe(no_mangle)]
pub extern "C" fn ncp_web_play(
    alloc: Global,
    input: &[u8],
    out: &mut [u8],
    error: &mut [u8],
    lengths: &mut WrittenLengths,
) -> u32
    ensures played { HandsOut (PlaysBytes input.now) code_of_played result out.old out.new lengths.new.written }
{
    lengths.written = 0;
    let Ok(mut sink) = MemorySink::new(alloc, out.len(), None) else {
        return NO_MEMORY;
    };
    let answer = played(alloc, input, &mut sink);
    lengths.written = copy_out(&sink, out);
    conclude(alloc, answer, error, &mut lengths.told)
}

/// `record_world`: writes the message file of a script of two hosts, or of two to eight. Returns
/// the codes of [`ncp_web_play`].
#[unsafe(no_mangle)]
pub extern "C" fn ncp_web_record(
    alloc: Global,
    input: &[u8],
    out: &mut [u8],
    error: &mut [u8],
    lengths: &mut WrittenLengths,
) -> u32
    ensures recorded { HandsOut (RecordsBytes input.now) code_of_played result out.old out.new lengths.new.written }
{
    lengths.written = 0;
    let Ok(mut sink) = MemorySink::new(alloc, out.len(), None) else {
        return NO_MEMORY;
    };
    let answer = recorded(alloc, input, &mut sink);
    lengths.written = copy_out(&sink, out);
    conclude(alloc, answer, error, &mut lengths.told)
}

/// `play_host`: writes the lines of a script of one host. Returns the codes of [`ncp_web_play`].
#[unsafe(no_mangle)]
pub extern "C" fn ncp_web_host(
    alloc: Global,
    input: &[u8],
    out: &mut [u8],
    error: &mut [u8],
    lengths: &mut WrittenLengths,
) -> u32
    ensures played { HandsOut (PlaysHostBytes input.now) code_of_played result out.old out.new lengths.new.written }
{
    lengths.written = 0;
    let Ok(mut sink) = MemorySink::new(alloc, out.len(), None) else {
        return NO_MEMORY;
    };
    let answer = host_played(alloc, input, &mut sink);
    lengths.written = copy_out(&sink, out);
    conclude(alloc, answer, error, &mut lengths.told)
}

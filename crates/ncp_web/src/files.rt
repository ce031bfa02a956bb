//! Message files from bytes to bytes: show, check, follow and audit.
ghost use Rattle.std.specs.Prelude.{◌≡◌, ◌≢◌, [], false, IfOk, IfSome};
ghost use Rattle.ncp_monitor.specs.Judged.{new_monitor};
ghost use Rattle.ncp_play_audit.specs.Audited.{noted_first};
ghost use Rattle.ncp_web.specs.Bytes.{ShowsBytes, ChecksBytes, FollowsBytes, AuditsBytes, HandsOut, code_of_shown, code_of_checked};

use crate::answer::{NO_MEMORY, conclude, copy_out};
use crate::lent::{AuditOptions, WrittenLengths};
use ncp_follow::Follower;
use ncp_play_audit::{Auditor, audit};
use ncp_play_files::{FileFault, check, show};
use ncp_play_follow::follow;
use ncp_play_notes::PlayFault;
use ncp_play_stream::{MemorySink, MemorySource};
use std::alloc::{AllocError, Global};

// Writes the lines of a message file to an empty sink.
fn shown(input: &[u8], sink: &mut MemorySink) -> Result<(), FileFault>
    requires clean { sink.old.failed ≡ false }
    requires empty { sink.old.written ≡ [] }
    ensures { ShowsBytes input.now result sink.new.written }
{
    let mut source = MemorySource::new(input, None);
    show(&mut source, sink)
}

// Checks a message file, and writes the line with its contents to an empty sink.
fn checked(input: &[u8], sink: &mut MemorySink) -> Result<bool, FileFault>
    requires clean { sink.old.failed ≡ false }
    requires empty { sink.old.written ≡ [] }
    ensures { ChecksBytes input.now result sink.new.written }
{
    let mut source = MemorySource::new(input, None);
    check(&mut source, sink)
}

// Follows a message file, and writes the lines of its connections to an empty sink. `None` on
// allocation failure.
fn followed(
    alloc: Global,
    part: bool,
    input: &[u8],
    sink: &mut MemorySink,
) -> Option<Result<(), FileFault>>
    requires clean { sink.old.failed ≡ false }
    requires empty { sink.old.written ≡ [] }
    ensures { IfSome result (λ answer. FollowsBytes part input.now answer sink.new.written) }
{
    let Ok(mut follower) = Follower::new(alloc, part) else {
        return None;
    };
    let mut source = MemorySource::new(input, None);
    Some(follow(&mut follower, false, &mut source, sink))
}

// The auditor for these options.
fn auditor_for(alloc: Global, modes: &AuditOptions) -> Result<Auditor, AllocError>
    ensures monitor { IfOk result (λ auditor. auditor.monitor ≡ new_monitor modes.now.part) }
    ensures noted { IfOk result (λ auditor. auditor.noted ≡ noted_first modes.now.coverage) }
    ensures strict { IfOk result (λ auditor. auditor.strict ≡ false) }
{
    if modes.coverage {
        Auditor::with_coverage(alloc, modes.part, false)
    } else {
        Auditor::new(alloc, modes.part)
    }
}

// Audits a message file, and writes the lines of the findings to an empty sink. `None` on
// allocation failure.
fn audited(
    alloc: Global,
    modes: &AuditOptions,
    input: &[u8],
    sink: &mut MemorySink,
) -> Option<Result<bool, FileFault>>
    requires clean { sink.old.failed ≡ false }
    requires empty { sink.old.written ≡ [] }
    ensures { IfSome result (λ answer. AuditsBytes modes.now.part modes.now.standard modes.now.coverage input.now answer sink.new.written) }
{
    let Ok(mut auditor) = auditor_for(alloc, modes) else {
        return None;
    };
    let mut source = MemorySource::new(input, None);
    Some(audit(&mut auditor, modes.standard, &mut source, sink))
}

// Returns the code of an answer that has no result except a fault. Writes the fault.
fn conclude_file(
    alloc: Global,
    answer: Result<(), FileFault>,
    error: &mut [u8],
    told: &mut usize,
) -> u32
    ensures { result ≢ NO_MEMORY → result ≡ code_of_shown answer }
{
    match answer {
        Ok(()) => conclude(alloc, Ok(true), error, told),
        Err(fault) => conclude(alloc, Err(PlayFault::Feed(fault)), error, told),
    }
}

/// `show`: writes the lines of a message file.
///
/// Returns `DONE`, `FAULT` with the fault written, or `NO_MEMORY` (for as many bytes as the buffer
/// has).
#[unsafe(no_mangle)]
pub extern "C" fn ncp_web_show(
    alloc: Global,
    input: &[u8],
    out: &mut [u8],
    error: &mut [u8],
    lengths: &mut WrittenLengths,
) -> u32
    ensures shown { HandsOut (ShowsBytes input.now) code_of_shown result out.old out.new lengths.new.written }
{
    lengths.written = 0;
    let Ok(mut sink) = MemorySink::new(alloc, out.len(), None) else {
        return NO_MEMORY;
    };
    let answer = shown(input, &mut sink);
    lengths.written = copy_out(&sink, out);
    conclude_file(alloc, answer, error, &mut lengths.told)
}

/// `check`: writes the line with the contents of a message file.
///
/// Returns `DONE` if all is sound, `BAD` if it is not, `FAULT` with the fault written, or
/// `NO_MEMORY`.
#[unsafe(no_mangle)]
pub extern "C" fn ncp_web_check(
    alloc: Global,
    input: &[u8],
    out: &mut [u8],
    error: &mut [u8],
    lengths: &mut WrittenLengths,
) -> u32
    ensures checked { HandsOut (ChecksBytes input.now) code_of_checked result out.old out.new lengths.new.written }
{
    lengths.written = 0;
    let Ok(mut sink) = MemorySink::new(alloc, out.len(), None) else {
        return NO_MEMORY;
    };
    let answer = checked(input, &mut sink);
    lengths.written = copy_out(&sink, out);
    match answer {
        Ok(sound) => conclude(alloc, Ok(sound), error, &mut lengths.told),
        Err(fault) => conclude(alloc, Err(PlayFault::Feed(fault)), error, &mut lengths.told),
    }
}

/// `follow`: writes the lines of the connections of a message file of version 2, in the order of
/// opening. In a `part` of a capture two hosts can communicate without a reset.
///
/// Returns `DONE`, `FAULT` with the fault written after the connections before it, or `NO_MEMORY`
/// (for as many bytes as the buffer has, or for the state of the connections).
#[unsafe(no_mangle)]
pub extern "C" fn ncp_web_follow(
    alloc: Global,
    part: bool,
    input: &[u8],
    out: &mut [u8],
    error: &mut [u8],
    lengths: &mut WrittenLengths,
) -> u32
    ensures followed { HandsOut (FollowsBytes part input.now) code_of_shown result out.old out.new lengths.new.written }
{
    lengths.written = 0;
    lengths.told = 0;
    let Ok(mut sink) = MemorySink::new(alloc, out.len(), None) else {
        return NO_MEMORY;
    };
    let Some(answer) = followed(alloc, part, input, &mut sink) else {
        return NO_MEMORY;
    };
    lengths.written = copy_out(&sink, out);
    conclude_file(alloc, answer, error, &mut lengths.told)
}

/// `audit`: writes the lines of the findings of a message file of version 2. In a `part` of a
/// capture nothing is known of the earlier messages. With `standard`, the rules of this project's
/// profile are not checked; with `coverage`, the lines of what was not judged follow.
///
/// Returns `DONE` if there is no finding, `BAD` if there is one, `FAULT` with the fault written
/// after the findings before it, or `NO_MEMORY` (for as many bytes as the buffer has, or for the
/// state of the hosts).
#[unsafe(no_mangle)]
pub extern "C" fn ncp_web_audit(
    alloc: Global,
    modes: &AuditOptions,
    input: &[u8],
    out: &mut [u8],
    error: &mut [u8],
    lengths: &mut WrittenLengths,
) -> u32
    ensures audited { HandsOut (AuditsBytes modes.now.part modes.now.standard modes.now.coverage input.now) code_of_checked result out.old out.new lengths.new.written }
{
    lengths.written = 0;
    lengths.told = 0;
    let Ok(mut sink) = MemorySink::new(alloc, out.len(), None) else {
        return NO_MEMORY;
    };
    let Some(answer) = audited(alloc, modes, input, &mut sink) else {
        return NO_MEMORY;
    };
    lengths.written = copy_out(&sink, out);
    match answer {
        Ok(clean) => conclude(alloc, Ok(clean), error, &mut lengths.told),
        Err(fault) => conclude(alloc, Err(PlayFault::Feed(fault)), error, &mut lengths.told),
    }
}

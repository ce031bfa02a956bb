//! Allocation failures of the recorder.
use super::{print_refusal, text_of};
use crate::world::opening::{
    COMING_UP, COMING_UP_RECORDS, GIVING, GIVING_RECORDS, HEADER, HOSTS, SENDING, SENDING_RECORDS,
};
use crate::world::played::{Doing, Store, play, whole};
use ncp_play_notes::PlayFault;
use std::alloc::Global;
use std::process::Abort;
use std::test::Fail;

/// Records a script, and returns whether an allocation failed. If so, checks that the recorder
/// reports it after the records of everything before, or that a call was refused after the records
/// of the hosts' coming up.
fn is_refused(
    rt: &impl Abort,
    alloc: Global,
    store: Store,
    script: &[u8],
    before: &[u8],
    recording: &[u8],
) -> Result<bool, Fail> {
    let recorded = play(rt, alloc, &whole(Doing::Records, store, script))?;
    let answer = recorded.answer;
    let written = recorded.written();
    if answer == Ok(true) && written == recording {
        return Ok(false);
    }
    match answer {
        Ok(answered) => assert!(rt; !answered && written.starts_with(before)),
        Err(fault) => {
            assert!(rt; fault == PlayFault::OutOfMemory && fault.number() == 7);
            assert!(rt; recording.starts_with(written));
        }
    }
    Ok(true)
}

/// The outcome when an allocation of the recorder fails.
const STOOD: &str = "PlayFault 7 behind a beginning, or a call's refusal in the answer";

#[test]
fn recording(rt: HostRuntime) -> Result<(), Fail> {
    let alloc = rt.alloc();
    let script = text_of(alloc, &[HOSTS, COMING_UP, GIVING, SENDING])?;
    let before = text_of(alloc, &[HEADER, COMING_UP_RECORDS])?;
    let all = text_of(
        alloc,
        &[HEADER, COMING_UP_RECORDS, GIVING_RECORDS, SENDING_RECORDS],
    )?;
    let plain = is_refused(&rt, alloc, Store::Plain, &script, &before, &all)?;
    let packed = is_refused(&rt, alloc, Store::Packed, &script, &before, &all)?;
    print_refusal(&rt, plain || packed, STOOD)
}

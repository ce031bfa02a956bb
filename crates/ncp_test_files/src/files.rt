//! A file with a record of the greatest length. The lines and counts of other files are the cases
//! `show_*.cases` of `ncp_test_cases`.

use crate::shown::{checked, shown};
use ncp_play_stream::{MemorySink, MemorySource};
use std::alloc::{AllocError, Global};
use std::process::Abort;
use std::test::Fail;

// Room for the lines of the file.
const ROOM: usize = 4096;

// A file with one record, of the greatest length.
fn longest(alloc: Global) -> Result<Vec<u8>, AllocError> {
    let mut file = Vec::new(alloc);
    file.extend_from_slice(b"NCPI\x20\x00\x04\x07")?;
    file.resize(1030, 0)?;
    Ok(file)
}

#[test]
fn shows_the_longest_record(rt: HostRuntime) -> Result<(), Fail> {
    let file = longest(rt.alloc())?;
    let mut lines = MemorySink::new(rt.alloc(), ROOM, None)?;
    let answer = shown(&mut MemorySource::new(file.as_slice(), None), &mut lines);
    assert!(rt; answer == Some(Ok(())) && lines.bytes() == b"1 nop host=7 link=0\n".as_slice());
    let mut counts = MemorySink::new(rt.alloc(), ROOM, None)?;
    let answer = checked(&mut MemorySource::new(file.as_slice(), None), &mut counts);
    assert!(rt;
        answer == Some(Ok(true))
            && counts.bytes() == b"messages=1 short=0 regular=0 faults=0 bad=0\n".as_slice()
    );
    Ok(())
}

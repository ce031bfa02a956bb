//! Scripts of one host with a failing read or write, each in turn.
use crate::streams::play;
use ncp_play_files::FileFault;
use ncp_play_notes::PlayFault;
use std::alloc::Global;
use std::test::Fail;

/// The first script of one host.
const FIRST: &[u8] =
    b"host 1 2\nphase 2\nin 32 05020000\nin 80 0002000000080001000c\nphase 2\necho 2 65\necho 2 66\nout\n";

/// Its lines.
const FIRST_LINES: &[u8] =
    b"1 phase 2 ok down\n2 in stray\n3 in control 1\n4 phase 2 ok up\n5 echo 2 ok\n6 echo 2 refused Busy\n7 out host=2 link=0 bits=96\n  size=8 count=3\n  RRP\n  ECO data=65\n";

/// A script with a feed: an RST, and an RFNM when nothing is unanswered.
const FEED: &[u8] =
    b"host 1 2\nfeed\nNCPI\x00\x50\x00\x02\x00\x00\x00\x08\x00\x01\x00\x0c\x00\x20\x05\x02\x00\x00";

/// Its lines.
const FEED_LINES: &[u8] =
    b"1 in control 1\n2 in stray\n3 out host=2 link=0 bits=80\n  size=8 count=1\n  RRP\n4 out nothing\n";

// The result, and the number of bytes of lines written.
type Outcome = (Result<bool, PlayFault>, usize);

// The outcomes of the first script if a read fails after this many of its bytes or more.
const FIRST_STAGES: &[(usize, Outcome)] = &[
    (17, (Err(PlayFault::ReadFailed), 18)),
    (32, (Err(PlayFault::ReadFailed), 29)),
    (59, (Err(PlayFault::ReadFailed), 44)),
    (67, (Err(PlayFault::ReadFailed), 60)),
    (77, (Err(PlayFault::ReadFailed), 72)),
    (87, (Err(PlayFault::ReadFailed), 94)),
    (91, (Err(PlayFault::ReadFailed), 159)),
    (92, (Ok(false), 159)),
];

// The outcomes of the script with a feed.
const FEED_STAGES: &[(usize, Outcome)] = &[
    (14, (Err(PlayFault::Feed(FileFault::ReadFailed)), 0)),
    (30, (Err(PlayFault::Feed(FileFault::ReadFailed)), 15)),
    (36, (Err(PlayFault::Feed(FileFault::ReadFailed)), 26)),
    (37, (Ok(true), 91)),
];

// The outcome of a script if a read fails after its first `len` bytes. Before the first stage no
// line is read.
fn of_front(stages: &[(usize, Outcome)], len: usize) -> Outcome {
    let mut found = (Err(PlayFault::ReadFailed), 0);
    for &(from, outcome) in stages {
        if from <= len {
            found = outcome;
        }
    }
    found
}

// The outcome of the script with a feed if the write after the first `len` bytes of its lines
// fails.
fn feed_of_written(len: usize) -> Outcome {
    if len < FEED_LINES.len() {
        (Err(PlayFault::WriteFailed), len)
    } else {
        (Ok(true), FEED_LINES.len())
    }
}

// Whether playing the script with this failing read or write has this outcome.
fn is_played(
    alloc: Global,
    script: &[u8],
    (read, write): (Option<u32>, Option<u32>),
    (answer, len): Outcome,
    lines: &[u8],
) -> Result<bool, Fail> {
    Ok(play(alloc, script, read, write)?.is(answer, len, lines))
}

#[test]
fn each_failed_read_and_write_is_told(rt: HostRuntime) -> Result<(), Fail> {
    for before in 0..93u32 {
        let count = Some(before + 1);
        let len = before as usize;
        let is_told = is_played(
            rt.alloc(),
            FIRST,
            (count, None),
            of_front(FIRST_STAGES, len),
            FIRST_LINES,
        )? && is_played(
            rt.alloc(),
            FEED,
            (count, None),
            of_front(FEED_STAGES, len),
            FEED_LINES,
        )? && is_played(
            rt.alloc(),
            FEED,
            (None, count),
            feed_of_written(len),
            FEED_LINES,
        )?;
        assert!(rt; is_told, "behind {before}");
    }
    Ok(())
}

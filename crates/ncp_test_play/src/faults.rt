//! Each fault of a script: its number, its printed line, and its text.
use crate::said::expect_told;
use ncp_play_files::FileFault;
use ncp_play_notes::PlayFault;
use std::test::Fail;

// A fault, its number, and its printed line.
type Row<'a> = (PlayFault, u8, &'a [u8]);

const TOLD: &[Row<'static>] = &[
    (PlayFault::BadLine(7), 1, b"ncp: line 7: BadLine\n"),
    (
        PlayFault::LineTooLong(4294967295),
        2,
        b"ncp: line 4294967295: LineTooLong\n",
    ),
    (PlayFault::BadHosts, 3, b"ncp: BadHosts\n"),
    (
        PlayFault::Feed(FileFault::SpareNotZero),
        4,
        b"ncp: SpareNotZero\n",
    ),
    (
        PlayFault::Feed(FileFault::ReadFailed),
        4,
        b"ncp: ReadFailed\n",
    ),
    (PlayFault::ReadFailed, 5, b"ncp: ReadFailed\n"),
    (PlayFault::WriteFailed, 6, b"ncp: WriteFailed\n"),
    (PlayFault::OutOfMemory, 7, b"ncp: OutOfMemory\n"),
];

#[test]
fn faults_are_told(rt: HostRuntime) -> Result<(), Fail> {
    for (fault, number, line) in TOLD {
        expect_told(&rt, rt.alloc(), *fault, *number, line)?;
    }
    Ok(())
}

#[test]
fn faults_have_texts(rt: HostRuntime) -> Result<(), Fail> {
    const ROWS: &[(PlayFault, &str)] = &[
        (
            PlayFault::BadLine(7),
            "line 7 says nothing that can be played",
        ),
        (PlayFault::LineTooLong(7), "line 7 has more than 4096 bytes"),
        (PlayFault::BadHosts, "the first line names no proper hosts"),
        (
            PlayFault::Feed(FileFault::SpareNotZero),
            "in the feed: a spare bit behind a message is set",
        ),
        (PlayFault::ReadFailed, "a read failed"),
        (PlayFault::WriteFailed, "a write failed"),
        (PlayFault::OutOfMemory, "out of memory"),
    ];
    for (fault, text) in ROWS {
        assert!(rt; format!(in rt.alloc(); "{}", *fault)?.as_str() == *text);
    }
    Ok(())
}

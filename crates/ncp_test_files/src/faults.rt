//! The numbers, names and texts of faults, and the exit statuses.

use ncp_play_files::FileFault;
use ncp_play_program::status;
use ncp_play_stream::Failed;
use std::test::Fail;

#[test]
fn tells_faults(rt: HostRuntime) -> Result<(), Fail> {
    const ROWS: &[(FileFault, u8, &str, &str)] = &[
        (
            FileFault::BadHeader,
            1,
            "BadHeader",
            "not the header of a message file",
        ),
        (
            FileFault::Truncated,
            2,
            "Truncated",
            "the file ends inside a record",
        ),
        (
            FileFault::TooLong,
            3,
            "TooLong",
            "a record of more than 8192 bits",
        ),
        (
            FileFault::SpareNotZero,
            4,
            "SpareNotZero",
            "a spare bit behind a message is set",
        ),
        (FileFault::ReadFailed, 5, "ReadFailed", "a read failed"),
        (FileFault::WriteFailed, 6, "WriteFailed", "a write failed"),
        (
            FileFault::BadDirection,
            7,
            "BadDirection",
            "a record has neither direction",
        ),
        (
            FileFault::Mixed,
            8,
            "Mixed",
            "a record has another direction or host than the file can have",
        ),
    ];
    for (fault, number, name, text) in ROWS {
        let told = format!(in rt.alloc(); "{fault}")?;
        assert!(rt; *fault as u8 == *number && fault.name() == *name && told.as_str() == *text);
    }
    let told = format!(in rt.alloc(); "{Failed}")?;
    assert!(rt; told.as_str() == "a read or a write failed");
    Ok(())
}

#[test]
fn gives_exit_statuses(rt: HostRuntime) {
    assert!(rt; status(Ok(true)) == 0 && status(Ok(false)) == 1 && status(Err(())) == 2);
}

//! `PlayFault`.
ghost use Rattle.std.specs.Prelude.{◌≡◌, ◌+◌, ◌*◌, ◌≤◌, ◌||◌, ◌++◌, ℕ, List, Some, length, is_err};
ghost use Rattle.ncp_play_notes.specs.Faults.{number_of_play_fault, name_of_play_fault, line_of, place_words, fault_line, WroteOrBegan};

use ncp_play_buffer::{OutBuffer, PAGE_SIZE, push_field};
use ncp_play_files::{FileFault, MAX_LINE_LEN};
use ncp_play_script::MAX_LINE;
use ncp_play_stream::{Failed, Sink};
use thiserror::Error;

/// A fault that ends a script.
#[derive(Clone, Copy, Debug, Drop, PartialEq, Eq, Error)]
pub enum PlayFault {
    /// This line cannot be played: its words are no line of such a script, or it is a `feed` that
    /// no LF ends. Lines are counted from 1, skipped ones included.
    #[error("line {0} says nothing that can be played")]
    BadLine(u32),
    /// This line, which is not skipped, has more than [`MAX_LINE`] bytes. Checked before `BadLine`
    /// and `BadHosts`.
    #[error("line {0} has more than {MAX_LINE} bytes")]
    LineTooLong(u32),
    /// The first line that is not skipped does not name valid hosts, or there is no such line.
    #[error("the first line names no proper hosts")]
    BadHosts,
    /// A fault of the message file in the script.
    #[error("in the feed: {0}")]
    Feed(FileFault),
    #[error("a read failed")]
    ReadFailed,
    #[error("a write failed")]
    WriteFailed,
    #[error("out of memory")]
    OutOfMemory,
}

impl PlayFault {
    /// The fault's number.
    pub fn number(self) -> u8
        ensures { result ≡ number_of_play_fault self }
    {
        match self {
            PlayFault::BadLine(_) => 1,
            PlayFault::LineTooLong(_) => 2,
            PlayFault::BadHosts => 3,
            PlayFault::Feed(_) => 4,
            PlayFault::ReadFailed => 5,
            PlayFault::WriteFailed => 6,
            PlayFault::OutOfMemory => 7,
        }
    }

    /// The fault's name, as a program prints it.
    pub fn name(self) -> &'static str
        ensures { result.now ≡ name_of_play_fault self }
    {
        match self {
            PlayFault::BadLine(_) => "BadLine",
            PlayFault::LineTooLong(_) => "LineTooLong",
            PlayFault::BadHosts => "BadHosts",
            PlayFault::Feed(fault) => fault.name(),
            PlayFault::ReadFailed => "ReadFailed",
            PlayFault::WriteFailed => "WriteFailed",
            PlayFault::OutOfMemory => "OutOfMemory",
        }
    }

    /// The line of the script with the fault, counted from 1, if the fault has one.
    pub fn line(self) -> Option<u32>
        ensures { result ≡ line_of self }
    {
        match self {
            PlayFault::BadLine(line) => Some(line),
            PlayFault::LineTooLong(line) => Some(line),
            _ => None,
        }
    }

    /// Writes the line for standard error: `ncp: line 3: BadLine`, or `ncp: BadHosts`.
    pub fn tell<W: Sink>(self, sink: &mut W) -> Result<(), Failed>
        ensures output { (was : List ℕ)
            → W.written sink.old ≡ Some was → WroteOrBegan was (fault_line self) result (W.written sink.new) }
        ensures mark { W.has_failed sink.new ≡ (W.has_failed sink.old || is_err result) }
    {
        let mut page = OutBuffer::new();
        push_fault(&mut page, self);
        page.flush(sink)
    }
}

// Appends the line of the script, if the fault has one.
fn push_place(page: &mut OutBuffer, line: Option<u32>)
    requires { length page.old + MAX_LINE_LEN ≤ PAGE_SIZE }
    ensures bytes { page.new ≡ page.old ++ place_words line }
    ensures len { length page.new ≤ length page.old + MAX_LINE_LEN }
{
    if let Some(line) = line {
        push_field(page, b"line ", line);
        page.push_text(b": ");
    }
}

// Appends the line for standard error.
fn push_fault(page: &mut OutBuffer, fault: PlayFault)
    requires { length page.old + 2 * MAX_LINE_LEN ≤ PAGE_SIZE }
    ensures { page.new ≡ page.old ++ fault_line fault }
{
    page.push_text(b"ncp: ");
    push_place(page, fault.line());
    page.push_text(fault.name().as_bytes());
    page.push(b'\n');
}

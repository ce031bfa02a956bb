//! The two versions of a message file: their headers, and the records of both.
ghost use Rattle.std.specs.Prelude.{◌≡◌, ℕ, ◌+◌, ◌<◌, ◌≤◌, ◌||◌, List, true, false, length, drop, is_some, IfSome, IfOk, OnOk};
ghost use Rattle.ncp_play_buffer.specs.BufferedSources.{SameInlet, left_in, reads_left, read_failed, slack, work, Brings};
ghost use Rattle.ncp_play_files.specs.File.{version_of};
ghost use Rattle.ncp_play_files.specs.Versions.{direction_by, next_capture_point, next_in};
ghost use Rattle.ncp_play_files.specs.Results.{is_read_failed, is_write_failed};
ghost use Rattle.ncp_play_files.specs.Waiting.{is_waiting};
ghost use Rattle.ncp_play_files.specs.Steps.{ReadsVersion, ReadsOne, StandsWhole, FindsNext, ReadsNext};

use crate::file::{Direction, FileFault, LENGTH, need_record, take_record};
use ncp_bits::{Bits, MAX_BITS};
use ncp_play_buffer::BufferedSource;
use ncp_play_stream::Source;

/// The version of a message file.
#[derive(Clone, Copy, Debug, Drop, PartialEq, Eq)]
pub enum Version {
    /// Version 1: all messages have this direction.
    One(Direction),
    /// Version 2: each record begins with the capture point of its message.
    Two,
}

/// The capture point of a message between a host and its IMP.
#[derive(Clone, Copy, Debug, Drop, PartialEq, Eq)]
pub struct CapturePoint {
    /// The direction of the message.
    pub direction: Direction,
    /// The number of the host, if the file names it.
    pub at: Option<u8>,
}

/// A record in the in buffer whose message is still to be taken.
#[derive(Clone, Copy, Drop)]
pub(crate) struct Found {
    /// The capture point of its message.
    pub capture_point: CapturePoint,
    /// The number of bits of its message.
    pub len: usize,
}

/// The number of bytes of a header.
pub const HEADER: usize = 4;

/// The number of bytes of a capture point.
pub(crate) const PASSAGE: usize = 2;

/// An upper bound on the number of bytes of a record of either version.
pub(crate) const MAX_RECORD_LEN: usize = PASSAGE + LENGTH + MAX_BITS / 8;

// The version that a header names.
fn version_in(head: &[u8]) -> Option<Version>
    requires { length head.now ≡ HEADER }
    ensures { result ≡ version_of head.now }
{
    if head == b"NCPH".as_slice() {
        Some(Version::One(Direction::ToImp))
    } else if head == b"NCPI".as_slice() {
        Some(Version::One(Direction::FromImp))
    } else if head == b"NCPJ".as_slice() {
        Some(Version::Two)
    } else {
        None
    }
}

/// Reads the header of a file of either version.
pub fn read_version<S: Source>(input: &mut BufferedSource<'_, S>) -> Result<Version, FileFault>
    ensures output { (bytes : List ℕ) → Brings S.Source input.old bytes
        → ReadsVersion bytes result input.new.window.now (left_in S.Source input.new) }
    ensures mark { read_failed S.Source input.new ≡ (read_failed S.Source input.old || is_read_failed result) }
    ensures other { is_write_failed result ≡ false }
    ensures reads { slack S.Source input.old ≤ slack S.Source input.new + 1 }
    ensures taken { OnOk result (slack S.Source input.old ≤ slack S.Source input.new) }
    ensures lowers { reads_left S.Source input.new ≤ reads_left S.Source input.old }
    ensures same_inlet { SameInlet input.old input.new }
{
    if !input.window.need(input.source, HEADER)? {
        return Err(FileFault::BadHeader);
    }
    let Some(version) = version_in(&input.window.unread()[..HEADER]) else {
        return Err(FileFault::BadHeader);
    };
    input.window.skip(HEADER);
    Ok(version)
}

/// The direction that a byte names.
pub(crate) fn direction_by(byte: u8) -> Option<Direction>
    ensures { result ≡ direction_by byte }
{
    match byte {
        b'H' => Some(Direction::ToImp),
        b'I' => Some(Direction::FromImp),
        _ => None,
    }
}

// Reads the capture point before a message, if there is one. The direction is checked before the
// host is read.
#[inline(always)]
fn read_capture_point<S: Source>(
    input: &mut BufferedSource<'_, S>,
) -> Result<Option<CapturePoint>, FileFault>
    ensures output { (bytes : List ℕ) → Brings S.Source input.old bytes
        → ReadsOne next_capture_point bytes result input.new.window.now (left_in S.Source input.new) }
    ensures mark { read_failed S.Source input.new ≡ (read_failed S.Source input.old || is_read_failed result) }
    ensures other { is_write_failed result ≡ false }
    ensures reads { slack S.Source input.old ≤ slack S.Source input.new + 1 }
    ensures taken { IfOk result (λ found. is_some found ≡ true → slack S.Source input.old ≤ slack S.Source input.new) }
    ensures read_measure { work S.Source input.new ≤ work S.Source input.old }
    ensures lowers { reads_left S.Source input.new ≤ reads_left S.Source input.old }
    ensures unread { IfOk result (λ found. is_some found ≡ true
        → reads_left S.Source input.new ≡ reads_left S.Source input.old → input.new.window.now ≡ drop PASSAGE input.old.window.now) }
    ensures same_inlet { SameInlet input.old input.new }
{
    if !input.window.need(input.source, 1)? {
        return Ok(None);
    }
    let Some(direction) = direction_by(input.window.unread()[0]) else {
        return Err(FileFault::BadDirection);
    };
    if !input.window.need(input.source, PASSAGE)? {
        return Err(FileFault::Truncated);
    }
    let host = input.window.unread()[1];
    input.window.skip(PASSAGE);
    Ok(Some(CapturePoint {
        direction,
        at: Some(host),
    }))
}

/// The records of a file of one version, and the search for the next one.
pub(crate) trait Records: Copy {
    ghost use Rattle.ncp_play_files.specs.declared.version.Version.{Version};

    /// The version of the file.
    ghost version: { Self → Version };

    /// The version of the file.
    fn file(self) -> Version
        ensures { result ≡ version self };

    /// Reads until the in buffer has the message of the next record, if there is one. The bytes
    /// before the message are consumed.
    fn find_next<S: Source>(
        self,
        input: &mut BufferedSource<'_, S>,
    ) -> Result<Option<Found>, FileFault>
        ensures output { (bytes : List ℕ) → Brings S.Source input.old bytes
            → FindsNext (version self) bytes result input.new.window.now (left_in S.Source input.new) }
        ensures stands { IfOk result (λ next. IfSome next (λ found. StandsWhole input.new.window.now found.len)) }
        ensures mark { read_failed S.Source input.new ≡ (read_failed S.Source input.old || is_read_failed result) }
        ensures other { is_write_failed result ≡ false }
        ensures reads { slack S.Source input.old ≤ slack S.Source input.new + 1 }
        ensures taken { IfOk result (λ next. is_some next ≡ true → slack S.Source input.old ≤ slack S.Source input.new) }
        ensures read_measure { work S.Source input.new ≤ work S.Source input.old }
        ensures lowers { reads_left S.Source input.new ≤ reads_left S.Source input.old }
        ensures waited { IfOk result (λ next. is_some next ≡ true
            → is_waiting (version self) input.old.window.now ≡ true → reads_left S.Source input.new < reads_left S.Source input.old) }
        ensures same_inlet { SameInlet input.old input.new };
}

/// The records of a file of version 1, whose messages all have this direction.
#[derive(Clone, Copy, Drop)]
pub(crate) struct PlainRecords {
    pub direction: Direction,
}

impl Records for PlainRecords {
    ghost use Rattle.ncp_play_files.specs.declared.version.Version.TheVariants.{One};

    ghost version = { λ records. One records.direction };

    fn file(self) -> Version {
        Version::One(self.direction)
    }

    #[inline(always)]
    fn find_next<S: Source>(
        self,
        input: &mut BufferedSource<'_, S>,
    ) -> Result<Option<Found>, FileFault> {
        let Some(len) = need_record(input)? else {
            return Ok(None);
        };
        let capture_point = CapturePoint {
            direction: self.direction,
            at: None,
        };
        Ok(Some(Found { capture_point, len }))
    }
}

/// The records of a file of version 2. The direction is checked before the host after it is read;
/// then the message is read as in version 1.
#[derive(Clone, Copy, Drop)]
pub(crate) struct PlacedRecords;

impl Records for PlacedRecords {
    ghost use Rattle.ncp_play_files.specs.declared.version.Version.TheVariants.{Two};

    ghost version = { λ _. Two };

    fn file(self) -> Version {
        Version::Two
    }

    #[inline(always)]
    fn find_next<S: Source>(
        self,
        input: &mut BufferedSource<'_, S>,
    ) -> Result<Option<Found>, FileFault> {
        let Some(capture_point) = read_capture_point(input)? else {
            return Ok(None);
        };
        let Some(len) = need_record(input)? else {
            return Err(FileFault::Truncated);
        };
        Ok(Some(Found { capture_point, len }))
    }
}

/// Reads the next of these records into `message`, and returns the capture point of the message, if
/// there was one.
#[inline(always)]
pub(crate) fn read_next_of<S: Source, R: Records>(
    input: &mut BufferedSource<'_, S>,
    records: R,
    message: &mut Bits,
) -> Result<Option<CapturePoint>, FileFault>
    ensures output { (bytes : List ℕ) → Brings S.Source input.old bytes
        → ReadsNext (R.version records) bytes result message.new input.new.window.now (left_in S.Source input.new) }
    ensures mark { read_failed S.Source input.new ≡ (read_failed S.Source input.old || is_read_failed result) }
    ensures other { is_write_failed result ≡ false }
    ensures reads { slack S.Source input.old ≤ slack S.Source input.new + 1 }
    ensures taken { IfOk result (λ found. is_some found ≡ true → slack S.Source input.old ≤ slack S.Source input.new) }
    ensures read_measure { IfOk result (λ found. is_some found ≡ true → work S.Source input.new < work S.Source input.old) }
    ensures lowers { reads_left S.Source input.new ≤ reads_left S.Source input.old }
    ensures waited { IfOk result (λ found. is_some found ≡ true
        → is_waiting (R.version records) input.old.window.now ≡ true → reads_left S.Source input.new < reads_left S.Source input.old) }
    ensures same_inlet { SameInlet input.old input.new }
{
    let Some(found) = records.find_next(input)? else {
        return Ok(None);
    };
    take_record(input.window, found.len, message)?;
    Ok(Some(found.capture_point))
}

/// Reads the next record of a file of this version into `message`, and returns the capture point of
/// the message, if there was one. In version 2 the direction is checked before the host after it is
/// read; then the message is read as in version 1.
pub fn read_next<S: Source>(
    input: &mut BufferedSource<'_, S>,
    version: Version,
    message: &mut Bits,
) -> Result<Option<CapturePoint>, FileFault>
    ensures output { (bytes : List ℕ) → Brings S.Source input.old bytes
        → ReadsNext version bytes result message.new input.new.window.now (left_in S.Source input.new) }
    ensures mark { read_failed S.Source input.new ≡ (read_failed S.Source input.old || is_read_failed result) }
    ensures other { is_write_failed result ≡ false }
    ensures reads { slack S.Source input.old ≤ slack S.Source input.new + 1 }
    ensures taken { IfOk result (λ found. is_some found ≡ true → slack S.Source input.old ≤ slack S.Source input.new) }
    ensures read_measure { IfOk result (λ found. is_some found ≡ true → work S.Source input.new < work S.Source input.old) }
    ensures lowers { reads_left S.Source input.new ≤ reads_left S.Source input.old }
    ensures waited { IfOk result (λ found. is_some found ≡ true
        → is_waiting version input.old.window.now ≡ true → reads_left S.Source input.new < reads_left S.Source input.old) }
    ensures same_inlet { SameInlet input.old input.new }
{
    match version {
        Version::One(direction) => read_next_of(input, PlainRecords { direction }, message),
        Version::Two => read_next_of(input, PlacedRecords, message),
    }
}

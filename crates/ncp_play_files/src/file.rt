//! A message file: its faults, and the header and the records of version 1.
ghost use Rattle.std.specs.Prelude.{◌≡◌, ℕ, Option, ◌+◌, ◌<◌, ◌≤◌, ◌||◌, List, true, false, length, drop, slice_range, is_some, IfSome, IfOk, IfErr, OnOk};
ghost use Rattle.ncp_play_buffer.specs.BufferedSources.{SameInlet, left_in, reads_left, read_failed, slack, work, Brings};
ghost use Rattle.byteorder.specs.Endian.{big_number};
ghost use Rattle.ncp_numbers.specs.Bytes.{bytes_for};
ghost use Rattle.ncp_bits.specs.declared.bits.TheConstants.{MAX_BITS};
ghost use Rattle.ncp_play_files.specs.File.{name_of_fault, fault_of_bits};
ghost use Rattle.ncp_play_files.specs.Results.{is_read_failed, is_write_failed};
ghost use Rattle.ncp_play_files.specs.Steps.{ReadsHeader, StandsWhole, FindsRecord, FindsMessage, TakesRecord, ReadsRecord};
ghost use Rattle.ncp_play_files.specs.Waiting.{lacks_message};
ghost use Rattle.ncp_play_stream.specs.Streams.{RemainingInput};
ghost use Rattle.ncp_play_files.specs.declared.file.TheConstants.{LENGTH};

use crate::version::{MAX_RECORD_LEN, Version, read_version};
use byteorder::{BigEndian, ByteOrder};
use ncp_bits::{Bits, BitsFault, MAX_BITS, Part};
use ncp_play_buffer::{BufferedSource, InBuffer};
use ncp_play_stream::{Failed, Source};
use thiserror::Error;

/// The direction of the messages of a file.
#[derive(Clone, Copy, Debug, Drop, PartialEq, Eq)]
pub enum Direction {
    /// From a host to its IMP.
    ToImp,
    /// From an IMP to its host.
    FromImp,
}

/// Why bytes are no message file, or could not be read or written.
#[derive(Clone, Copy, Debug, Drop, PartialEq, Eq, Error)]
pub enum FileFault {
    #[error("not the header of a message file")]
    BadHeader = 1,
    #[error("the file ends inside a record")]
    Truncated = 2,
    #[error("a record of more than {MAX_BITS} bits")]
    TooLong = 3,
    #[error("a spare bit behind a message is set")]
    SpareNotZero = 4,
    #[error("a read failed")]
    ReadFailed = 5,
    #[error("a write failed")]
    WriteFailed = 6,
    #[error("a record has neither direction")]
    BadDirection = 7,
    #[error("a record has another direction or host than the file can have")]
    Mixed = 8,
}

impl FileFault {
    /// The name that a program prints.
    pub fn name(self) -> &'static str
        ensures { result.now ≡ name_of_fault self }
    {
        match self {
            FileFault::BadHeader => "BadHeader",
            FileFault::Truncated => "Truncated",
            FileFault::TooLong => "TooLong",
            FileFault::SpareNotZero => "SpareNotZero",
            FileFault::ReadFailed => "ReadFailed",
            FileFault::WriteFailed => "WriteFailed",
            FileFault::BadDirection => "BadDirection",
            FileFault::Mixed => "Mixed",
        }
    }
}

impl From<Failed> for FileFault {
    ghost use Rattle.ncp_play_files.specs.declared.file.FileFault.TheVariants.{ReadFailed};

    ghost from_gives = { λ _ fault. fault ≡ ReadFailed };

    // Only a failed read is converted by `?`; a failed write is made a `WriteFailed` where it
    // happens.
    fn from(_failed: Failed) -> Self {
        FileFault::ReadFailed
    }
}

/// The number of bytes of the length of a record.
pub(crate) const LENGTH: usize = 2;

/// Reads the header of a file of version 1. The header of another version is `BadHeader`.
pub fn read_header<S: Source>(input: &mut BufferedSource<'_, S>) -> Result<Direction, FileFault>
    ensures output { (bytes : List ℕ) → Brings S.Source input.old bytes
        → ReadsHeader bytes result input.new.window.now (left_in S.Source input.new) }
    ensures mark { read_failed S.Source input.new ≡ (read_failed S.Source input.old || is_read_failed result) }
    ensures other { is_write_failed result ≡ false }
    ensures reads { slack S.Source input.old ≤ slack S.Source input.new + 1 }
    ensures taken { OnOk result (slack S.Source input.old ≤ slack S.Source input.new) }
    ensures lowers { reads_left S.Source input.new ≤ reads_left S.Source input.old }
    ensures same_inlet { SameInlet input.old input.new }
{
    match read_version(input)? {
        Version::One(direction) => Ok(direction),
        Version::Two => Err(FileFault::BadHeader),
    }
}

/// A fault of bits, as a fault of a file.
pub(crate) fn fault_of(fault: BitsFault) -> FileFault
    ensures { result ≡ fault_of_bits fault }
{
    match fault {
        BitsFault::TooLong => FileFault::TooLong,
        BitsFault::ShortBytes => FileFault::Truncated,
        BitsFault::SpareNotZero => FileFault::SpareNotZero,
    }
}

// The number of bits of the message of the record at the front.
#[inline(always)]
fn message_len(ahead: &[u8]) -> Result<usize, FileFault>
    requires { LENGTH ≤ length ahead.now }
    ensures ok { IfOk result (λ len. (len ≡ big_number 2 ahead.now) × (len ≤ MAX_BITS)) }
    ensures err { IfErr result (λ fault. (fault ≡ FileFault.TooLong) × (MAX_BITS < big_number 2 ahead.now)) }
    ensures read { is_read_failed result ≡ false }
    ensures write { is_write_failed result ≡ false }
{
    let len = usize::from(BigEndian::read_u16(ahead));
    if len > MAX_BITS {
        return Err(FileFault::TooLong);
    }
    Ok(len)
}

// Reads until the in buffer has the next record of a file of version 1: first its length, then the
// message.
#[inline(never)]
fn need_parts<S: Source>(input: &mut BufferedSource<'_, S>) -> Result<Option<usize>, FileFault>
    ensures output { (bytes : List ℕ) → Brings S.Source input.old bytes
        → FindsRecord bytes result input.new.window.now (left_in S.Source input.new) }
    ensures stands { IfOk result (λ found. IfSome found (λ len. StandsWhole input.new.window.now len)) }
    ensures mark { read_failed S.Source input.new ≡ (read_failed S.Source input.old || is_read_failed result) }
    ensures other { is_write_failed result ≡ false }
    ensures reads { slack S.Source input.old ≤ slack S.Source input.new + 1 }
    ensures taken { IfOk result (λ found. is_some found ≡ true → slack S.Source input.old ≤ slack S.Source input.new) }
    ensures read_measure { work S.Source input.new ≤ work S.Source input.old }
    ensures lowers { reads_left S.Source input.new ≤ reads_left S.Source input.old }
    ensures unread { IfOk result (λ found. is_some found ≡ true
        → reads_left S.Source input.new ≡ reads_left S.Source input.old → input.new.window.now ≡ input.old.window.now) }
    ensures same_inlet { SameInlet input.old input.new }
{
    if !input.window.need(input.source, LENGTH)? {
        return if input.window.unread().is_empty() {
            Ok(None)
        } else {
            Err(FileFault::Truncated)
        };
    }
    let len = message_len(input.window.unread())?;
    if !input.window.need(input.source, LENGTH + len.div_ceil(8))? {
        return Err(FileFault::Truncated);
    }
    Ok(Some(len))
}

/// Reads until the in buffer has the next record of a file of version 1, and returns the number of
/// bits of its message; `None` if no record begins. The record is not consumed.
// Inlined in the loops that read: the in buffer mostly has more than the longest record.
#[inline(always)]
pub(crate) fn need_record<S: Source>(
    input: &mut BufferedSource<'_, S>,
) -> Result<Option<usize>, FileFault>
    ensures output { (bytes : List ℕ) → Brings S.Source input.old bytes
        → FindsRecord bytes result input.new.window.now (left_in S.Source input.new) }
    ensures stands { IfOk result (λ found. IfSome found (λ len. StandsWhole input.new.window.now len)) }
    ensures mark { read_failed S.Source input.new ≡ (read_failed S.Source input.old || is_read_failed result) }
    ensures other { is_write_failed result ≡ false }
    ensures reads { slack S.Source input.old ≤ slack S.Source input.new + 1 }
    ensures taken { IfOk result (λ found. is_some found ≡ true → slack S.Source input.old ≤ slack S.Source input.new) }
    ensures read_measure { work S.Source input.new ≤ work S.Source input.old }
    ensures lowers { reads_left S.Source input.new ≤ reads_left S.Source input.old }
    ensures unread { IfOk result (λ found. is_some found ≡ true
        → reads_left S.Source input.new ≡ reads_left S.Source input.old → input.new.window.now ≡ input.old.window.now) }
    ensures same_inlet { SameInlet input.old input.new }
{
    if input.window.unread().len() < MAX_RECORD_LEN {
        return need_parts(input);
    }
    let len = message_len(input.window.unread())?;
    Ok(Some(len))
}

/// The bytes of the message of the first record of an in buffer; the message has `len` bits.
#[inline(always)]
pub(crate) fn message_bytes(window: &[u8], len: usize) -> &[u8]
    requires { StandsWhole window.now len }
    ensures { result.now ≡ slice_range window.now LENGTH (LENGTH + bytes_for len) }
{
    &window[LENGTH..LENGTH + len.div_ceil(8)]
}

/// The message of `len` bits of the first record of an in buffer, without a copy.
#[inline(always)]
pub(crate) fn message_of(window: &InBuffer, len: usize) -> Result<Part<'_>, FileFault>
    requires { StandsWhole window.now len }
    ensures output { (bytes : List ℕ) (left : Option (List ℕ)) → RemainingInput window.now left bytes → FindsMessage bytes len result }
    ensures read { is_read_failed result ≡ false }
    ensures write { is_write_failed result ≡ false }
{
    match Part::from_bytes(message_bytes(window.unread(), len), len) {
        Ok(message) => Ok(message),
        Err(fault) => Err(fault_of(fault)),
    }
}

/// Consumes the first record of an in buffer, whose message has `len` bits.
#[inline(always)]
pub(crate) fn skip_record(window: &mut InBuffer, len: usize)
    requires { StandsWhole window.old len }
    ensures rest { window.new ≡ drop (LENGTH + bytes_for len) window.old }
    ensures shorter { length window.new < length window.old }
{
    window.skip(LENGTH + len.div_ceil(8));
}

/// Takes the first record of an in buffer, whose message has `len` bits, into `message`.
#[inline(always)]
pub(crate) fn take_record(
    window: &mut InBuffer,
    len: usize,
    message: &mut Bits,
) -> Result<(), FileFault>
    requires { StandsWhole window.old len }
    ensures output { (bytes : List ℕ) (left : Option (List ℕ)) → RemainingInput window.old left bytes → TakesRecord bytes result message.new window.new left }
    ensures shorter { OnOk result (length window.new < length window.old) }
    ensures read { is_read_failed result ≡ false }
    ensures write { is_write_failed result ≡ false }
{
    match message.copy_from_bytes(message_bytes(window.unread(), len), len) {
        Ok(()) => {
            skip_record(window, len);
            Ok(())
        }
        Err(fault) => Err(fault_of(fault)),
    }
}

/// Reads the next record of a file of version 1 into `message`, and returns whether there was one.
#[inline(always)]
pub fn read_record<S: Source>(
    input: &mut BufferedSource<'_, S>,
    message: &mut Bits,
) -> Result<bool, FileFault>
    ensures output { (bytes : List ℕ) → Brings S.Source input.old bytes
        → ReadsRecord bytes result message.new input.new.window.now (left_in S.Source input.new) }
    ensures mark { read_failed S.Source input.new ≡ (read_failed S.Source input.old || is_read_failed result) }
    ensures other { is_write_failed result ≡ false }
    ensures reads { slack S.Source input.old ≤ slack S.Source input.new + 1 }
    ensures taken { IfOk result (λ found. found ≡ true → slack S.Source input.old ≤ slack S.Source input.new) }
    ensures read_measure { IfOk result (λ found. found ≡ true → work S.Source input.new < work S.Source input.old) }
    ensures lowers { reads_left S.Source input.new ≤ reads_left S.Source input.old }
    ensures waited { IfOk result (λ found. found ≡ true
        → lacks_message 0 input.old.window.now ≡ true → reads_left S.Source input.new < reads_left S.Source input.old) }
    ensures same_inlet { SameInlet input.old input.new }
{
    let Some(len) = need_record(input)? else {
        return Ok(false);
    };
    take_record(input.window, len, message)?;
    Ok(true)
}

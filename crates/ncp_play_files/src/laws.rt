//! Laws about message files. Each function is a lemma: its contract is the theorem.
ghost use Rattle.std.specs.Prelude.{◌≡◌, ◌≤◌, ◌<◌, ◌↔◌, ℕ, List, [], ◌∷◌, ◌++◌, length, All, Bool, true, false, IsTrue, Option, Some, None, Ok, Err};
ghost use Rattle.ncp_play_files.specs.File.{HoldsBy, next_record, version_of, record_bytes};
ghost use Rattle.ncp_play_files.specs.Versions.{Recorded, capture_point_without_host, next_in, IsOf, bytes_of_record, file_bytes};
ghost use Rattle.ncp_play_files.specs.Converted.{ConvertedAs, file_to};
ghost use Rattle.ncp_play_files.specs.Reasons.{first_fault_of, reasons_at, placed_reasons_at};
ghost use Rattle.ncp_play_files.specs.Checked.{FileHolds};
ghost use Rattle.ncp_play_files.specs.Waiting.{is_waiting};

use crate::file::{Direction, FileFault};
use crate::version::{CapturePoint, Version};
use ncp_bits::MAX_BITS;

/// The bytes after a header hold records, followed by their end or a fault, in exactly one way.
pub fn files_have_one_reading()
    ensures some { (version : Version) (bytes : List ℕ) → (records : List Recorded) × (fault : Option FileFault) × HoldsBy (next_in version) bytes records fault }
    ensures only { (version : Version) (bytes : List ℕ) (records others : List Recorded) (fault other : Option FileFault)
        → HoldsBy (next_in version) bytes records fault → HoldsBy (next_in version) bytes others other → (records ≡ others) × (fault ≡ other) }
{}

/// Written records are read back, in both versions, regardless of the bytes that follow. A file
/// holds exactly the records that it was written from, and has no fault.
pub fn written_files_are_read()
    ensures record { (version : Version) (written : Recorded) (rest : List ℕ)
        → IsOf version written → next_in version (bytes_of_record written ++ rest) ≡ Ok (Some (written, rest)) }
    ensures version { (version : Version) (records : List Recorded) → version_of (file_bytes version records) ≡ Some version }
    ensures file { (version : Version) (records : List Recorded)
        → All (IsOf version) records → FileHolds (file_bytes version records) records None }
    ensures only { (version : Version) (records others : List Recorded) (fault : Option FileFault)
        → All (IsOf version) records → FileHolds (file_bytes version records) others fault → (others ≡ records) × (fault ≡ None) }
{}

/// Version 1: bytes begin with a record exactly when they begin with the written form of a message
/// of at most 8,192 bits. Other bytes, unless there are none, give the first fault that applies, in
/// order: fewer than two bytes of a length, a length over the limit, fewer bytes than the length, a
/// spare bit that is set. In version 2 two come before these: a first byte that names no direction,
/// no byte for the host after it.
pub fn records_are_distinguished()
    ensures record { (bytes : List ℕ) (rest : List ℕ) (message : List Bool) → All (λ byte. byte < 256) bytes
        → (next_record bytes ≡ Ok (Some (message, rest))) ↔ ((length message ≤ MAX_BITS) × (bytes ≡ record_bytes message ++ rest)) }
    ensures end { (bytes : List ℕ) → (next_record bytes ≡ Ok None) ↔ (bytes ≡ []) }
    ensures fault { (bytes : List ℕ) (fault : FileFault) → 0 < length bytes
        → (next_record bytes ≡ Err fault) ↔ (first_fault_of (reasons_at bytes) ≡ Some fault) }
    ensures placed { (bytes : List ℕ) (fault : FileFault) → 0 < length bytes
        → (next_in Version.Two bytes ≡ Err fault) ↔ (first_fault_of (placed_reasons_at bytes) ≡ Some fault) }
{}

/// A file of version 1 with at least one message, converted to version 2 and back with the same
/// host, has the same bytes.
pub fn files_return()
    ensures { (direction : Direction) (host : ℕ) (message : List Bool) (messages : List (List Bool)) (there back : List ℕ) (fault other : Option FileFault)
        → All (λ m. length m ≤ MAX_BITS) (message ∷ messages)
        → ConvertedAs host (file_to (Version.One direction) (capture_point_without_host direction) (message ∷ messages) None) there fault → ConvertedAs host there back other
        → (fault ≡ None) × (other ≡ None) × (back ≡ file_to (Version.One direction) (capture_point_without_host direction) (message ∷ messages) None) }
{}

/// Worked examples: a reader waits before a record, inside its length and inside its message, but
/// not after its last byte, or after a length over the limit. In version 2 a direction and a host
/// precede the length.
pub fn records_are_waited_for()
    ensures none { is_waiting (Version.One Direction.ToImp) [] ≡ true }
    ensures length { is_waiting (Version.One Direction.ToImp) (0 ∷ []) ≡ true }
    ensures message { is_waiting (Version.One Direction.ToImp) (0 ∷ 9 ∷ 65 ∷ []) ≡ true }
    ensures whole { is_waiting (Version.One Direction.ToImp) (0 ∷ 8 ∷ 65 ∷ []) ≡ false }
    ensures empty { is_waiting (Version.One Direction.ToImp) (0 ∷ 0 ∷ []) ≡ false }
    ensures too_long { is_waiting (Version.One Direction.ToImp) (32 ∷ 1 ∷ []) ≡ false }
    ensures placed { is_waiting Version.Two (72 ∷ 7 ∷ 0 ∷ 8 ∷ []) ≡ true }
    ensures placed_whole { is_waiting Version.Two (72 ∷ 7 ∷ 0 ∷ 8 ∷ 65 ∷ []) ≡ false }
{}

/// Two faults compare as equal exactly when they are the same.
pub fn same_fault(one: FileFault, other: FileFault) -> bool
    ensures { IsTrue result ↔ one ≡ other }
{
    one == other
}

/// Two directions compare as equal exactly when they are the same.
pub fn same_direction(one: Direction, other: Direction) -> bool
    ensures { IsTrue result ↔ one ≡ other }
{
    one == other
}

/// Two versions compare as equal exactly when they are the same.
pub fn same_version(one: Version, other: Version) -> bool
    ensures { IsTrue result ↔ one ≡ other }
{
    one == other
}

/// Two capture points compare as equal exactly when they are the same.
pub fn same_capture_point(one: CapturePoint, other: CapturePoint) -> bool
    ensures { IsTrue result ↔ one ≡ other }
{
    one == other
}

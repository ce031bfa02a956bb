//! How `check` classifies messages, and when two capture points differ, computed from the
//! definitions.
ghost use Rattle.std.specs.Prelude.{◌≡◌, ℕ, true, false, [], ◌∷◌, codes, replicate};
ghost use Rattle.ncp_numbers.specs.Bytes.{bits_of_bytes};
ghost use Rattle.ncp_play_files.specs.Checked.{record_class_of, is_sound, totals_line};
ghost use Rattle.ncp_play_files.specs.Converted.{same_capture_point};
ghost use Rattle.ncp_play_files.specs.Versions.{capture_point_without_host, placed};
ghost use Rattle.ncp_play_files.specs.declared.file.Direction.TheVariants.{ToImp, FromImp};
ghost use Rattle.ncp_play_files.specs.declared.tally.RecordClass.TheVariants as is;

/// One message of each kind: 31 bits; RFNM; NOP; a text of no bits on link 2; bits that should be
/// zero and are not; an unknown opcode; and a control message in bytes of seven bits.
#[tactic(auto, unfolding(ncp_numbers::specs::Bytes::byte_bits, ncp_numbers::specs::Bytes::byte_of, ncp_numbers::specs::Bytes::bytes_of, ncp_numbers::specs::Numbers::bits_of, ncp_numbers::specs::Numbers::number_of))]
pub fn messages_are_judged_so()
    ensures short { record_class_of (replicate 31 false) ≡ is.Short }
    ensures other { record_class_of (bits_of_bytes (5 ∷ 2 ∷ 0 ∷ 0 ∷ [])) ≡ is.Other }
    ensures control { record_class_of (bits_of_bytes (0 ∷ 2 ∷ 0 ∷ 0 ∷ 0 ∷ 8 ∷ 0 ∷ 1 ∷ 0 ∷ 0 ∷ [])) ≡ is.Sound }
    ensures text { record_class_of (bits_of_bytes (0 ∷ 2 ∷ 2 ∷ 0 ∷ 0 ∷ 8 ∷ 0 ∷ 0 ∷ 0 ∷ [])) ≡ is.Sound }
    ensures faulty { record_class_of (bits_of_bytes (0 ∷ 2 ∷ 2 ∷ 0 ∷ 1 ∷ 8 ∷ 0 ∷ 0 ∷ 0 ∷ [])) ≡ is.Faulty }
    ensures bad { record_class_of (bits_of_bytes (0 ∷ 2 ∷ 0 ∷ 0 ∷ 0 ∷ 8 ∷ 0 ∷ 1 ∷ 0 ∷ 14 ∷ [])) ≡ is.Bad }
    ensures size { record_class_of (bits_of_bytes (0 ∷ 2 ∷ 0 ∷ 0 ∷ 0 ∷ 7 ∷ 0 ∷ 0 ∷ 0 ∷ [])) ≡ is.Bad }
{}

/// A file is sound if no message is short, faulty or bad, regardless of messages of other types.
pub fn sound_files_are_distinguished()
    ensures sound { is_sound (record { messages = 9; short = 0; regular = 4; faults = 0; bad = 0 }) ≡ true }
    ensures short { is_sound (record { messages = 9; short = 1; regular = 4; faults = 0; bad = 0 }) ≡ false }
    ensures faulty { is_sound (record { messages = 9; short = 0; regular = 4; faults = 1; bad = 0 }) ≡ false }
    ensures bad { is_sound (record { messages = 9; short = 0; regular = 4; faults = 0; bad = 1 }) ≡ false }
{}

/// The line of the totals.
pub fn counts_are_printed_so()
    ensures { totals_line (record { messages = 15; short = 2; regular = 10; faults = 3; bad = 4 }) ≡ codes "messages=15 short=2 regular=10 faults=3 bad=4\n" }
{}

/// Two capture points are the same if they have the same direction, and the same host or none.
pub fn passages_are_distinguished()
    ensures same { same_capture_point (placed ToImp 1) (placed ToImp 1) ≡ true }
    ensures host { same_capture_point (placed ToImp 1) (placed ToImp 2) ≡ false }
    ensures direction { same_capture_point (placed ToImp 1) (placed FromImp 1) ≡ false }
    ensures plain { same_capture_point (capture_point_without_host FromImp) (capture_point_without_host FromImp) ≡ true }
    ensures placed { same_capture_point (capture_point_without_host ToImp) (placed ToImp 0) ≡ false }
{}

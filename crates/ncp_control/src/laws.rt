//! Laws of commands and control texts. Each is the contract of a function with an empty body. Their
//! variables of bytes range over all numbers, so the clauses state which are bytes.
ghost use Rattle.std.specs.Prelude.{◌≡◌, ◌≢◌, ℕ, ◌<◌, ◌≤◌, List, ◌∷◌, ◌++◌, length, All, None};
ghost use Rattle.ncp_wire.specs.Spelling.{spelling, spellings, IsByte, IsCommand, error_of};
ghost use Rattle.ncp_control.specs.Texts.{Reads, fault_of};
ghost use Rattle.ncp_control.specs.Reading.{commands_in, rest_in, fault_in};
ghost use Rattle.ncp_wire.specs.declared.command.Command.{Command};
ghost use Rattle.ncp_wire.specs.declared.command.Command.TheVariants.{Err};
ghost use Rattle.ncp_control.specs.OfTexts.{OfOneText, OfReadings, OfBeginnings, OfSpelled, OfSpelledBefore, OfFaults, OfUnread, BeginACommand};

use ncp_wire::LONGEST_COMMAND;

/// No spelling is a prefix of another. Each consists of bytes, is not empty, and is at most
/// [`LONGEST_COMMAND`] bytes long.
pub fn spellings_are_distinct()
    ensures pairwise_distinct { OfOneText (λ one other more rest. one ≡ other) }
    ensures distinct_after { OfOneText (λ one other more rest. more ≡ rest) }
    ensures some { (command : Command) → 0 < length (spelling command) }
    ensures short { (command : Command) → IsCommand command → length (spelling command) ≤ LONGEST_COMMAND }
    ensures bytes { (command : Command) → IsCommand command → All IsByte (spelling command) }
    ensures joined { (commands : List Command) → All IsCommand commands → All IsByte (spellings commands) }
{}

/// Each text of bytes has exactly one reading, and it is the longest: any list of commands whose
/// joined spellings are a prefix of the text is a prefix of the commands read.
pub fn texts_have_one_reading()
    ensures reads { (bytes : List ℕ) → All IsByte bytes → Reads bytes (commands_in bytes) (rest_in bytes) }
    ensures only { OfReadings (λ bytes rest commands. commands_in bytes ≡ commands) }
    ensures only_rest { OfReadings (λ bytes rest commands. rest_in bytes ≡ rest) }
    ensures longest { OfBeginnings (λ bytes others. (more : List Command) × (commands_in bytes ≡ others ++ more)) }
{}

/// A text of joined spellings is read as those commands. If bytes that start no command follow, it
/// is read as those commands and the fault of these bytes.
pub fn spelled_commands_are_read()
    // theorem: Commands whose numbers fit, written one after the other, are read back as the same
    // commands.
    ensures commands { OfSpelled (λ commands. commands_in (spellings commands) ≡ commands) }
    ensures commands_alone { OfSpelled (λ commands. fault_in (spellings commands) ≡ None) }
    ensures tail { OfSpelledBefore (λ commands tail. commands_in (spellings commands ++ tail) ≡ commands) }
    ensures tail_fault { OfSpelledBefore (λ commands tail. fault_in (spellings commands ++ tail) ≡ fault_of tail) }
{}

/// An ERR about a command, and one that answers a fault, is a valid command.
pub fn errors_are_commands()
    ensures about { (code : ℕ) (c : Command) → IsByte code → IsCommand c → IsCommand (error_of code c) }
    ensures fault { OfFaults (λ fault. IsCommand (Err fault.code fault.bytes)) }
{}

/// The codes of a fault are exact: no command has an opcode over 13, and after any other opcode
/// further bytes could complete the remaining ones to a command.
pub fn faults_are_distinguished()
    ensures illegal { (c : Command) (opcode : ℕ) (more : List ℕ) → 13 < opcode → spelling c ≢ opcode ∷ more }
    ensures early { OfUnread (λ opcode left. opcode ≤ 13 → BeginACommand (opcode ∷ left)) }
{}

//! Laws about lines. Each function is a lemma: its contract is the theorem.
ghost use Rattle.std.specs.Prelude.{◌≡◌, ℕ, Bool, true, false, List, [], ◌∷◌, ◌++◌, ◌+◌, take, drop, position, Option, None, Some};
ghost use Rattle.std.specs.List.{before_first};
ghost use Rattle.ncp_transcript.specs.declared.input.Input.{Input};
ghost use Rattle.ncp_play_script.specs.declared.line_buffer.TheConstants.{MAX_LINE, LF, CR, REMARK};
ghost use Rattle.ncp_play_script.specs.declared.numbers.TheConstants.{MAX_DIGITS};
ghost use Rattle.ncp_play_script.specs.declared.line_words.TheConstants.{SPACE};
ghost use Rattle.ncp_play_script.specs.Lines.{is_lf, text_of_line, line_kind};
ghost use Rattle.ncp_play_script.specs.FirstLines.{Named};
ghost use Rattle.ncp_play_script.specs.Scripts.{Line, lines_of, said, AskedByLine, course_from, script_from, course_ends, Faulty, LineTooLong, NoHosts};
ghost use Rattle.ncp_play_script.specs.Verbs.{word_of_verb, verb_of};

use crate::line_buffer::{LineKind, MAX_KEPT};
use crate::verbs::Verb;

/// The stored prefix of a line is sufficient. It does not depend on the pieces in which the line
/// arrives (`pieces`); it determines whether the line is skipped or too long (`kind`); and it is
/// the whole line if the line is played (`text`).
pub fn kept_lines_determine_all()
    ensures pieces { (line piece : List ℕ) → take MAX_KEPT (take MAX_KEPT line ++ piece) ≡ take MAX_KEPT (line ++ piece) }
    ensures kind { (ended : Bool) (line : List ℕ) → line_kind (text_of_line ended (take MAX_KEPT line)) ≡ line_kind (text_of_line ended line) }
    ensures text { (ended : Bool) (line : List ℕ) → line_kind (text_of_line ended line) ≡ LineKind.Played → text_of_line ended (take MAX_KEPT line) ≡ text_of_line ended line }
{}

/// The word of each call names that call, and no other word does.
pub fn words_name_calls()
    ensures each { (verb : Verb) → verb_of (word_of_verb verb) ≡ Some verb }
    ensures only { (word : List ℕ) (verb : Verb) → verb_of word ≡ Some verb → word ≡ word_of_verb verb }
{}

/// Each line ends at its LF, and the other lines begin after it. A last line without LF is all
/// remaining bytes.
pub fn an_lf_ends_a_line()
    ensures ended { (text behind : List ℕ) → position is_lf text ≡ None → lines_of (text ++ LF ∷ behind) ≡ record { bytes = text; ended = true; behind = behind } ∷ lines_of behind }
    ensures last { (byte : ℕ) (text : List ℕ) → position is_lf (byte ∷ text) ≡ None → lines_of (byte ∷ text) ≡ record { bytes = byte ∷ text; ended = false; behind = [] } ∷ [] }
    ensures none { lines_of [] ≡ [] }
{}

/// A line in pieces: a piece with an LF ends it, and the next line begins after that LF; a piece
/// without LF continues it.
pub fn pieces_make_lines()
    ensures ends { (line piece rest : List ℕ) (place : ℕ) → position is_lf line ≡ None → position is_lf piece ≡ Some place → lines_of (line ++ (piece ++ rest)) ≡ record { bytes = line ++ before_first is_lf piece; ended = true; behind = drop (place + 1) piece ++ rest } ∷ lines_of (drop (place + 1) piece ++ rest) }
    ensures goes_on { (line piece : List ℕ) → position is_lf line ≡ None → position is_lf piece ≡ None → position is_lf (line ++ piece) ≡ None }
{}

/// A line that is too long has that fault regardless of its words, the first line too.
pub fn long_lines_are_judged_first()
    ensures first { (hosts : List (List ℕ) → Option Named) (asked : Named → List (List ℕ) → Option (AskedByLine Input)) (number : ℕ) (line : Line) (lines : List Line) → line_kind (said line) ≡ LineKind.TooLong → script_from hosts asked number (line ∷ lines) ≡ NoHosts (LineTooLong number) }
    ensures other { (asked : List (List ℕ) → Option (AskedByLine Input)) (number : ℕ) (line : Line) (lines : List Line) → line_kind (said line) ≡ LineKind.TooLong → course_from asked number (line ∷ lines) ≡ course_ends (Faulty (LineTooLong number)) }
{}

/// The limits of lines and numbers, and the bytes that separate lines and words.
pub fn script_limits_are_these()
    ensures line { MAX_LINE ≡ 4096 }
    ensures digits { MAX_DIGITS ≡ 10 }
    ensures bytes { (LF ≡ 10) × (CR ≡ 13) × (REMARK ≡ 35) × (SPACE ≡ 32) }
{}

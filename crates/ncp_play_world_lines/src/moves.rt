//! The words that name sides and moves.
ghost use Rattle.std.specs.Prelude.{◌≡◌};
ghost use Rattle.ncp_play_world_lines.specs.Moves.{letter_of, side_named, word_of_move, move_among, move_named};

use ncp_transcript_two::{Move, Side};

// The words of the sides.
const WORD_OF_A: &[u8] = b"a";

const WORD_OF_B: &[u8] = b"b";

/// The letter of a side.
pub(crate) fn letter_of(side: Side) -> u8
    ensures { result ≡ letter_of side }
{
    match side {
        Side::A => b'a',
        Side::B => b'b',
    }
}

/// The side that a word names, if any.
pub(crate) fn side_named(word: &[u8]) -> Option<Side>
    ensures { result ≡ side_named word.now }
{
    if word == WORD_OF_A {
        return Some(Side::A);
    }
    if word == WORD_OF_B {
        return Some(Side::B);
    }
    None
}

/// The word of a move.
pub(crate) fn word_of(wanted: Move) -> &'static str
    ensures { result.now ≡ word_of_move wanted }
{
    match wanted {
        Move::Deliver => "deliver",
        Move::Lose => "lose",
        Move::Dead => "dead",
        Move::Answer => "answer",
    }
}

// The moves of messages that the subnet has.
const MOVES: [Move; 4] = [Move::Deliver, Move::Lose, Move::Dead, Move::Answer];

// The move among these that a word names.
fn move_among(moves: &[Move], word: &[u8]) -> Option<Move>
    ensures { result ≡ move_among moves.now word.now }
{
    match moves {
        [] => None,
        [wanted, behind @ ..] => {
            if word_of(*wanted).as_bytes() == word {
                return Some(*wanted);
            }
            move_among(behind, word)
        }
    }
}

/// The move that a word names, if any.
pub(crate) fn move_named(word: &[u8]) -> Option<Move>
    ensures { result ≡ move_named word.now }
{
    move_among(&MOVES, word)
}

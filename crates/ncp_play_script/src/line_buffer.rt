//! `LineBuffer`.
ghost use Rattle.std.specs.Prelude.{◌≡◌, ◌+◌, ◌++◌, [], take, MatchOption, position, ℕ, None, Some};
ghost use Rattle.std.specs.List.{before_first};
ghost use Rattle.ncp_play_script.specs.Lines.{is_lf, text_of_line, is_skipped, line_kind};

use crate::cut::position_of;
use arrayvec::ArrayVec;
use std::marker::Model;

/// The maximum number of bytes of a line that is not skipped, without its LF and one CR before it.
pub const MAX_LINE: usize = 4096;

/// The number of bytes stored of a line: those of the longest, a CR, and one that is too many.
pub const MAX_KEPT: usize = MAX_LINE + 2;

/// The byte that ends a line.
pub(crate) const LF: u8 = b'\n';

// The byte that is dropped before it, once.
const CR: u8 = b'\r';

// The first byte of a remark.
const REMARK: u8 = b'#';

/// How a player treats a line.
#[derive(Clone, Copy, Debug, Drop, PartialEq, Eq)]
pub enum LineKind {
    /// It is empty or a remark of any length, and is skipped.
    Skipped,
    /// It is longer than [`MAX_LINE`].
    TooLong,
    /// Its words are read.
    Played,
}

/// The text of a line with these bytes: if an LF `ended` it, one CR before that is dropped.
pub fn text_of(line: &[u8], ended: bool) -> &[u8]
    ensures { result.now ≡ text_of_line ended line.now }
{
    let len = line.len();
    if ended && len > 0 && line[len - 1] == CR {
        return &line[..len - 1];
    }
    line
}

/// Whether a line with this text is skipped: an empty one, or a remark.
pub fn is_skipped(text: &[u8]) -> bool
    ensures { result ≡ is_skipped text.now }
{
    text.is_empty() || text[0] == REMARK
}

/// The first [`MAX_KEPT`] bytes of a line, which arrives in pieces. They suffice to decide how the
/// line is treated. Does not allocate.
#[derive(Drop)]
pub struct LineBuffer {
    bytes: ArrayVec<u8, MAX_KEPT>,
}

impl Model for LineBuffer {
    ghost use Rattle.std.specs.Prelude.{List, ℕ};

    ghost Value = { List ℕ };

    ghost view = { λ line. line.bytes.items };
}

impl LineBuffer {
    /// An empty buffer.
    pub fn new() -> LineBuffer
        ensures { result ≡ [] }
    {
        LineBuffer {
            bytes: ArrayVec::new(),
        }
    }

    /// Empties the buffer, for the next line.
    pub fn clear(&mut self)
        ensures { self.new ≡ [] }
    {
        self.bytes.clear();
    }

    // Appends bytes of the line, up to [`MAX_KEPT`] in all.
    #[tactic(auto, using(crate::proofs::Kept::kept_more))]
    fn add(&mut self, bytes: &[u8])
        ensures { self.new ≡ take MAX_KEPT (self.old ++ bytes.now) }
    {
        let count = self.bytes.remaining_capacity().min(bytes.len());
        self.bytes.try_extend_from_slice(&bytes[..count]).unwrap();
    }

    /// Appends the bytes of a piece of a script before its first LF, or all of them if it has none,
    /// up to [`MAX_KEPT`] in all. Returns how many bytes of the piece belong to the line, the LF
    /// included; `None` if the piece has no LF and the line continues.
    ///
    /// After `Some` call [`LineBuffer::clear`] before the next line; without it the lines run
    /// together.
    pub fn take(&mut self, piece: &[u8]) -> Option<usize>
        ensures line { self.new ≡ take MAX_KEPT (self.old ++ before_first is_lf piece.now) }
        ensures used { MatchOption result (position is_lf piece.now ≡ None) (λ used. (place : ℕ) × (position is_lf piece.now ≡ Some place) × (used ≡ place + 1)) }
    {
        match position_of(LF, piece) {
            Some(place) => {
                self.add(&piece[..place]);
                Some(place + 1)
            }
            None => {
                self.add(piece);
                None
            }
        }
    }

    /// The bytes of the line, without the one CR before its LF. A last line that no LF `ended` has
    /// all its bytes. A line longer than [`MAX_LINE`] is represented by a prefix only.
    pub fn text(&self, ended: bool) -> &[u8]
        ensures { result.now ≡ text_of_line ended self.now }
    {
        text_of(self.bytes.as_slice(), ended)
    }

    /// How a player treats the line.
    pub fn kind(&self, ended: bool) -> LineKind
        ensures { result ≡ line_kind (text_of_line ended self.now) }
    {
        let text = self.text(ended);
        if is_skipped(text) {
            return LineKind::Skipped;
        }
        if text.len() > MAX_LINE {
            return LineKind::TooLong;
        }
        LineKind::Played
    }
}

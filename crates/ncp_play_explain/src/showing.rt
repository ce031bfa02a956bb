//! Bytes as any terminal can show them.
ghost use Rattle.std.specs.Prelude.{◌≡◌, ◌<◌, ◌≤◌, false, length};
ghost use Rattle.std.specs.Fmt.{digit_glyph};
ghost use Rattle.ncp_play_explain.specs.Spelling.{spelled};
ghost use Rattle.ncp_play_explain.specs.Signs.{signs_of};

use crate::spelling::is_sign;

/// The maximum number of characters that spell a byte.
pub const MAX_SPELLED_LEN: usize = 4;

/// The spelling of a byte: a graphic ASCII character or a space as itself, and any other byte as
/// `\x` and two hexadecimal digits.
#[derive(Clone, Copy, Debug, Drop, PartialEq, Eq)]
pub enum Signs {
    /// The character itself.
    Sign([u8; 1]),
    /// Its number.
    Number([u8; MAX_SPELLED_LEN]),
}

impl Signs {
    /// The characters.
    pub fn as_bytes(&self) -> &[u8]
        ensures value { result.now ≡ signs_of self.now }
        ensures len { length result.now ≤ MAX_SPELLED_LEN }
    {
        match self {
            Signs::Sign(signs) => signs,
            Signs::Number(signs) => signs,
        }
    }
}

// A digit of a hexadecimal number.
fn digit(number: u8) -> u8
    requires { number < 16 }
    ensures { result ≡ digit_glyph false number }
{
    if number < 10 {
        b'0' + number
    } else {
        b'a' + (number - 10)
    }
}

/// A byte as any terminal can show it.
pub fn in_signs(byte: u8) -> Signs
    ensures { signs_of result ≡ spelled byte }
{
    if is_sign(byte) {
        Signs::Sign([byte])
    } else {
        Signs::Number([b'\\', b'x', digit(byte / 16), digit(byte % 16)])
    }
}

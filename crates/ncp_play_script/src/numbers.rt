//! Decimal numbers in words.
ghost use Rattle.std.specs.Prelude.{◌≡◌, ◌≤◌, Some, None, length, if◌then◌else◌};
ghost use Rattle.std.specs.Str.{all_ascii_digits};
ghost use Rattle.ncp_play_script.specs.Words.{value_after, number_of_word};

/// The maximum number of digits of a number, leading zeros included.
pub const MAX_DIGITS: usize = 10;

// The number that digits spell, if all these bytes are digits.
#[tactic(auto, using(crate::proofs::Digits::value_step, crate::proofs::Digits::digits_step, crate::proofs::Digits::room, crate::proofs::Digits::small_step))]
fn value_of(word: &[u8]) -> Option<u64>
    requires { length word.now ≤ MAX_DIGITS }
    ensures { result ≡ (if all_ascii_digits word.now then Some (value_after 0 word.now) else None) }
{
    let mut value = 0u64;
    for digit in word {
        if !digit.is_ascii_digit() {
            return None;
        }
        value = 10 * value + u64::from(*digit - b'0');
    }
    Some(value)
}

/// The number in a word: one to [`MAX_DIGITS`] decimal digits, leading zeros admitted, of at most
/// `most`. It has no sign and no prefix.
pub(crate) fn number(word: &[u8], most: u32) -> Option<u32>
    ensures { result ≡ number_of_word most word.now }
{
    if word.is_empty() || word.len() > MAX_DIGITS {
        return None;
    }
    let value = value_of(word)?;
    if value > u64::from(most) {
        return None;
    }
    Some(value as u32)
}

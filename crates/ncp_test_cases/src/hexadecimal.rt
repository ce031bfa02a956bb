//! Bytes written in hexadecimal.

use std::alloc::AllocError;

/// The radix of a digit.
const RADIX: u32 = 16;

// The byte with these two digits.
fn byte_of(digits: &[u8]) -> Option<u8> {
    let [high, low] = digits else {
        return None;
    };
    let high = char::from(*high).to_digit(RADIX)?;
    let low = char::from(*low).to_digit(RADIX)?;
    Some((RADIX * high + low) as u8)
}

/// Appends the bytes of a hexadecimal text: two digits a byte, with any spaces between bytes.
/// Returns whether the text is valid; if not, the bytes before the fault are appended.
pub(crate) fn push_bytes(bytes: &mut Vec<u8>, text: &str) -> Result<bool, AllocError> {
    for group in text.split_ascii_whitespace() {
        for digits in group.as_bytes().chunks(2) {
            match byte_of(digits) {
                Some(byte) => bytes.push(byte)?,
                None => return Ok(false),
            }
        }
    }
    Ok(true)
}

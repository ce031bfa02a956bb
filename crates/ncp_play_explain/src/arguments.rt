//! The arguments of a line: numbers and bits.
ghost use Rattle.std.specs.Prelude.{◌≡◌, ◌<◌, ◌≤◌, ◌++◌, true, length, map, option_and_then, option_copied, option_map, IfOk};
ghost use Rattle.std.specs.Char.{digit_value, is_ascii_digit, is_ascii_hexdigit};
ghost use Rattle.std.specs.List.{list_all};
ghost use Rattle.std.specs.String.{string_bytes};
ghost use Rattle.ncp_play_explain.specs.Arguments.{after_bits_printed, argument_form, asked_argument, argument_printed, arguments_printed, bits_printed, digits_needed, digits_printed, form_printed, has_digits, has_spare_bit, number_in, number_printed, bits_spare, with_form, words_taken};

use crate::usage::{Argument, MOST_BITS};
use crate::words::{word_at, words_after};
use std::alloc::{AllocError, Global};

// The maximum number of digits of a number.
const MOST_DIGITS: usize = 10;

// Whether each byte is a decimal digit.
fn is_decimal(word: &str) -> bool
    ensures { result ≡ list_all is_ascii_digit word.now }
{
    word.as_bytes().iter().all(|byte| byte.is_ascii_digit())
}

// Whether a word is a number of scripts: one to ten decimal digits.
fn has_digits(word: &str) -> bool
    ensures { result ≡ has_digits word.now }
{
    !word.is_empty() && word.len() <= MOST_DIGITS && is_decimal(word)
}

/// The number in a word, if it is at most `most`.
pub(crate) fn number_in(word: &str, most: u32) -> Option<u32>
    ensures { result ≡ number_in most word.now }
{
    if !has_digits(word) {
        return None;
    }
    match word.parse::<u32>() {
        Ok(number) if number <= most => Some(number),
        Ok(_) => None,
        Err(_) => None,
    }
}

/// An explanation, followed by the form of the line.
pub(crate) fn and_form(alloc: Global, wrong: String, form: &str) -> Result<String, AllocError>
    ensures { IfOk result (λ text. string_bytes text ≡ with_form form.now (string_bytes wrong)) }
{
    format!(in alloc; "{wrong}: {form}")
}

/// What is wrong with a number, if anything.
pub(crate) fn wrong_number(
    alloc: Global,
    name: &str,
    most: u32,
    word: &str,
) -> Result<Option<String>, AllocError>
    ensures { IfOk result (λ wrong. option_map string_bytes wrong ≡ number_printed name.now most word.now) }
{
    if number_in(word, most).is_some() {
        return Ok(None);
    }
    if has_digits(word) {
        return Ok(Some(format!(in alloc; "{name} is {word}, and is at most {most}")?));
    }
    Ok(Some(format!(in alloc;
        "{name} is '{word}', and has to be a number from 0 to {most} in decimal digits"
    )?))
}

// The number of hexadecimal digits of `bits` bits.
fn digits_needed(bits: u32) -> u64
    ensures { result ≡ digits_needed bits }
{
    u64::from(bits).div_ceil(8) * 2
}

// The number of bits that are left over in the last byte.
fn spare_bits(bits: u32) -> u32
    ensures { result ≡ bits_spare bits }
{
    (8 - bits % 8) % 8
}

// The value of a hexadecimal digit.
fn digit(byte: u8) -> u32
    ensures below { result < 16 }
    ensures value { is_ascii_hexdigit byte ≡ true → result ≡ digit_value byte }
{
    char::from(byte).to_digit(16).unwrap_or(0)
}

// Whether one of the last `spare` bits is set in the byte of the last two digits.
#[tactic(auto, using(crate::proofs::Numbers::last_bits))]
fn has_spare_bit(spare: u32, digits: &str) -> bool
    requires { spare < 8 }
    ensures { list_all is_ascii_hexdigit digits.now ≡ true → 2 ≤ length digits.now
        → result ≡ has_spare_bit spare digits.now }
{
    match digits.as_bytes() {
        [.., high, low] => (digit(*high) * 16 + digit(*low)) % (1 << spare) != 0,
        _ => false,
    }
}

// Whether each byte is a hexadecimal digit.
fn is_hexadecimal(digits: &str) -> bool
    ensures { result ≡ list_all is_ascii_hexdigit digits.now }
{
    digits
        .as_bytes()
        .iter()
        .all(|byte| byte.is_ascii_hexdigit())
}

// What is wrong with the digits of `bits` bits, if anything.
fn wrong_digits(alloc: Global, bits: u32, digits: &str) -> Result<Option<String>, AllocError>
    requires { 0 < bits }
    ensures { IfOk result (λ wrong. option_map string_bytes wrong ≡ digits_printed bits digits.now) }
{
    if !is_hexadecimal(digits) {
        return Ok(Some(format!(in alloc; "'{digits}' is not hexadecimal")?));
    }
    let wanted = digits_needed(bits);
    let there = digits.len();
    if there as u64 != wanted {
        return Ok(Some(format!(in alloc;
            "{bits} bits are {wanted} hexadecimal digits, and here are {there}"
        )?));
    }
    let spare = spare_bits(bits);
    if has_spare_bit(spare, digits) {
        return Ok(Some(format!(in alloc;
            "the last {spare} bits of '{digits}' are spare, and have to be zero"
        )?));
    }
    Ok(None)
}

// What is wrong with the word after `bits` bits, if anything: with their bytes in hexadecimal.
fn wrong_after_bits(
    alloc: Global,
    bits: u32,
    digits: Option<&str>,
) -> Result<Option<String>, AllocError>
    ensures { IfOk result (λ wrong. option_map string_bytes wrong ≡ after_bits_printed bits (option_copied digits.entry)) }
{
    match digits {
        Some(digits) if bits == 0 => Ok(Some(format!(in alloc;
            "0 bits have no digits, and here is '{digits}'"
        )?)),
        Some(digits) => wrong_digits(alloc, bits, digits),
        None if bits == 0 => Ok(None),
        None => {
            let wanted = digits_needed(bits);
            Ok(Some(format!(in alloc; "{bits} bits need {wanted} hexadecimal digits after them")?))
        }
    }
}

// What is wrong with bits: their number, and their bytes in hexadecimal.
fn wrong_bits(
    alloc: Global,
    number: &str,
    digits: Option<&str>,
) -> Result<Option<String>, AllocError>
    ensures { IfOk result (λ wrong. option_map string_bytes wrong ≡ bits_printed number.now (option_copied digits.entry)) }
{
    match number_in(number, MOST_BITS) {
        Some(bits) => wrong_after_bits(alloc, bits, digits),
        None => wrong_number(alloc, "BITS", MOST_BITS, number),
    }
}

// Adds the form of an argument.
fn add_argument(text: &mut String, argument: Argument) -> Result<(), AllocError>
    ensures { IfOk result (λ _. string_bytes text.new ≡ string_bytes text.old ++ argument_form (asked_argument argument)) }
{
    match argument {
        Argument::Number(name, _) => {
            text.push_str(" ")?;
            text.push_str(name)
        }
        Argument::Bits => text.push_str(" BITS HEX"),
    }
}

/// The form of a verb with these arguments.
pub(crate) fn written(
    alloc: Global,
    verb: &str,
    arguments: &[Argument],
) -> Result<String, AllocError>
    ensures { IfOk result (λ text. string_bytes text ≡ form_printed verb.now (map asked_argument arguments.now)) }
{
    let mut text = String::from_str(alloc, verb)?;
    for argument in arguments {
        add_argument(&mut text, *argument)?;
    }
    Ok(text)
}

// The name of an argument.
fn name_of(argument: Argument) -> &'static str
    ensures { result.now ≡ (asked_argument argument).0 }
{
    match argument {
        Argument::Number(name, _) => name,
        Argument::Bits => "BITS",
    }
}

// What is wrong with an argument in this word, if anything; bits take the next word too.
fn wrong_argument(
    alloc: Global,
    argument: Argument,
    word: Option<&str>,
    next: Option<&str>,
) -> Result<Option<String>, AllocError>
    ensures { IfOk result (λ wrong. option_map string_bytes wrong ≡ argument_printed (asked_argument argument) (option_copied word.entry) (option_copied next.entry)) }
{
    let Some(word) = word else {
        let name = name_of(argument);
        return Ok(Some(format!(in alloc; "{name} is missing")?));
    };
    match argument {
        Argument::Number(name, most) => wrong_number(alloc, name, most, word),
        Argument::Bits => wrong_bits(alloc, word, next),
    }
}

// The number of words that an argument takes.
fn words_taken(argument: Argument, word: Option<&str>) -> usize
    ensures { result ≡ words_taken (asked_argument argument) (option_copied word.entry) }
{
    match (argument, word) {
        (Argument::Bits, Some(word)) if number_in(word, MOST_BITS) != Some(0) => 2,
        _ => 1,
    }
}

/// What is wrong with these arguments, if anything.
pub(crate) fn wrong_arguments(
    alloc: Global,
    arguments: &[Argument],
    words: &[&str],
) -> Result<Option<String>, AllocError>
    ensures { IfOk result (λ wrong. option_map string_bytes wrong ≡ arguments_printed (map asked_argument arguments.now) (map (λ word. word.now) words.now)) }
{
    let mut left = words;
    for argument in arguments {
        let word = word_at(left, 0);
        let wrong = wrong_argument(alloc, *argument, word, word_at(left, 1))?;
        if wrong.is_some() {
            return Ok(wrong);
        }
        left = words_after(left, words_taken(*argument, word));
    }
    match word_at(left, 0) {
        Some(word) => Ok(Some(format!(in alloc; "'{word}' is one word too many")?)),
        None => Ok(None),
    }
}

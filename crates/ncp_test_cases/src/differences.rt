//! The differences between a case and its outcome.

use crate::cases::Case;
use crate::playing::Ended;
use anyhow::Result;
use std::alloc::{AllocError, Global};

/// Printed in place of a line when a text has no further line.
const NO_MORE: &str = "(no more)";

// Whether bytes are lines of printable ASCII.
fn are_lines(bytes: &[u8]) -> bool {
    bytes.iter().all(|byte| byte.is_ascii_graphic() || *byte == b' ' || *byte == b'\n')
}

// Bytes in printable form: lines unchanged, other bytes in hexadecimal.
fn shown(alloc: Global, bytes: &[u8]) -> Result<String, AllocError> {
    let mut text = String::new(alloc);
    if are_lines(bytes) {
        for byte in bytes {
            text.push(char::from(*byte))?;
        }
        return Ok(text);
    }
    for byte in bytes {
        let digits = format!(in alloc; "{byte:02x}")?;
        text.push_str(digits.as_str())?;
    }
    Ok(text)
}

// The number of the first line in which two texts differ, and that line of each.
fn first_difference<'a>(wanted: &'a str, came: &'a str) -> (usize, &'a str, &'a str) {
    let mut number = 1usize;
    let mut lines = came.split('\n');
    for line in wanted.split('\n') {
        let other = lines.next().unwrap_or(NO_MORE);
        if line != other {
            return (number, line, other);
        }
        number = number.saturating_add(1);
    }
    (number, NO_MORE, lines.next().unwrap_or(NO_MORE))
}

// Prints the first line in which the output differs from the expected one, and returns whether
// there is no difference.
fn print_difference(
    rt: &HostRuntime,
    name: &str,
    what: &str,
    wanted: &[u8],
    came: &[u8],
) -> Result<bool> {
    if wanted == came {
        return Ok(true);
    }
    let wanted = shown(rt.alloc(), wanted)?;
    let came = shown(rt.alloc(), came)?;
    let (number, line, other) = first_difference(wanted.as_str(), came.as_str());
    println!(rt; "  case {name}: {what}, line {number}: wanted {line:?}, came {other:?}")?;
    Ok(false)
}

// Prints the status if it is not the expected one, and returns whether it is.
fn print_status(rt: &HostRuntime, name: &str, wanted: u8, came: u8) -> Result<bool> {
    if wanted == came {
        return Ok(true);
    }
    println!(rt; "  case {name}: status {came}, wanted {wanted}")?;
    Ok(false)
}

/// Prints the differences between a case and its outcome, and returns whether there are none.
pub(crate) fn print_differences(rt: &HostRuntime, case: &Case<'_>, ended: &Ended) -> Result<bool> {
    let name = case.name;
    let output = print_difference(
        rt,
        name,
        "output",
        case.output.as_slice(),
        ended.output.bytes(),
    )?;
    let errors = print_difference(
        rt,
        name,
        "standard error",
        case.errors.as_slice(),
        ended.errors.bytes(),
    )?;
    let status = print_status(rt, name, case.status.unwrap_or(0), ended.status)?;
    Ok(output && errors && status)
}

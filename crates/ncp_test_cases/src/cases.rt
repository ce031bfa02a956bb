//! Reads files of cases line by line. `examples/cases` describes the marks of the lines.

use crate::hexadecimal::push_bytes;
use anyhow::{Result, ensure};
use std::alloc::{AllocError, Global};

/// The first word of each command line.
const PROGRAM: &str = "ncp";

/// The words of a command line, the program's name first; the input; and the expected output,
/// standard error and status.
#[derive(Drop)]
pub(crate) struct Case<'a> {
    pub name: &'a str,
    pub words: Vec<&'a str>,
    pub input: Vec<u8>,
    pub output: Vec<u8>,
    pub errors: Vec<u8>,
    pub status: Option<u8>,
}

// The cases so far. The last one is open until an empty line.
#[derive(Drop)]
struct Reader<'a> {
    alloc: Global,
    cases: Vec<Case<'a>>,
    is_open: bool,
}

// Whether a line is printable ASCII.
fn is_printable(line: &str) -> bool {
    line.bytes()
        .all(|byte| byte == b' ' || byte.is_ascii_graphic())
}

// Whether a text can be the name of a case.
fn is_name(text: &str) -> bool {
    !text.is_empty()
        && text
            .bytes()
            .all(|byte| byte == b'_' || byte.is_ascii_alphanumeric())
}

// The name and the words in the first line of a case.
fn head_of(line: &str) -> Option<(&str, &str)> {
    let (name, words) = line.strip_prefix("case ")?.split_once(": ")?;
    if !is_name(name) || words.is_empty() || words.starts_with(' ') {
        return None;
    }
    Some((name, words))
}

// The words of a command line, the program's name first.
fn words_of<'a>(alloc: Global, text: &'a str) -> Result<Vec<&'a str>, AllocError> {
    let mut words = Vec::new(alloc);
    words.push(PROGRAM)?;
    for word in text.split_ascii_whitespace() {
        words.push(word)?;
    }
    Ok(words)
}

// Appends a line with its end.
fn push_line(bytes: &mut Vec<u8>, line: &str) -> Result<bool, AllocError> {
    bytes.extend_from_slice(line.as_bytes())?;
    bytes.push(b'\n')?;
    Ok(true)
}

// Appends a line of standard error. A line with two spaces at its front explains the fault before
// it: the program prints it, but its library does not.
fn push_told(errors: &mut Vec<u8>, line: &str) -> Result<bool, AllocError> {
    if line.starts_with("  ") {
        return Ok(true);
    }
    push_line(errors, line)
}

// Appends bytes in hexadecimal, up to a remark.
fn push_digits(bytes: &mut Vec<u8>, text: &str) -> Result<bool, AllocError> {
    match text.split_once('#') {
        Some((digits, _remark)) => push_bytes(bytes, digits),
        None => push_bytes(bytes, text),
    }
}

impl<'a> Case<'a> {
    // A case without lines.
    fn new(alloc: Global, name: &'a str, words: &'a str) -> Result<Self, AllocError> {
        Ok(Case {
            name,
            words: words_of(alloc, words)?,
            input: Vec::new(alloc),
            output: Vec::new(alloc),
            errors: Vec::new(alloc),
            status: None,
        })
    }

    // Takes the input of the earlier case with this name.
    fn take_input(&mut self, before: &[Case<'a>], name: &str) -> Result<bool, AllocError> {
        for case in before {
            if case.name == name {
                self.input.extend_from_slice(case.input.as_slice())?;
                return Ok(true);
            }
        }
        Ok(false)
    }

    // Takes the expected status, unless there is one already.
    fn take_status(&mut self, text: &str) -> bool {
        let is_number = text.bytes().all(|byte| byte.is_ascii_digit());
        match text.parse::<u8>() {
            Ok(status) if is_number && self.status.is_none() => {
                self.status = Some(status);
                true
            }
            _ => false,
        }
    }

    // Takes a line by the mark at its front, and returns whether it is valid in a case.
    fn take(&mut self, before: &[Case<'a>], line: &str) -> Result<bool, AllocError> {
        let (mark, rest) = line.split_once(' ').unwrap_or((line, ""));
        match mark {
            ">" => push_line(&mut self.input, rest),
            ">x" => push_digits(&mut self.input, rest),
            ">=" => self.take_input(before, rest),
            "<x" => push_digits(&mut self.output, rest),
            "!" => push_told(&mut self.errors, rest),
            "=" => Ok(self.take_status(rest)),
            _ => push_line(&mut self.output, line),
        }
    }
}

impl<'a> Reader<'a> {
    // Begins a case, and returns whether the line does so with an unused name.
    fn begin(&mut self, line: &'a str) -> Result<bool, AllocError> {
        let Some((name, words)) = head_of(line) else {
            return Ok(false);
        };
        if self.cases.iter().any(|case| case.name == name) {
            return Ok(false);
        }
        self.cases.push(Case::new(self.alloc, name, words)?)?;
        self.is_open = true;
        Ok(true)
    }

    // Takes a line, and returns whether it is valid here.
    fn take(&mut self, line: &'a str) -> Result<bool, AllocError> {
        if !is_printable(line) {
            return Ok(false);
        }
        if line.is_empty() {
            self.is_open = false;
            return Ok(true);
        }
        if line == "#" || line.starts_with("# ") {
            return Ok(true);
        }
        if !self.is_open {
            return self.begin(line);
        }
        match self.cases.split_last_mut() {
            Some((open, before)) => open.take(before, line),
            None => Ok(false),
        }
    }
}

/// The cases of a file, in order.
pub(crate) fn cases_in(alloc: Global, text: &str) -> Result<Vec<Case<'_>>> {
    let mut reader = Reader {
        alloc,
        cases: Vec::new(alloc),
        is_open: false,
    };
    for (index, line) in text.split_terminator('\n').enumerate() {
        let number = index.saturating_add(1);
        ensure!(reader.take(line)?, "line {number}: this belongs to no case");
    }
    ensure!(
        text.is_empty() || text.ends_with('\n'),
        "the last line does not end"
    );
    Ok(reader.cases)
}

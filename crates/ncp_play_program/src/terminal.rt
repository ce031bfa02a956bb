//! Output to a terminal, which acts on some bytes: text from the command line, a file's name or a
//! peer is shown as printable ASCII.

use ncp_play_explain::in_signs;
use std::alloc::{AllocError, Global};

/// Which of the program's streams are terminals.
#[derive(Clone, Copy, Drop)]
pub(crate) struct Terminals {
    pub output: bool,
    pub errors: bool,
}

/// Adds a byte as any terminal can show it.
pub(crate) fn push_spelled(text: &mut String, byte: u8) -> Result<(), AllocError> {
    for sign in in_signs(byte).as_bytes() {
        text.push(char::from(*sign))?;
    }
    Ok(())
}

/// Spells each byte of lines as any terminal can show it, except ends of lines, which are kept.
pub(crate) fn for_terminal(alloc: Global, lines: &str) -> Result<String, AllocError> {
    let mut text = String::new(alloc);
    for byte in lines.bytes() {
        if byte == b'\n' {
            text.push('\n')?;
        } else {
            push_spelled(&mut text, byte)?;
        }
    }
    Ok(text)
}

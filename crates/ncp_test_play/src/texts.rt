//! Texts joined from parts.
use std::alloc::{AllocError, Global};

pub(crate) fn joined(alloc: Global, texts: &[&[u8]]) -> Result<Vec<u8>, AllocError> {
    let mut all = Vec::new(alloc);
    for text in texts {
        all.extend_from_slice(text)?;
    }
    Ok(all)
}

/// The same line, `count` times.
pub(crate) fn repeated(alloc: Global, line: &[u8], count: u32) -> Result<Vec<u8>, AllocError> {
    let mut lines = Vec::new(alloc);
    for _ in 0..count {
        lines.extend_from_slice(line)?;
    }
    Ok(lines)
}

/// `count` lines, numbered from `first` on: the number of each, followed by `behind`.
pub(crate) fn numbered(
    alloc: Global,
    first: u32,
    count: u32,
    behind: &[u8],
) -> Result<Vec<u8>, AllocError> {
    let mut lines = Vec::new(alloc);
    for number in first..first.saturating_add(count) {
        lines.extend_from_slice(format!(in alloc; "{number}")?.as_bytes())?;
        lines.extend_from_slice(behind)?;
    }
    Ok(lines)
}

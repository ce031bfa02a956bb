//! The printed forms of values.
use std::alloc::{AllocError, Global};
use std::fmt;

/// Whether a fault's message is this text.
pub fn is_told(alloc: Global, fault: &impl fmt::Display, text: &str) -> Result<bool, AllocError> {
    Ok(format!(in alloc; "{fault}")?.as_str() == text)
}

/// Whether the `Debug` form of a value is this text.
pub fn is_shown(alloc: Global, value: &impl fmt::Debug, text: &str) -> Result<bool, AllocError> {
    Ok(format!(in alloc; "{value:?}")?.as_str() == text)
}

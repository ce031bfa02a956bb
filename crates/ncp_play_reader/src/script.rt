//! `Script`: the position in a script, with the source that it is read from.
use crate::lines::Lines;

/// A script's lines and their source, both borrowed for one call. The owner gets the same two back
/// afterwards (clause `same_script`).
#[derive(Drop)]
pub struct Script<'a, S> {
    /// The reader's position.
    pub lines: &'a mut Lines,

    /// The source of further bytes.
    pub source: &'a mut S,
}

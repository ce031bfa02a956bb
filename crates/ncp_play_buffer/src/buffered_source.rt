//! `BufferedSource`: an in buffer with its source.
use crate::in_buffer::InBuffer;

/// An in buffer and the source that it is filled from, both borrowed for one call. The owner gets
/// the same two back afterwards (clause `same_inlet`).
#[derive(Drop)]
pub struct BufferedSource<'a, S> {
    /// The bytes read and not yet consumed.
    pub window: &'a mut InBuffer,

    /// The source of further bytes.
    pub source: &'a mut S,
}

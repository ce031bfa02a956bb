//! `Answer`.
/// The subnet's answer to a message that was sent on a link.
#[derive(Clone, Copy, Debug, Drop, PartialEq, Eq)]
pub enum Answer {
    /// Ready For Next Message: the message was delivered.
    Rfnm,
    /// Incomplete Transmission: the message was not delivered.
    Incomplete,
    /// Destination Dead: the message was not delivered, and is held until the user asks for it.
    Dead,
}

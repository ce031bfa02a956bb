//! `Record`.

/// The role of this host in a connection.
#[derive(Clone, Copy, Debug, Drop, PartialEq, Eq)]
pub enum Role {
    /// This host sends text.
    Send,
    /// This host receives text.
    Receive,
}

/// A copy of the state of a connection here. It has the number of stored bits, not the bits.
#[derive(Clone, Copy, Debug, Drop, PartialEq, Eq)]
pub struct Record {
    /// `Send` if the socket here is odd.
    pub end: Role,
    /// The local request was made.
    pub asked: bool,
    /// The peer's request was received.
    pub heard: bool,
    /// Both requests met before either side closed.
    pub opened: bool,
    /// A CLS is due.
    pub leaving: bool,
    /// The CLS was made.
    pub left: bool,
    /// The peer's CLS was received.
    pub cls: bool,
    /// Chosen by the receiver; 0 until then.
    pub link: u8,
    /// Bits per byte, chosen by the sender; 0 until then.
    pub size: u8,
    /// The allocated messages: a sender's counter, or what is outstanding at a receiver.
    pub messages: u16,
    /// The allocated bits, likewise.
    pub bits: u32,
    /// The number of bits stored: to be sent at a sender, held at a receiver.
    pub stored: u32,
    /// A sender's text has had no RFNM yet.
    pub busy: bool,
    /// A receiver's GVB is unanswered.
    pub recall: bool,
    /// The number of interrupts received.
    pub interrupts: u32,
}

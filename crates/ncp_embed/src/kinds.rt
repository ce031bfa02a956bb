//! The types of messages from an IMP that a host does not handle, by number (BBN 1822, section 3).
//! `ncp_leader` has the others.

/// The IMP could not read the leader of a message. It does not identify the message.
pub const ERROR_IN_LEADER: u8 = 1;

/// The IMP is going down.
pub const GOING_DOWN: u8 = 2;

/// No operation.
pub const NOP: u8 = 4;

/// The IMP could not read a message. Its leader has the host and the link of that message.
pub const ERROR_IN_MESSAGE: u8 = 8;

/// The interface was reset.
pub const INTERFACE_RESET: u8 = 10;

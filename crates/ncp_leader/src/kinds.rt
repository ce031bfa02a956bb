//! The types of messages that a host or a subnet acts on, by their numbers (BBN 1822, section 3).

/// The type of a regular message.
pub const REGULAR: u8 = 0;

/// The type of Ready For Next Message: the message was delivered.
pub const RFNM: u8 = 5;

/// The type of Destination Dead: the message was not delivered.
pub const DESTINATION_DEAD: u8 = 7;

/// The type of Incomplete Transmission: the message was not delivered.
pub const INCOMPLETE: u8 = 9;

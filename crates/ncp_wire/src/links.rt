//! The links of a host and its peer (NIC 8246), and the byte size on the control link.

/// The link of control messages.
pub const CONTROL_LINK: u8 = 0;

/// The byte size of a control message, in bits.
pub const CONTROL_SIZE: u8 = 8;

/// The link between the control link and those of connections. It carries nothing.
pub const UNUSED_LINK: u8 = 1;

/// The first link that carries a connection.
pub const FIRST_LINK: u8 = 2;

/// The last link that carries a connection.
pub const LAST_LINK: u8 = 71;

/// The number of links that carry connections.
pub const DATA_LINKS: u8 = LAST_LINK - FIRST_LINK + 1;

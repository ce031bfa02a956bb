//! The limits of this profile.

/// The most bits of text in a message that the host makes.
pub const MAX_TEXT: u32 = 7928;
/// The most bytes of whole commands in a control text that the host makes.
pub const MAX_CONTROL: usize = 120;
/// The most commands queued for one peer.
pub const MAX_WAITING: usize = 512;
/// The user's calls may queue a command only while fewer than this many are queued.
pub const MAX_CALLED: usize = 256;
/// The most endpoints with a local request, for one peer.
pub const MAX_OWN: usize = 64;
/// The most endpoints with the peer's request alone, for one peer.
pub const MAX_BY_PEER: usize = 64;
/// The most bits in the store of an endpoint.
pub const MAX_ROOM: u32 = 65_536;
/// The greatest value of a counter of messages.
pub const MAX_MESSAGES: u16 = 65_535;
/// The greatest value of a counter of bits.
pub const MAX_AMOUNT: u32 = 4_294_967_295;
/// The greatest value of a running number; it saturates there.
pub const MAX_COUNT: u32 = 4_294_967_295;
/// The denominator of GVB's fractions: they are in 128ths.
pub const GIVE_BACK_PARTS: u32 = 128;
/// The most errors that a host keeps for one peer; it keeps the most recent ones.
pub const MAX_ERRORS: usize = 16;

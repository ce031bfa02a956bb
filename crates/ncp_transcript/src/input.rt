//! `Input`.
use crate::call::Call;
use ncp_bits::Bits;

/// An input to a host.
#[derive(Debug, Drop)]
pub enum Input {
    /// A call of its user.
    Call(Call),
    /// Received bits.
    In(Bits),
    /// A request for its next message.
    Out,
}

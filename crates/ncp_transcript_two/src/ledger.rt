//! `Ledger`.

use ncp_model::Amount;

/// The outstanding allocation of an open connection, and its parts. `outstanding` is the sum of the
/// other amounts.
#[derive(Clone, Copy, Debug, Drop, PartialEq, Eq)]
pub struct Ledger {
    /// Allocation the receiver granted, less the amounts returned and used.
    pub outstanding: Amount,
    /// The sender's counters.
    pub counters: Amount,
    /// The amounts of the ALLs underway (queued or in flight) to the sender.
    pub all: Amount,
    /// The text sent and not yet delivered, if any.
    pub text: Amount,
    /// The amounts of the RETs underway to the receiver.
    pub ret: Amount,
}

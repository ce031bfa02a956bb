//! `Leader`.
ghost use Rattle.std.specs.Prelude.{◌≡◌, ◌<◌, ◌≤◌, ◌++◌, ◌↔◌, length, IfOk, IsErr, List, Bool};
ghost use Rattle.ncp_leader.specs.Leader.{IsLeader, leader_bits, leader_at, leader_in, BeginsWith};
ghost use Rattle.ncp_leader.specs.Bytes.{leader_bytes};

use ncp_bits::{Bits, Part};
use thiserror::Error;

/// The number of bits of a leader.
pub const LEADER_BITS: usize = 32;

/// The largest value of the flags, which have four bits.
pub const MAX_FLAGS: u8 = 15;

/// The largest value of the type, which has four bits.
pub const MAX_KIND: u8 = 15;

/// The first 32 bits of a message (BBN Report 1822, section 3).
#[derive(Clone, Copy, Debug, Drop, PartialEq, Eq)]
pub struct Leader {
    /// Bits 1 to 4, at most [`MAX_FLAGS`].
    pub flags: u8,
    /// Bits 5 to 8, the type, at most [`MAX_KIND`].
    pub kind: u8,
    /// Bits 9 to 16: the destination of a message that a host sends, the source of one that it
    /// receives.
    pub host: u8,
    /// Bits 17 to 24.
    pub link: u8,
    /// Bits 25 to 32.
    pub low: u8,
}

/// A message that is shorter than a leader.
#[derive(Clone, Copy, Debug, Drop, PartialEq, Eq, Error)]
#[error("shorter than a leader")]
pub struct Short;

/// The leader of a message that is long enough.
// This and every other function that reads a message is inlined: if the caller's message is known
// to start at a byte boundary, its numbers are read without a loop.
#[inline(always)]
pub(crate) fn leader_of(part: &Part<'_>) -> Leader
    requires { LEADER_BITS ≤ length part.now }
    ensures { result ≡ leader_at part.now }
{
    Leader {
        flags: part.number(0, 4) as u8,
        kind: part.number(4, 4) as u8,
        host: part.number(8, 8) as u8,
        link: part.number(16, 8) as u8,
        low: part.number(24, 8) as u8,
    }
}

/// The leader of a message, regardless of the bits after it. `Short` if there are fewer than
/// [`LEADER_BITS`] bits.
#[inline(always)]
pub fn read_leader(bits: &Bits) -> Result<Leader, Short>
    ensures exact { result ≡ leader_in bits.now }
    ensures short { IsErr result ↔ (length bits.now < LEADER_BITS) }
    ensures found { IfOk result (λ leader. BeginsWith bits.now leader) }
{
    read_leader_in(&bits.whole())
}

/// As [`read_leader`], for a message within other bits or in bytes.
#[inline(always)]
pub fn read_leader_in(part: &Part<'_>) -> Result<Leader, Short>
    ensures exact { result ≡ leader_in part.now }
    ensures short { IsErr result ↔ (length part.now < LEADER_BITS) }
    ensures found { IfOk result (λ leader. BeginsWith part.now leader) }
{
    if part.len() < LEADER_BITS {
        return Err(Short);
    }
    Ok(leader_of(part))
}

/// The four bytes of a leader.
#[inline(always)]
pub(crate) fn leader_bytes(leader: Leader) -> [u8; 4]
    requires flags { leader.flags ≤ MAX_FLAGS }
    requires kind { leader.kind ≤ MAX_KIND }
    ensures bytes { result ≡ leader_bytes leader }
    ensures fits { IsLeader leader }
{
    [
        leader.flags << 4 | leader.kind,
        leader.host,
        leader.link,
        leader.low,
    ]
}

/// The bits of a leader.
pub fn put_leader(leader: &Leader) -> Bits
    requires flags { leader.now.flags ≤ MAX_FLAGS }
    requires kind { leader.now.kind ≤ MAX_KIND }
    ensures bits { result ≡ leader_bits leader.now }
    ensures len { length result ≡ LEADER_BITS }
    ensures begins { BeginsWith result leader.now }
{
    Bits::from_bytes(&leader_bytes(*leader), LEADER_BITS).unwrap()
}

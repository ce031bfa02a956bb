//! `Amount`, and the share of an allocation that a GVB calls back.
ghost use Rattle.std.specs.Prelude.{◌≡◌};
ghost use Rattle.ncp_model.specs.Amounts.{back};

use crate::limits::GIVE_BACK_PARTS;

/// An allocation: a number of messages and a number of bits.
#[derive(Clone, Copy, Debug, Drop, PartialEq, Eq)]
pub struct Amount {
    pub messages: u64,
    pub bits: u64,
}

/// Returns the part of `counter` that a GVB gives back: `fraction` 128ths of it, rounded up, and at
/// most all of it.
#[tactic(auto, unfolding(crate::specs::Amounts::back))]
pub fn give_back(counter: u32, fraction: u8) -> u32
    ensures { result ≡ back counter fraction }
{
    let parts = u64::from(counter) * u64::from(fraction);
    let due = parts.div_ceil(u64::from(GIVE_BACK_PARTS));
    u64::from(counter).min(due) as u32
}

//! `SaturatingAmount`: a number of messages and a number of bits.
ghost use Rattle.std.specs.Prelude.{◌≡◌};
ghost use Rattle.ncp_follow.specs.Amounts.{nothing, with_more, with_less, covers};

/// A number of messages and a number of bits, both saturating: the largest number means that many
/// or more.
#[derive(Clone, Copy, Debug, Drop, PartialEq, Eq)]
pub struct SaturatingAmount {
    pub messages: u32,
    pub bits: u32,
}

impl SaturatingAmount {
    // No messages and no bits.
    pub(crate) fn nothing() -> SaturatingAmount
        ensures { result ≡ nothing }
    {
        SaturatingAmount {
            messages: 0,
            bits: 0,
        }
    }

    // Adds `messages` and `bits`.
    pub(crate) fn more(self, messages: u32, bits: u32) -> SaturatingAmount
        ensures { result ≡ with_more self messages bits }
    {
        SaturatingAmount {
            messages: self.messages.saturating_add(messages),
            bits: self.bits.saturating_add(bits),
        }
    }

    // Subtracts `messages` and `bits`, down to zero.
    pub(crate) fn less(self, messages: u32, bits: u32) -> SaturatingAmount
        ensures { result ≡ with_less self messages bits }
    {
        SaturatingAmount {
            messages: self.messages.saturating_sub(messages),
            bits: self.bits.saturating_sub(bits),
        }
    }

    // Whether the amount covers a message of `bits` bits.
    pub(crate) fn covers(self, bits: u32) -> bool
        ensures { result ≡ covers self bits }
    {
        self.messages > 0 && bits <= self.bits
    }
}

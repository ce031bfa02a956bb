//! `Counter`: a counting number that keeps its decimal digits.
ghost use Rattle.std.specs.Prelude.{◌≡◌, ◌≤◌, take, length, decimal};
ghost use Rattle.ncp_play_buffer.specs.Lines.{number_after};

use crate::out_buffer::{MAX_NUMBER_LEN, count_digits};
use itoa::write_digits;
use std::marker::Model;

/// A number that counts up from one. It keeps its decimal digits, since an increment mostly changes
/// only the last one.
#[derive(Drop)]
pub struct Counter {
    number: u32,
    digits: [u8; MAX_NUMBER_LEN],
    count: usize,
}

impl Model for Counter {
    ghost use Rattle.std.specs.Prelude.{◌≡◌, ◌≤◌, ℕ, take, decimal};
    ghost use Rattle.ncp_play_buffer.specs.declared.out_buffer.TheConstants.{MAX_NUMBER_LEN};

    ghost Value = { ℕ };

    ghost view = { λ counter. counter.number };

    ghost invariant = { λ counter. (counter.count ≤ MAX_NUMBER_LEN) × (take counter.count counter.digits ≡ decimal counter.number) };
}

impl Counter {
    /// Starts at one.
    pub fn first() -> Self
        ensures { result ≡ 1 }
    {
        Counter {
            number: 1,
            digits: [b'1'; MAX_NUMBER_LEN],
            count: 1,
        }
    }

    /// The current number.
    pub fn number(&self) -> u32
        ensures { result ≡ self.now }
    {
        self.number
    }

    /// The digits of the number, with unspecified bytes after them.
    pub(crate) fn digits(&self) -> &[u8; MAX_NUMBER_LEN]
        ensures { take (length (decimal self.now)) result.now ≡ decimal self.now }
    {
        &self.digits
    }

    /// The number of digits.
    pub(crate) fn count(&self) -> usize
        ensures digits { result ≡ length (decimal self.now) }
        ensures fits { result ≤ MAX_NUMBER_LEN }
    {
        self.count
    }

    // Sets the number and writes all its digits.
    #[inline(never)]
    fn write(&mut self, number: u32)
        ensures { self.new ≡ number }
    {
        let wide = u64::from(number);
        let count = count_digits(wide);
        write_digits(wide, &mut self.digits, count);
        self.count = count;
        self.number = number;
    }

    /// Adds one. The largest number stays.
    #[inline(always)]
    pub fn advance(&mut self)
        ensures { self.new ≡ number_after self.old }
    {
        let next = self.number.saturating_add(1);
        let last = next % 10;
        if last == 0 {
            self.write(next);
        } else {
            self.digits[self.count - 1] = b'0' + last as u8;
            self.number = next;
        }
    }
}

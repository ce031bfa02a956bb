//! Laws of packed bits. Each is the contract of a function with an empty body.
ghost use Rattle.std.specs.Prelude.{◌≡◌, ◌↔◌, ℕ, List, Bool, ◌≤◌, length, take, Ok, Err};
ghost use Rattle.ncp_numbers.specs.Bytes.{bits_of_bytes, bytes_of};
ghost use Rattle.ncp_bits.specs.Bits.{read_bytes, IsAtFault, judged};
ghost use Rattle.ncp_bits.specs.Reasons.{IsFirst, NoneHolds};
ghost use Rattle.ncp_bits.specs.declared.bits.BitsFault.{BitsFault};

use crate::bits::MAX_BITS;

/// Packing at most [`MAX_BITS`] bits and reading them back returns the same bits.
pub fn bytes_are_read()
    ensures { (bits : List Bool) → length bits ≤ MAX_BITS → read_bytes (bytes_of bits) (length bits) ≡ Ok bits }
{}

/// Bits are refused for the first reason that holds, in the order of [`BitsFault`], and read if
/// none does.
pub fn bits_faults_are_in_order()
    ensures first { (bytes : List ℕ) (len : ℕ) (fault : BitsFault) → (read_bytes bytes len ≡ Err fault) ↔ IsFirst (IsAtFault bytes len) judged fault }
    ensures none { (bytes : List ℕ) (len : ℕ) → NoneHolds (IsAtFault bytes len) judged → read_bytes bytes len ≡ Ok (take len (bits_of_bytes bytes)) }
{}

/// The limit of a [`Bits`], as a number.
pub fn bits_limits_are_these()
    ensures bits { MAX_BITS ≡ 8192 }
{}

//! Laws of numbers, bytes and bits. Each is the contract of a function with an empty body.
ghost use Rattle.std.specs.Prelude.{◌≡◌, ℕ, List, Bool, false, ◌<◌, ◌^◌, ◌++◌, length, replicate, All};
ghost use Rattle.ncp_numbers.specs.Numbers.{number_of, bits_of};
ghost use Rattle.ncp_numbers.specs.Bytes.{bits_of_bytes, bytes_of, spare_for};

/// `bits_of` and `number_of` are inverse to each other, for numbers that fit the width.
pub fn numbers_are_bits()
    ensures number { (width number : ℕ) → number < 2 ^ width → number_of (bits_of width number) ≡ number }
    ensures len { (width number : ℕ) → length (bits_of width number) ≡ width }
    ensures bits { (bits : List Bool) → bits_of (length bits) (number_of bits) ≡ bits }
    ensures fits { (bits : List Bool) → number_of bits < 2 ^ length bits }
{}

/// `bits_of_bytes` and `bytes_of` are inverse to each other, except that bits that do not fill
/// their last byte gain its spare zeros.
pub fn bytes_are_bits()
    ensures bytes { (bytes : List ℕ) → All (λ byte. byte < 256) bytes → bytes_of (bits_of_bytes bytes) ≡ bytes }
    ensures bits { (bits : List Bool) → bits_of_bytes (bytes_of bits) ≡ bits ++ replicate (spare_for (length bits)) false }
{}

//! The search for a byte at which bytes are cut.
ghost use Rattle.std.specs.Prelude.{◌≡◌, ◌==◌, position};

/// The index of the first such byte, if any.
pub(crate) fn position_of(byte: u8, bytes: &[u8]) -> Option<usize>
    ensures { result ≡ position (λ b. b == byte) bytes.now }
{
    bytes.iter().position(|b| *b == byte)
}

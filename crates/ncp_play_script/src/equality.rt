//! `==` is equality.
ghost use Rattle.std.specs.Prelude.{◌≡◌, ◌↔◌, true};

use crate::line_buffer::LineKind;
use crate::verbs::Verb;

/// Two verbs compare as equal exactly when they are the same.
pub fn equal_verbs(a: Verb, b: Verb) -> bool
    ensures { (result ≡ true) ↔ (a ≡ b) }
{
    a == b
}

/// Two kinds of line compare as equal exactly when they are the same.
pub fn equal_kinds(a: LineKind, b: LineKind) -> bool
    ensures { (result ≡ true) ↔ (a ≡ b) }
{
    a == b
}

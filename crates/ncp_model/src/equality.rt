//! `==` is equality: it holds exactly when both values are the same in the specification.
ghost use Rattle.std.specs.Prelude.{◌≡◌, ◌↔◌, true};
ghost use Rattle.ncp_model.specs.Pairs.{same};

use crate::call_fault::CallFault;
use crate::outcomes::{Heard, Took};
use crate::pair::Pair;

/// `==` of pairs is equality, and agrees with `same`.
pub fn pairs_are_equal(a: &Pair, b: &Pair) -> bool
    ensures one { (result ≡ true) ↔ (a.now ≡ b.now) }
    ensures same { result ≡ same a.now b.now }
{
    a == b
}

/// `==` of refusals is equality.
pub fn faults_are_equal(a: &CallFault, b: &CallFault) -> bool
    ensures { (result ≡ true) ↔ (a.now ≡ b.now) }
{
    a == b
}

/// `==` of `Took` is equality.
pub fn took_are_equal(a: &Took, b: &Took) -> bool
    ensures { (result ≡ true) ↔ (a.now ≡ b.now) }
{
    a == b
}

/// `==` of `Heard` is equality.
pub fn heard_are_equal(a: &Heard, b: &Heard) -> bool
    ensures { (result ≡ true) ↔ (a.now ≡ b.now) }
{
    a == b
}

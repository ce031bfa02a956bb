//! The amount that a GVB gives back, characterized by inequalities.
ghost use Rattle.std.specs.Prelude.{◌≡◌, ℕ, ◌+◌, ◌*◌, ◌≤◌, ◌<◌};
ghost use Rattle.ncp_model.specs.Amounts.{back};

use crate::limits::GIVE_BACK_PARTS;

/// `back` returns at most the counter. For a part of up to 128 it returns at least that many 128ths
/// of the counter, and less than one more than that; for a part of 128 or more, the whole counter.
#[tactic(auto, unfolding(crate::specs::Amounts::back))]
pub fn parts_are_rounded_up()
    ensures parts { GIVE_BACK_PARTS ≡ 128 }
    ensures at_most { (counter fraction : ℕ) → back counter fraction ≤ counter }
    ensures enough { (count part : ℕ) → part ≤ GIVE_BACK_PARTS → count * part ≤ GIVE_BACK_PARTS * back count part }
    ensures no_more { (count part : ℕ) → GIVE_BACK_PARTS * back count part < count * part + GIVE_BACK_PARTS }
    ensures all { (counter fraction : ℕ) → GIVE_BACK_PARTS ≤ fraction → back counter fraction ≡ counter }
    ensures none { (counter fraction : ℕ) → (back counter 0 ≡ 0) × (back 0 fraction ≡ 0) }
    ensures up { (back 1 1 ≡ 1) × (back 1000 3 ≡ 24) × (back 129 1 ≡ 2) × (back 128 1 ≡ 1) × (back 128 127 ≡ 127) }
{}

//! When an endpoint makes its CLS, and when it does not.
ghost use Rattle.std.specs.Prelude.{◌≡◌, true, false, [], ◌∷◌, None};
ghost use Rattle.std.specs.List.{list_any};
ghost use Rattle.ncp_model.specs.EndpointEvents.{EndpointEvent, happens};
ghost use Rattle.ncp_proof_endpoint.specs.Keeping.{is_cls, frees_the_sender, was_left};
ghost use Rattle.ncp_proof_endpoint.specs.OfEnds.{AtEachEnd, UnlessCleared, WhileBusy, OfAllMade, WhereAnEndStays};
ghost use Rattle.ncp_model.specs.Effect.{closing};

use ncp_model::Pair;

/// Unless it is cleared, an endpoint that had not left makes a CLS exactly when it has left or
/// ended afterwards. An endpoint that has left, with no CLS due, makes none, and no event makes one
/// without an endpoint. While its text is unacknowledged, a sender makes none before the RFNM. The
/// CLS is the only command made, and names the endpoint's own socket first. The endpoint then
/// stores no bits.
pub fn a_cls_is_made_where_an_end_is_left()
    ensures made { UnlessCleared (λ e it. e.left ≡ false → list_any is_cls it.made ≡ was_left it.after) }
    ensures once { AtEachEnd (λ pair what e it. e.left ≡ true → e.leaving ≡ false → list_any is_cls it.made ≡ false) }
    ensures none { (pair : Pair) (what : EndpointEvent) → list_any is_cls (happens pair what None).made ≡ false }
    ensures its_sockets { OfAllMade (λ pair made. list_any is_cls made ≡ true → made ≡ closing pair ∷ []) }
    ensures waits { WhileBusy (λ what it. frees_the_sender what ≡ false → list_any is_cls it.made ≡ false) }
    ensures dropped { WhereAnEndStays (λ was now. was.left ≡ false → now.left ≡ true → now.stored ≡ []) }
{}

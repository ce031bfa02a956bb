//! When two hosts are quiescent, all is finished.
ghost use Rattle.std.specs.Prelude.{◌≡◌, ◌<◌, ◌++◌, ℕ, Bool, true, false, List, length, Option, Some};
ghost use Rattle.ncp_model.specs.Endpoint.{Endpoint, is_open};
ghost use Rattle.ncp_model.specs.Texts.{can_send};
ghost use Rattle.ncp_proof_machine.specs.Hosts.{NodeEvent, run};
ghost use Rattle.ncp_proof_progress.specs.Idle.{IsSettledInModel};
ghost use Rattle.ncp_proof_progress.specs.Finished.{OpenAndAgreed, PairFinished, IsFinished};

use ncp_model::Pair;

/// After every schedule that leaves the two hosts quiescent (no step moves a message), both are
/// finished. Nothing is owed, queued or unacknowledged, neither host awaits an RRP, and no sender
/// has a text unacknowledged or its CLS pending. If both are up, each pair of ends is in one of
/// five states, and each state waits for a user.
pub fn where_nothing_moves_two_are_finished()
    ensures { (events : List NodeEvent) → IsSettledInModel (run events) → IsFinished (run events) }
{}

/// What a finished pair means for a user:
///
/// - `opened`: if both have asked and the sender has not made its CLS, both ends are open and
///   agree.
/// - `closed`: a sender that closed has made its CLS; if its end still exists, the receiver holds
///   text that its user has yet to take.
/// - `arrived`: at an open sender, all text given was got, except the stored text, which cannot be
///   sent.
/// - `together`: if the sender has an end, so does the receiver.
pub fn what_a_finished_pair_has()
    ensures opened { (pair : Pair) (e f : Endpoint) (given got : List Bool) → PairFinished pair (Some e) (Some f) given got → e.asked ≡ true → f.asked ≡ true → e.left ≡ false → OpenAndAgreed pair e f given got }
    ensures closed { (pair : Pair) (e : Endpoint) (r : Option Endpoint) (given got : List Bool) → PairFinished pair (Some e) r given got → (e.leaving ≡ false) × (e.left ≡ true → (f : Endpoint) × (r ≡ Some f) × (f.leaving ≡ true) × (0 < length f.stored)) }
    ensures arrived { (pair : Pair) (e : Endpoint) (r : Option Endpoint) (given got : List Bool) → PairFinished pair (Some e) r given got → is_open e ≡ true → (given ≡ got ++ e.stored) × (can_send pair e ≡ false) }
    ensures together { (pair : Pair) (e : Endpoint) (r : Option Endpoint) (given got : List Bool) → PairFinished pair (Some e) r given got → (f : Endpoint) × (r ≡ Some f) }
{}

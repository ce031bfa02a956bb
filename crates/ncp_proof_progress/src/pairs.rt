//! Pairs of ends that are finished, and pairs that are not.
ghost use Rattle.std.specs.Prelude.{List, [], Bool, ◌++◌, None, Some};
ghost use Rattle.ncp_model.specs.Rows.{outward, inward, ones, link_heard, size_heard, asked_send, asked_receive, opened_end, counting, storing, sent_one, due, gone, shut};
ghost use Rattle.ncp_proof_progress.specs.Finished.{EndQuiescentAt, PairFinished};

/// The five finished states of a pair: nobody, one request alone (of either), both open, and text
/// held after its sender's CLS. A pair whose stored text lacks allocation is finished too.
pub fn pairs_that_are_finished()
    ensures nobody { PairFinished outward None None [] [] }
    ensures sender_asked { PairFinished outward (Some asked_send) (Some size_heard) [] [] }
    ensures receiver_asked { PairFinished outward (Some link_heard) (Some asked_receive) [] [] }
    ensures open { (given : List Bool) → PairFinished outward (Some (counting 1 8)) (Some (counting 1 8)) given given }
    ensures waiting { PairFinished outward (Some (storing (ones 8))) (Some opened_end) (ones 8) [] }
    ensures held { PairFinished outward (Some (gone opened_end)) (Some (shut (due (storing (ones 8))))) (ones 8) (ones 8) }
{}

/// Pairs that are not finished: an end without a peer's, two requests that have not arrived, text
/// that may be sent, a connection that one side has closed and the other has not heard of, and text
/// given that is neither got, in flight nor stored.
pub fn pairs_that_are_not()
    ensures half { (given got : List Bool) → PairFinished outward (Some opened_end) None given got → ⊥ }
    ensures crossed { (given got : List Bool) → PairFinished outward (Some asked_send) (Some asked_receive) given got → ⊥ }
    ensures sendable { (given got : List Bool) → PairFinished outward (Some (record (counting 1 8) { stored = ones 8 })) (Some (counting 1 8)) given got → ⊥ }
    ensures unheard { (given got : List Bool) → PairFinished outward (Some (gone opened_end)) (Some opened_end) given got → ⊥ }
    ensures lost { PairFinished outward (Some opened_end) (Some opened_end) (ones 8) [] → ⊥ }
{}

/// Ends that are not quiescent: one with an unacknowledged text, a leaving sender, and a leaving
/// receiver that holds nothing.
pub fn ends_that_do_not_rest()
    ensures busy { EndQuiescentAt outward (Some (sent_one opened_end)) → ⊥ }
    ensures sender { EndQuiescentAt outward (Some (due opened_end)) → ⊥ }
    ensures receiver { EndQuiescentAt inward (Some (shut (due opened_end))) → ⊥ }
{}

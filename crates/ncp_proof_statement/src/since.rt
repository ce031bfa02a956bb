//! The bits taken, allowed and given since the last ask, compared with those since the last
//! opening: for one endpoint, and for each run of one host.
ghost use Rattle.std.specs.Prelude.{◌≡◌, ◌≤◌, false, true, length};
ghost use Rattle.ncp_model.specs.Pairs.{sends, receives};
ghost use Rattle.ncp_proof_runs.specs.Histories.{past_so_far};
ghost use Rattle.ncp_proof_statement.specs.Since.{takings_then, TakenSince, givings_then, GivenSince, taken_body, allowed_body, StaysWhateverHappens, OfAnyRun, AtOpenedReceivers, IsGivenOrNone};

/// `TakenSince` is an invariant of each pair that does not send: any event at a sound endpoint
/// preserves it. For a receiver that has opened, it says that the bits taken and allowed since the
/// last ask are those taken and granted since it opened; for one that was asked for and has not
/// opened, that there are none.
pub fn what_is_taken_since_the_ask_is_taken_since_the_opening()
    ensures { StaysWhateverHappens (λ pair. sends pair ≡ false) TakenSince takings_then }
{}

/// `GivenSince` is an invariant of each pair that does not receive: any event at a sound endpoint
/// preserves it. For a sender, it says that the bits given since the last ask that a give followed
/// are those given since it opened, or that none were given since it opened.
pub fn what_is_given_since_the_ask_is_given_since_the_opening()
    ensures { StaysWhateverHappens (λ pair. receives pair ≡ false) GivenSince givings_then }
{}

/// After any run, at a receiver that has opened, the bits that `take` returned (`taken`) and the
/// number of bits allocated (`allowed`) since the last accepted ask, by the notes, are those taken
/// and granted since the connection opened. For any pair the bits taken since the ask are at most
/// those allocated (`within`).
pub fn what_is_taken_since_the_ask_of_each_run()
    ensures taken { AtOpenedReceivers (λ pair told. taken_body pair told ≡ (past_so_far pair told).taken) }
    ensures allowed { AtOpenedReceivers (λ pair told. allowed_body pair told ≡ (past_so_far pair told).granted.bits) }
    ensures within { OfAnyRun (λ pair told. length (taken_body pair told) ≤ allowed_body pair told) }
{}

/// After any run, the bits that the history of a sending pair has as given are, by the notes, the
/// texts given since the last ask that a give followed, or nothing if none was given since the pair
/// opened.
pub fn what_is_given_since_the_ask_of_each_run()
    ensures { OfAnyRun (λ pair told. sends pair ≡ true → IsGivenOrNone pair told) }
{}

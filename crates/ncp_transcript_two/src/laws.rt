//! Theorems about two hosts and a subnet of bits. Each is the contract of a lemma.
ghost use Rattle.std.specs.Prelude.{◌≡◌, ◌<◌, ◌^◌, ℕ, Bool, List, true, false, Ok};
ghost use Rattle.ncp_transcript_two.specs.Throughout.{AfterEachRun, InNotesOfEachRun, ComesAsSent, GoesAgainAsSent};
ghost use Rattle.ncp_transcript_two.specs.Streams.{GotIsPrefix, GotIsTakenOrHeld, NeverBeyondAllocation};
ghost use Rattle.ncp_transcript_two.specs.Underway.{AmountsAgree, Parted};
ghost use Rattle.ncp_transcript_two.specs.World.{World};
ghost use Rattle.ncp_transcript_two.specs.Honest.{IsHonest, came};
ghost use Rattle.ncp_leader.specs.declared.leader.Leader.{Leader};
ghost use Rattle.ncp_leader.specs.Leader.{leader_in};
ghost use Rattle.ncp_host.specs.declared.ignored.Ignored.{Ignored};
ghost use Rattle.ncp_peer.specs.PeerState.{PeerState};
ghost use Rattle.ncp_peer.specs.Hearing.{is_kind};
ghost use Rattle.ncp_host.specs.Arrivals as arrivals;
ghost use Rattle.ncp_host.specs.Turns.{next_output};
ghost use Rattle.ncp_peer.specs.Output.{next_of, message_on};
ghost use Rattle.ncp_transcript_two.specs.OnePeer.{one_peer};
ghost use Rattle.ncp_transcript_two.specs.World as worlds;
ghost use Rattle.ncp_transcript_two.specs.World.{Is_delivered, Is_lost, Finds_dead, Is_answered, moves};
ghost use Rattle.ncp_subnet.specs.Transit as transit;
ghost use Rattle.ncp_transcript_two.specs.Refused.{any_refused};
ghost use Rattle.ncp_transcript_two.specs.Tie.{IsOfModel};
ghost use Rattle.ncp_transcript_two.specs.OfTranscripts.{NoResetEitherWay, IsNewBetween, AfterRunsOfTwo, OfOnePeer};
ghost use Rattle.ncp_subnet.specs.Transit.{transit_answered};

/// Each run from a new world refines a run of the model: the hosts are equal except for the
/// histories, and each slot and the subnet hold the encoding of the message that the model has
/// there.
pub fn runs_are_of_the_model()
    ensures { AfterRunsOfTwo IsOfModel }
{}

/// For each pair, in each direction, while the receiver is live:
///
/// - the text it got is a prefix of the text given since the sender last opened;
/// - until the receiver leaves, all it got was taken or is held;
/// - its outstanding allocation is what was granted, less what was returned and used
///   (`NeverBeyondAllocation`).
pub fn streams_are_kept()
    ensures beginning { AfterEachRun GotIsPrefix }
    ensures held { AfterEachRun GotIsTakenOrHeld }
    ensures allocation { AfterEachRun NeverBeyondAllocation }
{}

/// For each pair, in each direction, while both ends are open: the receiver's outstanding
/// allocation is the sum of the sender's counters and the amounts of ALL, text and RET underway
/// (queued or in flight) on the link; and all text given was got, is underway, or is stored at the
/// sender. The slots and the subnet define what is underway.
pub fn the_ledger_is_kept()
    ensures amounts { AfterEachRun (λ pair v p. AmountsAgree pair v) }
    ensures parted { AfterEachRun Parted }
{}

/// While both hosts are up, no RST or RRP is underway (queued or in flight) in either direction.
pub fn no_reset_is_underway_between_two_that_are_up()
    ensures { AfterRunsOfTwo NoResetEitherWay }
{}

/// No arrival is refused: the host reports no text as not connected, of the wrong size or beyond
/// the allocation, no bits as a faulty message, and no answer as stray.
pub fn nothing_is_refused()
    ensures { InNotesOfEachRun (λ v notes. any_refused notes ≡ false) }
{}

/// The subnet is honest. On each link, the messages delivered are a prefix of the messages sent,
/// shorter by at most one; and a message that is sent again equals the previous one.
pub fn subnets_are_honest()
    ensures honest { InNotesOfEachRun (λ v notes. IsHonest v.here v.there notes) }
    ensures came { InNotesOfEachRun (λ v notes. ComesAsSent v.here v.there notes) }
    ensures again { InNotesOfEachRun (λ v notes. GoesAgainAsSent notes) }
{}

/// A host with one peer behaves as its state for that peer: on each message from that peer that has
/// a whole leader and a type the host knows, and in its next output.
pub fn one_peer_is_its_state()
    ensures after { (me number : ℕ) (ignored : Ignored) (s : PeerState) (bits : List Bool) (l : Leader) → leader_in bits ≡ Ok l → is_kind l.kind ≡ true → l.host ≡ number → arrivals.after_received bits (one_peer me number ignored s) ≡ one_peer me number ignored (worlds.state_after_received bits s) }
    ensures out { OfOnePeer (λ number h s. next_output h ≡ message_on (next_of number s)) }
{}

/// A new world exists for any two host numbers of 8 bits, so the theorems about all runs are not
/// vacuous.
pub fn worlds_can_begin()
    ensures { (here there : ℕ) → here < 2 ^ 8 → there < 2 ^ 8 → (v : World) × IsNewBetween here there v }
{}

/// The events of a world change the transit state of a link as the subnet's functions do: delivery,
/// loss, dead destination, answer.
pub fn subnets_move_alike()
    ensures delivered { (on : ℕ) (v : World) → (moves (Is_delivered on) v).0.going on ≡ transit.delivered (v.going on) }
    ensures lost { (on : ℕ) (v : World) → (moves (Is_lost on) v).0.going on ≡ transit.lost (v.going on) }
    ensures dead { (on : ℕ) (v : World) → (moves (Finds_dead on) v).0.going on ≡ transit.dead (v.going on) }
    ensures answered { (on : ℕ) (v : World) → (moves (Is_answered on) v).0.going on ≡ transit_answered (v.going on) }
{}

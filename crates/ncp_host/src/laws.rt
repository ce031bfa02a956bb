//! Theorems about which messages are ready, which is sent next and what received bits change. Each
//! is the contract of a function with an empty body.
ghost use Rattle.std.specs.Prelude.{◌≡◌, ◌<◌, ◌^◌, ℕ, Bool, true, false, List, [], Some};
ghost use Rattle.ncp_slot.specs.declared.slot.Slot.{Slot};
ghost use Rattle.ncp_model.specs.Peers.{Peer};
ghost use Rattle.ncp_host.specs.Host.{Host};
ghost use Rattle.ncp_host.specs.Arrivals.{OthersStay};
ghost use Rattle.ncp_host.specs.Restarting.{after_restart};
ghost use Rattle.ncp_host.specs.Saved.{saved, AreAlikeHosts};
ghost use Rattle.ncp_peer.specs.Readiness.{is_ready_by, IsNext};
ghost use Rattle.ncp_host.specs.Statements.{WaitingIsReady, ReadyFirstGoesOut, ReadyAfterGoesOut, AgainMayGoOut, AgainAloneGoesOut, AgainAfterGoesOut, NoLowerIsReady, OtherPeersStay, CountsOrPeersStay, ShortLeavesPeers, RestartGivesUp, ListedIsReturned, ReturnedIsListed, IsListedOnce, NoneIsListedAfter, GivenFits, NotGivenIsOver, AllowedFits, NotAllowedIsOver, SavedDistinguishes};

/// A message to be sent again is ready. A message in flight or held is not, even if commands are
/// queued. With an empty slot, link 0 is ready if a command is queued, and not ready if none is.
pub fn what_is_out_or_held_is_not_ready()
    ensures again { (message : List Bool) (on : ℕ) (p : Peer) → is_ready_by (Slot.Ready message) on p ≡ true }
    ensures out { (message : List Bool) (on : ℕ) (p : Peer) → is_ready_by (Slot.Travelling message) on p ≡ false }
    ensures held { (message : List Bool) (on : ℕ) (p : Peer) → is_ready_by (Slot.Held message) on p ≡ false }
    ensures waits { WaitingIsReady }
    ensures none { (p : Peer) → p.phase.waiting ≡ [] → is_ready_by Slot.Empty 0 p ≡ false }
{}

/// If a link to the first or the second peer is ready, a message is sent next. Without peers none
/// is.
pub fn nothing_goes_out_only_where_nothing_is_ready()
    ensures first { ReadyFirstGoesOut }
    ensures following { ReadyAfterGoesOut }
    ensures none { (message : List Bool) → IsNext (Some message) [] → ⊥ }
{}

/// A message to be sent again on link 0 to the first peer is the next one, regardless of higher
/// links and later peers. If no link to the first peer is ready, and there is such a message to the
/// second, no other message can be the next one. No link below the first ready one is ready.
pub fn the_first_that_is_ready_goes_out()
    ensures may { AgainMayGoOut }
    ensures alone { AgainAloneGoesOut }
    ensures following { AgainAfterGoesOut }
    ensures lower { NoLowerIsReady }
{}

/// Bits whose leader names a peer change no other peer's state. Bits that change a count of
/// messages that belong to no peer, or that have no leader, change no peer's state.
pub fn bits_change_no_other_peer()
    ensures other { OtherPeersStay }
    ensures either { CountsOrPeersStay }
    ensures short { ShortLeavesPeers }
{}

/// A restart makes each unanswered message to the peer ready to be sent again. It changes nothing
/// else: no connection, no queued command, no count, and nothing of another peer.
pub fn a_restart_changes_slots_alone()
    ensures peer { RestartGivesUp }
    ensures others { (number : ℕ) (h : Host) → number < 2 ^ 8 → OthersStay number h (after_restart number h) }
{}

/// Over all indices each connection with a peer appears exactly once, with its record, and no index
/// past the end has one.
pub fn each_connection_has_one_place()
    ensures there { ListedIsReturned }
    ensures each { ReturnedIsListed }
    ensures once { IsListedOnce }
    ensures following { NoneIsListedAfter }
{}

/// Text that an endpoint accepts fits its room after the stored text; text refused with `NoRoom`
/// does not. An allowance that it accepts fits the room with the held and the outstanding bits, and
/// `MAX_MESSAGES` with the outstanding messages; one refused with `TooMuch` exceeds one of the two.
pub fn what_has_room()
    ensures given { GivenFits }
    ensures not_given { NotGivenIsOver }
    ensures allowed { AllowedFits }
    ensures not_allowed { NotAllowedIsOver }
{}

/// Two hosts with the same saved bytes have the same numbers and counts, the same state of each
/// peer, and the same slot on each link that has one. If their slots belong to exactly these links,
/// as in every host (`Host::has_its_links`), the hosts are the same.
pub fn saved_distinguishes()
    ensures alike { (one other : Host) → saved one ≡ saved other → AreAlikeHosts one other }
    ensures same { SavedDistinguishes }
{}

//! Theorems about many connections over the same two lists of commands.
ghost use Rattle.std.specs.Prelude.{◌≡◌, List, true, false};
ghost use Rattle.ncp_model.specs.Pairs.{sends};
ghost use Rattle.ncp_proof_connection.specs.Ledger.{BothOpenOnConnection, AmountsAgreeOnConnection, PartedOnConnection, Held, BeginsOnConnection, TakenBeginsOnConnection};
ghost use Rattle.ncp_proof_connection.specs.Clearings.{OutStaysOpened};
ghost use Rattle.ncp_proof_connection.specs.Finding.{SocketsFindSender, SocketsFindReceiver, GrantFinds, ReturnFinds, RequestFits, SenderHoldsLink, ReceiverHoldsLink, NoSenderOpens, NoReceiverOpens};
ghost use Rattle.ncp_proof_connection.specs.Sharing.{Shared_event, AllMayHappen, new_shared, shared, connection_at, hosted_at, hears_at, uses_at};
ghost use Rattle.ncp_proof_connection.specs.SharedRuns.{second, two_open};
ghost use Rattle.ncp_model.specs.Rows.{outward};
ghost use Rattle.ncp_proof_connection.specs.OfSharing.{AfterSharing, OfSharedPairs, OfEachConnection, InEachSharedStep};

/// The theorems about one connection hold for each of any number of connections from one host to
/// another, whose commands share the two lists underway (queued or in flight) with those of the
/// connections in the other direction.
pub fn each_loses_and_makes_nothing()
    ensures safe { OfSharedPairs (λ pair w. w.violated pair ≡ false) }
    ensures amounts { OfEachConnection (λ w. BothOpenOnConnection w → AmountsAgreeOnConnection w) }
    ensures parted { OfEachConnection (λ w. BothOpenOnConnection w → PartedOnConnection w) }
    ensures held { OfEachConnection Held }
    ensures beginning { OfEachConnection BeginsOnConnection }
    ensures taken { OfEachConnection TakenBeginsOnConnection }
    ensures opened { OfSharedPairs (λ pair w. OutStaysOpened (hosted_at pair w)) }
{}

/// A command that names sockets demultiplexes to the pair for which it was made.
pub fn sockets_lead_home()
    ensures sender { (events : List Shared_event) → SocketsFindSender (shared events) }
    ensures receiver { (events : List Shared_event) → SocketsFindReceiver (shared events) }
{}

/// Assumes that receivers ask only with links that no receiving end uses. At a host that was not
/// cleared:
///
/// - a command that names a link demultiplexes to the end for which it was made, and to no other;
/// - no RTS arrives with a link that a sending end has heard;
/// - from sending a text on a link to its RFNM, the ends of its connection use that link, and no
///   others do. So the text demultiplexes to the end for which it was given, and no other
///   connection opens on its link.
pub fn links_lead_home()
    ensures grant { AfterSharing (λ w. w.sends ≡ true → GrantFinds w) }
    ensures give_back { AfterSharing (λ w. w.receives ≡ true → ReturnFinds w) }
    ensures request { AfterSharing (λ w. w.sends ≡ true → RequestFits w) }
    ensures sender { AfterSharing (λ w. w.sends ≡ true → SenderHoldsLink w) }
    ensures receiver { AfterSharing (λ w. w.receives ≡ true → ReceiverHoldsLink w) }
{}

/// From sending a text to its RFNM, no step opens a connection on its link, at either host that is
/// uncleared before and after the step.
pub fn none_opens_on_a_busy_link()
    ensures sender { InEachSharedStep NoSenderOpens }
    ensures receiver { InEachSharedStep NoReceiverOpens }
{}

/// Worked example: two connections share the lists, each with its own link.
pub fn two_connections_share_the_lists()
    ensures may { AllMayHappen two_open new_shared }
    ensures open { BothOpenOnConnection (connection_at outward (shared two_open)) }
    ensures open_too { BothOpenOnConnection (connection_at second (shared two_open)) }
    ensures links { hears_at (shared two_open) 2 outward ≡ true }
    ensures links_used { uses_at (shared two_open) 2 outward ≡ true }
    ensures links_too { hears_at (shared two_open) 3 second ≡ true }
    ensures links_used_too { uses_at (shared two_open) 3 second ≡ true }
{}

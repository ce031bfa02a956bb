//! Theorems about one connection: between two hosts that stay up, and between hosts that may be
//! cleared at any moment.
ghost use Rattle.std.specs.Prelude.{◌≡◌, true, false};
ghost use Rattle.ncp_model.specs.EndpointEvents.{happens};
ghost use Rattle.ncp_proof_connection.specs.Connections.{is_in_order, ComesInOrder};
ghost use Rattle.ncp_proof_connection.specs.Ledger.{BothOpenOnConnection, AmountsAgreeOnConnection, PartedOnConnection, Held, BeginsOnConnection, TakenBeginsOnConnection, OutIsOpened};
ghost use Rattle.ncp_proof_connection.specs.Clearings.{OutStaysOpened};
ghost use Rattle.ncp_proof_connection.specs.OfConnections.{AfterEvents, AfterChanges, OfNextToSender, OfNextToReceiver, OfTextUnderway};

/// After every list of events:
///
/// - No end made an ERR for a command of its peer, or answered a text as not connected, of the
///   wrong size or beyond the allocation.
/// - While both ends are open the ledger agrees, in messages and bits, and all text given was got,
///   is in flight, or is stored at the sender.
/// - While the receiver is live, the text it got was taken or is held, unless it has left, and is a
///   prefix of the text given.
/// - While a text is unacknowledged both ends have opened.
pub fn nothing_is_lost_or_made()
    ensures safe { AfterEvents (λ w. w.violated ≡ false) }
    ensures amounts { AfterEvents (λ w. BothOpenOnConnection w → AmountsAgreeOnConnection w) }
    ensures parted { AfterEvents (λ w. BothOpenOnConnection w → PartedOnConnection w) }
    ensures held { AfterEvents Held }
    ensures beginning { AfterEvents BeginsOnConnection }
    ensures opened { AfterEvents OutIsOpened }
{}

/// Each command that arrives while fewer than 64 ends exist by the peer's request alone, an
/// interrupt included, is accepted or late: no end makes an ERR for it. The same holds for the text
/// in flight.
pub fn what_comes_is_in_order()
    ensures to_sender { OfNextToSender ComesInOrder }
    ensures to_receiver { OfNextToReceiver ComesInOrder }
    ensures text { OfTextUnderway (λ pair what before. is_in_order (happens pair what before).outcome ≡ true) }
{}

/// The same claims if either host may be cleared at any moment, and a connection starts again, from
/// empty, after both were cleared. No end at a host that was not cleared answers its peer with an
/// ERR or as a violation; the ledger agrees while both ends are open; the text a live receiver got
/// is a prefix of the text given, regardless of what became of the sender since. The text taken
/// since the receiver asked is a prefix too, at every moment: also when neither end exists, or one
/// of them asked again.
pub fn clearings_lose_and_make_nothing()
    ensures safe { AfterChanges (λ h. h.connection.violated ≡ false) }
    ensures amounts { AfterChanges (λ h. BothOpenOnConnection h.connection → AmountsAgreeOnConnection h.connection) }
    ensures parted { AfterChanges (λ h. BothOpenOnConnection h.connection → PartedOnConnection h.connection) }
    ensures held { AfterChanges (λ h. Held h.connection) }
    ensures beginning { AfterChanges (λ h. BeginsOnConnection h.connection) }
    ensures taken { AfterChanges (λ h. TakenBeginsOnConnection h.connection) }
    ensures opened { AfterChanges OutStaysOpened }
{}

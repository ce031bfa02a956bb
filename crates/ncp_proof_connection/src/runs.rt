//! Worked runs of a connection.
ghost use Rattle.std.specs.Prelude.{◌≡◌, true, ◌++◌, [], None};
ghost use Rattle.ncp_model.specs.Rows.{outward, ones, zero_bits};
ghost use Rattle.ncp_proof_connection.specs.Connections.{Away, occur};
ghost use Rattle.ncp_proof_connection.specs.Ledger.{BothOpenOnConnection, sending, receiving};
ghost use Rattle.ncp_proof_connection.specs.Clearings.{change};
ghost use Rattle.ncp_proof_connection.specs.Runs.{opening, text_sent, text_got, receiver_closes, sender_closes, called_back, receiver_cleared, opened_empty};

/// Both ends open, two bytes of three are sent, and got; the outstanding allocation equals the
/// counters.
pub fn a_text_is_got()
    ensures open { BothOpenOnConnection (occur outward text_got) }
    ensures out { (occur outward text_sent).text ≡ Away 2 8 (ones 16) }
    ensures got { (occur outward text_got).receiver.past.got ≡ ones 16 }
    ensures waiting { (sending (occur outward text_got)).stored ≡ zero_bits 8 }
    ensures outstanding { (receiving (occur outward text_got)).messages ≡ 1 }
    ensures outstanding_bits { (receiving (occur outward text_got)).bits ≡ 0 }
    ensures counters { (sending (occur outward text_got)).messages ≡ 1 }
    ensures counters_bits { (sending (occur outward text_got)).bits ≡ 0 }
{}

/// A part of the allocation is called back, and an interrupt arrives in each direction.
pub fn a_part_is_called_back()
    ensures open { BothOpenOnConnection (occur outward called_back) }
    ensures outstanding { (receiving (occur outward called_back)).messages ≡ 1 }
    ensures outstanding_bits { (receiving (occur outward called_back)).bits ≡ 0 }
    ensures counters { (sending (occur outward called_back)).messages ≡ 1 }
    ensures counters_bits { (sending (occur outward called_back)).bits ≡ 0 }
    ensures interrupts { (sending (occur outward called_back)).interrupts ≡ 1 }
    ensures interrupts_there { (receiving (occur outward called_back)).interrupts ≡ 1 }
{}

/// Either side closes while a text is unacknowledged; both ends end, and no command is underway.
/// The text is late if the receiver closed, and was taken if the sender did.
pub fn either_side_closes_with_a_text_out()
    ensures by_receiver { (occur outward receiver_closes).sender.end ≡ None }
    ensures by_receiver_there { (occur outward receiver_closes).receiver.end ≡ None }
    ensures by_receiver_to_sender { (occur outward receiver_closes).to_sender ≡ [] }
    ensures by_receiver_to_receiver { (occur outward receiver_closes).to_receiver ≡ [] }
    ensures late { (occur outward receiver_closes).receiver.past.got ≡ [] }
    ensures by_sender { (occur outward sender_closes).sender.end ≡ None }
    ensures by_sender_there { (occur outward sender_closes).receiver.end ≡ None }
    ensures by_sender_to_sender { (occur outward sender_closes).to_sender ≡ [] }
    ensures by_sender_to_receiver { (occur outward sender_closes).to_receiver ≡ [] }
    ensures taken { (occur outward sender_closes).receiver.past.taken ≡ ones 16 }
    ensures outlives { (occur outward sender_closes).sender.past.given ≡ ones 16 ++ zero_bits 8 }
{}

/// After that the same pair opens again on the same link, and its histories start again, from
/// empty.
pub fn a_pair_opens_again_on_its_link()
    ensures open { BothOpenOnConnection (occur outward (receiver_closes ++ opening)) }
    ensures link { (sending (occur outward (receiver_closes ++ opening))).link ≡ 2 }
    ensures link_there { (receiving (occur outward (receiver_closes ++ opening))).link ≡ 2 }
    ensures from_empty { (occur outward (sender_closes ++ text_got)).receiver.past.got ≡ ones 16 }
    ensures anew_given { (occur outward (sender_closes ++ opening)).sender.past.given ≡ [] }
{}

/// The receiver's host is cleared while a text is unacknowledged: the sender's end is still busy.
/// After both hosts were cleared, a connection opens again.
pub fn a_host_is_cleared_with_a_text_out()
    ensures cleared { (change outward receiver_cleared).connection.receiver.end ≡ None }
    ensures cleared_text_stays { (change outward receiver_cleared).connection.text ≡ Away 2 8 (ones 16) }
    ensures cleared_sender_is_busy { (sending (change outward receiver_cleared).connection).busy ≡ true }
    ensures from_empty { BothOpenOnConnection (change outward opened_empty).connection }
{}

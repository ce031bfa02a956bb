//! Laws about following connections. Each contract is a theorem.
ghost use Rattle.std.specs.Prelude.{◌≡◌, ◌∷◌, [], true, false, None, Some, replicate};
ghost use Rattle.ncp_follow.specs.declared.connection.EndReason.TheVariants as ended;
ghost use Rattle.ncp_follow.specs.ConnectionRows.{amount_of, unsaid, forgotten};
ghost use Rattle.ncp_follow.specs.Connections.{index_numbered, numbered, connection_text};
ghost use Rattle.ncp_follow.specs.Sessions.{new_session, is_heard, session_after_reset};
ghost use Rattle.ncp_follow.specs.Examples.{in_touch, says, spoken, overdrawn, left, crossed};

/// A host's commands and texts count after a reset was answered; not before, nor while one side
/// awaits an RRP.
pub fn hosts_are_heard_so()
    ensures before { is_heard (new_session false 1 2) true ≡ false }
    ensures waiting { is_heard (session_after_reset in_touch true) true ≡ false }
    ensures reset { is_heard (session_after_reset in_touch false) true ≡ false }
    ensures answered { is_heard in_touch true ≡ true }
    ensures part { is_heard (new_session true 1 2) false ≡ true }
{}

/// A text with another byte size, and one beyond the allocation, are late. Both use the allocation
/// up.
pub fn texts_are_late_so()
    ensures { overdrawn.told ≡ record (unsaid 1 3 2 6) { late = 2; granted = amount_of 7 1016; returned = amount_of 2 8 } ∷ [] }
{}

/// After its CLS the sender's text is unchanged. What a receiver allocates, and what is returned to
/// it, is counted as the commands state it.
pub fn closed_ones_stay()
    ensures { left.told ≡
        record (unsaid 1 3 2 6) { end = ended.CloseSent; said = amount_of 1 8; granted = amount_of 2 16; text = replicate 8 true }
        ∷ record (unsaid 2 4 5 15) { granted = amount_of 65536 16; returned = amount_of 65535 17 } ∷ [] }
{}

/// Connections are numbered from 1. After a connection's text is emptied, it holds only the later
/// texts.
pub fn texts_are_forgotten_so()
    ensures none { numbered left.told (index_numbered 0) ≡ None }
    ensures first { connection_text (numbered left.told (index_numbered 1)) ≡ replicate 8 true }
    ensures second { connection_text (numbered left.told (index_numbered 2)) ≡ [] }
    ensures beyond { numbered left.told (index_numbered 3) ≡ None }
    ensures whole { connection_text (numbered (says 9 2 8 8 spoken).told (index_numbered 1)) ≡ replicate 16 true }
    ensures alone { connection_text (numbered (says 9 2 8 8 forgotten).told (index_numbered 1)) ≡ replicate 8 true }
{}

/// A text that arrives after the host's CLS is late. The peer's CLS ends the connection.
pub fn crossed_texts_are_late()
    ensures tracks { crossed.tracks ≡ [] }
    ensures output { crossed.told ≡
        record (unsaid 1 2 3 11) { ended = Some 22; end = ended.Closed; late = 1; granted = amount_of 2 16 } ∷ [] }
{}

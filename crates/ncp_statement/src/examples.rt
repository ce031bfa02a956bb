//! Short lists of notes that the page admits, and others that it refuses. A wrong page makes such a
//! law false.
ghost use Rattle.std.specs.Prelude.{◌≡◌, ℕ, Bool, true, false, List, [], ◌∷◌, ◌++◌};
ghost use Rattle.ncp_wire.specs.declared.answer.Answer.TheVariants.{Rfnm, Incomplete};
ghost use Rattle.ncp_wire.specs.declared.command.Command.{Command as Order};
ghost use Rattle.ncp_wire.specs.declared.command.Command.TheVariants as commands;
ghost use Rattle.ncp_model.specs.declared.outcomes.Took.TheVariants as took;
ghost use Rattle.ncp_peer.specs.declared.received.Received.{Received};
ghost use Rattle.ncp_subnet.specs.Messages.{link_in, from_host};
ghost use Rattle.ncp_subnet.specs.declared.transit.Transit.TheVariants.{Free};
ghost use Rattle.ncp_transcript_two.specs.declared.side.Side.TheVariants.{A, B};
ghost use Rattle.ncp_transcript_two.specs.declared.note.Move.TheVariants as moves;
ghost use Rattle.ncp_transcript_two.specs.Underway.{commands_of};
ghost use Rattle.ncp_statement.specs.Statement.{given, taken, allowed, TakenIsPrefix, WithinAllowance, Delivers, InOrder, link_state, AcceptsEveryOutput, Each, HasNoProtocolError, ReadsAll};
ghost use Rattle.ncp_statement.specs.Examples.{out_pair, in_pair, asks_send, asks_receive, noted_allocate, noted_give, refused, noted_take, noted_out, noted_in, is_lost, noted_answer, had_none, text_came, came_read, came_unread};

/// User events count at the side that called, on the pair of the call, since the last ask. A
/// refused give does not count. Bits given before an ask count until the next give.
pub fn uses_are_counted()
    ensures given { (x y : List Bool) → given A out_pair (asks_send ∷ noted_give x ∷ noted_give y ∷ []) ≡ x ++ y }
    ensures refused { (x y : List Bool) → given A out_pair (asks_send ∷ noted_give x ∷ refused y ∷ []) ≡ x }
    ensures still { (x : List Bool) → given A out_pair (asks_send ∷ noted_give x ∷ asks_send ∷ []) ≡ x }
    ensures from_empty { (x y : List Bool) → given A out_pair (asks_send ∷ noted_give x ∷ asks_send ∷ noted_give y ∷ []) ≡ y }
    ensures elsewhere { (x : List Bool) → given B out_pair (asks_send ∷ noted_give x ∷ []) ≡ [] }
    ensures another { (x : List Bool) → given A in_pair (asks_send ∷ noted_give x ∷ []) ≡ [] }
    ensures taken { (x y : List Bool) → taken B in_pair (asks_receive ∷ noted_take x ∷ noted_take y ∷ []) ≡ x ++ y }
    ensures gone { (x : List Bool) → taken B in_pair (asks_receive ∷ noted_take x ∷ asks_receive ∷ []) ≡ [] }
    ensures allowed { (m n : ℕ) → allowed B in_pair (asks_receive ∷ noted_allocate 8 ∷ asks_receive ∷ noted_allocate 16 ∷ noted_allocate 8 ∷ []) ≡ 24 }
{}

/// `TakenIsPrefix` admits bits taken as they were given, in one text or in two. It refuses bits
/// taken before they were given, in another order, or twice; `WithinAllowance` refuses bits beyond
/// the allocation.
pub fn wrong_takes_are_seen()
    ensures good { TakenIsPrefix (asks_send ∷ asks_receive ∷ noted_give (true ∷ []) ∷ noted_give (false ∷ []) ∷ noted_take (true ∷ []) ∷ noted_take (false ∷ []) ∷ []) }
    ensures first { TakenIsPrefix (asks_send ∷ asks_receive ∷ noted_take (true ∷ []) ∷ noted_give (true ∷ []) ∷ []) → ⊥ }
    ensures order { TakenIsPrefix (asks_send ∷ asks_receive ∷ noted_give (true ∷ []) ∷ noted_give (false ∷ []) ∷ noted_take (false ∷ []) ∷ []) → ⊥ }
    ensures twice { TakenIsPrefix (asks_send ∷ asks_receive ∷ noted_give (true ∷ []) ∷ noted_take (true ∷ []) ∷ noted_take (true ∷ []) ∷ []) → ⊥ }
    ensures beyond { WithinAllowance (asks_receive ∷ noted_allocate 1 ∷ noted_take (true ∷ true ∷ []) ∷ []) → ⊥ }
{}

/// `Delivers` admits a message that was sent, arrived once with its source in the leader, and was
/// answered by RFNM. It refuses a message that arrived twice or changed, an RFNM without arrival,
/// and an Incomplete Transmission after arrival. `InOrder` admits one message in flight. It refuses
/// a message that arrived and was never sent, and a second message that is sent after the RFNM of
/// the first when neither arrived.
pub fn wrong_subnets_are_seen()
    ensures good { (m : List Bool) (r s : Received) → Delivers 1 2 (noted_out m ∷ noted_in m (from_host 1 m) r ∷ noted_answer m Rfnm s ∷ []) }
    ensures twice { (m : List Bool) (r s : Received) → Delivers 1 2 (noted_out m ∷ noted_in m (from_host 1 m) r ∷ noted_in m (from_host 1 m) s ∷ []) → ⊥ }
    ensures changed { (m n : List Bool) (r : Received) → (n ≡ from_host 1 m → ⊥) → Delivers 1 2 (noted_out m ∷ noted_in m n r ∷ []) → ⊥ }
    ensures unsaid { (m : List Bool) (r : Received) → Delivers 1 2 (noted_out m ∷ noted_answer m Rfnm r ∷ []) → ⊥ }
    ensures denied { (m : List Bool) (r s : Received) → Delivers 1 2 (noted_out m ∷ noted_in m (from_host 1 m) r ∷ noted_answer m Incomplete s ∷ []) → ⊥ }
    ensures made_up { (m n : List Bool) (r : Received) → InOrder 1 2 (noted_in m n r ∷ []) → ⊥ }
    ensures following { (m : List Bool) → InOrder 1 2 (noted_out m ∷ []) }
    ensures two_after { (m : List Bool) (r : Received) → InOrder 1 2 (noted_out m ∷ noted_answer m Rfnm r ∷ noted_out m ∷ []) → ⊥ }
{}

/// `AcceptsEveryOutput` refuses a subnet that has nothing to deliver or to lose right after a
/// message was sent, or nothing to answer after one arrived or was lost. It admits a subnet that
/// cannot answer yet. After the answer the link is `Free`.
pub fn subnets_that_take_nothing_are_seen()
    ensures nothing { (m : List Bool) → AcceptsEveryOutput (noted_out m ∷ had_none m moves.Deliver ∷ []) → ⊥ }
    ensures none_lost { (m : List Bool) → AcceptsEveryOutput (noted_out m ∷ had_none m moves.Lose ∷ []) → ⊥ }
    ensures unanswered { (m n : List Bool) (r : Received) → AcceptsEveryOutput (noted_out m ∷ noted_in m n r ∷ had_none m moves.Answer ∷ []) → ⊥ }
    ensures untold { (m : List Bool) → AcceptsEveryOutput (noted_out m ∷ is_lost m ∷ had_none m moves.Answer ∷ []) → ⊥ }
    ensures not_yet { (m : List Bool) → AcceptsEveryOutput (noted_out m ∷ had_none m moves.Answer ∷ []) }
    ensures done { (m n : List Bool) (r s : Received) → link_state A (link_in m) (noted_out m ∷ noted_in m n r ∷ noted_answer m Rfnm s ∷ []) ≡ Free }
{}

/// `ReadsAll` admits a control message that was read to its last command, and refuses one that was
/// not read. `HasNoProtocolError` refuses a text over its allocation, in bytes of the wrong size,
/// or for a connection that is not open, and a sent control message that begins with an ERR. It
/// admits a text that arrives late.
pub fn complaints_are_seen()
    ensures read { (m : List Bool) → Each ReadsAll (came_read m ∷ text_came m took.Late ∷ []) }
    ensures unread { (m : List Bool) → Each ReadsAll (came_unread m ∷ []) → ⊥ }
    ensures over { (m : List Bool) → Each HasNoProtocolError (text_came m took.Over ∷ []) → ⊥ }
    ensures size { (m : List Bool) → Each HasNoProtocolError (text_came m took.WrongSize ∷ []) → ⊥ }
    ensures not_open { (m : List Bool) → Each HasNoProtocolError (text_came m took.NotOpen ∷ []) → ⊥ }
    ensures err { (m : List Bool) (code : ℕ) (bytes : List ℕ) (cs : List Order) → link_in m ≡ 0 → commands_of m ≡ commands.Err code bytes ∷ cs → Each HasNoProtocolError (noted_out m ∷ []) → ⊥ }
    ensures late { (m : List Bool) → Each HasNoProtocolError (text_came m took.Late ∷ []) }
{}

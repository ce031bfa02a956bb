//! Theorems about the definitions of the allocation accounts, and of the order of events that need
//! no call: small cases that a wrong definition makes false.
ghost use Rattle.std.specs.Prelude.{◌≡◌, ◌≢◌, ◌≤◌, ◌==◌, ◌||◌, ℕ, Bool, true, false, List, [], ◌∷◌, None, Some, if◌then◌else◌};
ghost use Rattle.ncp_subnet.specs.declared.transit.Transit.TheVariants.{Free, Accepted, Delivered, Lost, Dead};
ghost use Rattle.ncp_subnet.specs.Subnet.{transit_at};
ghost use Rattle.ncp_model.specs.declared.pair.Pair.{Pair};
ghost use Rattle.ncp_model.specs.Pairs.{counterpart};
ghost use Rattle.ncp_proof_runs.specs.Marks.{no_marks, marks_of};
ghost use Rattle.ncp_proof_runs.specs.Peers.{notes_of_peer};
ghost use Rattle.ncp_transcript.specs.declared.call.Call.TheVariants as calls;
ghost use Rattle.ncp_transcript_two.specs.declared.event.Event.TheVariants as events;
ghost use Rattle.ncp_transcript_two.specs.declared.ledger.Ledger.{Ledger};
ghost use Rattle.ncp_transcript_two.specs.declared.note.Note.{Note};
ghost use Rattle.ncp_transcript_two.specs.declared.side.Side.TheVariants.{A, B};
ghost use Rattle.ncp_transcript_two.specs.Between.{Hosts, transit_of};
ghost use Rattle.ncp_transcript_two.specs.Transcript.{Noted_world};
ghost use Rattle.ncp_transcript_many.specs.declared.many_event.ManyEvent.TheVariants as many_events;
ghost use Rattle.ncp_transcript_many.specs.Network.{Network, numbers_in};
ghost use Rattle.ncp_transcript_many.specs.ManyTranscript.{Noted_many};
ghost use Rattle.ncp_model.specs.Amounts.{amount};
ghost use Rattle.ncp_transcript_two.specs.Sides.{notes_at};
ghost use Rattle.ncp_world.specs.Booked.{Remains, IsBooked};
ghost use Rattle.ncp_world.specs.Lowest.{lowest_kept};
ghost use Rattle.ncp_world.specs.Next.{next_by_itself, Settles};
ghost use Rattle.ncp_world.specs.TwoKind.{two_kind};
ghost use Rattle.ncp_world.specs.ManyKind.{many_kind};

/// With 3 messages and 60 bits granted, 1 and 20 returned, and 1 and 24 used, 1 and 16 remain; any
/// other number of messages or of bits is refused. For a pair that sends from side A, the
/// outstanding amount is at most what is granted by the notes of side B's host, and the counters
/// are at most what is granted by the notes of A's.
pub fn books_that_are_off_are_seen()
    ensures good { Remains (amount 1 16) (record no_marks { granted = amount 3 60; returned = amount 1 20; used = amount 1 24 }) }
    ensures messages { (n : ℕ) → n ≢ 1 → Remains (amount n 16) (record no_marks { granted = amount 3 60; returned = amount 1 20; used = amount 1 24 }) → ⊥ }
    ensures bits { (n : ℕ) → n ≢ 16 → Remains (amount 1 n) (record no_marks { granted = amount 3 60; returned = amount 1 20; used = amount 1 24 }) → ⊥ }
    ensures outstanding { (pair : Pair) (notes : List Note) (w : Hosts) (l : Ledger) → IsBooked A pair notes w l → let m = marks_of (counterpart pair) (notes_of_peer w.number_a (notes_at B notes)) in (l.outstanding.messages ≤ m.granted.messages) × (l.outstanding.bits ≤ m.granted.bits) }
    ensures counters { (pair : Pair) (notes : List Note) (w : Hosts) (l : Ledger) → IsBooked A pair notes w l → let m = marks_of pair (notes_of_peer w.number_b (notes_at A notes)) in (l.counters.messages ≤ m.granted.messages) × (l.counters.bits ≤ m.granted.bits) }
{}

/// `settle` is a function, if it returns `Ok`: from the same hosts, subnet and notes it leaves the
/// same.
pub fn settling_is_a_function()
    // theorem: `settle` is a function, if it returns `Ok`: from the same two hosts, subnet and
    // notes it leaves the same, since each event is the next in one order, until there is none.
    ensures two { (before x y : Noted_world) → Settles two_kind before x → Settles two_kind before y → x ≡ y }
    // theorem: The same of two to eight hosts: what `settle` leaves, if it returns `Ok`, is a
    // function of the hosts, the subnet and the notes before it.
    ensures many { (before x y : Noted_many) → Settles many_kind before x → Settles many_kind before y → x ≡ y }
{}

/// The order of events that need no call. Of two hosts, side A sends its next message. If it has
/// none, its message on the lowest link is delivered if it may still arrive, answered if it has
/// arrived or will not, and woken if the host holds it. Only then does side B send.
pub fn the_next_event_is_so()
    ensures sends { (w : Hosts) → two_kind.ready A w ≡ true → next_by_itself two_kind w ≡ Some (events.Out A) }
    ensures delivers { (w : Hosts) (link : ℕ) (message : List Bool) → two_kind.ready A w ≡ false
        → lowest_kept (two_kind.kept A B w) ≡ Some link → transit_of A link w ≡ Accepted message
        → next_by_itself two_kind w ≡ Some (events.Deliver A link) }
    ensures answers { (w : Hosts) (link : ℕ) → two_kind.ready A w ≡ false
        → lowest_kept (two_kind.kept A B w) ≡ Some link → transit_of A link w ≡ Delivered
        → next_by_itself two_kind w ≡ Some (events.Answer A link) }
    ensures lost { (w : Hosts) (link : ℕ) → two_kind.ready A w ≡ false
        → lowest_kept (two_kind.kept A B w) ≡ Some link → transit_of A link w ≡ Lost
        → next_by_itself two_kind w ≡ Some (events.Answer A link) }
    ensures dead { (w : Hosts) (link : ℕ) → two_kind.ready A w ≡ false
        → lowest_kept (two_kind.kept A B w) ≡ Some link → transit_of A link w ≡ Dead
        → next_by_itself two_kind w ≡ Some (events.Answer A link) }
    ensures wakes { (w : Hosts) (link : ℕ) → two_kind.ready A w ≡ false
        → lowest_kept (two_kind.kept A B w) ≡ Some link → transit_of A link w ≡ Free
        → next_by_itself two_kind w ≡ Some (events.Call A (calls.Wake w.number_b)) }
    ensures other { (w : Hosts) → two_kind.ready A w ≡ false → lowest_kept (two_kind.kept A B w) ≡ None
        → two_kind.ready B w ≡ true → next_by_itself two_kind w ≡ Some (events.Out B) }
    ensures none { (w : Hosts) → two_kind.ready A w ≡ false → lowest_kept (two_kind.kept A B w) ≡ None
        → two_kind.ready B w ≡ false → lowest_kept (two_kind.kept B A w) ≡ None
        → next_by_itself two_kind w ≡ None }
    ensures lowest { lowest_kept (λ link. if (link == 7) || (link == 3) then Some [] else None) ≡ Some 3 }
{}

/// Of more than two hosts, those that are named earlier take precedence, as senders and as
/// destinations; here they are 3, 1 and 2. If the first host has nothing ready, and the subnet does
/// not have the message on its lowest link, it wakes what it holds. There is no event if no host has
/// a message to send or keeps one for another.
pub fn the_next_event_of_many_is_so()
    ensures first { (m : Network) → numbers_in m ≡ 3 ∷ 1 ∷ 2 ∷ [] → many_kind.ready 3 m ≡ true
        → next_by_itself many_kind m ≡ Some (many_events.Out 3) }
    ensures to_first { (m : Network) (link : ℕ) (message : List Bool) → numbers_in m ≡ 3 ∷ 1 ∷ 2 ∷ []
        → many_kind.ready 3 m ≡ false → lowest_kept (many_kind.kept 3 1 m) ≡ Some link
        → transit_at m.subnet 3 1 link ≡ Accepted message
        → next_by_itself many_kind m ≡ Some (many_events.Deliver 3 1 link) }
    ensures to_second { (m : Network) (link : ℕ) → numbers_in m ≡ 3 ∷ 1 ∷ 2 ∷ [] → many_kind.ready 3 m ≡ false
        → lowest_kept (many_kind.kept 3 1 m) ≡ None → lowest_kept (many_kind.kept 3 2 m) ≡ Some link
        → transit_at m.subnet 3 2 link ≡ Delivered
        → next_by_itself many_kind m ≡ Some (many_events.Answer 3 2 link) }
    ensures wakes { (m : Network) (link : ℕ) → numbers_in m ≡ 3 ∷ 1 ∷ 2 ∷ [] → many_kind.ready 3 m ≡ false
        → lowest_kept (many_kind.kept 3 1 m) ≡ Some link → transit_at m.subnet 3 1 link ≡ Free
        → next_by_itself many_kind m ≡ Some (many_events.Call 3 (calls.Wake 1)) }
    ensures other { (m : Network) → numbers_in m ≡ 3 ∷ 1 ∷ 2 ∷ [] → many_kind.ready 3 m ≡ false
        → lowest_kept (many_kind.kept 3 1 m) ≡ None → lowest_kept (many_kind.kept 3 2 m) ≡ None
        → many_kind.ready 1 m ≡ true → next_by_itself many_kind m ≡ Some (many_events.Out 1) }
    ensures none { (m : Network) → numbers_in m ≡ 3 ∷ 1 ∷ 2 ∷ [] → many_kind.ready 3 m ≡ false
        → lowest_kept (many_kind.kept 3 1 m) ≡ None → lowest_kept (many_kind.kept 3 2 m) ≡ None
        → many_kind.ready 1 m ≡ false → lowest_kept (many_kind.kept 1 3 m) ≡ None
        → lowest_kept (many_kind.kept 1 2 m) ≡ None → many_kind.ready 2 m ≡ false
        → lowest_kept (many_kind.kept 2 3 m) ≡ None → lowest_kept (many_kind.kept 2 1 m) ≡ None
        → next_by_itself many_kind m ≡ None }
{}

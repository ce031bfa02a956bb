//! A bound on the messages that any peer can make a host send.
ghost use Rattle.std.specs.Prelude.{◌≡◌, ℕ, ◌+◌, ◌≤◌, Bool, true, List, Some};
ghost use Rattle.ncp_leader.specs.declared.leader.Leader.{Leader};
ghost use Rattle.ncp_slot.specs.declared.slot.Slot.TheVariants.{Empty};
ghost use Rattle.ncp_slot.specs.Slots.{slot_at};
ghost use Rattle.ncp_peer.specs.PeerState.{PeerState, new_state};
ghost use Rattle.ncp_peer.specs.Hearing.{after_bits};
ghost use Rattle.ncp_host.specs.Host.{is_one_of};
ghost use Rattle.ncp_peer.specs.Output.{output_on, after_output};
ghost use Rattle.ncp_transcript.specs.declared.note.HostNote.{HostNote};
ghost use Rattle.ncp_proof_runs.specs.Peers.{FromBeginning, notes_of_peer, notes_for};
ghost use Rattle.ncp_proof_progress.specs.Work.{peer_work};
ghost use Rattle.ncp_proof_quiescence.specs.HostWork.{bits_bring};
ghost use Rattle.ncp_proof_quiescence.specs.RunWork.{sent_new, brought};

/// Any bits from a peer add to a host's work at most the messages they bring: at most two for each
/// command, one for a fault, and one for a text. Each new message that the host makes takes one
/// away. So over a whole run of a host, it sends at most as many new messages to a peer as its
/// users' calls and the bits from that peer bring, regardless of the other peers.
pub fn no_peer_makes_a_host_send_for_ever()
    ensures comes { (leader : Leader) (bits : List Bool) (s : PeerState) → peer_work (after_bits leader bits s).peer ≤ peer_work s.peer + bits_bring leader bits }
    ensures goes { (number on : ℕ) (m : List Bool) (s : PeerState) → slot_at s.slots on ≡ Empty → output_on number on s ≡ Some m → peer_work (after_output on m s).peer + 1 ≤ peer_work s.peer }
    // theorem: Over every run of a host from its first state, the new messages that it sends to a
    // peer and the work left for that peer are together at most what its users' calls for that peer
    // and the bits from that peer brought, regardless of the other peers.
    ensures run { (me : ℕ) (ns : List ℕ) (all : List HostNote) (n : ℕ) → FromBeginning me ns all → is_one_of n ns ≡ true → sent_new (notes_of_peer n all) new_state + peer_work (notes_for (notes_of_peer n all) new_state).peer ≤ brought (notes_of_peer n all) new_state }
{}

//! How the measure of one end, and of one host with one peer, changes.
ghost use Rattle.std.specs.Prelude.{◌≡◌, ℕ, ◌+◌, ◌≤◌, Bool, List, length, drop, Option};
ghost use Rattle.std.specs.FinMap.{get};
ghost use Rattle.ncp_model.specs.Endpoint.{Endpoint};
ghost use Rattle.ncp_model.specs.Ends.{Ends, cut_in, no_ends, put};
ghost use Rattle.ncp_model.specs.EndpointEvents.{EndpointEvent, happens};
ghost use Rattle.ncp_model.specs.Phase.{Phase, makes_all, phase_settles, goes_down, resets, hears_rst};
ghost use Rattle.ncp_model.specs.Sending.{next_commands};
ghost use Rattle.ncp_wire.specs.declared.fault.CommandFault.{CommandFault};
ghost use Rattle.ncp_model.specs.Effect.{answer};
ghost use Rattle.ncp_model.specs.EndpointEvents.{of_cut};
ghost use Rattle.ncp_model.specs.Peers.{Peer, PairCall, calls, calls_echo, calls_reset, hears, hears_fault, hears_text, cuts, peer_sends, frees, falls, settles};
ghost use Rattle.ncp_proof_progress.specs.Work.{causes, peer_work, call_budget, queue_work, phase_work, end_work_at, happened_work, work_added, takes_away, ends_work};

use ncp_model::Pair;
use ncp_wire::Command;

/// Any event at an end, sound or not, leaves at most the work the end had and what the event adds,
/// counting the commands made. Sending a text lowers it by two.
pub fn what_happens_is_bounded()
    ensures { (pair : Pair) (what : EndpointEvent) (before : Option Endpoint) → happened_work pair (happens pair what before) + takes_away (happens pair what before).outcome ≤ end_work_at pair before + work_added pair what before }
{}

/// The work of all ends is a sum: it changes by as much as one end's work does, and is zero without
/// ends.
pub fn ends_add_up()
    ensures put { (m : Ends) (pair : Pair) (end : Option Endpoint) → ends_work (put m pair end) + end_work_at pair (get m pair) ≡ ends_work m + end_work_at pair end }
    ensures none { ends_work no_ends ≡ 0 }
{}

/// Bounds for the phase. Making commands adds at most their work; a control message takes away its
/// own; settling and going down add nothing, a reset at most two, and an RST received at most one.
pub fn phases_are_bounded()
    ensures makes { (cs : List Command) (q : Phase) → phase_work (makes_all cs q) ≤ phase_work q + queue_work cs }
    ensures sends { (waiting : List Command) → queue_work (next_commands waiting) + queue_work (drop (length (next_commands waiting)) waiting) ≡ queue_work waiting }
    ensures settles { (quiet : Bool) (q : Phase) → phase_work (phase_settles quiet q) ≤ phase_work q }
    ensures falls { (q : Phase) → phase_work (goes_down q) ≤ phase_work q }
    ensures resets { (quiet : Bool) (q : Phase) → phase_work (resets quiet q) ≤ phase_work q + 2 }
    ensures hears_rst { (quiet : Bool) (q : Phase) → phase_work (hears_rst quiet q) ≤ phase_work q + 1 }
{}

/// Bounds for any arrival and call at a host: a command adds at most what it causes, the fault of a
/// control text or a text at most one, a user's call at most its `call_budget`, an echo or a reset
/// at most two.
pub fn what_comes_is_bounded()
    ensures command { (quiet : Bool) (c : Command) (p : Peer) → peer_work (hears quiet c p) ≤ peer_work p + causes c }
    ensures fault { (fault : CommandFault) (p : Peer) → peer_work (hears_fault fault p) ≤ peer_work p + 1 }
    ensures text { (on : ℕ) (head : List Bool) (of_size : ℕ) (text : List Bool) (p : Peer) → peer_work (hears_text on head of_size text p) ≤ peer_work p + 1 }
    ensures call { (pair : Pair) (call : PairCall) (p : Peer) → peer_work (calls pair call p) ≤ peer_work p + call_budget call (get p.ends pair) }
    ensures echo { (byte : ℕ) (p : Peer) → peer_work (calls_echo byte p) ≤ peer_work p + 2 }
    ensures reset { (quiet : Bool) (p : Peer) → peer_work (calls_reset quiet p) ≤ peer_work p + 2 }
{}

/// Output takes its work away: a text two, a control message the work of its commands. The answer
/// to a text, settling and going down add nothing.
pub fn what_goes_out_pays()
    ensures text { (on : ℕ) (p : Peer) → peer_work (cuts on p) + takes_away (of_cut (answer (cut_in on p.ends))) ≤ peer_work p }
    ensures commands { (p : Peer) → peer_work (peer_sends p) + queue_work (next_commands p.phase.waiting) ≡ peer_work p }
    ensures answered { (on : ℕ) (p : Peer) → peer_work (frees on p) ≤ peer_work p }
    ensures settled { (quiet : Bool) (p : Peer) → peer_work (settles quiet p) ≤ peer_work p }
    ensures fallen { (p : Peer) → peer_work (falls p) ≤ peer_work p }
{}

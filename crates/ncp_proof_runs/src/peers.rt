//! Each peer by itself: its notes alone determine the host's state for it.
ghost use Rattle.std.specs.Prelude.{◌≡◌, ℕ, true, List, [], ◌∷◌, ◌++◌, Some};
ghost use Rattle.ncp_peer.specs.PeerState.{new_state};
ghost use Rattle.ncp_host.specs.Host.{state_of, numbers_of, new_host};
ghost use Rattle.ncp_host.specs.Ignoring.{none_ignored};
ghost use Rattle.ncp_transcript.specs.declared.call.Call.{Call};
ghost use Rattle.ncp_transcript.specs.declared.note.HostNote.{HostNote};
ghost use Rattle.ncp_transcript.specs.Answers.{takes_memory};
ghost use Rattle.ncp_transcript.specs.After.{after_notes};
ghost use Rattle.ncp_transcript.specs.Runs.{IsHostRun, host_began};
ghost use Rattle.ncp_proof_runs.specs.Peers.{FromBeginning, notes_of_peer, notes_for, ignored_by};
ghost use Rattle.ncp_proof_runs.specs.Examples.{two_peers};
ghost use Rattle.ncp_proof_runs.specs.WhereNoted.{WhereNoted};
ghost use Rattle.ncp_proof_runs.specs.WhatIsKept.{AfterARun, OfItsPeers, OfHostTranscripts};
ghost use Rattle.ncp_proof_runs.specs.RunRows.{down_alone};
ghost use Rattle.ncp_transcript.specs.declared.note.HostNote.TheVariants.{Refused};

use ncp_host::CallFault;
use ncp_transcript::{Call, HostNote};

/// After any run, the notes of a peer alone determine the host's state for it, regardless of the
/// notes between them. Those notes are a run by themselves, of a host that has this peer alone.
pub fn each_peer_is_by_itself()
    ensures kept { OfItsPeers (λ me h n own. state_of h n ≡ Some (notes_for own new_state)) }
    ensures alone { OfItsPeers (λ me h n own. IsHostRun own (new_host me (n ∷ []))) }
    ensures others { OfItsPeers (λ me h n own. OfItsPeers (λ you g m too. own ≡ too → state_of h n ≡ state_of g m)) }
{}

/// After any run, the notes that concern no peer determine the ignored counts.
pub fn what_is_ignored_is_of_no_peer()
    ensures { AfterARun (λ all h. h.ignored ≡ ignored_by all none_ignored) }
{}

/// Each prefix of a run is a run from the same beginning. So every theorem about runs holds after
/// each note.
pub fn a_beginning_of_a_run_is_a_run()
    ensures { (me : ℕ) (ns : List ℕ) (before after : List HostNote) → FromBeginning me ns (before ++ after) → FromBeginning me ns before }
{}

/// The transcript of a host is a run from its beginning that leads to the present host. So every
/// theorem of this crate applies to it, regardless of the code that recorded the notes.
pub fn a_transcript_is_from_its_beginning()
    ensures run { OfHostTranscripts (λ all h. FromBeginning h.me (numbers_of h.peers) all) }
    ensures host { OfHostTranscripts (λ all h. h ≡ after_notes all (host_began h)) }
{}

/// `OutOfMemory` is the answer to a request only: no other call is ever refused for it.
pub fn want_of_memory_is_of_a_request()
    ensures { (call : Call) → WhereNoted (Refused call CallFault.OutOfMemory) (λ ns before. takes_memory call ≡ true) }
{}

/// Worked examples: a run of a host with two peers, and the notes of each.
pub fn notes_of_two_peers()
    ensures run { FromBeginning 1 (2 ∷ 3 ∷ []) two_peers }
    ensures first { notes_of_peer 2 two_peers ≡ HostNote.Done (Call.Reset 2) ∷ [] }
    ensures second { notes_of_peer 3 two_peers ≡ HostNote.Phase 3 down_alone ∷ [] }
    ensures ignored { ignored_by two_peers none_ignored ≡ record { short = 1; other = 0; unknown = 0 } }
{}

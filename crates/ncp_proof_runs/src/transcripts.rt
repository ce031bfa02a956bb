//! A host with its transcript: the theorems about runs, stated for its notes and its present state.
ghost use Rattle.std.specs.Prelude.{◌≡◌, Bool, false, not, List, ◌++◌, Some, None};
ghost use Rattle.ncp_model.specs.Phase.{up};
ghost use Rattle.ncp_conn.specs.Records.{record_in};
ghost use Rattle.ncp_peer.specs.PeerState.{new_state};
ghost use Rattle.ncp_host.specs.Host.{numbers_of};
ghost use Rattle.ncp_host.specs.Ignoring.{none_ignored};
ghost use Rattle.ncp_peer.specs.Readiness.{IsNext};
ghost use Rattle.ncp_transcript.specs.After.{after_notes};
ghost use Rattle.ncp_proof_runs.specs.Reconstructed.{EachPeer};
ghost use Rattle.ncp_proof_runs.specs.Peers.{FromBeginning, notes_for, ignored_by};
ghost use Rattle.ncp_proof_runs.specs.Echoing.{echo_of, echoes_noted};
ghost use Rattle.ncp_proof_runs.specs.Counted.{counted_so_far, counts_capped};
ghost use Rattle.ncp_proof_runs.specs.Making.{made_of, is_up_noted};
ghost use Rattle.ncp_proof_runs.specs.WhereNoted.{record_noted, IsTheLastUnlessFresh, NoneReady};
ghost use Rattle.ncp_proof_runs.specs.WhatIsKept.{WentOutAsMade, OfPeersOf, OfNumbersOf, OfPairsOf, OfOpenedReceiversOf, OfMessagesOf, BeforeIn, HostBeforeIn};
ghost use Rattle.ncp_transcript.specs.declared.note.HostNote.TheVariants.{Out, Nothing};
ghost use Rattle.ncp_transcript.specs.Runs.{host_began};

use ncp_bits::BitStore;
use ncp_transcript::Alone;

/// The transcript of a host is a run from its beginning, so every theorem of this crate applies to
/// it, and it leads to the present host. For each peer, the notes of that peer alone determine its
/// state:
///
/// - each flag, and whether the host is up with it;
/// - the record of each pair, if there is one, by the marks and sums of these notes;
/// - the awaited echo, the byte of the last one, the last 16 ERRs, and the counts.
///
/// The notes that concern no peer determine the ignored counts.
pub fn a_host_is_what_its_notes_say<S: BitStore>(alone: &Alone<S>)
    ensures run { FromBeginning alone.now.host.me (numbers_of alone.now.host.peers) alone.now.notes }
    ensures host { alone.now.host ≡ after_notes alone.now.notes (host_began alone.now.host) }
    ensures peer { OfPeersOf alone.now (λ own had. had ≡ Some (notes_for own new_state)) }
    ensures down { EachPeer alone.now.host alone.now.notes (λ own s. s.peer.phase.down ≡ not (made_of own).began) }
    ensures want { EachPeer alone.now.host alone.now.notes (λ own s. s.peer.phase.want ≡ not (made_of own).did_reset) }
    ensures owe { EachPeer alone.now.host alone.now.notes (λ own s. s.peer.phase.owe ≡ not (made_of own).gave_answer) }
    ensures wait { EachPeer alone.now.host alone.now.notes (λ own s. s.peer.phase.wait ≡ not (made_of own).got_answer) }
    ensures up { EachPeer alone.now.host alone.now.notes (λ own s. up s.peer.phase ≡ is_up_noted (made_of own)) }
    ensures records { OfPairsOf alone.now (λ pair own s. record_in pair s.peer.ends ≡ record_noted pair own) }
    ensures echo { EachPeer alone.now.host alone.now.notes (λ own s. s.peer.echoes ≡ echoes_noted (echo_of own)) }
    ensures counts { EachPeer alone.now.host alone.now.notes (λ own s. s.counts ≡ counts_capped (counted_so_far own)) }
    ensures ignored { alone.now.host.ignored ≡ ignored_by alone.now.notes none_ignored }
{
    let _notes = alone.transcript();
}

/// For each peer, the commands made, less those that a clearing struck, are those in the fresh
/// messages on link 0, followed by the queued ones, in order. A message that is not fresh repeats
/// the last fresh one on its link. Each message sent was the one on the first ready link to the
/// first peer that had one. When the host reported none to send, none was ready on any link to any
/// of its peers.
pub fn its_messages_are_explained<S: BitStore>(alone: &Alone<S>)
    ensures commands { OfNumbersOf alone.now (λ n own s. WentOutAsMade n own s) }
    ensures again { OfMessagesOf alone.now (λ n on out own. IsTheLastUnlessFresh on out own) }
    ensures first { (message : List Bool) → HostBeforeIn alone.now (Out message) (λ h. IsNext (Some message) h.peers) }
    ensures none_ready { HostBeforeIn alone.now Nothing (λ h. IsNext None h.peers) }
    ensures nothing { BeforeIn alone.now Nothing (NoneReady (numbers_of alone.now.host.peers)) }
{
    let _notes = alone.transcript();
}

/// At a receiver that has opened and has not left, the text got since then is the text taken,
/// followed by the text held.
pub fn what_it_got_is_taken_or_held<S: BitStore>(alone: &Alone<S>)
    ensures { OfOpenedReceiversOf alone.now (λ past e. e.left ≡ false → past.got ≡ past.taken ++ e.stored) }
{
    let _notes = alone.transcript();
}

/// Events of one peer do not affect the state for another: two hosts with the same notes of a peer
/// have the same state for it, regardless of their other peers, their stores and their other notes.
pub fn peers_are_distinct<S: BitStore, T: BitStore>(one: &Alone<S>, other: &Alone<T>)
    ensures { OfPeersOf one.now (λ own had. OfPeersOf other.now (λ too has. own ≡ too → had ≡ has)) }
{
    let _notes = one.transcript();
    let _others = other.transcript();
}

//! Events of users, and events without them; hosts that are as new, and hosts that are not.
ghost use Rattle.std.specs.Prelude.{true, List, [], ◌∷◌, Some};
ghost use Rattle.ncp_model.specs.declared.call_fault.CallFault.{CallFault};
ghost use Rattle.ncp_model.specs.Peers.{Interrupt};
ghost use Rattle.ncp_model.specs.Phase.{up_phase};
ghost use Rattle.ncp_model.specs.Rows.{outward, opened_end, gone};
ghost use Rattle.ncp_proof_machine.specs.Resets.{This, That, anew};
ghost use Rattle.ncp_proof_machine.specs.Hosts.{Calls, Falls, Sends, Hears, Wakes, new_node};
ghost use Rattle.ncp_proof_machine.specs.HostRuns.{by, comes_up};
ghost use Rattle.ncp_peer.specs.PeerState.{new_state};
ghost use Rattle.ncp_transcript.specs.declared.call.Call.{Call};
ghost use Rattle.ncp_transcript.specs.declared.note.HostNote.{HostNote};
ghost use Rattle.ncp_transcript_two.specs.declared.side.Side.{Side};
ghost use Rattle.ncp_transcript_two.specs.declared.note.Note.{Note};
ghost use Rattle.ncp_proof_recovery.specs.CallingBack.{NoneIsCalledBack};
ghost use Rattle.ncp_proof_recovery.specs.Notes.{NothingIsAsked, reset_done, IsNew};
ghost use Rattle.ncp_proof_recovery.specs.Recovery.{IsUndisturbed, IsFresh};

/// Sent and received messages, and the call for what is held, do not disturb a schedule. Any other
/// call does, and so do a reset and a host that goes down of itself.
pub fn what_is_quiet()
    ensures moves { IsUndisturbed (by This (Sends 0) ∷ by That Hears ∷ by This Wakes ∷ []) }
    ensures call { IsUndisturbed (by That (Calls outward Interrupt) ∷ []) → ⊥ }
    ensures reset { IsUndisturbed (comes_up This) → ⊥ }
    ensures falls { IsUndisturbed (by This (Sends 0) ∷ by That Falls ∷ []) → ⊥ }
{}

/// The note of a call that was done shows that something was asked for. The notes of a refused
/// call, of a call for what is held, and of the subnet do not.
pub fn what_is_asked()
    ensures reset { NothingIsAsked (reset_done Side.A 2 ∷ []) → ⊥ }
    ensures echo { NothingIsAsked (Note.Lost Side.A 2 ∷ Note.Called Side.B (HostNote.Done (Call.Echo 1 65)) ∷ []) → ⊥ }
    ensures refused { NothingIsAsked (Note.Called Side.B (HostNote.Refused (Call.Echo 1 65) CallFault.NotUp) ∷ []) }
    ensures wake { NothingIsAsked (Note.Called Side.A (HostNote.Done (Call.Wake 2)) ∷ Note.Lost Side.A 2 ∷ Note.FoundDead Side.B 0 ∷ []) }
{}

/// A host that is down, and one that awaits an echo, are not as new.
pub fn what_is_not_as_new()
    ensures down { IsFresh new_node → ⊥ }
    ensures fresh { IsFresh (record new_node { host = anew up_phase }) }
    ensures echo { IsFresh (record new_node { host = anew up_phase; echoes = record new_node.echoes { awaited = true } }) → ⊥ }
    ensures down_too { IsNew new_state → ⊥ }
    ensures new { IsNew (record new_state { peer = record new_state.peer { phase = up_phase } }) }
    ensures echo_too { IsNew (record new_state { peer = record new_state.peer { phase = up_phase; echoes = record new_state.peer.echoes { awaited = true } } }) → ⊥ }
{}

/// Between two open endpoints a GVB is unanswered while `recall` is set at the receiver's. If the
/// sender has closed, `recall` may stay set.
pub fn what_is_called_back()
    ensures unanswered { NoneIsCalledBack (Some opened_end) (Some (record opened_end { recall = true })) → ⊥ }
    ensures late { NoneIsCalledBack (Some (gone opened_end)) (Some (record opened_end { recall = true })) }
{}

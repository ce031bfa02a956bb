//! Worked examples for the theorems, and cases that their definitions refuse: small laws that a
//! wrong definition falsifies.
ghost use Rattle.std.specs.Prelude.{◌≡◌, ℕ, Bool, true, false, List, [], ◌∷◌, Some};
ghost use Rattle.std.specs.List.{filter};
ghost use Rattle.std.specs.FinMap.{get};
ghost use Rattle.ncp_wire.specs.declared.command.Command.{Command};
ghost use Rattle.ncp_slot.specs.Slot.{is_empty};
ghost use Rattle.ncp_slot.specs.Slots.{slot_at};
ghost use Rattle.ncp_model.specs.declared.outcomes.Heard.{Heard};
ghost use Rattle.ncp_model.specs.declared.outcomes.Error.{Error};
ghost use Rattle.ncp_model.specs.Effect.{answer};
ghost use Rattle.ncp_model.specs.Ends.{hear};
ghost use Rattle.ncp_model.specs.Phase.{up, is_other};
ghost use Rattle.ncp_model.specs.declared.call_fault.CallFault.{CallFault};
ghost use Rattle.ncp_model.specs.declared.pair.Pair.{Pair};
ghost use Rattle.ncp_model.specs.Pairs.{sends};
ghost use Rattle.ncp_model.specs.Amounts.{amount};
ghost use Rattle.ncp_model.specs.Rows.{outward, inward, counting};
ghost use Rattle.ncp_proof_machine.specs.Resets.{This, That};
ghost use Rattle.ncp_proof_endpoint.specs.Histories.{no_past};
ghost use Rattle.ncp_proof_machine.specs.Hosts.{past_of};
ghost use Rattle.ncp_peer.specs.PeerState.{PeerState};
ghost use Rattle.ncp_transcript.specs.declared.call.Call.{Call};
ghost use Rattle.ncp_transcript.specs.declared.note.HostNote.{HostNote};
ghost use Rattle.ncp_transcript.specs.Asked.{Asks_echo, Asks_reset, Reply, Asked};
ghost use Rattle.ncp_transcript_two.specs.World.{World, Called, In};
ghost use Rattle.ncp_transcript_two.specs.Watch.{Both};
ghost use Rattle.ncp_transcript_two.specs.declared.side.Side.{Side};
ghost use Rattle.ncp_transcript_two.specs.declared.note.Note.{Note};
ghost use Rattle.ncp_transcript_two.specs.Between.{Hosts, hosts_after_note};
ghost use Rattle.ncp_transcript_two.specs.Seen.{seen};
ghost use Rattle.ncp_transcript_two.specs.Honest.{came};
ghost use Rattle.ncp_transcript_two.specs.Underway.{commands_of, underway};
ghost use Rattle.ncp_transcript_two.specs.Subnet.{TransitByLink};
ghost use Rattle.ncp_proof_promises.specs.EachNote.{OfEachNote};
ghost use Rattle.ncp_proof_promises.specs.Judged.{ActsOnce, NoneErrs, MakesNoErr};
ghost use Rattle.ncp_proof_promises.specs.Errless.{HasNoErr};
ghost use Rattle.ncp_proof_promises.specs.Resetting.{AwaitsReply, OnlyResetsAct};
ghost use Rattle.ncp_proof_promises.specs.Openings.{Opens, OpensOnFreeLinks};
ghost use Rattle.ncp_proof_promises.specs.Since.{Watches, nothing_seen, watch_after_asked, CommandsAgree};
ghost use Rattle.ncp_proof_promises.specs.Headline.{IsWithin};
ghost use Rattle.ncp_proof_promises.specs.Promised.{EitherWay, CameInOrder, WaitsAlone, NoErrUnderway, IsAllowed};
ghost use Rattle.ncp_proof_runs.specs.Examples.{up_state};
ghost use Rattle.ncp_proof_promises.specs.Examples.{waiting_state, seen_before, IsThis, IsPairOf};
ghost use Rattle.ncp_proof_promises.specs.PromiseRows.{before_meeting, after_meeting, before_meeting_there, after_meeting_there, eco_made, eco_came, of_messages, IsInOrder, an_err_goes, an_err_comes, GoesOnWaiting, heard_in};
ghost use Rattle.ncp_transcript_two.specs.declared.note.Note.TheVariants.{Lost};
ghost use Rattle.ncp_transcript_two.specs.declared.side.Side.TheVariants.{A, B};
ghost use Rattle.ncp_wire.specs.declared.command.Command.TheVariants.{Eco, Rrp, Rst};
ghost use Rattle.ncp_peer.specs.declared.received.Received.TheVariants.{Control, Text};
ghost use Rattle.ncp_model.specs.declared.outcomes.Took.TheVariants.{Admitted, Over};

use ncp_proof_headline::headline::openings_and_texts_out_happen;
use ncp_wire::Command;

/// Pairs open, at the sender's host and at the receiver's. `OpensOnFreeLinks` refuses an opening
/// while the sending host has a text in the slot of the pair's link.
pub fn openings_happen_and_are_seen()
    ensures sender { Opens outward before_meeting after_meeting }
    ensures receiver { Opens inward before_meeting_there after_meeting_there }
    ensures own_text { (own other : PeerState) → is_empty (slot_at own.slots 2) ≡ false → OpensOnFreeLinks own other before_meeting after_meeting → ⊥ }
    ensures text_there { (own other : PeerState) → is_empty (slot_at other.slots 2) ≡ false → OpensOnFreeLinks own other before_meeting_there after_meeting_there → ⊥ }
{
    openings_and_texts_out_happen();
}

/// The definitions refuse a command answered by an ERR, an ERR that is underway (queued or in
/// flight) or was received, and a text beyond the allocation. They refuse a command received that
/// has no effect, or counts as two.
pub fn errs_and_lost_commands_are_seen()
    ensures err { (c : Command) (code : ℕ) (bytes : List ℕ) (s : PeerState) → up s.peer.phase ≡ true → answer (hear c s.peer.ends) ≡ Heard.Reply (Command.Err code bytes) → NoneErrs (c ∷ []) s → ⊥ }
    ensures going { (s : PeerState) (u : TransitByLink) (code : ℕ) (bytes : List ℕ) (cs : List Command) → underway s u ≡ Command.Err code bytes ∷ cs → HasNoErr s u → ⊥ }
    ensures came { (s : PeerState) (u : TransitByLink) (e : Error) (es : List Error) → s.peer.echoes.errors ≡ e ∷ es → HasNoErr s u → ⊥ }
    ensures lost { (m : List Bool) (v after : World) → commands_of m ≡ Rrp ∷ [] → AwaitsReply v.that → AwaitsReply after.that → ActsOnce (In 0 m (Control 1)) v after → ⊥ }
    ensures text { (m : List Bool) (v after : World) → MakesNoErr (In 2 m (Text Over)) v after → ⊥ }
    ensures twice { (m : List Bool) (v after : World) → commands_of m ≡ Rrp ∷ [] → ActsOnce (In 0 m (Control 2)) v after → ⊥ }
{}

/// A host after its RST awaits an RRP. `OnlyResetsAct` refuses a text that it admits, and a command
/// that it makes.
pub fn acts_before_the_answer_are_seen()
    ensures waits { AwaitsReply waiting_state }
    ensures text { (m : List Bool) (v after : World) → AwaitsReply v.that → OnlyResetsAct (In 2 m (Text Admitted)) v after → ⊥ }
    ensures made { (asked : Asked) (reply : Reply) (v after : World) → AwaitsReply v.this → after.this.peer.phase.waiting ≡ Eco 65 ∷ v.this.peer.phase.waiting → OnlyResetsAct (Called asked reply) v after → ⊥ }
{}

/// History variables: a command made is appended, and so are a command received and the reply it
/// makes; a reset and an RST received start them again, from empty. `CommandsAgree` refuses a
/// command that was made and is neither received nor underway, and two commands received in the
/// other order.
pub fn what_is_made_and_comes_is_seen()
    ensures made { watch_after_asked (Asks_echo 65) up_state seen_before ≡ eco_made }
    ensures came { (m : List Bool) → commands_of m ≡ Eco 65 ∷ [] → heard_in m up_state seen_before ≡ eco_came }
    ensures resets { watch_after_asked Asks_reset up_state seen_before ≡ nothing_seen }
    ensures cleared { (m : List Bool) → commands_of m ≡ Rst ∷ [] → heard_in m up_state seen_before ≡ nothing_seen }
    ensures down { (m : List Bool) → commands_of m ≡ Eco 65 ∷ [] → heard_in m waiting_state nothing_seen ≡ nothing_seen }
    ensures lost { (v : World) (p : Watches) (c : Command) → up v.this.peer.phase ≡ true → up v.that.peer.phase ≡ true → p.this.made ≡ c ∷ [] → p.that.came ≡ [] → filter is_other (underway v.this v.going) ≡ [] → CommandsAgree v p → ⊥ }
    ensures counterpart { (v : World) (p : Watches) (c d : Command) → (c ≡ d → ⊥) → up v.this.peer.phase ≡ true → up v.that.peer.phase ≡ true → p.this.made ≡ c ∷ d ∷ [] → p.that.came ≡ d ∷ c ∷ [] → filter is_other (underway v.this v.going) ≡ [] → CommandsAgree v p → ⊥ }
{}

/// Use beyond the allocation is refused, of messages and of bits. If nothing was used or returned,
/// an outstanding allocation that differs from the grant is refused too.
pub fn use_beyond_the_allocation_is_seen()
    ensures messages { IsWithin (of_messages 3 2 2) → ⊥ }
    ensures bits { IsWithin (record no_past { granted = amount 0 8; returned = amount 0 7; got = true ∷ false ∷ [] }) → ⊥ }
    ensures all { IsWithin (record (of_messages 1 0 1) { granted = amount 1 1; got = true ∷ [] }) }
    ensures outstanding { (v : World) (p : Both) → get v.that.peer.ends inward ≡ Some (counting 3 24) → past_of p.that inward ≡ record no_past { granted = amount 4 24 } → IsAllowed outward v p → ⊥ }
    ensures outstanding_bits { (v : World) (p : Both) → get v.that.peer.ends inward ≡ Some (counting 3 24) → past_of p.that inward ≡ record no_past { granted = amount 3 25 } → IsAllowed outward v p → ⊥ }
{}

/// A property of each note is stated with the host of its side as this host. A note without a body
/// changes nothing observed.
pub fn notes_are_of_their_own_side()
    ensures of_a { (w : Hosts) (n on : ℕ) → OfEachNote (IsThis n) (Lost A on ∷ []) w → n ≡ w.number_a }
    ensures of_b { (w : Hosts) (n on : ℕ) → OfEachNote (IsThis n) (Lost B on ∷ []) w → n ≡ w.number_b }
    ensures each { (w : Hosts) (n on : ℕ) → OfEachNote (IsThis n) (Lost A on ∷ Lost B on ∷ []) w → n ≡ w.number_b }
    ensures nothing { (w : Hosts) (number : ℕ) (call : Call) (fault : CallFault) → OfEachNote (IsThis number) (Note.Called Side.A (HostNote.Refused call fault) ∷ []) w → seen (hosts_after_note (Note.Called Side.A (HostNote.Refused call fault)) w) ≡ seen w }
{}

/// The promises hold for both hosts: a property of a pair is stated with either host as the sender,
/// and the order on a link, the state of a host that waits, and that no ERR is underway or
/// received, for each host. So a phrase about one host alone is refused.
pub fn promises_are_of_both_hosts()
    ensures this_way { (notes : List Note) (w : Hosts) (pair : Pair) (number : ℕ) → sends pair ≡ true → EitherWay (IsPairOf number) notes w → number ≡ w.number_a }
    ensures that_way { (notes : List Note) (w : Hosts) (pair : Pair) (number : ℕ) → sends pair ≡ true → EitherWay (IsPairOf number) notes w → number ≡ w.number_b }
    ensures order_a { (ns : List Note) (w : Hosts) (on : ℕ) → CameInOrder ns w → IsInOrder This w.number_a on ns }
    ensures order_b { (ns : List Note) (w : Hosts) (on : ℕ) → CameInOrder ns w → IsInOrder That w.number_b on ns }
    ensures waits_a { (ns : List Note) (w : Hosts) → WaitsAlone ns w → GoesOnWaiting (seen w).this }
    ensures waits_b { (ns : List Note) (w : Hosts) → WaitsAlone ns w → GoesOnWaiting (seen w).that }
    ensures err_came_a { (ns : List Note) (w : Hosts) → NoErrUnderway ns w → (seen w).this.peer.echoes.errors ≡ [] }
    ensures err_came_b { (ns : List Note) (w : Hosts) → NoErrUnderway ns w → (seen w).that.peer.echoes.errors ≡ [] }
    ensures err_goes_a { (ns : List Note) (w : Hosts) → NoErrUnderway ns w → an_err_goes (seen w) ≡ false }
    ensures err_goes_b { (ns : List Note) (w : Hosts) → NoErrUnderway ns w → an_err_comes (seen w) ≡ false }
{}

//! The commands made for a peer, the order in which they are sent, and the flags that follow from
//! them.
ghost use Rattle.std.specs.Prelude.{◌≡◌, true, false, not, [], ◌∷◌, ◌++◌};
ghost use Rattle.ncp_wire.specs.declared.command.Command.TheVariants.{Nop, Eco, Erp, Rst, Rrp};
ghost use Rattle.ncp_model.specs.Phase.{up, up_phase};
ghost use Rattle.ncp_model.specs.Peers.{new_peer};
ghost use Rattle.ncp_proof_runs.specs.Reconstructed.{FromNotes};
ghost use Rattle.ncp_proof_runs.specs.Links.{noted_on, fresh_on};
ghost use Rattle.ncp_proof_runs.specs.Making.{is_up_noted, made_in, struck, made_since, by_other, made_sent, settling_made, nothing_made, made_of};
ghost use Rattle.ncp_proof_runs.specs.Examples.{message_on_0, message_on_2, notes_lost, notes_held, notes_stray, notes_woken, notes_taken, up_state};
ghost use Rattle.ncp_proof_runs.specs.WhereNoted.{are_quiet_noted, WhenFlagsRead};
ghost use Rattle.ncp_proof_runs.specs.WhatIsKept.{WentOutAsMade, OfItsPeers, OfEachNumber};
ghost use Rattle.ncp_proof_runs.specs.RunRows.{made_so_far, made_and_cleared, one_of_two_gone, came_alone, made_and_came, both_due, both_made};

/// The commands made for a peer in any run, less those that a clearing struck, are the commands in
/// the fresh messages on link 0, followed by the queued ones, in order. The number of commands sent
/// is the number in these messages.
pub fn commands_go_out_as_they_were_made()
    ensures { OfEachNumber (λ n told s. WentOutAsMade n told s) }
{}

/// By the notes of a peer, a host is up with it exactly when all of these hold. Each flag negates
/// one of them, and a note that reads the flags reports the same.
///
/// - `down`: since the start, or since it last went down, the host made an RST or RRP.
/// - `want`: since the last accepted reset, if any, it made an RST.
/// - `owe`: since the last RST received, if any, it made an RRP.
/// - `wait`: since the last RST it made, if any, it received an RRP.
pub fn flags_are_what_was_made_and_came()
    ensures down { FromNotes (λ told s. s.peer.phase.down ≡ not (made_of told).began) }
    ensures want { FromNotes (λ told s. s.peer.phase.want ≡ not (made_of told).did_reset) }
    ensures owe { FromNotes (λ told s. s.peer.phase.owe ≡ not (made_of told).gave_answer) }
    ensures wait { FromNotes (λ told s. s.peer.phase.wait ≡ not (made_of told).got_answer) }
    ensures up { FromNotes (λ told s. up s.peer.phase ≡ is_up_noted (made_of told)) }
    ensures down_noted { WhenFlagsRead (λ flags made. flags.down ≡ not made.began) }
    ensures want_noted { WhenFlagsRead (λ flags made. flags.want ≡ not made.did_reset) }
    ensures owe_noted { WhenFlagsRead (λ flags made. flags.owe ≡ not made.gave_answer) }
    ensures wait_noted { WhenFlagsRead (λ flags made. flags.wait ≡ not made.got_answer) }
{}

/// While the data links to a peer are quiet, no RRP is owed and no RST is wanted: the host made an
/// RRP since the last RST received, and an RST since the last accepted reset. So each is made no
/// later than at the first step after which the links are quiet.
pub fn what_is_owed_waits_for_quiet()
    ensures answer { OfItsPeers (λ me h n told. are_quiet_noted told ≡ true → (made_of told).gave_answer ≡ true) }
    ensures reset { OfItsPeers (λ me h n told. are_quiet_noted told ≡ true → (made_of told).did_reset ≡ true) }
{}

/// Worked examples. A new command is made last. A clearing strikes all unsent commands except RST
/// and RRP. The commands that fit one message are sent. The RRP owed is made before the RST wanted.
/// Commands made and received before a clearing no longer count, and neither do commands received
/// while the host is not up.
pub fn commands_are_made_struck_and_sent()
    ensures made { made_in (Eco 2) up_phase (made_so_far (Eco 1 ∷ []) 1) ≡ made_so_far (Eco 1 ∷ Eco 2 ∷ []) 1 }
    ensures struck { struck (made_so_far (Eco 1 ∷ Eco 2 ∷ Rrp ∷ []) 1) ≡ made_and_cleared (Eco 1 ∷ Rrp ∷ []) }
    ensures from_empty { made_since (made_and_cleared (Eco 1 ∷ Rrp ∷ Rst ∷ Eco 2 ∷ [])) ≡ Eco 2 ∷ [] }
    ensures anew_after_clearing { made_since (struck (record one_of_two_gone { came = Eco 3 ∷ [] })) ≡ [] }
    ensures came_is_struck { (struck (record nothing_made { came = Eco 3 ∷ [] })).came ≡ [] }
    ensures heard { by_other (Eco 3) up_state.peer (came_alone (Nop ∷ [])) ≡ made_and_came (Erp 3 ∷ []) (Nop ∷ Eco 3 ∷ []) }
    ensures heard_not_up { by_other (Eco 3) new_peer nothing_made ≡ nothing_made }
    ensures sent { made_sent (made_so_far (Eco 1 ∷ Eco 2 ∷ Rrp ∷ []) 1) ≡ made_so_far (Eco 1 ∷ Eco 2 ∷ Rrp ∷ []) 3 }
    ensures settled { settling_made true both_due nothing_made ≡ both_made }
    ensures waits { settling_made false both_due nothing_made ≡ nothing_made }
{}

/// A retransmission is not fresh: link 0 has one fresh message, however often it was lost or held.
pub fn a_message_is_fresh_once()
    ensures control { fresh_on 0 (notes_held ++ notes_stray ++ notes_woken ++ notes_taken) ≡ message_on_0 ∷ [] }
    ensures text { fresh_on 2 (notes_held ++ notes_stray ++ notes_woken ++ notes_taken) ≡ message_on_2 ∷ [] }
    ensures last { (noted_on 0 notes_lost).fresh ≡ message_on_0 }
{}

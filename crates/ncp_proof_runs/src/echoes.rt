//! The awaited echo of a peer, the byte of the last echo, the ERRs received, and the counts: all
//! are functions of the peer's notes.
ghost use Rattle.std.specs.Prelude.{◌≡◌, ℕ, ◌+◌, true, false, [], ◌∷◌, Option, Some};
ghost use Rattle.ncp_wire.specs.declared.command.Command.TheVariants.{Nop, Eco, Erp, Rst, Rrp};
ghost use Rattle.ncp_transcript.specs.declared.note.HostNote.TheVariants.{Done, Refused, Echoed};
ghost use Rattle.ncp_transcript.specs.declared.call.Call.TheVariants.{Echo, Reset};
ghost use Rattle.ncp_model.specs.declared.call_fault.CallFault.TheVariants.{Busy};
ghost use Rattle.ncp_model.specs.declared.limits.TheConstants.{MAX_ERRORS, MAX_COUNT};
ghost use Rattle.ncp_model.specs.Endpoint.{new_end};
ghost use Rattle.ncp_model.specs.Phase.{new_phase, up_phase};
ghost use Rattle.ncp_model.specs.Rows.{outward};
ghost use Rattle.ncp_peer.specs.Counting.{no_counts};
ghost use Rattle.ncp_peer.specs.PeerState.{new_state};
ghost use Rattle.ncp_transcript.specs.declared.note.HostNote.{HostNote};
ghost use Rattle.ncp_proof_runs.specs.Reconstructed.{FromNotes, BeforeNote};
ghost use Rattle.ncp_proof_runs.specs.Echoing.{no_echo, while_up, echo_heard_all, echo_from, echo_of, last_of};
ghost use Rattle.ncp_proof_runs.specs.Counted.{is_late_end, counted_as, counted_fault, counted_so_far, counts_capped};
ghost use Rattle.ncp_proof_runs.specs.Examples.{up_state, echo_before, one_error, many_errors};
ghost use Rattle.ncp_proof_runs.specs.WhereNoted.{WhenErrorsRead, WhenCounted};
ghost use Rattle.ncp_proof_runs.specs.RunRows.{echo_ended, an_err, two_errors, counts_from, counts_while_down, fault_of_1, some_late};

use ncp_host::{Received, Took};
use ncp_leader::MessageFault;
use ncp_transcript::{Call, HostNote};

/// After any run, the notes of a peer determine the host's echo and errors for it:
///
/// - It awaits an echo exactly when one was accepted, and since then no ERP was received and
///   nothing was cleared: by a reset, by an RST received, or by going down.
/// - The byte is that of the last ERP received for an echo, regardless of later clearings.
/// - The errors are the last 16 ERRs received while it was up, regardless of clearings.
///
/// An echo is accepted only when none is awaited, and refused as busy only when one is. A note that
/// reads the byte or the errors reports the same.
pub fn echoes_and_errors_are_what_their_notes_say()
    ensures awaited { FromNotes (λ told s. s.peer.echoes.awaited ≡ (echo_of told).asked) }
    ensures echoed { FromNotes (λ told s. s.peer.echoes.echoed ≡ (echo_of told).byte) }
    ensures errors { FromNotes (λ told s. s.peer.echoes.errors ≡ last_of MAX_ERRORS (echo_of told).errors) }
    ensures accepted { (n byte : ℕ) → BeforeNote n (Done (Echo n byte)) (λ told. (echo_of told).asked ≡ false) }
    ensures busy { (n byte : ℕ) → BeforeNote n (Refused (Echo n byte) Busy) (λ told. (echo_of told).asked ≡ true) }
    ensures byte_noted { (n : ℕ) (byte : Option ℕ) → BeforeNote n (Echoed n byte) (λ told. byte ≡ (echo_of told).byte) }
    ensures errors_noted { WhenErrorsRead (λ errors told. errors ≡ last_of MAX_ERRORS (echo_of told).errors) }
{}

/// After any run, the notes of a peer determine the host's counts for it: each is the number of
/// events of its kind, or the greatest value of a count if there are more. A note that reads the
/// counts reports the same.
pub fn counts_are_what_their_notes_say()
    ensures counts { FromNotes (λ told s. s.counts ≡ counts_capped (counted_so_far told)) }
    ensures noted { WhenCounted (λ counts told. counts ≡ counts_capped (counted_so_far told)) }
{}

/// Worked examples. An echo is asked for and answered. An ERP that answers no echo changes nothing,
/// and commands received while the host is not up are dropped. A reset, an RST received and going
/// down end the echo only, and keep the byte and the errors. Of 17 errors the first is dropped.
pub fn an_echo_is_ended_by_its_answer_or_a_clearing()
    ensures asked { echo_from (HostNote.Done (Call.Echo 2 65) ∷ []) up_state no_echo ≡ record no_echo { asked = true } }
    ensures answered { echo_heard_all (Erp 65 ∷ []) up_state echo_before ≡ record echo_ended { byte = Some 65 } }
    ensures stray { echo_heard_all (Erp 65 ∷ []) up_state echo_ended ≡ echo_ended }
    ensures erred { echo_heard_all (an_err ∷ []) up_state echo_before ≡ record echo_before { errors = two_errors } }
    ensures dropped { echo_heard_all (Erp 65 ∷ an_err ∷ []) new_state echo_before ≡ echo_before }
    ensures reset { echo_from (Done (Reset 2) ∷ []) up_state echo_before ≡ echo_ended }
    ensures rst { echo_heard_all (Rst ∷ []) up_state echo_before ≡ echo_ended }
    ensures down { while_up up_phase new_phase echo_before ≡ echo_ended }
    ensures up { while_up up_phase up_phase echo_before ≡ echo_before }
    ensures last { last_of MAX_ERRORS (one_error ∷ many_errors) ≡ many_errors }
    ensures all { last_of MAX_ERRORS many_errors ≡ many_errors }
{}

/// Each of these arrivals raises one count, that of its kind: each fault that a note reports of a
/// message or an answer, an RRP that is not awaited, an ERP that answers no echo, a dropped
/// command, and a command for an end that is leaving or left. A text that is admitted, a text for a
/// connection that is not open, and an answer to a message are not counted. A count stops at its
/// greatest value.
pub fn each_kind_is_counted_for_itself()
    ensures stray { counted_as Received.Stray no_counts ≡ record no_counts { stray = 1 } }
    ensures fault { counted_as (Received.Fault MessageFault.M1NotZero) no_counts ≡ record no_counts { faults = 1 } }
    ensures link { counted_as Received.WrongLink no_counts ≡ record no_counts { wrong_link = 1 } }
    ensures size { counted_as Received.WrongSize no_counts ≡ record no_counts { wrong_size = 1 } }
    ensures not_up { counted_as Received.NotUp no_counts ≡ record no_counts { not_up = 1 } }
    ensures late { counted_as (Received.Text Took.Late) no_counts ≡ record no_counts { late = 1 } }
    ensures text_size { counted_as (Received.Text Took.WrongSize) no_counts ≡ record no_counts { wrong_size = 1 } }
    ensures over { counted_as (Received.Text Took.Over) no_counts ≡ record no_counts { over = 1 } }
    ensures good_text { counted_as (Received.Text Took.Admitted) no_counts ≡ no_counts }
    ensures good_unopened { counted_as (Received.Text Took.NotOpen) no_counts ≡ no_counts }
    ensures good_answer { counted_as Received.Answered no_counts ≡ no_counts }
    ensures replies { counts_from (Rrp ∷ Erp 65 ∷ Eco 65 ∷ Nop ∷ []) up_state no_echo ≡ record no_counts { stray = 2 } }
    ensures echo { counts_from (Erp 65 ∷ Erp 65 ∷ []) up_state echo_before ≡ record no_counts { stray = 1 } }
    ensures dropped { counts_while_down (Eco 65 ∷ Erp 65 ∷ Rrp ∷ []) ≡ record no_counts { not_up = 2; stray = 1 } }
    ensures reset { counts_while_down (Rst ∷ []) ≡ no_counts }
    ensures fault_dropped { counted_fault (Some fault_of_1) new_state.peer no_counts ≡ record no_counts { not_up = 1 } }
    ensures fault_when_up { counted_fault (Some fault_of_1) up_state.peer no_counts ≡ no_counts }
    ensures late_when_due { is_late_end (Some (outward, record new_end { leaving = true })) ≡ true }
    ensures late_when_left { is_late_end (Some (outward, record new_end { left = true })) ≡ true }
    ensures not_late_otherwise { is_late_end (Some (outward, new_end)) ≡ false }
    ensures most { counts_capped (record some_late { stray = MAX_COUNT + 1 }) ≡ record some_late { stray = MAX_COUNT } }
{}

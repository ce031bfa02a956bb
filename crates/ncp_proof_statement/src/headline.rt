//! The headline of the page, for every transcript of two hosts.
ghost use Rattle.std.specs.Prelude.{◌≡◌, ℕ, Bool, false, true, List, ◌++◌};
ghost use Rattle.std.specs.FinMap.{get};
ghost use Rattle.ncp_model.specs.declared.pair.Pair.{Pair};
ghost use Rattle.ncp_model.specs.Pairs.{receives, counterpart};
ghost use Rattle.ncp_model.specs.Endpoint.{is_live, or_new};
ghost use Rattle.ncp_transcript_two.specs.declared.note.Note.{Note};
ghost use Rattle.ncp_transcript_two.specs.declared.side.Side.{Side};
ghost use Rattle.ncp_transcript_two.specs.Between.{Hosts, other, side_number, host_of, transit_of};
ghost use Rattle.ncp_transcript_two.specs.Seen.{had_for};
ghost use Rattle.ncp_transcript_two.specs.Transcript.{IsTranscript};
ghost use Rattle.ncp_statement.specs.Statement.{taken, given, TakenIsPrefix, WithinAllowance, Each, ReadsAll, HasNoProtocolError, InOrder, Delivers, link_state, AcceptsEveryOutput, Headline};
ghost use Rattle.ncp_proof_statement.specs.Since.{ComesRight};

use ncp_proof_promises::promises::what_comes_acts_once_and_is_right;
use ncp_proof_promises::taking;
use ncp_transcript_two::transcripts::{
    nothing_is_noted_only_where_nothing_can_be, transcripts_are_honest,
    transcripts_keep_the_headline,
};

/// Whenever `take` returns, all that it returned since the ask is a prefix of the bits given at the
/// other host by then. This holds for every pair, at either host, in any run.
pub fn taken_is_prefix()
    ensures { (notes : List Note) (w : Hosts) → IsTranscript notes w → TakenIsPrefix notes }
{
    transcripts_keep_the_headline();
}

/// If a receiving endpoint has opened and has not made its CLS, the bits taken since the ask,
/// followed by those it holds, are a prefix of the bits given at the other host. This holds for
/// every pair, at either host, after any run.
pub fn what_is_taken_and_held_begins_what_is_given()
    // theorem: After every transcript of two hosts, if a receiving endpoint has opened and has not
    // made its CLS, the bits taken since the ask, followed by those it holds, are a prefix of the
    // bits given at the other host.
    ensures { (notes : List Note) (w : Hosts) (side : Side) (pair : Pair) → IsTranscript notes w → receives pair ≡ true → let end = get (had_for (side_number (other side) w) (host_of side w)).peer.ends pair in is_live end ≡ true → (or_new end).left ≡ false → (rest : List Bool) × (given (other side) (counterpart pair) notes ≡ (taken side pair notes ++ (or_new end).stored) ++ rest) }
{
    transcripts_keep_the_headline();
}

/// The user never takes more bits than it allocated, both since the last ask: for every pair, at
/// either host, at every moment of any run.
pub fn what_is_taken_is_within_the_allowance()
    ensures { (notes : List Note) (w : Hosts) → IsTranscript notes w → WithinAllowance notes }
{}

/// Each message arrived once, whole, before its RFNM, or did not arrive and got another answer. The
/// last on a link may still be unanswered.
pub fn messages_are_delivered()
    ensures { (notes : List Note) (w : Hosts) → IsTranscript notes w → Delivers w.number_a w.number_b notes }
{
    transcripts_are_honest();
}

/// The messages that arrived on a link are a prefix of those sent there, at most one message
/// shorter. A message sent after an answer other than RFNM counts as a retransmission, not as a
/// further message.
pub fn messages_come_in_order()
    ensures { (notes : List Note) (w : Hosts) → IsTranscript notes w → InOrder w.number_a w.number_b notes }
{
    transcripts_are_honest();
}

/// The subnet accepts each message that is sent. The notes determine what it has on each link
/// (`link_state`), and a note that it had nothing to deliver, lose or answer appears only if that
/// is so (`vain`).
pub fn each_output_is_accepted()
    ensures link_state { (notes : List Note) (w : Hosts) (side : Side) (on : ℕ) → IsTranscript notes w → link_state side on notes ≡ transit_of side on w }
    ensures vain { (notes : List Note) (w : Hosts) → IsTranscript notes w → AcceptsEveryOutput notes }
{
    taking::each_output_is_accepted_after_its_note();
    nothing_is_noted_only_where_nothing_can_be();
}

/// The note of each control message that arrives has the number of its commands (`read`). No text
/// arrives over its allocation, in bytes of the wrong size, or for a connection that is not open
/// (`right`).
pub fn each_command_is_read()
    ensures read { (notes : List Note) (w : Hosts) → IsTranscript notes w → Each ReadsAll notes }
    ensures right { (notes : List Note) (w : Hosts) → IsTranscript notes w → Each ComesRight notes }
{
    what_comes_acts_once_and_is_right();
}

/// No control message that is sent has an ERR, and no text arrives over its allocation, in bytes of
/// the wrong size, or for a connection that is not open.
pub fn none_complains()
    ensures { (notes : List Note) (w : Hosts) → IsTranscript notes w → Each HasNoProtocolError notes }
{
    what_comes_acts_once_and_is_right();
}

/// The headline holds for every transcript of two hosts.
pub fn transcripts_keep_the_page()
    ensures { (notes : List Note) (w : Hosts) → IsTranscript notes w → Headline w.number_a w.number_b notes }
{
    taken_is_prefix();
    what_is_taken_is_within_the_allowance();
    messages_are_delivered();
    messages_come_in_order();
    each_output_is_accepted();
    each_command_is_read();
    none_complains();
}

//! The headline, for transcripts: one clause per phrase, except that no bits of a peer make a host
//! fault, which is the contract of `Host::receive`.
ghost use Rattle.std.specs.Prelude.{◌≡◌, ℕ, List, not};
ghost use Rattle.ncp_model.specs.declared.limits.TheConstants.{MAX_ERRORS};
ghost use Rattle.ncp_model.specs.declared.pair.Pair.{Pair};
ghost use Rattle.ncp_model.specs.Phase.{up};
ghost use Rattle.ncp_slot.specs.Slots.{slot_at};
ghost use Rattle.ncp_conn.specs.Records.{record_in};
ghost use Rattle.ncp_proof_runs.specs.Links.{noted_on, slot_so_far};
ghost use Rattle.ncp_proof_runs.specs.Echoing.{echo_of, last_of};
ghost use Rattle.ncp_proof_runs.specs.Counted.{counted_so_far, counts_capped};
ghost use Rattle.ncp_proof_runs.specs.Making.{made_of, made_since, is_up_noted};
ghost use Rattle.ncp_transcript_two.specs.declared.note.Note.{Note};
ghost use Rattle.ncp_transcript_two.specs.Between.{Hosts};
ghost use Rattle.ncp_transcript_two.specs.Transcript.{began, IsTranscript};
ghost use Rattle.ncp_proof_promises.specs.AtEachHost.{AtEachHost};
ghost use Rattle.ncp_proof_promises.specs.Promised.{SubnetHonest, GotBegins, EachByteOnce, WithinAllocation, LedgersBalanced, CameInOrder, CommandsInOrder, EachActedOnce, NoErrMade};
ghost use Rattle.ncp_proof_promises.specs.EachSide.{AtEachSide, AtEachWatch};
ghost use Rattle.ncp_proof_runs.specs.WhatIsKept.{WentOutAsMade};
ghost use Rattle.ncp_proof_runs.specs.WhereNoted.{record_noted};

use crate::promises::{commands_act_once_in_order, what_comes_acts_once_and_is_right};
use ncp_transcript_two::transcripts::{
    each_host_is_by_itself, transcripts_are_honest, transcripts_keep_the_headline,
};

/// The notes of each host of a world determine its state for the other:
///
/// - The commands made for the other, less those that a clearing struck, are those in the fresh
///   messages on link 0, followed by the queued ones, in order.
/// - Each of its four flags is set, and it is up, exactly when the notes show it.
/// - The record of each pair, and whether there is one, follows from its marks and sums; each slot,
///   from the notes of its link.
/// - It awaits an echo exactly when one was accepted, and since then no ERP was received and
///   nothing was cleared. The byte is that of the last ERP received for an echo; the errors are the
///   last 16 ERRs received while it was up.
/// - Each count is the number of events of its kind, or the greatest value of a count if there are
///   more.
pub fn each_host_is_what_its_notes_say()
    ensures commands { AtEachSide WentOutAsMade }
    ensures up { AtEachHost (λ own had. up had.peer.phase ≡ is_up_noted (made_of own)) }
    ensures down { AtEachHost (λ own had. had.peer.phase.down ≡ not (made_of own).began) }
    ensures want { AtEachHost (λ own had. had.peer.phase.want ≡ not (made_of own).did_reset) }
    ensures owe { AtEachHost (λ own had. had.peer.phase.owe ≡ not (made_of own).gave_answer) }
    ensures waits { AtEachHost (λ own had. had.peer.phase.wait ≡ not (made_of own).got_answer) }
    ensures records { AtEachHost (λ own had. (pair : Pair) → record_in pair had.peer.ends ≡ record_noted pair own) }
    ensures slots { AtEachHost (λ own had. (on : ℕ) → slot_at had.slots on ≡ slot_so_far (noted_on on own)) }
    ensures echo { AtEachHost (λ own had. had.peer.echoes.awaited ≡ (echo_of own).asked) }
    ensures echoed { AtEachHost (λ own had. had.peer.echoes.echoed ≡ (echo_of own).byte) }
    ensures errors { AtEachHost (λ own had. had.peer.echoes.errors ≡ last_of MAX_ERRORS (echo_of own).errors) }
    ensures counts { AtEachHost (λ own had. had.counts ≡ counts_capped (counted_so_far own)) }
{
    each_host_is_by_itself();
}

/// The history variables for `commands` agree with each host's own notes, without RST and RRP:
/// `made` holds the commands that the notes show it made since its last clearing, and `came` those
/// it received since then.
pub fn what_is_watched_is_in_the_notes_of_each_host()
    ensures made { AtEachWatch (λ watch made. watch.made ≡ made_since made) }
    ensures came { AtEachWatch (λ watch made. watch.came ≡ made.came) }
{}

/// For every list of calls, deliveries, losses, answers and orders between links: the text a
/// receiver got on a live connection is a prefix of the text given, each byte once, never beyond
/// its allocation; each command acts once, in order; and no command of a host makes the other make
/// an ERR. In both directions, for each pair.
///
/// - `subnet`: the notes show an honest subnet.
/// - `once`: all text that a live receiver got was taken or is held, until it leaves; and while
///   both ends are open, all text given was got, is underway (queued or in flight), or is stored at
///   the sender.
/// - `allocation`: a live receiver never uses more than was granted; from its opening on, its
///   outstanding allocation is what was granted, less what was returned and used, in messages and
///   bits.
/// - `ledger`: while both ends are open, the outstanding allocation is the sum of the sender's
///   counters and the amounts underway.
/// - `order`: the messages that arrived on a link are a prefix of those sent there.
/// - `commands`: between two hosts that are up, the commands received followed by those underway
///   are the commands made, each since the last clearing.
/// - `acts`: each command of a message received acts once, in order.
/// - `errs`: no control text is faulty, no command is answered by an ERR, and no text is answered
///   as not connected, of the wrong size or beyond the allocation.
pub fn the_headline()
    ensures subnet { (notes : List Note) (w : Hosts) → IsTranscript notes w → SubnetHonest notes w }
    ensures beginning { (notes : List Note) (w : Hosts) → IsTranscript notes w → GotBegins notes w }
    ensures once { (notes : List Note) (w : Hosts) → IsTranscript notes w → EachByteOnce notes w }
    ensures allocation { (notes : List Note) (w : Hosts) → IsTranscript notes w → WithinAllocation notes w }
    // theorem: Allocation adds up. After every transcript of two hosts, while both endpoints of a
    // connection are open, the receiver's outstanding allocation is the sum of the sender's
    // counters and of the amounts underway (queued or in flight), in messages and in bits.
    ensures ledger { (notes : List Note) (w : Hosts) → IsTranscript notes w → LedgersBalanced notes w }
    ensures order { (notes : List Note) (w : Hosts) → IsTranscript notes w → CameInOrder notes w }
    ensures commands { (notes : List Note) (w : Hosts) → IsTranscript notes w → CommandsInOrder notes w }
    ensures acts { (notes : List Note) (w : Hosts) → IsTranscript notes w → EachActedOnce notes w }
    ensures errs { (notes : List Note) (w : Hosts) → IsTranscript notes w → NoErrMade notes w }
{
    transcripts_keep_the_headline();
    transcripts_are_honest();
    commands_act_once_in_order();
    what_comes_acts_once_and_is_right();
}

//! Theorems about every transcript of a world. Each is the contract of a lemma.
ghost use Rattle.std.specs.Prelude.{List, None, Some};
ghost use Rattle.ncp_peer.specs.Readiness.{IsNext};
ghost use Rattle.ncp_transcript_two.specs.declared.note.Note.{Note};
ghost use Rattle.ncp_transcript_two.specs.Between.{Hosts, hosts_after_notes};
ghost use Rattle.ncp_transcript_two.specs.Transcript.{began, IsTranscript};
ghost use Rattle.ncp_proof_promises.specs.Promised.{EachActedOnce, NoErrMade, NoErrUnderway, WaitsAlone, OnlyResetsActed, CommandsInOrder, OpenedUnderNoText};
ghost use Rattle.ncp_proof_promises.specs.EachSide.{AreSilentWhileDown};
ghost use Rattle.ncp_transcript_two.specs.OfTranscripts.{WhereNoneWentOut, WhereOneWentOut, OfTwoParts};

use ncp_transcript_two::transcripts::each_host_is_by_itself;

/// A control message received does to its host what its commands do, each once, in order, and does
/// nothing else. None of its commands is answered by an ERR, and no control text has a fault. No
/// text is answered as not connected, of the wrong size or beyond the allocation, and no bits are a
/// faulty message.
pub fn what_comes_acts_once_and_is_right()
    // theorem: In every transcript of two hosts, each control message that arrives has exactly the
    // effect of its commands at the receiving host, by the rules, each once and in order, and no
    // effect at the sending host.
    ensures once { (notes : List Note) (w : Hosts) → IsTranscript notes w → EachActedOnce notes w }
    ensures right { (notes : List Note) (w : Hosts) → IsTranscript notes w → NoErrMade notes w }
{}

/// After every transcript no ERR is underway between the hosts, queued or in an undelivered
/// message, and neither host has received one.
pub fn no_err_is_ever_underway()
    ensures { (notes : List Note) (w : Hosts) → IsTranscript notes w → NoErrUnderway notes w }
{}

/// From making an RST until an RRP arrives, a host acts on RST and RRP only. In each note of that
/// time, no call changes its flags, queued commands, ends or echoes for its peer, all arrivals
/// except these two are dropped, and no other command is queued. It keeps waiting in each note
/// except one in which an RRP arrives. While it waits it has no connection.
pub fn only_resets_act_until_the_answer()
    ensures waiting { (notes : List Note) (w : Hosts) → IsTranscript notes w → WaitsAlone notes w }
    // theorem: In every transcript of two hosts, from making an RST until an RRP arrives, a host
    // acts on RST and RRP only: no call and no text that arrives changes its flags, queued
    // commands, connections or echoes, and each other command that arrives is dropped.
    ensures acts { (notes : List Note) (w : Hosts) → IsTranscript notes w → OnlyResetsActed notes w }
{}

/// Commands act once and in order: between two hosts that are up no RST or RRP is underway (queued
/// or in flight), and the commands one of them received since it was last cleared, followed by
/// those underway to it, are the commands that the other made since it was last cleared. A host
/// that is not up has made and received none since then.
pub fn commands_act_once_in_order()
    // theorem: After every transcript of two hosts, if both are up, no RST or RRP is underway
    // (queued or in flight), and the commands that a host received since it was last cleared,
    // followed by those underway to it, are the commands that the other made since it was last
    // cleared, in order.
    ensures agree { (notes : List Note) (w : Hosts) → IsTranscript notes w → CommandsInOrder notes w }
    ensures silent { (notes : List Note) (w : Hosts) → IsTranscript notes w → AreSilentWhileDown notes w }
{}

/// From sending a text to its RFNM, no pair whose texts that host sends on that link opens, at
/// either host: no call and no command of a control message opens one, and no other event opens any
/// pair.
pub fn none_opens_while_its_link_has_a_text()
    // theorem: In every transcript of two hosts, from the sending of a text on a link until its
    // RFNM, no connection whose texts that host sends on that link opens, at either host.
    ensures { (notes : List Note) (w : Hosts) → IsTranscript notes w → OpenedUnderNoText notes w }
{}

/// Each message that a host of a world sends is the one on the first ready link. When it reports
/// none to send, no link to the other host is ready.
pub fn what_goes_out_is_first_of_each_host()
    ensures nothing { WhereNoneWentOut (λ h. IsNext None h.peers) }
    ensures out { WhereOneWentOut (λ message h. IsNext (Some message) h.peers) }
{
    each_host_is_by_itself();
}

/// Each prefix of a transcript is a transcript, of the hosts at that point. So what holds for every
/// transcript holds after each of its notes.
pub fn beginnings_are_transcripts()
    ensures { OfTwoParts (λ before after w. IsTranscript before (hosts_after_notes before (began w))) }
{}

//! Each pair of sockets of two hosts as a pipe, by the notes of their transcript alone.
ghost use Rattle.std.specs.Prelude.{List};
ghost use Rattle.ncp_transcript_two.specs.declared.note.Note.{Note};
ghost use Rattle.ncp_transcript_two.specs.Between.{Hosts};
ghost use Rattle.ncp_transcript_two.specs.Seen.{seen};
ghost use Rattle.ncp_transcript_two.specs.Transcript.{IsTranscript};
ghost use Rattle.ncp_proof_pipe.specs.Noted.{ArePipes, ArePipesWithReasons, TakenOnce};

use crate::transcripts::transcripts_are_pipes;
use ncp_pipe::pipes::each_bit_is_taken_once;
use ncp_pipe::sides::each_side_may_stop_as_its_account_says;

/// A side of a pipe stops without its own user's close only for a reason that its host has: it is
/// cut at most as often as the host was cleared while up, and leaves at most once for each CLS that
/// the host read for it.
pub fn each_stop_has_a_reason()
    // theorem: No pipe is cut at will. After every transcript of two hosts each pair is a pipe with a
    // run in which each side is cut at most as often as its host, while up, was cleared (by an
    // accepted reset, an RST read or going down), and leaves at most once for each CLS that its host
    // read for the pair.
    ensures { (ns : List Note) (w : Hosts) → IsTranscript ns w → ArePipesWithReasons (seen w) ns }
{
    transcripts_are_pipes();
    each_side_may_stop_as_its_account_says();
}

/// After every transcript of two hosts each pair of sockets is a pipe, in either direction: a run of
/// the pipe ends in the state of the two endpoints, and the steps of each side's user are its
/// accepted calls on that pair but interrupts, in order, by that host's notes.
pub fn each_pair_is_a_pipe()
    // theorem: Each pair of sockets is a pipe to its two users. After every transcript of two hosts,
    // for each pair in either direction, a run of the pipe ends in the state of the two endpoints,
    // and each user's steps in it are its accepted calls on the pair but interrupts, in order.
    ensures { (ns : List Note) (w : Hosts) → IsTranscript ns w → ArePipes (seen w) ns }
{
    each_stop_has_a_reason();
}

/// So each bit is taken once, ever: after every transcript of two hosts, the texts taken on the
/// successive connections of a pair are prefixes of texts given on successive ones, in the same
/// order.
pub fn each_bit_is_taken_once_ever()
    // theorem: Each bit is taken once, ever. After every transcript of two hosts, for each pair in
    // either direction: the texts that `take` returned on its successive connections are prefixes
    // of texts given on successive ones, in the same order.
    ensures { (ns : List Note) (w : Hosts) → IsTranscript ns w → TakenOnce ns }
{
    each_pair_is_a_pipe();
    each_bit_is_taken_once();
}

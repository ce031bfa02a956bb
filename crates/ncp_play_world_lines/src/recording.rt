//! The records of notes of two hosts, and of two to eight.
ghost use Rattle.std.specs.Prelude.{◌≡◌, ◌+◌, ◌≤◌, ◌||◌, is_err};
ghost use Rattle.ncp_play_buffer.specs.BufferedSinks.{SameOutlet, write_failed, write_budget, RendersOrBreaks};
ghost use Rattle.ncp_subnet.specs.Messages.{answer_bits};
ghost use Rattle.ncp_transcript_two.specs.Between.{other};
ghost use Rattle.ncp_play_stream.specs.Pieces.{lost_pieces};
ghost use Rattle.ncp_play_files.specs.Versions.{placed};
ghost use Rattle.ncp_play_world_lines.specs.Recorded.{host_number_of, kind_of_answer, recorded_from, came_to, bytes_if, note_bytes, many_note_bytes};

use ncp_bits::Bits;
use ncp_leader::{DESTINATION_DEAD, INCOMPLETE, Leader, MAX_KIND, RFNM, put_leader};
use ncp_play_buffer::BufferedSink;
use ncp_play_files::{CapturePoint, Direction, render_message};
use ncp_play_script::TwoHosts;
use ncp_play_stream::{Failed, Sink};
use ncp_transcript::HostNote;
use ncp_transcript_many::ManyNote;
use ncp_transcript_two::{Note, Side};
use ncp_wire::Answer;

// The other side.
fn other(side: Side) -> Side
    ensures { result ≡ other side }
{
    match side {
        Side::A => Side::B,
        Side::B => Side::A,
    }
}

// The number of a side's host.
fn number_of(hosts: TwoHosts, side: Side) -> u8
    ensures { result ≡ host_number_of hosts side }
{
    match side {
        Side::A => hosts.a,
        Side::B => hosts.b,
    }
}

// The type of an answer.
fn kind_of(answer: Answer) -> u8
    ensures kind { result ≡ kind_of_answer answer }
    ensures fits { result ≤ MAX_KIND }
{
    match answer {
        Answer::Rfnm => RFNM,
        Answer::Incomplete => INCOMPLETE,
        Answer::Dead => DESTINATION_DEAD,
    }
}

// An answer to a message to a host on a link, with the bits that the subnet gives.
#[tactic(auto, unfolding(ncp_subnet::specs::Messages::answer_bits))]
fn answer_bits(answer: Answer, peer: u8, link: u8) -> Bits
    ensures { result ≡ answer_bits (kind_of_answer answer) peer link }
{
    put_leader(&Leader {
        flags: 0,
        kind: kind_of(answer),
        host: peer,
        link,
        low: 0,
    })
}

// A capture point at the interface of a host.
fn capture_point_at(direction: Direction, host: u8) -> CapturePoint
    ensures { result ≡ placed direction host }
{
    CapturePoint {
        direction,
        at: Some(host),
    }
}

// Renders the message that a host sent, if any.
fn render_sent<W: Sink>(
    out: &mut BufferedSink<'_, W>,
    host: u8,
    note: &HostNote,
) -> Result<(), Failed>
    ensures output { RendersOrBreaks W.Sink out.old (bytes_if (recorded_from host note.now)) result out.new }
    ensures writes { write_budget W.Sink out.old ≤ write_budget W.Sink out.new + lost_pieces (is_err result) }
    ensures mark { write_failed W.Sink out.new ≡ (write_failed W.Sink out.old || is_err result) }
    ensures same_outlet { SameOutlet out.old out.new }
{
    match note {
        HostNote::Out { message } => render_message(
            out,
            capture_point_at(Direction::ToImp, host),
            &message.whole(),
        ),
        _ => Ok(()),
    }
}

// Renders the message or answer that a host received.
fn render_came<W: Sink>(
    out: &mut BufferedSink<'_, W>,
    host: u8,
    note: &HostNote,
) -> Result<(), Failed>
    ensures output { RendersOrBreaks W.Sink out.old (bytes_if (came_to host note.now)) result out.new }
    ensures writes { write_budget W.Sink out.old ≤ write_budget W.Sink out.new + lost_pieces (is_err result) }
    ensures mark { write_failed W.Sink out.new ≡ (write_failed W.Sink out.old || is_err result) }
    ensures same_outlet { SameOutlet out.old out.new }
{
    let capture_point = capture_point_at(Direction::FromImp, host);
    match note {
        HostNote::In { message, .. } => render_message(out, capture_point, &message.whole()),
        HostNote::Answered {
            peer,
            link,
            answer,
            ..
        } => render_message(
            out,
            capture_point,
            &answer_bits(*answer, *peer, *link).whole(),
        ),
        _ => Ok(()),
    }
}

/// Renders the record of a note of these hosts, if it has one: a message sent, at its sender; one
/// received, at its receiver, with the bits that arrived; an answer, at the host that receives it.
/// Appends it to the out buffer, and writes the buffer when it is full.
///
/// After a failed write a prefix of the rendered bytes is written. Does not allocate.
pub fn render_world_record<W: Sink>(
    out: &mut BufferedSink<'_, W>,
    hosts: TwoHosts,
    note: &Note,
) -> Result<(), Failed>
    ensures output { RendersOrBreaks W.Sink out.old (note_bytes hosts note.now) result out.new }
    ensures writes { write_budget W.Sink out.old ≤ write_budget W.Sink out.new + lost_pieces (is_err result) }
    ensures mark { write_failed W.Sink out.new ≡ (write_failed W.Sink out.old || is_err result) }
    ensures same_outlet { SameOutlet out.old out.new }
{
    match note {
        Note::Out { side, note } => render_sent(out, number_of(hosts, *side), note),
        Note::Came { side, note, .. } => render_came(out, number_of(hosts, other(*side)), note),
        Note::Answered { side, note, .. } => render_came(out, number_of(hosts, *side), note),
        _ => Ok(()),
    }
}

/// Renders the record of a note of two to eight hosts, if it has one, as [`render_world_record`]
/// does for two.
pub fn render_many_record<W: Sink>(
    out: &mut BufferedSink<'_, W>,
    note: &ManyNote,
) -> Result<(), Failed>
    ensures output { RendersOrBreaks W.Sink out.old (many_note_bytes note.now) result out.new }
    ensures writes { write_budget W.Sink out.old ≤ write_budget W.Sink out.new + lost_pieces (is_err result) }
    ensures mark { write_failed W.Sink out.new ≡ (write_failed W.Sink out.old || is_err result) }
    ensures same_outlet { SameOutlet out.old out.new }
{
    match note {
        ManyNote::Out { host, note } => render_sent(out, *host, note),
        ManyNote::Came { to, note, .. } => render_came(out, *to, note),
        ManyNote::Answered { from, note, .. } => render_came(out, *from, note),
        _ => Ok(()),
    }
}

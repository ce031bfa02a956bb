//! The lines of a record.
ghost use Rattle.std.specs.Prelude.{◌≡◌, ◌+◌, ◌≤◌, ◌||◌, ◌++◌, decimal, is_err};
ghost use Rattle.ncp_play_buffer.specs.BufferedSinks.{SameOutlet, write_failed, write_budget, RendersOrBreaks};
ghost use Rattle.ncp_play_files.specs.Lines.{capture_point_words, summary, is_regular_leader, record_lines};
ghost use Rattle.ncp_play_stream.specs.Pieces.{lost_pieces};

use crate::detail::render_details;
use crate::line::{MAX_LINE_LEN, push_first_line};
use crate::version::CapturePoint;
use ncp_bits::Part;
use ncp_leader::{Leader, REGULAR, Short, read_leader_in};
use ncp_play_buffer::{BufferedSink, Counter};
use ncp_play_stream::{Failed, Sink};

// Renders the first line of a record.
#[inline(always)]
fn render_first_line<W: Sink>(
    out: &mut BufferedSink<'_, W>,
    capture_point: CapturePoint,
    number: &Counter,
    leader: &Result<Leader, Short>,
) -> Result<(), Failed>
    ensures output { RendersOrBreaks W.Sink out.old (decimal number.now ++ capture_point_words capture_point ++ summary capture_point.direction leader.now) result out.new }
    ensures writes { write_budget W.Sink out.old ≤ write_budget W.Sink out.new + lost_pieces (is_err result) }
    ensures mark { write_failed W.Sink out.new ≡ (write_failed W.Sink out.old || is_err result) }
    ensures same_outlet { SameOutlet out.old out.new }
{
    out.make_room(MAX_LINE_LEN)?;
    push_first_line(out.page, capture_point, number, leader);
    Ok(())
}

/// Whether a message is of the type that has details.
pub(crate) fn has_details(leader: &Result<Leader, Short>) -> bool
    ensures { result ≡ is_regular_leader leader.now }
{
    match leader {
        Ok(leader) => leader.kind == REGULAR,
        Err(_) => false,
    }
}

/// Renders the lines of the record with this number.
// Inlined in the loop of `show`, where the compiler sees that a message begins with a byte.
#[inline(always)]
pub(crate) fn render_record<W: Sink>(
    out: &mut BufferedSink<'_, W>,
    capture_point: CapturePoint,
    number: &Counter,
    message: &Part<'_>,
) -> Result<(), Failed>
    ensures output { RendersOrBreaks W.Sink out.old (record_lines number.now (record { capture_point = capture_point; message = message.now })) result out.new }
    ensures writes { write_budget W.Sink out.old ≤ write_budget W.Sink out.new + lost_pieces (is_err result) }
    ensures mark { write_failed W.Sink out.new ≡ (write_failed W.Sink out.old || is_err result) }
    ensures same_outlet { SameOutlet out.old out.new }
{
    let leader = read_leader_in(message);
    render_first_line(out, capture_point, number, &leader)?;
    if has_details(&leader) {
        return render_details(out, message);
    }
    Ok(())
}

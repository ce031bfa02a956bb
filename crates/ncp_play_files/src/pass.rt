//! `Pass`: what a reader of message files does with each record, and at the end.
ghost use Rattle.std.specs.Prelude.{◌≡◌, ◌+◌, ◌≤◌, ◌||◌, true, false, is_err, OnOk};
ghost use Rattle.ncp_play_buffer.specs.BufferedSinks.{SameOutlet, write_failed, write_budget, RendersOrBreaks};
ghost use Rattle.ncp_play_stream.specs.Pieces.{lost_pieces};

use crate::version::{CapturePoint, Version};
use ncp_bits::Part;
use ncp_play_buffer::{BufferedSink, Counter};
use ncp_play_stream::{Failed, Sink};

/// How the reading of a message file ended.
#[derive(Clone, Copy, Debug, Drop, PartialEq, Eq)]
pub enum FileEnd {
    /// All its records were read.
    Whole,
    /// At a fault of the file.
    AtFault,
    /// A read failed.
    CutOff,
}

/// A pass through a message file: what is printed of each record, and at the end.
/// [`crate::pass_through`] reads a file and lets a pass print.
pub trait Pass {
    ghost use Rattle.ncp_play_files.specs.Passes.{PassRules};

    /// What is printed, by the state of the pass.
    ghost rules: { PassRules Self };

    /// Whether files of this version are read. The header of another version is a `BadHeader`.
    fn reads(version: Version) -> bool
        ensures { result ≡ rules.reads version };

    /// Whether all text is written before more of the file is waited for.
    fn is_prompt() -> bool
        ensures { result ≡ rules.is_prompt };

    /// Renders the text of the record with this number.
    fn record<W: Sink>(
        &mut self,
        out: &mut BufferedSink<'_, W>,
        capture_point: CapturePoint,
        number: &Counter,
        message: Part<'_>,
    ) -> Result<(), Failed>
        ensures output { RendersOrBreaks W.Sink out.old (rules.lines number.now (rules.state self.old) (record { capture_point = capture_point; message = message.entry })) result out.new }
        ensures state { OnOk result (rules.state self.new ≡ rules.after number.now (rules.state self.old) (record { capture_point = capture_point; message = message.entry })) }
        ensures closes { rules.closes (rules.state self.new) ≡ rules.closes (rules.state self.old) }
        ensures writes { write_budget W.Sink out.old ≤ write_budget W.Sink out.new + lost_pieces (is_err result) }
        ensures mark { write_failed W.Sink out.new ≡ (write_failed W.Sink out.old || is_err result) }
        ensures same_outlet { SameOutlet out.old out.new };

    /// Renders the text at the end.
    fn close<W: Sink>(&self, out: &mut BufferedSink<'_, W>, end: FileEnd) -> Result<(), Failed>
        ensures output { RendersOrBreaks W.Sink out.old (rules.closing (rules.state self.now) end) result out.new }
        ensures quiet { rules.closes (rules.state self.now) ≡ false
            → (is_err result ≡ false) × (out.new.page.now ≡ out.old.page.now) }
        ensures writes { write_budget W.Sink out.old ≤ write_budget W.Sink out.new + lost_pieces (is_err result) }
        ensures mark { write_failed W.Sink out.new ≡ (write_failed W.Sink out.old || is_err result) }
        ensures same_outlet { SameOutlet out.old out.new };

    /// The result at the end of the file.
    fn is_good(&self) -> bool
        ensures { result ≡ rules.good (rules.state self.now) };
}

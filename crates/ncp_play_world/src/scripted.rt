//! `Scripted`: hosts of a kind as scripts name them.
ghost use Rattle.std.specs.Prelude.{◌≡◌, ◌+◌, ◌≤◌, ◌<◌, ◌^◌, ◌||◌, [], ℕ, Bool, List, Option, length, is_err, IfOk, IfSome, OnErr};

use crate::log::Log;
use ncp_model::Pair;
use ncp_play_buffer::BufferedSink;
use ncp_play_script::Words;
use ncp_play_simulation::Simulation;
use ncp_play_stream::{Failed, Sink};
use ncp_play_world_lines::{Directive, FirstLine, ScriptNote, is_settle};
use ncp_world::{AnyHosts, Ledger, Recorded};
use std::alloc::{AllocError, Global};
use std::marker::PhantomData;

/// Hosts of a kind as scripts name them: in the first line, in the lines of events, and in notes.
pub trait Scripted: AnyHosts {
    ghost use Rattle.ncp_model.specs.declared.pair.Pair.{Pair as Sockets};
    ghost use Rattle.ncp_transcript_two.specs.Transcript.{Noted_hosts as Seen};
    ghost use Rattle.ncp_transcript_two.specs.declared.ledger.Ledger.{Ledger as Books};
    ghost use Rattle.ncp_play_buffer.specs.BufferedSinks.{SameOutlet, write_failed, write_budget, RendersOrBreaks};
    ghost use Rattle.ncp_play_stream.specs.Pieces.{lost_pieces};
    ghost use Rattle.ncp_play_script.specs.Calls.{NamesGiveAfter};
    ghost use Rattle.ncp_play_world_lines.specs.declared.first_line.FirstLine.{FirstLine as Read};

    /// The hosts that a first line names.
    type Named: Drop;

    /// How a sender to watch is named, besides its sockets: its side, or its host and its peer.
    type Sender: Copy + Drop;

    /// The first line, and the event of a later line, with these words.
    ghost first_named: { List (List ℕ) → Option (Read Self.Named Self.Sender) };

    ghost event_named: { Self.Named → List (List ℕ) → Option Self.Event };

    /// The hosts that a first line names, without notes.
    ghost begun: { Self.Named → Seen Self Self.Note };

    /// Whether a first line names valid hosts.
    ghost IsValid: { Self.Named → Type 0 };

    /// Whether a note is that of a refused call.
    ghost refused: { Self.Note → Bool };

    /// The lines of a note, by its number, and its record.
    ghost note_lines: { ℕ → Self.Note → List ℕ };

    ghost note_bytes: { Self.Named → Self.Note → List ℕ };

    /// The ledger of a sender.
    ghost ledger_at: { Self.Sender → Sockets → Self → Option Books };

    /// Parses a first line from all remaining words. If the words are no first line, it is
    /// unspecified which of them remain.
    fn first_of(words: &mut Words<'_>) -> Option<FirstLine<Self::Named, Self::Sender>>
        ensures first { result ≡ first_named words.old }
        ensures proper { IfSome result (λ first. IsValid first.hosts) };

    /// Parses the event of a line from all remaining words. Allocates only the text of a `give`. If
    /// the words name no event, it is unspecified which of them remain.
    fn event_of(
        alloc: Global,
        named: &Self::Named,
        words: &mut Words<'_>,
    ) -> Result<Option<Self::Event>, AllocError>
        ensures event { IfOk result (λ event. event ≡ event_named named.now words.old) }
        ensures memory { OnErr result (NamesGiveAfter words.old) };

    /// Creates the hosts of a first line, without notes.
    fn begin(alloc: Global, named: &Self::Named) -> Result<Recorded<Self>, AllocError>
        requires { IsValid named.now }
        ensures { IfOk result (λ hosts. hosts ≡ begun named.now) };

    /// Whether a note is that of a refused call.
    fn is_refusal(note: &Self::Note) -> bool
        ensures { result ≡ refused note.now };

    /// The number of notes, below 2^63 since each takes memory.
    fn count_of(notes: &[Self::Note]) -> usize
        ensures count { result ≡ length notes.now }
        ensures room { result < 2 ^ 63 };

    /// Renders the lines of a note.
    fn render_note<W: Sink>(
        out: &mut BufferedSink<'_, W>,
        number: u32,
        note: &Self::Note,
    ) -> Result<(), Failed>
        ensures output { RendersOrBreaks W.Sink out.old (note_lines number note.now) result out.new }
        ensures writes { write_budget W.Sink out.old ≤ write_budget W.Sink out.new + lost_pieces (is_err result) }
        ensures mark { write_failed W.Sink out.new ≡ (write_failed W.Sink out.old || is_err result) }
        ensures same_outlet { SameOutlet out.old out.new };

    /// Renders the record of a note, if it has one.
    fn render_record<W: Sink>(
        out: &mut BufferedSink<'_, W>,
        named: &Self::Named,
        note: &Self::Note,
    ) -> Result<(), Failed>
        ensures output { RendersOrBreaks W.Sink out.old (note_bytes named.now note.now) result out.new }
        ensures writes { write_budget W.Sink out.old ≤ write_budget W.Sink out.new + lost_pieces (is_err result) }
        ensures mark { write_failed W.Sink out.new ≡ (write_failed W.Sink out.old || is_err result) }
        ensures same_outlet { SameOutlet out.old out.new };

    /// The ledger of a sender.
    fn ledger(hosts: &Recorded<Self>, sender: Self::Sender, pair: Pair) -> Option<Ledger>
        ensures { result ≡ ledger_at sender pair hosts.now.hosts };

    /// New hosts have no notes. If the first line names valid hosts, that is a transcript of them.
    ghost begins_without: { (named : Self.Named) → (begun named).notes ≡ [] };

    ghost begins_well: { (named : Self.Named) → IsValid named → Self.kind.IsTranscript (begun named).notes (begun named).hosts };
}

/// Scripts of hosts of a kind. The word `settle` continues until only a call can cause an event.
pub struct HostsScript<H: Scripted> {
    hosts: PhantomData<H>,
}

impl<H: Scripted> Simulation for HostsScript<H> {
    ghost use Rattle.ncp_play_world.specs.HostsRules.{rules_of};
    ghost use Rattle.ncp_play_world.specs.HostsLaws.{run_of_none, one_trace};
    ghost use Rattle.std.specs.Prelude.{refl};

    type Hosts = Log<H>;

    type First = FirstLine<H::Named, H::Sender>;

    type Event = Directive<H::Event>;

    type Note = ScriptNote<H::Note>;

    ghost rules = { rules_of H.kind H.first_named (λ first. H.event_named first.hosts) (λ first. H.begun first.hosts) H.refused };

    ghost IsProper = { λ first. H.IsValid first.hosts };

    fn first_of(words: &mut Words<'_>) -> Option<FirstLine<H::Named, H::Sender>> {
        H::first_of(words)
    }

    fn event_of(
        alloc: Global,
        first: &FirstLine<H::Named, H::Sender>,
        words: &mut Words<'_>,
    ) -> Result<Option<Directive<H::Event>>, AllocError> {
        if is_settle(words) {
            return Ok(Some(Directive::Settle));
        }
        match H::event_of(alloc, &first.hosts, words)? {
            Some(event) => Ok(Some(Directive::Event(event))),
            None => Ok(None),
        }
    }

    fn begin(alloc: Global, first: &FirstLine<H::Named, H::Sender>) -> Result<Log<H>, AllocError> {
        let hosts = H::begin(alloc, &first.hosts)?;
        Ok(Log::new(alloc, hosts))
    }

    fn step(
        hosts: &mut Log<H>,
        deed: &Directive<H::Event>,
        left: usize,
    ) -> Result<bool, AllocError> {
        match deed {
            Directive::Event(event) => {
                hosts.step(event)?;
                Ok(false)
            }
            Directive::Settle => hosts.go_on(left),
        }
    }

    fn told(hosts: &Log<H>) -> usize {
        hosts.told()
    }

    fn any_refusal(hosts: &Log<H>) -> bool {
        hosts.any_refusal()
    }

    ghost noted_none = { λ first. refl };

    ghost run_none = { λ first proper. run_of_none H.kind (H.begun first.hosts) (H.begins_without first.hosts) (H.begins_well first.hosts proper) };

    ghost noted_one = { one_trace H.kind };
}

//! Hosts under a script.
ghost use Rattle.std.specs.Prelude.{◌≡◌, ◌<◌, ◌^◌, [], true, false, length, option_map, IfOk, OnErr, MatchOption};
ghost use Rattle.std.specs.List.{list_any};
ghost use Rattle.ncp_play_world_lines.specs.Settling.{trace_of};
ghost use Rattle.ncp_play_world_lines.specs.declared.settling.Directive.TheVariants as deeds;
ghost use Rattle.ncp_play_world.specs.Traces.{IsLast, position_of_line, is_trace_refusal};
ghost use Rattle.ncp_play_world.specs.HostsRules.{PartOf, IsRunOf};

use crate::marks::Marks;
use crate::scripted::Scripted;
use ncp_bits::BitStore;
use ncp_play_world_lines::{ScriptNote, Watch};
use ncp_world::{Ledger, Many, Network, Recorded, Sides, World};
use std::alloc::{AllocError, Global};
use std::marker::Model;

/// Hosts with their notes, and the positions of the word `settle` among these.
#[derive(Drop)]
pub struct Log<H: Scripted> {
    hosts: Recorded<H>,
    marks: Marks,
}

impl<H: Scripted> Model for Log<H> {
    ghost use Rattle.std.specs.Prelude.{◌≡◌, ◌+◌, length};
    ghost use Rattle.ncp_transcript_two.specs.Transcript.{Noted_hosts as Seen};
    ghost use Rattle.ncp_play_world.specs.Traces.{Staged, traces_of, notes_marked};

    ghost Value = { Staged (Seen H H.Note) H.Note };

    ghost view = { λ s. record { hosts = s.hosts; traces = traces_of s.hosts.notes s.marks.marks.items } };

    ghost invariant = { λ s. notes_marked s.marks.marks.items + s.marks.since ≡ length s.hosts.notes };
}

/// Two hosts under a script.
pub type WorldLog<S> = Log<Sides<S>>;

/// Two to eight hosts under a script.
pub type ManyLog<S> = Log<Network<S>>;

// Whether one of these notes is that of a refused call.
fn any_refusal<H: Scripted>(notes: &[H::Note]) -> bool
    ensures { result ≡ list_any H.refused notes.now }
{
    notes.iter().any(|note| H::is_refusal(note))
}

impl<H: Scripted> Log<H> {
    /// Hosts before their first event. They have no notes.
    pub(crate) fn new(alloc: Global, hosts: Recorded<H>) -> Log<H>
        requires { hosts.notes ≡ [] }
        ensures { result ≡ record { hosts = hosts; traces = [] } }
    {
        Log {
            hosts,
            marks: Marks::new(alloc),
        }
    }

    /// Performs one event. On `AllocError` nothing has happened.
    pub(crate) fn step(&mut self, event: &H::Event) -> Result<(), AllocError>
        ensures part { IfOk result (λ done. PartOf H.kind (deeds.Event event.now) 0 false self.old self.new) }
        ensures err { OnErr result (self.new ≡ self.old) }
    {
        self.hosts.happen(event)?;
        let _notes = self.hosts.transcript().len();
        self.marks.noted();
        Ok(())
    }

    /// Performs the next event of a word `settle`, after `left` of them, and returns true. If there
    /// is none, marks the end of the word and returns false. On `AllocError` nothing has happened.
    pub(crate) fn go_on(&mut self, left: usize) -> Result<bool, AllocError>
        ensures part { IfOk result (λ more. PartOf H.kind deeds.Settle left more self.old self.new) }
        ensures room { IfOk result (λ more. more ≡ true → length self.new.traces < 2 ^ 64) }
        ensures err { OnErr result (self.new ≡ self.old) }
    {
        if self.hosts.go_on_once()? {
            let _notes = H::count_of(self.hosts.transcript());
            let _words = self.marks.count();
            self.marks.noted();
            return Ok(true);
        }
        self.marks.settled(left)?;
        Ok(false)
    }

    /// The last script note: a note, or the number of events of a word `settle`.
    pub fn last(&self) -> Option<ScriptNote<&H::Note>>
        ensures { MatchOption result (self.now.traces ≡ []) (λ trace.
            IsLast (trace_of (λ note. note.now) trace) self.now.traces) }
    {
        match self.marks.last() {
            Some(many) => Some(ScriptNote::Settled(many)),
            None => {
                let note = self.hosts.transcript().last()?;
                Some(ScriptNote::Noted(note))
            }
        }
    }

    /// Whether a call was refused.
    pub(crate) fn any_refusal(&self) -> bool
        ensures refusal { result ≡ list_any (is_trace_refusal H.refused) self.now.traces }
        ensures run { IsRunOf H.kind self.now }
    {
        any_refusal::<H>(self.hosts.transcript())
    }

    /// The ledger of a sender to watch, if there is one.
    pub(crate) fn watched(&self, watch: Option<Watch<H::Sender>>) -> Option<Option<Ledger>>
        ensures { result ≡ option_map (λ it. H.ledger_at it.sender it.pair self.now.hosts.hosts) watch }
    {
        match watch {
            Some(it) => Some(H::ledger(&self.hosts, it.sender, it.pair)),
            None => None,
        }
    }

    /// The number of numbered lines so far: one for each event, and one for each word `settle`.
    pub fn told(&self) -> usize
        ensures { result ≡ length self.now.traces }
    {
        H::count_of(self.hosts.transcript()) + self.marks.count()
    }

    /// The index in the transcript of the event whose line has this number, counted from 1. None if
    /// there is no such line, or if it is that of a word `settle`.
    pub fn position_of(&self, number: usize) -> Option<usize>
        ensures { result ≡ position_of_line self.now.traces number }
    {
        self.marks.position_of(number.checked_sub(1)?)
    }
}

impl<S: BitStore> WorldLog<S> {
    /// The hosts, with the notes of all events.
    pub fn world(&self) -> &World<S>
        ensures { result.now ≡ self.now.hosts }
    {
        &self.hosts
    }
}

impl<S: BitStore> ManyLog<S> {
    /// The hosts, with the notes of all events.
    pub fn many(&self) -> &Many<S>
        ensures { result.now ≡ self.now.hosts }
    {
        &self.hosts
    }
}

//! `Simulation`: the hosts that a script plays.
ghost use Rattle.std.specs.Prelude.{◌≡◌, ◌++◌, ◌∷◌, ◌<◌, ◌^◌, [], ℕ, List, Bool, true, length, IfOk, IfSome, OnErr};

use ncp_play_script::Words;
use std::alloc::{AllocError, Global};

/// The hosts that a script plays, with their notes. It creates them from a first line, parses the
/// events of following lines, and performs these.
pub trait Simulation {
    ghost use Rattle.ncp_play_script.specs.Calls.{NamesGiveAfter};
    ghost use Rattle.ncp_play_simulation.specs.Rules.{Rules, any_refusal};

    /// The hosts, with their notes.
    type Hosts: Drop;

    /// A parsed first line.
    type First: Drop;

    /// The event of a following line.
    type Event: Drop;

    /// The note that a part of an event leaves.
    type Note;

    /// The meaning of lines, and the effects of events.
    ghost rules: { Rules Self.First Self.Event Self.Note Self.Hosts };

    /// Whether a first line names valid hosts.
    ghost IsProper: { Self.First → Type 0 };

    /// Parses a first line from all remaining words. If the words are no first line, it is
    /// unspecified which of them remain.
    fn first_of(words: &mut Words<'_>) -> Option<Self::First>
        ensures first { result ≡ rules.first words.old }
        ensures proper { IfSome result IsProper };

    /// Parses the event of a line from all remaining words. Allocates only the text of a `give`. If
    /// the words name no event, it is unspecified which of them remain.
    fn event_of(
        alloc: Global,
        first: &Self::First,
        words: &mut Words<'_>,
    ) -> Result<Option<Self::Event>, AllocError>
        ensures event { IfOk result (λ event. event ≡ rules.reads first.now words.old) }
        ensures memory { OnErr result (NamesGiveAfter words.old) };

    /// Creates the hosts of a first line, without notes.
    fn begin(alloc: Global, first: &Self::First) -> Result<Self::Hosts, AllocError>
        requires { IsProper first.now }
        ensures { IfOk result (λ hosts. hosts ≡ rules.begun first.now) };

    /// Performs the next part of an event that has left `left` notes so far: it leaves one more
    /// note. Returns whether the event has further parts; if so, the number of notes fits `usize`.
    /// On `AllocError` nothing has happened.
    fn step(hosts: &mut Self::Hosts, event: &Self::Event, left: usize) -> Result<bool, AllocError>
        ensures part { IfOk result (λ more. rules.Part event.now left more hosts.old hosts.new) }
        ensures room { IfOk result (λ more. more ≡ true → length (rules.notes hosts.new) < 2 ^ 64) }
        ensures err { OnErr result (hosts.new ≡ hosts.old) };

    /// The number of notes.
    fn told(hosts: &Self::Hosts) -> usize
        ensures { result ≡ length (rules.notes hosts.now) };

    /// Whether any call was refused.
    fn any_refusal(hosts: &Self::Hosts) -> bool
        ensures refusal { result ≡ any_refusal rules (rules.notes hosts.now) }
        ensures run { rules.IsRun hosts.now };

    /// New hosts have no notes. If the first line names valid hosts, that is a transcript of them.
    ghost noted_none: { (first : Self.First) → rules.notes (rules.begun first) ≡ [] };

    ghost run_none: { (first : Self.First) → IsProper first → rules.IsRun (rules.begun first) };

    /// A part of an event leaves exactly one note.
    ghost noted_one: { (event : Self.Event) (left : ℕ) (more : Bool) (before now : Self.Hosts) → rules.Part event left more before now
        → (note : Self.Note) × (rules.notes now ≡ rules.notes before ++ note ∷ []) × (now ≡ rules.after note before) };
}

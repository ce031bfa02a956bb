//! `AnyHosts`: what two hosts and many have in common.
ghost use Rattle.std.specs.Prelude.{◌≡◌, ◌≤◌, ◌<◌, ◌++◌, ◌∷◌, [], ℕ, Bool, List, true, not, Some, None, is_some, length, slice_get, IfOk, IfSome, IfNone, OnErr};
ghost use Rattle.ncp_wire.specs.declared.links.TheConstants.{LAST_LINK};
ghost use Rattle.ncp_subnet.specs.Transit.{is_accepted, answer_kind};

use std::alloc::{AllocError, Global};

/// Hosts and the subnet between them: two, which events and notes name by their sides, or two to
/// eight by their numbers.
pub trait AnyHosts: Drop {
    ghost use Rattle.ncp_transcript_two.specs.Transcript.{Noted_hosts};
    ghost use Rattle.ncp_world.specs.Kinds.{Kind, IsTriedOf, WouldReportNothing, AreTwoAt, GoOnce};
    ghost use Rattle.ncp_world.specs.Lowest.{lowest_kept};

    /// The name of a host.
    type Name: Copy;

    /// An event.
    type Event: Drop;

    /// The note of an event.
    type Note: Drop;

    /// Their names, events and notes.
    ghost kind: { Kind Self.Name Self.Event Self.Note Self };

    /// Performs an event, and returns its note.
    fn happen(&mut self, alloc: Global, event: &Self::Event) -> Result<Self::Note, AllocError>
        ensures note { IfOk result (λ note. kind.Noted event.now note self.old) }
        ensures hosts { IfOk result (λ note. self.new ≡ kind.after note self.old) }
        ensures err { OnErr result (self.new ≡ self.old) };

    /// Whether a note reports nothing: no link was ready, or the event was impossible.
    fn reports_nothing(note: &Self::Note) -> bool
        ensures { result ≡ kind.reports_nothing note.now };

    /// The number of hosts.
    fn count(&self) -> usize
        ensures { result ≡ length (kind.names self.now) };

    /// The name of the host at an index.
    fn name_at(&self, place: usize) -> Self::Name
        requires { place < length (kind.names self.now) }
        ensures { slice_get (kind.names self.now) place ≡ Some result };

    /// The lowest link on which a host keeps a message for another.
    fn first_kept(&self, from: Self::Name, to: Self::Name) -> Option<u8>
        ensures some { IfSome result (λ link. is_some (kind.kept from to self.now link) ≡ true) }
        ensures none { IfNone result ((link : ℕ) → link ≤ LAST_LINK → kind.kept from to self.now link ≡ None) }
        ensures lowest { result ≡ lowest_kept (kind.kept from to self.now) };

    /// The event that asks a host for its next message.
    fn out(from: Self::Name) -> Self::Event
        ensures { result ≡ kind.out from };

    /// The event that delivers the message of a link.
    fn deliver(from: Self::Name, to: Self::Name, link: u8) -> Self::Event
        ensures { result ≡ kind.deliver from to link };

    /// The event that returns the answer to the message of a link.
    fn answer(from: Self::Name, to: Self::Name, link: u8) -> Self::Event
        ensures { result ≡ kind.answer from to link };

    /// The event that wakes the messages that a host holds for another.
    fn wake(&self, from: Self::Name, to: Self::Name) -> Self::Event
        ensures { result ≡ kind.wake from to self.now };

    /// A note that reports nothing changes nothing.
    ghost leaves_all: { (note : Self.Note) (h : Self) → kind.reports_nothing note ≡ true → kind.after note h ≡ h };

    /// A transcript with the note of one more event is one.
    ghost grows: { (notes : List Self.Note) (h : Self) (event : Self.Event) (note : Self.Note) → kind.IsTranscript notes h → kind.Noted event note h → kind.IsTranscript (notes ++ note ∷ []) (kind.after note h) };

    /// The note of an output reports nothing exactly if the host has no message; that of a delivery
    /// or an answer, exactly if the subnet has none that may arrive, or none with an answer.
    ghost out_says: { (i : ℕ) (from : Self.Name) (note : Self.Note) (h : Self) → slice_get (kind.names h) i ≡ Some from → kind.Noted (kind.out from) note h → kind.reports_nothing note ≡ not (kind.ready from h) };

    ghost deliver_says: { (i j link : ℕ) (from to : Self.Name) (notes : List Self.Note) (note : Self.Note) (h : Self) → kind.IsTranscript notes h → AreTwoAt kind i j from to h → kind.Noted (kind.deliver from to link) note h
        → kind.reports_nothing note ≡ not (is_accepted (kind.transit from to h link)) };

    ghost answer_says: { (i j link : ℕ) (from to : Self.Name) (notes : List Self.Note) (note : Self.Note) (h : Self) → kind.IsTranscript notes h → AreTwoAt kind i j from to h → kind.Noted (kind.answer from to link) note h
        → kind.reports_nothing note ≡ not (is_some (answer_kind (kind.transit from to h link))) };

    /// What is sent, delivered or answered needs no user.
    ghost out_goes: { (from : Self.Name) (before now : Noted_hosts Self Self.Note) → IsTriedOf kind (kind.out from) true before now → GoOnce kind before now };

    ghost deliver_goes: { (from to : Self.Name) (link : ℕ) (before now : Noted_hosts Self Self.Note) → IsTriedOf kind (kind.deliver from to link) true before now → GoOnce kind before now };

    ghost answer_goes: { (from to : Self.Name) (link : ℕ) (before now : Noted_hosts Self Self.Note) → IsTriedOf kind (kind.answer from to link) true before now → GoOnce kind before now };

    /// If no message is ready, one that is kept and can neither be delivered nor answered is
    /// held, so it can be woken. If none is kept, all is still.
    ghost wake_goes: { (i j link : ℕ) (from to : Self.Name) (tried : Bool) (before now : Noted_hosts Self Self.Note) → kind.IsTranscript before.notes before.hosts → AreTwoAt kind i j from to before.hosts → WouldReportNothing kind (kind.out from) before.hosts
        → is_some (kind.kept from to before.hosts link) ≡ true → WouldReportNothing kind (kind.deliver from to link) before.hosts → WouldReportNothing kind (kind.answer from to link) before.hosts
        → IsTriedOf kind (kind.wake from to before.hosts) tried before now → (tried ≡ true) × GoOnce kind before now };

    ghost rests: { (i j : ℕ) (from to : Self.Name) (notes : List Self.Note) (h : Self) → kind.IsTranscript notes h → AreTwoAt kind i j from to h → WouldReportNothing kind (kind.out from) h
        → ((link : ℕ) → link ≤ LAST_LINK → kind.kept from to h link ≡ None) → kind.IsStill from to h };

    /// If all is still between any two, only a call can cause an event.
    ghost settles: { (h : Self) → ((i j : ℕ) (from to : Self.Name) → AreTwoAt kind i j from to h → kind.IsStill from to h) → kind.IsSettled h };

    /// Hosts that performed no event have gone on, and after one more they have gone on still.
    ghost goes_by_none: { (before : Noted_hosts Self Self.Note) → kind.GoesOn before before };

    ghost goes_further: { (before next now : Noted_hosts Self Self.Note) → kind.GoesOn before next → GoOnce kind next now → kind.GoesOn before now };
}

//! `Many`.
ghost use Rattle.std.specs.Prelude.{◌≡◌, ◌+◌, true, false, None, length, IfOk, IfErr, IfSome, OnOk, OnErr, Err};
ghost use Rattle.std.specs.Option.{is_some, option_copied};
ghost use Rattle.ncp_transcript_two.specs.declared.side.Side.TheVariants.{A};
ghost use Rattle.ncp_transcript_two.specs.Ledgers.{IsBalanced};
ghost use Rattle.ncp_transcript_two.specs.Seen.{seen};
ghost use Rattle.ncp_transcript_two.specs.OfRules.{histories_of};
ghost use Rattle.ncp_proof_promises.specs.Taking.{IsTaken};
ghost use Rattle.ncp_transcript_many.specs.Numbered.{thing_in};
ghost use Rattle.ncp_transcript_many.specs.Network.{is_there, are_hosts, new_network, between, after_many_notes};
ghost use Rattle.ncp_transcript_many.specs.ManyTranscript.{new_many, IsManyStep, AreManyNotes, IsManyTranscript};
ghost use Rattle.ncp_transcript_many.specs.Pairs.{notes_between, ForEachTwo};
ghost use Rattle.ncp_transcript_many.specs.NotesOfTwo.{ForEachNoteOfTwo};
ghost use Rattle.ncp_proof_quiescence.specs.NotesWork.{MovesAreBounded};
ghost use Rattle.ncp_proof_quiescence.specs.Settled.{AreFinished, EndsFinished};
ghost use Rattle.ncp_proof_statement.specs.EachTwo.{HeadlineOfEachTwo};
ghost use Rattle.ncp_proof_recovery.specs.ManySettling.{AreSettled, ManyGoOrRest, ManyGoOn, AreWithinWork};
ghost use Rattle.ncp_world.specs.ManyKind.{many_kind};
ghost use Rattle.ncp_world.specs.Next.{next_by_itself, GoesNext, RunsOn};
ghost use Rattle.ncp_world.specs.Booked.{IsBooked};
ghost use Rattle.ncp_world.specs.ManyLedgers.{many_ledger};

use crate::many_fault::ManyFault;
use crate::network::{Network, are_hosts};
use crate::recorded::Recorded;
use ncp_bits::BitStore;
use ncp_host::{Host, Pair};
use ncp_proof_recovery::many::what_moves_between_two_of_many_is_bounded;
use ncp_proof_recovery::settling::what_happens_among_many_is_within_the_work;
use ncp_proof_statement::each_pair::each_pair_keeps_the_page;
use ncp_transcript_many::ManyEvent;
use ncp_transcript_many::taking::what_goes_out_of_each_of_many_is_taken;
use ncp_transcript_two::Ledger;
use std::alloc::{AllocError, Global};

/// Two to eight hosts and the subnet between them, with their transcript: one note for each event,
/// in order.
///
/// A note takes at most [`crate::MANY_NOTE_BYTES`] bytes, besides those of its message, of the ERRs
/// that were read, or of the text of a call at a host that does not exist.
pub type Many<S> = Recorded<Network<S>>;

impl<S: BitStore> Many<S> {
    /// Creates hosts with these numbers, each with the others as its peers, in this order, and
    /// without notes.
    ///
    /// Refused, in this order: `BadHosts` (not two to [`crate::MAX_HOSTS`], or not distinct),
    /// `OutOfMemory`. The subnet allocates room for 256 messages from each host to each other.
    pub fn new(alloc: Global, hosts: &[u8]) -> Result<Many<S>, ManyFault>
        ensures many { IfOk result (λ many. many ≡ new_many hosts.now) }
        ensures headline { IfOk result (λ many. HeadlineOfEachTwo many.notes many.hosts) }
        ensures run { IfOk result (λ many. IsManyTranscript many.notes many.hosts) }
        ensures good { IfOk result (λ _. are_hosts hosts.now ≡ true) }
        ensures bad { are_hosts hosts.now ≡ false → result ≡ Err ManyFault.BadHosts }
        ensures full { are_hosts hosts.now ≡ true → IfErr result (λ fault. fault ≡ ManyFault.OutOfMemory) }
    {
        if !are_hosts(hosts) {
            return Err(ManyFault::BadHosts);
        }
        let network = Network::new(alloc, hosts)?;
        each_pair_keeps_the_page();
        Ok(Recorded::of(alloc, network))
    }

    // A lemma: this transcript has the properties of every transcript of many hosts.
    fn keeps(&self)
        ensures headline { HeadlineOfEachTwo self.now.notes self.now.hosts }
        ensures taken { ForEachNoteOfTwo IsTaken self.now.notes self.now.hosts }
        ensures within_budget { ForEachTwo MovesAreBounded self.now.notes self.now.hosts }
        ensures finished { ForEachTwo EndsFinished self.now.notes self.now.hosts }
        ensures run { IsManyTranscript self.now.notes self.now.hosts }
    {
        let _notes = self.transcript();
        each_pair_keeps_the_page();
        what_goes_out_of_each_of_many_is_taken();
        what_moves_between_two_of_many_is_bounded();
    }

    /// Performs one event and appends its note to the transcript. If a host of the event does not
    /// exist, or the sender and the destination are the same, the note is Nothing.
    ///
    /// On `AllocError` nothing has happened; retry with the same event. Takes amortised constant
    /// time besides the host's own work.
    ///
    /// The clauses `step` and `err` define the effect. In both cases these hold, for each two of
    /// the hosts:
    ///
    /// - `headline`: the headline, about only the notes that name both.
    /// - `taken`: the subnet accepted each message sent between them.
    /// - `within_budget`: the message events between them so far and those that they can still
    ///   cause are bounded by their own users' calls, and by the losses and dead destinations
    ///   between them.
    /// - `finished`: if no message between them is ready, in transit or held, they are finished.
    ///
    /// And `run`: the notes are a transcript of the hosts, so all theorems about transcripts of
    /// many apply. The notes that name two hosts are a transcript of two; the phrases of the
    /// headline hold for the two as they are among all (`each_pair` of `ncp_transcript_many`), and
    /// each host's own notes are a transcript of a single host (`transcripts` there).
    pub fn step(&mut self, event: &ManyEvent) -> Result<(), AllocError>
        ensures step { OnOk result (IsManyStep event.now self.old self.new) }
        ensures err { OnErr result (self.new ≡ self.old) }
        // theorem: For each two of two to eight of these hosts with the subnet between them, the
        // headline of two hosts holds for the notes that name both, regardless of the events at and
        // between the others and of their order.
        ensures headline { HeadlineOfEachTwo self.new.notes self.new.hosts }
        ensures taken { ForEachNoteOfTwo IsTaken self.new.notes self.new.hosts }
        ensures within_budget { ForEachTwo MovesAreBounded self.new.notes self.new.hosts }
        ensures finished { ForEachTwo EndsFinished self.new.notes self.new.hosts }
        ensures run { IsManyTranscript self.new.notes self.new.hosts }
    {
        let noted = self.happen(event);
        self.keeps();
        noted
    }

    /// Performs one event that needs no user, and appends its note: a message is sent, delivered or
    /// answered, or held messages are woken. If there is no such event, returns `false` and nothing
    /// has happened: all is settled.
    ///
    /// The hosts are tried in their order. A host is asked for its next message. If none is ready,
    /// the other hosts are tried in order as its peer: the message to the peer on the lowest link
    /// that keeps one is delivered; or answered, if it has arrived or will not arrive; or, if it is
    /// held, the held messages to the peer are woken. Besides the event's own cost it reads each
    /// link of all hosts, and it allocates as [`Many::step`] does: on `AllocError` nothing has
    /// happened.
    ///
    /// All guarantees of [`Many::step`] hold.
    pub fn go_on(&mut self) -> Result<bool, AllocError>
        ensures on { IfOk result (λ more. ManyGoOrRest more self.old self.new) }
        ensures next { IfOk result (λ more. GoesNext many_kind more self.old self.new) }
        ensures err { OnErr result (self.new ≡ self.old) }
        ensures headline { HeadlineOfEachTwo self.new.notes self.new.hosts }
        ensures taken { ForEachNoteOfTwo IsTaken self.new.notes self.new.hosts }
        ensures within_budget { ForEachTwo MovesAreBounded self.new.notes self.new.hosts }
        ensures finished { ForEachTwo EndsFinished self.new.notes self.new.hosts }
        ensures run { IsManyTranscript self.new.notes self.new.hosts }
    {
        let more = self.go_on_once();
        self.keeps();
        more
    }

    /// Performs events as [`Many::go_on`] does until only a call can follow, and returns their
    /// number.
    ///
    /// Messages are sent, delivered and answered, and held messages are woken; no message is lost,
    /// and no call is made except wakes. Each event is noted as in [`Many::step`] (`made`). Between
    /// each two hosts their number is at most the work that was left between the two, which the
    /// earlier calls, losses and dead destinations between them bound (`within`). At the end no
    /// message is ready, in transit or held (`settled`), and all is finished between each two: an
    /// open connection waits only for its user (`finished`). Each event is the next one in the order
    /// of [`Many::go_on`] (`next`), and at the end there is none (`last`). So, if it returns `Ok`,
    /// the hosts and the notes afterwards are a function of those before
    /// (`laws::settling_is_a_function`).
    ///
    /// The transcript grows with each event. On `AllocError` some events have happened, each
    /// completely; call again for the rest. All guarantees of [`Many::step`] hold in both cases.
    pub fn settle(&mut self) -> Result<usize, AllocError>
        ensures made { ManyGoOn self.old self.new }
        ensures next { RunsOn many_kind self.old self.new }
        ensures last { OnOk result (next_by_itself many_kind self.new.hosts ≡ None) }
        ensures many { IfOk result (λ many. length self.new.notes ≡ length self.old.notes + many) }
        ensures within { AreWithinWork self.old self.new }
        ensures settled { OnOk result (AreSettled self.new.hosts) }
        ensures headline { HeadlineOfEachTwo self.new.notes self.new.hosts }
        ensures taken { ForEachNoteOfTwo IsTaken self.new.notes self.new.hosts }
        ensures within_budget { ForEachTwo MovesAreBounded self.new.notes self.new.hosts }
        ensures finished { OnOk result (ForEachTwo (λ notes hosts. AreFinished (seen hosts) (histories_of notes hosts)) self.new.notes self.new.hosts) }
        ensures run { IsManyTranscript self.new.notes self.new.hosts }
    {
        let before = self.transcript().len();
        let gone_on = self.go_on_to_the_end();
        self.keeps();
        what_happens_among_many_is_within_the_work();
        gone_on?;
        Ok(self.transcript().len() - before)
    }

    /// The host with a number. `None` exactly when it does not exist.
    pub fn host(&self, number: u8) -> Option<&Host<S>>
        ensures host { option_copied result ≡ thing_in self.now.hosts.hosts number }
        ensures there { is_some result ≡ is_there number self.now.hosts }
    {
        self.hosts.host(number)
    }

    /// Returns the outstanding amount of an open connection, and the parts that add up to it: it
    /// sends from one host to another, and the pair is the sender's. `None` if one of the two hosts
    /// does not exist, if both are the same, if the local socket is even, or if one of the two
    /// endpoints is not open. Does not allocate.
    pub fn ledger(&self, from: u8, to: u8, pair: Pair) -> Option<Ledger>
        ensures ledger { result ≡ many_ledger from to pair self.now.hosts }
        ensures balanced { IfSome result IsBalanced }
        ensures booked { IfSome result (IsBooked A pair (notes_between from to self.now.notes) (between from to self.now.hosts)) }
    {
        self.hosts.ledger(from, to, pair)
    }

    /// Creates hosts with these numbers, and performs these events. The clauses hold for each two
    /// hosts as after [`Many::step`].
    ///
    /// Refused, in this order: `BadHosts`, as in [`Many::new`], and `OutOfMemory`, also if an event
    /// fails to allocate.
    pub fn run(alloc: Global, hosts: &[u8], events: &[ManyEvent]) -> Result<Many<S>, ManyFault>
        ensures good { IfOk result (λ _. are_hosts hosts.now ≡ true) }
        ensures bad { are_hosts hosts.now ≡ false → result ≡ Err ManyFault.BadHosts }
        ensures full { are_hosts hosts.now ≡ true → IfErr result (λ fault. fault ≡ ManyFault.OutOfMemory) }
        ensures notes { IfOk result (λ many. AreManyNotes events.now many.notes (new_network hosts.now)) }
        ensures hosts { IfOk result (λ many. many.hosts ≡ after_many_notes many.notes (new_network hosts.now)) }
        ensures headline { IfOk result (λ many. HeadlineOfEachTwo many.notes many.hosts) }
        ensures taken { IfOk result (λ many. ForEachNoteOfTwo IsTaken many.notes many.hosts) }
        ensures within_budget { IfOk result (λ many. ForEachTwo MovesAreBounded many.notes many.hosts) }
        ensures finished { IfOk result (λ many. ForEachTwo EndsFinished many.notes many.hosts) }
        ensures run { IfOk result (λ many. IsManyTranscript many.notes many.hosts) }
    {
        let mut many = Many::new(alloc, hosts)?;
        for event in events {
            many.happen(event)?;
        }
        many.keeps();
        Ok(many)
    }
}

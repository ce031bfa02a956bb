//! `World`.
ghost use Rattle.std.specs.Prelude.{◌≡◌, ◌≢◌, ◌+◌, None, length, IfOk, IfSome, OnOk, OnErr};
ghost use Rattle.ncp_transcript_two.specs.Between.{new_hosts, host_of, hosts_after_notes};
ghost use Rattle.ncp_transcript_two.specs.Ledgers.{ledger_of, IsBalanced};
ghost use Rattle.ncp_transcript_two.specs.Seen.{seen};
ghost use Rattle.ncp_transcript_two.specs.OfRules.{histories_of};
ghost use Rattle.ncp_transcript_two.specs.Transcript.{new_world, IsStep, AreNotes, IsTranscript};
ghost use Rattle.ncp_proof_promises.specs.Taking.{EveryOutputAccepted};
ghost use Rattle.ncp_statement.specs.Statement.{Headline};
ghost use Rattle.ncp_proof_quiescence.specs.NotesWork.{MovesAreBounded};
ghost use Rattle.ncp_proof_quiescence.specs.Settled.{IsSettled, AreFinished, EndsFinished};
ghost use Rattle.ncp_proof_quiescence.specs.Settling.{GoesOrQuiescent, GoesOn, IsWithinWork};
ghost use Rattle.ncp_world.specs.TwoKind.{two_kind};
ghost use Rattle.ncp_world.specs.Next.{next_by_itself, GoesNext, RunsOn};
ghost use Rattle.ncp_world.specs.Booked.{IsBooked};

use crate::recorded::Recorded;
use crate::sides::Sides;
use ncp_bits::BitStore;
use ncp_host::{Host, Pair};
use ncp_proof_promises::taking::each_output_is_accepted_after_its_note;
use ncp_proof_quiescence::notes::moves_are_bounded;
use ncp_proof_quiescence::settled::where_nothing_can_happen_two_are_finished;
use ncp_proof_quiescence::settling::what_happens_by_itself_is_within_the_work;
use ncp_proof_statement::headline::transcripts_keep_the_page;
use ncp_transcript_two::{Event, Ledger, Side};
use std::alloc::{AllocError, Global};

/// Two hosts and the subnet between them, with their transcript: one note for each event, in order.
///
/// A note takes at most [`crate::NOTE_BYTES`] bytes, besides those of its message or of the ERRs
/// that were read.
pub type World<S> = Recorded<Sides<S>>;

impl<S: BitStore> World<S> {
    /// Creates a world of two hosts with these distinct numbers, each with the other as its peer,
    /// and without notes.
    pub fn new(alloc: Global, a: u8, b: u8) -> Result<World<S>, AllocError>
        requires { a ≢ b }
        ensures world { IfOk result (λ world. world ≡ new_world a b) }
        ensures headline { IfOk result (λ world. Headline a b world.notes) }
        ensures run { IfOk result (λ world. IsTranscript world.notes world.hosts) }
    {
        let hosts = Sides::new(alloc, a, b)?;
        transcripts_keep_the_page();
        Ok(Recorded::of(alloc, hosts))
    }

    // A lemma: this transcript has the properties of every transcript.
    fn keeps(&self)
        ensures headline { Headline self.now.hosts.number_a self.now.hosts.number_b self.now.notes }
        ensures taken { EveryOutputAccepted self.now.notes self.now.hosts }
        ensures within_budget { MovesAreBounded self.now.notes self.now.hosts }
        ensures finished { EndsFinished self.now.notes self.now.hosts }
        ensures run { IsTranscript self.now.notes self.now.hosts }
    {
        let _notes = self.transcript();
        transcripts_keep_the_page();
        each_output_is_accepted_after_its_note();
        moves_are_bounded();
        where_nothing_can_happen_two_are_finished();
    }

    /// Performs one event and appends its note to the transcript.
    ///
    /// On `AllocError` nothing has happened; retry with the same event. Takes amortised constant
    /// time besides the host's own work.
    ///
    /// The clauses `step` and `err` define the effect. In both cases these hold:
    ///
    /// - `headline`: the headline, about the notes alone, at either host, for each pair.
    /// - `taken`: the subnet accepted each sent message.
    /// - `within_budget`: the message events so far and those that the hosts can still cause are
    ///   bounded by the users' calls, the losses and the dead destinations.
    /// - `finished`: if no message is ready, in transit or held, all is finished.
    /// - `run`: the notes are a transcript of the hosts, so all theorems about transcripts apply:
    ///   each phrase of the headline about the hosts, too (`the_headline` of `ncp_proof_promises`),
    ///   and its parts (`promises` there).
    pub fn step(&mut self, event: &Event) -> Result<(), AllocError>
        ensures step { OnOk result (IsStep event.now self.old self.new) }
        ensures err { OnErr result (self.new ≡ self.old) }
        // theorem: For two of these hosts with `Subnet` between them, by the notes of all events
        // since they were new, in any order: whenever `take` returns, the bits taken since the last
        // ask are a prefix of the bits given by then at the other host, since an ask there; never
        // more bits are taken than were allocated since that ask; each message arrived once, whole,
        // before its RFNM, or did not arrive and got another answer (the last on a link may be
        // unanswered); the messages that arrived on a link are a prefix of those sent there, at
        // most one shorter, with a message and its retransmissions counted once; the subnet
        // accepted each message sent, and made each move that was possible; each control message
        // that arrived was read to its last command; no control message sent has an ERR; and no
        // text arrived over its allocation, in bytes of the wrong size, or for a connection that is
        // not open.
        ensures headline { Headline self.new.hosts.number_a self.new.hosts.number_b self.new.notes }
        ensures taken { EveryOutputAccepted self.new.notes self.new.hosts }
        // theorem: The moves of two hosts so far (messages sent, delivered, lost, sent to a dead
        // destination, or answered) and the work that is left are together at most what the
        // accepted calls, the losses and the dead destinations allow. So without further ones the
        // number of moves that can follow is bounded, in any order.
        ensures within_budget { MovesAreBounded self.new.notes self.new.hosts }
        // theorem: If no message of two hosts is ready, in transit or held, they are finished: no
        // command is queued, and no RST or RRP is wanted, owed or awaited. If both are up, each
        // pair has no endpoints, or was asked for by one side alone, or is open with all given bits
        // got except those that cannot be sent yet, or has a receiver that holds text and whose
        // sender has made its CLS.
        ensures finished { EndsFinished self.new.notes self.new.hosts }
        ensures run { IsTranscript self.new.notes self.new.hosts }
    {
        let noted = self.happen(event);
        self.keeps();
        noted
    }

    /// Performs one event that needs no user, and appends its note: a message is sent, delivered or
    /// answered, or held messages are woken. If there is no such event, returns `false` and nothing
    /// has happened: all is settled.
    ///
    /// Side A is tried first, then side B. The host of a side is asked for its next message. If
    /// none is ready, the message on the lowest link that keeps one is delivered; or answered, if
    /// it has arrived or will not arrive; or, if it is held, the held messages of the side are
    /// woken. Besides the event's own cost it reads each link of both hosts, and it allocates as
    /// [`World::step`] does: on `AllocError` nothing has happened.
    ///
    /// All guarantees of [`World::step`] hold.
    pub fn go_on(&mut self) -> Result<bool, AllocError>
        ensures on { IfOk result (λ more. GoesOrQuiescent more self.old self.new) }
        ensures next { IfOk result (λ more. GoesNext two_kind more self.old self.new) }
        ensures err { OnErr result (self.new ≡ self.old) }
        ensures headline { Headline self.new.hosts.number_a self.new.hosts.number_b self.new.notes }
        ensures taken { EveryOutputAccepted self.new.notes self.new.hosts }
        ensures within_budget { MovesAreBounded self.new.notes self.new.hosts }
        ensures finished { EndsFinished self.new.notes self.new.hosts }
        ensures run { IsTranscript self.new.notes self.new.hosts }
    {
        let more = self.go_on_once();
        self.keeps();
        more
    }

    /// Performs events as [`World::go_on`] does until only a call can follow, and returns their
    /// number.
    ///
    /// Messages are sent, delivered and answered, and held messages are woken; no message is lost,
    /// and no call is made except wakes. Each event is noted as in [`World::step`] (`made`). Their
    /// number is at most the work that was left, which the earlier calls, losses and dead
    /// destinations bound (`within`). At the end no message is ready, in transit or held
    /// (`settled`), and all is finished: an open connection waits only for its user (`finished`).
    /// Each event is the next one in the order of [`World::go_on`] (`next`), and at the end there is
    /// none (`last`). So, if it returns `Ok`, the hosts and the notes afterwards are a function of
    /// those before (`laws::settling_is_a_function`).
    ///
    /// The transcript grows with each event. On `AllocError` some events have happened, each
    /// completely; call again for the rest. All guarantees of [`World::step`] hold in both cases.
    pub fn settle(&mut self) -> Result<usize, AllocError>
        ensures made { GoesOn self.old self.new }
        ensures next { RunsOn two_kind self.old self.new }
        ensures last { OnOk result (next_by_itself two_kind self.new.hosts ≡ None) }
        ensures many { IfOk result (λ many. length self.new.notes ≡ length self.old.notes + many) }
        // theorem: `settle` makes at most as many events as there was work left before it. The
        // calls, losses and dead destinations until then bound that work.
        ensures within { IsWithinWork self.old self.new }
        ensures settled { OnOk result (IsSettled (seen self.new.hosts)) }
        ensures finished { OnOk result (AreFinished (seen self.new.hosts) (histories_of self.new.notes self.new.hosts)) }
        ensures headline { Headline self.new.hosts.number_a self.new.hosts.number_b self.new.notes }
        ensures taken { EveryOutputAccepted self.new.notes self.new.hosts }
        ensures within_budget { MovesAreBounded self.new.notes self.new.hosts }
        ensures run { IsTranscript self.new.notes self.new.hosts }
    {
        let before = self.transcript().len();
        let gone_on = self.go_on_to_the_end();
        self.keeps();
        what_happens_by_itself_is_within_the_work();
        gone_on?;
        Ok(self.transcript().len() - before)
    }

    /// The host of a side.
    pub fn host(&self, side: Side) -> &Host<S>
        ensures { result.now ≡ host_of side self.now.hosts }
    {
        self.hosts.host(side)
    }

    /// Returns the outstanding amount of an open connection, and the parts that add up to it. The
    /// side and the pair are the sender's. `None` if the local socket is even, or one of the two
    /// endpoints is not open. Does not allocate.
    pub fn ledger(&self, side: Side, pair: Pair) -> Option<Ledger>
        ensures ledger { result ≡ ledger_of side pair self.now.hosts }
        ensures balanced { IfSome result IsBalanced }
        ensures booked { IfSome result (IsBooked side pair self.now.notes self.now.hosts) }
    {
        self.hosts.lent().ledger(side, pair)
    }
}

/// Creates a world of two hosts with these distinct numbers, and performs these events. The clauses
/// hold as after [`World::step`]: the headline, about the notes alone, at either host, for each
/// pair (`headline`); the subnet accepted each sent message (`taken`); the message events are
/// bounded (`within_budget`); if no message is ready, in transit or held, all is finished
/// (`finished`); and the notes are a transcript of the hosts (`run`), so all theorems about
/// transcripts apply.
pub fn run<S: BitStore>(
    alloc: Global,
    a: u8,
    b: u8,
    events: &[Event],
) -> Result<World<S>, AllocError>
    requires { a ≢ b }
    ensures notes { IfOk result (λ world. AreNotes events.now world.notes (new_hosts a b)) }
    ensures hosts { IfOk result (λ world. world.hosts ≡ hosts_after_notes world.notes (new_hosts a b)) }
    ensures headline { IfOk result (λ world. Headline a b world.notes) }
    ensures taken { IfOk result (λ world. EveryOutputAccepted world.notes world.hosts) }
    ensures within_budget { IfOk result (λ world. MovesAreBounded world.notes world.hosts) }
    ensures finished { IfOk result (λ world. EndsFinished world.notes world.hosts) }
    ensures run { IfOk result (λ world. IsTranscript world.notes world.hosts) }
{
    let mut world = World::new(alloc, a, b)?;
    for event in events {
        world.happen(event)?;
    }
    world.keeps();
    Ok(world)
}

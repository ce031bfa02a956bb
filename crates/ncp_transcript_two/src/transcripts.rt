//! Theorems about transcripts of a world. Each is the contract of a lemma.
ghost use Rattle.std.specs.Prelude.{◌≡◌, ℕ, false, length, None};
ghost use Rattle.ncp_transcript_two.specs.Throughout.{OfEachTranscript, BodiesInEachTranscript, ComesAsSent, GoesAgainAsSent, IsNeverNoted};
ghost use Rattle.ncp_transcript_two.specs.Honest.{IsHonest, came};
ghost use Rattle.ncp_transcript_two.specs.Refused.{any_refused};
ghost use Rattle.ncp_transcript_two.specs.Streams.{GotIsPrefix, GotIsTakenOrHeld, NeverBeyondAllocation};
ghost use Rattle.ncp_transcript_two.specs.Underway.{AmountsAgree, Parted};
ghost use Rattle.ncp_host.specs.Turns.{next_output};
ghost use Rattle.ncp_transcript.specs.declared.note.HostNote.TheVariants as of_host;
ghost use Rattle.ncp_transcript_two.specs.declared.note.Note.TheVariants as of_world;
ghost use Rattle.ncp_transcript_two.specs.Between.{other, side_number, host_of, transit_of};
ghost use Rattle.ncp_transcript_two.specs.Transcript.{IsRun};
ghost use Rattle.ncp_transcript_two.specs.Impossible.{IsImpossible};
ghost use Rattle.ncp_transcript_two.specs.Naming.{IsMessageFrom, IsAnswerAbout};
ghost use Rattle.ncp_transcript_two.specs.Seen.{seen};
ghost use Rattle.ncp_transcript_two.specs.OfRules.{IsOfRules, IsOfModelsHosts};
ghost use Rattle.ncp_transcript_two.specs.declared.side.Side as sides;
ghost use Rattle.ncp_transcript_two.specs.Sides.{notes_at};
ghost use Rattle.ncp_transcript.specs.Runs as runs;
ghost use Rattle.ncp_transcript_two.specs.OfTranscripts.{NoResetEitherWay, OfEventNotes, OfTranscripts, OfSides, WhereNothingHappened, WhereNoneWentOut, WhereItCame, WhereItWasAnswered};

/// The notes of any list of events are one per event, and form a run: each is what the rules define
/// for the state before it.
pub fn every_list_of_events_is_a_run()
    ensures many { OfEventNotes (λ events notes w. length notes ≡ length events) }
    ensures run { OfEventNotes (λ events notes w. IsRun notes w) }
{}

/// Each transcript is a run of the rules: some events of theirs lead to the observed state of the
/// hosts and the subnet, with the bodies of the notes and with their histories.
pub fn transcripts_are_of_the_rules()
    ensures { OfTranscripts IsOfRules }
{}

/// Each transcript is a run of the model's two hosts: some events of theirs lead to hosts with the
/// histories of the notes, and the observed state of the hosts and the subnet refines those. So
/// theorems about the two hosts of the model apply.
pub fn transcripts_are_of_the_model()
    ensures { OfTranscripts IsOfModelsHosts }
{}

/// Each host of a world is a host by itself: its own notes are a transcript of one host, and lead
/// to its state. So theorems about every run of one host apply to it.
pub fn each_host_is_by_itself()
    ensures { OfSides (λ side notes w. runs.IsHostTranscript (notes_at side notes) (host_of side w)) }
{}

/// Theorems about streams, allocation and commands underway (queued or in flight), for each
/// transcript. For each pair, in each direction:
///
/// - while the receiver is live, the text it got is a prefix of the text given since the sender
///   last opened; until the receiver leaves, all of it was taken or is held; and the receiver's
///   outstanding allocation is what was granted, less what was returned and used;
/// - while both ends are open, the receiver's outstanding allocation is the sum of the sender's
///   counters and the amounts underway, and all text given was got, is underway, or is stored at
///   the sender.
///
/// Between the hosts: while both are up, no RST or RRP is underway; no arrival is refused (no text
/// as not connected, of the wrong size or beyond the allocation, no message as faulty, no answer as
/// stray). It claims nothing about the effects of commands, or about ERRs.
pub fn transcripts_keep_the_headline()
    ensures beginning { OfEachTranscript GotIsPrefix }
    ensures held { OfEachTranscript GotIsTakenOrHeld }
    ensures allocation { OfEachTranscript NeverBeyondAllocation }
    ensures amounts { OfEachTranscript (λ pair v p. AmountsAgree pair v) }
    ensures parted { OfEachTranscript Parted }
    ensures resets { OfTranscripts (λ notes w. NoResetEitherWay (seen w)) }
    ensures refused { BodiesInEachTranscript (λ w notes. any_refused notes ≡ false) }
{}

/// The subnet of a transcript is honest. On each link, the messages delivered are a prefix of the
/// messages sent, shorter by at most one; and a message that is sent again equals the previous one.
pub fn transcripts_are_honest()
    ensures honest { BodiesInEachTranscript (λ w notes. IsHonest w.number_a w.number_b notes) }
    ensures came { BodiesInEachTranscript (λ w notes. ComesAsSent w.number_a w.number_b notes) }
    ensures again { BodiesInEachTranscript (λ w notes. GoesAgainAsSent notes) }
{}

/// `Nothing` is noted only when the event is impossible:
///
/// - of a message, when the subnet has none on the link to which the event applies;
/// - of a host asked for its next message, when it has none ready;
/// - of a call, or of an arrival at a host, never.
pub fn nothing_is_noted_only_where_nothing_can_be()
    ensures moves { WhereNothingHappened (λ side link wanted w. IsImpossible wanted (transit_of side link w)) }
    ensures out { WhereNoneWentOut (λ h. next_output h ≡ None) }
    ensures called { (side : sides.Side) → IsNeverNoted (of_world.Called side of_host.Nothing) }
    ensures came { (side : sides.Side) (link : ℕ) → IsNeverNoted (of_world.Came side link of_host.Nothing) }
    ensures answered { (side : sides.Side) (link : ℕ) → IsNeverNoted (of_world.Answered side link of_host.Nothing) }
{}

/// The note of an arrival has the host and the link of the event: a message is from the host of the
/// side, on this link; an answer is about a message to the other host, on this link.
pub fn what_came_has_the_host_and_the_link_of_its_note()
    ensures came { WhereItCame (λ side link note w. IsMessageFrom (side_number side w) link note) }
    ensures answered { WhereItWasAnswered (λ side link note w. IsAnswerAbout (side_number (other side) w) link note) }
{}

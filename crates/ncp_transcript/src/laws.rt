//! Theorems about every list of inputs.
ghost use Rattle.std.specs.Prelude.{◌≡◌, ◌≢◌, ℕ, [], ◌++◌, List, length, Some, true, false};
ghost use Rattle.ncp_model.specs.declared.pair.Pair.{Pair};
ghost use Rattle.ncp_host.specs.Host.{Host, state_of};
ghost use Rattle.ncp_transcript.specs.declared.call.Call.TheVariants as calls;
ghost use Rattle.ncp_transcript.specs.declared.input.Input.{Input};
ghost use Rattle.ncp_transcript.specs.declared.note.HostNote.{HostNote};
ghost use Rattle.ncp_transcript.specs.Answers.{takes_memory};
ghost use Rattle.ncp_transcript.specs.Noting.{is_answer};
ghost use Rattle.ncp_transcript.specs.After.{after_note, after_notes};
ghost use Rattle.ncp_transcript.specs.Runs.{AreHostNotes, IsHostRun};
ghost use Rattle.ncp_transcript.specs.Touching.{touched};
ghost use Rattle.ncp_transcript.specs.Alone.{Alone, AreHostSteps};

/// Any list of inputs adds one note for each input to the transcript, in order, and leaves the host
/// in the state that the notes give. These notes are a run: each is correct by the rules at the
/// state before it.
pub fn every_list_of_inputs_is_a_run()
    ensures steps { (inputs : List Input) (before now : Alone) → AreHostSteps inputs before now → (notes : List HostNote) × AreHostNotes inputs notes before.host × (now.notes ≡ before.notes ++ notes) × (now.host ≡ after_notes notes before.host) }
    ensures many { (inputs : List Input) (notes : List HostNote) (h : Host) → AreHostNotes inputs notes h → length notes ≡ length inputs }
    ensures run { (inputs : List Input) (notes : List HostNote) (h : Host) → AreHostNotes inputs notes h → IsHostRun notes h }
{}

/// A note changes the state of at most one peer: the peer that a call names, that the leader of
/// received bits names, or that the next message is for.
pub fn one_peer_is_touched()
    ensures { (note : HostNote) (h : Host) (other : ℕ) → touched note h ≢ Some other → state_of (after_note note h) other ≡ state_of h other }
{}

/// A call that asks for a connection can be refused on allocation failure. The other calls listed
/// here cannot.
pub fn calls_that_take_memory_are_distinguished()
    ensures ask_send { (peer local remote size room : ℕ) → takes_memory (calls.AskSend peer local remote size room) ≡ true }
    ensures ask_receive { (peer local remote room : ℕ) → takes_memory (calls.AskReceive peer local remote room) ≡ true }
    ensures give { (peer : ℕ) (pair : Pair) → takes_memory (calls.Give peer pair []) ≡ false }
    ensures take { (peer bytes : ℕ) (pair : Pair) → takes_memory (calls.Take peer pair bytes) ≡ false }
    ensures allocate { (peer messages bits : ℕ) (pair : Pair) → takes_memory (calls.Allocate peer pair messages bits) ≡ false }
    ensures call_back { (peer fm fb : ℕ) (pair : Pair) → takes_memory (calls.CallBack peer pair fm fb) ≡ false }
    ensures interrupt { (peer : ℕ) (pair : Pair) → takes_memory (calls.Interrupt peer pair) ≡ false }
    ensures close { (peer : ℕ) (pair : Pair) → takes_memory (calls.Close peer pair) ≡ false }
    ensures reset { (peer : ℕ) → takes_memory (calls.Reset peer) ≡ false }
    ensures echo { (peer byte : ℕ) → takes_memory (calls.Echo peer byte) ≡ false }
    ensures wake { (peer : ℕ) → takes_memory (calls.Wake peer) ≡ false }
    ensures errors { (peer : ℕ) → takes_memory (calls.Errors peer) ≡ false }
    ensures kept { (peer link : ℕ) → takes_memory (calls.Kept peer link) ≡ false }
{}

/// The types 5, 7 and 9 are those of answers (BBN Report 1822, section 3); 0, 4, 6, 8 and 10 are
/// not.
pub fn answers_are_distinguished()
    ensures rfnm { is_answer 5 ≡ true }
    ensures dead { is_answer 7 ≡ true }
    ensures incomplete { is_answer 9 ≡ true }
    ensures regular { is_answer 0 ≡ false }
    ensures others { (is_answer 4 ≡ false) × (is_answer 6 ≡ false) × (is_answer 8 ≡ false) × (is_answer 10 ≡ false) }
{}

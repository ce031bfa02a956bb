//! `Verb`.
ghost use Rattle.std.specs.Prelude.{◌≡◌};
ghost use Rattle.ncp_play_script.specs.Verbs.{word_of_verb, verb_among, verb_of};

/// The name of a call in a script.
#[derive(Clone, Copy, Debug, Drop, PartialEq, Eq)]
pub enum Verb {
    Reset,
    AskSend,
    AskReceive,
    Give,
    Take,
    Allocate,
    CallBack,
    Interrupt,
    Echo,
    Close,
    Wake,
    Phase,
    State,
    Echoed,
    Errors,
    Counts,
    Ignored,
}

// All verbs.
const VERBS: [Verb; 17] = [
    Verb::Reset,
    Verb::AskSend,
    Verb::AskReceive,
    Verb::Give,
    Verb::Take,
    Verb::Allocate,
    Verb::CallBack,
    Verb::Interrupt,
    Verb::Echo,
    Verb::Close,
    Verb::Wake,
    Verb::Phase,
    Verb::State,
    Verb::Echoed,
    Verb::Errors,
    Verb::Counts,
    Verb::Ignored,
];

impl Verb {
    /// The word that names it, in a script and in the lines that are printed.
    pub fn word(self) -> &'static str
        ensures { result.now ≡ word_of_verb self }
    {
        match self {
            Verb::Reset => "reset",
            Verb::AskSend => "ask-send",
            Verb::AskReceive => "ask-receive",
            Verb::Give => "give",
            Verb::Take => "take",
            Verb::Allocate => "allocate",
            Verb::CallBack => "call-back",
            Verb::Interrupt => "interrupt",
            Verb::Echo => "echo",
            Verb::Close => "close",
            Verb::Wake => "wake",
            Verb::Phase => "phase",
            Verb::State => "state",
            Verb::Echoed => "echoed",
            Verb::Errors => "errors",
            Verb::Counts => "counts",
            Verb::Ignored => "ignored",
        }
    }
}

// The verb among these that a word names.
fn named_among(verbs: &[Verb], word: &[u8]) -> Option<Verb>
    ensures { result ≡ verb_among verbs.now word.now }
{
    match verbs {
        [] => None,
        [verb, behind @ ..] => {
            if verb.word().as_bytes() == word {
                return Some(*verb);
            }
            named_among(behind, word)
        }
    }
}

/// The call that a word names, if any.
pub fn verb_named(word: &[u8]) -> Option<Verb>
    ensures { result ≡ verb_of word.now }
{
    named_among(&VERBS, word)
}

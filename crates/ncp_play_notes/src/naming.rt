//! The names of calls in scripts.
ghost use Rattle.std.specs.Prelude.{◌≡◌};
ghost use Rattle.ncp_play_notes.specs.Names.{name_of_call, name_of_note};

use ncp_play_script::Verb;
use ncp_transcript::{Call, HostNote};

/// The word of a call, and its peer, if it has one.
pub(crate) type Name = (Verb, Option<u8>);

// The name of a call, if a script has a word for it.
fn name_of_call(call: &Call) -> Option<Name>
    ensures { result ≡ name_of_call call.now }
{
    match *call {
        Call::Reset { peer } => Some((Verb::Reset, Some(peer))),
        Call::AskSend { peer, .. } => Some((Verb::AskSend, Some(peer))),
        Call::AskReceive { peer, .. } => Some((Verb::AskReceive, Some(peer))),
        Call::Give { peer, .. } => Some((Verb::Give, Some(peer))),
        Call::Take { peer, .. } => Some((Verb::Take, Some(peer))),
        Call::Allocate { peer, .. } => Some((Verb::Allocate, Some(peer))),
        Call::CallBack { peer, .. } => Some((Verb::CallBack, Some(peer))),
        Call::Interrupt { peer, .. } => Some((Verb::Interrupt, Some(peer))),
        Call::Echo { peer, .. } => Some((Verb::Echo, Some(peer))),
        Call::Close { peer, .. } => Some((Verb::Close, Some(peer))),
        Call::Wake { peer } => Some((Verb::Wake, Some(peer))),
        Call::State { peer, .. } => Some((Verb::State, Some(peer))),
        Call::Phase { peer } => Some((Verb::Phase, Some(peer))),
        Call::Echoed { peer } => Some((Verb::Echoed, Some(peer))),
        Call::Errors { peer } => Some((Verb::Errors, Some(peer))),
        Call::Counts { peer } => Some((Verb::Counts, Some(peer))),
        Call::Waiting { .. } => None,
        Call::Kept { .. } => None,
        Call::Ignored => Some((Verb::Ignored, None)),
    }
}

/// The name of a note's call, if it has one.
pub(crate) fn name_of_note(note: &HostNote) -> Option<Name>
    ensures { result ≡ name_of_note note.now }
{
    match *note {
        HostNote::Refused { ref call, .. } => name_of_call(call),
        HostNote::Done { ref call } => name_of_call(call),
        HostNote::Took { peer, .. } => Some((Verb::Take, Some(peer))),
        HostNote::State { peer, .. } => Some((Verb::State, Some(peer))),
        HostNote::Phase { peer, .. } => Some((Verb::Phase, Some(peer))),
        HostNote::Echoed { peer, .. } => Some((Verb::Echoed, Some(peer))),
        HostNote::Errors { peer, .. } => Some((Verb::Errors, Some(peer))),
        HostNote::Counts { peer, .. } => Some((Verb::Counts, Some(peer))),
        HostNote::Ignored { .. } => Some((Verb::Ignored, None)),
        _ => None,
    }
}

//! The inputs of an example, and the expected notes, as values.
use crate::known::{PEER, bits_of};
use ncp_host::{CallFault, Counts, Flags, Ignored, Pair, Received, Record};
use ncp_transcript::{Call, HostNote, Input, Message};
use ncp_wire::{Answer, Command};
use std::alloc::Global;
use std::process::Abort;

/// An input to a host. Calls name its one peer.
#[derive(Clone, Copy, Drop)]
pub(super) enum Act<'a> {
    Reset,
    /// The byte size in bits, and the room.
    AskSend(Pair, u8, u32),
    AskReceive(Pair, u32),
    /// These bytes of 8 bits.
    Give(Pair, &'a [u8]),
    /// At most this many bytes.
    Take(Pair, u32),
    /// Messages and bits.
    Allocate(Pair, u16, u32),
    CallBack(Pair, u8, u8),
    Interrupt(Pair),
    Echo(u8),
    Close(Pair),
    Wake,
    State(Pair),
    Phase,
    Echoed,
    Errors,
    Counts,
    Waiting(u32),
    Kept(u8),
    Ignored,
    /// These bytes are received.
    Comes(&'a [u8]),
    /// Output is asked for.
    Output,
}

/// The expected content of a note besides the input, in the order of `HostNote`.
#[derive(Clone, Copy, Drop)]
pub(super) enum Want<'a> {
    Refused(CallFault),
    Done,
    Took(&'a [u8]),
    State(Record),
    Phase(Flags),
    Echoed(Option<u8>),
    /// The number of errors.
    Errors(usize),
    Counts(Counts),
    Waiting(Option<Command>),
    /// The number of bits of the message, or `None`.
    Kept(Option<usize>),
    Ignored(Ignored),
    Out(&'a [u8]),
    Nothing,
    In(Received),
    Answered(u8, Answer, Received),
}

/// An input and its expected note.
pub(super) type Step<'a> = (Act<'a>, Want<'a>);

/// A message of these bytes.
fn message_of(rt: &impl Abort, alloc: Global, bytes: &[u8]) -> Message {
    let bits = bits_of(rt, bytes);
    match Message::from_bits(alloc, &bits) {
        Err(_) => Message::from_bits(alloc, &bits).expect(rt, "memory"),
        Ok(message) => message,
    }
}

/// The input of an act.
pub(super) fn input_of(rt: &impl Abort, alloc: Global, act: &Act<'_>) -> Input {
    match act {
        Act::Comes(bytes) => Input::In(bits_of(rt, bytes)),
        Act::Output => Input::Out,
        Act::Give(pair, bytes) => Input::Call(Call::Give {
            peer: PEER,
            pair: *pair,
            text: message_of(rt, alloc, bytes),
        }),
        _ => Input::Call(call_of(PEER, act)),
    }
}

fn call_of(peer: u8, act: &Act<'_>) -> Call {
    match *act {
        Act::Reset => Call::Reset { peer },
        Act::AskSend(pair, size, room) => Call::AskSend {
            peer,
            local: pair.local,
            remote: pair.remote,
            size,
            room,
        },
        Act::AskReceive(pair, room) => Call::AskReceive {
            peer,
            local: pair.local,
            remote: pair.remote,
            room,
        },
        Act::Echo(byte) => Call::Echo { peer, byte },
        Act::Wake => Call::Wake { peer },
        _ => call_of_pair(peer, act),
    }
}

fn call_of_pair(peer: u8, act: &Act<'_>) -> Call {
    match *act {
        Act::Take(pair, bytes) => Call::Take { peer, pair, bytes },
        Act::Allocate(pair, messages, bits) => Call::Allocate {
            peer,
            pair,
            messages,
            bits,
        },
        Act::CallBack(pair, fm, fb) => Call::CallBack { peer, pair, fm, fb },
        Act::Interrupt(pair) => Call::Interrupt { peer, pair },
        Act::Close(pair) => Call::Close { peer, pair },
        _ => reading_of(peer, act),
    }
}

fn reading_of(peer: u8, act: &Act<'_>) -> Call {
    match *act {
        Act::State(pair) => Call::State { peer, pair },
        Act::Phase => Call::Phase { peer },
        Act::Echoed => Call::Echoed { peer },
        Act::Errors => Call::Errors { peer },
        Act::Counts => Call::Counts { peer },
        Act::Waiting(place) => Call::Waiting { peer, place },
        Act::Kept(link) => Call::Kept { peer, link },
        _ => Call::Ignored,
    }
}

/// Whether a note has the expected content.
pub(super) fn says(rt: &impl Abort, note: &HostNote, want: &Want<'_>) -> bool {
    match (note, want) {
        (HostNote::Took { text, .. }, Want::Took(bytes)) => is_text(rt, text, bytes),
        (HostNote::Out { message }, Want::Out(bytes)) => is_text(rt, message, bytes),
        _ => says_what_is_done(note, want),
    }
}

fn is_text(rt: &impl Abort, message: &Message, bytes: &[u8]) -> bool {
    let wanted = bits_of(rt, bytes);
    message.to_bits() == wanted && message.whole().to_bits() == wanted
}

fn says_what_is_done(note: &HostNote, want: &Want<'_>) -> bool {
    match (note, want) {
        (HostNote::Refused { fault, .. }, Want::Refused(wanted)) => *fault == *wanted,
        (HostNote::Done { .. }, Want::Done) => true,
        (HostNote::Nothing, Want::Nothing) => true,
        (HostNote::In { received, .. }, Want::In(wanted)) => *received == *wanted,
        (
            HostNote::Answered {
                link,
                answer,
                received,
                ..
            },
            Want::Answered(at, kind, wanted),
        ) => *link == *at && *answer == *kind && *received == *wanted,
        _ => says_what_is_read(note, want),
    }
}

/// Whether there is a message of this many bits, or none is expected.
fn is_long(message: &Option<Message>, wanted: Option<usize>) -> bool {
    match (message, wanted) {
        (Some(message), Some(len)) => message.len() == len,
        (None, None) => true,
        _ => false,
    }
}

fn says_what_is_read(note: &HostNote, want: &Want<'_>) -> bool {
    match (note, want) {
        (HostNote::State { record, .. }, Want::State(wanted)) => *record == *wanted,
        (HostNote::Phase { flags, .. }, Want::Phase(wanted)) => *flags == *wanted,
        (HostNote::Echoed { byte, .. }, Want::Echoed(wanted)) => *byte == *wanted,
        (HostNote::Errors { errors, .. }, Want::Errors(count)) => {
            errors.as_slice().len() == *count
        }
        (HostNote::Counts { counts, .. }, Want::Counts(wanted)) => *counts == *wanted,
        (HostNote::Waiting { command, .. }, Want::Waiting(wanted)) => *command == *wanted,
        (HostNote::Kept { message, .. }, Want::Kept(wanted)) => { is_long(message, *wanted) }
        (HostNote::Ignored { ignored }, Want::Ignored(wanted)) => *ignored == *wanted,
        _ => false,
    }
}

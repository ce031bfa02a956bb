//! `Call`.
ghost use Rattle.std.specs.Prelude.{◌≡◌, true, IfOk, OnErr};
ghost use Rattle.ncp_transcript.specs.Answers.{is_give};
ghost use Rattle.ncp_transcript.specs.Asked.{peer_of_call};

use crate::message::Message;
use ncp_model::Pair;
use std::alloc::{AllocError, Global};

/// A user's call on a host, or a reading, as a value. Each except the last names a peer first.
#[derive(Debug, Drop)]
pub enum Call {
    /// [`ncp_host::Host::reset`].
    Reset {
        peer: u8,
    },
    /// [`ncp_host::Host::ask_send`]: bytes of `size` bits, and room for `room` bits of unsent text.
    AskSend {
        peer: u8,
        local: u32,
        remote: u32,
        size: u8,
        room: u32,
    },
    /// [`ncp_host::Host::ask_receive`]: room for `room` held bits.
    AskReceive {
        peer: u8,
        local: u32,
        remote: u32,
        room: u32,
    },
    /// [`ncp_host::Host::give`].
    Give {
        peer: u8,
        pair: Pair,
        text: Message,
    },
    /// [`ncp_host::Host::take`]: at most `bytes` bytes.
    Take {
        peer: u8,
        pair: Pair,
        bytes: u32,
    },
    /// [`ncp_host::Host::allocate`]: `messages` more messages and `bits` more bits.
    Allocate {
        peer: u8,
        pair: Pair,
        messages: u16,
        bits: u32,
    },
    /// [`ncp_host::Host::call_back`]: `fm` 128ths of the messages and `fb` 128ths of the bits.
    CallBack {
        peer: u8,
        pair: Pair,
        fm: u8,
        fb: u8,
    },
    /// [`ncp_host::Host::interrupt`].
    Interrupt {
        peer: u8,
        pair: Pair,
    },
    /// [`ncp_host::Host::echo`].
    Echo {
        peer: u8,
        byte: u8,
    },
    /// [`ncp_host::Host::close`].
    Close {
        peer: u8,
        pair: Pair,
    },
    /// [`ncp_host::Host::wake`].
    Wake {
        peer: u8,
    },
    /// [`ncp_host::Host::state`].
    State {
        peer: u8,
        pair: Pair,
    },
    /// [`ncp_host::Host::phase`].
    Phase {
        peer: u8,
    },
    /// [`ncp_host::Host::echoed`].
    Echoed {
        peer: u8,
    },
    /// [`ncp_host::Host::errors`].
    Errors {
        peer: u8,
    },
    /// [`ncp_host::Host::counts`].
    Counts {
        peer: u8,
    },
    /// [`ncp_host::Host::waiting`]: the command at this index of the queue, the first at 0.
    Waiting {
        peer: u8,
        place: u32,
    },
    /// [`ncp_host::Host::kept`].
    Kept {
        peer: u8,
        link: u8,
    },
    /// [`ncp_host::Host::ignored`].
    Ignored,
}

// A copy of a text. Allocates as much memory as the text has.
fn copied_text(alloc: Global, text: &Message) -> Result<Message, AllocError>
    ensures { IfOk result (λ copy. copy ≡ text.now) }
{
    text.copy(alloc)
}

impl Call {
    /// The peer that the call names, if any.
    pub fn peer(&self) -> Option<u8>
        ensures { result ≡ peer_of_call self.now }
    {
        match *self {
            Call::Reset { peer } => Some(peer),
            Call::AskSend { peer, .. } => Some(peer),
            Call::AskReceive { peer, .. } => Some(peer),
            Call::Give { peer, .. } => Some(peer),
            Call::Take { peer, .. } => Some(peer),
            Call::Allocate { peer, .. } => Some(peer),
            Call::CallBack { peer, .. } => Some(peer),
            Call::Interrupt { peer, .. } => Some(peer),
            Call::Echo { peer, .. } => Some(peer),
            Call::Close { peer, .. } => Some(peer),
            Call::Wake { peer } => Some(peer),
            Call::State { peer, .. } => Some(peer),
            Call::Phase { peer } => Some(peer),
            Call::Echoed { peer } => Some(peer),
            Call::Errors { peer } => Some(peer),
            Call::Counts { peer } => Some(peer),
            Call::Waiting { peer, .. } => Some(peer),
            Call::Kept { peer, .. } => Some(peer),
            Call::Ignored => None,
        }
    }

    /// A copy. Allocates only for the copy of a text.
    pub fn copied(&self, alloc: Global) -> Result<Call, AllocError>
        ensures copy { IfOk result (λ copy. copy ≡ self.now) }
        ensures memory { OnErr result (is_give self.now ≡ true) }
    {
        Ok(match *self {
            Call::Reset { peer } => Call::Reset { peer },
            Call::AskSend {
                peer,
                local,
                remote,
                size,
                room,
            } => Call::AskSend {
                peer,
                local,
                remote,
                size,
                room,
            },
            Call::AskReceive {
                peer,
                local,
                remote,
                room,
            } => Call::AskReceive {
                peer,
                local,
                remote,
                room,
            },
            Call::Give {
                peer,
                pair,
                ref text,
            } => Call::Give {
                peer,
                pair,
                text: copied_text(alloc, text)?,
            },
            Call::Take { peer, pair, bytes } => Call::Take { peer, pair, bytes },
            Call::Allocate {
                peer,
                pair,
                messages,
                bits,
            } => Call::Allocate {
                peer,
                pair,
                messages,
                bits,
            },
            Call::CallBack { peer, pair, fm, fb } => Call::CallBack { peer, pair, fm, fb },
            Call::Interrupt { peer, pair } => Call::Interrupt { peer, pair },
            Call::Echo { peer, byte } => Call::Echo { peer, byte },
            Call::Close { peer, pair } => Call::Close { peer, pair },
            Call::Wake { peer } => Call::Wake { peer },
            Call::State { peer, pair } => Call::State { peer, pair },
            Call::Phase { peer } => Call::Phase { peer },
            Call::Echoed { peer } => Call::Echoed { peer },
            Call::Errors { peer } => Call::Errors { peer },
            Call::Counts { peer } => Call::Counts { peer },
            Call::Waiting { peer, place } => Call::Waiting { peer, place },
            Call::Kept { peer, link } => Call::Kept { peer, link },
            Call::Ignored => Call::Ignored,
        })
    }
}

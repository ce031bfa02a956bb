//! `HostNote`.
ghost use Rattle.std.specs.Prelude.{◌≡◌};
ghost use Rattle.ncp_transcript.specs.Notes.{is_refusal};

use crate::call::Call;
use crate::error_list::ErrorList;
use crate::message::Message;
use ncp_host::{CallFault, Counts, Flags, Ignored, Pair, Received, Record};
use ncp_wire::{Answer, Command};

/// The record of one input in a transcript: the input and its result.
#[derive(Debug, Drop)]
pub enum HostNote {
    /// A call was refused. Nothing changed.
    Refused {
        call: Call,
        fault: CallFault,
    },
    /// A call without a result was accepted.
    Done {
        call: Call,
    },
    /// [`Call::Take`] returned this text.
    Took {
        peer: u8,
        pair: Pair,
        bytes: u32,
        text: Message,
    },
    /// The result of [`Call::State`].
    State {
        peer: u8,
        pair: Pair,
        record: Record,
    },
    /// The result of [`Call::Phase`].
    Phase {
        peer: u8,
        flags: Flags,
    },
    /// The result of [`Call::Echoed`].
    Echoed {
        peer: u8,
        byte: Option<u8>,
    },
    /// The result of [`Call::Errors`].
    Errors {
        peer: u8,
        errors: ErrorList,
    },
    /// The result of [`Call::Counts`].
    Counts {
        peer: u8,
        counts: Counts,
    },
    /// The result of [`Call::Waiting`].
    Waiting {
        peer: u8,
        place: u32,
        command: Option<Command>,
    },
    /// The result of [`Call::Kept`].
    Kept {
        peer: u8,
        link: u8,
        message: Option<Message>,
    },
    /// The result of [`Call::Ignored`].
    Ignored {
        ignored: Ignored,
    },
    /// This message was sent.
    Out {
        message: Message,
    },
    /// The host was asked for its next message, and no link was ready.
    Nothing,
    /// These bits were received, and are no answer that names a peer.
    In {
        message: Message,
        received: Received,
    },
    /// The answer to a message to this peer on this link: RFNM (type 5), Destination Dead (7) or
    /// Incomplete Transmission (9). `received` is `Stray` if no message there was unanswered.
    Answered {
        peer: u8,
        link: u8,
        answer: Answer,
        received: Received,
    },
}

/// The greatest size of a note in bytes, besides its message or its ERRs.
pub const NOTE_BYTES: usize = 64;

const _: () = prove!(size_of::<HostNote>() <= NOTE_BYTES);

impl HostNote {
    /// Whether a call was refused.
    pub fn is_refusal(&self) -> bool
        ensures { result ≡ is_refusal self.now }
    {
        matches!(self, HostNote::Refused { .. })
    }
}

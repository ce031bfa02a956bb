//! `ManyNote`.
use crate::many_event::ManyEvent;
use ncp_transcript::HostNote;

/// A transcript's record of one event of two to eight hosts: the event and its result. For a
/// message, `from` is the sender.
#[derive(Debug, Drop)]
pub enum ManyNote {
    /// A user called a host, which made this note.
    Called {
        host: u8,
        note: HostNote,
    },
    /// The subnet asked a host for its next message. The note holds the message sent, or `Nothing`
    /// if no link was ready.
    Out {
        host: u8,
        note: HostNote,
    },
    /// A message arrived at the host `to`, which made this note.
    Came {
        from: u8,
        to: u8,
        link: u8,
        note: HostNote,
    },
    /// A message was lost.
    Lost {
        from: u8,
        to: u8,
        link: u8,
    },
    /// The subnet found the destination of a message dead.
    FoundDead {
        from: u8,
        to: u8,
        link: u8,
    },
    /// An answer arrived at the host `from`, which made this note.
    Answered {
        from: u8,
        to: u8,
        link: u8,
        note: HostNote,
    },
    /// Nothing happened: a host of the event is absent, the two hosts of a message are the same, or
    /// the subnet has no message to which the event applies.
    Nothing {
        event: ManyEvent,
    },
}

/// The maximum size of a note in bytes, besides those of its message, of its errors or of its
/// event's text.
pub const MANY_NOTE_BYTES: usize = ncp_transcript::NOTE_BYTES + size_of::<u64>();

const _: () = prove!(size_of::<ManyNote>() <= MANY_NOTE_BYTES);

//! `Note`.
use crate::side::Side;
use ncp_transcript::HostNote;

/// What can happen to a message in the subnet.
#[derive(Clone, Copy, Debug, Drop)]
pub enum Move {
    Deliver,
    Lose,
    Dead,
    Answer,
}

/// A transcript's record of one event: the event and its result. For a message, `side` is the
/// sender's.
#[derive(Debug, Drop)]
pub enum Note {
    /// A user called a host, which made this note.
    Called {
        side: Side,
        note: HostNote,
    },
    /// The subnet asked a host for its next message. The note holds the message sent, or `Nothing`
    /// if no link was ready.
    Out {
        side: Side,
        note: HostNote,
    },
    /// A message arrived at the other host, which made this note.
    Came {
        side: Side,
        link: u8,
        note: HostNote,
    },
    /// A message was lost.
    Lost {
        side: Side,
        link: u8,
    },
    /// The subnet found the destination of a message dead.
    FoundDead {
        side: Side,
        link: u8,
    },
    /// An answer arrived at the sender, which made this note.
    Answered {
        side: Side,
        link: u8,
        note: HostNote,
    },
    /// Nothing happened: the subnet has no message on this link to which the event applies.
    Nothing {
        side: Side,
        link: u8,
        wanted: Move,
    },
}

/// The maximum size of a note in bytes, besides those of its message or its errors.
pub const NOTE_BYTES: usize = ncp_transcript::NOTE_BYTES + size_of::<u64>();

const _: () = prove!(size_of::<Note>() <= NOTE_BYTES);

//! The steps of an example, as values.
use super::LINK;
use ncp_conn::{CallFault, Heard, Pair, Record, Took};
use ncp_wire::{Command, ERROR_DATA};

/// A call of a user.
#[derive(Clone, Copy, Drop)]
pub(super) enum Call {
    /// The byte size in bits, and the room.
    AskSend(Pair, u8, u32),
    AskReceive(Pair, u32),
    Close(Pair),
    /// The number of bits.
    Give(Pair, usize),
    /// At most this many bytes.
    Take(Pair, u32),
    /// Messages and bits.
    Allocate(Pair, u16, u32),
    CallBack(Pair, u8, u8),
    Interrupt(Pair),
}

/// A command of either side. Pairs are as named at the table's host. `All`, `Gvb` and `Ret` are for
/// the first link.
#[derive(Clone, Copy, Drop)]
pub(super) enum Say {
    /// A pair, and the byte size.
    Str(Pair, u8),
    /// A pair and a link.
    Rts(Pair, u8),
    Cls(Pair),
    /// Messages and bits.
    All(u16, u32),
    /// A fraction of the messages, and one of the bits.
    Gvb(u8, u8),
    /// Messages and bits.
    Ret(u16, u32),
    /// Exactly this command.
    As(Command),
}

/// The command as the table's host sends it.
pub(super) fn made(say: Say) -> Command {
    match say {
        Say::Str(pair, size) => Command::Str {
            send: pair.local,
            receive: pair.remote,
            size,
        },
        Say::Rts(pair, link) => Command::Rts {
            receive: pair.local,
            send: pair.remote,
            link,
        },
        Say::Cls(pair) => Command::Cls {
            my: pair.local,
            your: pair.remote,
        },
        Say::All(messages, bits) => Command::All {
            link: LINK,
            messages,
            bits,
        },
        Say::Gvb(fm, fb) => Command::Gvb { link: LINK, fm, fb },
        Say::Ret(messages, bits) => Command::Ret {
            link: LINK,
            messages,
            bits,
        },
        Say::As(command) => command,
    }
}

/// A pair as named at its peer.
fn counterpart(pair: Pair) -> Pair {
    Pair {
        local: pair.remote,
        remote: pair.local,
    }
}

/// The command as received from the peer.
pub(super) fn heard(say: Say) -> Command {
    match say {
        Say::Str(pair, size) => made(Say::Str(counterpart(pair), size)),
        Say::Rts(pair, link) => made(Say::Rts(counterpart(pair), link)),
        Say::Cls(pair) => made(Say::Cls(counterpart(pair))),
        _ => made(say),
    }
}

/// An ERR as the reply, with this code and these first bytes of data.
pub(super) fn err(code: u8, front: &[u8]) -> Heard {
    let mut bytes = [0; ERROR_DATA];
    for (to, from) in bytes.iter_mut().zip(front.iter()) {
        *to = *from;
    }
    Heard::Reply(Command::Err { code, bytes })
}

/// A step of an example. Texts are taken from one text in which every third bit is a one.
#[derive(Clone, Copy, Drop)]
pub(super) enum Step<'a> {
    /// Opens a sender of this byte size and room, on link 2.
    IsSender(u8, u32),
    /// Opens a receiver of this byte size and room, on link 2.
    IsReceiver(u8, u32),
    /// A call is granted and queues this command.
    Makes(Call, Say),
    /// A call is granted and queues none.
    Does(Call),
    /// A call is refused.
    Refuses(Call, CallFault),
    /// A call is refused while no command can be queued.
    RefusesFull(Call, CallFault),
    /// Takes bytes: the pair, the maximum number of bytes, and the offset and number of the bits
    /// expected. No command is queued.
    Takes(Pair, u32, usize, usize),
    /// Takes bytes in the same way, and this command is queued.
    TakesLast(Pair, u32, usize, usize, Say),
    /// A command is received, with this result.
    Hears(Say, Heard),
    /// A command is received, and answered with this one.
    Replies(Say, Say),
    /// A command is received, and answered with an ERR of this code and these first bytes of data.
    Errs(Say, u8, &'a [u8]),
    /// A text is received on a link: link, byte size, number of bits, result.
    Text(u8, u8, usize, Took),
    /// A text is cut for a link: link, byte size, offset, number of bits.
    Cuts(u8, u8, usize, usize),
    /// No text is cut for a link.
    CutsNone(u8),
    /// The first link, from this one on, for which a text would be cut.
    NextCut(u8, Option<u8>),
    /// The text of a link is answered by its RFNM; this command is queued, or none.
    Answered(u8, Option<Say>),
    /// All connections end.
    Purges,
    /// The record of a connection.
    Knows(Pair, Record),
    /// There is no such connection.
    KnowsNone(Pair),
    /// A pair of the table, if it has one.
    HasPair(Option<Pair>),
}

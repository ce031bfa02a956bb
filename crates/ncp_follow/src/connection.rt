//! `Connection`: an opened connection, and its texts.
ghost use Rattle.std.specs.Prelude.{◌≡◌, ◌≤◌, length};
ghost use Rattle.ncp_follow.specs.Connections.{number_or_zero, opened_as, connection_with_text, text_with, without_text, connection_with_end};

use crate::amount::SaturatingAmount;
use crate::followed_conn::FollowedConn;
use ncp_bits::{Bits, MAX_BITS, Part};

/// How a connection ended, or the last sign of its end so far.
#[derive(Clone, Copy, Debug, Drop, PartialEq, Eq)]
pub enum EndReason {
    /// No sign of its end.
    Open,
    /// The host sent its CLS.
    CloseSent,
    /// The peer's CLS arrived.
    CloseCame,
    /// Both CLSs were observed.
    Closed,
    /// An RST of the peer arrived.
    ResetCame,
    /// The host sent an RST.
    ResetSent,
    /// The RRP that the host awaited arrived.
    ReplyCame,
}

/// An opened connection, with its text and what was allocated and returned.
#[derive(Drop)]
pub struct Connection {
    /// Its number, in order of opening, from 1.
    pub number: u32,
    /// The host at whose interface it is observed.
    pub at: u8,
    /// The peer.
    pub peer: u8,
    /// The host's socket: odd if the host is the sender.
    pub local: u32,
    /// The peer's socket.
    pub remote: u32,
    /// The link.
    pub link: u8,
    /// The byte size.
    pub size: u8,
    /// The number of the record with the second request.
    pub opened: u32,
    /// The number of the record that ended it.
    pub ended: Option<u32>,
    /// How it ended, or the last sign of its end.
    pub end: EndReason,
    /// The amount of its texts.
    pub said: SaturatingAmount,
    /// The number of late texts: on its link, but not accepted.
    pub late: u32,
    /// The amount allocated.
    pub granted: SaturatingAmount,
    /// The amount returned.
    pub returned: SaturatingAmount,
    /// Its text: at most the first [`MAX_BITS`] bits.
    pub text: Bits,
}

// The number, or 0 if none was given.
fn number_in(given: Option<u8>) -> u8
    ensures { result ≡ number_or_zero given }
{
    given.unwrap_or(0)
}

// Appends as much of a text as there is room for.
fn append_front(text: &mut Bits, more: Part<'_>)
    ensures { text.new ≡ text_with text.old more.entry }
{
    let len = more.len().min(MAX_BITS - text.len());
    text.append(more.slice(0, len)).unwrap();
}

impl Connection {
    // A connection with this number, opened by this record.
    pub(crate) fn new(number: u32, opened: u32, track: FollowedConn) -> Connection
        ensures { result ≡ opened_as number opened track }
    {
        Connection {
            number,
            at: track.at,
            peer: track.peer,
            local: track.local,
            remote: track.remote,
            link: number_in(track.link),
            size: number_in(track.size),
            opened,
            ended: None,
            end: EndReason::Open,
            said: SaturatingAmount::nothing(),
            late: 0,
            granted: SaturatingAmount::nothing(),
            returned: SaturatingAmount::nothing(),
            text: Bits::new(),
        }
    }

    // Adds a text.
    pub(crate) fn say(&mut self, text: Part<'_>)
        ensures { self.new ≡ connection_with_text self.old text.entry }
    {
        self.said = self.said.more(1, text.len() as u32);
        append_front(&mut self.text, text);
    }

    // Empties its text.
    pub(crate) fn forget_text(&mut self)
        ensures { self.new ≡ without_text self.old }
    {
        self.text = Bits::new();
    }

    // Records how it ended, or the last sign of its end.
    pub(crate) fn be_ended(&mut self, end: EndReason, ended: Option<u32>)
        ensures { self.new ≡ connection_with_end self.old end ended }
    {
        self.end = end;
        self.ended = ended;
    }
}

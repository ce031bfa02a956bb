//! The prefix of a line: `LineHost` and `LinePrefix`.
ghost use Rattle.std.specs.Prelude.{◌≡◌, ◌+◌, ◌≤◌, ◌++◌, length};
ghost use Rattle.ncp_play_notes.specs.NoteLines.{speaker_word, names_peer, peer_word, front, line_prefix_and_name, next_line_prefix};
ghost use Rattle.ncp_play_script.specs.Verbs.{word_of_verb};

use ncp_play_buffer::{MAX_NUMBER_LEN, OutBuffer, PAGE_SIZE, push_field};
use ncp_play_script::Verb;

/// The host of a line, as its script names hosts.
#[derive(Clone, Copy, Debug, Drop)]
pub enum LineHost {
    /// The host of a one-host script. Its lines do not name it; its calls name the peer.
    Host,
    /// A side of a two-host script, by its letter. Its calls name no peer.
    Side(u8),
    /// A host of a script of two to eight hosts, by its number. Its calls name the peer.
    Number(u8),
}

/// The number and the host at the start of a line.
#[derive(Clone, Copy, Debug, Drop)]
pub struct LinePrefix {
    /// The number of the note.
    pub number: u32,
    pub speaker: LineHost,
}

impl LinePrefix {
    /// The prefix of the next note's lines. The number saturates at the largest.
    pub fn next(self) -> LinePrefix
        ensures { result ≡ next_line_prefix self }
    {
        LinePrefix {
            number: self.number.saturating_add(1),
            speaker: self.speaker,
        }
    }
}

// The maximum length of the words that name a side or a host, in bytes.
const MAX_SPEAKER_LEN: usize = 1 + MAX_NUMBER_LEN;

/// The maximum number of bytes before a line's first word.
pub const MAX_FRONT_LEN: usize = MAX_NUMBER_LEN + MAX_SPEAKER_LEN;

// The number of letters in the longest name of a call.
const MAX_VERB_LEN: usize = 11;

/// The maximum number of bytes before the result of a call: the line prefix, the call's name and
/// its peer.
pub(crate) const MAX_NAMED_LEN: usize = MAX_FRONT_LEN + 1 + MAX_VERB_LEN + 1 + MAX_NUMBER_LEN;

// Appends the side or the host.
fn push_speaker(page: &mut OutBuffer, speaker: LineHost)
    requires { length page.old + MAX_SPEAKER_LEN ≤ PAGE_SIZE }
    ensures bytes { page.new ≡ page.old ++ speaker_word speaker }
    ensures len { length page.new ≤ length page.old + MAX_SPEAKER_LEN }
{
    match speaker {
        LineHost::Host => {}
        LineHost::Side(letter) => {
            page.push(b' ');
            page.push(letter);
        }
        LineHost::Number(number) => push_field(page, b" ", u32::from(number)),
    }
}

// Whether the calls in this host's lines name the peer.
fn names_peer(speaker: LineHost) -> bool
    ensures { result ≡ names_peer speaker }
{
    match speaker {
        LineHost::Host => true,
        LineHost::Side(_) => false,
        LineHost::Number(_) => true,
    }
}

// Appends the peer of a call, if its line names one.
fn push_peer(page: &mut OutBuffer, speaker: LineHost, peer: Option<u8>)
    requires { length page.old + 1 + MAX_NUMBER_LEN ≤ PAGE_SIZE }
    ensures bytes { page.new ≡ page.old ++ peer_word speaker peer }
    ensures len { length page.new ≤ length page.old + 1 + MAX_NUMBER_LEN }
{
    let Some(peer) = peer else {
        return;
    };
    if names_peer(speaker) {
        push_field(page, b" ", u32::from(peer));
    }
}

/// Appends a line's number and, in a script of several hosts, the side or the host. Requires room
/// for [`MAX_FRONT_LEN`].
pub fn push_front(page: &mut OutBuffer, heading: LinePrefix)
    requires { length page.old + MAX_FRONT_LEN ≤ PAGE_SIZE }
    ensures bytes { page.new ≡ page.old ++ front heading }
    ensures len { length page.new ≤ length page.old + MAX_FRONT_LEN }
{
    page.push_decimal(heading.number);
    push_speaker(page, heading.speaker);
}

// Appends the word that names a call.
fn push_verb(page: &mut OutBuffer, verb: Verb)
    requires { length page.old + MAX_VERB_LEN ≤ PAGE_SIZE }
    ensures bytes { page.new ≡ page.old ++ word_of_verb verb }
    ensures len { length page.new ≤ length page.old + MAX_VERB_LEN }
{
    page.push_text(verb.word().as_bytes());
}

/// Appends a line's prefix and the name of its call.
pub(crate) fn push_named(page: &mut OutBuffer, heading: LinePrefix, verb: Verb, peer: Option<u8>)
    requires { length page.old + MAX_NAMED_LEN ≤ PAGE_SIZE }
    ensures bytes { page.new ≡ page.old ++ line_prefix_and_name heading (verb, peer) }
    ensures len { length page.new ≤ length page.old + MAX_NAMED_LEN }
{
    push_front(page, heading);
    page.push(b' ');
    push_verb(page, verb);
    push_peer(page, heading.speaker, peer);
}

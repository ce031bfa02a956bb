//! The meanings of the words of reports: of `audit` and `follow`.
ghost use Rattle.std.specs.Prelude.{◌≢◌, All, Contains, IfSome, IfNone};
ghost use Rattle.ncp_play_explain.specs.Printed.{report_words};

use crate::names::{Meaning, text_beside};

/// The words of findings, of coverage, and of followed connections.
pub const REPORT_WORDS: &[Meaning] = &[
    // Findings of 'audit'.
    ("imp", "The subnet broke the rule, and no host."),
    ("name", "The name of a fault; 'ncp explain' knows it."),
    ("rest", "How many bits follow the text of a message."),
    ("not-out", "No such message is unacknowledged on the link."),
    ("twice", "The message had arrived before."),
    ("altered", "Another message is unacknowledged on the link."),
    (
        "came",
        "The message arrived, but was answered as if it had not. Of 'follow' how many messages and bits of text the host received that belong to no connection.",
    ),
    (
        "not-come",
        "The message was answered as if it had arrived, and it had not.",
    ),
    (
        "began",
        "1 if the host has sent an RST or an RRP before, else 0.",
    ),
    (
        "wait",
        "The host waits for the RRP to its RST; of 'early' 1 if it does, else 0.",
    ),
    (
        "owe",
        "The host owes an RRP, since an RST arrived; of 'early' 1 if it does, else 0.",
    ),
    (
        "since",
        "The number of the record with which the connection began.",
    ),
    (
        "by",
        "Of 'follow' how the connection ended; 'ncp explain' knows the word after it. Of 'link-used' the two sockets that have the link.",
    ),
    ("no-pair", "No connection has the link."),
    ("closed", "The connection is closed: a CLS was sent."),
    (
        "not-asked",
        "One of the two requests of the connection is missing.",
    ),
    (
        "of",
        "What the number before it is compared with: a limit, or the byte size of the connection. Of 'follow' how many bits a text has, if not all are printed.",
    ),
    // Coverage of 'audit'.
    (
        "judged",
        "How many messages 'audit --coverage' judged: all that it read.",
    ),
    (
        "not-judged",
        "Not all that passed between the host after at= and the other host was judged at the interface of the first. The reason follows; 'ncp explain' knows it. If there are several, it is the first of messages, connections, late, crowded, suspended, restarted, connection, part and alone.",
    ),
    (
        "connections",
        "More connections, due replies or facts were to be kept than 4096. From then on no command and no text is judged by them.",
    ),
    (
        "crowded",
        "Two messages of one of the two hosts were unacknowledged at once on one link. From then on it is not judged what the subnet did with its messages.",
    ),
    (
        "suspended",
        "A host may have acted on a command that the capture does not show, so the two were not judged for a while, until a reset or to the end.",
    ),
    (
        "restarted",
        "After a reset of an interface a host may have acted on what the capture does not show: from then on the other host is not judged, or neither.",
    ),
    (
        "connection",
        "A host may have acted on a command that the capture does not show, so a connection, a link or the echoes of the two were not judged for a while, until a reset or to the end.",
    ),
    (
        "part",
        "With '--part' nothing is known of what came before, and the interfaces of two hosts are not compared.",
    ),
    (
        "alone",
        "The capture has no record at the interface of the other host, so it is not judged what the subnet did between the two.",
    ),
    // Connections of 'follow'.
    (
        "local",
        "The socket of the host after at=. From an odd one it sends, to an even one it receives.",
    ),
    ("remote", "The socket of the other host."),
    (
        "opened",
        "The number of the record that opened the connection, by the second of its two requests. In 'state' 1 if the end was open at some time, else 0.",
    ),
    (
        "ended",
        "The number of the record that ended the connection, or - if none did.",
    ),
    (
        "late",
        "Of 'follow' how many texts arrived on the link after a CLS, in bytes of another size, or beyond the allocation. Of a script a text or a command arrived for an end that is closing or has closed, and had no effect; after 'counts' how many did. After 'not-judged' a message from the other host arrived, or an RFNM from it, before the first record at its interface, with which it would be compared.",
    ),
    (
        "letters",
        "The text before it as letters: each byte that is a printable ASCII character as itself, any other as \\x and two hexadecimal digits. Bytes of another size than 8 bits are no letters; size= is theirs.",
    ),
    (
        "granted",
        "How many messages and bits the receiver has allowed in all, by ALL.",
    ),
    (
        "returned",
        "How many messages and bits the sender has given back in all, by RET.",
    ),
    (
        "sent",
        "How many messages and bits of text the host sent that belong to no connection.",
    ),
    (
        "-",
        "There is none, or it is not known yet. A line of 'follow' that begins with it counts the texts that belong to no connection.",
    ),
];

/// The meaning of a word, if it is one of these.
pub(crate) fn report_word_meaning(word: &str) -> Option<&'static str>
    ensures known { IfSome result (λ text. Contains report_words (word.now, text.now)) }
    ensures unknown { IfNone result (All (λ entry. entry.0 ≢ word.now) report_words) }
{
    text_beside(REPORT_WORDS, word)
}

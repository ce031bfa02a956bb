//! The meanings of the words of scripts, and of the lines of their events: of `host` and `world`.
ghost use Rattle.std.specs.Prelude.{◌≢◌, All, Contains, IfSome, IfNone};
ghost use Rattle.ncp_play_explain.specs.Printed.{script_words};

use crate::names::{Meaning, text_beside};

/// The words of the results of calls, of received bits and of ledgers, and the directives of script
/// lines.
pub const SCRIPT_WORDS: &[Meaning] = &[
    // Results of calls.
    ("a", "The first host of a script of two."),
    ("b", "The second host of a script of two."),
    ("ok", "The call was done; what it returns follows."),
    (
        "refused",
        "The call was refused, and changed nothing. The name of the refusal follows; 'ncp explain' knows it.",
    ),
    (
        "up",
        "The host is up with the peer: none of the flags 'down', 'want', 'owe' and 'wait' is set.",
    ),
    (
        "down",
        "The host has made no RST and no RRP yet, or none since it went down.",
    ),
    (
        "want",
        "The host has to send an RST, since its user asked for a reset.",
    ),
    (
        "end",
        "Of 'state' which end of the connection it is: 'send' or 'receive'.",
    ),
    ("asked", "1 if the host has made its own request, else 0."),
    ("heard", "1 if the peer's request has arrived, else 0."),
    (
        "leaving",
        "1 if the host is closing the connection, and its CLS has still to be made, else 0.",
    ),
    ("left", "1 if the host has made its CLS, else 0."),
    ("cls", "Of 'state' 1 if the peer's CLS arrived, else 0."),
    (
        "stored",
        "How many bits the sender has still to send, or the receiver holds.",
    ),
    (
        "interrupts",
        "How many interrupts have arrived, by INR or INS.",
    ),
    (
        "none",
        "No echo has arrived. Of a ledger: an end of the connection is not open.",
    ),
    (
        "stray",
        "An answer to no unacknowledged message. After 'counts' how many arrived, with each RRP and ERP that was not asked for.",
    ),
    (
        "wrong-link",
        "A message on a link that carries nothing: 1, or one over 71. After 'counts' how many arrived.",
    ),
    (
        "wrong-size",
        "A message on link 0 in bytes that have not eight bits, or a text in bytes of another size than those of its connection. After 'counts' how many arrived.",
    ),
    (
        "not-up",
        "The host is not up with the peer, so it dropped what arrived. After 'counts' how many texts, commands and faults it dropped.",
    ),
    (
        "over",
        "The text is more than was allowed. After 'counts' how many arrived.",
    ),
    (
        "other",
        "A message of a type that a host does nothing with; its number follows. After 'ignored' how many arrived.",
    ),
    (
        "unknown",
        "A message from a host that is no peer. After 'ignored' how many arrived.",
    ),
    // The outcome of received bits, and output.
    (
        "in",
        "Bits arrived at the host; the words after it show what became of them.",
    ),
    (
        "out",
        "The host sends its next message. Of a ledger the messages and bits that the receiver still expects.",
    ),
    (
        "answered",
        "The message answers the unacknowledged one on its link.",
    ),
    (
        "control",
        "A message with commands arrived; how many were read follows.",
    ),
    (
        "admitted",
        "The receiver had allowed the text, and holds it until its user takes it.",
    ),
    (
        "held",
        "A message is held if its destination is not there, until 'wake'; a text that was admitted is held until 'take'.",
    ),
    (
        "not-open",
        "No receiver has the link of the text, or its connection never opened.",
    ),
    (
        "nothing",
        "No message can be sent, or the subnet has none for this.",
    ),
    // Ledgers of a sender to watch.
    (
        "ledger",
        "What the receiver still expects on the connection, in messages and bits, after each event: out= is counters=, all=, text= and ret= together.",
    ),
    (
        "counters",
        "The messages and bits that the sender may still send.",
    ),
    (
        "all",
        "The messages and bits of all ALLs queued or in flight.",
    ),
    (
        "ret",
        "The messages and bits of all RETs queued or in flight.",
    ),
    // The directives of script lines.
    (
        "reset",
        "The user asks for a reset: the host forgets its connections with the peer, and an RST is sent.",
    ),
    (
        "wake",
        "Messages held because their destination was dead are to be sent again.",
    ),
    (
        "phase",
        "Reads how far the host is with the peer: 'up', or the flags that are set.",
    ),
    ("echoed", "Reads the byte of the last echo that arrived."),
    (
        "errors",
        "Reads how many ERRs of the peer are kept, 16 at most, and has a line for each.",
    ),
    (
        "counts",
        "Reads how much arrived from the peer without effect, by reason.",
    ),
    (
        "ignored",
        "Reads how many messages of no peer arrived, by reason.",
    ),
    (
        "echo",
        "The user asks the peer for an echo of a byte, by an ECO.",
    ),
    (
        "interrupt",
        "The user interrupts the other end of the connection, by an INR or an INS.",
    ),
    (
        "close",
        "The user closes the connection, or refuses the peer's request, by a CLS.",
    ),
    (
        "state",
        "Reads an end of a connection: its flags, its link, its byte size and its numbers.",
    ),
    (
        "ask-send",
        "The user asks for a connection as its sender, by an STR.",
    ),
    (
        "ask-receive",
        "The user asks for a connection as its receiver, by an RTS.",
    ),
    ("give", "The user gives the sender a text."),
    ("take", "The user takes text that the receiver holds."),
    (
        "allocate",
        "The user allows the sender more messages and bits, by an ALL.",
    ),
    (
        "call-back",
        "The user asks the sender for a part of the allocation back, by a GVB.",
    ),
    (
        "restart",
        "The IMP was restarted: as if an Incomplete Transmission arrived for each unanswered message to the peer, or to each peer.",
    ),
    ("feed", "The host receives the messages of a message file."),
    (
        "deliver",
        "The subnet delivers a message; the words after it show what became of it.",
    ),
    (
        "lose",
        "The subnet loses a message; its answer will be 'incomplete'.",
    ),
    (
        "answer",
        "The subnet answers a message, with 'rfnm', 'incomplete' or 'dead'.",
    ),
    (
        "settle",
        "Runs every event that needs no call; how many there were follows.",
    ),
];

/// The meaning of a word, if it is one of these.
pub(crate) fn script_word_meaning(word: &str) -> Option<&'static str>
    ensures known { IfSome result (λ text. Contains script_words (word.now, text.now)) }
    ensures unknown { IfNone result (All (λ entry. entry.0 ≢ word.now) script_words) }
{
    text_beside(SCRIPT_WORDS, word)
}

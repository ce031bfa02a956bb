//! The meanings of the names of faults and refusals.
ghost use Rattle.std.specs.Prelude.{◌≢◌, ℕ, List, All, Contains, map, IfSome, IfNone};
ghost use Rattle.ncp_play_explain.specs.Names.{table};

/// A name, as the program prints it, and its meaning.
pub type Meaning = (&'static str, &'static str);

/// The names of the faults of files, scripts and regular messages, and of refused calls.
pub const NAMES: &[Meaning] = &[
    (
        "BadHeader",
        "The bytes are no message file that is read here: such a file begins with the four letters NCPH, NCPI or NCPJ; 'feed' reads NCPI, 'audit' and 'follow' read NCPJ.",
    ),
    ("Truncated", "The message file ends inside a record."),
    (
        "TooLong",
        "The length of a record is over 8,192 bits, and no message has more.",
    ),
    (
        "SpareNotZero",
        "The bits of a message end inside a byte, and a bit of that byte after them is set.",
    ),
    ("ReadFailed", "The system could not read the input."),
    (
        "WriteFailed",
        "The system could not write the output, for example because a disk is full.",
    ),
    (
        "BadDirection",
        "In a message file of version 2 each record begins with the byte 48, to the IMP, or 49, from the IMP; here is another.",
    ),
    (
        "Mixed",
        "A file of version 1 has one direction and one host: here a record has another direction than the first one, or another host than --at names. The records before it are written.",
    ),
    (
        "BadLine",
        "The line of a script asks for nothing that can be played. The lines before it were played.",
    ),
    (
        "LineTooLong",
        "The line of a script has more than 4,096 bytes.",
    ),
    (
        "BadHosts",
        "The first line of a script that is not empty and no remark names the hosts: 'host ME PEER ..' for 'ncp host', 'hosts A B' or 'many N1 N2 ..' for 'ncp world' and 'ncp record'. Here it does not.",
    ),
    (
        "OutOfMemory",
        "There was no memory for the hosts, for a line or its note; or, if a call is refused so, for the store of a connection.",
    ),
    ("UnknownPeer", "The host has no such peer."),
    (
        "NotUp",
        "The host is not up with the peer: a reset of either has to be answered first. 'phase' shows how far it is.",
    ),
    (
        "BadSex",
        "A socket of a request has the wrong sex: a sender's own is odd and the other even, a receiver's own is even and the other odd.",
    ),
    ("BadSize", "A byte size of 0."),
    (
        "BadRoom",
        "A store of fewer than 1 or more than 65,536 bits.",
    ),
    (
        "NoEntry",
        "There is no such connection: it was not asked for, or it was closed, or a reset has cleared it.",
    ),
    (
        "AlreadyAsked",
        "The connection was already asked for on this side.",
    ),
    ("Closing", "The connection is being closed on this side."),
    (
        "NotOpen",
        "The connection is not open yet: the request of one side is still missing.",
    ),
    (
        "WrongEnd",
        "The call is one of a sender, and this end is a receiver, or the other way round.",
    ),
    (
        "NotWhole",
        "The text is no whole number of bytes of the connection's size.",
    ),
    (
        "Busy",
        "An earlier one is still unanswered: a GVB, an echo, or a reset.",
    ),
    ("NoRoom", "The text does not fit the sender's store."),
    (
        "TooMuch",
        "It would be more than the receiver's store, or a counter of messages or bits, can take.",
    ),
    (
        "TableFull",
        "64 connections with this peer were asked for, and there is no place for more.",
    ),
    (
        "QueueFull",
        "256 commands are queued for this peer, and there is no place for more: ask for output first.",
    ),
    (
        "ShortPrefix",
        "A message of type 0 is shorter than its leader and its prefix, which are 72 bits.",
    ),
    (
        "M1NotZero",
        "In a message of type 0 the eight bits before the byte size are not zero.",
    ),
    ("SizeZero", "A message of type 0 has bytes of no bits."),
    (
        "M2NotZero",
        "In a message of type 0 the eight bits after the byte count are not zero.",
    ),
    (
        "TextMissing",
        "A message of type 0 has fewer bits than its byte size and its byte count say.",
    ),
];

/// The text of `name` in these names, if it is one of them.
pub fn text_beside(names: &'static [Meaning], name: &str) -> Option<&'static str>
    ensures known { IfSome result (λ text. Contains {X = List ℕ × List ℕ} (map (λ entry. (entry.0.now, entry.1.now)) names.now) (name.now, text.now)) }
    ensures unknown { IfNone result (All {X = List ℕ × List ℕ} (λ entry. entry.0 ≢ name.now) (map (λ entry. (entry.0.now, entry.1.now)) names.now)) }
{
    for (known, text) in names {
        if *known == name {
            return Some(*text);
        }
    }
    None
}

/// The meaning of a name, if it is the name of a fault or a refusal.
pub fn meaning(name: &str) -> Option<&'static str>
    ensures known { IfSome result (λ text. Contains table (name.now, text.now)) }
    ensures unknown { IfNone result (All (λ entry. entry.0 ≢ name.now) table) }
{
    text_beside(NAMES, name)
}

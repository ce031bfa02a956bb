//! The forms of the lines of scripts.
ghost use Rattle.std.specs.Prelude.{◌≡◌, ◌↔◌, ◌++◌, ℕ, List, map, IfOk, IsTrue, Contains};
ghost use Rattle.ncp_play_explain.specs.Verbs.{all_verb_words};

use crate::words::is_among;
use std::alloc::{AllocError, Global};

/// The kind of scripts that a program plays.
#[derive(Clone, Copy, Debug, Drop, PartialEq, Eq)]
pub enum Player {
    /// Scripts of one host: `ncp host`.
    Host,
    /// Scripts of two to eight hosts: `ncp world` and `ncp record`.
    World,
}

/// The kind of a script, by the way its lines name hosts.
#[derive(Clone, Copy, Drop, PartialEq, Eq)]
pub(crate) enum ScriptKind {
    /// One host.
    Host,
    /// Two hosts, by their sides.
    Sides,
    /// Two to eight hosts, by their numbers.
    Numbers,
}

/// An argument of a line: a number with its name and its greatest value, or bits.
#[derive(Clone, Copy, Drop)]
pub(crate) enum Argument {
    Number(&'static str, u32),
    Bits,
}

/// A verb and the arguments after it.
pub(crate) type Usage = (&'static str, &'static [Argument]);

/// The greatest number of bits of a message.
pub(crate) const MOST_BITS: u32 = 8192;

// The greatest numbers of one, two and four bytes.
pub(crate) const BYTE: u32 = 255;

const SHORT: u32 = 65535;

const LONG: u32 = 4294967295;

const LOCAL: Argument = Argument::Number("LOCAL", LONG);

const REMOTE: Argument = Argument::Number("REMOTE", LONG);

/// The sockets of a sender to watch.
pub(crate) const SOCKETS: &[Argument] = &[LOCAL, REMOTE];

/// The arguments of a sender to watch among hosts that numbers name: its host, its peer and its
/// sockets.
pub(crate) const SENDER: &[Argument] = &[
    Argument::Number("H", BYTE),
    Argument::Number("P", BYTE),
    LOCAL,
    REMOTE,
];

/// The peer of a call.
pub(crate) const PEER: Argument = Argument::Number("PEER", BYTE);

/// The destination of a message.
pub(crate) const TO: Argument = Argument::Number("TO", BYTE);

const LINK: Argument = Argument::Number("LINK", BYTE);

/// The calls, without their peer.
pub(crate) const CALLS: &[Usage] = &[
    ("reset", &[]),
    ("wake", &[]),
    ("phase", &[]),
    ("echoed", &[]),
    ("errors", &[]),
    ("counts", &[]),
    ("echo", &[Argument::Number("BYTE", BYTE)]),
    ("interrupt", &[LOCAL, REMOTE]),
    ("close", &[LOCAL, REMOTE]),
    ("state", &[LOCAL, REMOTE]),
    (
        "ask-send",
        &[
            LOCAL,
            REMOTE,
            Argument::Number("SIZE", BYTE),
            Argument::Number("ROOM", LONG),
        ],
    ),
    (
        "ask-receive",
        &[LOCAL, REMOTE, Argument::Number("ROOM", LONG)],
    ),
    ("give", &[LOCAL, REMOTE, Argument::Bits]),
    ("take", &[LOCAL, REMOTE, Argument::Number("BYTES", LONG)]),
    (
        "allocate",
        &[
            LOCAL,
            REMOTE,
            Argument::Number("MESSAGES", SHORT),
            Argument::Number("BITS", LONG),
        ],
    ),
    (
        "call-back",
        &[
            LOCAL,
            REMOTE,
            Argument::Number("FM", BYTE),
            Argument::Number("FB", BYTE),
        ],
    ),
];

/// Requests without a peer, in each script.
pub(crate) const PLAIN: &[Usage] = &[("ignored", &[]), ("out", &[])];

/// The other verbs of a script of one host. A restart may also be without its peer.
pub(crate) const OF_ONE_HOST: &[Usage] = &[
    ("in", &[Argument::Bits]),
    ("feed", &[]),
    ("restart", &[PEER]),
];

/// The moves of the subnet, without the destination.
pub(crate) const OF_THE_SUBNET: &[Usage] = &[
    ("deliver", &[LINK]),
    ("lose", &[LINK]),
    ("dead", &[LINK]),
    ("answer", &[LINK]),
];

/// The word of a line of several hosts that names none of them.
pub(crate) const SETTLE: &str = "settle";

// The verb of several hosts that names no host.
const OF_ALL_HOSTS: &[Usage] = &[(SETTLE, &[])];

// All verbs, of any script.
const ALL: &[&[Usage]] = &[CALLS, PLAIN, OF_ONE_HOST, OF_THE_SUBNET, OF_ALL_HOSTS];

// Adds the words of these usages.
fn add_words(words: &mut Vec<&'static str>, usages: &'static [Usage]) -> Result<(), AllocError>
    ensures { IfOk result (λ _. words.new.items ≡ words.old.items ++ map (λ usage. usage.0) usages.now) }
{
    for usage in usages {
        words.push(usage.0)?;
    }
    Ok(())
}

/// All verbs, of any script.
pub fn verbs(alloc: Global) -> Result<Vec<&'static str>, AllocError>
    ensures { IfOk result (λ words. map (λ word. word.now) words.items ≡ all_verb_words) }
{
    let mut words = Vec::new(alloc);
    for usages in ALL {
        add_words(&mut words, *usages)?;
    }
    Ok(words)
}

/// Whether a word is a verb of any script.
pub(crate) fn is_verb(alloc: Global, word: &str) -> Result<bool, AllocError>
    ensures { IfOk result (λ found. IsTrue found ↔ Contains all_verb_words word.now) }
{
    let known = verbs(alloc)?;
    Ok(is_among(word, known.as_slice()))
}

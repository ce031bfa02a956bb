//! The meanings of the words after `by=`.
ghost use Rattle.std.specs.Prelude.{◌≢◌, All, AllPairs, Contains, IfNone, IfSome};
ghost use Rattle.ncp_play_follow.specs.Ends.{ends_by_word};

use ncp_play_explain::text_beside;

/// How a connection ended, in the words that `ncp follow` prints after `by=`, with their meanings.
pub const ENDS: &[(&str, &str)] = &[
    (
        "cls",
        "The connection has ended: the host and the other have both sent a CLS. The record of the second follows ended=.",
    ),
    (
        "cls-sent",
        "The host has sent a CLS, and received none before the capture ends. A text that arrives after it is late.",
    ),
    (
        "cls-came",
        "The host has received a CLS, and sent none before the capture ends. A text after it is late.",
    ),
    (
        "rst-sent",
        "The host sent an RST, which ends all its connections with the other. The record of the RST follows ended=.",
    ),
    (
        "rst-came",
        "The host received an RST, which ends all its connections with the other. The record of the RST follows ended=.",
    ),
    (
        "rrp-came",
        "The host received the RRP to its RST: connections opened between RST and RRP have ended. The record of the RRP follows ended=.",
    ),
    (
        "end",
        "The connection is still open at the end of the capture.",
    ),
];

/// The meaning of a word after `by=`, if it is one.
pub fn end_meaning(name: &str) -> Option<&'static str>
    ensures known { IfSome result (λ text. Contains ends_by_word (name.now, text.now)) }
    ensures unknown { IfNone result (All (λ entry. entry.0 ≢ name.now) ends_by_word) }
{
    text_beside(ENDS, name)
}

/// Each word after `by=` is in the table once, so it has one meaning.
pub fn each_end_has_one_meaning()
    ensures { AllPairs (λ one other. one.0 ≢ other.0) ends_by_word }
{}

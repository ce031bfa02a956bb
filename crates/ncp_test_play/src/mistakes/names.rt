//! The meanings of names.

use ncp_play_explain::{NAMES, in_signs, meaning, nearest, word_meaning};
use std::process::Abort;

// All names and their meanings. A function, so that the prover does not read them at each use.
pub(super) fn names() -> &'static [(&'static str, &'static str)] {
    NAMES
}

// Whether `text` is the meaning of a name.
fn is_meant(name: &str, text: &str) -> bool {
    meaning(name) == Some(text) && !text.is_empty()
}

#[test]
fn names_have_their_meanings(rt: HostRuntime) {
    for (name, text) in names() {
        assert!(rt; is_meant(name, text), "{name}");
    }
    assert!(rt;
        meaning("TableFull")
            == Some("64 connections with this peer were asked for, and there is no place for more.")
    );
    assert!(rt; meaning("Table").is_none() && meaning("").is_none());
}

#[test]
fn near_words_are_found(rt: HostRuntime) {
    const KNOWN: &[&str] = &["reset", "ask-send", "ask-receive", "wake", "out"];
    const ROWS: &[(&str, Option<&str>)] = &[
        ("rest", Some("reset")),
        ("Reset", Some("reset")),
        ("ask_receive", Some("ask-receive")),
        ("wakeup", Some("wake")),
        ("outs", Some("out")),
        ("help", None),
        ("", None),
    ];
    for (word, near) in ROWS {
        assert!(rt; nearest(word, KNOWN) == *near, "{word}");
    }
    // The nearest name, and the first of two that are equally near.
    assert!(rt; nearest("rests", &["reset", "rest"]) == Some("rest"));
    assert!(rt; nearest("resat", &["reset", "resit"]) == Some("reset"));
}

#[test]
fn words_have_their_meanings(rt: HostRuntime) {
    assert!(rt;
        word_meaning("admitted")
            == Some("The receiver had allowed the text, and holds it until its user takes it.")
    );
    assert!(rt; word_meaning("BadLine").is_none() && word_meaning("").is_none());
}

#[test]
fn bytes_are_spelled(rt: HostRuntime) {
    const ROWS: &[(u8, &[u8])] = &[
        (b'a', b"a"),
        (b' ', b" "),
        (b'~', b"~"),
        (b'\\', b"\\"),
        (0x1F, b"\\x1f"),
        (0x7F, b"\\x7f"),
        (0xE9, b"\\xe9"),
    ];
    for (byte, signs) in ROWS {
        assert!(rt; in_signs(*byte).as_bytes() == *signs, "{byte}");
    }
}

//! Lines that arrive in pieces.
use ncp_play_script::{LineBuffer, LineKind, MAX_LINE};
use std::process::Abort;

// Whether a line of these pieces, the last with its LF, is of this kind, and has this text if one
// is given.
fn is_line(pieces: &[&[u8]], ended: bool, kind: LineKind, text: Option<&[u8]>) -> bool {
    let mut line = LineBuffer::new();
    for piece in pieces {
        let _used = line.take(piece);
    }
    let is_said = match text {
        Some(text) => line.text(ended) == text,
        None => true,
    };
    is_said && line.kind(ended) == kind
}

// The pieces of a line, whether an LF ends it, its kind and its text.
type Row<'a> = (&'a [&'a [u8]], bool, LineKind, &'a [u8]);

#[test]
fn reads_lines(rt: HostRuntime) {
    const ROWS: &[Row<'static>] = &[
        (&[b"a reset\nb out"], true, LineKind::Played, b"a reset"),
        (&[b"a reset\r\n"], true, LineKind::Played, b"a reset"),
        (
            &[b"a re", b"", b"set\r", b"\n"],
            true,
            LineKind::Played,
            b"a reset",
        ),
        (&[b"a reset\r\r\n"], true, LineKind::Played, b"a reset\r"),
        (&[b"a reset\r"], false, LineKind::Played, b"a reset\r"),
        (&[b"\n"], true, LineKind::Skipped, b""),
        (&[b"\r\n"], true, LineKind::Skipped, b""),
        (&[b"# a reset\n"], true, LineKind::Skipped, b"# a reset"),
        // Byte by byte.
        (
            &[b"a", b" ", b"r", b"e", b"s", b"e", b"t", b"\r", b"\n"],
            true,
            LineKind::Played,
            b"a reset",
        ),
        (&[b"#", b".", b".", b"\n"], true, LineKind::Skipped, b"#.."),
    ];
    for (pieces, ended, kind, text) in ROWS {
        assert!(rt; is_line(pieces, *ended, *kind, Some(text)));
    }
}

#[test]
fn tells_how_much_a_line_takes(rt: HostRuntime) {
    let mut line = LineBuffer::new();
    assert!(rt; line.take(b"a reset\nb out\n") == Some(8));
    line.clear();
    assert!(rt; line.take(b"b out").is_none() && line.text(true) == b"b out".as_slice());
}

#[test]
fn judges_the_longest_lines(rt: HostRuntime) {
    let bytes = [b'a'; MAX_LINE + 1];
    let longest = &bytes[..MAX_LINE];
    assert!(rt;
        is_line(&[longest, b"\r\n"], true, LineKind::Played, Some(longest))
            && is_line(&[longest], false, LineKind::Played, Some(longest))
            && is_line(&[longest, b"\r"], false, LineKind::TooLong, None)
            && is_line(&[longest, b"\r\r\n"], true, LineKind::TooLong, None)
            && is_line(&[&bytes, b"\n"], true, LineKind::TooLong, None)
            && is_line(&[&bytes, &bytes, b"\n"], true, LineKind::TooLong, None)
            && is_line(
                &[b"#", &bytes, &bytes, b"\n"],
                true,
                LineKind::Skipped,
                None
            )
    );
}

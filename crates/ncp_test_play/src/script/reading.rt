//! Lines that are read from a source.
use ncp_play_buffer::InBuffer;
use ncp_play_reader::next_line;
use ncp_play_script::LineBuffer;
use ncp_play_stream::MemorySource;
use std::process::Abort;

// The number of lines of a script, and whether an LF ended the last; `None` if a read failed.
fn lines_of(script: &[u8], fails_at: Option<u32>) -> Option<(u32, bool)> {
    let mut source = MemorySource::new(script, fails_at);
    let mut window = InBuffer::new();
    let mut line = LineBuffer::new();
    let mut count = 0u32;
    let mut last = false;
    for _round in 0..100 {
        match next_line(&mut window, &mut source, &mut line) {
            Ok(Some(ended)) => {
                count = count.saturating_add(1);
                last = ended;
            }
            Ok(None) => return Some((count, last)),
            Err(_) => return None,
        }
    }
    None
}

#[test]
fn reads_lines_from_a_source(rt: HostRuntime) {
    const ROWS: &[(&[u8], Option<u32>, Option<(u32, bool)>)] = &[
        (b"", None, Some((0, false))),
        (b"\n", None, Some((1, true))),
        (b"host 1 2\r\n\nphase 2\nout", None, Some((4, false))),
        (b"host 1 2\nout\n", None, Some((2, true))),
        (b"host 1 2\nout\n", Some(1), None),
        (b"host 1 2\nout\n", Some(2), None),
    ];
    for &(script, fails_at, lines) in ROWS {
        assert!(rt; lines_of(script, fails_at) == lines);
    }
}

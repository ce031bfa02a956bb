//! Scripts of one host, from one line to thousands.
use crate::texts::{joined, numbered, repeated};
use ncp_bits::PackedStore;
use ncp_play_host::play_host;
use ncp_play_stream::{MemorySink, MemorySource};
use std::test::Fail;

/// The last line numbers of the scripts, and room for their lines.
const LASTS: [u32; 4] = [0, 1, 100, 5000];

const ROOM: usize = 131_072;

#[test]
fn up_to_five_thousand_lines_are_played(rt: HostRuntime) -> Result<(), Fail> {
    for last in LASTS {
        let calls = repeated(rt.alloc(), b"phase 2\n", last)?;
        let script = joined(rt.alloc(), &[b"host 1 2\n", &calls])?;
        let lines = numbered(rt.alloc(), 1, last, b" phase 2 ok down\n")?;
        let mut source = MemorySource::new(&script, None);
        let mut sink = MemorySink::new(rt.alloc(), ROOM, None)?;
        let answer = play_host::<PackedStore, _, _>(rt.alloc(), &mut source, &mut sink);
        assert!(rt; answer == Ok(true) && sink.bytes() == lines.as_slice());
    }
    Ok(())
}

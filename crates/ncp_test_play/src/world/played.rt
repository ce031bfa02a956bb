//! Plays and records scripts. Without contracts, so that the prover does not follow an out buffer
//! through a long test.
use ncp_bits::{PackedStore, PlainStore};
use ncp_play_notes::PlayFault;
use ncp_play_stream::{MemorySink, MemorySource, Sink, Source};
use ncp_play_world::{play_world, record_world};
use ncp_test_streams::{Bytewise, Piecemeal};
use std::alloc::{AllocError, Global};
use std::process::Abort;
use std::test::Fail;

/// Room for the lines of a script, or for its recording.
const ROOM: usize = 16384;

/// Whether a script is played or recorded.
#[derive(Clone, Copy, Drop)]
pub(crate) enum Doing {
    Plays,
    Records,
}

/// The store of the hosts' bits.
#[derive(Clone, Copy, Drop)]
pub(crate) enum Store {
    Plain,
    Packed,
}

/// A script, and how it is read and written.
#[derive(Drop)]
pub(crate) struct Run<'a> {
    pub(crate) script: &'a [u8],
    pub(crate) doing: Doing,
    pub(crate) store: Store,
    /// The numbers of the failing read and the failing write.
    pub(crate) read: Option<u32>,
    pub(crate) write: Option<u32>,
    /// Whether one byte is read and written at a time.
    pub(crate) is_slow: bool,
    /// The number of bytes that can be written.
    pub(crate) room: usize,
}

/// The outcome of a script.
#[derive(Drop)]
pub(crate) struct Played {
    pub(crate) answer: Result<bool, PlayFault>,
    sink: MemorySink,
}

impl Played {
    pub(crate) fn written(&self) -> &[u8] {
        self.sink.bytes()
    }
}

/// A script over a store, without failing reads or writes.
pub(crate) fn whole(doing: Doing, store: Store, script: &[u8]) -> Run<'_> {
    Run {
        script,
        doing,
        store,
        read: None,
        write: None,
        is_slow: false,
        room: ROOM,
    }
}

/// A sink, made again if an allocation fails.
fn sink_of(alloc: Global, how: &Run<'_>) -> Result<MemorySink, AllocError> {
    match MemorySink::new(alloc, how.room, how.write) {
        Ok(sink) => Ok(sink),
        Err(_) => MemorySink::new(alloc, how.room, how.write),
    }
}

/// The result of playing or recording.
fn answer_of(
    rt: &impl Abort,
    alloc: Global,
    doing: Doing,
    store: Store,
    source: &mut Bytewise<'_>,
    sink: &mut Piecemeal,
) -> Result<bool, PlayFault> {
    assert!(rt; !source.failed() && !sink.failed());
    match (doing, store) {
        (Doing::Plays, Store::Plain) => play_world::<PlainStore, _, _>(alloc, source, sink),
        (Doing::Plays, Store::Packed) => play_world::<PackedStore, _, _>(alloc, source, sink),
        (Doing::Records, Store::Plain) => record_world::<PlainStore, _, _>(alloc, source, sink),
        (Doing::Records, Store::Packed) => record_world::<PackedStore, _, _>(alloc, source, sink),
    }
}

/// Plays a script, or records it.
pub(crate) fn play(rt: &impl Abort, alloc: Global, how: &Run<'_>) -> Result<Played, AllocError> {
    let is_slow = how.is_slow;
    let mut source = Bytewise {
        source: MemorySource::new(how.script, how.read),
        is_slow,
    };
    let mut sink = Piecemeal {
        sink: sink_of(alloc, how)?,
        is_slow,
    };
    let answer = answer_of(rt, alloc, how.doing, how.store, &mut source, &mut sink);
    Ok(Played {
        answer,
        sink: sink.sink,
    })
}

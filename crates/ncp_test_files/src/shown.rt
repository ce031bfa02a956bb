//! `show`, `check`, `count` and `convert` without contracts: their results and output are found by running
//! them, so the prover need not follow them through a test.
use ncp_play_files::{FileFault, check, convert, count, show};
use ncp_play_stream::{Sink, Source};

/// The result of `show`, if no failure was recorded before.
pub(crate) fn shown<R: Source, W: Sink>(
    source: &mut R,
    sink: &mut W,
) -> Option<Result<(), FileFault>> {
    if source.failed() || sink.failed() {
        return None;
    }
    Some(show(source, sink))
}

/// The result of `check`, if no failure was recorded before.
pub(crate) fn checked<R: Source, W: Sink>(
    source: &mut R,
    sink: &mut W,
) -> Option<Result<bool, FileFault>> {
    if source.failed() || sink.failed() {
        return None;
    }
    Some(check(source, sink))
}

/// The result of `count`, if no failure was recorded before.
pub(crate) fn counted<R: Source, W: Sink>(
    source: &mut R,
    sink: &mut W,
) -> Option<Result<(), FileFault>> {
    if source.failed() || sink.failed() {
        return None;
    }
    Some(count(source, sink))
}

/// The result of `convert`, if no failure was recorded before.
pub(crate) fn converted<R: Source, W: Sink>(
    source: &mut R,
    sink: &mut W,
    at: u8,
) -> Option<Result<(), FileFault>> {
    if source.failed() || sink.failed() {
        return None;
    }
    Some(convert(source, sink, at))
}

/// Whether these bytes are the first `count` of a text.
pub(crate) fn is_front(bytes: &[u8], count: usize, text: &[u8]) -> bool {
    bytes.len() == count && text.starts_with(bytes)
}

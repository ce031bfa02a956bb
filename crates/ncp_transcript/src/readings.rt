//! Readings of a host, and their notes.
ghost use Rattle.std.specs.Prelude.{◌≡◌, IfOk};
ghost use Rattle.ncp_transcript.specs.Answers.{answer_to};

use crate::call::Call;
use crate::error_list::ErrorList;
use crate::message::Message;
use crate::note::HostNote;
use ncp_bits::BitStore;
use ncp_host::{Host, Pair};
use std::alloc::{AllocError, Global};

pub(crate) fn state<S: BitStore>(host: &Host<S>, peer: u8, pair: Pair) -> HostNote
    ensures { result ≡ answer_to (Call.State peer pair) host.now }
{
    match host.state(peer, pair) {
        Ok(record) => HostNote::State { peer, pair, record },
        Err(fault) => HostNote::Refused {
            call: Call::State { peer, pair },
            fault,
        },
    }
}

pub(crate) fn phase<S: BitStore>(host: &Host<S>, peer: u8) -> HostNote
    ensures { result ≡ answer_to (Call.Phase peer) host.now }
{
    match host.phase(peer) {
        Ok(flags) => HostNote::Phase { peer, flags },
        Err(fault) => HostNote::Refused {
            call: Call::Phase { peer },
            fault,
        },
    }
}

pub(crate) fn echoed<S: BitStore>(host: &Host<S>, peer: u8) -> HostNote
    ensures { result ≡ answer_to (Call.Echoed peer) host.now }
{
    match host.echoed(peer) {
        Ok(byte) => HostNote::Echoed { peer, byte },
        Err(fault) => HostNote::Refused {
            call: Call::Echoed { peer },
            fault,
        },
    }
}

pub(crate) fn errors<S: BitStore>(
    alloc: Global,
    host: &Host<S>,
    peer: u8,
) -> Result<HostNote, AllocError>
    ensures { IfOk result (λ note. note ≡ answer_to (Call.Errors peer) host.now) }
{
    match host.errors(peer) {
        Ok(errors) => Ok(HostNote::Errors {
            peer,
            errors: ErrorList::of(alloc, errors)?,
        }),
        Err(fault) => Ok(HostNote::Refused {
            call: Call::Errors { peer },
            fault,
        }),
    }
}

pub(crate) fn counts<S: BitStore>(host: &Host<S>, peer: u8) -> HostNote
    ensures { result ≡ answer_to (Call.Counts peer) host.now }
{
    match host.counts(peer) {
        Ok(counts) => HostNote::Counts { peer, counts },
        Err(fault) => HostNote::Refused {
            call: Call::Counts { peer },
            fault,
        },
    }
}

pub(crate) fn waiting<S: BitStore>(host: &Host<S>, peer: u8, place: u32) -> HostNote
    ensures { result ≡ answer_to (Call.Waiting peer place) host.now }
{
    HostNote::Waiting {
        peer,
        place,
        command: host.waiting(peer, place),
    }
}

pub(crate) fn kept<S: BitStore>(
    alloc: Global,
    host: &Host<S>,
    peer: u8,
    link: u8,
) -> Result<HostNote, AllocError>
    ensures { IfOk result (λ note. note ≡ answer_to (Call.Kept peer link) host.now) }
{
    let message = match host.kept(peer, link) {
        Some(bits) => Some(Message::from_bits(alloc, bits)?),
        None => None,
    };
    Ok(HostNote::Kept {
        peer,
        link,
        message,
    })
}

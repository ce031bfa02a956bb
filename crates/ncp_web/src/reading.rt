//! The answer to a reading of a host, as a note. The host is unchanged.
ghost use Rattle.std.specs.Prelude.{◌≡◌};
ghost use Rattle.ncp_web.specs.Readings.{reading_of};

use ncp_bits::PackedStore;
use ncp_host::{Host, Pair};
use ncp_transcript::{Call, HostNote};

fn state(host: &Host<PackedStore>, peer: u8, pair: Pair) -> HostNote
    ensures { reading_of (Call.State peer pair) host.now ≡ Some result }
{
    match host.state(peer, pair) {
        Ok(record) => HostNote::State { peer, pair, record },
        Err(fault) => HostNote::Refused {
            call: Call::State { peer, pair },
            fault,
        },
    }
}

fn phase(host: &Host<PackedStore>, peer: u8) -> HostNote
    ensures { reading_of (Call.Phase peer) host.now ≡ Some result }
{
    match host.phase(peer) {
        Ok(flags) => HostNote::Phase { peer, flags },
        Err(fault) => HostNote::Refused {
            call: Call::Phase { peer },
            fault,
        },
    }
}

fn echoed(host: &Host<PackedStore>, peer: u8) -> HostNote
    ensures { reading_of (Call.Echoed peer) host.now ≡ Some result }
{
    match host.echoed(peer) {
        Ok(byte) => HostNote::Echoed { peer, byte },
        Err(fault) => HostNote::Refused {
            call: Call::Echoed { peer },
            fault,
        },
    }
}

fn counts(host: &Host<PackedStore>, peer: u8) -> HostNote
    ensures { reading_of (Call.Counts peer) host.now ≡ Some result }
{
    match host.counts(peer) {
        Ok(counts) => HostNote::Counts { peer, counts },
        Err(fault) => HostNote::Refused {
            call: Call::Counts { peer },
            fault,
        },
    }
}

/// The note of a call that reads a connection, the flags, the echo or the counts of a host; `None`
/// for any other call.
pub(crate) fn reading(host: &Host<PackedStore>, call: &Call) -> Option<HostNote>
    ensures { result ≡ reading_of call.now host.now }
{
    match *call {
        Call::State { peer, pair } => Some(state(host, peer, pair)),
        Call::Phase { peer } => Some(phase(host, peer)),
        Call::Echoed { peer } => Some(echoed(host, peer)),
        Call::Counts { peer } => Some(counts(host, peer)),
        Call::Ignored => Some(HostNote::Ignored {
            ignored: host.ignored(),
        }),
        _ => None,
    }
}

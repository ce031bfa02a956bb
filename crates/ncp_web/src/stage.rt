//! `SessionHosts`: the hosts of a session, with the first line that named them.
ghost use Rattle.std.specs.Prelude.{◌≡◌, IfOk, IfSome};
ghost use Rattle.std.specs.Option.{option_copied};
ghost use Rattle.ncp_web.specs.Sessions.{Begins, BeginsStage, side_at, host_of_stage};

use ncp_bits::PackedStore;
use ncp_host::Host;
use ncp_play_script::{TwoHosts, Words, is_many};
use ncp_play_simulation::Simulation;
use ncp_play_world::{ManyHostScript, TwoHostScript};
use ncp_world::Side;
use std::alloc::Global;

/// Hosts, with the first line of their script, and the number of notes of the unfinished line.
#[derive(Drop)]
pub struct HostsOf<C: Simulation> {
    pub first: C::First,
    pub hosts: C::Hosts,
    pub left: usize,
}

/// Two hosts.
pub type TwoStage = HostsOf<TwoHostScript<PackedStore>>;

/// Two to eight hosts.
pub type ManyStage = HostsOf<ManyHostScript<PackedStore>>;

/// The hosts of a session.
#[derive(Drop)]
pub enum SessionHosts {
    Two(TwoStage),
    Many(ManyStage),
}

/// Why a session does not begin, or a step fails.
#[derive(Clone, Copy, Debug, Drop)]
pub enum Refusal {
    /// The line has nothing that can be played.
    NoLine,
    /// A memory allocation failed.
    NoMemory,
    /// The buffer is too short for the lines.
    Full,
}

// Creates the hosts named in a first line.
fn begun<C: Simulation>(alloc: Global, line: &[u8]) -> Result<(C::First, C::Hosts), Refusal>
    ensures { Begins C.rules line.now result }
{
    let Some(first) = C::first_of(&mut Words::new(line)) else {
        return Err(Refusal::NoLine);
    };
    match C::begin(alloc, &first) {
        Ok(hosts) => Ok((first, hosts)),
        Err(_) => Err(Refusal::NoMemory),
    }
}

/// The side of the host with a number.
pub(crate) fn side_of(hosts: TwoHosts, number: u8) -> Option<Side>
    ensures { result ≡ side_at hosts number }
{
    if number == hosts.a {
        Some(Side::A)
    } else if number == hosts.b {
        Some(Side::B)
    } else {
        None
    }
}

impl SessionHosts {
    /// Creates the hosts named in the first line of a script, before its first event.
    pub(crate) fn new(alloc: Global, line: &[u8]) -> Result<SessionHosts, Refusal>
        ensures { BeginsStage line.now result }
    {
        if is_many(&mut Words::new(line)) {
            let (first, hosts) = begun::<ManyHostScript<PackedStore>>(alloc, line)?;
            return Ok(SessionHosts::Many(ManyStage {
                first,
                hosts,
                left: 0,
            }));
        }
        let (first, hosts) = begun::<TwoHostScript<PackedStore>>(alloc, line)?;
        Ok(SessionHosts::Two(TwoStage {
            first,
            hosts,
            left: 0,
        }))
    }

    /// The host with a number, if there is one.
    pub(crate) fn host(&self, number: u8) -> Option<&Host<PackedStore>>
        ensures { option_copied result ≡ host_of_stage number self.now }
    {
        match self {
            SessionHosts::Two(two) => {
                let side = side_of(two.first.hosts, number)?;
                Some(two.hosts.world().host(side))
            }
            SessionHosts::Many(of_many) => of_many.hosts.many().host(number),
        }
    }
}

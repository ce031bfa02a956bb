//! Receiving bits, and lookups by index in a host's state and by link.
ghost use Rattle.std.specs.Prelude.{◌≡◌, slice_get};
ghost use Rattle.ncp_leader.specs.Leader.{leader_in};
ghost use Rattle.ncp_host.specs.Arrivals.{after_received, OnlyNamedPeerChanges};
ghost use Rattle.ncp_results.specs.Lookups.{arrived_at, error_told, pair_named};

use crate::returned::{Arrived, arrived_of};
use ncp_bits::{PackedStore, Part};
use ncp_host::{Error, Errors, Host, Role};
use ncp_leader::{Leader, Short, read_leader_in};
use ncp_model::{CallFault, Pair};

// The ERR at index `place`.
fn error_at(errors: Errors<'_>, place: u32) -> Option<Error>
    ensures { result ≡ slice_get errors.entry place }
{
    let mut left = place;
    for error in errors {
        if left == 0 {
            return Some(*error);
        }
        left -= 1;
    }
    None
}

/// The ERR at index `place`; the oldest that is kept is first.
pub fn error_in(host: &Host<PackedStore>, peer: u8, place: u32) -> Result<Option<Error>, CallFault>
    ensures { result ≡ error_told peer place host.now }
{
    Ok(error_at(host.errors(peer)?, place))
}

// The connection that receives texts on the link named in a leader, if any.
fn pair_named(host: &Host<PackedStore>, leader: Result<Leader, Short>) -> Option<Pair>
    ensures { result ≡ pair_named leader host.now }
{
    let Ok(leader) = leader else {
        return None;
    };
    match host.pair_on(leader.host, Role::Receive, leader.link) {
        Ok(pair) => pair,
        Err(_) => None,
    }
}

/// `Host::receive`, with what the leader of the bits names, and for a text the connection that its
/// link identifies.
pub fn receive(host: &mut Host<PackedStore>, came: &Part<'_>) -> Arrived
    ensures host { host.new ≡ after_received came.now host.old }
    ensures bits_touch_one_peer_alone { OnlyNamedPeerChanges (leader_in came.now) host.old host.new }
    ensures arrived { result ≡ arrived_at came.now host.old }
{
    let received = host.receive_part(came);
    let leader = read_leader_in(came);
    let pair = pair_named(host, leader);
    arrived_of(pair, leader, came, received)
}

//! The messages that a host keeps for its peer.
ghost use Rattle.std.specs.Prelude.{◌≡◌, ◌≤◌, ℕ, true, None, is_some, IfSome, IfNone};
ghost use Rattle.ncp_wire.specs.declared.links.TheConstants.{LAST_LINK};
ghost use Rattle.ncp_host.specs.Host.{state_of};
ghost use Rattle.ncp_peer.specs.PeerCalls.{kept_for};
ghost use Rattle.ncp_world.specs.Lowest.{lowest_kept};

use ncp_bits::BitStore;
use ncp_host::Host;
use ncp_wire::LAST_LINK;

/// The lowest link on which a host keeps a message to a peer: to be sent again, in flight, or held
/// since its destination was dead. `None` if it keeps none, or has no such peer.
#[tactic(auto, using(crate::proofs::Lowest::lowest_none))]
pub(crate) fn first_kept<S: BitStore>(host: &Host<S>, peer: u8) -> Option<u8>
    ensures some { IfSome result (λ link. is_some (kept_for (state_of host.now peer) link) ≡ true) }
    ensures none { IfNone result ((link : ℕ) → link ≤ LAST_LINK → kept_for (state_of host.now peer) link ≡ None) }
    ensures lowest { result ≡ lowest_kept (kept_for (state_of host.now peer)) }
{
    for link in 0..LAST_LINK + 1 {
        if host.kept(peer, link).is_some() {
            return Some(link);
        }
    }
    None
}

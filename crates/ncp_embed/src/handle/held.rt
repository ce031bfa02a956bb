//! The host of a handle.
use ncp_bits::PackedStore;
use ncp_host::Host;

/// A host with its peers.
#[derive(Drop)]
pub struct BoxedHost {
    pub host: Host<PackedStore>,
}

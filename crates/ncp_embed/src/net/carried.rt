//! The subnet of a net.
use ncp_subnet::Subnet;

/// A subnet with its messages in transit.
#[derive(Drop)]
pub struct BoxedSubnet {
    pub subnet: Subnet,
}

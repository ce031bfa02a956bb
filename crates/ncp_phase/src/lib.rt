//! A host's state for a peer besides the connections: the phase of resets with the commands queued
//! for the control link, and the echo with the errors. All memory is allocated at once.
//!
//! - *Proved:* each call follows the rule of `ncp_model` that its clause names, and the saved bytes
//!   have the layout of `specs/SavedPhase.antt`.
//! - *Tests:* `host` of `ncp_test_host`.
#![tactic(auto)]

mod echoes;
mod fixed_ring;
mod flags;
mod phase;
mod queue;

pub use echoes::{Echoes, Errors};
pub use flags::Flags;
pub use phase::Phase;
pub use queue::{ControlText, is_rrp, is_rst};

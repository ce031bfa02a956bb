//! The rules of the protocol: the events of one endpoint of a connection and their effects, the
//! commands that a host's four flags permit (its phase), and the state that a host has for one
//! peer.
//!
//! The definitions are in `specs/`; the laws over them are the contracts of functions with empty
//! bodies. The crate also defines types that the crates above share: a pair of sockets, the
//! refusals of a call, and the outcome of a command or text that arrived.
//!
//! Each rule of an endpoint is next to its event: `specs/Calls.antt` (a user's call),
//! `Commands.antt` (an incoming command), `Texts.antt` (a text is admitted, sent or answered). The
//! limits are in `src/limits.rt`.
//!
//! - *Use:* `ncp_conn` and `ncp_host` implement these rules and cite them. The worked rows are in
//!   `rows`: `rows::hearing_text` has each text that is admitted or refused.
//! - *Proved:* each row, computed from the definitions; what a phase lets through (`phases`,
//!   `peers`); which endpoint a link identifies (`links`). `ncp_proof_endpoint` states the rules a
//!   second time, in another form.
//! - *Tests:* `model` of `ncp_test_host`.
#![tactic(auto)]

mod amounts;
mod call_fault;
pub mod equality;
pub mod giving_back;
mod limits;
pub mod links;
mod outcomes;
mod pair;
pub mod peers;
pub mod phases;
pub mod profile;
pub mod rows;

pub use amounts::{Amount, give_back};
pub use call_fault::CallFault;
pub use limits::{
    GIVE_BACK_PARTS, MAX_AMOUNT, MAX_BY_PEER, MAX_CALLED, MAX_CONTROL, MAX_COUNT, MAX_ERRORS,
    MAX_MESSAGES, MAX_OWN, MAX_ROOM, MAX_TEXT, MAX_WAITING,
};
pub use outcomes::{Error, Heard, Took};
pub use pair::Pair;

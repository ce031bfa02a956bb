//! One host with its peers, and a subnet between hosts, for C: each function here calls a function
//! of `ncp_host` or `ncp_subnet`, and restates its clauses.
//!
//! Requirements on C:
//!
//! - A handle or net is all zeros before its first use, and then holds what these functions left in
//!   it. C does not alter it, and does not use a copy of it besides the original.
//! - No two calls use the same handle or net at the same time.
//! - Pointers are not null, are aligned, refer to memory of the stated length, and do not overlap.
//!
//! Where to look:
//!
//! - *Use:* through `include/ncp.h`: `examples/embed/two_hosts.c`. `docs/EMBEDDING.md` describes
//!   how an emulator drives it.
//! - *Proved:* the clauses of `Host` and `Subnet`, for the host of the handle and the subnet of the
//!   net (`code`, `host`, `subnet` and `err`), and for each byte of output (for example `message`,
//!   `bits`, `output`).
//! - *Tests:* `examples/embed/refusals.c` and `digest.c`, whose digest is that of
//!   `ncp_test_digest`; `include/compare` compares header and sources.
#![tactic(auto)]

mod asking;
mod bits;
mod calls;
mod changes;
mod commands;
mod handle;
pub mod kinds;
mod life;
mod listing;
mod names;
mod net;
mod readers;
mod saving;
mod subnet;
mod which;
mod writing;

pub use handle::HostHandle;
pub use net::SubnetHandle;
pub use subnet::LinkId;
pub use which::ConnectionId;

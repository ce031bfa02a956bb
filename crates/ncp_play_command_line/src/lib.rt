//! The command line of the program `ncp`: the order that its words give, as parsed by `clap`. A
//! crate of its own, since it uses nothing of the code that performs the orders.
//!
//! - *Use:* `order(alloc, &words)` of `ncp convert --at 7` is `Order::Convert(7)`; `request`
//!   returns the file too.
//! - *Proved:* the order is the one that `clap` finds by the rules of `specs/CommandLine.antt`
//!   (`request`, clauses `named` and `kinds`).
//! - *Tests:* `command_line` of `ncp_test_files`; worked command lines in `laws`.
#![tactic(auto)]

mod command_line;
mod help;
pub mod laws;
mod orders;
mod report;

pub use command_line::{MOST_CONNECTIONS, order, request};
pub use orders::{Invocation, Order};
pub use report::Report;

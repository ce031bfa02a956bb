//! The monitor: which rules the records of a message file of version 2 break, and who breaks them.
//! The rules are about messages, outstanding messages of links, phases, requests, echoes, replies,
//! allocations and texts. Reads each record once, in order. Reads no file and writes no line.
//!
//! - *Use:* `ncp_play_audit` judges a message file with it, record by record.
//! - *Proved:* the findings of a record, and the monitor after it, are those of the definitions
//!   (`Monitor::judge`, clauses `found` and `after`). That it finds no rule broken by a host at its
//!   own interface: `ncp_proof_monitor_host`, and with resets of its IMP
//!   `ncp_proof_interface_resets`; and none at all in the file of two to eight hosts:
//!   `ncp_proof_monitor_network`.
//!   What it did not judge, and why: `Coverage`.
//! - *Tests:* worked cases in `laws`; captures in the cases `audit_*` of `ncp_test_cases`.
#![tactic(auto)]

mod act;
mod allocation;
mod conn_state;
mod conn_tables;
mod coverage;
mod finding;
mod findings;
mod host_pairs;
pub mod laws;
mod link_target;
mod message;
mod monitor;
mod observed_flow;
mod pending_reply;
mod phase;
mod reply;
mod reporting;
mod request;
mod resets;
mod speaking;
mod talked;
mod texts;
mod view;
mod views;

pub use act::Act;
pub use conn_state::{ConnState, Fact, FactKind};
pub use conn_tables::{ConnTables, MAX_TABLE_ROWS};
pub use coverage::{Coverage, PairCoverage, Unjudged};
pub use finding::{Finding, ItemKind, Rule, Unopened, Unsent, Who};
pub use findings::{Findings, MAX_FINDINGS};
pub use host_pairs::HostPairs;
pub use link_target::{LinkTarget, ReceiveLink};
pub use message::MAX_PADDING_BITS;
pub use monitor::Monitor;
pub use ncp_interface::ImpDirection;
pub use observed_flow::{Acceptance, ObservedFlow};
pub use pending_reply::{ExpectedReply, PendingReply};
pub use phase::MessageContext;
pub use resets::Trust;
pub use view::{ObservedPhase, View, Wait};
pub use views::{HOSTS, VIEWS, Views};

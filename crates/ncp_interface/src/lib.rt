//! The meaning of a record of a message file of version 2, at a host's interface to its IMP: its
//! event, what an IMP reports of its host's messages, what a message carries, what is asked for a
//! connection, and the messages that are unacknowledged on each link.
//!
//! - *Use:* `ncp_monitor` judges a capture by it, and `ncp_follow` follows its connections.
//! - *Proved:* an event is that of the definitions (`event_of`), and so are a notice (`notice_of`),
//!   the class of a message (`class_of`), and the stored messages after each of its changes
//!   (`SentMessages`).
//! - *Tests:* rows of the definitions in `examples`; the tests of the crates above, and the cases
//!   `audit_*` and `follow_*` of `ncp_test_cases`.
#![tactic(auto)]

mod doubt;
mod event;
pub mod examples;
mod imp_direction;
mod message_class;
mod notice;
mod observed_link;
mod request;
mod sent_message;
mod sent_messages;

pub use doubt::Doubt;
pub use event::{InterfaceEvent, event_of};
pub use imp_direction::ImpDirection;
pub use message_class::{MessageClass, class_of, is_unused};
pub use notice::{ImpNotice, notice_of};
pub use observed_link::ObservedLink;
pub use request::{Request, is_given, is_of_sexes, is_senders};
pub use sent_message::{LinkState, SentMessage};
pub use sent_messages::{MAX_KEPT, SentMessages};

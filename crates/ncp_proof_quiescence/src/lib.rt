//! Progress in transcripts: the spontaneous events of two hosts (sends, deliveries, answers, and
//! wakes of held messages), a bound on them, and that they end in a finished state; and a bound on
//! the messages one host can be made to send.
//!
//! - *Use:* clauses of `World::step` (`within_budget`, `finished`) and of `World::settle`
//!   (`within`).
//! - *Proved:* the moves of a transcript are bounded (`notes::moves_are_bounded`); spontaneous
//!   events are at most the work that was left
//!   (`settling::what_happens_by_itself_is_within_the_work`); when no message is ready, in transit
//!   or held, all is finished (`settled::where_nothing_can_happen_two_are_finished`). Bits of any
//!   peer bring at most two messages for each command, and one for a fault or a text
//!   (`host::no_peer_makes_a_host_send_for_ever`).
//! - *Tests:* `rows`, `notes_rows`, `host_rows`; `settled` of `ncp_test_world` plays it.
#![tactic(auto)]

pub mod host;
pub mod host_rows;
pub mod notes;
pub mod notes_rows;
pub mod rows;
pub mod settled;
pub mod settling;

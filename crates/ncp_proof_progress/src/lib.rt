//! Progress of the model's hosts: a bound on the messages that move in any schedule, and in a
//! quiescent state all is finished.
//!
//! - *Use:* `ncp_proof_quiescence` carries it over to transcripts, and to one host against any
//!   peer.
//! - *Proved:* after any event at an endpoint, the commands made and the endpoint have at most the
//!   work it had before, and what the event adds (`work::what_happens_is_bounded`). So each message
//!   sent, delivered or answered lowers a measure that only calls, losses and dead destinations can
//!   raise (`hosts::every_schedule_ends`). In a quiescent state no link has a message and nothing
//!   is queued (`idle::where_nothing_moves_nothing_is_left`), and two hosts are finished
//!   (`finished::where_nothing_moves_two_are_finished`): all text that may be sent arrived, a close
//!   closed, two requests opened.
//! - *Tests:* `rows`: an accepted call reaches each bound; `pairs`: pairs that are finished, and
//!   pairs that are not.
#![tactic(auto)]

pub mod finished;
pub mod hosts;
pub mod idle;
pub mod pairs;
pub mod rows;
pub mod work;

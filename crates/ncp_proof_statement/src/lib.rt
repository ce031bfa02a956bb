//! Every transcript of two hosts, and of each two of more, has the headline of the page
//! `ncp_statement`; and so have two hosts of this program over any other honest subnet. This crate
//! has only laws: each is the contract of a function with an empty body, or of one that calls other
//! laws.
//!
//! - *Use:* `World::step` cites `headline::transcripts_keep_the_page`, `Many::step`
//!   `each_pair::each_pair_keeps_the_page`. The author of an emulator with its own IMP finds here
//!   the condition under which its users have the headline.
//! - *Proved:* a law for each field of `Headline` (`headline`). At every moment the bits taken are
//!   a prefix of those given (`moments::what_is_taken_begins_what_is_given`). The headline of two
//!   hosts over any honest subnet (`any_subnet::headline_over_any_subnet`), and of any two among
//!   other peers, regardless of these (`among`). Such runs are exactly those of a `World` without
//!   the notes that its subnet makes itself (`any_subnet::hosts_over_any_honest_subnet_are_those_of_a_world`):
//!   the premise is neither stronger than honesty nor empty. Two hosts with nothing to send, in
//!   transit or held are finished (`quiescence`). A restart is a run of the host, without notes if
//!   no message is unanswered, and honest if none of those that are had arrived (`restart`).
//! - *Tests:* `moments::wrong_moments_are_seen`, the examples of `ncp_statement`, and `examples`, a
//!   list of notes that meets the premise, and one that no honest subnet gives.
#![tactic(auto)]

pub mod among;
pub mod any_subnet;
pub mod each_pair;
pub mod examples;
pub mod headline;
pub mod histories;
pub mod moments;
pub mod quiescence;
pub mod restart;
pub mod since;

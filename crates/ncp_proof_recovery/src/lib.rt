//! Progress among two to eight hosts, and recovery: the moves between each two are bounded, and so
//! are their spontaneous events (sends, deliveries, answers, and wakes of held messages). When two
//! are quiescent, a reset has recovered from anything before it, and each echo and each GVB has been
//! answered.
//!
//! - *Use:* clauses of `Many::step` (`within_budget`, `finished`) and of `Many::settle` (`within`).
//!   `docs/PROMISES.md` (Progress) states these laws in words.
//! - *Proved:* `many::what_moves_between_two_of_many_is_bounded` and
//!   `settling::what_happens_among_many_is_within_the_work`, from the same of two hosts.
//!   `notes::resets_recover`, `echoes::echoes_are_answered` and
//!   `calling_back::calls_back_are_answered`, each for transcripts of two hosts and for each two of
//!   many.
//! - *Tests:* `rows`: what users ask for, what happens without them, and hosts that are as new;
//!   `settled` of `ncp_test_world`.
#![tactic(auto)]

pub mod calling_back;
pub mod echoes;
pub mod many;
pub mod notes;
pub mod recovery;
pub mod rows;
pub mod settling;

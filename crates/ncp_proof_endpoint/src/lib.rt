//! One endpoint of a connection: its rules a second time, in another form, and its history. The two
//! forms of the rules check each other: a mistake in a rule is meant to contradict one of these.
//!
//! - *Use:* read the tables next to the list of calls, to check that the rules are the intended ones.
//!   The machines above have a history for each pair, which has no influence
//!   (`histories::histories_only_watch`).
//! - *Proved:* the refusals of each call as a table (`refusals`), the fields that each event leaves
//!   unchanged (`keeping`), what is conserved (`conserved`), and bytes of every size. After any
//!   events an endpoint is sound (`histories::ends_stay_sound`), keeps its limits
//!   (`ends_keep_their_limits`), and its accounts: outstanding is granted less returned less used
//!   (`receivers_keep_their_books`).
//! - *Tests:* `byte_sizes::bytes_of_every_size` and `histories::one_connection` are worked.
#![tactic(auto)]

pub mod byte_sizes;
pub mod conserved;
pub mod echoes;
pub mod histories;
pub mod keeping;
pub mod one_cls;
pub mod refusals;

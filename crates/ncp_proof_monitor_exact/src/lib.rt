//! What a clean capture means: that the rules of messages of an audit are exact, and for which
//! reasons an audit without findings leaves something unjudged. Each law is the contract of a lemma.
//!
//! - *Use:* what it means that `ncp audit` reports no broken rule of messages, for anybody's hosts
//!   and IMPs, or that `--coverage` prints nothing but the number of records; and that no rule can
//!   be lost in a definition and its code at once.
//! - *Proved:* no rule is reported and every record is judged if and only if each link was faithful
//!   (`IsFaithful`), between two hosts and in a whole capture
//!   (`exact::the_rules_of_messages_are_exact`, `.._of_all`). Then the messages of each link are in
//!   order (`exact::clean_is_in_order`). Without findings every phase is judged to the end
//!   (`exact::no_phase_suspended`), and without resets the only reasons not to judge are a lack of
//!   room and a lack of records (`judged::only_a_lack_is_a_reason`, `all_is_judged`). What is noted
//!   of two hosts is what the records say of them (`coverage`).
//! - *Tests:* `examples` and `judged_examples`: captures that are clean, that are not, and that lack
//!   records. `cases` has a worked capture for each rule that no other law names.
//!
//! `begins` in `Order` is a copy of a lemma that is private to `ncp_transcript_two` (`begins` in
//! `Turns`).
#![tactic(auto)]

pub mod cases;
pub mod coverage;
pub mod exact;
pub mod examples;
pub mod judged;
pub mod judged_examples;

//! `audit`: the findings of the monitor on a message file of version 2, one line each.
//!
//! - *Use:* `ncp audit examples/broken.ncp`.
//! - *Proved:* the lines are those of the findings, up to the first fault of the file (`audit`,
//!   clause `output`). A rule requires what the text next to its name states (`rule_meaning`), and
//!   has one text (`each_rule_has_one_meaning`).
//! - *Tests:* the cases `audit_*` of `ncp_test_cases`, and `examples/broken.audit`.
#![tactic(auto)]

mod auditing;
mod coverage_line;
mod finding_line;
mod rule_words;
mod rules;

pub use auditing::{Auditor, audit};
pub use finding_line::MAX_FINDING_LEN;
pub use rules::{RULES, each_rule_has_one_meaning, rule_meaning};

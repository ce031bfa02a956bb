//! Each rule with its meaning.

use ncp_play_audit::{RULES, rule_meaning};
use std::process::Abort;

#[test]
fn rules_have_their_meanings(rt: HostRuntime) {
    for (name, text) in RULES {
        assert!(rt;
            rule_meaning(name) == Some(*text) && !text.is_empty(),
            "{name}"
        );
    }
    assert!(rt; rule_meaning("BadLine").is_none());
}

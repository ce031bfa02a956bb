//! Each end of a connection with its meaning.

use ncp_play_follow::{ENDS, end_meaning};
use std::process::Abort;

#[test]
fn ends_have_their_meanings(rt: HostRuntime) {
    for (name, text) in ENDS {
        assert!(rt;
            end_meaning(name) == Some(*text) && !text.is_empty(),
            "{name}"
        );
    }
    assert!(rt; end_meaning("BadLine").is_none());
}

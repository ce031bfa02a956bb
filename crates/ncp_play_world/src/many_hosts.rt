//! The first line of a script of two to eight hosts.
ghost use Rattle.std.specs.Prelude.{◌≡◌, ◌<◌, ℕ, get_or, option_map, IfSome};
ghost use Rattle.ncp_play_script.specs.FirstLines.{many_first};
ghost use Rattle.ncp_transcript_many.specs.Network.{are_hosts};
ghost use Rattle.ncp_play_world.specs.ManyHosts.{if_hosts, many_of};
ghost use Rattle.ncp_play_world.specs.ManyRules.{AreProper};

use arrayvec::ArrayVec;
use ncp_host::MAX_PEERS;
use ncp_play_script::{Words, many_first};
use ncp_play_world_lines::{FirstLine, HostAndPeer, watch_of_host};
use ncp_world::are_hosts;
use std::marker::Model;

/// Two to eight hosts, as the first line of their script names them.
#[derive(Drop)]
pub struct ManyHosts {
    numbers: ArrayVec<u8, MAX_PEERS>,
}

impl Model for ManyHosts {
    ghost use Rattle.std.specs.Prelude.{ℕ, List};

    ghost Value = { List ℕ };

    ghost view = { λ hosts. hosts.numbers.items };
}

impl ManyHosts {
    /// Their numbers, in the order of the line.
    pub fn numbers(&self) -> &[u8]
        ensures { result.now ≡ self.now }
    {
        self.numbers.as_slice()
    }
}

// Whether hosts can have these numbers; each fits the field of a leader.
fn are_proper(numbers: &[u8]) -> bool
    ensures hosts { result ≡ are_hosts numbers.now }
    ensures fits { (place : ℕ) → get_or numbers.now place 0 < 256 }
{
    are_hosts(numbers)
}

// The hosts in the first words: `many` and two to eight distinct numbers.
fn many_hosts(words: &mut Words<'_>) -> Option<ManyHosts>
    ensures hosts { option_map (λ hosts. (hosts, words.new)) result ≡ if_hosts (many_first words.old) }
    ensures proper { IfSome result AreProper }
{
    let numbers = many_first(words)?;
    if are_proper(numbers.as_slice()) {
        Some(ManyHosts { numbers })
    } else {
        None
    }
}

/// The first line in all remaining words: `many`, two to eight distinct numbers, and for a sender to
/// watch `watch`, its host, its peer, its odd socket and the even remote one. On `None` the
/// remaining words are unspecified.
pub(crate) fn many_first_line(words: &mut Words<'_>) -> Option<FirstLine<ManyHosts, HostAndPeer>>
    ensures line { result ≡ many_of words.old }
    ensures proper { IfSome result (λ first. AreProper first.hosts) }
{
    let hosts = many_hosts(words)?;
    if words.is_empty() {
        return Some(FirstLine { hosts, watch: None });
    }
    let watch = watch_of_host(hosts.numbers(), words)?;
    Some(FirstLine {
        hosts,
        watch: Some(watch),
    })
}

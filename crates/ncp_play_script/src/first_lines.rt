//! The first line of a script: the hosts that it names.
ghost use Rattle.std.specs.Prelude.{◌≡◌, ◌≢◌, Some, option_map};
ghost use Rattle.ncp_play_script.specs.declared.first_lines.TwoHosts.{TwoHosts as Pair_of_hosts};
ghost use Rattle.ncp_play_script.specs.FirstLines.{named_in, numbers_of_words, few, host_named, is_many, numbers_first, few_first, many_first, hosts_first};

use crate::line_words::Words;
use arrayvec::ArrayVec;
use ncp_host::MAX_PEERS;

// The word before a host and its peers, that before two hosts, and that before two to eight.
const HOST: &[u8] = b"host";

const HOSTS: &[u8] = b"hosts";

const MANY: &[u8] = b"many";

// The word before a sender to watch.
const WATCH: &[u8] = b"watch";

/// A host and its peers, as the first line of a script of one host names them, in order. Whether a
/// host can have these peers is checked by [`ncp_host::Host::new`].
#[derive(Debug, Drop)]
pub struct HostAndPeers {
    pub me: u8,
    pub peers: ArrayVec<u8, MAX_PEERS>,
}

/// Two hosts, as the first line of their script names them.
#[derive(Clone, Copy, Debug, Drop)]
pub struct TwoHosts {
    pub a: u8,
    pub b: u8,
}

// The peers in all remaining words.
#[tactic(auto, using(crate::proofs::Peers::none_read, crate::proofs::Peers::one_read, crate::proofs::Peers::one_too_many))]
fn peers_of(words: &mut Words<'_>) -> Option<ArrayVec<u8, MAX_PEERS>>
    ensures { option_map (λ peers. peers.items) result ≡ few (numbers_of_words words.old) }
{
    let mut peers = ArrayVec::new();
    while !words.is_empty() {
        let peer = words.next_u8()?;
        peers.try_push(peer).ok()?;
    }
    Some(peers)
}

/// The host and the peers in all remaining words of a line: at most [`MAX_PEERS`]. On `None` the
/// remaining words are unspecified.
pub fn host_named(words: &mut Words<'_>) -> Option<HostAndPeers>
    ensures { option_map named_in result ≡ host_named words.old }
{
    let word = words.next_word()?;
    if word != HOST {
        return None;
    }
    let me = words.next_u8()?;
    let peers = peers_of(words)?;
    Some(HostAndPeers { me, peers })
}

/// Whether the words of a first line are those of a script of two to eight hosts: the first is
/// `many`. The remaining words are unspecified.
pub fn is_many(words: &mut Words<'_>) -> bool
    ensures { result ≡ is_many words.old }
{
    match words.next_word() {
        Some(word) => word == MANY,
        None => false,
    }
}

// The numbers in the words up to the word `watch`, which remains, or in all.
#[tactic(auto, using(crate::proofs::Peers::one_numbered, crate::proofs::Peers::one_too_many_in_front))]
fn numbers_first(words: &mut Words<'_>) -> Option<ArrayVec<u8, MAX_PEERS>>
    ensures { option_map (λ numbers. (numbers.items, words.new)) result ≡ few_first (numbers_first words.old) }
{
    let mut numbers = ArrayVec::new();
    while !words.ends_at(WATCH) {
        let number = words.next_u8()?;
        numbers.try_push(number).ok()?;
    }
    Some(numbers)
}

/// The numbers in the words of a first line after the word `many`, up to the word `watch`: at most
/// [`MAX_PEERS`]. Whether hosts can have these numbers is not checked. The words after them remain.
/// On `None` the remaining words are unspecified.
pub fn many_first(words: &mut Words<'_>) -> Option<ArrayVec<u8, MAX_PEERS>>
    ensures { option_map (λ numbers. (numbers.items, words.new)) result ≡ many_first words.old }
{
    let word = words.next_word()?;
    if word != MANY {
        return None;
    }
    numbers_first(words)
}

/// The two hosts in the first words of a line; they are distinct. The words after them remain. On
/// `None` the remaining words are unspecified.
pub fn hosts_first(words: &mut Words<'_>) -> Option<TwoHosts>
    ensures hosts { option_map (λ hosts. (hosts, words.new)) result ≡ hosts_first words.old }
    ensures distinct { (hosts : Pair_of_hosts) → result ≡ Some hosts → hosts.a ≢ hosts.b }
{
    let word = words.next_word()?;
    if word != HOSTS {
        return None;
    }
    let a = words.next_u8()?;
    let b = words.next_u8()?;
    if a == b {
        return None;
    }
    Some(TwoHosts { a, b })
}

//! The first line of a script of two hosts or more.
ghost use Rattle.std.specs.Prelude.{◌≡◌, ◌≢◌, option_map, IfSome};
ghost use Rattle.ncp_play_script.specs.Arguments.{pair_first};
ghost use Rattle.ncp_play_script.specs.Calls.{all_of};
ghost use Rattle.ncp_play_world_lines.specs.FirstLine.{if_sends, watch_asked, side_first, host_and_peer_first, first_line_of};

use crate::many_lines::host_first;
use crate::moves::side_named;
use ncp_model::Pair;
use ncp_play_script::{TwoHosts, Words, hosts_first};
use ncp_transcript_two::Side;

// The word before the sender to watch.
const WATCH: &[u8] = b"watch";

/// The endpoint whose ledger is printed after each event: a sender's. It is named by its side, or
/// by its host and its peer, and by its sockets.
#[derive(Clone, Copy, Debug, Drop)]
pub struct Watch<N> {
    pub sender: N,
    pub pair: Pair,
}

/// A host and one of its peers.
#[derive(Clone, Copy, Debug, Drop)]
pub struct HostAndPeer {
    pub host: u8,
    pub peer: u8,
}

/// The first line of a script: the hosts, and the sender to watch, if any.
#[derive(Drop)]
pub struct FirstLine<H, N> {
    pub hosts: H,
    pub watch: Option<Watch<N>>,
}

// A sender, with its sockets in all remaining words.
fn sender_of<N: Copy>(sender: N, words: &mut Words<'_>) -> Option<Watch<N>>
    ensures { result ≡ if_sends sender (all_of (pair_first words.old)) }
{
    let pair = words.next_pair()?;
    if words.is_empty() && pair.sends() {
        Some(Watch { sender, pair })
    } else {
        None
    }
}

// The side that the first word names.
fn side_first(words: &mut Words<'_>) -> Option<Side>
    ensures { option_map (λ side. (side, words.new)) result ≡ side_first words.old }
{
    side_named(words.next_word()?)
}

// The sender to watch, by its side, in all remaining words.
fn watch_of_side(words: &mut Words<'_>) -> Option<Watch<Side>>
    ensures { result ≡ watch_asked side_first words.old }
{
    let word = words.next_word()?;
    if word != WATCH {
        return None;
    }
    let side = side_first(words)?;
    sender_of(side, words)
}

// Two different ones of these hosts, in the first words.
fn host_and_peer_first(hosts: &[u8], words: &mut Words<'_>) -> Option<HostAndPeer>
    ensures { option_map (λ it. (it, words.new)) result ≡ host_and_peer_first hosts.now words.old }
{
    let host = host_first(hosts, words)?;
    let peer = host_first(hosts, words)?;
    if host == peer {
        return None;
    }
    Some(HostAndPeer { host, peer })
}

/// The sender to watch, in all remaining words: `watch`, two different ones of these hosts, its odd
/// socket and the even remote one. On `None` the remaining words are unspecified.
pub fn watch_of_host(hosts: &[u8], words: &mut Words<'_>) -> Option<Watch<HostAndPeer>>
    ensures { result ≡ watch_asked (host_and_peer_first hosts.now) words.old }
{
    let word = words.next_word()?;
    if word != WATCH {
        return None;
    }
    let sender = host_and_peer_first(hosts, words)?;
    sender_of(sender, words)
}

/// The first line in all remaining words: `hosts`, two distinct hosts, and for a sender to watch
/// `watch`, its side, its odd socket and the even remote one. On `None` the remaining words are
/// unspecified.
pub fn first_line_of(words: &mut Words<'_>) -> Option<FirstLine<TwoHosts, Side>>
    ensures line { result ≡ first_line_of words.old }
    ensures distinct { IfSome result (λ first. first.hosts.a ≢ first.hosts.b) }
{
    let hosts = hosts_first(words)?;
    if words.is_empty() {
        return Some(FirstLine { hosts, watch: None });
    }
    let watch = watch_of_side(words)?;
    Some(FirstLine {
        hosts,
        watch: Some(watch),
    })
}

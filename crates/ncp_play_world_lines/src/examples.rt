//! Lines of scripts of two hosts, and of two to eight, and their events, computed from the
//! definitions.
ghost use Rattle.std.specs.Prelude.{◌≡◌, codes, [], None, Some};
ghost use Rattle.ncp_play_script.specs.Words.{words_of};
ghost use Rattle.ncp_play_script.specs.declared.first_lines.TwoHosts.{TwoHosts};
ghost use Rattle.ncp_transcript.specs.declared.call.Call.TheVariants as calls;
ghost use Rattle.ncp_transcript_two.specs.declared.event.Event.TheVariants as events;
ghost use Rattle.ncp_transcript_two.specs.declared.side.Side.TheVariants.{A, B};
ghost use Rattle.ncp_transcript_many.specs.declared.many_event.ManyEvent.TheVariants as many_events;
ghost use Rattle.ncp_play_world_lines.specs.FirstLine.{watch_asked, host_and_peer_first, first_line_of};
ghost use Rattle.ncp_play_world_lines.specs.WorldLines.{world_line_of};
ghost use Rattle.ncp_play_world_lines.specs.ManyLines.{many_line_of};
ghost use Rattle.ncp_play_world_lines.specs.Examples.{three};

/// Each word of a line; the peer of a call is the other host.
pub fn lines_are_read_so()
    ensures reset { (hosts : TwoHosts) → world_line_of hosts (words_of (codes "a reset")) ≡ Some (events.Call A (calls.Reset hosts.b)) }
    ensures close { (hosts : TwoHosts) → world_line_of hosts (words_of (codes "b close 2 3")) ≡ Some (events.Call B (calls.Close hosts.a (record { local = 2; remote = 3 }))) }
    ensures ignored { (hosts : TwoHosts) → world_line_of hosts (words_of (codes "b ignored")) ≡ Some (events.Call B calls.Ignored) }
    ensures out { (hosts : TwoHosts) → world_line_of hosts (words_of (codes "b out")) ≡ Some (events.Out B) }
    ensures deliver { (hosts : TwoHosts) → world_line_of hosts (words_of (codes "a deliver 2")) ≡ Some (events.Deliver A 2) }
    ensures lose { (hosts : TwoHosts) → world_line_of hosts (words_of (codes "b lose 0")) ≡ Some (events.Lose B 0) }
    ensures dead { (hosts : TwoHosts) → world_line_of hosts (words_of (codes "a dead 71")) ≡ Some (events.Dead A 71) }
    ensures answer { (hosts : TwoHosts) → world_line_of hosts (words_of (codes "b answer 255")) ≡ Some (events.Answer B 255) }
{}

/// Lines without an event: no word, an unknown side or a side alone, a peer that is named, a space
/// too many, a link that is missing, too large, or followed by more, and words of a script of one
/// host.
pub fn no_lines()
    ensures none { (hosts : TwoHosts) → world_line_of hosts (words_of []) ≡ None }
    ensures side { (hosts : TwoHosts) → world_line_of hosts (words_of (codes "c out")) ≡ None }
    ensures no_side { (hosts : TwoHosts) → world_line_of hosts (words_of (codes "out")) ≡ None }
    ensures large { (hosts : TwoHosts) → world_line_of hosts (words_of (codes "A out")) ≡ None }
    ensures alone { (hosts : TwoHosts) → world_line_of hosts (words_of (codes "a")) ≡ None }
    ensures peer { (hosts : TwoHosts) → world_line_of hosts (words_of (codes "a reset 2")) ≡ None }
    ensures spaces { (hosts : TwoHosts) → world_line_of hosts (words_of (codes "a  out")) ≡ None }
    ensures end { (hosts : TwoHosts) → world_line_of hosts (words_of (codes "a out ")) ≡ None }
    ensures link { (hosts : TwoHosts) → world_line_of hosts (words_of (codes "a deliver")) ≡ None }
    ensures far { (hosts : TwoHosts) → world_line_of hosts (words_of (codes "a answer 256")) ≡ None }
    ensures more { (hosts : TwoHosts) → world_line_of hosts (words_of (codes "a lose 2 2")) ≡ None }
    ensures bits { (hosts : TwoHosts) → world_line_of hosts (words_of (codes "a in 0")) ≡ None }
    ensures feed { (hosts : TwoHosts) → world_line_of hosts (words_of (codes "a feed")) ≡ None }
{}

/// The first line: two hosts, and a sender to watch.
pub fn first_lines_of_two_hosts_are_read_so()
    ensures hosts { first_line_of (words_of (codes "hosts 0 255")) ≡ Some (record { hosts = record { a = 0; b = 255 }; watch = None }) }
    ensures watch { first_line_of (words_of (codes "hosts 1 2 watch b 5 2")) ≡ Some (record {
      hosts = record { a = 1; b = 2 };
      watch = Some (record { sender = B; pair = record { local = 5; remote = 2 } });
    }) }
    ensures receiver { first_line_of (words_of (codes "hosts 1 2 watch a 2 3")) ≡ None }
    ensures both_odd { first_line_of (words_of (codes "hosts 1 2 watch a 3 3")) ≡ None }
    ensures side { first_line_of (words_of (codes "hosts 1 2 watch c 3 2")) ≡ None }
    ensures few { first_line_of (words_of (codes "hosts 1 2 watch a 3")) ≡ None }
    ensures many { first_line_of (words_of (codes "hosts 1 2 watch a 3 2 1")) ≡ None }
    ensures alone { first_line_of (words_of (codes "hosts 1 2 watch")) ≡ None }
    ensures word { first_line_of (words_of (codes "hosts 1 2 see a 3 2")) ≡ None }
{}

/// The sender to watch of many hosts, here 1, 2 and 3: two different ones of these.
pub fn senders_of_many_are_read_so()
    ensures watch { watch_asked (host_and_peer_first three) (words_of (codes "watch 3 1 5 2")) ≡ Some (record {
      sender = record { host = 3; peer = 1 };
      pair = record { local = 5; remote = 2 };
    }) }
    ensures same { watch_asked (host_and_peer_first three) (words_of (codes "watch 3 3 5 2")) ≡ None }
    ensures host { watch_asked (host_and_peer_first three) (words_of (codes "watch 4 1 5 2")) ≡ None }
    ensures peer { watch_asked (host_and_peer_first three) (words_of (codes "watch 1 4 5 2")) ≡ None }
    ensures receiver { watch_asked (host_and_peer_first three) (words_of (codes "watch 3 1 2 5")) ≡ None }
    ensures side { watch_asked (host_and_peer_first three) (words_of (codes "watch a 1 5 2")) ≡ None }
    ensures few { watch_asked (host_and_peer_first three) (words_of (codes "watch 3 1 5")) ≡ None }
    ensures more { watch_asked (host_and_peer_first three) (words_of (codes "watch 3 1 5 2 1")) ≡ None }
    ensures alone { watch_asked (host_and_peer_first three) (words_of (codes "watch")) ≡ None }
    ensures word { watch_asked (host_and_peer_first three) (words_of (codes "see 3 1 5 2")) ≡ None }
{}

/// Each word of a line of many hosts, here 1, 2 and 3. The first host, the peer of a call and the
/// destination of a message are among these.
pub fn lines_of_many_are_read_so()
    ensures reset { many_line_of three (words_of (codes "1 reset 3")) ≡ Some (many_events.Call 1 (calls.Reset 3)) }
    ensures itself { many_line_of three (words_of (codes "1 phase 1")) ≡ Some (many_events.Call 1 (calls.Phase 1)) }
    ensures ignored { many_line_of three (words_of (codes "2 ignored")) ≡ Some (many_events.Call 2 calls.Ignored) }
    ensures out { many_line_of three (words_of (codes "3 out")) ≡ Some (many_events.Out 3) }
    ensures deliver { many_line_of three (words_of (codes "1 deliver 3 2")) ≡ Some (many_events.Deliver 1 3 2) }
    ensures to_itself { many_line_of three (words_of (codes "1 deliver 1 0")) ≡ Some (many_events.Deliver 1 1 0) }
    ensures lose { many_line_of three (words_of (codes "2 lose 3 71")) ≡ Some (many_events.Lose 2 3 71) }
    ensures dead { many_line_of three (words_of (codes "2 dead 1 0")) ≡ Some (many_events.Dead 2 1 0) }
    ensures answer { many_line_of three (words_of (codes "3 answer 1 255")) ≡ Some (many_events.Answer 3 1 255) }
{}

/// Lines of many hosts without an event: an unknown host, peer or destination, a side, a link that
/// is missing or followed by more.
pub fn no_lines_of_many()
    ensures host { many_line_of three (words_of (codes "4 out")) ≡ None }
    ensures peer { many_line_of three (words_of (codes "1 reset 4")) ≡ None }
    ensures receiver { many_line_of three (words_of (codes "1 deliver 4 0")) ≡ None }
    ensures side { many_line_of three (words_of (codes "a out")) ≡ None }
    ensures no_peer { many_line_of three (words_of (codes "1 reset")) ≡ None }
    ensures link { many_line_of three (words_of (codes "1 deliver 2")) ≡ None }
    ensures more { many_line_of three (words_of (codes "1 deliver 2 0 0")) ≡ None }
    ensures alone { many_line_of three (words_of (codes "1")) ≡ None }
    ensures nothing { many_line_of three (words_of []) ≡ None }
{}
